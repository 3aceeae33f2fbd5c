//! All that one pass over the tokens of a query tells of it: docs/reference/programs.md, "Limits of a query" and "Targets".

ghost use Rattle.std.specs.Prelude.{◌≡◌, ◌≤◌, [], IfErr, IfOk, false, length, None};
ghost use Rattle.promql_span.specs.Differences.{difference};
ghost use Rattle.promql_span.specs.Inspections.{IsInspected};
ghost use Rattle.promql_span.specs.QueryLimits.{IsLimitFault, IsWithin};
ghost use Rattle.promql_span.specs.declared.target.Target.TheVariants.{Rules};
ghost use Rattle.promql_target.specs.Refusals as spec;
ghost use Rattle.promql_target.specs.Searching.{IsSearched};

use crate::refusal::{FoundRefusal, Refusal, first_refusal};
use promql_span::limits::{LimitFault, Limits, check_limits, may_have_pattern};
use promql_span::{Difference, Inspection, Printed, Target, has_mark, inspect_tokens};
use promql_token::cursor::Cursor;
use std::alloc::Global;

/// What the target of a query that is within its limits makes of it.
#[derive(Clone, Copy, Debug, PartialEq, Eq)]
pub struct Inspected {
    /// The first part that it reads otherwise than what is printed.
    pub difference: Option<Difference>,
    /// The first part that it rejects, where the query is checked.
    pub refusal: Option<Refusal>,
}

/// What reads a query that is checked.
fn checked_by(printed: Printed, target: Target) -> Target
    ensures { result ≡ spec.checked_by printed target }
{
    match printed {
        Printed::Nothing => target,
        Printed::Tree | Printed::Layout | Printed::SortedLayout => Target::Rules,
    }
}

/// Whether the target may read a part of the query otherwise.
fn may_differ(limits: &Limits, query: &str) -> bool
    ensures { result ≡ false → difference limits.now query.now ≡ None }
{
    match limits.target {
        Target::Rules => false,
        Target::Prometheus2 | Target::Prometheus3 => has_mark(query),
    }
}

/// What the target makes of a query, where the query is within its limits. The tokens up to a lexical fault are looked at once, where it
/// is checked, or has something of which something may be found.
///
/// # Errors
///
/// Those of `check_limits`.
pub fn inspect(alloc: Global, limits: &Limits, query: &str) -> Result<Inspected, LimitFault>
    ensures within { IfOk result (λ i. IsWithin query.now limits.now) }
    ensures difference { IfOk result (λ i. i.difference ≡ difference limits.now query.now) }
    ensures refusal { IfOk result (λ i. i.refusal ≡ spec.refusal limits.now query.now) }
    ensures fault { IfErr result (IsLimitFault query.now limits.now) }
{
    let len = query.len();
    let most = limits.max_len;
    if len > most {
        return Err(LimitFault::TooLong { len, most });
    }
    match checked_by(limits.printed, limits.target) {
        Target::Rules => inspect_printed(alloc, limits, query),
        target if may_have_pattern(query) || may_differ(limits, query) => {
            inspect_checked(alloc, limits, query, target)
        }
        target => Ok(Inspected {
            difference: None,
            refusal: first_refusal(target, query),
        }),
    }
}

/// The same of a query that is not too long, and of which no part is rejected.
fn inspect_printed(alloc: Global, limits: &Limits, query: &str) -> Result<Inspected, LimitFault>
    requires short { length query.now ≤ limits.now.max_len }
    requires printed { spec.checked_by limits.now.printed limits.now.target ≡ Rules }
    ensures within { IfOk result (λ i. IsWithin query.now limits.now) }
    ensures difference { IfOk result (λ i. i.difference ≡ difference limits.now query.now) }
    ensures refusal { IfOk result (λ i. i.refusal ≡ spec.refusal limits.now query.now) }
    ensures fault { IfErr result (IsLimitFault query.now limits.now) }
{
    if !may_differ(limits, query) {
        check_limits(alloc, query, limits)?;
        return Ok(Inspected {
            difference: None,
            refusal: None,
        });
    }
    let inspection = inspect_tokens(alloc, limits, query)?;
    match inspection.limit_fault(limits) {
        Some(fault) => Err(fault),
        None => Ok(Inspected {
            difference: inspection.difference(query),
            refusal: None,
        }),
    }
}

/// The same of a query that is not too long, and is checked for this target. Of most queries nothing is found, and a loop that ends where
/// something is has less to carry.
fn inspect_checked(
    alloc: Global,
    limits: &Limits,
    query: &str,
    target: Target,
) -> Result<Inspected, LimitFault>
    requires short { length query.now ≤ limits.now.max_len }
    requires checked { spec.checked_by limits.now.printed limits.now.target ≡ target }
    ensures within { IfOk result (λ i. IsWithin query.now limits.now) }
    ensures difference { IfOk result (λ i. i.difference ≡ difference limits.now query.now) }
    ensures refusal { IfOk result (λ i. i.refusal ≡ spec.refusal limits.now query.now) }
    ensures fault { IfErr result (IsLimitFault query.now limits.now) }
{
    let mut tokens = Cursor::new(query);
    let mut found = FoundRefusal::new();
    let mut inspection = Inspection::new();
    while let Some(token) = tokens.next() {
        found.pass(target, query, token, tokens);
        inspection.pass(alloc, limits, query, token, tokens)?;
        if found.first.is_some() || inspection.has_found() {
            return inspect_all(alloc, limits, query, target);
        }
    }
    end_of_pass(limits, query, found, inspection)
}

/// The same, whatever is found.
fn inspect_all(
    alloc: Global,
    limits: &Limits,
    query: &str,
    target: Target,
) -> Result<Inspected, LimitFault>
    requires short { length query.now ≤ limits.now.max_len }
    requires checked { spec.checked_by limits.now.printed limits.now.target ≡ target }
    ensures within { IfOk result (λ i. IsWithin query.now limits.now) }
    ensures difference { IfOk result (λ i. i.difference ≡ difference limits.now query.now) }
    ensures refusal { IfOk result (λ i. i.refusal ≡ spec.refusal limits.now query.now) }
    ensures fault { IfErr result (IsLimitFault query.now limits.now) }
{
    let mut tokens = Cursor::new(query);
    let mut found = FoundRefusal::new();
    let mut inspection = Inspection::new();
    while let Some(token) = tokens.next() {
        found.pass(target, query, token, tokens);
        inspection.pass(alloc, limits, query, token, tokens)?;
    }
    end_of_pass(limits, query, found, inspection)
}

/// What all tokens of a query tell of it.
#[inline(always)]
fn end_of_pass(
    limits: &Limits,
    query: &str,
    found: FoundRefusal,
    inspection: Inspection,
) -> Result<Inspected, LimitFault>
    requires short { length query.now ≤ limits.now.max_len }
    requires searched { IsSearched (spec.checked_by limits.now.printed limits.now.target) query.now [] found }
    requires inspected { IsInspected limits.now query.now [] inspection }
    ensures within { IfOk result (λ i. IsWithin query.now limits.now) }
    ensures difference { IfOk result (λ i. i.difference ≡ difference limits.now query.now) }
    ensures refusal { IfOk result (λ i. i.refusal ≡ spec.refusal limits.now query.now) }
    ensures fault { IfErr result (IsLimitFault query.now limits.now) }
{
    match inspection.limit_fault(limits) {
        Some(fault) => Err(fault),
        None => Ok(Inspected {
            difference: inspection.difference(query),
            refusal: found.first,
        }),
    }
}
