//! A matcher in every selector: docs/guide/rewriting.md, "Enforcing".

ghost use Rattle.std.specs.Prelude.{◌≡◌, ◌≢◌, ◌↔◌, ◌⊎◌, Err, IfErr, IfOk, IsErrOf, Ok, OnOk, codes, false, map, string_bytes, true};
ghost use Rattle.std.specs.List.{list_any};
ghost use Rattle.promql_ast.specs.Same.{matcher_eq};
ghost use Rattle.promql_ast.specs.Tree.{Tree};
ghost use Rattle.promql_ast.specs.View.{tree_of};
ghost use Rattle.promql_label.specs.MatcherViews.{plain_matcher_of, plain_matchers_of};
ghost use Rattle.promql_label.specs.PlainMatchers.{name_of};
ghost use Rattle.promql_syntax.specs.ParseAnswers.{IsAnswerTo, plain_error_of};
ghost use Rattle.promql_syntax.specs.declared.parser.ParseError.{ParseError};
ghost use Rattle.promql_rewrite.specs.Enforced.{HasEnforced, IsEnforced};
ghost use Rattle.promql_rewrite.specs.EnforceErrors.{IsOfEnforced};
ghost use Rattle.promql_rewrite.specs.Faithful.{IsLineOf, MeansOther};
ghost use Rattle.promql_ast.specs.Text.{text as line_text};
ghost use Rattle.promql_rewrite.specs.Enforcing.{enforced, enforced_matchers, enforced_selector, has_bare_info, with_matcher};
ghost use Rattle.promql_rewrite.specs.declared.faithful.NotFaithful.{NotFaithful};

use crate::bare_info::has_bare_info;
use crate::changing::{PartChange, change_parts};
use crate::faithful::{NotFaithful, faithful_line};
use promql_ast::{Expr, VectorSelector};
use promql_kind::{BinModifier, LabelModifier};
use promql_label::{METRIC_NAME, Matcher, Matchers};
use promql_syntax::parser::{ParseError, parse};
use std::alloc::{AllocError, Global};
use thiserror::Error;

/// Why a matcher was not enforced.
#[derive(PartialEq, Eq, Debug, Drop, Error)]
pub enum EnforceError {
    /// An allocation failed.
    #[error("out of memory")]
    Memory,
    /// The matcher is of the metric's name, which a selector has before its braces.
    #[error("a matcher of the metric name cannot be enforced")]
    MetricName,
    /// The parser rejects the query.
    #[error("{0}")]
    Parse(ParseError),
    /// The line of the enforced tree does not mean it.
    #[error("{0}")]
    Unfaithful(NotFaithful),
    /// A call of `info` has no second argument, so it reads series that no selector of the query selects.
    #[error("info without a selector reads series that no matcher limits")]
    Info,
}

impl From<AllocError> for EnforceError {
    ghost use Rattle.std.specs.Prelude.{◌≡◌};
    ghost use Rattle.promql_rewrite.specs.declared.enforcing.EnforceError.TheVariants.{Memory};

    ghost from_gives = { λ _ e. e ≡ Memory };

    fn from(_e: AllocError) -> EnforceError {
        EnforceError::Memory
    }
}

impl From<ParseError> for EnforceError {
    ghost use Rattle.promql_rewrite.specs.EnforceErrors.{IsPassedOn};

    ghost from_gives = { IsPassedOn };

    fn from(error: ParseError) -> EnforceError {
        match error {
            ParseError::Memory => EnforceError::Memory,
            own => EnforceError::Parse(own),
        }
    }
}

impl From<NotFaithful> for EnforceError {
    ghost use Rattle.promql_rewrite.specs.EnforceErrors.{IsUnfaithful};

    ghost from_gives = { IsUnfaithful };

    fn from(error: NotFaithful) -> EnforceError {
        match error {
            NotFaithful::Memory => EnforceError::Memory,
            own => EnforceError::Unfaithful(own),
        }
    }
}

/// The expression with the matcher in every selector, and in each of its or-groups, wherever selectors stand. Where an equal
/// matcher is there already, nothing is added.
///
/// Each selector then selects exactly the series that it selected and the matcher allows (law
/// `enforced_selectors_select`); nothing else changes.
///
/// # Errors
///
/// `MetricName` exactly where the matcher is of the label `__name__`; else `Info` exactly where a call of `info` has no second
/// argument, before anything is changed; `Memory` where an allocation failed.
pub fn enforce(alloc: Global, expr: Expr, matcher: &Matcher) -> Result<Expr, EnforceError>
    ensures ok { IfOk result (λ e.
        tree_of e ≡ enforced (plain_matcher_of matcher.now) (tree_of expr)) }
    ensures name { IsErrOf result EnforceError.MetricName
        ↔ (name_of (plain_matcher_of matcher.now) ≡ codes "__name__") }
    ensures info { IsErrOf result EnforceError.Info
        ↔ ((name_of (plain_matcher_of matcher.now) ≢ codes "__name__")
        × (has_bare_info (tree_of expr) ≡ true)) }
    ensures limited { IfOk result (λ _. has_bare_info (tree_of expr) ≡ false) }
    ensures errors { IfErr result (λ e. (e ≡ EnforceError.Memory) ⊎ (e ≡ EnforceError.MetricName)
        ⊎ (e ≡ EnforceError.Info)) }
{
    if matcher.name.as_str() == METRIC_NAME {
        drop(expr);
        return Err(EnforceError::MetricName);
    }
    if has_bare_info(&expr) {
        drop(expr);
        return Err(EnforceError::Info);
    }
    let mut expr = expr;
    match enforce_expr(alloc, &mut expr, matcher) {
        Ok(()) => Ok(expr),
        Err(error) => {
            drop(expr);
            Err(EnforceError::from(error))
        }
    }
}

/// The query with the matcher in every selector, on one line. The text that is returned is read again before, and means the
/// enforced tree of the query.
///
/// # Errors
///
/// `MetricName` exactly where the matcher is of the label `__name__`, before the query is looked at; `Parse` where the parser
/// rejects the query; `Info` where a call of `info` in it has no second argument; `Unfaithful` where the text would not mean the
/// enforced tree; `Memory` where an allocation failed.
pub fn enforce_query(alloc: Global, query: &str, matcher: &Matcher) -> Result<String, EnforceError>
    ensures ok { IfOk result (λ line.
        IsEnforced query.now (plain_matcher_of matcher.now) (string_bytes line)) }
    ensures name { IsErrOf result EnforceError.MetricName
        ↔ (name_of (plain_matcher_of matcher.now) ≡ codes "__name__") }
    ensures parse { (e : ParseError) → IsErrOf result (EnforceError.Parse e)
        → IsAnswerTo query.now (Err (plain_error_of e)) × (e ≢ ParseError.Memory) }
    ensures info { IsErrOf result EnforceError.Info
        → (t : Tree) × IsAnswerTo query.now (Ok t) × (has_bare_info t ≡ true) }
    ensures rejected { (e : ParseError)
        → IsErrOf result (EnforceError.Unfaithful (NotFaithful.Rejected e))
        → HasEnforced query.now (plain_matcher_of matcher.now)
        (λ u. IsAnswerTo (line_text u) (Err (plain_error_of e))) × (e ≢ ParseError.Memory) }
    ensures other { IsErrOf result (EnforceError.Unfaithful NotFaithful.OtherTree)
        → HasEnforced query.now (plain_matcher_of matcher.now) (λ u. MeansOther (line_text u) u) }
    ensures no_memory { ¬ (IsErrOf result (EnforceError.Unfaithful NotFaithful.Memory)) }
    ensures no_indent { ¬ (IsErrOf result (EnforceError.Unfaithful NotFaithful.IndentTooWide)) }
{
    if matcher.name.as_str() == METRIC_NAME {
        return Err(EnforceError::MetricName);
    }
    let mut expr = parse(alloc, query)?;
    if has_bare_info(&expr) {
        drop(expr);
        return Err(EnforceError::Info);
    }
    let line = enforced_line(alloc, &mut expr, matcher);
    drop(expr);
    line
}

/// Puts the matcher into every selector, and returns the line of the expression.
fn enforced_line(alloc: Global, expr: &mut Expr, matcher: &Matcher) -> Result<String, EnforceError>
    ensures ok { IfOk result (λ s. IsLineOf
        (enforced (plain_matcher_of matcher.now) (tree_of expr.old)) (string_bytes s)) }
    ensures rejected { (e : ParseError)
        → IsErrOf result (EnforceError.Unfaithful (NotFaithful.Rejected e)) → IsAnswerTo
        (line_text (enforced (plain_matcher_of matcher.now) (tree_of expr.old)))
        (Err (plain_error_of e)) }
    ensures other { IsErrOf result (EnforceError.Unfaithful NotFaithful.OtherTree) → MeansOther
        (line_text (enforced (plain_matcher_of matcher.now) (tree_of expr.old)))
        (enforced (plain_matcher_of matcher.now) (tree_of expr.old)) }
    ensures errors { IfErr result IsOfEnforced }
{
    match enforce_expr(alloc, expr, matcher) {
        Ok(()) => {}
        Err(error) => return Err(EnforceError::from(error)),
    }
    match faithful_line(alloc, expr) {
        Ok(line) => Ok(line),
        Err(error) => Err(EnforceError::from(error)),
    }
}

/// The matcher that is put into every selector.
#[derive(Clone, Copy)]
struct Enforced<'a> {
    matcher: &'a Matcher,
}

impl PartChange for Enforced<'_> {
    ghost selectors = { λ e. enforced_selector (plain_matcher_of e.matcher.now) };

    ghost clauses = { λ _ m. m };

    ghost matchings = { λ _ m. m };

    fn change_selector(
        &self,
        alloc: Global,
        selector: &mut VectorSelector,
    ) -> Result<(), AllocError> {
        enforce_matchers(alloc, &mut selector.matchers, self.matcher)
    }

    fn change_clause(
        &self,
        _alloc: Global,
        _clause: &mut Option<LabelModifier>,
    ) -> Result<(), AllocError> {
        Ok(())
    }

    fn change_matching(
        &self,
        _alloc: Global,
        _modifier: &mut Option<BinModifier>,
    ) -> Result<(), AllocError> {
        Ok(())
    }
}

/// Puts the matcher into every selector. Where an allocation fails, some selectors may have it.
pub(crate) fn enforce_expr(
    alloc: Global,
    expr: &mut Expr,
    matcher: &Matcher,
) -> Result<(), AllocError>
    ensures { OnOk result
        (tree_of expr.new ≡ enforced (plain_matcher_of matcher.now) (tree_of expr.old)) }
{
    change_parts(alloc, expr, &Enforced { matcher })
}

/// Puts the matcher into each or-group, or where there is none beside the groups.
fn enforce_matchers(
    alloc: Global,
    matchers: &mut Matchers,
    matcher: &Matcher,
) -> Result<(), AllocError>
    ensures { OnOk result (plain_matchers_of matchers.new
        ≡ enforced_matchers (plain_matcher_of matcher.now) (plain_matchers_of matchers.old)) }
{
    if matchers.or_matchers.is_empty() {
        enforce_list(alloc, &mut matchers.matchers, matcher)
    } else {
        enforce_groups(alloc, &mut matchers.or_matchers, matcher)
    }
}

/// Puts the matcher into each group.
fn enforce_groups(
    alloc: Global,
    groups: &mut [Vec<Matcher>],
    matcher: &Matcher,
) -> Result<(), AllocError>
    ensures { OnOk result (map (λ g. map plain_matcher_of g.items) groups.new
        ≡ map (λ g. with_matcher (plain_matcher_of matcher.now) (map plain_matcher_of g.items)) groups.old) }
{
    for i in 0..groups.len() {
        enforce_list(alloc, &mut groups[i], matcher)?;
    }
    Ok(())
}

/// Appends the matcher, unless an equal one is there.
fn enforce_list(
    alloc: Global,
    matchers: &mut Vec<Matcher>,
    matcher: &Matcher,
) -> Result<(), AllocError>
    ensures { OnOk result (map plain_matcher_of matchers.new.items
        ≡ with_matcher (plain_matcher_of matcher.now) (map plain_matcher_of matchers.old.items)) }
{
    if has_matcher(matchers, matcher) {
        return Ok(());
    }
    matchers.push(matcher.try_clone(alloc)?)?;
    Ok(())
}

/// Whether an equal matcher is among these.
pub(crate) fn has_matcher(matchers: &[Matcher], matcher: &Matcher) -> bool
    ensures { result ≡ list_any (matcher_eq (plain_matcher_of matcher.now)) (map plain_matcher_of matchers.now) }
{
    matchers.iter().any(|own| is_same(matcher, own))
}

fn is_same(one: &Matcher, other: &Matcher) -> bool
    ensures { result ≡ matcher_eq (plain_matcher_of one.now) (plain_matcher_of other.now) }
{
    promql_label::laws::equal_matchers();
    one == other
}
