//! All that a target reads otherwise of a query, or rejects: docs/reference/targets.md.

ghost use Rattle.std.specs.Prelude.{◌≡◌, ◌++◌, map, IfOk, OnOk};
ghost use Rattle.promql_query.specs.Rejecting as spec;

use crate::rejection::Reason;
use promql_span::limits::Limits;
use promql_span::{Difference, Span, Target};
use promql_target::{Refusal, refusals};
use std::alloc::{AllocError, Global};

/// A part of a query that its target reads otherwise, or rejects.
#[derive(PartialEq, Eq, Debug, Drop)]
pub struct Finding {
    /// Why a query with this part is rejected where it is checked.
    pub reason: Reason,
    /// The part.
    pub span: Span,
}

/// The parts of a query that its target reads otherwise than what is printed, and then those that it rejects, each in the order of the
/// text, up to a lexical fault. It takes the time to read the query, whatever it finds.
///
/// # Errors
///
/// `AllocError` where an allocation failed.
pub fn findings(alloc: Global, limits: &Limits, query: &str) -> Result<Vec<Finding>, AllocError>
    ensures { IfOk result (λ fs. fs.items ≡ spec.findings limits.now query.now) }
{
    let mut findings = Vec::new(alloc);
    let differences = limits.differences(alloc, query)?;
    push_differences(&mut findings, differences.as_slice())?;
    let refusals = refusals(alloc, limits.target, query)?;
    push_refusals(&mut findings, limits.target, refusals.as_slice())?;
    Ok(findings)
}

fn push_differences(
    findings: &mut Vec<Finding>,
    differences: &[Difference],
) -> Result<(), AllocError>
    ensures { OnOk result (findings.new.items ≡ findings.old.items ++ map spec.read_otherwise differences.now) }
{
    let mut rest = differences;
    while let [first, others @ ..] = rest {
        let Difference { kind, span } = *first;
        let reason = Reason::Otherwise(kind);
        findings.push(Finding { reason, span })?;
        rest = others;
    }
    Ok(())
}

fn push_refusals(
    findings: &mut Vec<Finding>,
    target: Target,
    refusals: &[Refusal],
) -> Result<(), AllocError>
    ensures { OnOk result (findings.new.items ≡ findings.old.items ++ map (spec.refused target) refusals.now) }
{
    let mut rest = refusals;
    while let [first, others @ ..] = rest {
        let Refusal { kind, span } = *first;
        let reason = Reason::Refused(target, kind);
        findings.push(Finding { reason, span })?;
        rest = others;
    }
    Ok(())
}
