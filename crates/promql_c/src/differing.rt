//! What the target of a query reads otherwise, or rejects, as JSON: docs/guide/bindings.md, "Differences".

ghost use Rattle.std.specs.Prelude.{◌≡◌, IfOk, List, map, string_bytes};
ghost use Rattle.serde_json.specs.View.{view};
ghost use Rattle.serde_json.specs.Written.{compact_text};
ghost use Rattle.promql_json.specs.JsonParts.{list};
ghost use Rattle.promql_text.specs.Texts.{Text};
ghost use Rattle.promql_query.specs.QueryErrors.{Gives};
ghost use Rattle.promql_query.specs.declared.findings.Finding as found;
ghost use Rattle.promql_c.specs.FindingsText.{IsFindingsText, row_value};

use crate::tree_call::TreeCall;
use promql_ast::Expr;
use promql_query::findings::{Finding, findings};
use promql_query::finite_json::value_text;
use promql_query::query_error::QueryError;
use promql_span::limits::Limits;
use serde_json::{Value, json};
use std::alloc::{AllocError, Global};

/// The number of the error, where the part begins and ends, in bytes, and the message.
fn finding_value(alloc: Global, finding: &Finding) -> Result<Value, AllocError>
    ensures { IfOk result (λ v. (message : Text) × (view v ≡ row_value (finding.now, message))) }
{
    let message = finding.reason.plain_message(alloc)?;
    let Finding { reason, span } = finding;
    json!(in alloc; [reason.number(), span.start, span.end, message])
}

/// A list of these.
fn findings_value(alloc: Global, findings: &[Finding]) -> Result<Value, AllocError>
    ensures { IfOk result (λ v. (rows : List (found.Finding × Text)) × (map (λ row. row.0) rows ≡ findings.now)
        × (view v ≡ list (map row_value rows))) }
{
    let mut list = Vec::with_capacity(alloc, findings.len())?;
    let mut rest = findings;
    while let [finding, others @ ..] = rest {
        let value = finding_value(alloc, finding)?;
        list.push(value)?;
        rest = others;
    }
    Ok(Value::Array(list))
}

/// The JSON of the findings of a text.
fn text_of_findings(alloc: Global, limits: &Limits, query: &str) -> Result<String, AllocError>
    ensures { IfOk result (λ s. IsFindingsText limits.now query.now (string_bytes s)) }
{
    let findings = findings(alloc, limits, query)?;
    let value = findings_value(alloc, findings.as_slice())?;
    value_text(alloc, value)
}

/// `calls::differences`. The query is read by these rules alone, and its findings are those of these limits.
#[derive(Clone, Copy)]
pub(crate) struct DifferencesCall<'a> {
    pub(crate) limits: &'a Limits,
}

impl TreeCall for DifferencesCall<'_> {
    ghost tells = { λ call limits query t. Gives (IsFindingsText call.limits.now query) (λ e. ⊥) };

    fn tell(
        &self,
        alloc: Global,
        _limits: &Limits,
        query: &str,
        _expr: &Expr,
    ) -> Result<String, QueryError> {
        Ok(text_of_findings(alloc, self.limits, query)?)
    }
}
