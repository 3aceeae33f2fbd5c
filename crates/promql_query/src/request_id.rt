//! The id of a request, which its answer has, too: docs/reference/programs.md, "Answers".

ghost use Rattle.std.specs.Prelude.{◌≡◌, ◌≤◌, ◌∷◌, IfOk, codes, string_bytes};
ghost use Rattle.serde_json.specs.Data.{depth};
ghost use Rattle.serde_json.specs.Find.{get};
ghost use Rattle.serde_json.specs.Read.{max_depth};
ghost use Rattle.serde_json.specs.View.{view};
ghost use Rattle.promql_text.specs.Texts.{Text};
ghost use Rattle.promql_query.specs.Batch.{HasId};
ghost use Rattle.promql_query.specs.BatchSteps.{id_before};

use serde_json::Value;
use std::alloc::{AllocError, Global};

/// The answer with an id before its members.
fn insert_id(alloc: Global, id: &str, answer: &str) -> Result<String, AllocError>
    ensures { (members : Text) → answer.now ≡ 123 ∷ members
        → IfOk result (λ s. string_bytes s ≡ id_before id.now members) }
{
    let members = match answer.strip_prefix("{") {
        Some(members) => members,
        None => answer,
    };
    let mut text = String::new(alloc);
    text.push_str("{\"id\":")?;
    text.push_str(id)?;
    text.push_str(",")?;
    text.push_str(members)?;
    Ok(text)
}

/// The answer with the id of its request, if that has one.
pub(crate) fn answer_with_id(
    alloc: Global,
    asked: &Value,
    answer: String,
) -> Result<String, AllocError>
    requires { depth (view asked.now) ≤ max_depth }
    ensures { (members : Text) → string_bytes answer ≡ 123 ∷ members
        → IfOk result (λ s. HasId (get (codes "id") (view asked.now)) members (string_bytes s)) }
{
    match asked.get("id") {
        None => Ok(answer),
        Some(id) => {
            let id = id.to_string(alloc)?;
            insert_id(alloc, id.as_str(), answer.as_str())
        }
    }
}
