//! Laws of what is rejected.

ghost use Rattle.std.specs.Prelude.{◌≡◌, None};
ghost use Rattle.promql_text.specs.Texts.{Text};
ghost use Rattle.promql_span.specs.declared.target.Target.TheVariants.{Rules};
ghost use Rattle.promql_target.specs.Refusals.{first_refusal};

/// These rules reject no part of what they accept.
pub fn rules_reject_nothing()
    ensures { (query : Text) → first_refusal Rules query ≡ None }
{}
