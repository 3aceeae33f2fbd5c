//! Whether a query may have a part that a server reads otherwise: docs/reference/targets.md.

ghost use Rattle.std.specs.Prelude.{◌≡◌, None, false, nat_le};
ghost use Rattle.std.specs.List.{list_any};
ghost use Rattle.promql_span.specs.Differences.{difference};
ghost use Rattle.promql_span.specs.QueryMarks as spec;
ghost use Rattle.promql_span.specs.declared.limits.Limits as bounds;

/// Whether a query has a mark: what each part has that a server reads otherwise. It takes a small part of lexing the query. The names of
/// calls are looked for without their beginnings, which most queries have somewhere.
#[tactic(auto, using(crate::proofs::WithoutMarks::no_difference_without_mark))]
pub fn has_mark(query: &str) -> bool
    ensures mark { result ≡ spec.has_mark query.now }
    ensures difference { result ≡ false → (limits : bounds.Limits) → difference limits query.now ≡ None }
{
    has(query, b'\\')
        || (has(query, b'-') && may_have_zero(query))
        || (has(query, b'@') && (has(query, b'.') || has(query, b'-')))
        || (has(query, b'+') && may_look_at_plus(query))
        || (has(query, b'=') && has_text(query, "bsent"))
}

#[inline(always)]
fn has(query: &str, byte: u8) -> bool
    ensures { result ≡ spec.has byte query.now }
{
    query.as_bytes().contains(&byte)
}

/// Whether a query may have a number that is zero.
fn may_have_zero(query: &str) -> bool
    ensures { result ≡ spec.may_have_zero query.now }
{
    has(query, b'0') || is_past_ascii(query)
}

fn is_past_ascii(query: &str) -> bool
    ensures { result ≡ list_any (nat_le 128) query.now }
{
    !query.is_ascii()
}

/// Whether a query may call what looks at a plus.
fn may_look_at_plus(query: &str) -> bool
    ensures { result ≡ spec.may_look_at_plus query.now }
{
    has_text(query, "bsent") || has_text(query, "mestamp")
}

#[inline(always)]
fn has_text(query: &str, text: &str) -> bool
    ensures { result ≡ spec.has_text text.now query.now }
{
    query.contains(text)
}
