//! How long the line of an expression with a matcher in its selectors is, which is known without a copy of the matcher:
//! docs/guide/rewriting.md, "Enforcing".

ghost use Rattle.std.specs.Prelude.{◌≡◌, IfOk, map};
ghost use Rattle.std.specs.List.{sum_by};
ghost use Rattle.promql_ast.specs.Text.{text as line_text};
ghost use Rattle.promql_ast.specs.View.{tree_of};
ghost use Rattle.promql_label.specs.MatcherViews.{plain_matcher_of, plain_matchers_of};
ghost use Rattle.promql_rewrite.specs.AddedBytes.{added_to_list, added_to_matchers, adds_bytes};
ghost use Rattle.promql_rewrite.specs.Enforcing.{enforced};
ghost use Rattle.promql_text.specs.PrintedLen.{cap_usize, printed_len};

use crate::enforcing::has_matcher;
use crate::mapping::{SelectorKind, SelectorMapper, map_expr};
use promql_ast::{Expr, VectorSelector};
use promql_label::{Matcher, Matchers};
use std::alloc::{AllocError, Global};

/// Adds up the bytes that a matcher adds to selectors, and leaves these as they are.
#[derive(Drop)]
struct AddedBytes<'a> {
    matcher: &'a Matcher,
    /// The bytes of its text.
    len: usize,
    /// The sum, up to the greatest `usize`.
    total: usize,
}

impl SelectorMapper for AddedBytes<'_> {
    type Error = AllocError;

    ghost map_gives = { adds_bytes };

    fn map_selector(
        &mut self,
        _alloc: Global,
        _kind: SelectorKind,
        selector: &mut VectorSelector,
    ) -> Result<(), AllocError> {
        let added = added_to_matchers(&selector.matchers, self.matcher, self.len);
        self.total = self.total.saturating_add(added);
        Ok(())
    }
}

/// The bytes that a matcher of so many bytes adds to matchers in their braces, or to none without braces.
fn added_to_matchers(matchers: &Matchers, matcher: &Matcher, len: usize) -> usize
    ensures { result ≡ cap_usize (added_to_matchers len (plain_matcher_of matcher.now) (plain_matchers_of matchers.now)) }
{
    match matchers.or_matchers.as_slice() {
        [] => added_to_list(2, 1, &matchers.matchers, matcher, len),
        [group] => added_to_list(2, 2, group, matcher, len),
        groups => added_to_groups(groups, matcher, len),
    }
}

/// The bytes that it adds to several groups.
fn added_to_groups(groups: &[Vec<Matcher>], matcher: &Matcher, len: usize) -> usize
    ensures { result ≡ cap_usize (sum_by (added_to_list 0 2 len (plain_matcher_of matcher.now))
        (map (λ g. map plain_matcher_of g.items) groups.now)) }
{
    let mut total = 0usize;
    for group in groups {
        total = total.saturating_add(added_to_list(0, 2, group, matcher, len));
    }
    total
}

/// The bytes that it adds to a list: none where an equal matcher is there, else its own, and so many more where it is the first
/// there, or comes after others.
fn added_to_list(
    first: usize,
    after: usize,
    matchers: &[Matcher],
    matcher: &Matcher,
    len: usize,
) -> usize
    ensures { result ≡ cap_usize (added_to_list first after len (plain_matcher_of matcher.now) (map plain_matcher_of matchers.now)) }
{
    if has_matcher(matchers, matcher) {
        return 0;
    }
    let more = if matchers.is_empty() { first } else { after };
    len.saturating_add(more)
}

/// The bytes of the expression's line once the matcher is in every selector, up to the greatest `usize`. The expression stays as it
/// is.
pub(crate) fn enforced_len(
    alloc: Global,
    expr: &mut Expr,
    matcher: &Matcher,
) -> Result<usize, AllocError>
    ensures same { IfOk result (λ _. tree_of expr.new ≡ tree_of expr.old) }
    ensures len { IfOk result (λ n. n ≡ printed_len (line_text (enforced (plain_matcher_of matcher.now) (tree_of expr.old)))) }
{
    let text = matcher.to_string(alloc)?;
    let mut added = AddedBytes {
        matcher,
        len: text.len(),
        total: 0,
    };
    map_expr(alloc, expr, SelectorKind::Series, &mut added)?;
    let line = expr.to_string(alloc)?;
    Ok(line.len().saturating_add(added.total))
}
