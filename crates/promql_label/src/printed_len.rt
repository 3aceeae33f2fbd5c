//! How many bytes labels and matchers print, up to the greatest `usize` (docs/reference/matchers.md,
//! "Printed lengths"). Nothing is printed for it, and nothing is allocated.

ghost use Rattle.std.specs.Prelude.{◌≡◌, codes, map};
ghost use Rattle.promql_label.specs.Labels.{label_text, labels_of, labels_text};
ghost use Rattle.promql_label.specs.PlainMatchers.{group_text, matcher_text, matchers_text, name_text};
ghost use Rattle.promql_label.specs.MatcherViews.{plain_matcher_of, plain_matchers_of};
ghost use Rattle.promql_text.specs.Texts.{joined_text};
ghost use Rattle.promql_text.specs.PrintedLen.{printed_len};

use crate::labels::{Labels, is_bare};
use crate::matcher::Matcher;
use crate::matchers::Matchers;
use promql_text::{quoted_printed_len, separator_printed_len};
use promql_token::is_label;

impl Labels {
    /// The bytes that the list prints, up to the greatest `usize`.
    pub fn printed_len(&self) -> usize
        ensures { result ≡ printed_len (labels_text (labels_of self.now)) }
    {
        let mut total = 0usize;
        for (i, label) in self.labels.iter().enumerate() {
            total = total
                .saturating_add(separator_printed_len(", ", i))
                .saturating_add(label_len(label.as_str()));
        }
        total
    }
}

fn label_len(label: &str) -> usize
    ensures { result ≡ printed_len (label_text label.now) }
{
    if is_bare(label) {
        label.len()
    } else {
        quoted_printed_len(label)
    }
}

impl Matchers {
    /// The bytes that the list prints, up to the greatest `usize`.
    pub fn printed_len(&self) -> usize
        ensures { result ≡ printed_len (matchers_text (plain_matchers_of self.now)) }
    {
        let groups = self.or_matchers.as_slice();
        if groups.is_empty() {
            row_len(",", &self.matchers)
        } else {
            groups_len(groups)
        }
    }
}

/// The bytes of groups with ` or ` between each two.
fn groups_len(groups: &[Vec<Matcher>]) -> usize
    ensures { result ≡ printed_len
        (joined_text (codes " or ")
        (map (λ g. group_text (map plain_matcher_of g.items)) groups.now)) }
{
    let mut total = 0usize;
    for (i, group) in groups.iter().enumerate() {
        total = total
            .saturating_add(separator_printed_len(" or ", i))
            .saturating_add(row_len(", ", group));
    }
    total
}

/// The bytes of matchers with a separator between each two.
fn row_len(separator: &str, matchers: &[Matcher]) -> usize
    ensures { result ≡ printed_len
        (joined_text separator.now (map matcher_text (map plain_matcher_of matchers.now))) }
{
    let mut total = 0usize;
    for (i, matcher) in matchers.iter().enumerate() {
        total = total
            .saturating_add(separator_printed_len(separator, i))
            .saturating_add(matcher_len(matcher));
    }
    total
}

fn matcher_len(matcher: &Matcher) -> usize
    ensures { result ≡ printed_len (matcher_text (plain_matcher_of matcher.now)) }
{
    name_len(matcher.name.as_str())
        .saturating_add(matcher.op.text().len())
        .saturating_add(quoted_printed_len(matcher.value.as_str()))
}

fn name_len(name: &str) -> usize
    ensures { result ≡ printed_len (name_text name.now) }
{
    if is_label(name) {
        name.len()
    } else {
        quoted_printed_len(name)
    }
}
