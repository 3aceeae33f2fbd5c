//! The labels that two long lists have in common: docs/reference/matchers.md, "Common labels".

ghost use Rattle.std.specs.Prelude.{◌≡◌, ◌≤◌, ◌&&◌, ◌++◌, ◌∷◌, [], IfOk, OnOk, if◌then◌else◌, length, map, not, string_bytes};
ghost use Rattle.std.specs.List.{list_any};
ghost use Rattle.std.specs.Str.{bytes_eq};
ghost use Rattle.promql_label.specs.LabelRows.{IsInOrder, label_texts};
ghost use Rattle.promql_label.specs.LabelSets.{has_text};
ghost use Rattle.promql_label.specs.Labels.{common, is_among};
ghost use Rattle.promql_text.specs.Texts.{Text};

use crate::labels::Label;
use std::alloc::{AllocError, Global};
use std::collections::BTreeSet;

/// The labels that a row holds.
const ROW: usize = 1024;

/// Whether one of the labels is among the others. These are sorted part by part, in a row on the
/// stack, and each label is searched in each part.
pub(crate) fn is_any_among(labels: &[Label], others: &[Label]) -> bool
    ensures { result
        ≡ list_any (is_among (map string_bytes others.now)) (map string_bytes labels.now) }
{
    let mut rest = others;
    'parts: while !rest.is_empty() {
        let (part, more) = rest.split_at(rest.len().min(ROW));
        if is_any_in_part(labels, part, rest[0].as_str()) {
            return true;
        }
        rest = more;
    }
    false
}

// Not inlined: the row is to take no room in the frames of callers.
#[inline(never)]
fn is_any_in_part<'a>(labels: &[Label], part: &'a [Label], first: &'a str) -> bool
    requires { length part.now ≤ ROW }
    ensures { result
        ≡ list_any (is_among (map string_bytes part.now)) (map string_bytes labels.now) }
{
    let mut row = [first; ROW];
    is_any_in_row(labels, part, &mut row[..part.len()])
}

/// Whether one of the labels is in the part, which is sorted in the row.
fn is_any_in_row<'a>(labels: &[Label], part: &'a [Label], row: &mut [&'a str]) -> bool
    requires { length row.old ≡ length part.now }
    ensures { result
        ≡ list_any (is_among (map string_bytes part.now)) (map string_bytes labels.now) }
{
    fill(row, part);
    row.sort_unstable();
    is_any_in_order(labels, row)
}

/// Puts the labels into the row, which is as long.
fn fill<'a>(row: &mut [&'a str], labels: &'a [Label])
    requires { length row.old ≡ length labels.now }
    ensures { label_texts row.new ≡ map string_bytes labels.now }
{
    'texts: for i in 0..labels.len() {
        row[i] = labels[i].as_str();
    }
}

/// Whether one of the labels is in the row, which is in order.
fn is_any_in_order(labels: &[Label], row: &[&str]) -> bool
    requires { IsInOrder row.now }
    ensures { result ≡ list_any (is_among (label_texts row.now)) (map string_bytes labels.now) }
{
    'search: for label in labels {
        if is_in_row(row, label.as_str()) {
            return true;
        }
    }
    false
}

fn is_in_row(row: &[&str], label: &str) -> bool
    requires { IsInOrder row.now }
    ensures { result ≡ is_among (label_texts row.now) label.now }
{
    row.binary_search_by(|text| (*text).cmp(label)).is_ok()
}

/// The labels that are among the others too, each once, in the order in which they come first. The
/// others wait in a set, from which each is taken where it comes first.
pub(crate) fn find_common(
    alloc: Global,
    labels: &[Label],
    others: &[Label],
) -> Result<Vec<Label>, AllocError>
    ensures { IfOk result (λ both. map string_bytes both.items
        ≡ common (map string_bytes labels.now) (map string_bytes others.now)) }
{
    let mut left = to_set(alloc, others)?;
    let mut both = Vec::new(alloc);
    'search: for label in labels {
        take_label(alloc, label.as_str(), &mut left, &mut both)?;
    }
    Ok(both)
}

/// Moves the label from the set to the end of the list, if the set still has it.
fn take_label(
    alloc: Global,
    label: &str,
    left: &mut BTreeSet<&str>,
    both: &mut Vec<Label>,
) -> Result<(), AllocError>
    ensures left { OnOk result ((t : Text) → has_text left.new t
        ≡ (has_text left.old t && not (bytes_eq label.now t))) }
    ensures both { OnOk result (map string_bytes both.new.items ≡ map string_bytes both.old.items
        ++ (if has_text left.old label.now then label.now ∷ [] else [])) }
{
    if left.remove(label) {
        both.push(String::from_str(alloc, label)?)?;
    }
    Ok(())
}

fn to_set<'a>(alloc: Global, labels: &'a [Label]) -> Result<BTreeSet<&'a str>, AllocError>
    ensures { IfOk result (λ set. (t : Text)
        → has_text set t ≡ is_among (map string_bytes labels.now) t) }
{
    let mut set = BTreeSet::new(alloc);
    'texts: for label in labels {
        set.insert(label.as_str())?;
    }
    Ok(set)
}
