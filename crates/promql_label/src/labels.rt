//! Lists of labels: docs/reference/matchers.md, "Labels".

ghost use Rattle.std.specs.Prelude.{◌≡◌, ◌≢◌, ◌↔◌, ◌++◌, ◌∷◌, ◌&&◌, [], not, IfOk, IsTrue, map, string_bytes};
ghost use Rattle.promql_token.specs.Classes.{is_label};
ghost use Rattle.std.specs.List.{list_any};
ghost use Rattle.std.specs.Fmt.{WritesStyledOnOk};
ghost use Rattle.promql_label.specs.Labels.{common, is_among, is_number_word, label_text, labels_of};

use crate::common_labels::{find_common, is_any_among};
use promql_text::{Quoted, write_joined_by};
use promql_token::is_label;
use std::alloc::{AllocError, Global};
use std::convert::AsStr;
use std::fmt;
use std::fmt::Display;

/// A label's name.
pub type Label = String;

/// Two lists are compared label by label where one of them has up to so many.
const FEW: usize = 16;

/// A list of labels.
#[derive(Debug, Drop, PartialEq, Eq, Hash)]
pub struct Labels {
    pub labels: Vec<Label>,
}

impl Labels {
    /// The list of these labels.
    pub fn new(alloc: Global, labels: Vec<&str>) -> Result<Labels, AllocError>
        ensures { IfOk result (λ x. labels_of x ≡ map (λ label. label.now) labels.entry.items) }
    {
        Ok(Labels {
            labels: to_labels(alloc, &labels)?,
        })
    }

    /// The list with a label after it.
    #[inline(always)]
    pub fn append(self, label: Label) -> Result<Labels, AllocError>
        ensures { IfOk result (λ x. labels_of x ≡ labels_of self ++ string_bytes label ∷ []) }
    {
        let mut labels = self.labels;
        labels.push(label)?;
        Ok(Labels { labels })
    }

    /// Whether there is no label.
    pub fn is_empty(&self) -> bool
        ensures { IsTrue result ↔ (labels_of self.now ≡ []) }
    {
        self.labels.is_empty()
    }

    /// Whether the lists have a label in common: docs/reference/matchers.md, "Common labels".
    pub fn is_joint(&self, other: &Labels) -> bool
        ensures value { result ≡ list_any (is_among (labels_of other.now)) (labels_of self.now) }
        ensures common { IsTrue result ↔ (common (labels_of self.now) (labels_of other.now) ≢ []) }
    {
        self.has_any_of(other)
    }

    fn has_any_of(&self, other: &Labels) -> bool
        ensures { result ≡ list_any (is_among (labels_of other.now)) (labels_of self.now) }
    {
        if self.labels.len().min(other.labels.len()) > FEW {
            return is_any_among(&self.labels, &other.labels);
        }
        self.labels
            .iter()
            .any(|label| other.contains(label.as_str()))
    }

    /// The labels of this list that the other has too, each once, in the order in which this list
    /// has them first: docs/reference/matchers.md, "Common labels".
    pub fn intersect(&self, alloc: Global, other: &Labels) -> Result<Labels, AllocError>
        ensures { IfOk result (λ x.
            labels_of x ≡ common (labels_of self.now) (labels_of other.now)) }
    {
        if self.labels.len().min(other.labels.len()) > FEW {
            return Ok(Labels {
                labels: find_common(alloc, &self.labels, &other.labels)?,
            });
        }
        let mut both = Labels {
            labels: Vec::new(alloc),
        };
        for own in &self.labels {
            let label = own.as_str();
            if other.contains(label) && !both.contains(label) {
                both = both.append(String::from_str(alloc, label)?)?;
            }
        }
        Ok(both)
    }

    /// The same list, in memory of its own.
    pub fn try_clone(&self, alloc: Global) -> Result<Labels, AllocError>
        ensures { IfOk result (λ x. labels_of x ≡ labels_of self.now) }
    {
        Ok(Labels {
            labels: to_labels(alloc, &self.labels)?,
        })
    }

    fn contains(&self, label: &str) -> bool
        ensures { result ≡ is_among (labels_of self.now) label.now }
    {
        self.labels.iter().any(|other| label == other.as_str())
    }
}

/// The labels of these texts, in order.
fn to_labels<T: AsStr>(alloc: Global, texts: &[T]) -> Result<Vec<Label>, AllocError>
    ensures { IfOk result (λ labels. map string_bytes labels.items ≡ map T.text texts.now) }
{
    let mut labels = Vec::with_capacity(alloc, texts.len())?;
    for text in texts {
        labels.push(String::from_str(alloc, text.as_str())?)?;
    }
    Ok(labels)
}

impl fmt::Display for Labels {
    ghost use Rattle.std.specs.Prelude.{Some};
    ghost use Rattle.promql_label.specs.Labels.{labels_text, labels_of};

    ghost output = { λ x. Some (labels_text (labels_of x)) };

    ghost styled_output = { λ x _. Some (labels_text (labels_of x)) };

    fn fmt<W: fmt::Write>(&self, f: &mut fmt::Formatter<W>) -> fmt::Result {
        write_joined_by(&self.labels, ", ", f, write_label::<W>)
    }
}

/// Writes a label: docs/reference/matchers.md, "Printed labels".
fn write_label<W: fmt::Write>(label: &Label, f: &mut fmt::Formatter<W>) -> fmt::Result
    ensures { WritesStyledOnOk W.write_str_gives f.old result
        (label_text (string_bytes label.now)) f.new }
{
    let label = label.as_str();
    if is_bare(label) {
        f.write_str(label)
    } else {
        Quoted(label).fmt(f)
    }
}

/// Whether the label prints as it is.
pub(crate) fn is_bare(label: &str) -> bool
    ensures { result ≡ (is_label label.now && not (is_number_word label.now)) }
{
    is_label(label) && !is_number_word(label)
}

/// Whether it would be read as a number: `inf` or `nan`, in any case.
fn is_number_word(label: &str) -> bool
    ensures { result ≡ is_number_word label.now }
{
    label.eq_ignore_ascii_case("inf") || label.eq_ignore_ascii_case("nan")
}
