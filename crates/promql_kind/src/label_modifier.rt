//! Lists of labels to include or to exclude: docs/reference/tree.md, "Modifiers".

ghost use Rattle.std.specs.Prelude.{◌≡◌, IfOk, map};
ghost use Rattle.promql_label.specs.Labels.{labels_of};
ghost use Rattle.promql_kind.specs.Modifiers.{clause_labels, including, excluding, is_including};
ghost use Rattle.promql_kind.specs.ModifierViews.{clause_of};

use promql_label::Labels;
use std::alloc::{AllocError, Global};

/// The labels that count, after `by` and `on`, or that do not, after `without` and `ignoring`.
#[derive(Debug, Drop, PartialEq, Eq, Hash)]
pub enum LabelModifier {
    /// These labels alone.
    Include(Labels),
    /// All labels but these.
    Exclude(Labels),
}

impl LabelModifier {
    /// The labels.
    pub fn labels(&self) -> &Labels
        ensures { labels_of result.now ≡ clause_labels (clause_of self.now) }
    {
        match self {
            LabelModifier::Include(labels) => labels,
            LabelModifier::Exclude(labels) => labels,
        }
    }

    /// Whether the labels are included.
    pub fn is_include(&self) -> bool
        ensures { result ≡ is_including (clause_of self.now) }
    {
        matches!(self, LabelModifier::Include(_))
    }

    /// Includes these labels.
    ///
    /// # Errors
    ///
    /// `AllocError` where an allocation failed.
    pub fn include(alloc: Global, labels: Vec<&str>) -> Result<LabelModifier, AllocError>
        ensures { IfOk result
            (λ m. clause_of m ≡ including (map (λ label. label.now) labels.entry.items)) }
    {
        Ok(LabelModifier::Include(Labels::new(alloc, labels)?))
    }

    /// Excludes these labels.
    ///
    /// # Errors
    ///
    /// `AllocError` where an allocation failed.
    pub fn exclude(alloc: Global, labels: Vec<&str>) -> Result<LabelModifier, AllocError>
        ensures { IfOk result
            (λ m. clause_of m ≡ excluding (map (λ label. label.now) labels.entry.items)) }
    {
        Ok(LabelModifier::Exclude(Labels::new(alloc, labels)?))
    }

    /// A copy of the modifier.
    ///
    /// # Errors
    ///
    /// `AllocError` where an allocation failed.
    pub fn try_clone(&self, alloc: Global) -> Result<LabelModifier, AllocError>
        ensures { IfOk result (λ m. clause_of m ≡ clause_of self.now) }
    {
        match self {
            LabelModifier::Include(labels) => Ok(LabelModifier::Include(labels.try_clone(alloc)?)),
            LabelModifier::Exclude(labels) => Ok(LabelModifier::Exclude(labels.try_clone(alloc)?)),
        }
    }
}
