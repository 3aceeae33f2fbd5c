//! How many elements of one side match one of the other: docs/reference/tree.md, "Modifiers".

ghost use Rattle.std.specs.Prelude.{◌≡◌, IfOk, map, option_map};
ghost use Rattle.promql_label.specs.Labels.{labels_of};
ghost use Rattle.promql_kind.specs.Modifiers.{grouping, is_grouping, many_to_one, one_to_many};
ghost use Rattle.promql_kind.specs.ModifierViews.{cardinality_of};

use promql_label::Labels;
use std::alloc::{AllocError, Global};

/// How many elements of the left side match one of the right, and the other way round.
#[derive(Debug, Drop, PartialEq, Eq, Hash)]
pub enum VectorMatchCardinality {
    /// One matches one.
    OneToOne,
    /// Many on the left match one on the right, whose labels of this list they take over: `group_left`.
    ManyToOne(Labels),
    /// One on the left, whose labels of this list are taken over, matches many on the right: `group_right`.
    OneToMany(Labels),
    /// Any number matches any number: set operators.
    ManyToMany,
}

impl VectorMatchCardinality {
    /// The labels after `group_left` or `group_right`; None without a grouping.
    pub fn labels(&self) -> Option<&Labels>
        ensures { option_map (λ labels. labels_of labels.now) result
            ≡ grouping (cardinality_of self.now) }
    {
        match self {
            VectorMatchCardinality::OneToOne => None,
            VectorMatchCardinality::ManyToOne(labels) => Some(labels),
            VectorMatchCardinality::OneToMany(labels) => Some(labels),
            VectorMatchCardinality::ManyToMany => None,
        }
    }

    /// `group_left` with these labels.
    ///
    /// # Errors
    ///
    /// `AllocError` where an allocation failed.
    pub fn many_to_one(
        alloc: Global,
        labels: Vec<&str>,
    ) -> Result<VectorMatchCardinality, AllocError>
        ensures { IfOk result (λ card. cardinality_of card
            ≡ many_to_one (map (λ label. label.now) labels.entry.items)) }
    {
        Ok(VectorMatchCardinality::ManyToOne(Labels::new(alloc, labels)?))
    }

    /// `group_right` with these labels.
    ///
    /// # Errors
    ///
    /// `AllocError` where an allocation failed.
    pub fn one_to_many(
        alloc: Global,
        labels: Vec<&str>,
    ) -> Result<VectorMatchCardinality, AllocError>
        ensures { IfOk result (λ card. cardinality_of card
            ≡ one_to_many (map (λ label. label.now) labels.entry.items)) }
    {
        Ok(VectorMatchCardinality::OneToMany(Labels::new(alloc, labels)?))
    }

    /// A copy of the cardinality.
    ///
    /// # Errors
    ///
    /// `AllocError` where an allocation failed.
    pub fn try_clone(&self, alloc: Global) -> Result<VectorMatchCardinality, AllocError>
        ensures { IfOk result (λ card. cardinality_of card ≡ cardinality_of self.now) }
    {
        match self {
            VectorMatchCardinality::OneToOne => Ok(VectorMatchCardinality::OneToOne),
            VectorMatchCardinality::ManyToOne(labels) => {
                Ok(VectorMatchCardinality::ManyToOne(labels.try_clone(alloc)?))
            }
            VectorMatchCardinality::OneToMany(labels) => {
                Ok(VectorMatchCardinality::OneToMany(labels.try_clone(alloc)?))
            }
            VectorMatchCardinality::ManyToMany => Ok(VectorMatchCardinality::ManyToMany),
        }
    }

    /// Whether it is `group_left` or `group_right`.
    pub fn is_grouping(&self) -> bool
        ensures { result ≡ is_grouping (cardinality_of self.now) }
    {
        self.labels().is_some()
    }
}
