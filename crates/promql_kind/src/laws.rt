//! Laws on the definitions alone. Each is the contract of a function that does nothing.

ghost use Rattle.std.specs.Prelude.{◌≡◌, find, map};
ghost use Rattle.promql_text.specs.Equalities.{ClonesKeep, IsSameBy};
ghost use Rattle.promql_text.specs.Texts.{Text};
ghost use Rattle.promql_kind.specs.declared.function_table.TheConstants.{FUNCTIONS};
ghost use Rattle.promql_kind.specs.FunctionTable.{functions};
ghost use Rattle.promql_kind.specs.Functions.{function_named, is_named, row_signature, signature_of};
ghost use Rattle.promql_kind.specs.ModifierFeeds.{cardinality_feed, clause_feed, fills_feed, matching_feed, number_feed, signature_feed, type_feed};
ghost use Rattle.promql_kind.specs.Modifiers.{number_eq};
ghost use Rattle.promql_kind.specs.ModifierViews.{cardinality_of, clause_of, fills_of, matching_of};
ghost use Rattle.promql_kind.specs.ValueTypes.{type_eq};

use crate::bin_modifier::BinModifier;
use crate::cardinality::VectorMatchCardinality;
use crate::fill_values::VectorMatchFillValues;
use crate::function::Function;
use crate::label_modifier::LabelModifier;
use crate::value::ValueType;
use promql_text::Number;
use std::hash::Hash;

/// Value types are equal exactly if they are the same.
pub fn equal_value_types()
    ensures { IsSameBy (λ t. t) ⟦<ValueType as PartialEq>⟧.eq }
{}

/// The tests of value types and numbers that contracts name hold exactly of two that are the same.
pub fn tests_decide()
    ensures value_types { IsSameBy (λ t. t) type_eq }
    ensures numbers { IsSameBy (λ n. n) number_eq }
{}

/// A clone is the value.
pub fn equal_clones()
    ensures value_types { ClonesKeep (λ t. t) ⟦<ValueType as Clone>⟧.is_clone }
    ensures fill_values { ClonesKeep fills_of ⟦<VectorMatchFillValues as Clone>⟧.is_clone }
{}

/// Lists of labels are equal exactly if both include or both exclude, and they have the same labels in the same order.
pub fn equal_label_modifiers()
    ensures { IsSameBy clause_of ⟦<LabelModifier as PartialEq>⟧.eq }
{}

/// Cardinalities are equal exactly if they are of one kind, with the same labels in the same order.
pub fn equal_cardinalities()
    ensures { IsSameBy cardinality_of ⟦<VectorMatchCardinality as PartialEq>⟧.eq }
{}

/// Fill values are equal exactly if both sides have the same number or none. NaN is equal to itself.
pub fn equal_fill_values()
    ensures { IsSameBy fills_of ⟦<VectorMatchFillValues as PartialEq>⟧.eq }
{}

/// Modifiers of binary expressions are equal exactly if all their parts are.
pub fn equal_bin_modifiers()
    ensures { IsSameBy matching_of ⟦<BinModifier as PartialEq>⟧.eq }
{}

/// Functions are equal exactly if all their parts are.
pub fn equal_functions()
    ensures { IsSameBy signature_of ⟦<Function as PartialEq>⟧.eq }
{}

/// What is fed to a hasher: of each value all its parts in order, of a variant its index first.
pub fn hash_inputs()
    ensures numbers { (n : Number) → ⟦<Number as Hash>⟧.hash_input n ≡ number_feed n }
    ensures value_types { (t : ValueType) → ⟦<ValueType as Hash>⟧.hash_input t ≡ type_feed t }
    ensures label_modifiers { (m : LabelModifier)
        → ⟦<LabelModifier as Hash>⟧.hash_input m ≡ clause_feed (clause_of m) }
    ensures cardinalities { (card : VectorMatchCardinality)
        → ⟦<VectorMatchCardinality as Hash>⟧.hash_input card
        ≡ cardinality_feed (cardinality_of card) }
    ensures fill_values { (values : VectorMatchFillValues)
        → ⟦<VectorMatchFillValues as Hash>⟧.hash_input values ≡ fills_feed (fills_of values) }
    ensures bin_modifiers { (m : BinModifier)
        → ⟦<BinModifier as Hash>⟧.hash_input m ≡ matching_feed (matching_of m) }
    ensures functions { (f : Function)
        → ⟦<Function as Hash>⟧.hash_input f ≡ signature_feed (signature_of f) }
{}

/// The table of functions has the rows of docs/reference/functions.md, "The table", in this order and no other. So a name has
/// the function that the document gives it, and none where the document has none.
pub fn has_these_functions()
    ensures rows { map row_signature FUNCTIONS ≡ functions }
    ensures names { (name : Text) → function_named name ≡ find (is_named name) functions }
{}
