//! What the text and the value of the JSON form have in common: docs/reference/json.md, "Parts".

ghost use Rattle.std.specs.Prelude.{◌≡◌, false, not, option_map};
ghost use Rattle.std.specs.Option.{option_map_or};
ghost use Rattle.promql_kind.specs.ModifierViews.{clause_of};
ghost use Rattle.promql_kind.specs.Modifiers.{is_including};
ghost use Rattle.promql_kind.specs.ValueTypes.{type_text};
ghost use Rattle.promql_ast.specs.Shifts.{shift_of};
ghost use Rattle.promql_json.specs.JsonParts as spec;

use promql_ast::Offset;
use promql_kind::{LabelModifier, ValueType};

/// Whether an aggregation's clause is `without`: the key `without`.
pub fn is_without(modifier: &Option<LabelModifier>) -> bool
    ensures { result ≡ option_map_or (λ c. not (is_including c)) (option_map clause_of modifier.now) false }
{
    match modifier {
        Some(modifier) => !modifier.is_include(),
        None => false,
    }
}

/// An offset in whole milliseconds, 0 where there is none: the key `offset`. What is below a millisecond is left out.
pub fn offset_millis(offset: Option<Offset>) -> i128
    ensures { result ≡ spec.shift_millis (option_map shift_of offset) }
{
    match offset {
        Some(Offset::Pos(back)) => back.as_millis() as i128,
        Some(Offset::Neg(ahead)) => -(ahead.as_millis() as i128),
        None => 0,
    }
}

/// The text of a type: the key `returnType`, and the items of `argTypes`.
pub fn type_name(value_type: ValueType) -> &'static str
    ensures { result.now ≡ type_text value_type }
{
    match value_type {
        ValueType::Vector => "vector",
        ValueType::Scalar => "scalar",
        ValueType::Matrix => "matrix",
        ValueType::String => "string",
    }
}
