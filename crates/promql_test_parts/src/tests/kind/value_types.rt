//! Value types, with their texts, and a value of a caller's own.

use crate::tests::{holds, prints};
use promql_kind::{Value, ValueType};

/// Types with their texts.
const TYPES: [(ValueType, &str); 4] = [
    (ValueType::Vector, "vector"),
    (ValueType::Scalar, "scalar"),
    (ValueType::Matrix, "matrix"),
    (ValueType::String, "string"),
];

#[test]
fn value_types_print_in_lower_case(rt: HostRuntime) {
    for (value_type, text) in &TYPES {
        prints(&rt, value_type.to_string(rt.alloc()), text);
    }
}

/// A value of a caller's own.
#[derive(Drop)]
struct Sample(u64);

impl Value for Sample {
    ghost use Rattle.promql_kind.specs.declared.value.ValueType.TheVariants.{Scalar};

    ghost type_of = { λ _. Scalar };

    fn vtype(&self) -> ValueType {
        ValueType::Scalar
    }
}

fn is_scalar<V: Value>(value: &V) -> bool {
    value.vtype() == ValueType::Scalar
}

#[test]
fn values_have_types(rt: HostRuntime) {
    let sample = Sample(7);
    holds(&rt, sample.0 == 7 && is_scalar(&sample), "a sample");
}
