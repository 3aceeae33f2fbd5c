//! Value types: docs/reference/tree.md, "Value types".

ghost use Rattle.std.specs.Prelude.{◌≡◌};

use std::fmt;

/// The type of the value that an expression evaluates to.
#[derive(Clone, Copy, Debug, PartialEq, Eq, Hash)]
pub enum ValueType {
    /// An instant vector: series with one sample each.
    Vector,
    /// A number.
    Scalar,
    /// A range vector: series with the samples of a range of time.
    Matrix,
    /// A text.
    String,
}

impl fmt::Display for ValueType {
    ghost use Rattle.std.specs.Prelude.{Some};
    ghost use Rattle.promql_kind.specs.ValueTypes.{type_text};

    ghost output = { λ t. Some (type_text t) };

    ghost styled_output = { λ t _. Some (type_text t) };

    fn fmt<W: fmt::Write>(&self, f: &mut fmt::Formatter<W>) -> fmt::Result {
        f.write_str(match self {
            ValueType::Vector => "vector",
            ValueType::Scalar => "scalar",
            ValueType::Matrix => "matrix",
            ValueType::String => "string",
        })
    }
}

/// A value that has a type.
pub trait Value {
    ghost use Rattle.promql_kind.specs.declared.value.ValueType.{ValueType};

    /// The type of each value.
    ghost type_of: { Self → ValueType };

    /// The value's type.
    fn vtype(&self) -> ValueType
        ensures { result ≡ type_of self.now };
}
