//! What a fault of building is about, by the indexes of its tokens: docs/reference/grammar.md, "Places of errors".

ghost use Rattle.std.specs.Prelude.{◌≡◌, ◌+◌, ◌<◌, ◌^◌, IfSome};
ghost use Rattle.promql_ast.specs.Faults.{fault_of};
ghost use Rattle.promql_ast.specs.Tree.{binary};
ghost use Rattle.promql_ast.specs.View.{binary_tree, tree_of};
ghost use Rattle.promql_syntax.specs.Placing.{modifier_place, tokens_between};

use promql_ast::{AggregateExpr, BinaryExpr, Call, CheckFault, Expr};
use promql_kind::ValueType;

/// The tokens with the indexes from `start` up to `end`.
#[derive(Clone, Copy)]
pub struct TokenRange {
    pub start: usize,
    pub end: usize,
}

/// What a fault of building is about.
#[derive(Clone, Copy)]
pub enum Place {
    Tokens(TokenRange),
    /// The argument with this index of the call or the aggregation with these tokens.
    Argument(TokenRange, usize),
}

impl Place {
    /// The token with this index.
    pub fn token(index: usize) -> Place
        ensures { index + 1 < 2 ^ 64 → result ≡ tokens_between index (index + 1) }
    {
        Place::Tokens(TokenRange {
            start: index,
            end: index.saturating_add(1),
        })
    }

    /// The tokens from one index up to another.
    pub fn tokens(start: usize, end: usize) -> Place
        ensures { result ≡ tokens_between start end }
    {
        Place::Tokens(TokenRange { start, end })
    }
}

/// The parts of a node, by the index of the first token of each. A part ends where the next begins, and is empty where
/// the node lacks it.
#[derive(Clone, Copy)]
pub struct Extent {
    /// The left operand of an operator, or the base of a postfix.
    pub start: usize,
    /// An operator, or a postfix.
    pub operator: usize,
    /// The modifier of an operator.
    pub modifier: usize,
    /// The right operand, that of a sign, or a node without operands as a whole.
    pub right: usize,
    /// The token after the node.
    pub end: usize,
}

impl Extent {
    /// A node without operands.
    pub fn atom(start: usize, end: usize) -> Extent
        ensures { result.start ≡ start }
    {
        Extent {
            start,
            operator: start,
            modifier: start,
            right: start,
            end,
        }
    }

    /// A sign before its operand.
    pub fn sign(start: usize, operand: usize, end: usize) -> Extent {
        Extent {
            start,
            operator: start,
            modifier: operand,
            right: operand,
            end,
        }
    }

    /// A postfix after its base.
    pub fn postfix(start: usize, postfix: usize, end: usize) -> Extent
        ensures start { result.operator ≡ postfix }
        ensures end { result.end ≡ end }
    {
        Extent {
            start,
            operator: postfix,
            modifier: end,
            right: end,
            end,
        }
    }

    fn whole(&self) -> TokenRange {
        TokenRange {
            start: self.start,
            end: self.end,
        }
    }

    fn left(&self) -> Place {
        Place::tokens(self.start, self.operator)
    }

    fn modifier(&self) -> Place
        ensures { result ≡ tokens_between self.now.modifier self.now.right }
    {
        Place::tokens(self.modifier, self.right)
    }

    /// The right operand, or a node without operands.
    pub fn right(&self) -> Place {
        Place::tokens(self.right, self.end)
    }

    /// The postfix.
    pub fn after_base(&self) -> Place
        ensures { result ≡ tokens_between self.now.operator self.now.end }
    {
        Place::tokens(self.operator, self.end)
    }

    /// The part of the node that a check rejects.
    #[inline(never)]
    pub fn place_of(&self, fault: &CheckFault, expr: &Expr) -> Place
        ensures { IfSome (modifier_place (tree_of expr.now) (fault_of fault.now) self.now)
            (λ place. result ≡ place) }
    {
        match expr {
            Expr::Call(call) if is_type_fault(fault) => {
                Place::Argument(self.whole(), mistyped_argument(call))
            }
            Expr::Aggregate(aggregate) if is_type_fault(fault) => {
                Place::Argument(self.whole(), mistyped_operand(aggregate))
            }
            Expr::Binary(binary) => self.place_in_binary(fault, binary),
            Expr::Unary(_) => self.right(),
            Expr::Subquery(_) => self.left(),
            _ => Place::Tokens(self.whole()),
        }
    }

    fn place_in_binary(&self, fault: &CheckFault, binary: &BinaryExpr) -> Place
        ensures { IfSome (modifier_place (binary_tree binary.now) (fault_of fault.now) self.now)
            (λ place. result ≡ place) }
    {
        match fault {
            CheckFault::BoolModifier
            | CheckFault::LabelTwice(_)
            | CheckFault::NoGrouping(_)
            | CheckFault::VectorMatching => self.modifier(),
            CheckFault::SetOnScalar(_) => match binary.lhs.value_type() {
                ValueType::Scalar => self.left(),
                _ => self.right(),
            },
            CheckFault::BinaryTypes => match binary.lhs.value_type() {
                ValueType::Scalar | ValueType::Vector => self.right(),
                _ => self.left(),
            },
            _ => Place::Tokens(self.whole()),
        }
    }
}

fn is_type_fault(fault: &CheckFault) -> bool {
    matches!(fault, CheckFault::TypeExpected { .. })
}

/// The index of the first argument that has another type than the function's.
fn mistyped_argument(call: &Call) -> usize {
    let types = call.func.arg_types.as_slice();
    for (index, arg) in call.args.args.iter().enumerate() {
        if expected_type(types, index) != Some(arg.value_type()) {
            return index;
        }
    }
    0
}

/// The type of the argument with this index: past the list, the last type.
fn expected_type(types: &[ValueType], index: usize) -> Option<ValueType> {
    match types.get(index) {
        Some(expected) => Some(*expected),
        None => types.last().copied(),
    }
}

/// The index of the argument of an aggregation with another type than expected: its last, or its parameter.
fn mistyped_operand(aggregate: &AggregateExpr) -> usize {
    match aggregate.expr.value_type() {
        ValueType::Vector => 0,
        _ if aggregate.param.is_some() => 1,
        _ => 0,
    }
}
