//! Hashes of trees: docs/reference/tree.md, "Hashes". A node feeds a hasher what the expression of it feeds: first the
//! index of its variant in `Expr`, then its fields in order.

ghost use Rattle.std.specs.Prelude.{◌≡◌, fold, option_map, string_bytes};
ghost use Rattle.std.specs.Duration.{as_nanos};
ghost use Rattle.std.specs.Hash.{on_Alike, option, same_Alike, u128};
ghost use Rattle.std.proofs.lemmas.Slice.Eq.{bytes_eq-Decides};
ghost use Rattle.promql_kind.proofs.Equal.{number_Decides};
ghost use Rattle.promql_kind.specs.Functions.{signature_of};
ghost use Rattle.promql_kind.specs.ModifierFeeds.{clause_feed, matching_feed, signature_feed};
ghost use Rattle.promql_kind.specs.ModifierViews.{clause_of, matching_of};
ghost use Rattle.promql_ast.specs.SameLaws.{moment_eq-Decides, shift_eq-Decides, tree_eq-Decides, trees_eq-Decides};
ghost use Rattle.promql_ast.specs.Shifts.{moment_of, shift_of};
ghost use Rattle.promql_ast.specs.Tree.{number, string};
ghost use Rattle.promql_ast.specs.TreeFeed.{maybe_feed, moment_feed, selector_feed, shift_feed, tree_feed, trees_feed};
ghost use Rattle.promql_ast.specs.View.{aggregate_tree, binary_tree, call_tree, children_of, extension_tree, matrix_tree, option_tree, paren_tree, selector_of, subquery_tree, tree_of, trees_of, unary_tree, vector_tree};

use crate::aggregate::AggregateExpr;
use crate::at_modifier::AtModifier;
use crate::binary::BinaryExpr;
use crate::call::{Call, FunctionArgs};
use crate::expr::Expr;
use crate::extension::Extension;
use crate::matrix_selector::MatrixSelector;
use crate::number_literal::NumberLiteral;
use crate::offset::Offset;
use crate::paren::ParenExpr;
use crate::string_literal::StringLiteral;
use crate::subquery::SubqueryExpr;
use crate::unary::UnaryExpr;
use crate::vector_selector::VectorSelector;
use promql_kind::{BinModifier, Function, LabelModifier};
use std::hash::{Hash, Hasher};
use std::time::Duration;

impl Hash for Expr {
    ghost hash_input = { λ e. tree_feed (tree_of e) };

    ghost respects_eq = { (on_Alike tree_of (same_Alike tree_feed tree_eq-Decides)).fed };

    #[cycle(hash)]
    #[tactic(auto, using(crate::proofs::nodes::NodeParts::tree_of_call, crate::proofs::nodes::NodeParts::tree_of_extension, crate::proofs::nodes::NodeParts::tree_of_aggregate))]
    fn hash<H: Hasher>(&self, state: &mut H) {
        match self {
            Expr::Aggregate(e) => e.hash(state),
            Expr::Unary(e) => e.hash(state),
            Expr::Binary(e) => e.hash(state),
            Expr::Paren(e) => e.hash(state),
            Expr::Subquery(e) => e.hash(state),
            Expr::NumberLiteral(e) => e.hash(state),
            Expr::StringLiteral(e) => e.hash(state),
            Expr::VectorSelector(e) => e.hash(state),
            Expr::MatrixSelector(e) => e.hash(state),
            Expr::Call(e) => e.hash(state),
            Expr::Extension(e) => e.hash(state),
        }
    }
}

impl Hash for AggregateExpr {
    ghost hash_input = { λ a. tree_feed (aggregate_tree a) };

    ghost respects_eq = { (on_Alike aggregate_tree (same_Alike tree_feed tree_eq-Decides)).fed };

    #[cycle(hash)]
    fn hash<H: Hasher>(&self, state: &mut H) {
        state.write_isize(0);
        state.write_u16(self.op.id());
        (*self.expr).hash(state);
        hash_param(&self.param, state);
        hash_labels(&self.modifier, state);
    }
}

#[cycle(hash)]
fn hash_param<H: Hasher>(param: &Option<Box<Expr>>, state: &mut H)
    ensures { state.new ≡ fold H.write state.old (maybe_feed (option_tree param.now)) }
{
    match param {
        Some(param) => {
            state.write_isize(1);
            (**param).hash(state);
        }
        None => state.write_isize(0),
    }
}

fn hash_labels<H: Hasher>(labels: &Option<LabelModifier>, state: &mut H)
    ensures { state.new
        ≡ fold H.write state.old (option clause_feed (option_map clause_of labels.now)) }
{
    labels.hash(state);
}

impl Hash for UnaryExpr {
    ghost hash_input = { λ u. tree_feed (unary_tree u) };

    ghost respects_eq = { (on_Alike unary_tree (same_Alike tree_feed tree_eq-Decides)).fed };

    #[cycle(hash)]
    fn hash<H: Hasher>(&self, state: &mut H) {
        state.write_isize(1);
        (*self.expr).hash(state);
    }
}

impl Hash for BinaryExpr {
    ghost hash_input = { λ b. tree_feed (binary_tree b) };

    ghost respects_eq = { (on_Alike binary_tree (same_Alike tree_feed tree_eq-Decides)).fed };

    #[cycle(hash)]
    fn hash<H: Hasher>(&self, state: &mut H) {
        state.write_isize(2);
        state.write_u16(self.op.id());
        (*self.lhs).hash(state);
        (*self.rhs).hash(state);
        hash_matching(&self.modifier, state);
    }
}

fn hash_matching<H: Hasher>(matching: &Option<BinModifier>, state: &mut H)
    ensures { state.new
        ≡ fold H.write state.old (option matching_feed (option_map matching_of matching.now)) }
{
    matching.hash(state);
}

impl Hash for ParenExpr {
    ghost hash_input = { λ p. tree_feed (paren_tree p) };

    ghost respects_eq = { (on_Alike paren_tree (same_Alike tree_feed tree_eq-Decides)).fed };

    #[cycle(hash)]
    fn hash<H: Hasher>(&self, state: &mut H) {
        state.write_isize(3);
        (*self.expr).hash(state);
    }
}

impl Hash for SubqueryExpr {
    ghost hash_input = { λ s. tree_feed (subquery_tree s) };

    ghost respects_eq = { (on_Alike subquery_tree (same_Alike tree_feed tree_eq-Decides)).fed };

    #[cycle(hash)]
    fn hash<H: Hasher>(&self, state: &mut H) {
        state.write_isize(4);
        (*self.expr).hash(state);
        hash_offset(&self.offset, state);
        hash_at(&self.at, state);
        state.write_u128(self.range.as_nanos());
        hash_step(&self.step, state);
    }
}

fn hash_offset<H: Hasher>(offset: &Option<Offset>, state: &mut H)
    ensures { state.new
        ≡ fold H.write state.old (option shift_feed (option_map shift_of offset.now)) }
{
    offset.hash(state);
}

fn hash_at<H: Hasher>(at: &Option<AtModifier>, state: &mut H)
    ensures { state.new
        ≡ fold H.write state.old (option moment_feed (option_map moment_of at.now)) }
{
    at.hash(state);
}

fn hash_step<H: Hasher>(step: &Option<Duration>, state: &mut H)
    ensures { state.new ≡ fold H.write state.old (option u128 (option_map as_nanos step.now)) }
{
    match step {
        Some(step) => {
            state.write_isize(1);
            state.write_u128(step.as_nanos());
        }
        None => state.write_isize(0),
    }
}

impl Hash for NumberLiteral {
    ghost hash_input = { λ n. tree_feed (number n.val) };

    ghost respects_eq = { (on_Alike (λ n. n.val)
        (same_Alike (λ v. tree_feed (number v)) number_Decides)).fed };

    fn hash<H: Hasher>(&self, state: &mut H) {
        state.write_isize(5);
        self.val.hash(state);
    }
}

impl Hash for StringLiteral {
    ghost hash_input = { λ s. tree_feed (string (string_bytes s.val)) };

    ghost respects_eq = { (on_Alike (λ s. string_bytes s.val)
        (same_Alike (λ w. tree_feed (string w)) bytes_eq-Decides)).fed };

    fn hash<H: Hasher>(&self, state: &mut H) {
        state.write_isize(6);
        self.val.hash(state);
    }
}

impl Hash for VectorSelector {
    ghost hash_input = { λ v. tree_feed (vector_tree v) };

    ghost respects_eq = { (on_Alike vector_tree (same_Alike tree_feed tree_eq-Decides)).fed };

    fn hash<H: Hasher>(&self, state: &mut H) {
        state.write_isize(7);
        hash_selector(self, state);
    }
}

fn hash_selector<H: Hasher>(selector: &VectorSelector, state: &mut H)
    ensures { state.new ≡ fold H.write state.old (selector_feed (selector_of selector.now)) }
{
    selector.name.hash(state);
    selector.matchers.hash(state);
    hash_offset(&selector.offset, state);
    hash_at(&selector.at, state);
}

impl Hash for MatrixSelector {
    ghost hash_input = { λ m. tree_feed (matrix_tree m) };

    ghost respects_eq = { (on_Alike matrix_tree (same_Alike tree_feed tree_eq-Decides)).fed };

    fn hash<H: Hasher>(&self, state: &mut H) {
        state.write_isize(8);
        hash_selector(&self.vs, state);
        state.write_u128(self.range.as_nanos());
        self.mode.hash(state);
    }
}

impl Hash for Call {
    ghost hash_input = { λ c. tree_feed (call_tree c) };

    ghost respects_eq = { (on_Alike call_tree (same_Alike tree_feed tree_eq-Decides)).fed };

    #[cycle(hash)]
    fn hash<H: Hasher>(&self, state: &mut H) {
        state.write_isize(9);
        hash_function(&self.func, state);
        self.args.hash(state);
    }
}

fn hash_function<H: Hasher>(func: &Function, state: &mut H)
    ensures { state.new ≡ fold H.write state.old (signature_feed (signature_of func.now)) }
{
    func.hash(state);
}

impl Hash for FunctionArgs {
    ghost hash_input = { λ a. trees_feed (trees_of a.args.items) };

    ghost respects_eq = { (on_Alike (λ a. trees_of a.args.items)
        (same_Alike trees_feed trees_eq-Decides)).fed };

    #[cycle(hash)]
    fn hash<H: Hasher>(&self, state: &mut H) {
        hash_args(self.args.as_slice(), state);
    }
}

#[cycle(hash)]
fn hash_args<H: Hasher>(args: &[Box<Expr>], state: &mut H)
    ensures { state.new ≡ fold H.write state.old (trees_feed (trees_of args.now)) }
{
    state.write_usize(args.len());
    for arg in args {
        (**arg).hash(state);
    }
}

impl Hash for Extension {
    ghost hash_input = { λ e. tree_feed (extension_tree e) };

    ghost respects_eq = { (on_Alike extension_tree (same_Alike tree_feed tree_eq-Decides)).fed };

    #[cycle(hash)]
    fn hash<H: Hasher>(&self, state: &mut H) {
        state.write_isize(10);
        self.name.hash(state);
        self.value_type.hash(state);
        hash_children(self.children.as_slice(), state);
    }
}

#[cycle(hash)]
fn hash_children<H: Hasher>(children: &[Expr], state: &mut H)
    ensures { state.new ≡ fold H.write state.old (trees_feed (children_of children.now)) }
{
    state.write_usize(children.len());
    for child in children {
        child.hash(state);
    }
}

impl Hash for Offset {
    ghost hash_input = { λ o. shift_feed (shift_of o) };

    ghost respects_eq = { (on_Alike shift_of (same_Alike shift_feed shift_eq-Decides)).fed };

    fn hash<H: Hasher>(&self, state: &mut H) {
        match self {
            Offset::Pos(d) => {
                state.write_isize(0);
                state.write_u128(d.as_nanos());
            }
            Offset::Neg(d) => {
                state.write_isize(1);
                state.write_u128(d.as_nanos());
            }
        }
    }
}

impl Hash for AtModifier {
    ghost hash_input = { λ a. moment_feed (moment_of a) };

    ghost respects_eq = { (on_Alike moment_of (same_Alike moment_feed moment_eq-Decides)).fed };

    fn hash<H: Hasher>(&self, state: &mut H) {
        match self {
            AtModifier::Start => state.write_isize(0),
            AtModifier::End => state.write_isize(1),
            AtModifier::At(millis) => {
                state.write_isize(2);
                state.write_i64(*millis);
            }
        }
    }
}
