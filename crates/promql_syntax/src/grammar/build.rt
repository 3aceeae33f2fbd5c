//! What each form of expression builds of its parts: their first error, or a checked node.

ghost use Rattle.std.specs.Prelude.{◌≡◌, ℕ, ◌+◌, ◌≤◌, length, max, Bool, ◌&&◌, is_ok, List, Option, None, Some, Ok, Err, IfErr, IfOk, MatchResult, option_map};
ghost use Rattle.promql_ast.specs.Checked.{check_tree};
ghost use Rattle.promql_ast.specs.Faults.{Gives, Verdict, fault_of, node, rejected};
ghost use Rattle.promql_ast.specs.declared.fault.NodeFault.{NodeFault};
ghost use Rattle.promql_ast.specs.Settling.{SettlesAtOnce};
ghost use Rattle.promql_ast.specs.Tree.{binary};
ghost use Rattle.promql_ast.specs.View.{tree_of};
ghost use Rattle.promql_grammar.specs.Grammar as grammar;
ghost use Rattle.promql_grammar.specs.Grammar.{yield};
ghost use Rattle.promql_grammar.specs.GrammarParts as part;
ghost use Rattle.promql_grammar.specs.GrammarParts.{yield_after, yield_postfix};
ghost use Rattle.promql_grammar.specs.Results.{◌then◌};
ghost use Rattle.promql_grammar.specs.declared.token_kinds.TokenKind as kinds;
ghost use Rattle.promql_syntax.specs.BuildErrors.{build_error_of, check, view_result};
ghost use Rattle.promql_syntax.specs.ParsesExpr.{AreArgsOf, IsExprOf, tree_result, append_derivation, modifier_of, outcome};
ghost use Rattle.promql_syntax.specs.PartBuilding.{modifier_value};
ghost use Rattle.promql_kind.specs.ModifierViews.{clause_of, matching_of};
ghost use Rattle.promql_syntax.specs.Asking.{◌giving◌, known, EndsIn};
ghost use Rattle.promql_syntax.specs.Building.{from_verdict};
ghost use Rattle.promql_syntax.specs.Placing.{HasModifierPlace, IsCallAt, IsCheck, IsModifierAt, IsPostfixAt, left_after, tokens_between};
ghost use Rattle.promql_syntax.specs.Postfixes.{IsPostfixOf, change_of, apply_change};
ghost use Rattle.promql_syntax.specs.PartWords.{clause_value};

use crate::grammar::build_error::{BuildError, BuildFault};
use crate::grammar::parsed::{ParsedArgs, ParsedExpr, Pending};
use crate::grammar::place::{Extent, Place};
use crate::grammar::postfix::{ParsedPostfix, Postfix};
use crate::parser::MAX_DEPTH;
use promql_ast::{
    BinaryExpr, CheckError, CheckFault, Expr, FunctionArgs, NodeFault, ParenExpr, SubqueryExpr,
};
use promql_kind::{BinModifier, LabelModifier, get_function};
use promql_token::ids::T_SUB;
use promql_token::{TokenId, TokenType};
use std::alloc::{AllocError, Global};

/// A node that was built.
pub fn parsed_node(expr: Box<Expr>, height: usize) -> ParsedExpr
    ensures value { tree_result result ≡ Ok (tree_of expr.value) }
    ensures is { result.value ≡ Ok expr }
    ensures tall { result.height ≡ height }
{
    ParsedExpr {
        height,
        value: Ok(expr),
    }
}

/// An error in place of a node.
pub fn parsed_error(error: Box<BuildError>, height: usize) -> ParsedExpr
    ensures value { tree_result result ≡ Err (build_error_of error.value) }
    ensures is { result.value ≡ Err error }
    ensures tall { result.height ≡ height }
{
    ParsedExpr {
        height,
        value: Err(error),
    }
}

/// A fault of a check in place of a node.
fn check_error(
    alloc: Global,
    fault: CheckFault,
    height: usize,
    place: Place,
) -> Result<ParsedExpr, AllocError>
    ensures value { IfOk result (λ parsed. tree_result parsed ≡ outcome (rejected
        (fault_of fault))) }
    ensures kind { IfOk result (λ parsed. IfErr parsed.value (λ error. IsCheck (build_error_of error.value))) }
    ensures place { IfOk result (λ parsed. IfErr parsed.value (λ error. error.value.place ≡ place)) }
    ensures tall { IfOk result (λ parsed. parsed.height ≡ height) }
{
    let error = BuildError::boxed(alloc, BuildFault::Check(fault), place)?;
    Ok(parsed_error(error, height))
}

/// A node that a postfix changed in its box, if nothing was against it.
fn changed_node(
    alloc: Global,
    expr: Box<Expr>,
    change: Result<(), NodeFault>,
    height: usize,
    extent: &Extent,
) -> Result<ParsedExpr, AllocError>
    ensures value { IfOk result (λ parsed. (verdict : Verdict)
        → SettlesAtOnce change verdict (tree_of expr.value) → tree_result parsed ≡ outcome verdict) }
    ensures kind { IfOk result (λ parsed. IfErr parsed.value (λ error. IsCheck (build_error_of error.value))) }
    ensures place { IfOk result (λ parsed. IfErr parsed.value (λ error. error.value.place
        ≡ tokens_between extent.now.operator extent.now.end)) }
    ensures tall { IfOk result (λ parsed. parsed.height ≡ height) }
{
    match change {
        Ok(()) => Ok(parsed_node(expr, height)),
        Err(fault) => {
            drop(expr);
            check_error(alloc, CheckFault::Node(fault), height, extent.after_base())
        }
    }
}

/// A node, if no check of its root fails. It is checked in its box.
pub fn check_node(
    alloc: Global,
    expr: Box<Expr>,
    height: usize,
    extent: &Extent,
) -> Result<ParsedExpr, AllocError>
    ensures value { IfOk result (λ parsed. tree_result parsed ≡ outcome (check_tree
        (tree_of expr.value))) }
    ensures kind { IfOk result (λ parsed. IfErr parsed.value (λ error. IsCheck (build_error_of error.value))) }
    ensures place { IfOk result (λ parsed. IfErr parsed.value
        (HasModifierPlace (tree_of expr.value) extent.now)) }
    ensures tall { IfOk result (λ parsed. parsed.height ≡ height) }
{
    let mut expr = expr;
    match expr.check(alloc) {
        Ok(()) => Ok(parsed_node(expr, height)),
        Err(CheckError::Memory) => Err(AllocError),
        Err(CheckError::Check(fault)) => {
            let place = extent.place_of(&fault, &expr);
            check_error(alloc, fault, height, place)
        }
    }
}

/// The result of a builder, if no check of it fails.
#[inline(always)]
fn check_result(
    alloc: Global,
    built: Result<Expr, CheckError>,
    height: usize,
    extent: &Extent,
) -> Result<ParsedExpr, AllocError>
    ensures value { IfOk result (λ parsed. (verdict : Verdict) → Gives (Unit {0}) tree_of built verdict
        → tree_result parsed ≡ (outcome verdict then λ t. outcome (check_tree t))) }
    ensures tall { IfOk result (λ parsed. parsed.height ≡ height) }
{
    match built {
        Ok(expr) => {
            let expr = Box::new(alloc, expr)?;
            check_node(alloc, expr, height, extent)
        }
        Err(CheckError::Memory) => Err(AllocError),
        Err(CheckError::Check(fault)) => check_error(alloc, fault, height, extent.right()),
    }
}

/// Builds parentheses.
#[inline(never)]
pub fn build_paren(alloc: Global, inner: ParsedExpr) -> Result<ParsedExpr, AllocError>
    requires { inner.height ≤ MAX_DEPTH }
    ensures built { IfOk result (λ parsed. (builds : Bool) (n k : ℕ) (d : grammar.Derivation)
        → IsExprOf builds n (1 + k) inner d → IsExprOf builds n k parsed (grammar.paren d)) }
    ensures low { IfOk result (λ parsed. parsed.height ≡ inner.height + 1) }
{
    let ParsedExpr { height, value } = inner;
    let height = height + 1;
    match value {
        Ok(expr) => {
            let expr = Box::new(alloc, Expr::Paren(ParenExpr { expr }))?;
            Ok(parsed_node(expr, height))
        }
        Err(error) => Ok(parsed_error(error, height)),
    }
}

/// Builds a unary operator. A plus leaves no node.
#[inline(never)]
pub fn build_unary(
    alloc: Global,
    op: TokenId,
    operand: ParsedExpr,
    extent: &Extent,
) -> Result<ParsedExpr, AllocError>
    requires { operand.height ≤ MAX_DEPTH }
    ensures built { IfOk result (λ parsed. (builds : Bool) (n k : ℕ) (text : List ℕ) (d : grammar.Derivation)
        → IsExprOf builds n k operand d → IsExprOf builds n k parsed (grammar.unary op text d)) }
    ensures low { IfOk result (λ parsed. parsed.height ≡ operand.height + 1) }
{
    let ParsedExpr { height, value } = operand;
    let height = height + 1;
    match value {
        Ok(expr) => {
            if op != T_SUB {
                return Ok(parsed_node(expr, height));
            }
            let expr = Box::into_inner(expr);
            check_result(alloc, Expr::new_unary_expr(alloc, expr), height, extent)
        }
        Err(error) => Ok(parsed_error(error, height)),
    }
}

/// Builds a binary operator.
#[inline(always)]
pub fn build_binary(
    alloc: Global,
    op: TokenId,
    left: ParsedExpr,
    modifier: Pending<BinModifier>,
    right: ParsedExpr,
    extent: &Extent,
) -> Result<ParsedExpr, AllocError>
    requires low_left { left.height ≤ MAX_DEPTH }
    requires low_right { right.height ≤ MAX_DEPTH }
    ensures built { IfOk result (λ parsed. (builds : Bool) (n k : ℕ) (text : List ℕ) (m : part.Modifier)
        (l r : grammar.Derivation) → IsModifierAt n k extent.now m r
        → modifier_of modifier ≡ modifier_value m → IsExprOf builds n (left_after k m r) left l
        → IsExprOf (builds && is_ok left.value) n k right r
        → IsExprOf builds n k parsed (grammar.binary op text m l r)) }
    ensures low { IfOk result (λ parsed. parsed.height ≡ max left.height right.height + 1) }
{
    let ParsedExpr {
        height: left_height,
        value: left,
    } = left;
    let ParsedExpr {
        height: right_height,
        value: right,
    } = right;
    let height = left_height.max(right_height) + 1;
    let lhs = match left {
        Ok(expr) => expr,
        Err(error) => return Ok(parsed_error(error, height)),
    };
    let rhs = match right {
        Ok(expr) => expr,
        Err(error) => return Ok(parsed_error(error, height)),
    };
    let op = TokenType::new(op);
    match modifier {
        Some(modifier) => build_modified_binary(alloc, op, lhs, rhs, modifier, height, extent),
        None => {
            let node = BinaryExpr {
                op,
                lhs,
                rhs,
                modifier: None,
            };
            let expr = Box::new(alloc, Expr::Binary(node))?;
            check_node(alloc, expr, height, extent)
        }
    }
}

/// Builds a binary operator that has a modifier. Most have none, so its frame is kept out of
/// theirs.
#[inline(never)]
fn build_modified_binary(
    alloc: Global,
    op: TokenType,
    lhs: Box<Expr>,
    rhs: Box<Expr>,
    modifier: Box<Result<BinModifier, Box<BuildError>>>,
    height: usize,
    extent: &Extent,
) -> Result<ParsedExpr, AllocError>
    ensures value { IfOk result (λ parsed. (m : part.Modifier)
        → modifier_of (Some modifier) ≡ modifier_value m
        → EndsIn (known (modifier_value m) giving
        λ z. from_verdict (check_tree (binary op (tree_of lhs.value) (tree_of rhs.value) z)))
        (tree_result parsed)) }
    ensures place { IfOk result (λ parsed. IfErr parsed.value (λ error. MatchResult modifier.value
        (λ m. HasModifierPlace (binary op (tree_of lhs.value) (tree_of rhs.value) (Some (matching_of m))) extent.now error)
        (λ held. error ≡ held))) }
    ensures tall { IfOk result (λ parsed. parsed.height ≡ height) }
{
    match Box::into_inner(modifier) {
        Ok(modifier) => {
            let node = BinaryExpr {
                op,
                lhs,
                rhs,
                modifier: Some(modifier),
            };
            let expr = Box::new(alloc, Expr::Binary(node))?;
            check_node(alloc, expr, height, extent)
        }
        Err(error) => Ok(parsed_error(error, height)),
    }
}

/// Builds a call. Its name is looked up after its arguments.
#[inline(never)]
pub fn build_call(
    alloc: Global,
    name: &str,
    args: ParsedArgs,
    extent: &Extent,
) -> Result<ParsedExpr, AllocError>
    requires { args.height ≤ MAX_DEPTH }
    ensures built { IfOk result (λ parsed. (builds : Bool) (n k : ℕ) (kind : kinds.TokenKind) (ds : grammar.Arguments)
        → IsCallAt n k extent.now ds
        → AreArgsOf builds n (1 + k) args ds → IsExprOf builds n k parsed (grammar.call kind name.now ds)) }
    ensures low { IfOk result (λ parsed. parsed.height ≡ args.height + 1) }
{
    let ParsedArgs { height, value } = args;
    let height = height + 1;
    let args = match value {
        Ok(args) => args,
        Err(error) => return Ok(parsed_error(error, height)),
    };
    match get_function(alloc, name)? {
        Some(func) => {
            let expr = Box::new(alloc, Expr::new_call(func, args))?;
            check_node(alloc, expr, height, extent)
        }
        None => {
            let name = String::from_str(alloc, name)?;
            let fault = BuildFault::UnknownFunction(name);
            let error = BuildError::boxed(alloc, fault, Place::token(extent.start))?;
            Ok(parsed_error(error, height))
        }
    }
}

/// Builds an aggregation. An error of its grouping comes after one of its arguments.
#[inline(never)]
pub fn build_aggregate(
    alloc: Global,
    op: TokenId,
    clause: Result<Option<LabelModifier>, Box<BuildError>>,
    args: ParsedArgs,
    extent: &Extent,
) -> Result<ParsedExpr, AllocError>
    requires { args.height ≤ MAX_DEPTH }
    ensures built { IfOk result (λ parsed. (builds : Bool) (n k : ℕ) (text : List ℕ) (c : part.Clause)
        (ds : grammar.Arguments)
        → view_result (option_map clause_of) clause ≡ clause_value c
        → AreArgsOf builds n (1 + (length (yield_after c) + k)) args ds
        → IsExprOf builds n k parsed (grammar.aggregate op text c ds)) }
    ensures low { IfOk result (λ parsed. parsed.height ≡ args.height + 1) }
{
    let ParsedArgs { height, value } = args;
    let height = height + 1;
    let args = match value {
        Ok(args) => args,
        Err(error) => return Ok(parsed_error(error, height)),
    };
    match clause {
        Ok(clause) => {
            let built = Expr::new_aggregate_expr(alloc, op, clause, args);
            check_result(alloc, built, height, extent)
        }
        Err(error) => Ok(parsed_error(error, height)),
    }
}

/// No arguments.
pub fn empty_arguments(alloc: Global) -> ParsedArgs
    ensures built { (builds : Bool) (n k : ℕ) → AreArgsOf builds n k result grammar.none }
    ensures low { result.height ≡ 0 }
{
    ParsedArgs {
        height: 0,
        value: Ok(FunctionArgs::empty_args(alloc)),
    }
}

/// The arguments with one more.
#[inline(always)]
pub fn append_argument(args: ParsedArgs, parsed: ParsedExpr) -> Result<ParsedArgs, AllocError>
    ensures built { IfOk result (λ more. (builds : Bool) (n k : ℕ) (ds : grammar.Arguments) (d : grammar.Derivation)
        → AreArgsOf builds n (1 + (length (yield d) + k)) args ds
        → IsExprOf (builds && is_ok args.value) n k parsed d
        → AreArgsOf builds n k more (append_derivation ds d)) }
    ensures low { IfOk result (λ more. more.height ≡ max args.height parsed.height) }
{
    let ParsedArgs { height, value } = args;
    let ParsedExpr {
        height: last_height,
        value: last,
    } = parsed;
    let height = height.max(last_height);
    let mut args = match value {
        Ok(args) => args,
        Err(error) => {
            return Ok(ParsedArgs {
                height,
                value: Err(error),
            });
        }
    };
    match last {
        Ok(arg) => {
            args.args.push(arg)?;
            Ok(ParsedArgs {
                height,
                value: Ok(args),
            })
        }
        Err(error) => Ok(ParsedArgs {
            height,
            value: Err(error),
        }),
    }
}

/// Builds a base with its postfix.
pub fn build_postfix(
    alloc: Global,
    base: ParsedExpr,
    postfix: ParsedPostfix,
    extent: &Extent,
) -> Result<ParsedExpr, AllocError>
    requires low_base { base.height ≤ MAX_DEPTH + 1 }
    requires low_postfix { postfix.added_height ≤ 1 }
    ensures built { IfOk result (λ parsed. (builds : Bool) (n k : ℕ) (d : grammar.Derivation) (p : part.Postfix)
        → IsPostfixAt n k extent.now p → IsExprOf builds n (length (yield_postfix p) + k) base d
        → IsPostfixOf n k postfix p → IsExprOf builds n k parsed (grammar.postfixed d p)) }
    ensures low { IfOk result (λ parsed. parsed.height ≡ base.height + postfix.added_height) }
{
    let ParsedExpr { height, value } = base;
    let ParsedPostfix {
        value: postfix,
        added_height,
    } = postfix;
    let height = height + added_height;
    match value {
        Ok(expr) => apply_postfix(alloc, expr, postfix, height, extent),
        Err(error) => Ok(parsed_error(error, height)),
    }
}

/// Builds an expression with its postfix.
fn apply_postfix(
    alloc: Global,
    expr: Box<Expr>,
    postfix: Result<Postfix, Box<BuildError>>,
    height: usize,
    extent: &Extent,
) -> Result<ParsedExpr, AllocError>
    ensures built { IfOk result (λ parsed. EndsIn (known (view_result change_of postfix) giving
        λ c. apply_change (tree_of expr.value) c) (tree_result parsed)) }
    ensures place { IfOk result (λ parsed. IfErr parsed.value (λ error. MatchResult postfix
        (λ p. IsCheck (build_error_of error.value)
        × ((fault : NodeFault) → build_error_of error.value ≡ check (node fault)
        → error.value.place ≡ tokens_between extent.now.operator extent.now.end))
        (λ held. error ≡ held))) }
    ensures tall { IfOk result (λ parsed. parsed.height ≡ height) }
{
    let mut expr = expr;
    match postfix {
        Ok(Postfix::Range(range)) => {
            let change = expr.set_range(alloc, range);
            changed_node(alloc, expr, change, height, extent)
        }
        Ok(Postfix::Subquery { range, step }) => {
            let node = SubqueryExpr {
                expr,
                offset: None,
                at: None,
                range,
                step,
            };
            let expr = Box::new(alloc, Expr::Subquery(node))?;
            check_node(alloc, expr, height, extent)
        }
        Ok(Postfix::At(at)) => {
            let change = expr.set_at(at);
            changed_node(alloc, expr, change, height, extent)
        }
        Ok(Postfix::Offset(offset)) => {
            let change = expr.set_offset(offset);
            changed_node(alloc, expr, change, height, extent)
        }
        Ok(Postfix::Mode(mode)) => {
            let change = expr.set_mode(mode);
            changed_node(alloc, expr, change, height, extent)
        }
        Err(error) => Ok(parsed_error(error, height)),
    }
}
