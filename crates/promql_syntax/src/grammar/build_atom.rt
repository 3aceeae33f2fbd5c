//! What numbers, durations, strings and selectors build.

ghost use Rattle.std.specs.Prelude.{◌≡◌, None, Some, IfOk};
ghost use Rattle.promql_grammar.specs.Grammar as grammar;
ghost use Rattle.promql_grammar.specs.GrammarParts as part;
ghost use Rattle.promql_grammar.specs.declared.token_kinds.TokenKind as kinds;
ghost use Rattle.promql_label.specs.MatcherViews.{plain_matchers_of};
ghost use Rattle.promql_syntax.specs.ParsesExpr.{tree_result};
ghost use Rattle.promql_syntax.specs.Asking.{EndsIn};
ghost use Rattle.promql_syntax.specs.Building.{build};
ghost use Rattle.promql_syntax.specs.ParsesPart.{IsBuiltBy};
ghost use Rattle.promql_syntax.specs.PartBuilding.{braces_value};

use crate::grammar::build::{check_node, parsed_error, parsed_node};
use crate::grammar::build_error::{BuildError, BuildFault};
use crate::grammar::parsed::ParsedExpr;
use crate::grammar::place::{Extent, Place};
use crate::grammar::string::string_value;
use crate::grammar::time::duration_value;
use promql_ast::Expr;
use promql_label::Matchers;
use promql_text::{Number, parse_str_radix};
use std::alloc::{AllocError, Global};

/// Builds a number.
pub fn build_number(alloc: Global, text: &str, index: usize) -> Result<ParsedExpr, AllocError>
    ensures built { IfOk result (λ parsed. EndsIn (build (grammar.number text.now)) (tree_result parsed)) }
    ensures low { IfOk result (λ parsed. parsed.height ≡ 1) }
{
    match parse_str_radix(text) {
        Ok(number) => {
            let expr = Box::new(alloc, Expr::from(number))?;
            Ok(parsed_node(expr, 1))
        }
        Err(fault) => {
            let fault = BuildFault::Number(fault);
            let error = BuildError::boxed(alloc, fault, Place::token(index))?;
            Ok(parsed_error(error, 1))
        }
    }
}

/// Builds a duration: its number of seconds.
#[inline(never)]
pub fn build_duration(alloc: Global, text: &str, index: usize) -> Result<ParsedExpr, AllocError>
    ensures built { IfOk result (λ parsed. EndsIn (build (grammar.duration text.now)) (tree_result parsed)) }
    ensures low { IfOk result (λ parsed. parsed.height ≡ 1) }
{
    match duration_value(alloc, text, index)? {
        Ok(duration) => {
            let expr = Box::new(alloc, Expr::from(Number::of_duration(&duration)))?;
            Ok(parsed_node(expr, 1))
        }
        Err(error) => Ok(parsed_error(error, 1)),
    }
}

/// Builds a string.
#[inline(never)]
pub fn build_string(alloc: Global, text: &str, index: usize) -> Result<ParsedExpr, AllocError>
    ensures built { IfOk result (λ parsed. EndsIn (build (grammar.string text.now)) (tree_result parsed)) }
    ensures low { IfOk result (λ parsed. parsed.height ≡ 1) }
{
    match string_value(alloc, text, index)? {
        Ok(val) => {
            let expr = Box::new(alloc, Expr::from(val))?;
            Ok(parsed_node(expr, 1))
        }
        Err(error) => Ok(parsed_error(error, 1)),
    }
}

/// Builds a selector of a name without braces, which passes each check.
pub fn build_name(alloc: Global, name: &str) -> Result<ParsedExpr, AllocError>
    ensures built { IfOk result (λ parsed. (kind : kinds.TokenKind)
        → EndsIn (build (grammar.selector kind name.now None)) (tree_result parsed)) }
    ensures low { IfOk result (λ parsed. parsed.height ≡ 1) }
{
    let name = String::from_str(alloc, name)?;
    let matchers = Matchers::empty(alloc);
    let expr = Box::new(alloc, Expr::new_vector_selector(Some(name), matchers))?;
    Ok(parsed_node(expr, 1))
}

/// Builds a selector with a name and braces.
pub fn build_selector(
    alloc: Global,
    name: &str,
    matchers: Result<Matchers, Box<BuildError>>,
    extent: &Extent,
) -> Result<ParsedExpr, AllocError>
    ensures built { IfOk result (λ parsed. (kind : kinds.TokenKind) (braces : part.Braces)
        → IsBuiltBy plain_matchers_of matchers (braces_value braces)
        → EndsIn (build (grammar.selector kind name.now (Some braces))) (tree_result parsed)) }
    ensures low { IfOk result (λ parsed. parsed.height ≡ 1) }
{
    match matchers {
        Ok(matchers) => {
            let name = String::from_str(alloc, name)?;
            let expr = Box::new(alloc, Expr::new_vector_selector(Some(name), matchers))?;
            check_node(alloc, expr, 1, extent)
        }
        Err(error) => Ok(parsed_error(error, 1)),
    }
}

/// Builds a selector without a name.
pub fn build_braces(
    alloc: Global,
    matchers: Result<Matchers, Box<BuildError>>,
    extent: &Extent,
) -> Result<ParsedExpr, AllocError>
    ensures built { IfOk result (λ parsed. (braces : part.Braces)
        → IsBuiltBy plain_matchers_of matchers (braces_value braces)
        → EndsIn (build (grammar.nameless braces)) (tree_result parsed)) }
    ensures low { IfOk result (λ parsed. parsed.height ≡ 1) }
{
    match matchers {
        Ok(matchers) => {
            let expr = Box::new(alloc, Expr::new_vector_selector(None, matchers))?;
            check_node(alloc, expr, 1, extent)
        }
        Err(error) => Ok(parsed_error(error, 1)),
    }
}
