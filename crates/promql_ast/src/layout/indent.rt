//! Indentation of two spaces a level.

ghost use Rattle.std.specs.Prelude.{◌≡◌, ◌++◌, ◌+◌, ◌<◌, ◌≤◌, ◌*◌, ◌==◌, if◌then◌else◌, [], Err, IfOk, OnOk, IfSome, string_bytes, codes};
ghost use Rattle.promql_ast.specs.Layout.{without_indent};
ghost use Rattle.promql_ast.specs.Lines.{indent, Keeps};
ghost use Rattle.promql_text.specs.PrintedLen.{usize_max};

use crate::layout::prettier::PrettyError;
use std::alloc::{AllocError, Global};
use std::fmt::Display;

/// The level of a node's parts.
pub fn deeper(level: usize) -> Result<usize, PrettyError>
    ensures ok { IfOk result (λ n. n ≡ level + 1) }
    ensures wide { result ≡ Err PrettyError.IndentTooWide → usize_max < 2 * level }
    ensures fits { IfOk result (λ n. 2 * level ≤ usize_max) }
{
    if level > usize::MAX / 2 {
        return Err(PrettyError::IndentTooWide);
    }
    Ok(level + 1)
}

/// Appends the indentation of a level.
#[tactic(auto, using(crate::proofs::layouts::Indents::indent_more_after))]
pub fn push_indent(out: &mut String, level: usize) -> Result<(), PrettyError>
    ensures ok { OnOk result (string_bytes out.new ≡ string_bytes out.old ++ indent level) }
    ensures wide { result ≡ Err PrettyError.IndentTooWide → usize_max < 2 * level }
    ensures fits { OnOk result (2 * level ≤ usize_max) }
{
    if level > usize::MAX / 2 {
        return Err(PrettyError::IndentTooWide);
    }
    for _i in 0..level {
        out.push_str("  ")?;
    }
    Ok(())
}

/// A value on a line of its own, indented.
pub fn indented_line<T: Display>(
    value: &T,
    alloc: Global,
    level: usize,
) -> Result<String, PrettyError>
    ensures ok { IfSome (T.output value.now) (λ t. IfOk result
        (λ s. string_bytes s ≡ indent level ++ t)) }
    ensures keeps { Keeps (T.output value.now) result }
    ensures wide { result ≡ Err PrettyError.IndentTooWide → usize_max < 2 * level }
    ensures fits { IfOk result (λ s. 2 * level ≤ usize_max) }
{
    let mut out = String::new(alloc);
    push_indent(&mut out, level)?;
    out.write(value)?;
    Ok(out)
}

/// Appends what a value displays.
pub fn push_display<T: Display>(value: &T, out: &mut String) -> Result<(), PrettyError>
    ensures ok { IfSome (T.output value.now) (λ t. OnOk result
        (string_bytes out.new ≡ string_bytes out.old ++ t)) }
    ensures memory { result ≡ Err PrettyError.IndentTooWide → ⊥ }
{
    out.write(value)?;
    Ok(())
}

/// Appends a value's one line, indented.
#[tactic(auto, using(crate::proofs::layouts::Pushes::two_pushes))]
pub fn push_line<T: Display>(value: &T, level: usize, out: &mut String) -> Result<(), PrettyError>
    ensures ok { IfSome (T.output value.now) (λ t. OnOk result
        (string_bytes out.new ≡ string_bytes out.old ++ (indent level ++ t))) }
    ensures wide { result ≡ Err PrettyError.IndentTooWide → usize_max < 2 * level }
    ensures fits { OnOk result (2 * level ≤ usize_max) }
{
    push_indent(out, level)?;
    out.write(value)?;
    Ok(())
}

/// Appends a text without the spaces in its front.
#[tactic(auto, using(crate::proofs::layouts::Pushes::without_indent_matches))]
pub fn push_without_indent(text: &str, out: &mut String) -> Result<(), AllocError>
    ensures { OnOk result (string_bytes out.new ≡ string_bytes out.old ++ without_indent text.now) }
{
    out.push_str(text.trim_start_matches(" "))?;
    Ok(())
}

/// Appends what comes before the argument at an index.
pub fn push_comma(at: usize, out: &mut String) -> Result<(), AllocError>
    ensures { OnOk result (string_bytes out.new
        ≡ string_bytes out.old ++ (if at == 0 then [] else codes ",\n")) }
{
    if at > 0 {
        out.push_str(",\n")?;
    }
    Ok(())
}

/// Appends a line feed, an indentation and a text.
#[tactic(auto, using(crate::proofs::layouts::Pushes::two_pushes))]
pub fn push_below(out: &mut String, level: usize, text: &str) -> Result<(), PrettyError>
    ensures ok { OnOk result (string_bytes out.new
        ≡ string_bytes out.old ++ (codes "\n" ++ (indent level ++ text.now))) }
    ensures wide { result ≡ Err PrettyError.IndentTooWide → usize_max < 2 * level }
    ensures fits { OnOk result (2 * level ≤ usize_max) }
{
    out.push_str("\n")?;
    push_indent(out, level)?;
    out.push_str(text)?;
    Ok(())
}
