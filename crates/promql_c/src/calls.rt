//! The calls: from the bytes of a query into a caller's buffer. docs/guide/bindings.md, "Calls", has the rules.

ghost use Rattle.std.specs.Prelude.{◌≡◌, ◌==◌, ◌||◌, [], not, Some, Ok};
ghost use Rattle.promql_c.specs.declared.calls.TheConstants.{SORTED_MATCHERS};
ghost use Rattle.promql_c.specs.CallResults.{Shows, ShowsSome};
ghost use Rattle.promql_c.specs.Calls.{IsEnforceOf, IsExplainOf, IsFormattedOf, IsLastReadOf, IsMayReadOf, IsPinnedOf, IsPrintOf, IsReachesOf, IsRenameOf, IsSnippetOf, IsTextOf, IsTokensOf, IsTreePrintOf, IsWindowsOf};
ghost use Rattle.promql_c.specs.CollectedTexts.{IsCollectedText};
ghost use Rattle.promql_c.specs.FindingsText.{IsFindingsText};
ghost use Rattle.promql_span.specs.Targets.{for_rules};
ghost use Rattle.promql_c.specs.Formats.{format_numbered, format_options, mode_numbered, named_numbered};
ghost use Rattle.promql_c.specs.PartsText.{IsPartsText};
ghost use Rattle.promql_c.specs.PlacesText.{IsPlacesText};
ghost use Rattle.promql_query.specs.WindowsText.{IsConstantText};

use crate::call_result::{CallResult, show, show_enforced, show_text};
use crate::collecting::CollectCall;
use crate::differing::DifferencesCall;
use crate::enforcing::enforce_query;
use crate::explaining::explain_query;
use crate::formatting::format_bytes;
use crate::modes::{format_of, mode_of};
use crate::placing::{PartsCall, PlacesCall};
use crate::printing::{CheckCall, mark_query, print_query};
use crate::reaching::ReachesCall;
use crate::reading::may_read_query;
use crate::renaming::{named_of, rename_query};
use crate::timing::{ConstantCall, LastReadCall, PinnedCall, WindowsCall};
use crate::tokens::token_texts;
use crate::tree_call::tell_query;
use crate::tree_printing::print_form;
use promql_formatter::FormatOptions;
use promql_query::mode::Mode;
use promql_run::format::Format;
use promql_span::Span;
use promql_span::limits::Limits;
use promql_when::Times;
use std::alloc::Global;

/// The version of the calls: a new call, or a new status of one, has a new version.
pub const CALLS_VERSION: &str = "0.10.0";

/// Prints a query in the mode of this number: 0 on one line, 1 laid out, 2 as JSON, 3 as JSON with the places of nodes and
/// matchers. `level` counts indentations of two spaces, at most 512, and `width` is the most bytes that a line has, its
/// indentation not counted; both are for a layout alone.
pub fn print(
    alloc: Global,
    limits: &Limits,
    query: &[u8],
    mode: u32,
    level: u32,
    width: usize,
    buffer: &mut [u8],
) -> CallResult
    ensures { ShowsSome (IsPrintOf limits.now query.now (mode_numbered mode level width))
        result buffer.old buffer.new }
{
    let made = print_query(alloc, limits, mode_of(mode, level, width), query);
    show(alloc, made, buffer)
}

/// Prints a query on one line, which is the line of its normal form too: the key of a cache (docs/guide/cache.md).
pub fn canonical(alloc: Global, limits: &Limits, query: &[u8], buffer: &mut [u8]) -> CallResult
    ensures { ShowsSome (IsPrintOf limits.now query.now (Some (Mode.Plain Format.Line))) result buffer.old buffer.new }
{
    let made = print_query(alloc, limits, Some(Mode::Plain(Format::Line)), query);
    show(alloc, made, buffer)
}

/// Prints a query on one line with a matcher in every selector. The matcher is written as between the braces of a selector:
/// `namespace="team-a"`, say. The line is within the limits, too, and means the enforced query (docs/guide/rewriting.md).
pub fn enforce(
    alloc: Global,
    limits: &Limits,
    query: &[u8],
    matcher: &[u8],
    buffer: &mut [u8],
) -> CallResult
    ensures { ShowsSome (IsEnforceOf limits.now query.now matcher.now) result buffer.old buffer.new }
{
    let made = enforce_query(alloc, limits, query, matcher);
    show_enforced(alloc, made, str::from_utf8(matcher).ok(), buffer)
}

/// Prints a query on one line with another name for the metric, where `kind` is 0, or the label, where it is 1, that is named `from`.
/// The line is within the limits, too; it was read again, and means the renamed query (docs/guide/rewriting.md, "Renaming").
pub fn rename(
    alloc: Global,
    limits: &Limits,
    query: &[u8],
    kind: u32,
    from: &[u8],
    to: &[u8],
    buffer: &mut [u8],
) -> CallResult
    ensures { ShowsSome (IsRenameOf limits.now query.now from.now to.now (named_numbered kind)) result buffer.old buffer.new }
{
    let made = rename_query(alloc, limits, query, named_of(kind), from, to);
    show(alloc, made, buffer)
}

/// Shows what a query names, as JSON: its functions, labels and metrics, and its selectors with their times
/// (docs/guide/bindings.md, "What a query names").
pub fn collect(alloc: Global, limits: &Limits, query: &[u8], buffer: &mut [u8]) -> CallResult
    ensures { ShowsSome (IsTextOf IsCollectedText limits.now query.now) result buffer.old buffer.new }
{
    let made = tell_query(&CollectCall, alloc, limits, query);
    show(alloc, made, buffer)
}

/// Shows the places of the nodes of a query's tree, as JSON (docs/guide/bindings.md, "Places of nodes").
pub fn places(alloc: Global, limits: &Limits, query: &[u8], buffer: &mut [u8]) -> CallResult
    ensures { ShowsSome (IsTextOf (IsPlacesText query.now) limits.now query.now) result buffer.old buffer.new }
{
    let made = tell_query(&PlacesCall, alloc, limits, query);
    show(alloc, made, buffer)
}

/// Shows the parts of the nodes of a query's tree, as JSON (docs/guide/bindings.md, "Parts of nodes").
pub fn parts(alloc: Global, limits: &Limits, query: &[u8], buffer: &mut [u8]) -> CallResult
    ensures { ShowsSome (IsTextOf (IsPartsText query.now) limits.now query.now) result buffer.old buffer.new }
{
    let made = tell_query(&PartsCall, alloc, limits, query);
    show(alloc, made, buffer)
}

/// Shows the tokens of a text, accepted or not, as JSON (docs/guide/bindings.md, "Tokens").
pub fn tokens(alloc: Global, limits: &Limits, text: &[u8], buffer: &mut [u8]) -> CallResult
    ensures { ShowsSome (IsTokensOf limits.now text.now) result buffer.old buffer.new }
{
    let made = token_texts(alloc, limits, text);
    show(alloc, made, buffer)
}

/// Shows the parts of a query that its target reads otherwise than what is printed, and then those that it rejects, as JSON
/// (docs/guide/bindings.md, "Differences").
pub fn differences(alloc: Global, limits: &Limits, query: &[u8], buffer: &mut [u8]) -> CallResult
    ensures { ShowsSome (IsTextOf (λ t. IsFindingsText limits.now query.now) (for_rules limits.now) query.now) result buffer.old buffer.new }
{
    let made = tell_query(
        &DifferencesCall { limits },
        alloc,
        &limits.for_rules(),
        query,
    );
    show(alloc, made, buffer)
}

/// Shows when each selector of a query reads over all its times, as JSON (docs/guide/bindings.md, "When a query reads").
pub fn windows(
    alloc: Global,
    limits: &Limits,
    query: &[u8],
    times: &Times,
    buffer: &mut [u8],
) -> CallResult
    ensures { ShowsSome (IsWindowsOf limits.now times.now query.now) result buffer.old buffer.new }
{
    let made = tell_query(&WindowsCall { times }, alloc, limits, query);
    show(alloc, made, buffer)
}

/// Shows how far from the time of evaluation each selector of a query reads, as JSON (docs/guide/bindings.md, "When a query reads").
pub fn reaches(
    alloc: Global,
    limits: &Limits,
    query: &[u8],
    times: &Times,
    buffer: &mut [u8],
) -> CallResult
    ensures { ShowsSome (IsReachesOf limits.now times.now query.now) result buffer.old buffer.new }
{
    let made = tell_query(&ReachesCall { times }, alloc, limits, query);
    show(alloc, made, buffer)
}

/// Shows the last millisecond that a query reads where it is evaluated at this time, as JSON (docs/guide/bindings.md, "When a query
/// reads").
pub fn last_read(
    alloc: Global,
    limits: &Limits,
    query: &[u8],
    time: i64,
    times: &Times,
    buffer: &mut [u8],
) -> CallResult
    ensures { ShowsSome (IsLastReadOf limits.now times.now time query.now) result buffer.old buffer.new }
{
    let made = tell_query(&LastReadCall { times, time }, alloc, limits, query);
    show(alloc, made, buffer)
}

/// Prints a query on one line with these times, in milliseconds since the epoch, for `@ start()` and `@ end()`
/// (docs/reference/when.md, "Pinned queries").
pub fn pinned(
    alloc: Global,
    limits: &Limits,
    query: &[u8],
    start: i64,
    end: i64,
    buffer: &mut [u8],
) -> CallResult
    ensures { ShowsSome (IsPinnedOf limits.now start end query.now) result buffer.old buffer.new }
{
    let made = tell_query(&PinnedCall { start, end }, alloc, limits, query);
    show(alloc, made, buffer)
}

/// Shows whether a query is the same at every time, as JSON (docs/reference/when.md, "Constant queries").
pub fn is_constant(alloc: Global, limits: &Limits, query: &[u8], buffer: &mut [u8]) -> CallResult
    ensures { ShowsSome (IsTextOf IsConstantText limits.now query.now) result buffer.old buffer.new }
{
    let made = tell_query(&ConstantCall, alloc, limits, query);
    show(alloc, made, buffer)
}

/// Shows whether a query may read a series with these labels, as JSON. The labels are an object of JSON whose members are texts
/// (docs/guide/bindings.md, "Series that a query may read").
pub fn may_read(
    alloc: Global,
    limits: &Limits,
    query: &[u8],
    labels: &[u8],
    buffer: &mut [u8],
) -> CallResult
    ensures { ShowsSome (IsMayReadOf limits.now query.now labels.now) result buffer.old buffer.new }
{
    let made = may_read_query(alloc, limits, query, labels);
    show(alloc, made, buffer)
}

/// Checks a query: an empty text where it is accepted, and else the error and its place.
pub fn check(alloc: Global, limits: &Limits, query: &[u8], buffer: &mut [u8]) -> CallResult
    ensures { ShowsSome (IsTextOf (λ t text. text ≡ []) limits.now query.now) result buffer.old buffer.new }
{
    let made = tell_query(&CheckCall, alloc, limits, query);
    show(alloc, made, buffer)
}

/// Explains why a query is rejected: an empty text where it is accepted, else the message for people, which at a syntax error says what
/// was expected. Where `as_json` is not 0 it is an object with that message, the place, and what was expected by names
/// (docs/guide/bindings.md, "Why a query is rejected").
pub fn explain(
    alloc: Global,
    limits: &Limits,
    query: &[u8],
    as_json: u32,
    buffer: &mut [u8],
) -> CallResult
    ensures { ShowsSome (IsExplainOf limits.now (not (as_json == 0)) query.now) result buffer.old buffer.new }
{
    let made = explain_query(alloc, limits, query, as_json != 0);
    show(alloc, made, buffer)
}

/// Shows the line of a query where the part from `start` up to `end` begins, with a mark below it, as `promql_check` does.
pub fn snippet(
    alloc: Global,
    query: &[u8],
    start: usize,
    end: usize,
    buffer: &mut [u8],
) -> CallResult
    ensures { ShowsSome (IsSnippetOf query.now (record { start = start; end = end }))
        result buffer.old buffer.new }
{
    let made = mark_query(alloc, query, Span { start, end });
    show(alloc, made, buffer)
}

/// Prints the tree whose JSON form is given (docs/reference/json.md, "From JSON to a text"), in the modes 0 to 2 of `print`; with
/// parentheses where the tree needs them, if `parentheses` is not 0. The form has at most `max_tree` bytes, and the text is within the
/// limits of a query, and means the tree.
pub fn print_tree(
    alloc: Global,
    limits: &Limits,
    max_tree: usize,
    form: &[u8],
    mode: u32,
    level: u32,
    width: usize,
    parentheses: u32,
    buffer: &mut [u8],
) -> CallResult
    ensures { ShowsSome (IsTreePrintOf limits.now max_tree form.now (not (parentheses == 0)) (format_numbered mode level width))
        result buffer.old buffer.new }
{
    let made = print_form(
        alloc,
        limits,
        max_tree,
        format_of(mode, level, width),
        parentheses != 0,
        form,
    );
    show(alloc, made, buffer)
}

/// What asks `format` for sorted matchers.
pub const SORTED_MATCHERS: u32 = 2;

/// Whether all is to stay as it is written.
fn keeps_spelling(spelling: u32) -> bool
    ensures { result ≡ not (spelling == 0 || spelling == SORTED_MATCHERS) }
{
    spelling != 0 && spelling != SORTED_MATCHERS
}

/// How a query is laid out.
fn format_options(
    limits: &Limits,
    width: usize,
    indent_width: usize,
    spelling: u32,
) -> FormatOptions
    ensures { result ≡ format_options limits.now width indent_width spelling }
{
    FormatOptions {
        width,
        indent_width,
        keep_spelling: keeps_spelling(spelling),
        sort_matchers: spelling == SORTED_MATCHERS,
        max_output: limits.max_output,
    }
}

/// Lays a query out for people (docs/reference/formatting.md): comments stay, and chains of operators are flat. Lines have at most
/// `width` characters where they can be broken, and indentations of `indent_width` spaces, at most 65,535 and 16. Where `spelling` is 0, numbers,
/// durations and strings are spelled in one way; where it is `SORTED_MATCHERS`, matchers are sorted, too; else all stays as it is written.
pub fn format(
    alloc: Global,
    limits: &Limits,
    query: &[u8],
    width: usize,
    indent_width: usize,
    spelling: u32,
    buffer: &mut [u8],
) -> CallResult
    ensures { ShowsSome (IsFormattedOf limits.now (format_options limits.now width indent_width spelling) query.now)
        result buffer.old buffer.new }
{
    let options = format_options(limits, width, indent_width, spelling);
    let made = format_bytes(alloc, limits, &options, query);
    show(alloc, made, buffer)
}

/// Shows `CALLS_VERSION`.
pub fn version(buffer: &mut [u8]) -> CallResult
    ensures { Shows (Ok CALLS_VERSION.now) result buffer.old buffer.new }
{
    show_text(CALLS_VERSION, buffer)
}
