//! Calls over bytes and numbers alone, for callers in other languages (docs/guide/bindings.md, "Calls"), and each under the
//! name by which bindings/c/promql.c calls it, once it has looked at the pointers.
#![tactic(auto)]

ghost use Rattle.std.specs.Prelude.{◌≡◌, ◌==◌, [], not, Some, Ok};
ghost use Rattle.promql_run.specs.declared.format.Format.TheVariants.{Line};
ghost use Rattle.promql_c.specs.CallResults.{Shows, ShowsSome};
ghost use Rattle.promql_span.specs.Targets.{for_check, for_rules};
ghost use Rattle.promql_c.specs.CallLimits.{limits_of};
ghost use Rattle.promql_c.specs.CallTimes.{times_of};
ghost use Rattle.promql_c.specs.Calls.{IsEnforceOf, IsExplainOf, IsFormattedOf, IsLastReadOf, IsMayReadOf, IsPinnedOf, IsPrintOf, IsReachesOf, IsRenameOf, IsSnippetOf, IsTextOf, IsTokensOf, IsTreePrintOf, IsWindowsOf};
ghost use Rattle.promql_c.specs.CollectedTexts.{IsCollectedText};
ghost use Rattle.promql_c.specs.FindingsText.{IsFindingsText};
ghost use Rattle.promql_c.specs.Formats.{format_numbered, format_options, mode_numbered, named_numbered};
ghost use Rattle.promql_c.specs.PartsText.{IsPartsText};
ghost use Rattle.promql_c.specs.PlacesText.{IsPlacesText};
ghost use Rattle.promql_query.specs.WindowsText.{IsConstantText};
ghost use Rattle.promql_query.specs.declared.mode.Mode.TheVariants.{Plain};
ghost use Rattle.promql_c.specs.declared.calls.TheConstants.{CALLS_VERSION};

pub use call_limits::CallLimits;
pub use call_result::CallResult;
pub use call_times::CallTimes;
pub use calls::CALLS_VERSION;
use std::alloc::Global;

mod call_limits;
mod call_result;
mod call_times;
mod calls;
mod collecting;
mod differing;
mod enforcing;
mod explaining;
mod formatting;
mod modes;
mod placing;
mod printing;
mod reaching;
mod reading;
mod renaming;
mod timing;
mod tokens;
mod tree_call;
mod tree_printing;

/// `calls::print`.
#[unsafe(no_mangle)]
pub extern "C" fn call_print(
    alloc: Global,
    limits: &CallLimits,
    query: &[u8],
    mode: u32,
    level: u32,
    width: usize,
    buffer: &mut [u8],
    shown: &mut CallResult,
)
    ensures { ShowsSome (IsPrintOf (for_rules (limits_of limits.now)) query.now (mode_numbered mode level width))
        shown.new buffer.old buffer.new }
{
    *shown = calls::print(
        alloc,
        &limits.limits().for_rules(),
        query,
        mode,
        level,
        width,
        buffer,
    );
}

/// `calls::canonical`.
#[unsafe(no_mangle)]
pub extern "C" fn call_canonical(
    alloc: Global,
    limits: &CallLimits,
    query: &[u8],
    buffer: &mut [u8],
    shown: &mut CallResult,
)
    ensures { ShowsSome (IsPrintOf (for_rules (limits_of limits.now)) query.now (Some (Plain Line))) shown.new buffer.old buffer.new }
{
    *shown = calls::canonical(alloc, &limits.limits().for_rules(), query, buffer);
}

/// `calls::enforce`.
#[unsafe(no_mangle)]
pub extern "C" fn call_enforce(
    alloc: Global,
    limits: &CallLimits,
    query: &[u8],
    matcher: &[u8],
    buffer: &mut [u8],
    shown: &mut CallResult,
)
    ensures { ShowsSome (IsEnforceOf (limits_of limits.now) query.now matcher.now) shown.new buffer.old buffer.new }
{
    *shown = calls::enforce(alloc, &limits.limits(), query, matcher, buffer);
}

/// `calls::rename`.
#[unsafe(no_mangle)]
pub extern "C" fn call_rename(
    alloc: Global,
    limits: &CallLimits,
    query: &[u8],
    kind: u32,
    from: &[u8],
    to: &[u8],
    buffer: &mut [u8],
    shown: &mut CallResult,
)
    ensures { ShowsSome (IsRenameOf (limits_of limits.now) query.now from.now to.now (named_numbered kind))
        shown.new buffer.old buffer.new }
{
    *shown = calls::rename(alloc, &limits.limits(), query, kind, from, to, buffer);
}

/// `calls::collect`.
#[unsafe(no_mangle)]
pub extern "C" fn call_collect(
    alloc: Global,
    limits: &CallLimits,
    query: &[u8],
    buffer: &mut [u8],
    shown: &mut CallResult,
)
    ensures { ShowsSome (IsTextOf IsCollectedText (for_rules (limits_of limits.now)) query.now) shown.new buffer.old buffer.new }
{
    *shown = calls::collect(alloc, &limits.limits().for_rules(), query, buffer);
}

/// `calls::places`.
#[unsafe(no_mangle)]
pub extern "C" fn call_places(
    alloc: Global,
    limits: &CallLimits,
    query: &[u8],
    buffer: &mut [u8],
    shown: &mut CallResult,
)
    ensures { ShowsSome (IsTextOf (IsPlacesText query.now) (for_rules (limits_of limits.now)) query.now) shown.new buffer.old buffer.new }
{
    *shown = calls::places(alloc, &limits.limits().for_rules(), query, buffer);
}

/// `calls::differences`.
#[unsafe(no_mangle)]
pub extern "C" fn call_differences(
    alloc: Global,
    limits: &CallLimits,
    query: &[u8],
    buffer: &mut [u8],
    shown: &mut CallResult,
)
    ensures { ShowsSome (IsTextOf (λ t. IsFindingsText (for_check (limits_of limits.now)) query.now) (for_rules (for_check (limits_of limits.now))) query.now) shown.new buffer.old buffer.new }
{
    *shown = calls::differences(alloc, &limits.limits().for_check(), query, buffer);
}

/// `calls::parts`.
#[unsafe(no_mangle)]
pub extern "C" fn call_parts(
    alloc: Global,
    limits: &CallLimits,
    query: &[u8],
    buffer: &mut [u8],
    shown: &mut CallResult,
)
    ensures { ShowsSome (IsTextOf (IsPartsText query.now) (for_rules (limits_of limits.now)) query.now) shown.new buffer.old buffer.new }
{
    *shown = calls::parts(alloc, &limits.limits().for_rules(), query, buffer);
}

/// `calls::tokens`.
#[unsafe(no_mangle)]
pub extern "C" fn call_tokens(
    alloc: Global,
    limits: &CallLimits,
    text: &[u8],
    buffer: &mut [u8],
    shown: &mut CallResult,
)
    ensures { ShowsSome (IsTokensOf (for_rules (limits_of limits.now)) text.now) shown.new buffer.old buffer.new }
{
    *shown = calls::tokens(alloc, &limits.limits().for_rules(), text, buffer);
}

/// `calls::windows`.
#[unsafe(no_mangle)]
pub extern "C" fn call_windows(
    alloc: Global,
    limits: &CallLimits,
    query: &[u8],
    times: &CallTimes,
    buffer: &mut [u8],
    shown: &mut CallResult,
)
    ensures { ShowsSome (IsWindowsOf (for_rules (limits_of limits.now)) (times_of times.now) query.now) shown.new buffer.old buffer.new }
{
    *shown = calls::windows(
        alloc,
        &limits.limits().for_rules(),
        query,
        &times.times(),
        buffer,
    );
}

/// `calls::reaches`.
#[unsafe(no_mangle)]
pub extern "C" fn call_reaches(
    alloc: Global,
    limits: &CallLimits,
    query: &[u8],
    times: &CallTimes,
    buffer: &mut [u8],
    shown: &mut CallResult,
)
    ensures { ShowsSome (IsReachesOf (for_rules (limits_of limits.now)) (times_of times.now) query.now) shown.new buffer.old buffer.new }
{
    *shown = calls::reaches(
        alloc,
        &limits.limits().for_rules(),
        query,
        &times.times(),
        buffer,
    );
}

/// `calls::last_read`.
#[unsafe(no_mangle)]
pub extern "C" fn call_last_read(
    alloc: Global,
    limits: &CallLimits,
    query: &[u8],
    time: i64,
    times: &CallTimes,
    buffer: &mut [u8],
    shown: &mut CallResult,
)
    ensures { ShowsSome (IsLastReadOf (for_rules (limits_of limits.now)) (times_of times.now) time query.now) shown.new buffer.old buffer.new }
{
    *shown = calls::last_read(
        alloc,
        &limits.limits().for_rules(),
        query,
        time,
        &times.times(),
        buffer,
    );
}

/// `calls::pinned`.
#[unsafe(no_mangle)]
pub extern "C" fn call_pinned(
    alloc: Global,
    limits: &CallLimits,
    query: &[u8],
    start: i64,
    end: i64,
    buffer: &mut [u8],
    shown: &mut CallResult,
)
    ensures { ShowsSome (IsPinnedOf (for_rules (limits_of limits.now)) start end query.now) shown.new buffer.old buffer.new }
{
    *shown = calls::pinned(
        alloc,
        &limits.limits().for_rules(),
        query,
        start,
        end,
        buffer,
    );
}

/// `calls::is_constant`.
#[unsafe(no_mangle)]
pub extern "C" fn call_is_constant(
    alloc: Global,
    limits: &CallLimits,
    query: &[u8],
    buffer: &mut [u8],
    shown: &mut CallResult,
)
    ensures { ShowsSome (IsTextOf IsConstantText (for_rules (limits_of limits.now)) query.now) shown.new buffer.old buffer.new }
{
    *shown = calls::is_constant(alloc, &limits.limits().for_rules(), query, buffer);
}

/// `calls::may_read`.
#[unsafe(no_mangle)]
pub extern "C" fn call_may_read(
    alloc: Global,
    limits: &CallLimits,
    query: &[u8],
    labels: &[u8],
    buffer: &mut [u8],
    shown: &mut CallResult,
)
    ensures { ShowsSome (IsMayReadOf (for_rules (limits_of limits.now)) query.now labels.now) shown.new buffer.old buffer.new }
{
    *shown = calls::may_read(alloc, &limits.limits().for_rules(), query, labels, buffer);
}

/// `calls::check`.
#[unsafe(no_mangle)]
pub extern "C" fn call_check(
    alloc: Global,
    limits: &CallLimits,
    query: &[u8],
    buffer: &mut [u8],
    shown: &mut CallResult,
)
    ensures { ShowsSome (IsTextOf (λ t text. text ≡ []) (for_check (limits_of limits.now)) query.now) shown.new buffer.old buffer.new }
{
    *shown = calls::check(alloc, &limits.limits().for_check(), query, buffer);
}

/// `calls::explain`.
#[unsafe(no_mangle)]
pub extern "C" fn call_explain(
    alloc: Global,
    limits: &CallLimits,
    query: &[u8],
    as_json: u32,
    buffer: &mut [u8],
    shown: &mut CallResult,
)
    ensures { ShowsSome (IsExplainOf (for_check (limits_of limits.now)) (not (as_json == 0)) query.now) shown.new buffer.old buffer.new }
{
    *shown = calls::explain(alloc, &limits.limits().for_check(), query, as_json, buffer);
}

/// `calls::snippet`.
#[unsafe(no_mangle)]
pub extern "C" fn call_snippet(
    alloc: Global,
    query: &[u8],
    start: usize,
    end: usize,
    buffer: &mut [u8],
    shown: &mut CallResult,
)
    ensures { ShowsSome (IsSnippetOf query.now (record { start = start; end = end }))
        shown.new buffer.old buffer.new }
{
    *shown = calls::snippet(alloc, query, start, end, buffer);
}

/// `calls::print_tree`.
#[unsafe(no_mangle)]
pub extern "C" fn call_print_tree(
    alloc: Global,
    limits: &CallLimits,
    max_tree: usize,
    form: &[u8],
    mode: u32,
    level: u32,
    width: usize,
    parentheses: u32,
    buffer: &mut [u8],
    shown: &mut CallResult,
)
    ensures { ShowsSome (IsTreePrintOf (for_rules (limits_of limits.now)) max_tree form.now (not (parentheses == 0)) (format_numbered mode level width))
        shown.new buffer.old buffer.new }
{
    *shown = calls::print_tree(
        alloc,
        &limits.limits().for_rules(),
        max_tree,
        form,
        mode,
        level,
        width,
        parentheses,
        buffer,
    );
}

/// `calls::format`.
#[unsafe(no_mangle)]
pub extern "C" fn call_format(
    alloc: Global,
    limits: &CallLimits,
    query: &[u8],
    width: usize,
    indent_width: usize,
    spelling: u32,
    buffer: &mut [u8],
    shown: &mut CallResult,
)
    ensures { ShowsSome (IsFormattedOf (limits_of limits.now) (format_options (limits_of limits.now) width indent_width spelling) query.now)
        shown.new buffer.old buffer.new }
{
    *shown = calls::format(
        alloc,
        &limits.limits(),
        query,
        width,
        indent_width,
        spelling,
        buffer,
    );
}

/// `calls::version`.
#[unsafe(no_mangle)]
pub extern "C" fn call_version(buffer: &mut [u8], shown: &mut CallResult)
    ensures { Shows (Ok CALLS_VERSION.now) shown.new buffer.old buffer.new }
{
    *shown = calls::version(buffer);
}
