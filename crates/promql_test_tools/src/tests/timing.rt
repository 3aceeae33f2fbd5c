//! Which samples a query reads, and when (docs/reference/when.md).

use super::{Failed, columns, holds, is_so, prints};
use promql_ast::Expr;
use promql_syntax::parser::parse;
use promql_when::{
    PinError, SelectorReach, SelectorWindow, Times, WindowsError, is_constant, last_read, pinned,
    reaches, windows,
};
use std::alloc::Global;

/// Three times: 1,000, 1,200 and 1,400 seconds.
const TIMES: Times = Times {
    start: 1_000_000,
    end: 1_500_000,
    step: 200_000,
    lookback: 300_000,
    default_step: 60_000,
    is_left_open: false,
};

/// Queries, and the windows of their selectors over these times.
const WINDOWS: &str = "a => 700000..1400000
a[1m] => 940000..1400000
a offset 5m => 400000..1100000
a offset -5m => 1000000..1700000
a @ 100 => -200000..100000
a @ start() => 700000..1000000
a @ end() => 1200000..1500000
a offset 1m @ end() => 1140000..1440000
rate(a[5m] @ start() offset -1m) => 760000..1060000
rate(a[5m] anchored) => 400000..1400000
rate(a[5m] smoothed) => 400000..1700000
a[5m:1m] => 420000..1380000
a[5m:] => 420000..1380000
a[1m:7m] => 960000..1260000
a[1m:1h] => none
a[1m:7m] @ -5 => none
a[10m:7m] @ -5 => -720000..-420000
max_over_time(rate(a[1m])[5m:1m] @ start() offset 1m) => 600000..900000
avg_over_time(max_over_time(a[2m:50s])[5m:1m]) => 300000..1350000
(b @ 0)[1m:1h] + 1 => error
max_over_time((b @ 0)[1m:1h]) => none
max_over_time((b @ 0)[1h:1h]) => -300000..0
topk(scalar(b offset 1m), a) => 640000..1340000, 700000..1400000
-(a) + on (c) b[1m:] offset 1m => error
-(a) + on (c) b offset 1m => 700000..1400000, 640000..1340000
info(a offset 1m) => 640000..1340000, 700000..1400000 of target_info
info(a, {b=\"c\"}) => 700000..1400000, 700000..1400000
1 + time() => 
a @ 9223372036854775.807 => 9223372036854475807..9223372036854775807
a @ 9223372036854775.807 offset -1ms => overflow at a @ 9223372036854775.807 offset -1ms
a @ -9223372036854775.808 => overflow at a @ -9223372036854775.808
b + a @ -9223372036854775.808 + c @ 9223372036854775.807 offset -1ms => overflow at a @ -9223372036854775.808
a[1ms] @ -9223372036854775.807 => -9223372036854775808..-9223372036854775807
max_over_time((a @ 0)[1ms:1h] @ -9223372036854775.808) => overflow at (a @ 0.000)[1ms:1h] @ -9223372036854775.808
a + b[106751991168d] => error
rate(b[106751991168d]) => overflow at b[106751991168d]";

/// The same, where windows are open on the left.
const LEFT_OPEN: &str = "a => 700001..1400000
a[1m] => 940001..1400000
a[1ms] => 1000000..1400000
a[5m:1m] => 420001..1380000
a[5m:100s] => 500001..1400000
rate(a[5m] anchored) => 400001..1400000
info(a) => 700001..1400000, 700001..1400000 of target_info";

/// Queries, and how far from the time of evaluation their selectors read.
const REACHES: &str = "a => -300000..0
a offset 5m => -600000..-300000
a[1m] offset -5m => 240000..300000
rate(a[5m] smoothed) => -600000..300000
a @ 100 => -200000..100000 fixed
a @ end() offset 1m => 1140000..1440000 fixed
max_over_time(rate(a[1m])[5m:1m] offset 1m) => -420000..-60000
max_over_time(a[5m:1h]) => -600000..0
max_over_time((a @ 5)[5m:1m]) + b => -295000..5000 fixed, -300000..0
max_over_time(a[5m:1m] @ 7) => -593000..7000 fixed
max_over_time((a + b @ 9)[5m:1m] @ 7) => -593000..7000 fixed, -291000..9000 fixed
topk(scalar(b offset 1m), a) => -360000..-60000, -300000..0
info(a offset 1m) => -360000..-60000, -300000..0 of target_info
1 + time() => 
a + b @ -9223372036854775.808 => overflow at b @ -9223372036854775.808";

/// Queries, and these with the times in them.
const PINNED: &str = "a @ start() + rate(b[5m] @ end()) => a @ 1000.000 + rate(b[5m] @ 1500.000)
max_over_time((a @ start())[5m:1m] @ end() offset 1m) => max_over_time((a @ 1000.000)[5m:1m] @ 1500.000 offset 1m)
topk(scalar(b @ end()), -(a @ 5)) => topk(scalar(b @ 1500.000), -(a @ 5.000))
a + step() => it is not pinned
max_over_time(vector(start())[5m:]) => it is not pinned
range() => it is not pinned
sum(vector(1 + end())) => it is not pinned
start + time() => start + time()";

/// What is written of a query that is not pinned.
const NOT_PINNED: &str = "it is not pinned";

/// Queries, the last millisecond that they read at 1,000 seconds, and whether they are constant.
const LAST: &str = "a => 1000000 no
a offset 1m => 940000 no
a offset -1m => 1060000 no
a + b @ end() => 1500000 no
b @ end() + a => 1500000 no
rate(a[5m] smoothed) => 1300000 no
a[5m:1m] => 960000 no
a[5m:1m] @ end() => 1500000 yes
max_over_time(a[5m:1h]) => none no
1 => none yes
a @ 5 + 1 => 5000 yes
sum(rate(a[5m] @ 5)) => 5000 yes
-(a @ 5) and timestamp(a @ 5) => 5000 no
time() => none no
max_over_time(vector(time())[5m:] @ 5) => none yes
topk(scalar(b), a @ 5) => 1000000 no
vector(step()) => none no";

/// The windows, one after the other.
fn shown_windows(alloc: Global, found: &[SelectorWindow<'_>]) -> Result<String, Failed> {
    let mut text = String::new(alloc);
    for selector in found {
        if !text.is_empty() {
            text.push_str(", ")?;
        }
        match selector.window {
            Some(window) => {
                text.push_str(format!(in alloc; "{}..{}", window.first, window.last)?.as_str())?
            }
            None => text.push_str("none")?,
        }
        if selector.selector.is_none() {
            text.push_str(" of target_info")?;
        }
    }
    Ok(text)
}

/// The tree of a query.
fn read(alloc: Global, query: &str) -> Result<Box<Expr>, Failed> {
    Ok(Box::new(alloc, parse(alloc, query)?)?)
}

/// The windows, or the node whose window does not fit.
fn found_text(
    alloc: Global,
    found: Result<Vec<SelectorWindow<'_>>, WindowsError<'_>>,
) -> Result<String, Failed> {
    match found {
        Ok(found) => shown_windows(alloc, found.as_slice()),
        Err(WindowsError::TimeOverflow(node)) => Ok(format!(in alloc; "overflow at {node}")?),
        Err(WindowsError::Memory) => Err(Failed),
    }
}

/// The windows of a query, or why it has none.
fn windows_text(alloc: Global, query: &str, times: &Times) -> Result<String, Failed> {
    match read(alloc, query) {
        Ok(expr) => found_text(alloc, windows(alloc, &expr, times)),
        Err(_) => Ok(String::from_str(alloc, "error")?),
    }
}

/// The reaches, one after the other.
fn shown_reaches(alloc: Global, found: &[SelectorReach<'_>]) -> Result<String, Failed> {
    let mut text = String::new(alloc);
    for it in found {
        if !text.is_empty() {
            text.push_str(", ")?;
        }
        let window = it.reach.window;
        text.push_str(format!(in alloc; "{}..{}", window.first, window.last)?.as_str())?;
        if it.reach.is_fixed {
            text.push_str(" fixed")?;
        }
        if it.selector.is_none() {
            text.push_str(" of target_info")?;
        }
    }
    Ok(text)
}

/// The reaches of a query, or the node whose reach does not fit.
fn reaches_text(alloc: Global, query: &str) -> Result<String, Failed> {
    let expr = read(alloc, query)?;
    match reaches(alloc, &expr, &TIMES) {
        Ok(found) => shown_reaches(alloc, found.as_slice()),
        Err(WindowsError::TimeOverflow(node)) => Ok(format!(in alloc; "overflow at {node}")?),
        Err(WindowsError::Memory) => Err(Failed),
    }
}

/// The text of a tree.
fn text_of(alloc: Global, expr: Expr) -> Result<String, Failed> {
    let text = expr.to_string(alloc);
    drop(expr);
    Ok(text?)
}

/// The text of the query's tree.
fn printed(alloc: Global, query: &str) -> Result<String, Failed> {
    Ok(read(alloc, query)?.to_string(alloc)?)
}

/// The query with the times in it, or that it is not pinned.
fn pinned_text(alloc: Global, query: &str) -> Result<String, Failed> {
    let expr = read(alloc, query)?;
    match pinned(alloc, &expr, TIMES.start, TIMES.end) {
        Ok(pinned) => text_of(alloc, pinned),
        Err(PinError::GridFunction) => Ok(String::from_str(alloc, NOT_PINNED)?),
        Err(PinError::Memory) => Err(Failed),
    }
}

/// The last millisecond that a query reads, and whether it is constant.
fn last_text(alloc: Global, query: &str) -> Result<String, Failed> {
    let expr = read(alloc, query)?;
    let constant = if is_constant(&expr) { "yes" } else { "no" };
    match last_read(alloc, &expr, TIMES.start, &TIMES) {
        Ok(Some(last)) => Ok(format!(in alloc; "{last} {constant}")?),
        Ok(None) => Ok(format!(in alloc; "none {constant}")?),
        Err(_) => Err(Failed),
    }
}

/// A sum of 1,024 of these.
fn long_sum(alloc: Global, term: &str) -> Result<String, Failed> {
    let mut text = String::from_str(alloc, term)?;
    for _ in 0..10 {
        text = format!(in alloc; "({text} + {text})")?;
    }
    Ok(text)
}

/// How many windows a long sum has, if they are one.
fn long_windows(alloc: Global) -> Result<bool, Failed> {
    let expr = read(alloc, long_sum(alloc, "a")?.as_str())?;
    let Ok(found) = windows(alloc, &expr, &TIMES) else {
        return Err(Failed);
    };
    Ok(found.len() == 1024 && last_read(alloc, &expr, 7, &TIMES).is_ok_and(|last| last == Some(7)))
}

/// A long sum, pinned.
fn long_pinned(alloc: Global) -> Result<String, Failed> {
    pinned_text(alloc, long_sum(alloc, "a @ end()")?.as_str())
}

#[test]
fn windows_are_found(rt: HostRuntime) {
    for row in WINDOWS.split('\n') {
        let (query, want) = columns(row);
        prints(&rt, windows_text(rt.alloc(), query, &TIMES), want);
    }
    let left_open = Times {
        is_left_open: true,
        ..TIMES
    };
    for row in LEFT_OPEN.split('\n') {
        let (query, want) = columns(row);
        prints(&rt, windows_text(rt.alloc(), query, &left_open), want);
    }
    is_so(&rt, long_windows(rt.alloc()), "a long sum");
}

#[test]
fn reaches_are_found(rt: HostRuntime) {
    for row in REACHES.split('\n') {
        let (query, want) = columns(row);
        prints(&rt, reaches_text(rt.alloc(), query), want);
    }
}

#[test]
fn times_are_few(rt: HostRuntime) {
    let none = Times {
        end: 999_999,
        ..TIMES
    };
    prints(&rt, windows_text(rt.alloc(), "a", &none), "none");
    let one = Times {
        end: 1_000_000,
        ..TIMES
    };
    prints(&rt, windows_text(rt.alloc(), "a", &one), "700000..1000000");
    let each = Times { step: 0, ..TIMES };
    prints(&rt, windows_text(rt.alloc(), "a", &each), "700000..1500000");
    let all = Times {
        start: i64::MIN,
        end: i64::MAX,
        step: u64::MAX,
        lookback: 0,
        ..TIMES
    };
    prints(
        &rt,
        windows_text(rt.alloc(), "a", &all),
        "-9223372036854775808..9223372036854775807",
    );
    let early = Times {
        start: i64::MIN,
        end: i64::MIN,
        ..TIMES
    };
    let want = "overflow at info(a @ 0.000)";
    prints(&rt, windows_text(rt.alloc(), "info(a @ 0)", &early), want);
}

/// The message of a query without windows.
fn message(alloc: Global, query: &str) -> Result<String, Failed> {
    let expr = read(alloc, query)?;
    match windows(alloc, &expr, &TIMES) {
        Ok(_) => Err(Failed),
        Err(error) => Ok(error.to_string(alloc)?),
    }
}

#[test]
fn errors_show_their_node(rt: HostRuntime) {
    let want = "a time of `b[106751991168d]` is below -2^63 or above 2^63 - 1 milliseconds";
    prints(&rt, message(rt.alloc(), "rate(b[106751991168d])"), want);
}

#[test]
fn queries_are_pinned(rt: HostRuntime) {
    for row in PINNED.split('\n') {
        let (query, want) = columns(row);
        prints(&rt, pinned_text(rt.alloc(), query), want);
        if want != NOT_PINNED {
            prints(&rt, printed(rt.alloc(), want), want);
        }
    }
    match long_sum(rt.alloc(), "a @ 1500.000") {
        Ok(want) => prints(&rt, long_pinned(rt.alloc()), want.as_str()),
        Err(_) => holds(&rt, false, "a long sum"),
    }
}

#[test]
fn last_reads_are_found(rt: HostRuntime) {
    for row in LAST.split('\n') {
        let (query, want) = columns(row);
        prints(&rt, last_text(rt.alloc(), query), want);
    }
}
