//! Which parts the nodes of a query have (docs/reference/walks.md, "Parts of nodes"): each node ends with `;`, in the order of a walk.

use crate::tests::{Failed, columns, prints};
use promql_places::{Part, parse_placed};
use std::alloc::{AllocError, Global};

/// Queries, and the parts of their nodes.
const PARTS: &str = r##"a => Name a;
- 1m => ;
"a" => ;
time( ) => Name time;
((a)) => ;;Name a;
-a{b="c",'d' !~ "e",} offset 5m @ start() => Operator -;Name a|Matcher b="c"|Matcher 'd' !~ "e"|Offset offset 5m|At @ start();
+{"up", a=~"b" or c!="}"} # d => Matcher "up"|Matcher a=~"b"|Matcher c!="}";
a { } @ -1 offset +2 => Name a|At @ -1|Offset offset +2;
rate(x{a='b'}[5m] smoothed @ 1 offset -1h) => Name rate;Name x|Matcher a='b'|Selector x{a='b'}|Range [5m]|Mode smoothed|At @ 1|Offset offset -1h;
rate({a='b'}[ 5m ] anchored) => Name rate;Matcher a='b'|Selector {a='b'}|Range [ 5m ]|Mode anchored;
max_over_time(+q offset 1m[1h:5m] offset 1w) => Name max_over_time;Range [1h:5m]|Offset offset 1w;Name q|Offset offset 1m;
max_over_time(sum(q)[1h:] @ end( )) => Name max_over_time;Range [1h:]|At @ end( );Operator sum;Name q;
sum by (a, 'b') (q) => Operator sum|Label a|Label 'b';Name q;
topk(5, q) without (or, job,) => Operator topk|Label or|Label job;;Name q;
count by () (a) or sum(b) without () => Operator or;Operator count;Name a;Operator sum;Name b;
a / on (b, c) group_left (d) (e) => Operator /|Label b|Label c|GroupLabel d;Name a;;Name e;
a > bool ignoring (b) group_right fill_left(0) fill_right(-1) c => Operator >|Label b;Name a;Name c;
-2 ^ -+a == bool b => Operator ==;Operator -;Operator ^;;Operator -;Name a;Name b;"##;

#[test]
fn parts_are_shown(rt: HostRuntime) {
    for row in PARTS.split('\n') {
        let (query, parts) = columns(row);
        prints(&rt, shown_parts(rt.alloc(), query), parts);
    }
}

/// The parts of each node.
fn shown_parts(alloc: Global, query: &str) -> Result<String, Failed> {
    let placed = Box::new(alloc, parse_placed(alloc, query)?)?;
    let mut shown = String::new(alloc);
    for parts in placed.parts.as_slice() {
        show_parts(alloc, &mut shown, query, parts.as_slice())?;
    }
    Ok(shown)
}

/// These parts, with a bar between each two.
fn show_parts(
    alloc: Global,
    shown: &mut String,
    query: &str,
    parts: &[Part],
) -> Result<(), AllocError> {
    let mut bar = "";
    for part in parts {
        shown.push_str(bar)?;
        shown.push_str(shown_part(alloc, query, *part)?.as_str())?;
        bar = "|";
    }
    shown.push(';')
}

/// What a part is, and its text.
fn shown_part(alloc: Global, query: &str, part: Part) -> Result<String, AllocError> {
    let kind = part.kind;
    let text = query.get(part.span.start..part.span.end).unwrap_or("");
    format!(in alloc; "{kind:?} {text}")
}
