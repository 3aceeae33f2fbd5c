//! How tokens are written (docs/reference/formatting.md, "Spelling", "Order").

use crate::tests::{columns, prints};
use promql_formatter::{FormatOptions, format_query};

/// A query, its layout, and its layout where the spelling is kept.
const SPELLED: &str = r#"0x1F => 31 => 0x1F
1.50 => 1.5 => 1.50
1e9 => 1e9 => 1e9
'a' => "a" => 'a'
`a` => "a" => `a`
`\d` => `\d` => `\d`
a[60s] => a[1m] => a[60s]
a[90m] => a[90m] => a[90m]
a[017] => a[17s] => a[017]
a offset -3600s => a offset -1h => a offset -3600s
offset - 60 => offset - 60 => offset - 60
offset > 060 => offset > 48 => offset > 060
histogram_quantile(1, offset - 60) => histogram_quantile(1, offset - 60) => histogram_quantile(1, offset - 60)
(offset offset 60) - offset => (offset offset 1m) - offset => (offset offset 60) - offset
a[60s:] offset 60 => a[1m:] offset 1m => a[60s:] offset 60
a @ 5 offset 60 => a @ 5 offset 1m => a @ 5 offset 60
a @ 0x10 => a @ 16 => a @ 0x10
SUM(A) BY (B) => sum by (B) (A) => SUM(A) BY (B)
SUM AND Sum => SUM and Sum => SUM AND Sum
+ - a => +-a => +-a
a{c='1',b='2',} => a{c="1",b="2"} => a{c='1',b='2'}
a{c='1' OR b='2'} => a{c="1" or b="2"} => a{c='1' OR b='2'}
a == BOOL ON(x,)GROUP_LEFT b => a == bool on (x) group_left b => a == BOOL ON (x) GROUP_LEFT b
sum(count(a)by(b))without(c) => sum without (c) (count by (b) (a)) => sum(count(a) by (b)) without (c)"#;

#[test]
fn tokens_have_one_spelling_or_keep_theirs(rt: HostRuntime) {
    let alloc = rt.alloc();
    let usual = FormatOptions::new();
    let mut keeping = FormatOptions::new();
    keeping.keep_spelling = true;
    for row in SPELLED.split('\n') {
        let (query, layouts) = columns(row);
        let (layout, kept) = columns(layouts);
        prints(&rt, format_query(alloc, query, &usual), layout);
        prints(&rt, format_query(alloc, query, &keeping), kept);
    }
}

/// A query, its layout with sorted matchers, and its layout where the spelling is kept, too.
const SORTED: &str = r#"a{c='1',b='2',} => a{b="2",c="1"} => a{c='1',b='2'}
a{c='1' or b='2',a='3'} => a{c="1" or b="2",a="3"} => a{c='1' or b='2',a='3'}
{"b",a="1"} => {"b",a="1"} => {"b",a="1"}
absent(a{b="c",b!~"d"}) => absent(a{b!~"d",b="c"}) => absent(a{b="c",b!~"d"})"#;

#[test]
fn matchers_are_sorted_where_that_is_asked_for(rt: HostRuntime) {
    let alloc = rt.alloc();
    let mut sorting = FormatOptions::new();
    sorting.sort_matchers = true;
    let mut keeping = sorting;
    keeping.keep_spelling = true;
    for row in SORTED.split('\n') {
        let (query, layouts) = columns(row);
        let (layout, kept) = columns(layouts);
        prints(&rt, format_query(alloc, query, &sorting), layout);
        prints(&rt, format_query(alloc, query, &keeping), kept);
    }
}
