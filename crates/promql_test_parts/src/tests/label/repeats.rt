//! Escaped repetitions.

use crate::tests::prints;
use promql_label::escape_repeats;

/// Patterns, and what they are with their repetitions escaped.
const ESCAPED: [(&str, &str); 21] = [
    ("c{}", r"c\{}"),
    ("c{d", r"c\{d"),
    ("c{1}", "c{1}"),
    ("c{1,}", "c{1,}"),
    ("c{,2}", r"c\{,2}"),
    ("c{1,,2}", r"c\{1,,2}"),
    ("c{1,2,3}", r"c\{1,2,3}"),
    (r"c\{d", r"c\{d"),
    ("{{a}", r"\{\{a}"),
    ("abc{{1,2}}", r"abc\{{1,2}}"),
    ("", ""),
    ("c{12,345}", "c{12,345}"),
    ("c{1", r"c\{1"),
    ("c{1,2", r"c\{1,2"),
    ("c{1 }", r"c\{1 }"),
    ("{", r"\{"),
    ("\\", "\\"),
    (r"\\{d", r"\\\{d"),
    (r"\\\{d", r"\\\{d"),
    ("\\é{é}", "\\é\\{é}"),
    ("é{2}é{é", "é{2}é\\{é"),
];

#[test]
fn braces_that_open_no_count_are_escaped(rt: HostRuntime) {
    for (pattern, want) in &ESCAPED {
        prints(&rt, escape_repeats(rt.alloc(), pattern), want);
    }
}
