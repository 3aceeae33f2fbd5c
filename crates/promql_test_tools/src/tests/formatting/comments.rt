//! Where comments go (docs/reference/formatting.md, "Comments").

use crate::tests::prints;
use promql_formatter::{FormatOptions, format_query};

/// A query with comments, and its layout.
const COMMENTED: [(&str, &str); 15] = [
    ("a#", "a #"),
    ("#\na", "#\na"),
    ("a # b", "a # b"),
    ("a\n# b", "a\n# b"),
    ("# a\n\n  # b\nc # d\r\n# e\n", "# a\n# b\nc # d\n# e"),
    ("a # b \n+ c", "a # b \n+ c"),
    ("a + # b\nc", "a + # b\n  c"),
    ("a\n# b\n+ c", "a\n# b\n+ c"),
    ("sum(a # b\n)", "sum(\n  a # b\n)"),
    ("sum(a) # b\nby (c)", "sum(a) # b\n  by (c)"),
    ("sum(a) by (c) # b", "sum by (c) (a) # b"),
    ("f{b='1',a='2',# c\n}", "f{\n  b=\"1\",\n  a=\"2\", # c\n}"),
    ("f{a='1' # c\n,b='2'}", "f{\n  a=\"1\", # c\n  b=\"2\",\n}"),
    (
        "f{a='1' or # c\nb='2'}",
        "f{\n  a=\"1\"\n  or # c\n    b=\"2\",\n}",
    ),
    ("f{a='#'}", "f{a=\"#\"}"),
];

#[test]
fn comments_stay(rt: HostRuntime) {
    let alloc = rt.alloc();
    let options = FormatOptions::new();
    for (query, layout) in &COMMENTED {
        prints(&rt, format_query(alloc, query, &options), layout);
        prints(&rt, format_query(alloc, layout, &options), layout);
    }
}
