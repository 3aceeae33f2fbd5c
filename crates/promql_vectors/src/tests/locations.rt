//! Lines and columns of bytes.

use super::{check_value, prints};
use promql_parser::util::Location;

/// Texts with a byte, its line, its column and its column in UTF-16.
const PLACES: [(&str, usize, usize, usize, usize); 17] = [
    ("", 0, 1, 1, 1),
    ("", 7, 1, 1, 1),
    ("up", 0, 1, 1, 1),
    ("up", 2, 1, 3, 3),
    ("up", usize::MAX, 1, 3, 3),
    ("sum(rate(foo[5m]) by (job)", 18, 1, 19, 19),
    ("a\nbc\nd", 1, 1, 2, 2),
    ("a\nbc\nd", 2, 2, 1, 1),
    ("a\nbc\nd", 4, 2, 3, 3),
    ("a\nbc\nd", 5, 3, 1, 1),
    ("a\r\nb", 2, 1, 3, 3),
    ("\n\n", 9, 3, 1, 1),
    ("é€😀x", 2, 1, 2, 2),
    ("é€😀x", 9, 1, 4, 5),
    ("é€😀x", 1, 1, 1, 1),
    ("é€😀x", 8, 1, 3, 3),
    ("😀\n😀\tx", 10, 2, 3, 4),
];

#[test]
fn bytes_have_lines_and_columns(rt: HostRuntime) {
    for (text, offset, line, column, utf16) in PLACES {
        let found = Location::line_column(text, offset);
        check_value(&rt, found, Location { line, column }, &text);
        check_value(&rt, Location::column_utf16(text, offset), utf16, &text);
    }
}

#[test]
fn locations_are_displayed(rt: HostRuntime) {
    let location = Location {
        line: 3,
        column: 14,
    };
    prints(&rt, location.to_string(rt.alloc()), "3:14");
}
