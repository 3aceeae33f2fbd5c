//! How large patterns can get.

use crate::tests::holds;
use promql_label::pattern_measure;

/// Patterns, and their measures: the bytes of the anchored text with what its classes weigh, and how often a part can be repeated.
const MEASURED: [(&str, usize, usize); 41] = [
    ("", 6, 1),
    ("prod|staging", 18, 1),
    (r"\w{720}", 35, 721),
    (r"\w{82}", 34, 83),
    ("(a{9}){9}", 15, 100),
    ("a{9}{9}", 13, 100),
    ("a{9,}", 11, 10),
    ("a{2,10}", 13, 11),
    ("a{10,2}", 13, 11),
    ("a{,7}", 11, 8),
    ("a{0}", 10, 1),
    ("a{ 9 }", 12, 10),
    ("(?x)a{1 0}", 16, 11),
    ("(?x)a{1 0, 2\t5}", 21, 26),
    ("a{9}b{5}.{7}", 18, 10),
    (
        "[0-9a-f]{8}-[0-9a-f]{4}-[0-9a-f]{4}-[0-9a-f]{4}-[0-9a-f]{12}",
        66,
        13,
    ),
    ("(ab){2}(c{3}){4}", 22, 60),
    ("a{2}?{3}", 14, 12),
    ("a+{3}", 11, 4),
    ("(?x)(a) {9}", 17, 10),
    ("a{9", 9, 10),
    ("a{1{2}", 12, 3),
    ("192}", 10, 1),
    ("[0-9]{3}", 14, 4),
    (r"\{9}", 10, 10),
    ("[{9}]", 11, 10),
    ("(?x)a{1#}\n000}", 20, 10_000),
    ("(?x)a{1#{\n000}", 20, 10_000),
    ("(?x)a{1#,\n000}", 20, 10_000),
    (r"#2024-\d+", 37, 1),
    (r"#\d{4}-\d{4}", 62, 100),
    ("é{2}", 11, 3),
    (r"(?i)\pL", 57, 1),
    (r"(?i:\pL)", 58, 1),
    (r"(?i)[\pL--a]", 194, 1),
    (r"[\pL--a]", 36, 1),
    ("(?i)abc", 35, 1),
    (r"(?si)\w{720}", 62, 721),
    (r"https?-in\d", 105, 1),
    (r"https?://in\d", 41, 1),
    (r"(?s)i\w", 35, 1),
];

/// Counts of which no number is too great.
const ENDLESS: [&str; 4] = [
    "a{99999999999999999999999999999999999999}",
    "((((a{65535}){65535}){65535}){65535}){65535}",
    "(?x)a{99999999999999999999}#",
    "a{18446744073709551615}",
];

#[test]
fn patterns_have_their_measures(rt: HostRuntime) {
    for (pattern, len, repeats) in &MEASURED {
        let want = len.saturating_mul(*repeats);
        holds(&rt, pattern_measure(pattern) == want, pattern);
    }
    for pattern in &ENDLESS {
        holds(&rt, pattern_measure(pattern) == usize::MAX, pattern);
    }
}
