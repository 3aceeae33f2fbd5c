//! Hashes of trees, and trees as keys.

use super::trees::{KINDS, extension, kind, read};
use super::{Failed, answers, columns, is_so};
use promql_ast::Expr;
use promql_parser::parser::ParseError;
use std::alloc::Global;
use std::collections::HashMap;
use std::hash::{DefaultHasher, Hash, Hasher};
use std::process::Abort;

/// The hash of a value by the standard library's hasher.
fn hash_of<T: Hash>(value: &T) -> u64 {
    let mut state = DefaultHasher::new();
    value.hash(&mut state);
    state.finish()
}

/// Texts of one tree.
const ALIKE: &str = r#"sum by (l) (a) => SUM(a) BY (l)
topk without () (5, a) => topk(5.0, a) without()
-a+on()b => -a + on () b
a[1h:5m] @ 1 offset 1m => a[60m:300s] offset 60s @ 1.000
a{b='1',c=~"d.*"} => a { b = "1", c =~ 'd.*', }
a[5m] smoothed => a[300s]SMOOTHED
clamp(a, 1.50, 0x10) => clamp(a,15e-1,16)
'a' => "a""#;

/// Texts of trees that differ in one place.
const APART: &str = "sum(a) => min(a)
sum(a) => sum(b)
topk(1, a) => topk(2, a)
sum(a) => sum without () (a)
sum by (l) (a) => sum without (l) (a)
sum by (l) (a) => sum by (k) (a)
sum by (l, k) (a) => sum by (k, l) (a)
sum by (l, k) (a) => sum by (lk) (a)
-a => -b
-a => (a)
(a) => (b)
(a) => a
a + b => a - b
a + b => c + b
a + b => a + c
a + b => b + a
a + b => a + ignoring () b
a == b => a == bool b
a + on (l) b => a + ignoring (l) b
a + on (l) b => a + on (k) b
a + on (l) b => a + on (l) group_left b
a + on (l) group_left b => a + on (l) group_right b
a + on (l) group_left b => a + on (l) group_left (k) b
a + on (l) group_left (j) b => a + on (l) group_left (k) b
a + fill_left (1) b => a + b
a + fill_left (1) b => a + fill_right (1) b
a + fill_left (1) b => a + fill_left (2) b
a + fill_right (1) b => a + fill_right (2) b
a[1h:5m] => b[1h:5m]
a[1h:5m] => a[2h:5m]
a[1h:5m] => a[1h:6m]
a[1h:5m] => a[1h:]
a[1h:5m] => a[1h:5m] offset 1m
a[1h:5m] => a[1h:5m] @ 1
1 => 2
1 => -1
1 => 10
1 => 0.1
Inf => NaN
Inf => -Inf
'a' => 'b'
a => b
a => 'a'
a => {__name__='a'}
a{b='1'} => a{c='1'}
a{b='1'} => a{b='2'}
a{b='1'} => a{b!='1'}
a{b=~'1'} => a{b!~'1'}
a{b='1',c='2'} => a{c='2',b='1'}
a{b='1',c='2'} => a{b='1' or c='2'}
a offset 1m => a offset -1m
a offset 1m => a offset 2m
a @ start() => a @ end()
a @ 1 => a @ -1
a[5m] => a[6m]
a[5m] => b[5m]
a[5m] smoothed => a[5m] anchored
rate(a[5m]) => irate(a[5m])";

/// Calls that differ in their arguments.
const ARGUMENTS: &str = "rate(a[5m]) => rate(b[5m])
clamp(a, 1, 2) => clamp(a, 2, 1)
round(a) => round(a, 1)
label_join(a, '', 'b') => label_join(a, '', 'b', '')";

/// Whether the trees of both texts have one hash.
fn is_hashed_alike(alloc: Global, one: &str, other: &str) -> Result<bool, ParseError> {
    let one = hash_of(&*read(alloc, one)?);
    Ok(one == hash_of(&*read(alloc, other)?))
}

/// The texts of each row have one hash, or none of them have.
fn check_rows(rt: &impl Abort, alloc: Global, rows: &str, want: bool) {
    for row in rows.split('\n') {
        let (one, other) = columns(row);
        answers(rt, is_hashed_alike(alloc, one, other), want, row);
    }
}

#[test]
fn equal_trees_are_hashed_alike(rt: HostRuntime) {
    check_rows(&rt, rt.alloc(), ALIKE, true);
}

#[test]
fn each_part_is_hashed(rt: HostRuntime) {
    check_rows(&rt, rt.alloc(), APART, false);
    check_rows(&rt, rt.alloc(), ARGUMENTS, false);
}

/// The hash of an extension of two texts.
fn extension_hash(alloc: Global, first: &str, second: &str) -> Result<u64, Failed> {
    Ok(hash_of(&*extension(alloc, &[first, second])?))
}

/// Whether the extension of two texts has the hash of that of `a` and `2`.
fn is_as_usual(alloc: Global, first: &str, second: &str) -> Result<bool, Failed> {
    Ok(extension_hash(alloc, "a", "2")? == extension_hash(alloc, first, second)?)
}

#[test]
fn each_child_is_hashed(rt: HostRuntime) {
    let alloc = rt.alloc();
    answers(&rt, is_as_usual(alloc, "a", "2.0"), true, "a, 2.0");
    answers(&rt, is_as_usual(alloc, "b", "2"), false, "b, 2");
    answers(&rt, is_as_usual(alloc, "a", "3"), false, "a, 3");
}

/// The hash of the node in the expression.
fn node_hash(expr: &Expr) -> u64 {
    match expr {
        Expr::Aggregate(e) => hash_of(e),
        Expr::Unary(e) => hash_of(e),
        Expr::Binary(e) => hash_of(e),
        Expr::Paren(e) => hash_of(e),
        Expr::Subquery(e) => hash_of(e),
        Expr::NumberLiteral(e) => hash_of(e),
        Expr::StringLiteral(e) => hash_of(e),
        Expr::VectorSelector(e) => hash_of(e),
        Expr::MatrixSelector(e) => hash_of(e),
        Expr::Call(e) => hash_of(e),
        Expr::Extension(e) => hash_of(e),
    }
}

/// Whether the node has the hash of its expression.
fn is_node_hash(alloc: Global, text: &str) -> Result<bool, Failed> {
    let expr = kind(alloc, text)?;
    Ok(hash_of(&*expr) == node_hash(&expr))
}

#[test]
fn nodes_are_hashed_as_expressions(rt: HostRuntime) {
    for text in &KINDS {
        is_so(&rt, is_node_hash(rt.alloc(), text), text);
    }
}

/// The number of each kind, by its tree.
fn numbers_of_kinds(alloc: Global) -> Result<HashMap<Expr, usize>, Failed> {
    let mut numbers = HashMap::new(alloc);
    for (i, text) in KINDS.iter().enumerate() {
        numbers.insert(Box::into_inner(kind(alloc, text)?), i)?;
    }
    Ok(numbers)
}

/// The number that the map has for a kind.
fn number_of(
    alloc: Global,
    numbers: &HashMap<Expr, usize>,
    text: &str,
) -> Result<Option<usize>, Failed> {
    let key = kind(alloc, text)?;
    Ok(numbers.get(&*key).copied())
}

/// Whether the map has the number of each kind, and none for another tree.
fn has_numbers(alloc: Global, numbers: &HashMap<Expr, usize>) -> Result<bool, Failed> {
    for (i, text) in KINDS.iter().enumerate() {
        if number_of(alloc, numbers, text)? != Some(i) {
            return Ok(false);
        }
    }
    Ok(number_of(alloc, numbers, "b")?.is_none())
}

/// Whether trees are keys of a map.
fn are_keys(alloc: Global) -> Result<bool, Failed> {
    let numbers = numbers_of_kinds(alloc)?;
    has_numbers(alloc, &numbers)
}

#[test]
fn trees_are_keys(rt: HostRuntime) {
    is_so(&rt, are_keys(rt.alloc()), "a map of the kinds");
}
