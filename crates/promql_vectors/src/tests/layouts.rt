//! Which texts are split, and a user's own type that is laid out.

use super::{Failed, holds, is_so, prints, read};
use promql_parser::parser::Prettier;
use std::alloc::Global;
use std::fmt;
use std::fmt::{Display, Write};

const SHARE: &str = "sum by (b) (a) / c";

/// Whether the line is split where it is too long, and else stays.
fn is_split(alloc: Global) -> Result<bool, Failed> {
    let share = read(alloc, SHARE)?;
    let is_too_long = share.needs_split(17) && !share.needs_split(18);
    Ok(is_too_long && share.prettify(alloc)?.as_str() == SHARE)
}

#[test]
fn a_line_is_split_where_it_is_too_long(rt: HostRuntime) {
    is_so(&rt, is_split(rt.alloc()), SHARE);
}

/// A rule that records what a query gives.
#[derive(Drop)]
struct Rule<'a> {
    record: &'a str,
    query: &'a str,
}

impl Display for Rule<'_> {
    ghost use Rattle.std.specs.Prelude.{Some, ◌++◌, codes};

    ghost output = { λ rule. Some (rule.record.now ++ (codes " = " ++ rule.query.now)) };

    fn fmt<W: Write>(&self, f: &mut fmt::Formatter<W>) -> fmt::Result {
        write!(f, "{} = {}", self.record, self.query)
    }
}

impl Prettier for Rule<'_> {
    ghost use Rattle.std.proofs.Common.{rules};

    ghost states = { λ rule. Prim.search rules };
}

#[test]
fn a_type_of_a_user(rt: HostRuntime) {
    let alloc = rt.alloc();
    let rule = Rule {
        record: "job:up",
        query: "sum(up)",
    };
    holds(&rt, rule.needs_split(15) && !rule.needs_split(16), "job:up");
    for most in [0, 100] {
        prints(&rt, rule.pretty(alloc, 1, most), "  job:up = sum(up)");
        prints(&rt, rule.format(alloc, 0, most), "job:up = sum(up)");
    }
}
