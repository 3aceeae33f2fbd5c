//! Matchers with their places, as JSON: docs/reference/json.md, "Places".

ghost use Rattle.std.specs.Prelude.{◌≡◌, Option, IfOk, OnOk, drop, length, map, slice_get};
ghost use Rattle.serde_json.specs.View.{members_view, view};
ghost use Rattle.promql_label.specs.MatcherViews.{plain_matcher_of, plain_matchers_of};
ghost use Rattle.promql_json.specs.JsonParts.{list, with_groups};
ghost use Rattle.promql_places.specs.PlacedForms as spec;

use crate::parts::{Part, PartKind};
use promql_label::{Matcher, Matchers};
use promql_span::Span;
use promql_walk::{match_op_json, matcher_json};
use serde_json::{Map, Value, json, put};
use std::alloc::{AllocError, Global};

/// The places of matchers that are left.
#[derive(Drop)]
struct PlacesLeft<'a> {
    rest: &'a [Span],
}

impl<'a> PlacesLeft<'a> {
    /// The next one, if there is one.
    fn next(&mut self) -> Option<Span>
        ensures next { result ≡ slice_get self.old.rest.now 0 }
        ensures rest { self.new.rest.now ≡ drop 1 self.old.rest.now }
    {
        let [place, rest @ ..] = self.rest else {
            return None;
        };
        self.rest = rest;
        Some(*place)
    }
}

/// The places of the matchers of a node with these parts.
fn matcher_places(alloc: Global, parts: &[Part]) -> Result<Vec<Span>, AllocError>
    ensures { IfOk result (λ places. places.items ≡ spec.matcher_places parts.now) }
{
    let mut places = Vec::new(alloc);
    for part in parts {
        if part.kind == PartKind::Matcher {
            places.push(part.span)?;
        }
    }
    Ok(places)
}

/// A matcher's object, with its place if it has one.
fn matcher_value(alloc: Global, matcher: &Matcher, place: Option<Span>) -> Result<Value, AllocError>
    ensures { IfOk result (λ v. view v ≡ spec.placed_matcher place (plain_matcher_of matcher.now)) }
{
    let Some(place) = place else {
        return matcher_json(alloc, matcher);
    };
    json!(in alloc; {
        "type": match_op_json(alloc, &matcher.op)?,
        "name": matcher.name.as_str(),
        "value": matcher.value.as_str(),
        "start": place.start,
        "end": place.end
    })
}

/// A list of matchers, each with the place that comes next.
fn group_value(
    alloc: Global,
    matchers: &[Matcher],
    places: &mut PlacesLeft<'_>,
) -> Result<Value, AllocError>
    ensures value { IfOk result (λ v. view v
        ≡ list (spec.placed_matchers (map plain_matcher_of matchers.now) places.old.rest.now)) }
    ensures rest { OnOk result (places.new.rest.now ≡ drop (length matchers.now) places.old.rest.now) }
{
    let mut list = Vec::with_capacity(alloc, matchers.len())?;
    for matcher in matchers {
        list.push(matcher_value(alloc, matcher, places.next())?)?;
    }
    Ok(Value::Array(list))
}

fn groups_value(
    alloc: Global,
    groups: &[Vec<Matcher>],
    places: &mut PlacesLeft<'_>,
) -> Result<Value, AllocError>
    ensures { IfOk result (λ v. view v ≡ list (spec.placed_groups
        (map (λ g. map plain_matcher_of g.items) groups.now) places.old.rest.now)) }
{
    let mut list = Vec::with_capacity(alloc, groups.len())?;
    for group in groups {
        list.push(group_value(alloc, group, places)?)?;
    }
    Ok(Value::Array(list))
}

/// Puts `or_matchers` where there are groups.
fn put_groups(
    members: &mut Map<String, Value>,
    alloc: Global,
    groups: &[Vec<Matcher>],
    places: &mut PlacesLeft<'_>,
) -> Result<(), AllocError>
    ensures { OnOk result (members_view members.new.entries
        ≡ with_groups (spec.placed_groups (map (λ g. map plain_matcher_of g.items) groups.now)
        places.old.rest.now) (members_view members.old.entries)) }
{
    if !groups.is_empty() {
        put(
            members,
            alloc,
            "or_matchers",
            groups_value(alloc, groups, places)?,
        )?;
    }
    Ok(())
}

/// Puts the matchers of a selector with these parts, each with its place.
pub fn put_matchers(
    members: &mut Map<String, Value>,
    alloc: Global,
    matchers: &Matchers,
    parts: &[Part],
) -> Result<(), AllocError>
    ensures { OnOk result (members_view members.new.entries
        ≡ spec.with_placed_matchers (plain_matchers_of matchers.now)
        (spec.matcher_places parts.now) (members_view members.old.entries)) }
{
    let list = matcher_places(alloc, parts)?;
    let mut places = PlacesLeft {
        rest: list.as_slice(),
    };
    put(
        members,
        alloc,
        "matchers",
        group_value(alloc, &matchers.matchers, &mut places)?,
    )?;
    put_groups(members, alloc, &matchers.or_matchers, &mut places)
}
