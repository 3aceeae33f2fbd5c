//! Modifiers and functions: docs/reference/json.md, "Parts". Private.

ghost use Rattle.std.specs.Prelude.{◌≡◌, ◌≢◌, ◌⊎◌, ℕ, false, if◌then◌else◌, [], IfErr, IfOk, IfSome, List, OnErr, OnOk, Option, Some, codes, map, option_map};
ghost use Rattle.std.specs.Option.{option_map_or};
ghost use Rattle.serde_json.specs.Data.{Data, boolean, member, no_members, object, string};
ghost use Rattle.serde_json.specs.Find.{get};
ghost use Rattle.serde_json.specs.View.{members_view, view};
ghost use Rattle.promql_text.specs.Texts.{Text};
ghost use Rattle.promql_text.specs.declared.number.Number.{Number as AnyNumber};
ghost use Rattle.promql_label.specs.Labels.{labels_of};
ghost use Rattle.promql_kind.specs.Functions.{Signature, function_named, name_of, signature_of};
ghost use Rattle.promql_kind.specs.ModifierViews.{cardinality_of, clause_of, fills_of, matching_of};
ghost use Rattle.promql_kind.specs.Modifiers.{Cardinality, Clause, Matching, fills, is_including};
ghost use Rattle.promql_ast.specs.OptionalModifiers.{returns_bool};
ghost use Rattle.promql_json.specs.JsonParts as spec;
ghost use Rattle.promql_json.specs.FormNames.{is_excluding, optional_labels, type_json};
ghost use Rattle.promql_from_json.specs.ReadableBelow.{ReadableFill, ReadableMatching};
ghost use Rattle.promql_from_json.specs.FormMisfits.{IsNot, exactly, fill_values, function as function_form, grouped, list_of, modifier, no_list, node_named, one, or_null, word};
ghost use Rattle.promql_from_json.specs.MembersLeft.{IsAlone, IsIn, IsRow};
ghost use Rattle.promql_from_json.specs.declared.from_error.Expected.TheVariants.{Cardinality as CardinalityWord, EmptyList, FunctionName, FunctionPart, List as ListThere};
ghost use Rattle.promql_from_json.specs.declared.from_error.ReadError.TheVariants.{Memory};

use crate::fields::{Fields, member_named};
use crate::from_error::{Expected, ReadError, member};
use crate::read_labels::read_labels;
use crate::read_values::{
    expect_text, read_flag, read_list, read_object, read_optional_number, read_text,
};
use promql_json::type_name;
use promql_kind::{
    BinModifier, Function, LabelModifier, ValueType, VectorMatchCardinality, VectorMatchFillValues,
    get_function,
};
use promql_label::Labels;
use serde_json::{Map, Value};
use std::alloc::{AllocError, Global};

/// The clause of an aggregation.
pub(crate) fn read_grouping(
    alloc: Global,
    grouping: &Value,
    without: &Value,
) -> Result<Option<LabelModifier>, ReadError>
    ensures labels { IfOk result (λ m. view grouping.now
        ≡ spec.labels_json (optional_labels (option_map clause_of m))) }
    ensures without { IfOk result (λ m. view without.now
        ≡ boolean (is_excluding (option_map clause_of m))) }
    ensures err { IfErr result (λ e. e ≢ Memory → (m : Option Clause)
        → view grouping.now ≡ spec.labels_json (optional_labels m)
        → view without.now ≢ boolean (is_excluding m)) }
    ensures place { IfErr result (λ e. (n : ℕ) (d : Data) → get (codes "grouping") d ≡ Some (view grouping.now)
        → get (codes "without") d ≡ Some (view without.now) → IsIn (node_named (codes "aggregation") n) d e) }
{
    let is_without = member!(alloc, "without", read_flag(alloc, without));
    let labels = member!(alloc, "grouping", read_labels(alloc, grouping));
    if is_without {
        Ok(Some(LabelModifier::Exclude(labels)))
    } else if labels.is_empty() {
        Ok(None)
    } else {
        Ok(Some(LabelModifier::Include(labels)))
    }
}

/// The labels after `on` or `ignoring`; a grouping has one of these words before it.
fn read_matched(
    alloc: Global,
    labels: &Value,
    on: &Value,
    is_grouping: bool,
) -> Result<Option<LabelModifier>, ReadError>
    ensures labels { IfOk result (λ m. view labels.now
        ≡ spec.labels_json (optional_labels (option_map clause_of m))) }
    ensures on { IfOk result (λ m. view on.now
        ≡ boolean (option_map_or is_including (option_map clause_of m) false)) }
    ensures err { IfErr result (λ e. e ≢ Memory → (m : Option Clause)
        → view labels.now ≡ spec.labels_json (optional_labels m)
        → view on.now ≢ boolean (option_map_or is_including m false)) }
    ensures place { IfErr result (λ e. (d : Data) → get (codes "labels") d ≡ Some (view labels.now)
        → get (codes "on") d ≡ Some (view on.now) → IsIn modifier d e) }
{
    let is_on = member!(alloc, "on", read_flag(alloc, on));
    let labels = member!(alloc, "labels", read_labels(alloc, labels));
    if is_on {
        Ok(Some(LabelModifier::Include(labels)))
    } else if labels.is_empty() && !is_grouping {
        Ok(None)
    } else {
        Ok(Some(LabelModifier::Exclude(labels)))
    }
}

/// The labels of the only member, which has this name.
fn read_grouped(
    alloc: Global,
    members: &Map<String, Value>,
    name: &str,
) -> Result<Labels, ReadError>
    ensures ok { IfOk result (λ labels. members_view members.now.entries
        ≡ member name.now (spec.labels_json (labels_of labels)) no_members) }
    ensures err { IfErr result (λ e. e ≢ Memory → (ls : List Text)
        → members_view members.now.entries ≢ member name.now (spec.labels_json ls) no_members) }
    ensures place { IfErr result (λ e. IsAlone name.now → IsIn (grouped name.now) (object (members_view members.now.entries)) e) }
{
    let mut fields = Fields::new(members);
    let labels = fields.next(alloc, name)?;
    fields.end(alloc)?;
    Ok(member!(alloc, name, read_labels(alloc, labels)))
}

/// A cardinality with labels: those of `one-to-many` where the object has this member.
fn read_many(
    alloc: Global,
    members: &Map<String, Value>,
) -> Result<VectorMatchCardinality, ReadError>
    ensures ok { IfOk result (λ card. object (members_view members.now.entries)
        ≡ spec.cardinality_json (cardinality_of card)) }
    ensures err { IfErr result (λ e. e ≢ Memory → (card : Cardinality)
        → object (members_view members.now.entries) ≢ spec.cardinality_json card) }
    ensures place { IfErr result (IsIn (one CardinalityWord) (object (members_view members.now.entries))) }
{
    match member_named(members, "one-to-many") {
        Some(_) => {
            let labels = read_grouped(alloc, members, "one-to-many")?;
            Ok(VectorMatchCardinality::OneToMany(labels))
        }
        None => {
            let labels = read_grouped(alloc, members, "many-to-one")?;
            Ok(VectorMatchCardinality::ManyToOne(labels))
        }
    }
}

fn read_cardinality(alloc: Global, value: &Value) -> Result<VectorMatchCardinality, ReadError>
    ensures ok { IfOk result (λ card. view value.now ≡ spec.cardinality_json (cardinality_of card)) }
    ensures err { IfErr result (λ e. e ≢ Memory → (card : Cardinality)
        → view value.now ≢ spec.cardinality_json card) }
    ensures place { IfErr result (λ e. IsNot CardinalityWord (view value.now) → IsIn (one CardinalityWord) (view value.now) e) }
{
    match value {
        Value::String(text) if text.as_str() == "one-to-one" => Ok(
            VectorMatchCardinality::OneToOne,
        ),
        Value::String(text) if text.as_str() == "many-to-many" => {
            Ok(VectorMatchCardinality::ManyToMany)
        }
        Value::Object(members) => read_many(alloc, members),
        _ => Err(ReadError::here(alloc, Expected::Cardinality)),
    }
}

fn read_fills(alloc: Global, value: &Value) -> Result<VectorMatchFillValues, ReadError>
    ensures ok { IfOk result (λ values. view value.now ≡ spec.fills_json (fills_of values)) }
    ensures err { IfErr result (λ e. e ≢ Memory → (r l : Option AnyNumber) → ReadableFill r → ReadableFill l
        → view value.now ≢ spec.fills_json (fills r l)) }
    ensures place { IfErr result (IsIn fill_values (view value.now)) }
{
    let mut fields = Fields::new(read_object(alloc, value)?);
    let (lhs, rhs) = fields.two(alloc, "lhs", "rhs")?;
    fields.end(alloc)?;
    let lhs = member!(alloc, "lhs", read_optional_number(alloc, lhs));
    let rhs = member!(alloc, "rhs", read_optional_number(alloc, rhs));
    Ok(VectorMatchFillValues { rhs, lhs })
}

/// An empty list.
fn expect_no_items(alloc: Global, value: &Value) -> Result<(), ReadError>
    ensures ok { OnOk result (view value.now ≡ spec.list []) }
    ensures err { OnErr result (view value.now ≢ spec.list []) }
    ensures place { IfErr result (λ e. IsNot EmptyList (view value.now) → IsIn no_list (view value.now) e) }
{
    if read_list(alloc, value)?.is_empty() {
        Ok(())
    } else {
        Err(ReadError::here(alloc, Expected::EmptyList))
    }
}

/// The modifier of an object's members, with or without `bool`.
fn read_modifier(
    alloc: Global,
    members: &Map<String, Value>,
    return_bool: bool,
) -> Result<BinModifier, ReadError>
    ensures matching { IfOk result (λ m. object (members_view members.now.entries) ≡ spec.matching_json (matching_of m)) }
    ensures bool { IfOk result (λ m. m.return_bool ≡ return_bool) }
    ensures err { IfErr result (λ e. e ≢ Memory → (m : Matching) → ReadableMatching (Some m)
        → object (members_view members.now.entries) ≢ spec.matching_json m) }
    ensures place { IfErr result (IsIn modifier (object (members_view members.now.entries))) }
{
    let mut fields = Fields::new(members);
    let (card, values, include) = fields.three(alloc, "card", "fillValues", "include")?;
    let (labels, on) = fields.two(alloc, "labels", "on")?;
    fields.end(alloc)?;
    member!(alloc, "include", expect_no_items(alloc, include));
    let fill_values = member!(alloc, "fillValues", read_fills(alloc, values));
    let card = member!(alloc, "card", read_cardinality(alloc, card));
    let matching = read_matched(alloc, labels, on, card.is_grouping())?;
    Ok(BinModifier {
        card,
        matching,
        return_bool,
        fill_values,
    })
}

/// The modifier of a binary expression, or none.
pub(crate) fn read_matching(
    alloc: Global,
    value: &Value,
    return_bool: bool,
) -> Result<Option<BinModifier>, ReadError>
    ensures matching { IfOk result (λ m. view value.now ≡ spec.or_null spec.matching_json (option_map matching_of m)) }
    ensures bool { IfOk result (λ m. returns_bool (option_map matching_of m) ≡ return_bool) }
    ensures err { IfErr result (λ e. e ≢ Memory → (m : Option Matching) → ReadableMatching m
        → returns_bool m ≡ return_bool → view value.now ≢ spec.or_null spec.matching_json m) }
    ensures place { IfErr result (IsIn (if return_bool then modifier else or_null modifier) (view value.now)) }
{
    match value {
        Value::Null => {
            if return_bool {
                Err(ReadError::here(alloc, Expected::Object))
            } else {
                Ok(None)
            }
        }
        Value::Object(members) => Ok(Some(read_modifier(alloc, members, return_bool)?)),
        _ => Err(ReadError::here(alloc, Expected::Object)),
    }
}

// ---- functions

fn expect_types(alloc: Global, value: &Value, types: &[ValueType]) -> Result<(), ReadError>
    ensures ok { OnOk result (view value.now ≡ spec.list (map type_json types.now)) }
    ensures err { IfErr result (λ e. e ≢ Memory → view value.now ≢ spec.list (map type_json types.now)) }
    ensures place { IfErr result (λ e. view value.now ≢ spec.list (map type_json types.now)
        → IsIn (list_of ListThere (one FunctionPart)) (view value.now) e ⊎ IsIn (exactly (spec.list (map type_json types.now))) (view value.now) e) }
{
    let list = read_list(alloc, value)?;
    if list.len() != types.len() {
        return Err(ReadError::here(alloc, Expected::FunctionPart));
    }
    for i in 0..types.len() {
        match expect_text(alloc, &list[i], type_name(types[i]), Expected::FunctionPart) {
            Ok(()) => {}
            Err(error) => return Err(error.inside_item(alloc, i)),
        }
    }
    Ok(())
}

fn expect_flag(alloc: Global, value: &Value, wanted: bool) -> Result<(), ReadError>
    ensures ok { OnOk result (view value.now ≡ boolean wanted) }
    ensures err { OnErr result (view value.now ≢ boolean wanted) }
    ensures place { IfErr result (λ e. view value.now ≢ boolean wanted → IsIn (exactly (boolean wanted)) (view value.now) e) }
{
    match value {
        Value::Bool(flag) if *flag == wanted => Ok(()),
        _ => Err(ReadError::here(alloc, Expected::FunctionPart)),
    }
}

fn expect_whole(alloc: Global, value: &Value, wanted: i64) -> Result<(), ReadError>
    ensures ok { OnOk result (view value.now ≡ spec.whole wanted) }
    ensures err { OnErr result (view value.now ≢ spec.whole wanted) }
    ensures place { IfErr result (λ e. view value.now ≢ spec.whole wanted → IsIn (exactly (spec.whole wanted)) (view value.now) e) }
{
    match value.as_i64() {
        Some(z) if z == wanted => Ok(()),
        _ => Err(ReadError::here(alloc, Expected::FunctionPart)),
    }
}

/// The function of the table that has a name.
fn named_function(alloc: Global, name: &str) -> Result<Option<Function>, AllocError>
    ensures found { IfOk result (λ found. IfSome found (λ f. name_of (signature_of f) ≡ name.now)) }
    ensures row { IfOk result (λ found. option_map signature_of found ≡ function_named name.now) }
{
    get_function(alloc, name)
}

/// The function of a name.
fn function_of_name(alloc: Global, value: &Value) -> Result<Function, ReadError>
    ensures ok { IfOk result (λ f. view value.now ≡ string (name_of (signature_of f))) }
    ensures row { IfOk result (λ f. function_named (name_of (signature_of f)) ≡ Some (signature_of f)) }
    ensures err { IfErr result (λ e. e ≢ Memory → (f : Signature) → function_named (name_of f) ≡ Some f
        → view value.now ≢ string (name_of f)) }
    ensures place { IfErr result (λ e. IsNot FunctionName (view value.now) → IsIn (word FunctionName) (view value.now) e) }
{
    let name = read_text(alloc, value)?;
    match named_function(alloc, name)? {
        Some(function) => Ok(function),
        None => Err(ReadError::here(alloc, Expected::FunctionName)),
    }
}

/// The members beside the name are those of the function.
fn expect_function(
    alloc: Global,
    function: &Function,
    types: &Value,
    experimental: &Value,
    return_type: &Value,
    variadic: &Value,
) -> Result<(), ReadError>
    ensures types { OnOk result (view types.now ≡ spec.list (map type_json function.now.arg_types.items)) }
    ensures experimental { OnOk result (view experimental.now ≡ boolean function.now.experimental) }
    ensures gives { OnOk result (view return_type.now ≡ type_json function.now.return_type) }
    ensures variadic { OnOk result (view variadic.now ≡ spec.whole function.now.variadic) }
    ensures err { IfErr result (λ e. e ≢ Memory
        → view types.now ≡ spec.list (map type_json function.now.arg_types.items)
        → view experimental.now ≡ boolean function.now.experimental
        → view return_type.now ≡ type_json function.now.return_type
        → view variadic.now ≢ spec.whole function.now.variadic) }
    ensures place { IfErr result (λ e. (d : Data) → IsRow (signature_of function.now)
        → get (codes "name") d ≡ Some (string (name_of (signature_of function.now)))
        → get (codes "argTypes") d ≡ Some (view types.now) → get (codes "experimental") d ≡ Some (view experimental.now)
        → get (codes "returnType") d ≡ Some (view return_type.now) → get (codes "variadic") d ≡ Some (view variadic.now) → IsIn function_form d e) }
{
    member!(
        alloc,
        "argTypes",
        expect_types(alloc, types, &function.arg_types)
    );
    member!(
        alloc,
        "experimental",
        expect_flag(alloc, experimental, function.experimental)
    );
    let given = expect_text(
        alloc,
        return_type,
        type_name(function.return_type),
        Expected::FunctionPart,
    );
    member!(alloc, "returnType", given);
    member!(
        alloc,
        "variadic",
        expect_whole(alloc, variadic, function.variadic as i64)
    );
    Ok(())
}

/// A function of the table.
pub(crate) fn read_function(alloc: Global, value: &Value) -> Result<Function, ReadError>
    ensures ok { IfOk result (λ f. view value.now ≡ spec.function_json (signature_of f)) }
    ensures err { IfErr result (λ e. e ≢ Memory → (f : Signature) → function_named (name_of f) ≡ Some f
        → view value.now ≢ spec.function_json f) }
    ensures place { IfErr result (IsIn function_form (view value.now)) }
{
    let mut fields = Fields::new(read_object(alloc, value)?);
    let (types, experimental, name) = fields.three(alloc, "argTypes", "experimental", "name")?;
    let (return_type, variadic) = fields.two(alloc, "returnType", "variadic")?;
    fields.end(alloc)?;
    let function = member!(alloc, "name", function_of_name(alloc, name));
    expect_function(alloc, &function, types, experimental, return_type, variadic)?;
    Ok(function)
}
