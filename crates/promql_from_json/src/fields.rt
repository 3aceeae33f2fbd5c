//! The members of an object, read in byte order of their names. Private.

ghost use Rattle.std.specs.Prelude.{◌≡◌, ◌≢◌, ◌∷◌, [], true, IfErr, IfNone, IfOk, IfSome, None, OnErr, OnOk, Option, Some, codes, option_map};
ghost use Rattle.serde_json.specs.Data.{Data, Members, member, no_members, object, string as text};
ghost use Rattle.serde_json.specs.Find.{get, get_member};
ghost use Rattle.serde_json.specs.View.{members_view, view};
ghost use Rattle.promql_text.specs.Texts.{Text};
ghost use Rattle.promql_from_json.specs.FormMisfits.{Form};
ghost use Rattle.promql_from_json.specs.MembersLeft.{AreLeft, IsIn, begins, follows, in_order};
ghost use Rattle.promql_from_json.specs.declared.from_error.ReadError.TheVariants.{Memory};

use crate::from_error::{Expected, ReadError, member};
use crate::read_values::expect_text;
use serde_json::{Map, Value};
use std::alloc::{AllocError, Global};
use std::collections::btree_map::Iter;

/// The value of the member of a name, wherever it is.
pub(crate) fn member_named<'v>(members: &'v Map<String, Value>, name: &str) -> Option<&'v Value>
    ensures { option_map (λ v. view v.now) result ≡ get_member name.now (members_view members.now.entries) }
{
    members.get(name)
}

/// The members of an object that are left to be read.
#[derive(Drop)]
pub(crate) struct Fields<'v> {
    rest: Iter<'v, String, Value>,
}

impl<'v> Fields<'v> {
    pub(crate) fn new(members: &'v Map<String, Value>) -> Fields<'v>
        ensures all { result.rest ≡ members.now.entries }
        ensures left { (f : Form) (first : Text) → begins f first ≡ true
            → AreLeft f (object (members_view members.now.entries)) (Some first) (members_view result.rest) }
    {
        Fields {
            rest: members.iter(),
        }
    }

    /// The value of the next member, which has to have this name.
    pub(crate) fn next(&mut self, alloc: Global, name: &str) -> Result<&'v Value, ReadError>
        ensures ok { IfOk result (λ v. members_view self.old.rest
            ≡ member name.now (view v.now) (members_view self.new.rest)) }
        ensures err { IfErr result (λ e. e ≢ Memory → (d : Data) (ms : Members)
            → members_view self.old.rest ≢ member name.now d ms) }
        ensures left { IfOk result (λ v. (f : Form) (d : Data) → AreLeft f d (Some name.now) (members_view self.old.rest)
            → (get name.now d ≡ Some (view v.now))
            × ((after : Option Text) → follows f (Some name.now) after ≡ true → AreLeft f d after (members_view self.new.rest))) }
        ensures place { IfErr result (λ e. (f : Form) (d : Data) → AreLeft f d (Some name.now) (members_view self.old.rest)
            → in_order f (name.now ∷ []) ≡ true → IsIn f d e) }
    {
        match self.rest.next() {
            Some((key, value)) => {
                let key = key.as_str();
                if key == name {
                    Ok(value)
                } else if key < name {
                    Err(ReadError::at(alloc, key, Expected::Unknown))
                } else {
                    Err(ReadError::at(alloc, name, Expected::Missing))
                }
            }
            None => Err(ReadError::at(alloc, name, Expected::Missing)),
        }
    }

    /// The value of the next member if that has this name.
    pub(crate) fn next_if(&mut self, name: &str) -> Result<Option<&'v Value>, AllocError>
        ensures some { IfOk result (λ found. IfSome found (λ v. members_view self.old.rest
            ≡ member name.now (view v.now) (members_view self.new.rest))) }
        ensures same { IfOk result (λ found. IfNone found
            (members_view self.new.rest ≡ members_view self.old.rest)) }
        ensures none { IfOk result (λ found. IfNone found ((d : Data) (ms : Members)
            → members_view self.old.rest ≢ member name.now d ms)) }
        ensures left { IfOk result (λ found. IfSome found (λ v. (f : Form) (d : Data) → AreLeft f d (Some name.now) (members_view self.old.rest)
            → (get name.now d ≡ Some (view v.now))
            × ((after : Option Text) → follows f (Some name.now) after ≡ true → AreLeft f d after (members_view self.new.rest)))) }
    {
        let mut ahead = self.rest.clone()?;
        match ahead.next() {
            Some((key, value)) if key.as_str() == name => {
                self.rest = ahead;
                Ok(Some(value))
            }
            _ => Ok(None),
        }
    }

    /// No member may be left.
    pub(crate) fn end(&mut self, alloc: Global) -> Result<(), ReadError>
        ensures ok { OnOk result (members_view self.old.rest ≡ no_members) }
        ensures err { OnErr result (members_view self.old.rest ≢ no_members) }
        ensures place { IfErr result (λ e. (f : Form) (d : Data) → AreLeft f d None (members_view self.old.rest) → IsIn f d e) }
    {
        match self.rest.next() {
            Some((key, _)) => Err(ReadError::at(alloc, key.as_str(), Expected::Unknown)),
            None => Ok(()),
        }
    }

    /// No member may be left, and `node`, the member `type`, has to have this text.
    pub(crate) fn end_of_node(
        &mut self,
        alloc: Global,
        node: &Value,
        type_name: &str,
    ) -> Result<(), ReadError>
        ensures ok { OnOk result (members_view self.old.rest ≡ no_members) }
        ensures node { OnOk result (view node.now ≡ text type_name.now) }
        ensures err { IfErr result (λ e. e ≢ Memory → members_view self.old.rest ≡ no_members
            → view node.now ≢ text type_name.now) }
        ensures place { IfErr result (λ e. (f : Form) (d : Data) → AreLeft f d None (members_view self.old.rest)
            → view node.now ≡ text type_name.now → IsIn f d e) }
    {
        self.end(alloc)?;
        member!(
            alloc,
            "type",
            expect_text(alloc, node, type_name, Expected::Node)
        );
        Ok(())
    }

    /// The values of the next two members.
    pub(crate) fn two(
        &mut self,
        alloc: Global,
        first: &str,
        second: &str,
    ) -> Result<(&'v Value, &'v Value), ReadError>
        ensures ok { IfOk result (λ v. members_view self.old.rest
            ≡ member first.now (view v.0.now)
            (member second.now (view v.1.now) (members_view self.new.rest))) }
        ensures err { IfErr result (λ e. e ≢ Memory → (c d : Data) (ms : Members)
            → members_view self.old.rest ≢ member first.now c (member second.now d ms)) }
        ensures left { IfOk result (λ v. (f : Form) (d : Data) → AreLeft f d (Some first.now) (members_view self.old.rest)
            → in_order f (first.now ∷ second.now ∷ []) ≡ true
            → (get first.now d ≡ Some (view v.0.now)) × (get second.now d ≡ Some (view v.1.now))
            × ((after : Option Text) → follows f (Some second.now) after ≡ true → AreLeft f d after (members_view self.new.rest))) }
        ensures place { IfErr result (λ e. (f : Form) (d : Data) → AreLeft f d (Some first.now) (members_view self.old.rest)
            → in_order f (first.now ∷ second.now ∷ []) ≡ true → IsIn f d e) }
    {
        let one = self.next(alloc, first)?;
        let two = self.next(alloc, second)?;
        Ok((one, two))
    }

    /// The values of the next three members.
    pub(crate) fn three(
        &mut self,
        alloc: Global,
        first: &str,
        second: &str,
        third: &str,
    ) -> Result<(&'v Value, &'v Value, &'v Value), ReadError>
        ensures ok { IfOk result (λ v. members_view self.old.rest
            ≡ member first.now (view v.0.now) (member second.now (view v.1.now)
            (member third.now (view v.2.now) (members_view self.new.rest)))) }
        ensures err { IfErr result (λ e. e ≢ Memory → (b c d : Data) (ms : Members)
            → members_view self.old.rest ≢ member first.now b (member second.now c (member third.now d ms))) }
        ensures left { IfOk result (λ v. (f : Form) (d : Data) → AreLeft f d (Some first.now) (members_view self.old.rest)
            → in_order f (first.now ∷ second.now ∷ third.now ∷ []) ≡ true
            → (get first.now d ≡ Some (view v.0.now)) × (get second.now d ≡ Some (view v.1.now)) × (get third.now d ≡ Some (view v.2.now))
            × ((after : Option Text) → follows f (Some third.now) after ≡ true → AreLeft f d after (members_view self.new.rest))) }
        ensures place { IfErr result (λ e. (f : Form) (d : Data) → AreLeft f d (Some first.now) (members_view self.old.rest)
            → in_order f (first.now ∷ second.now ∷ third.now ∷ []) ≡ true → IsIn f d e) }
    {
        let (one, two) = self.two(alloc, first, second)?;
        let three = self.next(alloc, third)?;
        Ok((one, two, three))
    }
}
