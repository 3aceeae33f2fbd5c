//! The text of JSON, written a token at a time. Private.

ghost use Rattle.std.specs.Prelude.{◌≡◌, [], ◌∷◌, ◌++◌, None, OnOk, string_bytes};
ghost use Rattle.json.specs.Print.{print};
ghost use Rattle.json.specs.Token as token;
ghost use Rattle.serde_json.specs.Data.{boolean, null, string};
ghost use Rattle.promql_json.specs.Json.{width_fault};
ghost use Rattle.promql_json.specs.JsonParts.{whole};
ghost use Rattle.promql_json.specs.JsonTokens.{end_of, member};

use json::Writer;
use std::alloc::{AllocError, Global};
use std::marker::Model;

/// JSON that is being written. A contract sees the tokens.
#[derive(Drop)]
pub(crate) struct JsonWriter {
    out: Writer,
}

impl Model for JsonWriter {
    ghost use Rattle.std.specs.Prelude.{◌≡◌, List, []};
    ghost use Rattle.json.specs.Token.{Token, tokens_code};

    ghost Value = { List Token };

    ghost coded = { tokens_code };

    ghost view = { λ w. w.out.tokens };

    ghost invariant = { λ w. w.out.before ≡ [] };
}

impl JsonWriter {
    pub(crate) fn new(alloc: Global) -> JsonWriter
        ensures { result ≡ [] }
    {
        JsonWriter {
            out: Writer::new(Vec::new(alloc)),
        }
    }

    pub(crate) fn begin_object(&mut self) -> Result<(), AllocError>
        ensures { OnOk result (self.new ≡ self.old ++ token.begin_object ∷ []) }
    {
        self.out.begin_object()
    }

    pub(crate) fn end_object(&mut self) -> Result<(), AllocError>
        ensures { OnOk result (self.new ≡ self.old ++ token.end_object ∷ []) }
    {
        self.out.end_object()
    }

    pub(crate) fn begin_array(&mut self) -> Result<(), AllocError>
        ensures { OnOk result (self.new ≡ self.old ++ token.begin_array ∷ []) }
    {
        self.out.begin_array()
    }

    pub(crate) fn end_array(&mut self) -> Result<(), AllocError>
        ensures { OnOk result (self.new ≡ self.old ++ token.end_array ∷ []) }
    {
        self.out.end_array()
    }

    pub(crate) fn key(&mut self, name: &str) -> Result<(), AllocError>
        ensures { OnOk result (self.new ≡ self.old ++ token.key name.now ∷ []) }
    {
        self.out.key(name)
    }

    pub(crate) fn string(&mut self, text: &str) -> Result<(), AllocError>
        ensures { OnOk result (self.new ≡ self.old ++ token.string text.now ∷ []) }
    {
        self.out.string(text)
    }

    pub(crate) fn null(&mut self) -> Result<(), AllocError>
        ensures { OnOk result (self.new ≡ self.old ++ token.null ∷ []) }
    {
        self.out.null()
    }

    pub(crate) fn empty_array(&mut self) -> Result<(), AllocError>
        ensures { OnOk result
            (self.new ≡ self.old ++ token.begin_array ∷ (token.end_array ∷ [])) }
    {
        self.out.begin_array()?;
        self.out.end_array()
    }

    /// Begins an object, up to the value of its first member.
    pub(crate) fn begin_with(&mut self, name: &str) -> Result<(), AllocError>
        ensures { OnOk result
            (self.new ≡ self.old ++ token.begin_object ∷ (token.key name.now ∷ [])) }
    {
        self.out.begin_object()?;
        self.out.key(name)
    }

    pub(crate) fn string_member(&mut self, name: &str, text: &str) -> Result<(), AllocError>
        ensures { OnOk result (self.new ≡ self.old ++ member name.now (string text.now)) }
    {
        self.out.key(name)?;
        self.out.string(text)
    }

    pub(crate) fn bool_member(&mut self, name: &str, value: bool) -> Result<(), AllocError>
        ensures { OnOk result (self.new ≡ self.old ++ member name.now (boolean value)) }
    {
        self.out.key(name)?;
        self.out.boolean(value)
    }

    pub(crate) fn null_member(&mut self, name: &str) -> Result<(), AllocError>
        ensures { OnOk result (self.new ≡ self.old ++ member name.now null) }
    {
        self.out.key(name)?;
        self.out.null()
    }

    #[tactic(auto, using(crate::proofs::JsonTokens::signed_text))]
    pub(crate) fn i64_member(&mut self, name: &str, z: i64) -> Result<(), AllocError>
        ensures { OnOk result (self.new ≡ self.old ++ member name.now (whole z)) }
    {
        self.out.key(name)?;
        self.out.i64(z)
    }

    /// A member with a whole number from -2^63 to 2^64 - 1.
    #[tactic(auto, using(crate::proofs::JsonTokens::signed_text))]
    pub(crate) fn whole_member(&mut self, name: &str, z: i128) -> Result<(), AllocError>
        requires { width_fault z ≡ None }
        ensures { OnOk result (self.new ≡ self.old ++ member name.now (whole z)) }
    {
        self.out.key(name)?;
        if z < i64::MIN as i128 || z >= 1 << 64 {
            unreachable!()
        } else if z < 0 {
            self.out.i64(z as i64)
        } else {
            self.out.u64(z as u64)
        }
    }

    /// Ends a node's object with the key `type`.
    pub(crate) fn end_node(&mut self, type_name: &str) -> Result<(), AllocError>
        ensures { OnOk result (self.new ≡ self.old ++ end_of type_name.now) }
    {
        self.string_member("type", type_name)?;
        self.end_object()
    }

    pub(crate) fn into_string(self) -> String
        ensures { string_bytes result ≡ print self }
    {
        let JsonWriter { out } = self;
        match String::from_utf8(out.into_inner()) {
            Ok(text) => text,
            Err(_) => unreachable!(),
        }
    }
}
