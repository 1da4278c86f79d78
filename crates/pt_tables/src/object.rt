//! Objects and arrays of JSON that are being made.

ghost use Rattle.std.specs.Prelude.{◌≡◌, ◌∷◌, ◌++◌, [], OnOk};
ghost use Rattle.serde_json.specs.Data.{array, no_members, object, put, string};
ghost use Rattle.serde_json.specs.View.{items_of, view};
ghost use Rattle.hex.specs.Hex.{encode_lower};
ghost use Rattle.pt_tables.specs.Fields.{num};
ghost use Rattle.pt_tables.specs.inner.Objects.{members_in, values_in};

use serde_json::{Map, Value};
use std::alloc::{AllocError, Global};

/// An object: names, and what stands under them.
#[derive(Drop)]
pub(crate) struct Object {
    members: Map<String, Value>,
}

impl Object {
    pub fn new(alloc: Global) -> Object
        ensures { members_in result ≡ no_members }
    {
        Object {
            members: Map::new(alloc),
        }
    }

    /// Puts a value under a name.
    pub fn put(&mut self, alloc: Global, name: &str, value: Value) -> Result<(), AllocError>
        ensures { OnOk result (members_in self.new ≡ put name.now (view value) (members_in self.old)) }
    {
        serde_json::put(&mut self.members, alloc, name, value)
    }

    pub fn put_number(&mut self, alloc: Global, name: &str, number: u64) -> Result<(), AllocError>
        ensures { OnOk result (members_in self.new ≡ put name.now (num number) (members_in self.old)) }
    {
        self.put(alloc, name, Value::from(number))
    }

    pub fn put_text(&mut self, alloc: Global, name: &str, text: &str) -> Result<(), AllocError>
        ensures { OnOk result (members_in self.new ≡ put name.now (string text.now) (members_in self.old)) }
    {
        let text = String::from_str(alloc, text)?;
        self.put(alloc, name, Value::String(text))
    }

    /// Puts bytes as hexadecimal digits.
    pub fn put_bytes(&mut self, alloc: Global, name: &str, bytes: &[u8]) -> Result<(), AllocError>
        ensures { OnOk result (members_in self.new ≡ put name.now (string (encode_lower bytes.now)) (members_in self.old)) }
    {
        let text = hex::encode(alloc, bytes)?;
        self.put(alloc, name, Value::String(text))
    }

    pub fn into_value(self) -> Value
        ensures { view result ≡ object (members_in self) }
    {
        Value::Object(self.members)
    }
}

/// An array: values in order.
#[derive(Drop)]
pub(crate) struct Array {
    items: Vec<Value>,
}

impl Array {
    pub fn new(alloc: Global) -> Array
        ensures { values_in result ≡ [] }
    {
        Array {
            items: Vec::new(alloc),
        }
    }

    pub fn push(&mut self, value: Value) -> Result<(), AllocError>
        ensures { OnOk result (values_in self.new ≡ values_in self.old ++ view value ∷ []) }
    {
        self.items.push(value)?;
        Ok(())
    }

    pub fn push_number(&mut self, number: u64) -> Result<(), AllocError>
        ensures { OnOk result (values_in self.new ≡ values_in self.old ++ num number ∷ []) }
    {
        self.push(Value::from(number))
    }

    pub fn into_value(self) -> Value
        ensures { view result ≡ array (items_of (values_in self)) }
    {
        Value::Array(self.items)
    }
}
