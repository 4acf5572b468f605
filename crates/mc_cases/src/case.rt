// A case, and what stands in it.

use anyhow::{Result, bail};
use serde_json::Value;

/// One JSON object of a file of cases, or of a case.
#[derive(Clone, Copy)]
pub struct Case<'a> {
    value: &'a Value,
}

impl<'a> Case<'a> {
    /// The case of a JSON value. One that is no object has nothing by any name.
    pub fn new(value: &'a Value) -> Case<'a> {
        Case { value }
    }

    /// The value itself.
    pub fn value(self) -> &'a Value {
        self.value
    }

    /// The name of the case, which says what it tries; `?` where it has none.
    pub fn name(self) -> &'a str {
        self.text_or("name", "?")
    }

    /// What stands by a name, and None where nothing does.
    pub fn find(self, key: &str) -> Option<&'a Value> {
        self.value.get(key)
    }

    /// Whether something stands by a name.
    pub fn has(self, key: &str) -> bool {
        self.value.get(key).is_some()
    }

    /// The value by a name.
    pub fn get(self, key: &str) -> Result<&'a Value> {
        match self.value.get(key) {
            Some(value) => Ok(value),
            None => bail!("nothing stands by {key:?}"),
        }
    }

    /// The object by a name.
    pub fn at(self, key: &str) -> Result<Case<'a>> {
        match self.value.get(key) {
            Some(value) if value.is_object() => Ok(Case { value }),
            _ => bail!("no object stands by {key:?}"),
        }
    }

    /// The text by a name.
    pub fn text(self, key: &str) -> Result<&'a str> {
        match self.value.get(key).and_then(Value::as_str) {
            Some(text) => Ok(text),
            None => bail!("no text stands by {key:?}"),
        }
    }

    /// The text by a name, or another where none stands.
    pub fn text_or(self, key: &str, other: &'a str) -> &'a str {
        self.value.get(key).and_then(Value::as_str).unwrap_or(other)
    }

    /// The number by a name, 0 or above.
    pub fn number(self, key: &str) -> Result<u64> {
        match self.value.get(key).and_then(Value::as_u64) {
            Some(number) => Ok(number),
            None => bail!("no number from 0 on stands by {key:?}"),
        }
    }

    /// The number by a name, 0 or above, or another where none stands.
    pub fn number_or(self, key: &str, other: u64) -> u64 {
        self.value.get(key).and_then(Value::as_u64).unwrap_or(other)
    }

    /// The whole number by a name.
    pub fn integer(self, key: &str) -> Result<i64> {
        match self.value.get(key).and_then(Value::as_i64) {
            Some(number) => Ok(number),
            None => bail!("no whole number stands by {key:?}"),
        }
    }

    /// Whether `true` stands by a name.
    pub fn is(self, key: &str) -> bool {
        self.value.get(key).and_then(Value::as_bool) == Some(true)
    }

    /// The list by a name.
    pub fn list(self, key: &str) -> Result<&'a [Value]> {
        match self.value.get(key).and_then(Value::as_array) {
            Some(list) => Ok(list.as_slice()),
            None => bail!("no list stands by {key:?}"),
        }
    }

    /// The list by a name, or an empty one where none stands.
    pub fn list_or_empty(self, key: &str) -> &'a [Value] {
        match self.value.get(key).and_then(Value::as_array) {
            Some(list) => list.as_slice(),
            None => &[],
        }
    }
}
