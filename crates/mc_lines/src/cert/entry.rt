// What stands in the entries of lines: numbers, ids and lists.
ghost use Rattle.std.specs.Prelude.{◌≡◌, ◌≢◌, ◌↔◌, ◌∷◌, ◌++◌, [], ℕ, ℤ, List, All, IfOk, IsTrue, OnOk, MatchOption, map, string_bytes};
ghost use Rattle.serde_json.specs.Data.{Data, string};
ghost use Rattle.serde_json.specs.View.{view};
ghost use Rattle.mc_lines.specs.Cert.Entries.{Fits, IsSigned, count_data, edge_id_data, form_data, kind_data, list_data};
ghost use Rattle.mc_lines.specs.Cert.Entries.{node_data, option_data, point_data, pred_data, side_data, signed_data};
ghost use Rattle.mc_lines.specs.Cert.Entries.{struct_data, values_data, word_data};
ghost use Rattle.mc_lines.specs.Cert.Reads.{Reads};

use crate::cert::LineFault;
use crate::cert::ids::Id;
use mc_base::{Args, EdgeId, Items, Kind, NodeId, PointId, PredId, StructId};
use mc_state::{Form, Side};
use serde_json::Value;
use std::alloc::{AllocError, Global};

/// What an entry of a line holds.
pub trait Entry {
    /// The value that spells it.
    ghost spelled: { Self → Data };

    /// Its numbers fit their types.
    ghost fits: { Self → Type 0 };

    /// What the value spells; the fault is `Form` or `NoMemory`.
    fn read(alloc: Global, value: &Value) -> Result<Self, LineFault>
        ensures { Reads spelled fits (view value.now) result };

    /// The value that spells it.
    fn write(&self, alloc: Global) -> Result<Value, AllocError>
        ensures { IfOk result (λ v. (view v ≡ spelled self.now) × fits self.now) };
}

// ---- numbers

fn count(value: &Value) -> Option<u64>
    ensures { MatchOption result ((n : ℕ) → view value.now ≢ count_data n) (λ n. view value.now ≡ count_data n) }
{
    value.as_u64()
}

fn signed(value: &Value) -> Option<i64>
    ensures { MatchOption result ((z : ℤ) → IsSigned z → view value.now ≢ signed_data z)
        (λ z. (view value.now ≡ signed_data z) × IsSigned z) }
{
    let number = value.as_i64()?;
    if number < 0 || value.is_u64() {
        Some(number)
    } else {
        None
    }
}

fn id<T: Id>(value: &Value) -> Result<T, LineFault>
    ensures { Reads (λ x. count_data (T.number_of x)) Fits (view value.now) result }
{
    match count(value) {
        None => Err(LineFault::Form),
        Some(n) => Ok(T::of(n)),
    }
}

fn signed_value(number: i64) -> Value
    ensures { (view result ≡ signed_data number) × IsSigned number }
{
    Value::from(number)
}

impl Entry for u64 {
    ghost spelled = { count_data };

    ghost fits = { Fits };

    fn read(_alloc: Global, value: &Value) -> Result<u64, LineFault> {
        match count(value) {
            None => Err(LineFault::Form),
            Some(n) => Ok(n),
        }
    }

    fn write(&self, _alloc: Global) -> Result<Value, AllocError> {
        Ok(Value::from(*self))
    }
}

impl Entry for i64 {
    ghost spelled = { signed_data };

    ghost fits = { IsSigned };

    fn read(_alloc: Global, value: &Value) -> Result<i64, LineFault> {
        match signed(value) {
            None => Err(LineFault::Form),
            Some(n) => Ok(n),
        }
    }

    fn write(&self, _alloc: Global) -> Result<Value, AllocError> {
        Ok(signed_value(*self))
    }
}

impl Entry for PointId {
    ghost spelled = { point_data };

    ghost fits = { Fits };

    fn read(_alloc: Global, value: &Value) -> Result<PointId, LineFault> {
        id(value)
    }

    fn write(&self, _alloc: Global) -> Result<Value, AllocError> {
        Ok(Value::from(self.0))
    }
}

impl Entry for NodeId {
    ghost spelled = { node_data };

    ghost fits = { Fits };

    fn read(_alloc: Global, value: &Value) -> Result<NodeId, LineFault> {
        id(value)
    }

    fn write(&self, _alloc: Global) -> Result<Value, AllocError> {
        Ok(Value::from(self.0))
    }
}

impl Entry for EdgeId {
    ghost spelled = { edge_id_data };

    ghost fits = { Fits };

    fn read(_alloc: Global, value: &Value) -> Result<EdgeId, LineFault> {
        id(value)
    }

    fn write(&self, _alloc: Global) -> Result<Value, AllocError> {
        Ok(Value::from(self.0))
    }
}

impl Entry for PredId {
    ghost spelled = { pred_data };

    ghost fits = { Fits };

    fn read(_alloc: Global, value: &Value) -> Result<PredId, LineFault> {
        id(value)
    }

    fn write(&self, _alloc: Global) -> Result<Value, AllocError> {
        Ok(Value::from(self.0))
    }
}

impl Entry for StructId {
    ghost spelled = { struct_data };

    ghost fits = { Fits };

    fn read(_alloc: Global, value: &Value) -> Result<StructId, LineFault> {
        id(value)
    }

    fn write(&self, _alloc: Global) -> Result<Value, AllocError> {
        Ok(Value::from(self.0))
    }
}

// An id, or null.
impl<T: Id> Entry for Option<T> {
    ghost spelled = { option_data (λ x. count_data (T.number_of x)) };

    ghost fits = { Fits };

    fn read(_alloc: Global, value: &Value) -> Result<Option<T>, LineFault> {
        if value.is_null() {
            return Ok(None);
        }
        match count(value) {
            None => Err(LineFault::Form),
            Some(n) => Ok(Some(T::of(n))),
        }
    }

    fn write(&self, _alloc: Global) -> Result<Value, AllocError> {
        match self {
            None => Ok(Value::Null),
            Some(id) => Ok(Value::from(id.number())),
        }
    }
}

// ---- words

/// Whether the value is this word.
pub fn is_word(value: &Value, word: &str) -> bool
    ensures { IsTrue result ↔ (view value.now ≡ word_data word.now) }
{
    value.as_str() == Some(word)
}

impl Entry for String {
    ghost spelled = { λ s. word_data (string_bytes s) };

    ghost fits = { Fits };

    fn read(alloc: Global, value: &Value) -> Result<String, LineFault> {
        match value.as_str() {
            None => Err(LineFault::Form),
            Some(word) => Ok(String::from_str(alloc, word)?),
        }
    }

    fn write(&self, alloc: Global) -> Result<Value, AllocError> {
        Value::try_from_str(alloc, self.as_str())
    }
}

impl Entry for Kind {
    ghost spelled = { kind_data };

    ghost fits = { Fits };

    fn read(_alloc: Global, value: &Value) -> Result<Kind, LineFault> {
        if is_word(value, "i") {
            Ok(Kind::Int)
        } else if is_word(value, "p") {
            Ok(Kind::Ptr)
        } else {
            Err(LineFault::Form)
        }
    }

    fn write(&self, alloc: Global) -> Result<Value, AllocError> {
        match self {
            Kind::Int => Value::try_from_str(alloc, "i"),
            Kind::Ptr => Value::try_from_str(alloc, "p"),
        }
    }
}

impl Entry for Form {
    ghost spelled = { form_data };

    ghost fits = { Fits };

    fn read(_alloc: Global, value: &Value) -> Result<Form, LineFault> {
        if is_word(value, "certificate") {
            Ok(Form::Certificate)
        } else if is_word(value, "chain") {
            Ok(Form::Chain)
        } else {
            Err(LineFault::Form)
        }
    }

    fn write(&self, alloc: Global) -> Result<Value, AllocError> {
        match self {
            Form::Certificate => Value::try_from_str(alloc, "certificate"),
            Form::Chain => Value::try_from_str(alloc, "chain"),
        }
    }
}

impl Entry for Side {
    ghost spelled = { side_data };

    ghost fits = { Fits };

    fn read(_alloc: Global, value: &Value) -> Result<Side, LineFault> {
        match count(value) {
            Some(0) => Ok(Side::Left),
            Some(1) => Ok(Side::Right),
            Some(_) => Err(LineFault::Form),
            None => Err(LineFault::Form),
        }
    }

    fn write(&self, _alloc: Global) -> Result<Value, AllocError> {
        match self {
            Side::Left => Ok(Value::from(0u64)),
            Side::Right => Ok(Value::from(1u64)),
        }
    }
}

// ---- lists

/// The values of an array; None where the value is no array.
pub fn values_of(value: &Value) -> Option<&[Value]>
    ensures { MatchOption result ((ds : List Data) → view value.now ≢ values_data ds)
        (λ vs. view value.now ≡ values_data (map view vs.now)) }
{
    match value {
        Value::Array(values) => Some(values.as_slice()),
        _ => None,
    }
}

impl<T: Entry + Drop> Entry for Items<T> {
    ghost spelled = { list_data T.spelled };

    ghost fits = { All T.fits };

    fn read(alloc: Global, value: &Value) -> Result<Items<T>, LineFault> {
        let Some(values) = values_of(value) else {
            return Err(LineFault::Form);
        };
        let mut items = Vec::with_capacity(alloc, values.len())?;
        for value in values {
            items.push(T::read(alloc, value)?)?;
        }
        Ok(Items::of(items))
    }

    fn write(&self, alloc: Global) -> Result<Value, AllocError> {
        let items = self.as_slice();
        let mut values = Vec::with_capacity(alloc, items.len())?;
        for item in items {
            values.push(item.write(alloc)?)?;
        }
        Ok(Value::Array(values))
    }
}

impl Entry for Args<NodeId> {
    ghost spelled = { list_data node_data };

    ghost fits = { Fits };

    fn read(alloc: Global, value: &Value) -> Result<Args<NodeId>, LineFault> {
        let Some(values) = values_of(value) else {
            return Err(LineFault::Form);
        };
        let mut args = Args::new(alloc);
        for value in values {
            args.push(id(value)?)?;
        }
        Ok(args)
    }

    fn write(&self, alloc: Global) -> Result<Value, AllocError> {
        let nodes = self.as_slice();
        let mut values = Vec::with_capacity(alloc, nodes.len())?;
        for node in nodes {
            values.push(Value::from(node.0))?;
        }
        Ok(Value::Array(values))
    }
}

// ---- entries side by side

/// Two entries.
pub fn two<A: Entry + Drop, B: Entry + Drop>(
    alloc: Global,
    a: &Value,
    b: &Value,
) -> Result<(A, B), LineFault>
    ensures { Reads (λ x. A.spelled x.0 ∷ B.spelled x.1 ∷ []) (λ x. A.fits x.0 × B.fits x.1) (view a.now ∷ view b.now ∷ []) result }
{
    let a = A::read(alloc, a)?;
    let b = B::read(alloc, b)?;
    Ok((a, b))
}

/// Three entries.
pub fn three<A: Entry + Drop, B: Entry + Drop, C: Entry + Drop>(
    alloc: Global,
    a: &Value,
    b: &Value,
    c: &Value,
) -> Result<(A, B, C), LineFault>
    ensures { Reads (λ x. A.spelled x.0 ∷ B.spelled x.1 ∷ C.spelled x.2 ∷ [])
        (λ x. A.fits x.0 × B.fits x.1 × C.fits x.2) (view a.now ∷ view b.now ∷ view c.now ∷ []) result }
{
    let a = A::read(alloc, a)?;
    let b = B::read(alloc, b)?;
    let c = C::read(alloc, c)?;
    Ok((a, b, c))
}

/// Puts an entry after those before it.
pub fn put<T: Entry>(alloc: Global, values: &mut Vec<Value>, entry: &T) -> Result<(), AllocError>
    ensures { OnOk result ((map view values.new.items ≡ map view values.old.items ++ T.spelled entry.now ∷ []) × T.fits entry.now) }
{
    values.push(entry.write(alloc)?)?;
    Ok(())
}

/// An array that begins with a name, so far without entries.
pub fn begin(alloc: Global, name: &str) -> Result<Vec<Value>, AllocError>
    ensures { IfOk result (λ values. map view values.items ≡ word_data name.now ∷ []) }
{
    let mut values = Vec::with_capacity(alloc, 4)?;
    values.push(Value::try_from_str(alloc, name)?)?;
    Ok(values)
}
