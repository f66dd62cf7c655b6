//! Fields in the order of insertion, which a contract sees as a list of pairs.

ghost use Rattle.std.specs.Prelude.{◌≡◌, ◌↔◌, [], length, slice_get, is_some, option_copied, option_map, nat_eq, IsTrue, OnOk, OnErr, IfOk, IfErr};
ghost use Rattle.std.specs.Cmp.Lexicographic.{pointwise};
ghost use Rattle.std.specs.Map.{lookup};
ghost use Rattle.indexmap.specs.IndexMap.{insert_entry, shift_remove_entry};

use crate::binary::Binary;
use crate::items::{NoMemory, TryClone};
use crate::text::{Symbol, Text};
use indexmap::IndexMap;
use std::alloc::Global;
use std::marker::Model;
use thin::Thin;

/// A value of [`Fields`], as far as these messages need values.
///
/// Part 1 of the standard, section 1.6 (primitive types).
#[derive(Debug, Drop, PartialEq)]
pub enum Value {
    /// The null value.
    Null,
    /// A boolean.
    Bool(bool),
    /// An unsigned number of 32 bits.
    Uint(u32),
    /// An unsigned number of 64 bits.
    Ulong(u64),
    /// Octets.
    Binary(Binary),
    /// A symbol.
    Symbol(Symbol),
    /// A text.
    String(Text),
}

impl TryClone for Value {
    fn try_clone(&self) -> Result<Self, NoMemory> {
        match self {
            Value::Null => Ok(Value::Null),
            Value::Bool(b) => Ok(Value::Bool(*b)),
            Value::Uint(n) => Ok(Value::Uint(*n)),
            Value::Ulong(n) => Ok(Value::Ulong(*n)),
            Value::Binary(octets) => Ok(Value::Binary(octets.try_clone()?)),
            Value::Symbol(symbol) => Ok(Value::Symbol(symbol.try_clone()?)),
            Value::String(text) => Ok(Value::String(text.try_clone()?)),
        }
    }
}

/// A map of symbols to values that keeps the order in which its keys were first inserted.
///
/// Part 2 of the standard, section 2.8.13 (fields). A contract sees it as the list of its pairs,
/// in order; no two have the same key. Two maps are equal where these lists are, so the order
/// counts. It is one pointer wide, and keeps the allocator that it was made with.
#[derive(Debug, Drop)]
pub struct Fields {
    map: Thin<IndexMap<Symbol, Value>>,
}

const _: () = prove!(size_of::<Fields>() == 8);

impl Model for Fields {
    ghost use Rattle.std.specs.Prelude.{List};
    ghost use Rattle.amqp_txn_types.specs.declared.text.Symbol.{Symbol};
    ghost use Rattle.amqp_txn_types.specs.declared.fields.Value.{Value as FieldValue};
    ghost use Rattle.amqp_txn_types.specs.Thinly.{entries_of};

    ghost Value = { List (Symbol × FieldValue) };

    ghost view = { λ f. entries_of f.map };
}

impl Fields {
    /// The map without pairs. It takes no memory; later growth takes it from `alloc`.
    pub fn new(alloc: Global) -> Self
        ensures { result ≡ [] }
    {
        Fields {
            map: Thin::none(alloc),
        }
    }

    /// How many pairs there are.
    pub fn len(&self) -> usize
        ensures { result ≡ length self.now }
    {
        match self.map.as_ref() {
            None => 0,
            Some(map) => map.len(),
        }
    }

    /// Whether there are none.
    pub fn is_empty(&self) -> bool
        ensures { IsTrue result ↔ (self.now ≡ []) }
    {
        match self.map.as_ref() {
            None => true,
            Some(map) => map.is_empty(),
        }
    }

    /// The pair at `index`, counted from 0; `None` from the length on.
    pub fn get(&self, index: usize) -> Option<(&Symbol, &Value)>
        ensures { option_map (λ p. (p.0.now, p.1.now)) result ≡ slice_get self.now index }
    {
        match self.map.as_ref() {
            None => None,
            Some(map) => map.get_index(index),
        }
    }

    /// The value under the key; `None` where no pair has it.
    pub fn value_of(&self, key: &Symbol) -> Option<&Value>
        ensures { option_copied result ≡ lookup (pointwise nat_eq key.now) self.now }
    {
        match self.map.as_ref() {
            None => None,
            Some(map) => map.get(key),
        }
    }

    /// Whether a pair has the key.
    pub fn contains_key(&self, key: &Symbol) -> bool
        ensures { result ≡ is_some (lookup (pointwise nat_eq key.now) self.now) }
    {
        self.value_of(key).is_some()
    }

    /// Puts the value under the key. A new key goes last; a key that is there keeps its place and
    /// gets the value. Where memory runs out key and value come back, and the map is as it was.
    pub fn insert(&mut self, key: Symbol, value: Value) -> Result<(), ((Symbol, Value), NoMemory)>
        ensures ok { OnOk result (self.new ≡ insert_entry (pointwise nat_eq) self.old key value) }
        ensures err { IfErr result (λ refused. (refused.0 ≡ (key, value)) × (self.new ≡ self.old)) }
    {
        if self.map.is_none() {
            let alloc = self.map.allocator();
            match Thin::some(alloc, IndexMap::new(alloc)) {
                Ok(map) => self.map = map,
                Err(_) => return Err(((key, value), NoMemory)),
            }
        }
        match self.map.as_mut() {
            None => unreachable!(),
            Some(map) => match map.insert(key, value) {
                Ok(_) => Ok(()),
                Err(failed) => Err((failed.value, NoMemory)),
            },
        }
    }

    /// Puts the value under the key. A new key goes last; a key that is there keeps its place and
    /// gets the value.
    ///
    /// # Errors
    ///
    /// Returns [`NoMemory`] where memory runs out; the map is as it was then.
    pub fn set(&mut self, key: Symbol, value: Value) -> Result<(), NoMemory>
        ensures ok { OnOk result (self.new ≡ insert_entry (pointwise nat_eq) self.old key value) }
        ensures err { OnErr result (self.new ≡ self.old) }
    {
        match self.insert(key, value) {
            Ok(()) => Ok(()),
            Err((_, error)) => Err(error),
        }
    }

    /// Takes the key and its value out, and leaves the order of the others. Without the key nothing
    /// changes.
    pub fn remove(&mut self, key: &Symbol)
        ensures { self.new ≡ shift_remove_entry (pointwise nat_eq key.now) self.old }
    {
        if let Some(map) = self.map.as_mut() {
            let _ = map.shift_remove(key);
        }
    }

    fn insert_copy(&mut self, key: &Symbol, value: &Value) -> Result<(), NoMemory>
        ensures { OnOk result
            (self.new ≡ insert_entry (pointwise nat_eq) self.old key.now value.now) }
    {
        match self.insert(key.try_clone()?, value.try_clone()?) {
            Ok(()) => Ok(()),
            Err((_, error)) => Err(error),
        }
    }
}

impl TryClone for Fields {
    fn try_clone(&self) -> Result<Self, NoMemory> {
        let alloc = self.map.allocator();
        match self.map.as_ref() {
            None => Ok(Fields::new(alloc)),
            Some(map) => copied(alloc, map),
        }
    }
}

fn copied(alloc: Global, map: &IndexMap<Symbol, Value>) -> Result<Fields, NoMemory>
    ensures { IfOk result (λ copy. copy ≡ map.now.entries) }
{
    let mut copy = Fields::new(alloc);
    for index in 0..map.len() {
        let (key, value) = map.get_index(index).unwrap();
        copy.insert_copy(key, value)?;
    }
    Ok(copy)
}

impl PartialEq for Fields {
    ghost use Rattle.std.specs.Prelude.{nat_eq, ◌&&◌};
    ghost use Rattle.std.specs.Cmp.Lexicographic.{pointwise, lists_per, nat_list_eq_equiv};
    ghost use Rattle.std.specs.Cmp.{partial_equiv_from_equiv, and_per, on_per};
    ghost use Rattle.amqp_txn_types.specs.contracts.fields.ValuePartialEq.TheImpl.Laws as value_laws;

    ghost eq = { pointwise (λ p q. pointwise nat_eq p.0 q.0 && ⟦<Value as PartialEq>⟧.eq p.1 q.1) };

    ghost laws = { lists_per (and_per
        (on_per (λ p. p.0) (partial_equiv_from_equiv nat_list_eq_equiv))
        (on_per (λ p. p.1) value_laws.laws-law)) };

    fn eq(&self, other: &Self) -> bool {
        match (self.map.as_ref(), other.map.as_ref()) {
            (None, None) => true,
            (Some(mine), Some(theirs)) => mine.as_slice() == theirs.as_slice(),
            (Some(map), None) | (None, Some(map)) => map.is_empty(),
        }
    }
}
