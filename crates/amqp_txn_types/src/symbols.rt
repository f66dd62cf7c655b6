//! Lists of symbols, which a contract sees as lists.

ghost use Rattle.std.specs.Prelude.{◌≡◌, ◌↔◌, [], ◌∷◌, ◌++◌, length, slice_get, option_copied, nat_eq, IsTrue, OnOk, OnErr, IfErr};
ghost use Rattle.std.specs.Cmp.Lexicographic.{pointwise, lists_per, nat_list_eq_equiv};
ghost use Rattle.std.specs.Cmp.{partial_equiv_from_equiv};

use crate::items::{Items, NoMemory, TryClone};
use crate::text::Symbol;
use std::alloc::Global;
use std::fmt;
use std::marker::Model;
use thin::Thin;

/// A list of symbols, as capabilities and outcomes are.
///
/// Two are equal where their symbols are, in order. It is one pointer wide, and keeps the
/// allocator that it was made with.
#[derive(Drop)]
pub struct Symbols {
    list: Thin<Items<Symbol>>,
}

const _: () = prove!(size_of::<Symbols>() == 8);

impl Model for Symbols {
    ghost use Rattle.std.specs.Prelude.{List};
    ghost use Rattle.amqp_txn_types.specs.declared.text.Symbol.{Symbol};
    ghost use Rattle.amqp_txn_types.specs.Thinly.{items_of};

    ghost Value = { List Symbol };

    ghost view = { λ s. items_of s.list };
}

impl Symbols {
    /// The empty list. It takes no memory; later growth takes it from `alloc`.
    pub fn new(alloc: Global) -> Self
        ensures { result ≡ [] }
    {
        Symbols {
            list: Thin::none(alloc),
        }
    }

    /// How many symbols there are.
    pub fn len(&self) -> usize
        ensures { result ≡ length self.now }
    {
        self.as_slice().len()
    }

    /// Whether there are none.
    pub fn is_empty(&self) -> bool
        ensures { IsTrue result ↔ (self.now ≡ []) }
    {
        self.as_slice().is_empty()
    }

    /// The symbol at `index`, counted from 0; `None` from the length on.
    pub fn get(&self, index: usize) -> Option<&Symbol>
        ensures { option_copied result ≡ slice_get self.now index }
    {
        self.as_slice().get(index)
    }

    /// The symbols, in order.
    pub fn as_slice(&self) -> &[Symbol]
        ensures { result.now ≡ self.now }
    {
        match self.list.as_ref() {
            None => &[],
            Some(list) => list.as_slice(),
        }
    }

    /// Appends the symbol. Where memory runs out the symbol comes back, and the list is as it was.
    pub fn push(&mut self, item: Symbol) -> Result<(), (Symbol, NoMemory)>
        ensures ok { OnOk result (self.new ≡ self.old ++ item ∷ []) }
        ensures err { IfErr result (λ refused. (refused.0 ≡ item) × (self.new ≡ self.old)) }
    {
        if self.list.is_none() {
            let alloc = self.list.allocator();
            match Thin::some(alloc, Items::new(alloc)) {
                Ok(list) => self.list = list,
                Err(_) => return Err((item, NoMemory)),
            }
        }
        match self.list.as_mut() {
            None => unreachable!(),
            Some(list) => list.push(item),
        }
    }

    /// Appends the symbol. Where memory runs out, the only error, the symbol is let go, and the
    /// list is as it was.
    pub fn append(&mut self, item: Symbol) -> Result<(), NoMemory>
        ensures ok { OnOk result (self.new ≡ self.old ++ item ∷ []) }
        ensures err { OnErr result (self.new ≡ self.old) }
    {
        match self.push(item) {
            Ok(()) => Ok(()),
            Err((_, error)) => Err(error),
        }
    }
}

impl fmt::Debug for Symbols {
    fn fmt<W: fmt::Write>(&self, f: &mut fmt::Formatter<W>) -> fmt::Result {
        f.debug_struct("Symbols")
            .field("items", &self.as_slice())
            .finish()
    }
}

impl TryClone for Symbols {
    fn try_clone(&self) -> Result<Self, NoMemory> {
        let alloc = self.list.allocator();
        match self.list.as_ref() {
            None => Ok(Symbols::new(alloc)),
            Some(list) => Ok(Symbols {
                list: Thin::some(alloc, list.try_clone()?)?,
            }),
        }
    }
}

impl PartialEq for Symbols {
    ghost eq = { pointwise (pointwise nat_eq) };

    ghost laws = { lists_per (partial_equiv_from_equiv nat_list_eq_equiv) };

    fn eq(&self, other: &Self) -> bool {
        self.as_slice() == other.as_slice()
    }
}
