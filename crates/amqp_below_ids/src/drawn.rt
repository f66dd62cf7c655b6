//! The ids that a declare draws.

ghost use Rattle.std.specs.Prelude.{◌≡◌, ◌≤◌, ◌<◌, ◌-◌, ◌+◌, ◌∷◌, ◌++◌, [], length, slice_get, option_copied, OnOk, OnErr};
ghost use Rattle.amqp_below_ids.specs.Drawn.{DrawnIds};

use amqp_txn_types::{NoMemory, TransactionId, TryClone};
use std::alloc::Global;
use std::marker::Model;

/// The ids that one declare drew, at most 16, with the room that was made for more.
///
/// Two are equal where their ids are, whatever their room.
#[derive(Debug, Drop)]
pub struct Drawn {
    ids: Vec<TransactionId>,
    spare: usize,
}

impl Model for Drawn {
    ghost use Rattle.std.specs.Prelude.{◌+◌, ◌≤◌, ◌≡◌, length, vec_capacity};
    ghost use Rattle.amqp_below_ids.specs.Drawn.{DrawnIds};

    ghost Value = { DrawnIds };

    ghost view = { λ d. record { ids = d.ids.items; spare = d.spare } };

    ghost invariant = { λ d. length d.ids.items + d.spare ≤ vec_capacity d.ids };
}

impl Drawn {
    /// No ids, and no room. It takes no memory.
    pub fn new(alloc: Global) -> Self
        ensures ids { result.ids ≡ [] }
        ensures spare { result.spare ≡ 0 }
    {
        Drawn {
            ids: Vec::new(alloc),
            spare: 0,
        }
    }

    /// How many ids there are.
    pub fn len(&self) -> usize
        ensures { result ≡ length self.now.ids }
    {
        self.ids.len()
    }

    /// The id at a place, from 0.
    pub fn get(&self, index: usize) -> Option<&TransactionId>
        ensures { option_copied result ≡ slice_get self.now.ids index }
    {
        self.ids.get(index)
    }

    /// Makes room for 16 ids in all. The only error is out of memory.
    pub fn make_room(&mut self) -> Result<(), NoMemory>
        ensures ids { self.new.ids ≡ self.old.ids }
        ensures room { OnOk result (16 ≤ length self.new.ids + self.new.spare) }
        ensures err { OnErr result (self.new ≡ self.old) }
    {
        let spare = 16usize.saturating_sub(self.ids.len());
        if self.spare < spare {
            self.ids.reserve(spare)?;
            self.spare = spare;
        }
        Ok(())
    }

    /// Appends an id. It takes one of the room that was made, and no memory.
    ///
    /// # Requires
    ///
    /// There is room, as [`Drawn::make_room`] makes it, and there are fewer than 16 ids.
    pub fn push(&mut self, id: TransactionId)
        requires spare { 1 ≤ self.old.spare }
        requires short { length self.old.ids < 16 }
        ensures ids { self.new.ids ≡ self.old.ids ++ id ∷ [] }
        ensures spare { self.new.spare ≡ self.old.spare - 1 }
    {
        self.ids.push_reserved(id);
        self.spare -= 1;
    }

    /// Gives back the room that is left.
    pub fn trim(&mut self)
        ensures ids { self.new.ids ≡ self.old.ids }
        ensures spare { self.new.spare ≡ 0 }
    {
        self.ids.shrink_to_fit();
        self.spare = 0;
    }
}

impl TryClone for Drawn {
    fn try_clone(&self) -> Result<Self, NoMemory> {
        let alloc = *self.ids.allocator();
        let mut ids = Vec::with_capacity(alloc, self.ids.len() + self.spare)?;
        match ids.extend_from_slice(self.ids.as_slice()) {
            Ok(()) => {}
            Err(_) => unreachable!(),
        }
        Ok(Drawn {
            ids,
            spare: self.spare,
        })
    }
}

impl PartialEq for Drawn {
    ghost use Rattle.std.specs.Prelude.{nat_eq};
    ghost use Rattle.std.specs.Cmp.Lexicographic.{pointwise, lists_per, nat_list_eq_equiv};
    ghost use Rattle.std.specs.Cmp.{partial_equiv_from_equiv, on_per};

    ghost eq = { λ x y. pointwise (pointwise nat_eq) x.ids y.ids };

    ghost laws = { on_per (λ d. d.ids) (lists_per (partial_equiv_from_equiv nat_list_eq_equiv)) };

    fn eq(&self, other: &Self) -> bool {
        self.ids.as_slice() == other.ids.as_slice()
    }
}
