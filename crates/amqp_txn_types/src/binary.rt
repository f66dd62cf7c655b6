//! Strings of octets.

ghost use Rattle.std.specs.Prelude.{◌≡◌, ◌++◌, ◌∷◌, [], OnOk, OnErr, IfOk, IfErr, nat_eq};
ghost use Rattle.std.specs.Cmp.Lexicographic.{pointwise, nat_list_eq_equiv};
ghost use Rattle.std.specs.Cmp.{partial_equiv_from_equiv};

use crate::items::{Items, NoMemory, TryClone};
use crate::octets::AsOctets;
use crate::short_octets::ShortOctets;
use std::alloc::Global;
use std::marker::Model;

/// A string of octets. Part 1 of the standard, section 1.6.19 (binary).
///
/// One that `from_slice` makes of at most 30 octets stands in place, so that to make or copy it
/// takes no memory: the tags of deliveries are mostly such ones. `new` and `from_vec` make one in a
/// list.
#[derive(Debug, Drop)]
pub struct Binary {
    octets: Octets,
    alloc: Global,
}

/// Where the octets stand.
#[derive(Debug, Drop)]
enum Octets {
    InPlace(ShortOctets),
    Listed(Items<u8>),
}

impl Model for Binary {
    ghost use Rattle.std.specs.Prelude.{List, ℕ};
    ghost use Rattle.amqp_txn_types.specs.Binaries.{octets_of};

    ghost Value = { List ℕ };

    ghost view = { λ b. octets_of b.octets };
}

impl Binary {
    /// The empty string. It takes no memory; later growth takes it from `alloc`.
    pub fn new(alloc: Global) -> Self
        ensures { result ≡ [] }
    {
        Binary {
            octets: Octets::Listed(Items::new(alloc)),
            alloc,
        }
    }

    /// A copy of the octets. The only error is out of memory.
    pub fn from_slice(alloc: Global, octets: &[u8]) -> Result<Self, NoMemory>
        ensures { IfOk result (λ b. b ≡ octets.now) }
    {
        let octets = match ShortOctets::new(octets) {
            Some(short) => Octets::InPlace(short),
            None => Octets::Listed(Items::from_slice(alloc, octets)?),
        };
        Ok(Binary { octets, alloc })
    }

    /// The string of a vector's octets. It takes no memory.
    pub fn from_vec(octets: Vec<u8>) -> Self
        ensures { result ≡ octets.items }
    {
        let alloc = *octets.allocator();
        Binary {
            octets: Octets::Listed(Items::from_vec(octets)),
            alloc,
        }
    }

    /// The octets, in order.
    pub fn as_slice(&self) -> &[u8]
        ensures { result.now ≡ self.now }
    {
        match &self.octets {
            Octets::InPlace(short) => short.as_slice(),
            Octets::Listed(listed) => listed.as_slice(),
        }
    }

    /// Appends the octet; a string in place moves into a list. Where memory runs out the octet
    /// comes back, and the string is as it was.
    pub fn push(&mut self, octet: u8) -> Result<(), (u8, NoMemory)>
        ensures ok { OnOk result (self.new ≡ self.old ++ octet ∷ []) }
        ensures err { IfErr result (λ refused. (refused.0 ≡ octet) × (self.new ≡ self.old)) }
    {
        match &mut self.octets {
            Octets::Listed(listed) => listed.push(octet),
            Octets::InPlace(short) => {
                let Ok(mut listed) = Items::from_slice(self.alloc, short.as_slice()) else {
                    return Err((octet, NoMemory));
                };
                listed.push(octet)?;
                self.octets = Octets::Listed(listed);
                Ok(())
            }
        }
    }

    /// Appends the octet.
    ///
    /// # Errors
    ///
    /// Returns [`NoMemory`] where memory runs out; the string is as it was then.
    pub fn append(&mut self, octet: u8) -> Result<(), NoMemory>
        ensures ok { OnOk result (self.new ≡ self.old ++ octet ∷ []) }
        ensures err { OnErr result (self.new ≡ self.old) }
    {
        match self.push(octet) {
            Ok(()) => Ok(()),
            Err((_, error)) => Err(error),
        }
    }
}

impl AsOctets for Binary {
    ghost octets = { λ b. b };

    fn as_octets(&self) -> &[u8] {
        self.as_slice()
    }
}

impl TryClone for Binary {
    #[inline(always)]
    fn try_clone(&self) -> Result<Self, NoMemory> {
        let octets = match &self.octets {
            Octets::InPlace(short) => Octets::InPlace(short.copy()),
            Octets::Listed(listed) => Octets::Listed(listed.try_clone()?),
        };
        Ok(Binary {
            octets,
            alloc: self.alloc,
        })
    }
}

impl PartialEq for Binary {
    ghost eq = { pointwise nat_eq };

    ghost laws = { partial_equiv_from_equiv nat_list_eq_equiv };

    fn eq(&self, other: &Self) -> bool {
        self.as_slice() == other.as_slice()
    }
}
