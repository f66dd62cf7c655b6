//! The octets of a message.

ghost use Rattle.std.specs.Prelude.{◌≡◌, [], IfOk, nat_eq};
ghost use Rattle.std.specs.Cmp.Lexicographic.{pointwise, nat_list_eq_equiv};
ghost use Rattle.std.specs.Cmp.{partial_equiv_from_equiv};

use crate::items::{NoMemory, TryClone};
use crate::octets::AsOctets;
use crate::short_octets::ShortOctets;
use bytes::Bytes;
use std::alloc::Global;
use std::marker::Model;
use std::sync::Arc;

/// The octets of a message, or of a part of one, as a transfer brings them.
///
/// Part 2 of the standard, section 2.7.5 (transfer). What is in them is the sender's: sections,
/// by part 3, section 3.2 (message format). A payload never grows. One of at most 30 octets stands
/// in place, so that a short message takes no memory; a copy of a longer one shares its octets.
#[derive(Debug, Drop)]
pub struct Payload {
    octets: Octets,
}

/// Where the octets stand.
#[derive(Debug, Drop)]
enum Octets {
    InPlace(ShortOctets),
    Shared(Arc<Bytes>),
}

impl Model for Payload {
    ghost use Rattle.std.specs.Prelude.{List, ℕ};
    ghost use Rattle.amqp_txn_types.specs.Payloads.{octets_of};

    ghost Value = { List ℕ };

    ghost view = { λ p. octets_of p.octets };
}

impl Payload {
    /// The payload without octets. It takes no memory.
    pub fn new() -> Self
        ensures { result ≡ [] }
    {
        Payload {
            octets: Octets::InPlace(ShortOctets::empty()),
        }
    }

    /// A copy of the octets. The only error is out of memory.
    pub fn from_slice(alloc: Global, octets: &[u8]) -> Result<Self, NoMemory>
        ensures { IfOk result (λ p. p ≡ octets.now) }
    {
        let octets = match ShortOctets::new(octets) {
            Some(short) => Octets::InPlace(short),
            None => Octets::Shared(Arc::new(alloc, Bytes::copy_from_slice(alloc, octets)?)?),
        };
        Ok(Payload { octets })
    }

    /// The octets, in order.
    pub fn as_slice(&self) -> &[u8]
        ensures { result.now ≡ self.now }
    {
        match &self.octets {
            Octets::InPlace(short) => short.as_slice(),
            Octets::Shared(shared) => shared.as_slice(),
        }
    }
}

impl AsOctets for Payload {
    ghost octets = { λ p. p };

    fn as_octets(&self) -> &[u8] {
        self.as_slice()
    }
}

impl TryClone for Payload {
    #[inline(always)]
    fn try_clone(&self) -> Result<Self, NoMemory> {
        let octets = match &self.octets {
            Octets::InPlace(short) => Octets::InPlace(short.copy()),
            Octets::Shared(shared) => Octets::Shared(shared.clone()?),
        };
        Ok(Payload { octets })
    }
}

impl PartialEq for Payload {
    ghost eq = { pointwise nat_eq };

    ghost laws = { partial_equiv_from_equiv nat_list_eq_equiv };

    fn eq(&self, other: &Self) -> bool {
        self.as_slice() == other.as_slice()
    }
}
