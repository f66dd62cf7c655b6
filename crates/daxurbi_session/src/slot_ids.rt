//! Where the ids of a slot come from.

ghost use Rattle.std.specs.Prelude.{◌≡◌, ◌≤◌, ℕ, length, IfOk};
ghost use Rattle.rand_chacha.specs.ChaCha.{of_seed};
ghost use Rattle.amqp_below_ids.specs.Listed.{listed};
ghost use Rattle.daxurbi_session.specs.OctetIds.{ids_in};
ghost use Rattle.daxurbi_session.specs.SlotIds.{ids_of, uuids_of};

use amqp_below_ids::{IdSource, ListIds};
use amqp_below_uuid_ids::UuidIds;
use amqp_txn_types::{NoMemory, TransactionId};
use rand_chacha::ChaCha20Rng;
use rand_core::SeedableRng;
use std::alloc::Global;

/// A source of ids: version 4 uuids of a generator, or a list.
#[derive(Drop)]
pub enum SlotIds {
    /// The version 4 uuids of what ChaCha with 20 rounds gives.
    Seeded(UuidIds<ChaCha20Rng>),
    /// The ids of a list, the last one again and again.
    Listed(ListIds),
}

impl SlotIds {
    /// The ids of a seed, which is to be taken from a source of random numbers and used once.
    pub fn from_seed(seed: [u8; 32]) -> SlotIds
        ensures { (n : ℕ) → ids_of result n ≡ uuids_of (of_seed seed) n }
    {
        SlotIds::Seeded(UuidIds::new(ChaCha20Rng::from_seed(seed)))
    }

    /// The ids of a list, of 16 octets each; octets after the last whole one are left. The only
    /// error is out of memory.
    ///
    /// # Requires
    ///
    /// There is an id.
    pub fn from_octets(alloc: Global, octets: &[u8]) -> Result<SlotIds, NoMemory>
        requires { 16 ≤ length octets.now }
        ensures { IfOk result (λ source. (n : ℕ) → ids_of source n ≡ listed (ids_in octets.now) n) }
    {
        let ids = ids_in(alloc, octets)?;
        Ok(SlotIds::Listed(ListIds::new(alloc, ids.as_slice())?))
    }
}

/// The ids of octets, 16 each.
fn ids_in(alloc: Global, octets: &[u8]) -> Result<Vec<TransactionId>, NoMemory>
    ensures { IfOk result (λ ids. ids.items ≡ ids_in octets.now) }
{
    let mut ids = Vec::new(alloc);
    let (chunks, _rest) = octets.as_chunks::<16>();
    for chunk in chunks {
        ids.push(TransactionId::from(*chunk))?;
    }
    Ok(ids)
}

impl IdSource for SlotIds {
    ghost use Rattle.daxurbi_session.specs.SlotIds.{ids_of, start_of};

    ghost next = { ids_of };

    ghost start = { start_of };

    fn draw(&mut self) -> TransactionId {
        match self {
            SlotIds::Seeded(ids) => ids.draw(),
            SlotIds::Listed(ids) => ids.draw(),
        }
    }
}
