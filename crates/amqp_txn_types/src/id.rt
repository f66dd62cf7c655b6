//! Transaction ids, which a contract sees as lists of at most 32 octets.

ghost use Rattle.std.specs.Prelude.{◌≡◌, ◌<◌, ◌≤◌, ◌∷◌, [], length, OnErr, IfOk, nat_eq, refl, Some};
ghost use Rattle.std.specs.Ordering.{nat_cmp};
ghost use Rattle.std.specs.Cmp.Lexicographic.{pointwise, slice_cmp, nat_list_eq_equiv, nat_list_cmp_total, texts_ties, texts_po};
ghost use Rattle.std.specs.Cmp.{partial_equiv_from_equiv};
ghost use Rattle.std.specs.Cmp.Rules.{hashing};
ghost use Rattle.std.proofs.Common.{rules};

use crate::items::{NoMemory, TryClone};
use std::cmp::Ordering;
use std::hash::{Hash, Hasher};
use std::marker::Model;
use thiserror::Error as ThisError;

/// The octets are more than the 32 that a transaction id may have.
#[derive(Clone, Copy, Debug, PartialEq, Eq, ThisError)]
#[error("a transaction id has at most 32 octets")]
pub struct IdTooLong;

/// The id of a transaction: at most 32 octets, which the resource chooses.
///
/// Part 4 of the standard, section 4.5.4 (transaction id). Equality, order and hash go by the
/// octets: of two ids of which one begins the other the shorter comes first, and else the first
/// octet that differs decides.
#[derive(Clone, Copy, Debug)]
pub struct TransactionId {
    // Zeros past the length.
    octets: [u8; 32],
    len: u32,
}

impl Model for TransactionId {
    ghost use Rattle.std.specs.Prelude.{List, ℕ, length};
    ghost use Rattle.amqp_txn_types.specs.Padded.{view_of, padded, IsPadded};

    ghost Value = { List ℕ };

    ghost view = { λ t. view_of t.octets t.len };

    ghost invariant = { λ t. IsPadded t.octets t.len };

    ghost inverse = { λ id. record { octets = padded id; len = length id } };

    ghost inverse_ok = { λ t h i. record { octets = h.again i; len = h.exact i } };
}

impl TransactionId {
    /// The id of these octets, of which there may be none. `IdTooLong` comes exactly where there
    /// are more than 32.
    pub fn new(octets: &[u8]) -> Result<Self, IdTooLong>
        ensures long { OnErr result (32 < length octets.now) }
        ensures id { IfOk result (λ id. (id ≡ octets.now) × (length octets.now ≤ 32)) }
    {
        let len = octets.len();
        if len > 32 {
            return Err(IdTooLong);
        }
        let mut padded = [0; 32];
        padded[..len].copy_from_slice(octets);
        Ok(TransactionId {
            octets: padded,
            len: len as u32,
        })
    }

    /// The id's octets, at most 32.
    pub fn as_ref(&self) -> &[u8]
        ensures id { result.now ≡ self.now }
        ensures short { length self.now ≤ 32 }
    {
        &self.octets[..self.len as usize]
    }
}

impl TryClone for TransactionId {
    fn try_clone(&self) -> Result<Self, NoMemory> {
        Ok(*self)
    }
}

impl PartialEq for TransactionId {
    ghost eq = { pointwise nat_eq };

    ghost laws = { partial_equiv_from_equiv nat_list_eq_equiv };

    fn eq(&self, other: &Self) -> bool {
        self.len == other.len && self.octets == other.octets
    }
}

impl Eq for TransactionId {
    ghost laws = { nat_list_eq_equiv };
}

impl PartialOrd for TransactionId {
    ghost partial_cmp = { λ x y. Some (slice_cmp nat_cmp x y) };

    ghost laws = { texts_po };

    fn partial_cmp(&self, other: &Self) -> Option<Ordering> {
        Some(self.cmp(other))
    }
}

impl Ord for TransactionId {
    ghost cmp = { slice_cmp nat_cmp };

    ghost total = { nat_list_cmp_total };

    ghost matches_partial_cmp = { λ x y. refl };

    ghost matches_eq = { texts_ties };

    fn cmp(&self, other: &Self) -> Ordering {
        self.as_ref().cmp(other.as_ref())
    }
}

impl Hash for TransactionId {
    // All octets in one write: a hasher takes sixteen at a time.
    ghost hash_input = { λ id. id ∷ [] };

    ghost respects_eq = { Prim.search (hashing, rules) };

    fn hash<H: Hasher>(&self, state: &mut H) {
        state.write(self.as_ref());
    }
}

impl From<[u8; 16]> for TransactionId {
    ghost from_gives = { λ octets id. id ≡ octets };

    fn from(octets: [u8; 16]) -> Self {
        match TransactionId::new(&octets) {
            Ok(id) => id,
            Err(_) => unreachable!(),
        }
    }
}
