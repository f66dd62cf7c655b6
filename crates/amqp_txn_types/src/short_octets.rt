//! A few octets in place.

ghost use Rattle.std.specs.Prelude.{◌≡◌, ◌<◌, [], length, MatchOption};

use std::marker::Model;

/// At most 30 octets, in place: to make, copy or drop them takes no memory.
#[derive(Debug, Drop)]
pub(crate) struct ShortOctets {
    octets: [u8; 30],
    len: u8,
}

impl Model for ShortOctets {
    ghost use Rattle.std.specs.Prelude.{List, ℕ, ◌≤◌, take};

    ghost Value = { List ℕ };

    ghost view = { λ s. take s.len s.octets };

    ghost invariant = { λ s. s.len ≤ 30 };
}

impl ShortOctets {
    /// No octets.
    pub(crate) fn empty() -> Self
        ensures { result ≡ [] }
    {
        ShortOctets {
            octets: [0; 30],
            len: 0,
        }
    }

    /// The octets in place; `None` where there are more than 30.
    pub(crate) fn new(octets: &[u8]) -> Option<Self>
        ensures { MatchOption result (30 < length octets.now) (λ short. short ≡ octets.now) }
    {
        let len = octets.len();
        if len > 30 {
            return None;
        }
        let mut block = [0; 30];
        block[..len].copy_from_slice(octets);
        Some(ShortOctets {
            octets: block,
            len: len as u8,
        })
    }

    /// A copy, which takes no memory.
    pub(crate) fn copy(&self) -> Self
        ensures { result ≡ self.now }
    {
        ShortOctets {
            octets: self.octets,
            len: self.len,
        }
    }

    /// The octets.
    pub(crate) fn as_slice(&self) -> &[u8]
        ensures { result.now ≡ self.now }
    {
        &self.octets[..self.len as usize]
    }
}
