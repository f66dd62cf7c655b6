//! Where octets come from.

ghost use Rattle.std.specs.Prelude.{◌≡◌};

use amqp_txn_types::Binary;
use std::marker::Model;
use thiserror::Error as ThisError;

/// A read or a write failed.
#[derive(Clone, Copy, Debug, PartialEq, Eq, ThisError)]
#[error("the stream failed")]
pub struct Failed;

/// A source of octets.
pub trait ByteSource {
    ghost use Rattle.std.specs.Prelude.{ℕ, List, Option};
    ghost use Rattle.amqp_below_streams.specs.Streams.{Reads};

    /// The octets that are left, where the source tells them.
    ghost rest: { Self → Option (List ℕ) };

    /// How many of its calls failed. The count never falls.
    ghost faults: { Self → ℕ };

    /// Fills the front of the buffer with the next octets, and answers how many.
    ///
    /// 0 for a buffer that isn't empty is the end. A source that fails keeps what is left.
    fn read(&mut self, buf: &mut [u8]) -> Result<usize, Failed>
        ensures { Reads (rest self.old) (rest self.new) (faults self.old) (faults self.new) buf.old
            buf.new result };
}

/// Octets in memory: a source that never fails.
#[derive(Debug, Drop)]
pub struct SureSource {
    octets: Binary,
    at: usize,
}

impl Model for SureSource {
    ghost use Rattle.std.specs.Prelude.{ℕ, ◌≤◌, List, drop, length};

    ghost Value = { List ℕ };

    ghost view = { λ s. drop s.at s.octets };

    ghost invariant = { λ s. s.at ≤ length s.octets };
}

impl SureSource {
    /// A source of these octets.
    pub fn new(octets: Binary) -> Self
        ensures { result ≡ octets }
    {
        SureSource { octets, at: 0 }
    }
}

impl ByteSource for SureSource {
    ghost use Rattle.std.specs.Prelude.{Some};

    ghost rest = { λ s. Some s };

    ghost faults = { λ _. 0 };

    fn read(&mut self, buf: &mut [u8]) -> Result<usize, Failed> {
        let left = &self.octets.as_slice()[self.at..];
        let count = left.len().min(buf.len());
        buf[..count].copy_from_slice(&left[..count]);
        self.at += count;
        Ok(count)
    }
}
