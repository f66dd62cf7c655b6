//! Where octets go.

ghost use Rattle.std.specs.Prelude.{◌≡◌, []};

use crate::source::Failed;
use amqp_txn_types::NoMemory;
use std::alloc::Global;
use std::marker::Model;

/// A sink of octets, which takes only what room was made for.
pub trait ByteSink {
    ghost use Rattle.std.specs.Prelude.{ℕ, ◌≤◌, List, Option, length};
    ghost use Rattle.amqp_below_streams.specs.Streams.{Reserves, Writes};

    /// The octets that were written, where the sink tells them.
    ghost written: { Self → Option (List ℕ) };

    /// How many of its writes failed. The count never falls.
    ghost faults: { Self → ℕ };

    /// For how many octets there is room.
    ghost spare: { Self → ℕ };

    /// Makes room for this many octets.
    fn reserve(&mut self, more: usize) -> Result<(), NoMemory>
        ensures { Reserves (written self.old) (written self.new) (faults self.old) (faults self.new)
            (spare self.old) (spare self.new) more result };

    /// Appends the first octets of the piece, and answers how many: at least one where there is
    /// one.
    ///
    /// A sink that fails appends nothing.
    ///
    /// # Requires
    ///
    /// There is room for the piece, made by `reserve`.
    fn write(&mut self, bytes: &[u8]) -> Result<usize, Failed>
        requires { length bytes.now ≤ spare self.old }
        ensures { Writes (written self.old) (written self.new) (faults self.old) (faults self.new)
            (spare self.old) (spare self.new) bytes.now result };
}

/// Octets in memory: a sink that never fails.
#[derive(Debug, Drop)]
pub struct SureSink {
    octets: Vec<u8>,
    spare: usize,
}

impl Model for SureSink {
    ghost use Rattle.std.specs.Prelude.{◌≤◌, ◌+◌, length, vec_capacity};
    ghost use Rattle.amqp_below_streams.specs.Sinks.{Written};

    ghost Value = { Written };

    ghost view = { λ s. record { octets = s.octets.items; spare = s.spare } };

    ghost invariant = { λ s. length s.octets.items + s.spare ≤ vec_capacity s.octets };
}

impl SureSink {
    /// An empty sink.
    pub fn new(alloc: Global) -> Self
        ensures written { result.octets ≡ [] }
        ensures spare { result.spare ≡ 0 }
    {
        SureSink {
            octets: Vec::new(alloc),
            spare: 0,
        }
    }

    /// What was written.
    pub fn as_slice(&self) -> &[u8]
        ensures { result.now ≡ self.now.octets }
    {
        self.octets.as_slice()
    }
}

impl ByteSink for SureSink {
    ghost use Rattle.std.specs.Prelude.{Some};

    ghost written = { λ s. Some s.octets };

    ghost faults = { λ _. 0 };

    ghost spare = { λ s. s.spare };

    fn reserve(&mut self, more: usize) -> Result<(), NoMemory> {
        if self.spare < more {
            self.octets.reserve(more)?;
            self.spare = more;
        }
        Ok(())
    }

    fn write(&mut self, bytes: &[u8]) -> Result<usize, Failed> {
        match self.octets.extend_from_slice(bytes) {
            Ok(()) => {}
            Err(_) => unreachable!(),
        }
        self.spare -= bytes.len();
        Ok(bytes.len())
    }
}
