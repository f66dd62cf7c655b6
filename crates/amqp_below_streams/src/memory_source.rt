//! A source in memory of which some reads fail.

ghost use Rattle.std.specs.Prelude.{◌≡◌};
ghost use Rattle.amqp_txn_types.specs.Calls.{after_call, is_failing};
ghost use Rattle.amqp_below_streams.specs.Memory.{FailsWhere, SourceInMemory, source_told};
ghost use Rattle.amqp_below_streams.specs.Streams.{Reads};

use crate::source::{ByteSource, Failed, SureSource};
use amqp_txn_types::{Binary, CallNumbers, Calls};
use std::marker::Model;

/// Octets in memory: a source of which the reads of some numbers, counted from 1, fail. A read that
/// fails leaves the octets as they are.
#[derive(Debug, Drop)]
pub struct MemorySource {
    source: SureSource,
    calls: Calls,
}

impl Model for MemorySource {
    ghost use Rattle.amqp_below_streams.specs.Memory.{SourceInMemory};

    ghost Value = { SourceInMemory };

    ghost view = { λ s. record { rest = s.source; calls = s.calls } };
}

impl MemorySource {
    /// A source of these octets, of which the reads of these numbers fail.
    pub fn new(octets: Binary, fails: CallNumbers) -> Self
        ensures rest { result.rest ≡ octets }
        ensures failing { result.calls.failing ≡ fails }
        ensures made { result.calls.made ≡ 0 }
        ensures faults { result.calls.faults ≡ 0 }
    {
        MemorySource {
            source: SureSource::new(octets),
            calls: Calls::new(fails),
        }
    }
}

impl ByteSource for MemorySource {
    ghost rest = { λ s. (source_told s).rest };

    ghost faults = { λ s. (source_told s).faults };

    fn read(&mut self, buf: &mut [u8]) -> Result<usize, Failed>
        ensures told { Reads (source_told self.old).rest (source_told self.new).rest
            (source_told self.old).faults (source_told self.new).faults buf.old buf.new result }
        ensures fails { FailsWhere (is_failing self.old.calls) result }
        ensures calls { self.new.calls ≡ after_call self.old.calls result }
    {
        if self.calls.begin() {
            return self.calls.fail(Failed);
        }
        self.source.read(buf)
    }
}
