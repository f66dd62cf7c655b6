//! A sink in memory of which some writes fail.

ghost use Rattle.std.specs.Prelude.{◌≡◌, ◌≤◌, [], length};
ghost use Rattle.amqp_txn_types.specs.Calls.{after_call, is_failing};
ghost use Rattle.amqp_below_streams.specs.Memory.{FailsWhere, sink_told};
ghost use Rattle.amqp_below_streams.specs.Streams.{Reserves, Writes};

use crate::sink::{ByteSink, SureSink};
use crate::source::Failed;
use amqp_txn_types::{CallNumbers, Calls, NoMemory};
use std::alloc::Global;
use std::marker::Model;

/// Octets in memory: a sink of which the writes of some numbers, counted from 1, fail. A write that
/// fails appends nothing.
#[derive(Debug, Drop)]
pub struct MemorySink {
    sink: SureSink,
    calls: Calls,
}

impl Model for MemorySink {
    ghost use Rattle.amqp_below_streams.specs.Memory.{SinkInMemory};

    ghost Value = { SinkInMemory };

    ghost view = { λ s. record {
      octets = s.sink.octets;
      spare = s.sink.spare;
      calls = s.calls;
    } };
}

impl MemorySink {
    /// An empty sink, of which the writes of these numbers fail.
    pub fn new(alloc: Global, fails: CallNumbers) -> Self
        ensures written { result.octets ≡ [] }
        ensures spare { result.spare ≡ 0 }
        ensures failing { result.calls.failing ≡ fails }
        ensures made { result.calls.made ≡ 0 }
        ensures faults { result.calls.faults ≡ 0 }
    {
        MemorySink {
            sink: SureSink::new(alloc),
            calls: Calls::new(fails),
        }
    }

    /// What was written.
    pub fn as_slice(&self) -> &[u8]
        ensures { result.now ≡ self.now.octets }
    {
        self.sink.as_slice()
    }
}

impl ByteSink for MemorySink {
    ghost written = { λ s. (sink_told s).written };

    ghost faults = { λ s. (sink_told s).faults };

    ghost spare = { λ s. (sink_told s).spare };

    fn reserve(&mut self, more: usize) -> Result<(), NoMemory>
        ensures told { Reserves (sink_told self.old).written (sink_told self.new).written
            (sink_told self.old).faults (sink_told self.new).faults
            (sink_told self.old).spare (sink_told self.new).spare more result }
        ensures calls { self.new.calls ≡ self.old.calls }
    {
        self.sink.reserve(more)
    }

    fn write(&mut self, bytes: &[u8]) -> Result<usize, Failed>
        requires { length bytes.now ≤ (sink_told self.old).spare }
        ensures told { Writes (sink_told self.old).written (sink_told self.new).written
            (sink_told self.old).faults (sink_told self.new).faults
            (sink_told self.old).spare (sink_told self.new).spare bytes.now result }
        ensures fails { FailsWhere (is_failing self.old.calls) result }
        ensures calls { self.new.calls ≡ after_call self.old.calls result }
    {
        if self.calls.begin() {
            return self.calls.fail(Failed);
        }
        self.sink.write(bytes)
    }
}
