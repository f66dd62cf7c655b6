//! Sources and sinks of which calls fail, and those of the standard library.

use crate::tests::run_over::{A, is_written, run_fresh, source_of, texts_of};
use crate::{INPUT_LIMIT, StdSink, StdSource};
use amqp_below_layer::{LayerBelow, OpenSession};
use amqp_below_recorder::Recorder;
use amqp_below_streams::{ByteSink, ByteSource, Failed, MemorySink, MemorySource, SureSink};
use amqp_test_values::leak;
use amqp_txn_types::{Binary, CallNumbers, NoMemory, Text};
use std::alloc::{Alloc, Global};
use std::process::Abort;

/// The number of the call that fails; none at 0.
fn failing(rt: &(impl Abort + Alloc<A = Global>), call: u64) -> CallNumbers {
    let mut fails = CallNumbers::new(rt.alloc());
    if call > 0 {
        fails.append(call).expect(rt, "an Ok");
    }
    fails
}

/// The status of a run over a fresh recorder, and whether steps were driven.
fn status_of<S: LayerBelow + Send, I: ByteSource, O: ByteSink>(
    rt: &(impl Abort + Alloc<A = Global>),
    words: &[Text],
    below: Recorder<S>,
    source: &mut I,
    sink: &mut O,
) -> (u8, bool) {
    let ran = run_fresh(rt, words, below, source, sink);
    let status = ran.status;
    let driven = ran.driven.is_some() || !ran.below.exchanges().is_empty();
    leak(ran);
    (status, driven)
}

/// The status of `run A` over a source and a sink, and whether steps were driven.
fn status_over<I: ByteSource, O: ByteSink>(
    rt: &(impl Abort + Alloc<A = Global>),
    source: &mut I,
    sink: &mut O,
) -> (u8, bool) {
    let texts = texts_of(rt, &["run", A]);
    let below = Recorder::new(rt.alloc(), OpenSession::new(rt.alloc()));
    let status = status_of(rt, texts.as_slice(), below, source, sink);
    leak(texts);
    status
}

/// The status of a run of the octets, of which a read and a write of these numbers fail, and
/// whether this text was written, and nothing driven where the input wasn't read or isn't one.
fn ends_so(
    rt: &(impl Abort + Alloc<A = Global>),
    octets: &[u8],
    read: u64,
    write: u64,
    text: &str,
) -> (u8, bool) {
    let octets = Binary::from_slice(rt.alloc(), octets).expect(rt, "an Ok");
    let mut source = MemorySource::new(octets, failing(rt, read));
    let mut sink = MemorySink::new(rt.alloc(), failing(rt, write));
    let (status, driven) = status_over(rt, &mut source, &mut sink);
    leak(source);
    let written = sink.as_slice() == text.as_bytes();
    leak(sink);
    (status, written && driven == matches!(status, 0 | 5))
}

const DONE: &str = "stop done\nhanded 0\n";

#[test]
fn a_source_that_fails_is_a_read_fault(rt: HostRuntime) {
    assert!(rt; ends_so(&rt, b"", 1, 0, "read fault\n") == (4, true));
    assert!(rt; ends_so(&rt, b"", 2, 0, DONE) == (0, true));
}

#[test]
fn a_later_read_that_fails_is_a_read_fault(rt: HostRuntime) {
    let line = b"attach c 0\n";
    assert!(rt; ends_so(&rt, line, 2, 0, "read fault\n") == (4, true));
    let text = "attached 0\nstop done\nhanded 0\n";
    assert!(rt; ends_so(&rt, line, 3, 0, text) == (0, true));
}

/// How a run of a thousand flows ends, whose octets come in two pieces, where that read fails.
fn flows_end(rt: &(impl Abort + Alloc<A = Global>), read: u64, text: &str) -> (u8, bool) {
    let mut lines = Vec::new(rt.alloc());
    for _ in 0..1000u32 {
        lines.extend_from_slice(b"flow -\n").expect(rt, "an Ok");
    }
    let ended = ends_so(rt, lines.as_slice(), read, 0, text);
    leak(lines);
    ended
}

#[test]
fn each_read_of_a_long_input_may_fail(rt: HostRuntime) {
    for read in 1..4u64 {
        assert!(rt; flows_end(&rt, read, "read fault\n") == (4, true));
    }
    assert!(rt; flows_end(&rt, 4, "read fault\n") == (0, false));
}

#[test]
fn a_sink_that_fails_is_a_write_fault(rt: HostRuntime) {
    assert!(rt; ends_so(&rt, b"", 0, 1, "") == (5, true));
    assert!(rt; ends_so(&rt, b"", 0, 2, DONE) == (0, true));
}

/// A sink in memory that counts how often it was asked for room, and knows for how much at last.
#[derive(Drop)]
struct AskedSink {
    sink: SureSink,
    asks: u32,
    room: usize,
}

impl ByteSink for AskedSink {
    ghost use Rattle.std.specs.Prelude.{Some};

    ghost written = { λ s. Some s.sink.octets };

    ghost faults = { λ _. 0 };

    ghost spare = { λ s. s.sink.spare };

    fn reserve(&mut self, more: usize) -> Result<(), NoMemory> {
        self.asks = self.asks.saturating_add(1);
        self.room = more;
        self.sink.reserve(more)
    }

    fn write(&mut self, bytes: &[u8]) -> Result<usize, Failed> {
        self.sink.write(bytes)
    }
}

/// How often an empty run asks its sink for room, and for how much at last.
fn asked_by_a_run(rt: &(impl Abort + Alloc<A = Global>)) -> (u32, usize) {
    let mut source = source_of(rt, "");
    let mut sink = AskedSink {
        sink: SureSink::new(rt.alloc()),
        asks: 0,
        room: 0,
    };
    let _status = status_over(rt, &mut source, &mut sink);
    leak(source);
    let asked = (sink.asks, sink.room);
    leak(sink);
    asked
}

#[test]
fn a_sink_is_asked_once_for_the_room_of_the_text(rt: HostRuntime) {
    assert!(rt; asked_by_a_run(&rt) == (1, DONE.len()));
}

/// A source that gives one octet a call, and tells none of them.
#[derive(Drop)]
struct OctetSource {
    octets: Binary,
    at: usize,
}

impl ByteSource for OctetSource {
    ghost use Rattle.std.specs.Prelude.{None};

    ghost rest = { λ _. None };

    ghost faults = { λ _. 0 };

    fn read(&mut self, buf: &mut [u8]) -> Result<usize, Failed> {
        let Some(octet) = self.octets.as_slice().get(self.at) else {
            return Ok(0);
        };
        if buf.is_empty() {
            return Ok(0);
        }
        buf[0] = *octet;
        self.at = self.at.saturating_add(1);
        Ok(1)
    }
}

/// Whether an input that comes an octet at a time is run to its end.
fn runs_octet_by_octet(rt: &(impl Abort + Alloc<A = Global>)) -> (u8, bool) {
    let octets = Binary::from_slice(rt.alloc(), b"attach c 0\nlink-end 0\n").expect(rt, "an Ok");
    let mut source = OctetSource { octets, at: 0 };
    let mut sink = SureSink::new(rt.alloc());
    let (status, _driven) = status_over(rt, &mut source, &mut sink);
    leak(source);
    let text = "attached 0\nlink-ended\nstop done\nhanded 0\n";
    (status, is_written(sink, text))
}

#[test]
fn an_input_may_come_an_octet_at_a_time(rt: HostRuntime) {
    assert!(rt; runs_octet_by_octet(&rt) == (0, true));
}

/// A sink in memory that takes seven octets a call at most, and fails once it took so many pieces.
/// It tells none of what was written.
#[derive(Drop)]
struct PieceSink {
    sink: SureSink,
    pieces: u32,
    faults: u64,
}

impl ByteSink for PieceSink {
    ghost use Rattle.std.specs.Prelude.{None};

    ghost written = { λ _. None };

    ghost faults = { λ s. s.faults };

    ghost spare = { λ s. s.sink.spare };

    fn reserve(&mut self, more: usize) -> Result<(), NoMemory> {
        self.sink.reserve(more)
    }

    fn write(&mut self, bytes: &[u8]) -> Result<usize, Failed> {
        if self.pieces == 0 {
            self.faults = self.faults.saturating_add(1);
            return Err(Failed);
        }
        self.pieces -= 1;
        let count = bytes.len().min(7);
        self.sink.write(&bytes[..count])
    }
}

/// How an empty run ends over a sink that fails once it took so many pieces, and whether just these
/// were written.
fn pieces_end(rt: &(impl Abort + Alloc<A = Global>), pieces: u32, text: &str) -> (u8, bool) {
    let mut source = source_of(rt, "");
    let mut sink = PieceSink {
        sink: SureSink::new(rt.alloc()),
        pieces,
        faults: 0,
    };
    let (status, _driven) = status_over(rt, &mut source, &mut sink);
    leak(source);
    let written = sink.sink.as_slice() == text.as_bytes();
    leak(sink);
    (status, written)
}

#[test]
fn a_write_that_fails_leaves_a_front_of_the_text(rt: HostRuntime) {
    assert!(rt; pieces_end(&rt, 0, "") == (5, true));
    assert!(rt; pieces_end(&rt, 1, "stop do") == (5, true));
    assert!(rt; pieces_end(&rt, 2, "stop done\nhand") == (5, true));
    assert!(rt; pieces_end(&rt, 3, DONE) == (0, true));
}

/// The octets of an input of so many line feeds.
fn line_feeds(rt: &(impl Abort + Alloc<A = Global>), count: usize) -> Vec<u8> {
    let mut octets = Vec::new(rt.alloc());
    octets.resize(count, b'\n').expect(rt, "an Ok");
    octets
}

/// How an input of so many line feeds ends.
fn feeds_end(rt: &(impl Abort + Alloc<A = Global>), count: usize, text: &str) -> (u8, bool) {
    let octets = line_feeds(rt, count);
    let ended = ends_so(rt, octets.as_slice(), 0, 0, text);
    leak(octets);
    ended
}

#[test]
fn too_long_an_input_is_told(rt: HostRuntime) {
    assert!(rt; feeds_end(&rt, INPUT_LIMIT + 1, "input too long\n") == (7, true));
    assert!(rt; feeds_end(&rt, INPUT_LIMIT, "not a step: line 1\n") == (3, true));
}

#[test]
fn a_reader_is_a_source(rt: HostRuntime) {
    let mut source = StdSource::new(b"abc".as_slice());
    let mut buffer = [0; 2];
    assert!(rt; source.read(&mut buffer) == Ok(2));
    assert!(rt; buffer.as_slice() == b"ab".as_slice());
    assert!(rt; source.read(&mut buffer) == Ok(1));
    assert!(rt; source.read(&mut buffer) == Ok(0));
}

#[test]
fn a_writer_is_a_sink(rt: HostRuntime) {
    let mut sink = StdSink::new(Vec::new(rt.alloc()));
    sink.reserve(3).expect(&rt, "an Ok");
    let written: Result<usize, Failed> = sink.write(b"abc");
    assert!(rt; written == Ok(3));
    assert!(rt; sink.into_writer().as_slice() == b"abc".as_slice());
}
