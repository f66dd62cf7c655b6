//! A run over a recorder of any layer, and what it answers.

use crate::{Ran, run_commands};
use amqp_below_layer::LayerBelow;
use amqp_below_recorder::Recorder;
use amqp_below_streams::{ByteSink, ByteSource, SureSink, SureSource};
use amqp_test_values::leak;
use amqp_txn_types::{Binary, Items, Text};
use std::alloc::{Alloc, Global};
use std::process::Abort;

pub(crate) const A: &str = "00000000000000000000000000000001";

/// The words as texts.
pub(crate) fn texts_of(rt: &(impl Abort + Alloc<A = Global>), words: &[&str]) -> Items<Text> {
    let mut texts = Items::new(rt.alloc());
    for word in words {
        let text = Text::from_str(rt.alloc(), word).expect(rt, "an Ok");
        texts.append(text).expect(rt, "an Ok");
    }
    texts
}

/// A source of that text.
pub(crate) fn source_of(rt: &(impl Abort + Alloc<A = Global>), lines: &str) -> SureSource {
    let octets = Binary::from_slice(rt.alloc(), lines.as_bytes()).expect(rt, "an Ok");
    SureSource::new(octets)
}

/// Whether this text was written, and no more.
pub(crate) fn is_written(sink: SureSink, text: &str) -> bool {
    let written = sink.as_slice() == text.as_bytes();
    leak(sink);
    written
}

/// Runs the program over a fresh recorder.
pub(crate) fn run_fresh<S: LayerBelow + Send, I: ByteSource, O: ByteSink>(
    rt: &(impl Abort + Alloc<A = Global>),
    words: &[Text],
    below: Recorder<S>,
    source: &mut I,
    sink: &mut O,
) -> Ran<S> {
    if !below.is_fresh() {
        panic!(rt; "the recorder is fresh");
    }
    run_commands(rt.alloc(), words, below, source, sink)
}

/// Runs the program over a recorder of this layer.
pub(crate) fn run_over<S: LayerBelow + Send>(
    rt: &(impl Abort + Alloc<A = Global>),
    below: S,
    words: &[&str],
    lines: &str,
    sink: &mut SureSink,
) -> Ran<S> {
    let recorder = Recorder::new(rt.alloc(), below);
    let texts = texts_of(rt, words);
    let mut source = source_of(rt, lines);
    let ran = run_fresh(rt, texts.as_slice(), recorder, &mut source, sink);
    leak(texts);
    leak(source);
    ran
}

/// The status of a run over a recorder of this layer.
fn status_over<S: LayerBelow + Send>(
    rt: &(impl Abort + Alloc<A = Global>),
    below: S,
    words: &[&str],
    lines: &str,
    sink: &mut SureSink,
) -> u8 {
    let ran = run_over(rt, below, words, lines, sink);
    let ended = ran.status;
    leak(ran);
    ended
}

/// Runs the program over a recorder of this layer, and compares its status and its text.
pub(crate) fn assert_over<S: LayerBelow + Send>(
    rt: &(impl Abort + Alloc<A = Global>),
    below: S,
    words: &[&str],
    lines: &str,
    ends: (u8, &str),
) {
    let (status, text) = ends;
    let mut sink = SureSink::new(rt.alloc());
    let ended = status_over(rt, below, words, lines, &mut sink);
    let written = is_written(sink, text);
    assert!(rt; ended == status);
    assert!(rt; written);
}
