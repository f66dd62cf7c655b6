//! What a command reads and writes in memory.

use amqp_below_streams::{SureSink, SureSource};
use amqp_test_values::leak;
use amqp_txn_types::{Binary, Items, Text};
use std::alloc::{Alloc, Global};
use std::process::Abort;

pub(crate) const A: &str = "00000000000000000000000000000001";

/// The words as texts.
pub(crate) fn texts_of(rt: &(impl Abort + Alloc<A = Global>), words: &[&str]) -> Items<Text> {
    let mut texts = Items::new(rt.alloc());
    for word in words {
        let text = Text::from_str(rt.alloc(), word).expect(rt, "memory");
        texts.append(text).expect(rt, "memory");
    }
    texts
}

/// A source of that text.
pub(crate) fn source_of(rt: &(impl Abort + Alloc<A = Global>), lines: &str) -> SureSource {
    let octets = Binary::from_slice(rt.alloc(), lines.as_bytes()).expect(rt, "memory");
    SureSource::new(octets)
}

/// This text was written, and no more.
pub(crate) fn assert_written(rt: &impl Abort, sink: SureSink, text: &str) {
    let written = sink.as_slice() == text.as_bytes();
    leak(sink);
    assert!(rt; written);
}
