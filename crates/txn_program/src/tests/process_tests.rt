//! What a process ends with: by its arguments, over one layer, and without arguments.

use crate::tests::run_over::{A, is_written, source_of, texts_of};
use crate::{Layer, run};
use amqp_below_layer::{LayerBelow, OpenSession};
use amqp_below_recorder::Recorder;
use amqp_below_streams::{SureSink, SureSource};
use amqp_test_values::leak;
use amqp_txn_types::{Items, Text};
use std::alloc::{Alloc, Global};
use std::process::Abort;
use std::sync::Wait;
use std::thread::Threads;
use txn_program_edges::Fault;
use txn_program_runs::end_over;

/// The status that a process over the open layer ends with, on no input, and whether its text is
/// that text.
fn ends_so(
    rt: &(impl Abort + Alloc<A = Global>),
    arguments: Result<Items<Text>, Fault>,
    text: &str,
) -> (u8, bool) {
    let below = Recorder::new(rt.alloc(), OpenSession::new(rt.alloc()));
    let mut source = source_of(rt, "");
    let mut sink = SureSink::new(rt.alloc());
    let status = status_at_end(rt, arguments, below, &mut source, &mut sink);
    leak(source);
    (status, is_written(sink, text))
}

/// The status that a process over a fresh recorder ends with.
fn status_at_end<S: LayerBelow + Send>(
    rt: &(impl Abort + Alloc<A = Global>),
    arguments: Result<Items<Text>, Fault>,
    below: Recorder<S>,
    source: &mut SureSource,
    sink: &mut SureSink,
) -> u8 {
    if !below.is_fresh() {
        panic!(rt; "the recorder is fresh");
    }
    let ran = end_over(rt.alloc(), arguments, Layer::Open, below, source, sink);
    let status = ran.status;
    leak(ran);
    status
}

/// How a process with these arguments ends.
fn serves_so(rt: &(impl Abort + Alloc<A = Global>), words: &[&str], text: &str) -> (u8, bool) {
    ends_so(rt, Ok(texts_of(rt, words)), text)
}

#[test]
fn a_process_serves_the_words_of_its_layer_alone(rt: HostRuntime) {
    assert!(rt; serves_so(&rt, &["run", A], "stop done\nhanded 0\n") == (0, true));
    assert!(rt; serves_so(&rt, &["listen", A], "usage\n") == (2, true));
    assert!(rt; serves_so(&rt, &[], "usage\n") == (2, true));
}

#[test]
fn a_process_without_arguments_tells_why(rt: HostRuntime) {
    assert!(rt; ends_so(&rt, Err(Fault::Arguments), "usage\n") == (2, true));
    assert!(rt; ends_so(&rt, Err(Fault::NoMemory), "") == (6, true));
}

/// The status of the top call, and whether its text is that text.
fn runs_so<R: Threads + Wait + Sync + Abort + Alloc<A = Global>>(
    rt: &R,
    words: &[&str],
    text: &str,
) -> (u8, bool) {
    let arguments = texts_of(rt, words);
    let below = Recorder::new(rt.alloc(), OpenSession::new(rt.alloc()));
    let mut source = source_of(rt, "");
    let mut sink = SureSink::new(rt.alloc());
    let words = arguments.as_slice();
    let ran = run(rt, rt.alloc(), words, below, &mut source, &mut sink);
    let status = ran.status;
    leak(ran);
    leak(arguments);
    leak(source);
    (status, is_written(sink, text))
}

#[test]
fn the_top_call_starts_workers(rt: HostRuntime) {
    let text = "workers 2\nentries 26\ncommits 4\nrollbacks 2\ntaken 8\n";
    assert!(rt; runs_so(&rt, &["threads", "2", "3"], text) == (0, true));
    assert!(rt; runs_so(&rt, &["threads", "9", "1"], "usage\n") == (2, true));
    assert!(rt; runs_so(&rt, &[], "usage\n") == (2, true));
}
