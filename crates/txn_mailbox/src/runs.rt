//! Runs of a mailbox.

ghost use Rattle.std.specs.Prelude.{◌≡◌, ◌≤◌, ◌<◌, ◌+◌, ◌^◌, ℕ, List, Some, None, length, string_bytes, IfOk};
ghost use Rattle.txn_program_edges.specs.Reading.{source_of};
ghost use Rattle.txn_program_edges.specs.Writing.{EndsWith, Wrote, sink_of};
ghost use Rattle.txn_mailbox.specs.Lists.{mailbox_ids, two_lists_of};
ghost use Rattle.txn_mailbox.specs.Running.{EndsMailbox, IfRead, IfSpelled, IsWithinLimit, RunsMailbox, ServesAndWrites, ServesLists, ServesOver, input_status, input_text, served_status, served_text, spelled_status, spelled_text};

use crate::lists::{TwoLists, two_lists_of};
use crate::texts::counts_string;
use crate::words::mailbox_ids;
use amqp_below_ids::{IdSource, ListIds};
use amqp_below_layer::{LayerBelow, OpenSession, Tells};
use amqp_below_recorder::Recorder;
use amqp_below_streams::{ByteSink, ByteSource};
use amqp_resource_session::TxnSession;
use amqp_txn_types::{Binary, Items, NoMemory, Text};
use std::alloc::Global;
use std::sync::Wait;
use std::thread::Threads;
use txn_gate::OpenGate;
use txn_mailbox_serving::{Served, serve_two};
use txn_program_edges::{
    Fault, Reading, TransactionIds, Unserved, end_at_fault, end_unserved, read_up_to, status,
    write_and_end,
};
use txn_program_lines::SpellError;
use txn_program_runs::{INPUT_LIMIT, status_of_stop};

/// What a run of a mailbox left.
#[derive(Drop)]
pub struct MailboxRan {
    /// The status that the program ends with.
    pub status: u8,
    /// What was served; none where nothing was.
    pub served: Option<Served<Recorder<OpenSession>, ListIds>>,
}

/// Ends a run where nothing was served.
fn end_unserving(status: u8) -> MailboxRan
    ensures { result ≡ record { status = status; served = None } }
{
    MailboxRan {
        status,
        served: None,
    }
}

/// Writes a text, where there was memory for it, and returns the status that the program ends with.
fn write_counts<O: ByteSink>(status: u8, text: Result<String, NoMemory>, output: &mut O) -> u8
    ensures status { EndsWith (O.faults output.old) (O.faults output.new) status result }
    ensures written { (these : List ℕ) → IfOk text (λ text. string_bytes text ≡ these) →
        Wrote (O.written output.old) (O.written output.new) result these }
{
    let Ok(text) = text else {
        return status::NO_MEMORY;
    };
    write_and_end(status, text.as_str().as_bytes(), output)
}

/// Ends a run that served: writes its numbers, where there was memory for them, with the status of
/// its stop.
fn end_served<O: ByteSink>(
    alloc: Global,
    served: Served<Recorder<OpenSession>, ListIds>,
    output: &mut O,
) -> MailboxRan
    ensures { ServesAndWrites (sink_of O.written O.faults O.spare output.old)
        (sink_of O.written O.faults O.spare output.new) served_status (λ s. s ≡ served)
        (served_text ⟦<Recorder<OpenSession> as Tells>⟧.told) result }
{
    let text = counts_string(
        alloc,
        served.entries.len(),
        served.marks.as_slice(),
        served.session.below().exchanges().len(),
        &served.stop,
    );
    let stopped = status_of_stop(&served.stop);
    let status = write_counts(stopped, text, output);
    MailboxRan {
        status,
        served: Some(served),
    }
}

/// Serves two lists over a new recorder, of which declares draw these ids.
fn run_lists<R: Threads + Wait + Sync, O: ByteSink>(
    rt: &R,
    alloc: Global,
    ids: TransactionIds,
    lists: TwoLists,
    output: &mut O,
) -> MailboxRan
    requires some { 0 < length ids }
    requires few { length lists.first + length lists.second < 2 ^ 32 }
    ensures { ServesAndWrites (sink_of O.written O.faults O.spare output.old)
        (sink_of O.written O.faults O.spare output.new) served_status
        (ServesLists ⟦<Recorder<OpenSession> as Tells>⟧.told
        ⟦<Recorder<OpenSession> as LayerBelow>⟧.sure ⟦<ListIds as IdSource>⟧.next
        ⟦<ListIds as IdSource>⟧.start ids lists)
        (served_text ⟦<Recorder<OpenSession> as Tells>⟧.told) result }
{
    match ListIds::new(alloc, ids.as_slice()) {
        Ok(source) => {
            drop(ids);
            run_drawing(rt, alloc, source, lists, output)
        }
        Err(_) => {
            drop(ids);
            drop(lists);
            end_unserving(status::NO_MEMORY)
        }
    }
}

/// Serves two lists over a new recorder, of which declares draw from this source.
fn run_drawing<R: Threads + Wait + Sync, O: ByteSink>(
    rt: &R,
    alloc: Global,
    source: ListIds,
    lists: TwoLists,
    output: &mut O,
) -> MailboxRan
    requires { length lists.first + length lists.second < 2 ^ 32 }
    ensures { ServesAndWrites (sink_of O.written O.faults O.spare output.old)
        (sink_of O.written O.faults O.spare output.new) served_status
        (ServesOver ⟦<Recorder<OpenSession> as Tells>⟧.told
        ⟦<Recorder<OpenSession> as LayerBelow>⟧.sure ⟦<ListIds as IdSource>⟧.next
        ⟦<ListIds as IdSource>⟧.start source lists)
        (served_text ⟦<Recorder<OpenSession> as Tells>⟧.told) result }
{
    let below = Recorder::new(alloc, OpenSession::new(alloc));
    let session = TxnSession::new(alloc, below);
    let first = &lists.first;
    let second = &lists.second;
    match serve_two(rt, alloc, session, source, first, second, &OpenGate) {
        Ok(served) => {
            drop(lists);
            end_served(alloc, served, output)
        }
        Err(back) => {
            drop(lists);
            drop(back);
            end_unserving(status::NO_MEMORY)
        }
    }
}

/// Serves the two lists that the octets spell.
fn run_octets<R: Threads + Wait + Sync, O: ByteSink>(
    rt: &R,
    alloc: Global,
    ids: TransactionIds,
    octets: Binary,
    output: &mut O,
) -> MailboxRan
    requires some { 0 < length ids }
    requires few { length octets ≤ 1048576 }
    ensures { ServesAndWrites (sink_of O.written O.faults O.spare output.old)
        (sink_of O.written O.faults O.spare output.new) (spelled_status (two_lists_of octets))
        (λ served. IfSpelled (two_lists_of octets)
        (λ lists. ServesLists ⟦<Recorder<OpenSession> as Tells>⟧.told
        ⟦<Recorder<OpenSession> as LayerBelow>⟧.sure ⟦<ListIds as IdSource>⟧.next
        ⟦<ListIds as IdSource>⟧.start ids lists served))
        (spelled_text ⟦<Recorder<OpenSession> as Tells>⟧.told (two_lists_of octets)) result }
{
    match two_lists_of(alloc, octets.as_slice()) {
        Ok(lists) => {
            drop(octets);
            run_lists(rt, alloc, ids, lists, output)
        }
        Err(SpellError::Line(number)) => {
            drop(octets);
            drop(ids);
            end_unserving(end_unserved(alloc, Unserved::Line(number), output))
        }
        Err(SpellError::NoMemory) => {
            drop(octets);
            drop(ids);
            end_unserving(status::NO_MEMORY)
        }
    }
}

/// Serves the two lists of what was read of the input.
fn run_reading<R: Threads + Wait + Sync, O: ByteSink>(
    rt: &R,
    alloc: Global,
    ids: TransactionIds,
    reading: Reading,
    output: &mut O,
) -> MailboxRan
    requires some { 0 < length ids }
    requires within { IsWithinLimit reading }
    ensures { ServesAndWrites (sink_of O.written O.faults O.spare output.old)
        (sink_of O.written O.faults O.spare output.new) (input_status reading)
        (λ served. IfRead reading
        (λ lists. ServesLists ⟦<Recorder<OpenSession> as Tells>⟧.told
        ⟦<Recorder<OpenSession> as LayerBelow>⟧.sure ⟦<ListIds as IdSource>⟧.next
        ⟦<ListIds as IdSource>⟧.start ids lists served))
        (input_text ⟦<Recorder<OpenSession> as Tells>⟧.told reading) result }
{
    match reading {
        Reading::Fault => {
            drop(ids);
            end_unserving(end_unserved(alloc, Unserved::ReadFault, output))
        }
        Reading::TooLong => {
            drop(ids);
            end_unserving(end_unserved(alloc, Unserved::TooLong, output))
        }
        Reading::Whole(octets) => run_octets(rt, alloc, ids, octets, output),
    }
}

/// Serves the two lists of the input, of which declares draw these ids.
fn run_input<R: Threads + Wait + Sync, I: ByteSource, O: ByteSink>(
    rt: &R,
    alloc: Global,
    ids: TransactionIds,
    input: &mut I,
    output: &mut O,
) -> MailboxRan
    requires { 0 < length ids }
    ensures { RunsMailbox ⟦<Recorder<OpenSession> as Tells>⟧.told
        (ServesLists ⟦<Recorder<OpenSession> as Tells>⟧.told
        ⟦<Recorder<OpenSession> as LayerBelow>⟧.sure ⟦<ListIds as IdSource>⟧.next
        ⟦<ListIds as IdSource>⟧.start) (Some ids)
        (source_of I.rest I.faults input.old) (source_of I.rest I.faults input.new)
        (sink_of O.written O.faults O.spare output.old)
        (sink_of O.written O.faults O.spare output.new) result }
{
    match read_up_to(alloc, input, INPUT_LIMIT) {
        Ok(reading) => run_reading(rt, alloc, ids, reading, output),
        Err(_) => {
            drop(ids);
            end_unserving(status::NO_MEMORY)
        }
    }
}

/// Serves the two lists that the input spells over a new recorder of a layer that takes everything,
/// with the ids of `mailbox ID ID ..`, and writes the numbers of what was served. The input has at
/// most 1,048,576 octets. It may wait for the two threads that it starts.
pub fn run_mailbox<R: Threads + Wait + Sync, I: ByteSource, O: ByteSink>(
    rt: &R,
    alloc: Global,
    words: &[Text],
    input: &mut I,
    output: &mut O,
) -> MailboxRan
    ensures { RunsMailbox ⟦<Recorder<OpenSession> as Tells>⟧.told
        (ServesLists ⟦<Recorder<OpenSession> as Tells>⟧.told
        ⟦<Recorder<OpenSession> as LayerBelow>⟧.sure ⟦<ListIds as IdSource>⟧.next
        ⟦<ListIds as IdSource>⟧.start) (mailbox_ids words.now)
        (source_of I.rest I.faults input.old) (source_of I.rest I.faults input.new)
        (sink_of O.written O.faults O.spare output.old)
        (sink_of O.written O.faults O.spare output.new) result }
{
    match mailbox_ids(alloc, words) {
        Ok(Some(ids)) => run_input(rt, alloc, ids, input, output),
        Ok(None) => end_unserving(end_unserved(alloc, Unserved::Usage, output)),
        Err(_) => end_unserving(status::NO_MEMORY),
    }
}

/// Does what the arguments of a process ask for, as by [`run_mailbox`], and returns the run: the
/// process ends with its status. Where there are no arguments, the text of why is written.
pub fn end_mailbox<R: Threads + Wait + Sync, I: ByteSource, O: ByteSink>(
    rt: &R,
    alloc: Global,
    arguments: Result<Items<Text>, Fault>,
    input: &mut I,
    output: &mut O,
) -> MailboxRan
    ensures { EndsMailbox ⟦<Recorder<OpenSession> as Tells>⟧.told
        (ServesLists ⟦<Recorder<OpenSession> as Tells>⟧.told
        ⟦<Recorder<OpenSession> as LayerBelow>⟧.sure ⟦<ListIds as IdSource>⟧.next
        ⟦<ListIds as IdSource>⟧.start) arguments
        (source_of I.rest I.faults input.old) (source_of I.rest I.faults input.new)
        (sink_of O.written O.faults O.spare output.old)
        (sink_of O.written O.faults O.spare output.new) result }
{
    match arguments {
        Ok(arguments) => {
            let ran = run_mailbox(rt, alloc, arguments.as_slice(), input, output);
            drop(arguments);
            ran
        }
        Err(fault) => end_unserving(end_at_fault(fault, output)),
    }
}
