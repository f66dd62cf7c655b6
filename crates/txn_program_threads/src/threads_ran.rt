//! What came of workers on one session.

use amqp_below_recorder::Recorder;
use amqp_resource_record::{Entries, StopCode};
use amqp_resource_shared::{CloseWhy, StoppedAt};

/// What came of workers on one session.
#[derive(Drop)]
pub struct ThreadsRan<S> {
    /// 0 where each worker made all of its rounds; 8 where the layer below ran out of memory for
    /// what stopped the session or, without a stop, for the first attach that it refused; 6 where
    /// memory ran out here; else 1.
    pub status: u8,
    /// The entries of the session, in the order in which they were made.
    pub history: Entries,
    /// The step at which the session stopped, where it did.
    pub stopped: Option<StoppedAt>,
    /// How many entries there are; this and the other numbers are 0 with status 6.
    pub entries: usize,
    /// How many discharges were accepted that commit.
    pub commits: u32,
    /// How many discharges were accepted that roll back.
    pub rollbacks: u32,
    /// How many frames the layer below took.
    pub taken: usize,
    /// The code of the stop, where the session stopped.
    pub stop: Option<StopCode>,
    /// Why the receipts of the workers aren't the history; none with status 6.
    pub why: Option<CloseWhy>,
    /// How many replies are neither `Attached`, `Declared`, `Frames` nor `Accepted`.
    pub refused: usize,
    /// The recorder that was handed in, with what it took.
    pub below: Recorder<S>,
}
