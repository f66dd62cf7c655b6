//! What is counted of a history, and the status that it ends with.

ghost use Rattle.std.specs.Prelude.{◌≡◌, option_copied};
ghost use Rattle.std.specs.List.{count_by};
ghost use Rattle.txn_program_threads.specs.Statuses.{first_refused, is_refused_attach, is_refused_reply, is_starved_attach, starved_by, threads_status};

use amqp_below_layer::SessionInnerError;
use amqp_resource_record::{Entry, Reply, StopCode};
use amqp_resource_shared::CloseWhy;
use txn_program_edges::status;

/// How many replies are neither `Attached`, `Declared`, `Frames` nor `Accepted`.
pub(crate) fn count_refused(entries: &[Entry]) -> usize
    ensures { result ≡ count_by (λ entry. is_refused_reply entry.reply) entries.now }
{
    let mut count = 0;
    for entry in entries {
        if is_refused_reply(&entry.reply) {
            count += 1;
        }
    }
    count
}

#[tactic(auto, unfolding(crate::specs::Statuses::is_refused_reply))]
fn is_refused_reply(reply: &Reply) -> bool
    ensures { result ≡ is_refused_reply reply.now }
{
    match reply {
        Reply::Frames(_) | Reply::Attached { .. } | Reply::Declared(_) | Reply::Accepted(_) =>
            false,
        _ => true,
    }
}

/// The first entry whose attach was refused.
fn first_refused(entries: &[Entry]) -> Option<&Entry>
    ensures { option_copied result ≡ first_refused entries.now }
{
    entries.iter().find(|entry| is_refused_attach(&entry.reply))
}

fn is_refused_attach(reply: &Reply) -> bool
    ensures { result ≡ is_refused_attach reply.now }
{
    match reply {
        Reply::AttachRefused(_) => true,
        _ => false,
    }
}

/// Whether the reply is to an attach for which the layer below ran out of memory.
fn is_starved_attach(reply: &Reply) -> bool
    ensures { result ≡ is_starved_attach reply.now }
{
    match reply {
        Reply::AttachRefused(SessionInnerError::NoMemory) => true,
        _ => false,
    }
}

/// Whether the layer below ran out of memory for what stopped the session or, without a stop, for
/// the first attach that it refused.
fn starved_by(stop: Option<StopCode>, entries: &[Entry]) -> bool
    ensures { result ≡ starved_by stop entries.now }
{
    match stop {
        Some(StopCode::BelowNoMemory) => true,
        Some(_) => false,
        None => match first_refused(entries) {
            Some(entry) => is_starved_attach(&entry.reply),
            None => false,
        },
    }
}

/// The status of a history, with what the workers made of it.
pub(crate) fn status_of(
    stop: Option<StopCode>,
    why: &Option<CloseWhy>,
    refused: usize,
    entries: &[Entry],
) -> u8
    ensures { result ≡ threads_status stop why.now refused entries.now }
{
    if stop.is_none() && why.is_none() && refused == 0 {
        return status::EVERY_STEP;
    }
    if starved_by(stop, entries) {
        return status::NO_MEMORY_BELOW;
    }
    status::STOPPED
}
