//! An item that arrives: one step of the resource's session.

ghost use Rattle.std.specs.Prelude.{◌≡◌, ◌<◌, ◌∷◌, ◌++◌, [], None, vec_len, vec_capacity};
ghost use Rattle.amqp_resource_session.specs.Session.{StandsFor, stop_of};
ghost use Rattle.amqp_resource_session.specs.StepClauses.{StepSays};
ghost use Rattle.txn_parties.specs.declared.event.Event.TheVariants as events;
ghost use Rattle.txn_parties.specs.BackWire.{state_of};
ghost use Rattle.txn_parties.specs.Turns.{IsShort};
ghost use Rattle.txn_world.specs.Arriving.{StepsFirst, StopsAt, halt_of, may_arrive};
ghost use Rattle.txn_world.specs.Happening.{EventSays};
ghost use Rattle.txn_world_wires.specs.Parties.{Sound};
ghost use Rattle.txn_world.specs.Serving.{Serves, two_parties};
ghost use Rattle.txn_world_wires.specs.Tags.{answers_by};

use amqp_below_ids::IdSource;
use amqp_below_layer::LayerBelow;
use amqp_resource_record::{Entry, Reply, StepError, code_of_fault};
use amqp_resource_session::TxnSession;
use amqp_txn_types::NoMemory;
use txn_parties::{Answered, Asked, Halt, Happened, ReplyState};
use txn_world_wires::{Parties, Tag};

/// The delivery state that stands for a reply.
fn state_of(reply: &Reply) -> ReplyState
    ensures { result ≡ state_of reply.now }
{
    match reply {
        Reply::Declared(id) => ReplyState::Declared(*id),
        Reply::Accepted(_) => ReplyState::Accepted,
        Reply::Rejected { error, text } => ReplyState::Rejected {
            error: *error,
            text: *text,
        },
        _ => ReplyState::Closed,
    }
}

/// Puts back what the item was answered, where it is a declare or a discharge.
fn put_back(answers: &mut Vec<Answered>, tag: &Tag, reply: &Reply)
    requires { vec_len answers.old < vec_capacity answers.old }
    ensures { answers.new.items ≡ answers.old.items ++ answers_by tag.now reply.now }
{
    let state = state_of(reply);
    match tag {
        Tag::Declare { txn, .. } => answers.push_reserved(Answered {
            txn: *txn,
            asked: Asked::Declare,
            state,
        }),
        Tag::Discharge { txn, rollback, .. } => {
            let txn = *txn;
            let asked = if *rollback {
                Asked::Rollback
            } else {
                Asked::Commit
            };
            answers.push_reserved(Answered { txn, asked, state });
        }
        Tag::LinkEnd { .. } | Tag::Frame => {}
    }
}

/// Keeps an entry with its tag, and puts back what it says, each where there is room.
fn keep(
    entries: &mut Vec<Entry>,
    tags: &mut Vec<Tag>,
    answers: &mut Vec<Answered>,
    tag: Tag,
    entry: Entry,
)
    requires entries { vec_len entries.old < vec_capacity entries.old }
    requires tags { vec_len tags.old < vec_capacity tags.old }
    requires answers { vec_len answers.old < vec_capacity answers.old }
    ensures entries { entries.new.items ≡ entries.old.items ++ entry ∷ [] }
    ensures tags { tags.new.items ≡ tags.old.items ++ tag ∷ [] }
    ensures answers { answers.new.items
        ≡ answers.old.items ++ answers_by tag entry.reply }
{
    put_back(answers, &tag, &entry.reply);
    tags.push_reserved(tag);
    entries.push_reserved(entry);
}

/// An id that is declared is one of at most 32 octets, as any is.
fn ids_are_short(reply: &Reply)
    ensures { IsShort reply.now }
{
    match reply {
        Reply::Declared(id) => {
            let _octets = id.as_ref();
        }
        _ => {}
    }
}

/// The first item that waits is a step of the session. Where it is answered, it is recorded, and
/// what it was answered is put back; else it waits on.
fn step_first<S: LayerBelow, G: IdSource>(
    session: &mut TxnSession<S>,
    ids: &mut G,
    parties: &mut Parties,
) -> Result<(), StepError>
    requires runs { stop_of session.old ≡ None }
    requires stands { StandsFor session.old parties.old.entries }
    requires waits { parties.old.waiting ≡ [] → ⊥ }
    ensures { StepsFirst (λ step answer. StepSays S.told S.sure S.review_gives S.check_gives G.next
        G.start session.old session.new ids.old ids.new step answer)
        ((session.new ≡ session.old) × (ids.new ≡ ids.old)) parties.old parties.new result }
{
    if parties.entries.items.reserve(1).is_err()
        || parties.tags.items.reserve(1).is_err()
        || parties.answers.items.reserve(1).is_err()
    {
        return Err(StepError::NoMemory);
    }
    let Some(first) = parties.waiting.first() else {
        unreachable!();
    };
    let (drawn, reply) = session.step(first.step(), ids)?;
    let Some(item) = parties.waiting.pop() else {
        unreachable!();
    };
    let (tag, step) = item.into_parts();
    ids_are_short(&reply);
    keep(
        &mut parties.entries.items,
        &mut parties.tags.items,
        &mut parties.answers.items,
        tag,
        Entry { step, drawn, reply },
    );
    Ok(())
}

/// Why the session stopped, where the error is a fault.
fn halt_of(error: &StepError) -> Option<Halt>
    ensures { result ≡ halt_of error.now }
{
    match error {
        StepError::Fault { error, handed } => Some(Halt {
            code: code_of_fault(error),
            handed: *handed,
        }),
        _ => None,
    }
}

/// The session stopped by the error, if that is a fault; else memory ran out.
fn stop_at(parties: &mut Parties, error: StepError) -> Result<Happened, NoMemory>
    ensures { StopsAt parties.old parties.new (halt_of error) result }
{
    let halt = halt_of(&error);
    drop(error);
    match halt {
        Some(halt) => {
            parties.stop = Some(halt);
            Ok(Happened::Arrived)
        }
        None => Err(NoMemory),
    }
}

/// Whether an item may arrive: one waits, the wires weren't cut, and the session hasn't stopped.
fn may_arrive(parties: &Parties) -> bool
    ensures { result ≡ may_arrive parties.now }
{
    match parties.waiting.first() {
        None => false,
        Some(_) => !parties.cut && parties.stop.is_none(),
    }
}

/// The next item arrives, unless the wires were cut, the session stopped, or none waits.
pub(crate) fn arrive<S: LayerBelow, G: IdSource>(
    session: &mut TxnSession<S>,
    ids: &mut G,
    parties: &mut Parties,
) -> Result<Happened, NoMemory>
    requires sound { Sound S.sure parties.old }
    requires serves { Serves session.old parties.old }
    ensures says { EventSays S.told G.next G.start
        (two_parties S.sure session.old ids.old parties.old)
        (two_parties S.sure session.new ids.new parties.new) events.Arrive result }
    ensures sound { Sound S.sure parties.new }
    ensures serves { Serves session.new parties.new }
{
    if !may_arrive(parties) {
        return Ok(Happened::Skipped);
    }
    match step_first(session, ids, parties) {
        Ok(()) => Ok(Happened::Arrived),
        Err(error) => stop_at(parties, error),
    }
}
