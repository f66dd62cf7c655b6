//! How two parties begin: the attaches of the control links.

ghost use Rattle.std.specs.Prelude.{◌≡◌, ◌<◌, ◌≤◌, [], None, length, IfOk, IfErr};
ghost use Rattle.amqp_resource_session.specs.Session.{StandsFor, below_of, stop_of};
ghost use Rattle.amqp_resource_session.specs.StepClauses.{StepSays};
ghost use Rattle.txn_world.specs.Beginning.{RefusedOnly, Untaken, attach_step, control_name};
ghost use Rattle.txn_world.specs.Attaching.{AttachesNext, Attaching, UnlessRefused};

use crate::errors::WorldError;
use amqp_below_ids::IdSource;
use amqp_below_layer::{LayerBelow, SessionInnerError};
use amqp_resource_record::{Entries, Entry, Reply, Step};
use amqp_resource_session::TxnSession;
use amqp_txn_types::{
    Attach, Coordinator, Frame, Handle, NoMemory, Role, Source, TargetArchetype, Text,
};
use std::alloc::Global;

/// The name of the control link with this number.
fn control_name(number: u32) -> &'static str
    requires { number < 8 }
    ensures { result.now ≡ control_name number }
{
    match number {
        0 => "c0",
        1 => "c1",
        2 => "c2",
        3 => "c3",
        4 => "c4",
        5 => "c5",
        6 => "c6",
        _ => "c7",
    }
}

/// The attach of the control link with this number. Out of memory is the only error.
fn attach_step(alloc: Global, number: u32) -> Result<Step, NoMemory>
    requires { number < 8 }
    ensures { IfOk result (λ step. step ≡ attach_step number) }
{
    let name = Text::from_str(alloc, control_name(number))?;
    let target = TargetArchetype::Coordinator(Coordinator { capabilities: None });
    let attach = Attach::new(name, Handle(number), Role::Sender)
        .source(Source::default())
        .target(target)
        .initial_delivery_count(0);
    Ok(Step::Frame(Frame::Attach(attach)))
}

/// The reply to an attach, unless that was refused.
fn unless_refused(reply: Reply) -> Result<Reply, SessionInnerError>
    ensures { UnlessRefused reply result }
{
    match reply {
        Reply::AttachRefused(error) => Err(error),
        reply => Ok(reply),
    }
}

/// One attach: a step of the session, which is recorded unless it was refused.
fn attach_link<S: LayerBelow, G: IdSource>(
    alloc: Global,
    session: &mut TxnSession<S>,
    ids: &mut G,
    entries: &mut Entries,
    number: u32,
) -> Result<(), WorldError>
    requires few { number < 8 }
    requires runs { stop_of session.old ≡ None }
    requires stands { StandsFor session.old entries.old }
    requires count { length entries.old ≤ 8 }
    ensures { AttachesNext (λ answer. StepSays S.told S.sure S.review_gives S.check_gives G.next
        G.start session.old session.new ids.old ids.new (attach_step number) answer)
        ((session.new ≡ session.old) × (ids.new ≡ ids.old)) entries.old entries.new number result }
{
    let Ok(step) = attach_step(alloc, number) else {
        return Err(WorldError::NoMemory);
    };
    if entries.items.reserve(1).is_err() {
        drop(step);
        return Err(WorldError::NoMemory);
    }
    match session.step(&step, ids) {
        Ok((drawn, reply)) => match unless_refused(reply) {
            Ok(reply) => {
                entries.items.push_reserved(Entry { step, drawn, reply });
                Ok(())
            }
            Err(error) => {
                drop(step);
                drop(drawn);
                Err(WorldError::AttachRefused(error))
            }
        },
        // Of the errors of a step an attach has this one alone.
        Err(error) => {
            drop(step);
            drop(error);
            Err(WorldError::NoMemory)
        }
    }
}

/// The attaches of so many control links, on a session that has made no step.
pub(crate) fn attach_links<S: LayerBelow, G: IdSource>(
    alloc: Global,
    session: &mut TxnSession<S>,
    ids: &mut G,
    links: u32,
) -> Result<Entries, WorldError>
    requires few { links ≤ 8 }
    requires runs { stop_of session.old ≡ None }
    requires stands { StandsFor session.old [] }
    ensures ok { IfOk result (λ entries. Attaching S.told G.next G.start (below_of session.old)
        ids.old ids.new session.new entries links) }
    ensures err { IfErr result (λ error.
        Untaken (S.told (below_of session.old)) (S.told (below_of session.new))
        × RefusedOnly (S.told (below_of session.old)) (S.told (below_of session.new)) links
        error) }
{
    let mut entries = Entries::new(alloc);
    for number in 0..links {
        attach_link(alloc, session, ids, &mut entries, number)?;
    }
    Ok(entries)
}
