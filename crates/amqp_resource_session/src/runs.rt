//! Lists of steps.

ghost use Rattle.std.specs.Prelude.{◌≡◌, ◌≤◌, ◌<◌, ◌+◌, ◌*◌, ◌↔◌, length, take, Some};
ghost use Rattle.amqp_txn_types.specs.declared.delivery.SessionStopReason.{SessionStopReason};
ghost use Rattle.amqp_below_layer.specs.declared.inner_error.SessionInnerError.TheVariants as faults;
ghost use Rattle.amqp_below_ids.specs.Ids.{Drew};
ghost use Rattle.amqp_txn_types.specs.Growing.{grown};
ghost use Rattle.amqp_resource_record.specs.declared.stop.Stop.TheVariants as stops;
ghost use Rattle.amqp_resource_record.specs.Entries.{drawn_of, steps_of};
ghost use Rattle.amqp_resource_record.specs.Legal.{IsLegal};
ghost use Rattle.amqp_resource_record.specs.Opened.{opens};
ghost use Rattle.amqp_resource_record.specs.Vetoed.{vetoes};
ghost use Rattle.amqp_resource_session.specs.Drive.{NextStep, RunLeaves, RunRefused, RunRose, RunStopsSurely, RunTook, RunVetoed, StopCause, StopsBy, StopsWith, work_count};
ghost use Rattle.amqp_resource_session.specs.DriveClauses.{DriveSays};
ghost use Rattle.amqp_resource_session.specs.Steps.{IsFirstStop, UnderDead, ended_by, entry_of};
ghost use Rattle.amqp_resource_session.specs.Session.{FitsTogether, IsFresh, told_of};
ghost use Rattle.amqp_resource_held.specs.Views.{view_of_record};

use crate::session::TxnSession;
use amqp_below_ids::{Drawn, IdSource};
use amqp_below_layer::LayerBelow;
use amqp_resource_log::Looks;
use amqp_resource_record::{Driven, Entries, Entry, Reply, StepError, Steps, Stop};
use std::marker::Brand;
use std::sync::ledger::{Blank, Ledger};

/// The stop of a run, by the error of its last step, with the number of frames handed.
fn stop_by(error: StepError) -> (Stop, usize)
    requires { IsFirstStop error }
    ensures { StopsBy error result.0 result.1 }
{
    match error {
        StepError::Fault { error, handed } => (Stop::Fault(error), handed),
        StepError::Ended(reason) => (Stop::Ended(reason), 0),
        StepError::NoMemory => (Stop::NoMemory, 0),
        StepError::Stopped(_) => unreachable!(),
    }
}

/// What a run made.
fn driven(entries: Vec<Entry>, stop: Stop, handed: usize) -> Driven
    ensures { result ≡ record {
      entries = entries.items;
      stop = stop;
      at = length entries.items;
      handed = handed;
    } }
{
    let at = entries.len();
    Driven {
        entries: Entries::from_vec(entries),
        stop,
        at,
        handed,
    }
}

/// Fills in what the step of an entry drew and was answered.
#[inline(always)]
fn fill_in(entry: &mut Entry, drawn: Drawn, reply: Reply)
    ensures { entry.new ≡ entry_of entry.old.step drawn reply }
{
    entry.drawn = drawn;
    entry.reply = reply;
}

/// Makes the steps of a fresh session in order, until one isn't answered. It takes no memory for
/// the record: each entry stands where its step did.
///
/// Its clauses are those of [`drive_counted`] but for the one on looks.
///
/// # Requires
///
/// That the session is fresh: no id is live, no link was opened, no look is owed, it hasn't
/// stopped, and the layer below is Mapped.
pub fn drive<S: LayerBelow, G: IdSource>(
    session: &mut TxnSession<S>,
    steps: Steps,
    ids: &mut G,
) -> Driven
    requires { IsFresh S.told session.old }
    ensures { DriveSays S.told S.sure G.next G.start session.old session.new ids.old ids.new steps
        result }
{
    drive_blank::<S, G, Brand>(session, steps, ids, Blank::new(1))
}

/// A run whose looks are counted in a blank ledger.
fn drive_blank<S: LayerBelow, G: IdSource, L: Ledger>(
    session: &mut TxnSession<S>,
    steps: Steps,
    ids: &mut G,
    blank: Blank,
) -> Driven
    requires fresh { IsFresh S.told session.old }
    requires name { blank.name ≡ L.name }
    requires parts { blank.parts ≡ L.parts }
    requires some { 0 < blank.parts }
    ensures { DriveSays S.told S.sure G.next G.start session.old session.new ids.old ids.new steps
        result }
{
    let mut looks = Looks::<L>::new(blank);
    drive_counted(session, steps, ids, &mut looks)
}

/// A run as by [`drive`], which counts its looks into the log of the work.
///
/// # Requires
///
/// What [`drive`] requires.
pub fn drive_counted<S: LayerBelow, G: IdSource, L: Ledger>(
    session: &mut TxnSession<S>,
    steps: Steps,
    ids: &mut G,
    looks: &mut Looks<L>,
) -> Driven
    requires { IsFresh S.told session.old }
    // The record: each entry is an answer of those before it, to the first of the steps, with the
    // source's next ids.
    ensures legal { IsLegal result.entries }
    ensures at { result.at ≡ length result.entries }
    ensures steps { steps_of result.entries ≡ take result.at steps }
    ensures drew { Drew (G.next ids.old) (G.next ids.new) (drawn_of result.entries) }
    ensures start { G.start ids.new ≡ G.start ids.old }
    // The stop: Done exactly where every step has its entry, and each other one by the next step.
    ensures done { (result.stop ≡ stops.Done) ↔ (steps_of result.entries ≡ steps) }
    ensures cause { StopCause steps result.entries result.stop }
    ensures unknown { NextStep steps result.entries
        (λ s. UnderDead (view_of_record result.entries) s) →
        result.stop ≡ stops.Fault faults.UnknownTxnId }
    ensures ended { (reason : SessionStopReason) → NextStep steps result.entries
        (λ s. ended_by s ≡ Some reason) →
        StopsWith result.stop (stops.Ended reason) }
    // What below took, opened, refused and vetoed, after what it had before.
    ensures taken { RunTook (told_of S.told session.old).taken (told_of S.told session.new).taken
        steps result.entries result.stop result.handed }
    ensures opened { (told_of S.told session.new).opened
        ≡ grown (told_of S.told session.old).opened (opens result.entries) }
    ensures refused { RunRefused (told_of S.told session.old).refused
        (told_of S.told session.new).refused
        steps result.entries result.stop result.handed }
    ensures vetoed { (told_of S.told session.new).reviews.vetoed
        ≡ grown (told_of S.told session.old).reviews.vetoed (vetoes result.entries) }
    // Over a sure layer no frame of a commit was taken that ran out of memory.
    ensures surely { RunStopsSurely S.sure steps result.entries result.stop result.handed }
    // Each refusal and each veto that was answered was counted, as long as the count can rise.
    ensures rose { RunRose (told_of S.told session.old).refusals
        (told_of S.told session.new).refusals
        result.entries result.stop }
    ensures vetoes_rose { RunVetoed (told_of S.told session.old).reviews.vetoes
        (told_of S.told session.new).reviews.vetoes result.entries }
    ensures later { (told_of S.told session.old).refusals ≤ (told_of S.told session.new).refusals }
    ensures counted { (told_of S.told session.old).reviews.vetoes
        ≤ (told_of S.told session.new).reviews.vetoes }
    ensures fixed { (told_of S.told session.new).fixed ≡ (told_of S.told session.old).fixed }
    // The session stands for the record, or keeps the code of its stop, and what it keeps fits
    // together.
    ensures leaves { RunLeaves session.new result.entries result.stop }
    ensures fits { FitsTogether session.new }
    // Two looks at most come for each entry that is a frame of transactional work.
    ensures looks { looks.new ≤ looks.old + 2 * work_count result.entries }
{
    let mut entries = steps.into_entries();
    for at in 0..entries.len() {
        match session.step_counted(&entries[at].step, ids, looks) {
            Ok((drawn, reply)) => fill_in(&mut entries[at], drawn, reply),
            Err(error) => {
                entries.truncate(at);
                let (stop, handed) = stop_by(error);
                return driven(entries, stop, handed);
            }
        }
    }
    driven(entries, Stop::Done, 0)
}
