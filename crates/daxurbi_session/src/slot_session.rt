//! A session that is asked and told.

ghost use Rattle.std.specs.Prelude.{◌≡◌, IfOk, List, None, Some, [], string_bytes};
ghost use Rattle.std.specs.Option.{option_map};
ghost use Rattle.amqp_resource_record.specs.declared.entry.Entry.{Entry};
ghost use Rattle.amqp_resource_session.specs.Session.{bare_frames_on, pending};
ghost use Rattle.daxurbi_session.specs.Reporting.{frames_text, report_of};
ghost use Rattle.daxurbi_session.specs.Slots.{MakesLine, MakesStep, SlotStandsFor, session_of, stop_in};
ghost use Rattle.daxurbi_session.specs.declared.last_step.Ending.TheVariants as endings;

use crate::last_step::{Ending, LastStep};
use crate::reporting::{report_text, text_of_frames};
use crate::slot_ids::SlotIds;
use crate::told_steps::{told_for, told_step};
use amqp_below_ids::Drawn;
use amqp_below_layer::Exchanges;
use amqp_resource_record::{Entry, Reply, Step, StepError, Stop};
use amqp_resource_session::TxnSession;
use amqp_txn_types::{NoMemory, TransactionId};
use daxurbi_layer::{BelowAnswer, ToldLayer};
use std::alloc::Global;
use txn_program_lines::{Unread, step_of_line};

/// Whether a step was answered.
#[derive(Clone, Copy, Debug, PartialEq, Eq)]
pub enum Stepped {
    /// It was answered: the report is its.
    Answered,
    /// It stopped the session: the report is its.
    Stopped,
    /// The session had stopped before; nothing changed.
    StoppedBefore,
    /// All numbers of control links are used up; nothing changed.
    NoLinkLeft,
    /// The octets are no line of a step; nothing changed.
    NotAStep,
    /// Out of memory; nothing changed.
    NoMemory,
}

/// A session with the source of its ids, over a layer below that is told at each step what it
/// answers. It keeps what its last step made, and nothing of those before.
#[derive(Drop)]
pub struct SlotSession {
    session: TxnSession<ToldLayer>,
    ids: SlotIds,
    last: Option<LastStep>,
    alloc: Global,
}

/// What a step that was answered made.
fn answered(step: Step, drawn: Drawn, reply: Reply, taken: Exchanges) -> Option<LastStep>
    ensures { result ≡ Some (record {
      ending = endings.Answered (record { step = step; drawn = drawn; reply = reply });
      taken = taken;
    }) }
{
    let entry = Entry { step, drawn, reply };
    Some(LastStep {
        ending: Ending::Answered(entry),
        taken,
    })
}

/// What a step that stopped the session made.
fn stopped(stop: Stop, handed: usize, taken: Exchanges) -> Option<LastStep>
    ensures { result ≡ Some (record { ending = endings.Stopped stop handed; taken = taken }) }
{
    Some(LastStep {
        ending: Ending::Stopped { stop, handed },
        taken,
    })
}

impl SlotSession {
    /// A new session: no live id, no link, not stopped, and no step yet. It takes no memory.
    pub fn new(alloc: Global, ids: SlotIds) -> SlotSession
        ensures stands { SlotStandsFor result [] }
        ensures runs { stop_in result ≡ None }
        ensures ids { result.ids ≡ ids }
        ensures last { result.last ≡ None }
    {
        let layer = ToldLayer::new(alloc, BelowAnswer::Take);
        SlotSession {
            session: TxnSession::new(alloc, layer),
            ids,
            last: None,
            alloc,
        }
    }

    /// One step, with what the layer below answers to what the step calls there.
    pub fn step(&mut self, step: Step, answer: BelowAnswer) -> Stepped
        ensures { MakesStep self.old self.new step answer result }
    {
        if self.session.stop_code().is_some() {
            return Stepped::StoppedBefore;
        }
        if self.session.links_opened() == u64::MAX {
            return Stepped::NoLinkLeft;
        }
        let told = told_for(&step, answer);
        let (result, taken) = told_step(&mut self.session, &mut self.ids, &step, self.alloc, told);
        match result {
            Ok((drawn, reply)) => {
                self.last = answered(step, drawn, reply, taken);
                Stepped::Answered
            }
            Err(StepError::Fault { error, handed }) => {
                self.last = stopped(Stop::Fault(error), handed, taken);
                Stepped::Stopped
            }
            Err(StepError::Ended(reason)) => {
                self.last = stopped(Stop::Ended(reason), 0, taken);
                Stepped::Stopped
            }
            Err(StepError::Stopped(_)) => unreachable!(),
            Err(StepError::NoMemory) => Stepped::NoMemory,
        }
    }

    /// One step, as a line of the table of steps spells it, without a line feed.
    pub fn step_line(&mut self, line: &[u8], answer: BelowAnswer) -> Stepped
        ensures { MakesLine self.old self.new line.now answer result }
    {
        match self.session.stop_code() {
            Some(_) => Stepped::StoppedBefore,
            None => self.spelled_step(line, answer),
        }
    }

    /// The step of a line, on a session that hasn't stopped.
    fn spelled_step(&mut self, line: &[u8], answer: BelowAnswer) -> Stepped
        requires { stop_in self.old ≡ None }
        ensures { MakesLine self.old self.new line.now answer result }
    {
        match step_of_line(self.alloc, line) {
            Ok(step) => self.step(step, answer),
            Err(Unread::OutsideTable) => Stepped::NotAStep,
            Err(Unread::NoMemory) => Stepped::NoMemory,
        }
    }

    /// The lines of what the last step made; none before the first. The only error is out of
    /// memory.
    pub fn report(&self) -> Result<String, NoMemory>
        ensures { IfOk result (λ text. string_bytes text ≡ report_of self.now.last) }
    {
        report_text(self.alloc, &self.last)
    }

    /// The lines of the frames that a commit of the id would hand; `None` exactly where the id
    /// isn't live. The only error is out of memory.
    pub fn pending(&self, txn_id: &TransactionId) -> Result<Option<String>, NoMemory>
        ensures kept { IfOk result (λ found. option_map string_bytes found
            ≡ option_map frames_text (bare_frames_on (session_of self.now) txn_id.now)) }
        ensures as_record { (r : List Entry) → SlotStandsFor self.now r
            → IfOk result (λ found. option_map string_bytes found
            ≡ option_map frames_text (pending r txn_id.now)) }
    {
        let Some(frames) = self.session.pending(txn_id)? else {
            return Ok(None);
        };
        let text = text_of_frames(self.alloc, frames.as_slice())?;
        Ok(Some(text))
    }
}
