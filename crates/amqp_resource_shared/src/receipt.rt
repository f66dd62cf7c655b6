//! What a caller keeps of its step.

ghost use Rattle.std.specs.Prelude.{◌≡◌, MatchBool};
ghost use Rattle.amqp_resource_shared.specs.Receipts.{IsOf, IsOfEntry, code_told, drawn_told, number_of, step_told};

use crate::reply_code::{ReplyCode, code_of, same_code};
use amqp_resource_equality::{same_drawn, same_step};
use amqp_resource_record::{Drawn16, Entry, Step};

/// The number, step, draws and reply code of an entry, for the caller whose step it was.
///
/// [`Locked::step`](crate::Locked::step) alone makes one, and it isn't copied.
#[derive(Debug, Drop)]
pub struct Receipt {
    number: usize,
    step: Step,
    drawn: Drawn16,
    code: ReplyCode,
}

impl Receipt {
    pub(crate) fn new(number: usize, step: Step, drawn: Drawn16, code: ReplyCode) -> Receipt
        ensures { result ≡ record { number = number; step = step; drawn = drawn; code = code } }
    {
        Receipt {
            number,
            step,
            drawn,
            code,
        }
    }

    /// The place of its entry, from 0.
    pub fn number(&self) -> usize
        ensures { result ≡ number_of self.now }
    {
        self.number
    }

    /// The step that was made.
    pub fn step(&self) -> &Step
        ensures { result.now ≡ step_told self.now }
    {
        &self.step
    }

    /// The ids that the step drew.
    pub fn drawn(&self) -> &Drawn16
        ensures { result.now ≡ drawn_told self.now }
    {
        &self.drawn
    }

    /// The kind of the reply.
    pub fn code(&self) -> ReplyCode
        ensures { result ≡ code_told self.now }
    {
        self.code
    }

    /// Whether step, draws and code are those of the entry.
    fn is_of(&self, entry: &Entry) -> bool
        ensures { MatchBool result (IsOf entry.now self.now) (IsOf entry.now self.now → ⊥) }
    {
        if !same_step(&self.step, &entry.step) {
            return false;
        }
        if !same_drawn(&self.drawn, &entry.drawn) {
            return false;
        }
        let code = code_of(&entry.reply);
        same_code(&self.code, &code)
    }

    /// Whether step, draws and code are those of the entry with its number.
    pub(crate) fn is_of_entry(&self, entries: &[Entry]) -> bool
        ensures { MatchBool result (IsOfEntry entries.now self.now)
            (IsOfEntry entries.now self.now → ⊥) }
    {
        match entries.get(self.number) {
            None => false,
            Some(entry) => self.is_of(entry),
        }
    }
}

/// The step at which a session stopped: the first that was answered `Fault` or `Ended`.
#[derive(Debug, Drop)]
pub struct StoppedAt {
    /// The step itself.
    pub step: Step,
    /// How many of its frames the layer below took.
    pub handed: usize,
}
