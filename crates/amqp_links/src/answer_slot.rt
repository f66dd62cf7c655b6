//! The answer to one unsettled send.

ghost use Rattle.std.specs.Prelude.{◌≡◌, Some};
ghost use Rattle.amqp_links.specs.Answers.{answer_in, is_awaited, filled_slot, emptied_slot};

use crate::sender::Answer;
use std::mem;

/// Where the answer to one unsettled send stands until it is looked for. It is filled once.
#[derive(Debug, Drop, PartialEq)]
pub enum AnswerSlot {
    /// The answer hasn't come.
    Awaited,
    /// The answer has come, and nobody has looked for it.
    Ready(Answer),
    /// The answer was given.
    Given,
}

impl AnswerSlot {
    /// Puts the answer in where it is awaited, and answers whether it is.
    pub(crate) fn fill(&mut self, answer: Answer) -> bool
        ensures awaited { result ≡ is_awaited (Some self.old) }
        ensures after { self.new ≡ filled_slot self.old answer }
    {
        match self {
            AnswerSlot::Awaited => {
                *self = AnswerSlot::Ready(answer);
                true
            }
            _ => {
                drop(answer);
                false
            }
        }
    }

    /// Gives the answer, where it stands ready.
    pub(crate) fn give(&mut self) -> Option<Answer>
        ensures given { result ≡ answer_in (Some self.old) }
        ensures after { self.new ≡ emptied_slot self.old }
    {
        match mem::replace(self, AnswerSlot::Given) {
            AnswerSlot::Awaited => {
                *self = AnswerSlot::Awaited;
                None
            }
            AnswerSlot::Ready(answer) => Some(answer),
            AnswerSlot::Given => None,
        }
    }
}
