//! A sending end that keeps what was put.

ghost use Rattle.std.specs.Prelude.{◌≡◌, [], slice_get, OnOk, OnErr};
ghost use Rattle.amqp_links.specs.declared.errors.DetachError.TheVariants as detach_errors;
ghost use Rattle.amqp_links.specs.declared.errors.LinkStateError.TheVariants as link_errors;
ghost use Rattle.amqp_links.specs.declared.errors.SendError.TheVariants as send_errors;
ghost use Rattle.amqp_links.specs.Answers.{answer_in, is_awaited};
ghost use Rattle.amqp_txn_types.specs.Calls.{is_failing};
ghost use Rattle.amqp_links.specs.Calls.{FailsAsListed};
ghost use Rattle.amqp_links.specs.Sending.{Sends, Looks, Closes, sent_after};
ghost use Rattle.amqp_links.specs.SenderWire.{SenderWire, sender_tells, after_send, after_close, answered, filled_at, given_at, looked, with_failing, with_message, ClosesOnWire, SendsOnWire};

use crate::answer_slot::AnswerSlot;
use crate::errors::{DetachError, LinkStateError, SendError};
use crate::messages::{Closes, SentMessage, SentMessages};
use crate::poll::Poll;
use crate::sendable::{Sendable, Sent};
use crate::sender::{Answer, SenderLink};
use amqp_txn_types::{CallNumbers, Calls, DeliveryState, Error, Items, LinkEnd, NoMemory, Token};
use std::alloc::Global;
use std::marker::Model;

/// A sending end over which nothing travels: it keeps what was put for its owner to read, and hears
/// the answers that its owner fills in.
///
/// Its calls of [`SenderLink`] are numbered together from 1. A call whose number is in the list of
/// failing calls fails with `IllegalState`, and changes nothing but the counts of calls and faults.
/// Any other fails where memory runs out alone, but for a look that finds an error that the owner
/// filled in.
#[derive(Drop)]
pub struct WireSender {
    end: LinkEnd,
    put: SentMessages,
    answers: Items<AnswerSlot>,
    closes: Closes,
    calls: Calls,
}

impl Model for WireSender {
    ghost use Rattle.std.specs.Prelude.{◌≡◌, length};
    ghost use Rattle.amqp_links.specs.Sending.{unsettled_count};
    ghost use Rattle.amqp_links.specs.SenderWire.{SenderWire};

    ghost Value = { SenderWire };

    ghost view = { λ w. record {
      end = w.end;
      put = w.put;
      answers = w.answers;
      closes = w.closes;
      calls = w.calls;
    } };

    ghost invariant = { λ w. length w.answers ≡ unsettled_count w.put };
}

impl WireSender {
    /// A wire on which nothing was put, and of whose calls none is to fail.
    pub fn new(alloc: Global, end: LinkEnd) -> Self
        ensures end { result.end ≡ end }
        ensures put { result.put ≡ [] }
        ensures answers { result.answers ≡ [] }
        ensures closes { result.closes ≡ [] }
        ensures failing { result.calls.failing ≡ [] }
        ensures made { result.calls.made ≡ 0 }
        ensures faults { result.calls.faults ≡ 0 }
    {
        WireSender {
            end,
            put: SentMessages::new(alloc),
            answers: Items::new(alloc),
            closes: Closes::new(alloc),
            calls: Calls::new(CallNumbers::new(alloc)),
        }
    }

    /// What this end knows of its link.
    pub fn end(&self) -> &LinkEnd
        ensures { result.now ≡ self.now.end }
    {
        &self.end
    }

    /// What was put: each message with how it was sent, in order.
    pub fn put(&self) -> &SentMessages
        ensures { result.now ≡ self.now.put }
    {
        &self.put
    }

    /// The closes that were Ok, each with its error, in order.
    pub fn closes(&self) -> &Closes
        ensures { result.now ≡ self.now.closes }
    {
        &self.closes
    }

    /// The numbers of the calls that are to fail.
    pub fn failing(&self) -> &CallNumbers
        ensures { result.now ≡ self.now.calls.failing }
    {
        &self.calls.failing
    }

    /// Sets the numbers of the calls that are to fail. The count of calls goes on.
    pub fn set_failing(&mut self, failing: CallNumbers)
        ensures { self.new ≡ with_failing self.old failing }
    {
        self.calls.failing = failing;
    }

    /// Fills in the answer to an unsettled send, and answers whether it was awaited. An answer to
    /// any other token is dropped: one that wasn't given out yet, or that was answered before.
    pub fn answer(&mut self, token: Token, answer: Answer) -> bool
        ensures awaited { result ≡ is_awaited (slice_get self.old.answers token.0) }
        ensures filled { self.new ≡ answered self.old token answer }
    {
        fill_at(&mut self.answers, token, answer)
    }

    /// Puts a message, with room for its answer where it waits for one. Where memory runs out
    /// nothing changes.
    fn put_message(&mut self, message: SentMessage) -> Result<(), NoMemory>
        ensures ok { OnOk result (self.new ≡ with_message self.old message) }
        ensures err { OnErr result (self.new ≡ self.old) }
    {
        if self.answers.items.reserve(1).is_err() {
            drop(message);
            return Err(NoMemory);
        }
        let sent = message.sent;
        match self.put.push(message) {
            Ok(()) => {}
            Err(unkept) => {
                drop(unkept);
                return Err(NoMemory);
            }
        }
        if let Sent::Unsettled(_) = sent {
            self.answers.items.push_reserved(AnswerSlot::Awaited);
        }
        Ok(())
    }

    /// How the next message is sent.
    fn next_sent(&self, sendable: &Sendable) -> Sent
        ensures { result ≡ sent_after self.now.put sendable.now }
    {
        if sendable.settled == Some(true) {
            Sent::Settled
        } else {
            Sent::Unsettled(Token(self.answers.len() as u64))
        }
    }
}

/// Fills in the answer of a token, where it is awaited.
fn fill_at(answers: &mut Items<AnswerSlot>, token: Token, answer: Answer) -> bool
    ensures awaited { result ≡ is_awaited (slice_get answers.old token.0) }
    ensures filled { answers.new ≡ filled_at answers.old token.0 answer }
{
    let index = token.0 as usize;
    if index < answers.len() {
        answers.items[index].fill(answer)
    } else {
        drop(answer);
        false
    }
}

/// Gives the answer of a token, where it stands ready.
fn give_at(answers: &mut Items<AnswerSlot>, token: Token) -> Option<Answer>
    ensures given { result ≡ answer_in (slice_get answers.old token.0) }
    ensures emptied { answers.new ≡ given_at answers.old token.0 }
{
    let index = token.0 as usize;
    if index < answers.len() {
        answers.items[index].give()
    } else {
        None
    }
}

impl SenderLink for WireSender {
    ghost told = { sender_tells };

    ghost send_gives = { SendsOnWire };

    ghost outcome_gives = { λ old new token result. new ≡ looked old token result };

    ghost close_gives = { ClosesOnWire };

    fn send(
        &mut self,
        sendable: Sendable,
        state: Option<DeliveryState>,
        batchable: bool,
    ) -> Result<Sent, SendError>
        ensures told { Sends (sender_tells self.old) (sender_tells self.new)
            sendable state batchable result }
        ensures fails { FailsAsListed (is_failing self.old.calls)
            (send_errors.LinkStateError link_errors.IllegalState) send_errors.NoMemory result }
        ensures wire { self.new ≡ after_send self.old sendable state batchable result }
    {
        if self.calls.begin() {
            drop(state);
            let error = SendError::LinkStateError(LinkStateError::IllegalState);
            return self.calls.fail(error);
        }
        let sent = self.next_sent(&sendable);
        let message = SentMessage {
            sendable,
            state,
            batchable,
            sent,
        };
        match self.put_message(message) {
            Ok(()) => Ok(sent),
            Err(_) => self.calls.fail(SendError::NoMemory),
        }
    }

    fn outcome(&mut self, token: &Token) -> Poll<Result<Option<DeliveryState>, LinkStateError>>
        ensures told { Looks (sender_tells self.old) (sender_tells self.new) token.now result }
        ensures wire { self.new ≡ looked self.old token.now result }
    {
        if self.calls.begin() {
            return Poll::Ready(self.calls.fail(LinkStateError::IllegalState));
        }
        match give_at(&mut self.answers, *token) {
            None => Poll::Pending,
            Some(Ok(state)) => Poll::Ready(Ok(state)),
            Some(Err(error)) => Poll::Ready(self.calls.fail(error)),
        }
    }

    fn close(&mut self, error: Option<Error>) -> Result<(), DetachError>
        ensures told { Closes (sender_tells self.old) (sender_tells self.new) result }
        ensures fails { FailsAsListed (is_failing self.old.calls)
            detach_errors.IllegalState detach_errors.NoMemory result }
        ensures wire { self.new ≡ after_close self.old error result }
    {
        if self.calls.begin() {
            drop(error);
            return self.calls.fail(DetachError::IllegalState);
        }
        match self.closes.push(error) {
            Ok(()) => Ok(()),
            Err(unkept) => {
                drop(unkept);
                self.calls.fail(DetachError::NoMemory)
            }
        }
    }
}
