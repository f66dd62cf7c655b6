//! A call on a control link whose answer is awaited, and what it hears.

ghost use Rattle.std.specs.Prelude.{◌≡◌, Some, None, Ok, IfOk, OnErr};
ghost use Rattle.amqp_txn_codec.specs.declared.message.ControlMessageBody.TheVariants as messages;
ghost use Rattle.amqp_controller_calls.specs.Polls.{accepted_by, declared_by, outcome_of};
ghost use Rattle.txn_parties.specs.declared.item.Asked.TheVariants as asked_for;
ghost use Rattle.txn_parties.specs.declared.item.ReplyState.TheVariants as states;
ghost use Rattle.txn_parties.specs.BackWire.{asked_by};
ghost use Rattle.amqp_resource_record.specs.Texts.{text_of};
ghost use Rattle.txn_world_wires.specs.Answers.{answer_of, asked_in, heard_in, heard_of_declare, heard_of_discharge, sent_of};
ghost use Rattle.txn_world_wires.specs.Links.{HasHeard, HasNotSent, HasSent, IsAwaited, IsQuiet};
ghost use Rattle.txn_world_wires.specs.Table.{same_asked};

use amqp_controller_calls::{
    ControllerSendError, DeclareOnLink, DischargeOnLink, declare_on_link, discharge_on_link,
};
use amqp_links::{Answer, LinkStateError, Progress, Sent, WireSender};
use amqp_resource_record::RejectText;
use amqp_txn_types::{
    Accepted, Declared, DeliveryState, Error, ErrorCondition, NoMemory, Rejected, Text,
    TransactionError, TransactionId,
};
use std::alloc::Global;
use txn_parties::{Asked, Heard, ReplyState};

/// A call on a control link whose answer is awaited.
#[derive(Debug, Drop)]
pub enum ControlCall {
    /// A declare.
    Declare(DeclareOnLink),
    /// A discharge that commits.
    Commit(DischargeOnLink),
    /// A discharge that rolls back.
    Rollback(DischargeOnLink),
}

/// What the answer to a call says.
#[derive(Clone, Copy, Debug, PartialEq, Eq)]
pub struct Hearing {
    /// The id of the transaction, where it is declared.
    pub id: Option<TransactionId>,
    /// What became of its discharge, where that was accepted or rejected.
    pub verdict: Option<Heard>,
}

/// Declares a transaction on the controller's end of a link. The only error is out of memory, as
/// none of the end's calls is to fail.
pub(crate) fn send_declare(alloc: Global, end: &mut WireSender) -> Result<ControlCall, NoMemory>
    requires { IsQuiet end.old }
    ensures asked { IfOk result (λ call. asked_in call ≡ asked_for.Declare) }
    ensures ok { IfOk result (λ call. HasSent end.old end.new
        (messages.Declare (record { global_id = None })) (sent_of call)) }
    ensures err { OnErr result (HasNotSent end.old end.new) }
{
    match declare_on_link(alloc, end, None) {
        Ok(declare) => Ok(ControlCall::Declare(declare)),
        Err(error) => {
            drop(error);
            Err(NoMemory)
        }
    }
}

/// Discharges a transaction on the controller's end of a link, as [`send_declare`] declares one.
pub(crate) fn send_discharge(
    alloc: Global,
    end: &mut WireSender,
    id: TransactionId,
    rollback: bool,
) -> Result<ControlCall, NoMemory>
    requires { IsQuiet end.old }
    ensures asked { IfOk result (λ call. asked_in call ≡ asked_by rollback) }
    ensures ok { IfOk result (λ call. HasSent end.old end.new
        (messages.Discharge (record { txn_id = id; fail = Some rollback })) (sent_of call)) }
    ensures err { OnErr result (HasNotSent end.old end.new) }
{
    match discharge_on_link(alloc, end, &id, Some(rollback)) {
        Ok(discharge) => Ok(if rollback {
            ControlCall::Rollback(discharge)
        } else {
            ControlCall::Commit(discharge)
        }),
        Err(error) => {
            drop(error);
            Err(NoMemory)
        }
    }
}

/// The text of a rejection, where it has one. The only error is out of memory.
fn description(alloc: Global, text: RejectText) -> Result<Option<Text>, NoMemory>
    ensures { IfOk result (λ copy. copy ≡ text_of text) }
{
    match text.as_text() {
        None => Ok(None),
        Some(words) => Ok(Some(Text::from_str(alloc, words)?)),
    }
}

/// The state of a rejection. The only error is out of memory.
fn rejected(
    alloc: Global,
    error: TransactionError,
    text: RejectText,
) -> Result<DeliveryState, NoMemory>
    ensures { IfOk result (λ state. answer_of (states.Rejected error text) ≡ Ok (Some state)) }
{
    Ok(DeliveryState::Rejected(Rejected {
        error: Some(Error {
            condition: ErrorCondition::TransactionError(error),
            description: description(alloc, text)?,
            info: None,
        }),
    }))
}

/// The answer that the resource's reply is on the link. The only error is out of memory.
pub(crate) fn answer_of(alloc: Global, state: ReplyState) -> Result<Answer, NoMemory>
    ensures { IfOk result (λ answer. answer ≡ answer_of state) }
{
    match state {
        ReplyState::Declared(txn_id) => Ok(Ok(Some(DeliveryState::Declared(Declared { txn_id })))),
        ReplyState::Accepted => Ok(Ok(Some(DeliveryState::Accepted))),
        ReplyState::Rejected { error, text } => Ok(Ok(Some(rejected(alloc, error, text)?))),
        ReplyState::Closed => Ok(Err(LinkStateError::RemoteClosed)),
    }
}

/// What the outcome of a declare says.
fn hear_declare(outcome: Result<Declared, ControllerSendError>) -> Hearing
    ensures { result ≡ heard_of_declare outcome }
{
    let id = match outcome {
        Ok(declared) => Some(declared.txn_id),
        Err(error) => {
            drop(error);
            None
        }
    };
    Hearing { id, verdict: None }
}

/// What the outcome of a discharge says that is heard so where it is accepted.
fn hear_discharge(accepted: Heard, outcome: Result<Accepted, ControllerSendError>) -> Hearing
    ensures { result ≡ heard_of_discharge accepted outcome }
{
    let verdict = match outcome {
        Ok(Accepted) => Some(accepted),
        Err(ControllerSendError::Rejected(rejected)) => {
            drop(rejected);
            Some(Heard::Rejected)
        }
        Err(error) => {
            drop(error);
            None
        }
    };
    Hearing { id: None, verdict }
}

/// Fills the answer in under the token of a declare, and polls that for its outcome.
fn answer_declare(
    end: &mut WireSender,
    declare: DeclareOnLink,
    answer: Answer,
) -> Result<Declared, ControllerSendError>
    requires quiet { IsQuiet end.old }
    requires awaited { IsAwaited end.old declare }
    ensures outcome { result ≡ outcome_of declared_by answer }
    ensures heard { HasHeard end.old end.new declare }
{
    let Sent::Unsettled(token) = declare.sent() else {
        unreachable!();
    };
    let _awaited = end.answer(token, answer);
    match declare.poll(end) {
        Progress::Ready(outcome) => outcome,
        Progress::Pending(_) => unreachable!(),
    }
}

/// Fills the answer in under the token of a discharge, and polls that for its outcome.
fn answer_discharge(
    end: &mut WireSender,
    discharge: DischargeOnLink,
    answer: Answer,
) -> Result<Accepted, ControllerSendError>
    requires quiet { IsQuiet end.old }
    requires awaited { IsAwaited end.old discharge }
    ensures outcome { result ≡ outcome_of accepted_by answer }
    ensures heard { HasHeard end.old end.new discharge }
{
    let Sent::Unsettled(token) = discharge.sent() else {
        unreachable!();
    };
    let _awaited = end.answer(token, answer);
    match discharge.poll(end) {
        Progress::Ready(outcome) => outcome,
        Progress::Pending(_) => unreachable!(),
    }
}

impl ControlCall {
    /// Whether the call asked for this.
    pub(crate) fn has_asked(&self, request: Asked) -> bool
        ensures { result ≡ same_asked request (asked_in self.now) }
    {
        match (self, request) {
            (ControlCall::Declare(_), Asked::Declare) => true,
            (ControlCall::Commit(_), Asked::Commit) => true,
            (ControlCall::Rollback(_), Asked::Rollback) => true,
            _ => false,
        }
    }

    /// Hears the answer: it is filled in at the end of the link on which the call was sent, and
    /// found by its poll.
    pub(crate) fn hear(self, end: &mut WireSender, answer: Answer) -> Hearing
        requires quiet { IsQuiet end.old }
        requires awaited { IsAwaited end.old (sent_of self) }
        ensures hearing { result ≡ heard_in self answer }
        ensures heard { HasHeard end.old end.new (sent_of self) }
    {
        match self {
            ControlCall::Declare(declare) => hear_declare(answer_declare(end, declare, answer)),
            ControlCall::Commit(commit) => {
                hear_discharge(Heard::Committed, answer_discharge(end, commit, answer))
            }
            ControlCall::Rollback(rollback) => {
                hear_discharge(Heard::RolledBack, answer_discharge(end, rollback, answer))
            }
        }
    }
}
