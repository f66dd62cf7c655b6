//! What is asked of a session in which frames pass: each control by the call of its name.

ghost use Rattle.std.specs.Prelude.{◌≡◌, false};
ghost use Rattle.std.specs.Bool.{OnFalse};
ghost use Rattle.amqp_txn_types.specs.Counts.{Rose};
ghost use Rattle.amqp_below_sessions.specs.declared.relay.NameState.TheVariants.{Taken, Waiting};
ghost use Rattle.amqp_engine_events.specs.Controls.{Commits, ControlsEnd, ControlsLinks, ControlsOthers, ControlsTransactions, Declares, Frees, Links, RollsBack, aborted, closing_error, is_allocation, is_end, rolled_back};
ghost use Rattle.amqp_engine_events.specs.Turns.{CausedBy};

use crate::controls::{ControlReply, SessionControl};
use crate::end::end_by_control;
use crate::outgoing::send_disposition;
use crate::turn::{Running, Turn, quiet, replying};
use amqp_below_ids::IdSource;
use amqp_below_layer::{SessionInnerError, Tells};
use amqp_below_sessions::{CommitFault, HandleDeclare, HandleDischarge, Relay, Session};
use amqp_txn_types::{
    ConnectionError, Error, ErrorCondition, InputHandle, OutputHandle, Text, TransactionId,
};
use std::alloc::Global;

/// Whether the control is that the session end.
pub(crate) fn is_end(control: &SessionControl) -> bool
    ensures { result ≡ is_end control.now }
{
    matches!(control, SessionControl::End(_))
}

/// An output handle is asked for a link of this side, and the answer is the reply.
fn allocate_link<S: Session>(
    alloc: Global,
    session: &mut S,
    name: Text,
    relay: Relay,
) -> Result<Turn, SessionInnerError>
    ensures { Links S.told S.kept S.names
        (S.calls.allocate_link session.old session.new name relay) session.old session.new name
        Waiting result }
{
    let answer = session.allocate_link(name, relay);
    Ok(replying(alloc, ControlReply::Linked(answer)))
}

/// The same for a link that the peer attached.
fn allocate_incoming_link<S: Session>(
    alloc: Global,
    session: &mut S,
    name: Text,
    relay: Relay,
    input: InputHandle,
) -> Result<Turn, SessionInnerError>
    ensures { Links S.told S.kept S.names
        (S.calls.allocate_incoming_link session.old session.new name relay input) session.old
        session.new name Taken result }
{
    let answer = session.allocate_incoming_link(name, relay, input);
    Ok(replying(alloc, ControlReply::Linked(answer)))
}

/// An output handle is freed. Nobody waits to hear whether it was in use.
fn deallocate_link<S: Session>(
    alloc: Global,
    session: &mut S,
    output: OutputHandle,
) -> Result<Turn, SessionInnerError>
    ensures { Frees S.told S.kept S.names S.calls.deallocate_link session.old session.new output
        result }
{
    let _was_in_use = session.deallocate_link(output);
    Ok(quiet(alloc, Running::Continue))
}

/// The error that the connection is to be closed with.
fn closing_error(condition: ConnectionError, text: Option<Text>) -> Error
    ensures { result ≡ closing_error condition text }
{
    Error {
        condition: ErrorCondition::ConnectionError(condition),
        description: text,
        info: None,
    }
}

/// An id is asked for, and the answer is the reply.
fn allocate_id<S: HandleDeclare, G: IdSource>(
    alloc: Global,
    session: &mut S,
    ids: &mut G,
) -> Result<Turn, SessionInnerError>
    ensures declares { Declares S.told S.allocate_gives session.old session.new (G.next ids.old)
        (G.next ids.new) result }
    ensures start { G.start ids.new ≡ G.start ids.old }
{
    let answer = session.allocate_transaction_id(ids);
    Ok(replying(alloc, ControlReply::Allocated(answer)))
}

/// A commit is asked for, and the answer is the reply; its fault is the error that it carries.
fn commit<S: HandleDischarge>(
    alloc: Global,
    session: &mut S,
    txn_id: TransactionId,
) -> Result<Turn, SessionInnerError>
    ensures commits { Commits S.told S.commit_gives session.old session.new txn_id result }
    ensures cause { CausedBy false (Rose (S.told session.old).refusals
        (S.told session.new).refusals) result }
{
    match session.commit_transaction(&txn_id) {
        Ok(answer) => Ok(replying(alloc, ControlReply::Committed(answer))),
        Err(CommitFault::NoMemory) => Err(SessionInnerError::NoMemory),
        Err(CommitFault::Refused { error, .. }) => Err(error),
    }
}

/// A rollback is asked for, and the answer is the reply.
fn roll_back<S: HandleDischarge>(
    alloc: Global,
    session: &mut S,
    txn_id: TransactionId,
) -> Result<Turn, SessionInnerError>
    ensures { RollsBack S.told S.rollback_gives session.old session.new txn_id rolled_back result }
{
    let answer = session.rollback_transaction(&txn_id);
    Ok(replying(alloc, ControlReply::RolledBack(answer)))
}

/// A rollback is asked for, whose answer nobody waits for.
fn abort<S: HandleDischarge>(
    alloc: Global,
    session: &mut S,
    txn_id: TransactionId,
) -> Result<Turn, SessionInnerError>
    ensures { RollsBack S.told S.rollback_gives session.old session.new txn_id aborted result }
{
    let _nobody_waits = session.rollback_transaction(&txn_id);
    Ok(quiet(alloc, Running::Continue))
}

/// Each control by the session's call of its name.
pub(crate) fn serve<S: Session + HandleDeclare + HandleDischarge, G: IdSource>(
    alloc: Global,
    session: &mut S,
    control: SessionControl,
    ids: &mut G,
) -> Result<Turn, SessionInnerError>
    ensures end { ControlsEnd ⟦<S as Tells>⟧.told S.kept S.names S.calls.stop S.calls.end_sent
        session.old session.new control result }
    ensures links { ControlsLinks ⟦<S as Tells>⟧.told S.kept S.names S.calls.allocate_link
        S.calls.allocate_incoming_link S.calls.deallocate_link session.old session.new control
        result }
    ensures transactions { ControlsTransactions ⟦<S as Tells>⟧.told S.allocate_gives S.commit_gives
        S.rollback_gives session.old session.new (G.next ids.old) (G.next ids.new) control result }
    ensures others { ControlsOthers ⟦<S as Tells>⟧.told S.kept S.names S.check_gives session.old
        session.new control result }
    ensures start { G.start ids.new ≡ G.start ids.old }
    ensures draws { OnFalse (is_allocation control) (ids.new ≡ ids.old) }
    ensures cause { CausedBy false (Rose (⟦<S as Tells>⟧.told session.old).refusals
        (⟦<S as Tells>⟧.told session.new).refusals) result }
{
    match control {
        SessionControl::End(error) => end_by_control(alloc, session, error),
        SessionControl::AllocateLink {
            link_name,
            link_relay,
        } => allocate_link(alloc, session, link_name, link_relay),
        SessionControl::AllocateIncomingLink {
            link_name,
            link_relay,
            input_handle,
        } => allocate_incoming_link(alloc, session, link_name, link_relay, input_handle),
        SessionControl::DeallocateLink(output) => deallocate_link(alloc, session, output),
        SessionControl::Disposition(disposition) => send_disposition(alloc, session, disposition),
        SessionControl::CloseConnectionWithError(condition, text) => {
            let error = closing_error(condition, text);
            Ok(replying(alloc, ControlReply::CloseConnection(error)))
        }
        SessionControl::AllocateTransactionId => allocate_id(alloc, session, ids),
        SessionControl::CommitTransaction { txn_id } => commit(alloc, session, txn_id),
        SessionControl::RollbackTransaction { txn_id } => roll_back(alloc, session, txn_id),
        SessionControl::AbortTransaction(txn_id) => abort(alloc, session, txn_id),
    }
}
