//! What a transaction does to its frames. Part 4 of the standard, section 4.4 (transactional work).

ghost use Rattle.std.specs.Prelude.{◌≡◌};
ghost use Rattle.amqp_txn_types.specs.Frames.{attaches_coordinator, is_under_txn, state_of_outcome, stripped, stripped_state, txn, txn_of_state};
ghost use Rattle.amqp_txn_types.specs.Works.{frame_of_work};

use crate::delivery::{DeliveryState, Outcome};
use crate::id::TransactionId;
use crate::items::{NoMemory, TryClone};
use crate::payload::Payload;
use crate::performatives::{Attach, Disposition, Frame, TargetArchetype, Transfer};

/// A frame of transactional work, as a resource keeps it until the transaction is discharged.
///
/// Part 4 of the standard, section 4.4 (transactional work). The type doesn't say that the frame's
/// state is a transactional one: whoever keeps it has looked with [`txn_of`].
#[derive(Debug, Drop, PartialEq)]
pub enum TxnWorkFrame {
    /// A message that is posted to the resource (section 4.4.1).
    Post {
        /// The transfer, with the state that it came with.
        transfer: Transfer,
        /// The octets of the message that came with it.
        payload: Payload,
    },
    /// A delivery of the resource, or a range of them, that is given its outcome (section 4.4.2).
    Retire(Disposition),
}

impl TryClone for TxnWorkFrame {
    fn try_clone(&self) -> Result<Self, NoMemory> {
        match self {
            TxnWorkFrame::Post { transfer, payload } => Ok(TxnWorkFrame::Post {
                transfer: transfer.try_clone()?,
                payload: payload.try_clone()?,
            }),
            TxnWorkFrame::Retire(disposition) => {
                Ok(TxnWorkFrame::Retire(disposition.try_clone()?))
            }
        }
    }
}

impl From<Outcome> for DeliveryState {
    ghost from_gives = { λ outcome state. state ≡ state_of_outcome outcome };

    fn from(outcome: Outcome) -> Self {
        match outcome {
            Outcome::Accepted => DeliveryState::Accepted,
            Outcome::Rejected(rejected) => DeliveryState::Rejected(rejected),
            Outcome::Released => DeliveryState::Released,
            Outcome::Modified(modified) => DeliveryState::Modified(modified),
            Outcome::Declared(declared) => DeliveryState::Declared(declared),
        }
    }
}

/// The frame as it came: a post as its transfer, a retirement as its disposition.
pub fn frame_of(work: TxnWorkFrame) -> Frame
    ensures { result ≡ frame_of_work work }
{
    match work {
        TxnWorkFrame::Post { transfer, payload } => Frame::Transfer { transfer, payload },
        TxnWorkFrame::Retire(disposition) => Frame::Disposition(disposition),
    }
}

/// The frame without its transaction, as it is handed on.
///
/// A transactional state is replaced by its outcome, or by no state where it has none, and a
/// retirement under one is settled. The payload and all other fields stay, and so does a frame
/// whose state is no transactional one. Part 4 of the standard, sections 4.4.1 (posting) and
/// 4.4.2 (retirement).
#[tactic(auto, unfolding(crate::specs::Frames::stripped))]
#[inline(always)]
pub fn strip(work: TxnWorkFrame) -> Frame
    ensures { result ≡ stripped (frame_of_work work) }
{
    match work {
        TxnWorkFrame::Post { transfer, payload } => Frame::Transfer {
            transfer: Transfer {
                state: stripped_of(transfer.state),
                ..transfer
            },
            payload,
        },
        TxnWorkFrame::Retire(disposition) => Frame::Disposition(Disposition {
            settled: disposition.settled || is_transactional(&disposition.state),
            state: stripped_of(disposition.state),
            ..disposition
        }),
    }
}

/// Any frame as [`strip`] leaves it: one that is no frame of transactional work stays as it is.
#[tactic(auto, unfolding(crate::specs::Frames::stripped))]
pub fn strip_frame(frame: Frame) -> Frame
    ensures { result ≡ stripped frame }
{
    match frame {
        Frame::Transfer { transfer, payload } => strip(TxnWorkFrame::Post { transfer, payload }),
        Frame::Disposition(disposition) => strip(TxnWorkFrame::Retire(disposition)),
        Frame::Attach(attach) => Frame::Attach(attach),
        Frame::Flow(flow) => Frame::Flow(flow),
        Frame::Detach(detach) => Frame::Detach(detach),
    }
}

/// The id in the transactional state of a transfer or a disposition; `None` for a frame without
/// such a state, and for every other frame.
///
/// Part 4 of the standard, section 4.5.6 (transactional state).
#[tactic(auto, unfolding(crate::specs::Frames::txn))]
pub fn txn_of(frame: &Frame) -> Option<TransactionId>
    ensures { result ≡ txn frame.now }
{
    match frame {
        Frame::Transfer { transfer, .. } => id_of(&transfer.state),
        Frame::Disposition(disposition) => id_of(&disposition.state),
        _ => None,
    }
}

/// Whether the attach is that of a control link: whether its target is a coordinator, whatever
/// its role says.
///
/// Part 4 of the standard, section 4.5.1 (coordinator).
pub fn is_coordinator(attach: &Attach) -> bool
    ensures { result ≡ attaches_coordinator attach.now }
{
    matches!(attach.target, Some(TargetArchetype::Coordinator(_)))
}

#[inline(always)]
fn stripped_of(state: Option<DeliveryState>) -> Option<DeliveryState>
    ensures { result ≡ stripped_state state }
{
    match state {
        Some(DeliveryState::TransactionalState(transactional)) => {
            transactional.outcome.map(DeliveryState::from)
        }
        other => other,
    }
}

fn is_transactional(state: &Option<DeliveryState>) -> bool
    ensures { result ≡ is_under_txn state.now }
{
    matches!(state, Some(DeliveryState::TransactionalState(_)))
}

fn id_of(state: &Option<DeliveryState>) -> Option<TransactionId>
    ensures { result ≡ txn_of_state state.now }
{
    match state {
        Some(DeliveryState::TransactionalState(transactional)) => Some(transactional.txn_id),
        _ => None,
    }
}
