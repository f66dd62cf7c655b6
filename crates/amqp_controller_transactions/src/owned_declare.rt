//! An owned transaction from its attach on.

ghost use Rattle.std.specs.Prelude.{◌≡◌, Err, None, Result, Some, is_some};
ghost use Rattle.amqp_txn_types.specs.declared.performatives.Attach.{Attach};
ghost use Rattle.amqp_txn_types.specs.declared.performatives.LinkEnd.{LinkEnd};
ghost use Rattle.amqp_below_sessions.specs.declared.attach_errors.SenderAttachError.{SenderAttachError};
ghost use Rattle.amqp_txn_types.specs.declared.small.SenderSettleMode.TheVariants as modes;
ghost use Rattle.amqp_links.specs.declared.progress.Progress.TheVariants as waits;
ghost use Rattle.amqp_controller_transactions.specs.declared.owned_errors.OwnedDeclareError.TheVariants as declares;
ghost use Rattle.amqp_controller_transactions.specs.Attaches.{AttachesBy, NamesAttach, TellsAttach};
ghost use Rattle.amqp_controller_transactions.specs.Declares.{PollsToBegin};
ghost use Rattle.amqp_controller_transactions.specs.Locked.{SendsUnder, declare_of};
ghost use Rattle.amqp_controller_transactions.specs.Owned.{DeclareFailed, PollsOwned, PutsDeclare, for_declare, is_put, owned_begun, owned_by, owned_sent};

use crate::attach::Attaching;
use crate::controller::Controller;
use crate::owned_errors::OwnedDeclareError;
use crate::owned_transaction::{OwnedDeclaringOn, OwnedTransaction};
use amqp_below_sessions::Session;
use amqp_controller_calls::ControllerSendError;
use amqp_links::{Progress, SenderLink, WireSender};
use amqp_txn_types::{Attach, Text, TransactionId};
use std::alloc::Global;
use std::marker::Model;
use std::sync::Wait;

/// An owned transaction that is being declared: first its control link is attached, then it is
/// declared. A contract sees what is awaited.
#[derive(Drop)]
pub struct OwnedDeclaring {
    awaited: Awaited,
}

/// What is awaited.
#[derive(Drop)]
enum Awaited {
    /// The peer's attach, and the global id that the declare is to name.
    Attach(Attaching, Option<TransactionId>),
    /// The outcome of the declare.
    Declare(OwnedDeclaringOn<WireSender>),
}

impl Model for OwnedDeclaring {
    ghost use Rattle.amqp_controller_transactions.specs.Owned.{OwnedWait, awaited_of};

    ghost Value = { OwnedWait };

    ghost view = { λ d. awaited_of d.awaited };
}

/// What a poll of an owned transaction that is being declared finds; an error hands the controller
/// back, where there is one.
type DeclareProgress = Progress<
    OwnedDeclaring,
    Result<OwnedTransaction<WireSender>, (Option<Controller<WireSender>>, OwnedDeclareError)>,
>;

impl OwnedTransaction<WireSender> {
    /// Attaches a control link of that name for one transaction, to a coordinator that names no
    /// capabilities: the attach is to be sent, and the declare is put by the poll that finds the
    /// link attached.
    ///
    /// # Errors
    ///
    /// `AttachError` with those of [`Controller::attach`].
    pub fn declare<S: Session>(
        alloc: Global,
        session: &mut S,
        name: Text,
        global_id: Option<TransactionId>,
    ) -> Result<(OwnedDeclaring, Attach), OwnedDeclareError>
        ensures session { (attached : Result (LinkEnd × Attach) SenderAttachError)
            × AttachesBy S.calls.allocate_link S.calls.outgoing_attach
            S.calls.deallocate_link session.old session.new
            (record {
              name = name;
              coordinator = record { capabilities = None };
              sender_settle_mode = modes.Unsettled;
            }) attached
            × TellsAttach (S.told session.old) (S.told session.new) attached
            × NamesAttach (S.names session.old) (S.names session.new) name attached
            × (result ≡ owned_by global_id attached) }
        ensures kept { S.kept session.new ≡ S.kept session.old }
    {
        match Controller::attach(alloc, session, name) {
            Ok((attaching, attach)) => {
                let awaited = Awaited::Attach(attaching, global_id);
                Ok((OwnedDeclaring { awaited }, attach))
            }
            Err(error) => Err(OwnedDeclareError::AttachError(error)),
        }
    }
}

impl OwnedDeclaring {
    /// The controller of the link; `None` exactly until the link is attached.
    pub fn controller(&self) -> Option<&Controller<WireSender>>
        ensures { is_some result ≡ is_put self.now }
    {
        match &self.awaited {
            Awaited::Attach(_, _) => None,
            Awaited::Declare(declaring) => Some(declaring.controller()),
        }
    }

    /// Looks once: for the peer's attach, or, once the link is attached, for the outcome of the
    /// declare. The poll that finds the link attached puts the declare, and is pending unless that
    /// is refused.
    ///
    /// # Errors
    ///
    /// The controller is handed back exactly where the link was attached.
    ///
    /// - `AttachError`: with `SessionStopped` where the session stopped before the link was
    ///   attached, or with `NoMemory` where memory runs out for the copy of its reason.
    /// - `ControllerSendError`: with those of the declare.
    pub fn poll<S: Session, R: Wait>(self, rt: &R, session: &mut S) -> DeclareProgress
        ensures answer { PollsOwned ⟦<WireSender as SenderLink>⟧.send_gives
            ⟦<WireSender as SenderLink>⟧.outcome_gives ⟦<WireSender as SenderLink>⟧.told
            (S.names session.old).known (S.kept session.old).stop self result }
        ensures session { session.new ≡ session.old }
    {
        let OwnedDeclaring { awaited } = self;
        match awaited {
            Awaited::Attach(attaching, global_id) => match attaching.poll(session) {
                Progress::Pending(attaching) => {
                    let awaited = Awaited::Attach(attaching, global_id);
                    Progress::Pending(OwnedDeclaring { awaited })
                }
                Progress::Ready(Ok(controller)) => put_declare(rt, controller, global_id),
                Progress::Ready(Err(error)) => {
                    Progress::Ready(Err((None, OwnedDeclareError::AttachError(error))))
                }
            },
            Awaited::Declare(declaring) => poll_declare(rt, declaring),
        }
    }
}

/// Puts the declare on a link that was just attached.
fn put_declare<R: Wait>(
    rt: &R,
    controller: Controller<WireSender>,
    global_id: Option<TransactionId>,
) -> DeclareProgress
    ensures { PutsDeclare (SendsUnder ⟦<WireSender as SenderLink>⟧.send_gives
        ⟦<WireSender as SenderLink>⟧.told (declare_of global_id)) result }
{
    match OwnedTransaction::declare_with_controller(controller, rt, global_id) {
        Ok(declaring) => {
            let awaited = Awaited::Declare(declaring);
            Progress::Pending(OwnedDeclaring { awaited })
        }
        Err((controller, error)) => fail_declare(controller, error),
    }
}

/// Looks once for the outcome of the declare.
fn poll_declare<R: Wait>(rt: &R, declaring: OwnedDeclaringOn<WireSender>) -> DeclareProgress
    ensures { PollsToBegin ⟦<WireSender as SenderLink>⟧.outcome_gives
        ⟦<WireSender as SenderLink>⟧.told owned_begun DeclareFailed (owned_sent declaring)
        (for_declare (owned_sent declaring)) result }
{
    match declaring.poll(rt) {
        Progress::Pending(declaring) => {
            let awaited = Awaited::Declare(declaring);
            Progress::Pending(OwnedDeclaring { awaited })
        }
        Progress::Ready(Ok(transaction)) => Progress::Ready(Ok(transaction)),
        Progress::Ready(Err((controller, error))) => fail_declare(controller, error),
    }
}

/// A declare that failed, with the controller of its link handed back.
fn fail_declare(controller: Controller<WireSender>, error: ControllerSendError) -> DeclareProgress
    ensures { result ≡ waits.Ready (Err (Some controller, declares.ControllerSendError error)) }
{
    let error = OwnedDeclareError::ControllerSendError(error);
    Progress::Ready(Err((Some(controller), error)))
}
