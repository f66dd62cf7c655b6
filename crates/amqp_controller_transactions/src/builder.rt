//! How a controller is attached.

ghost use Rattle.std.specs.Prelude.{◌≡◌, [], None, IfOk};
ghost use Rattle.amqp_txn_types.specs.declared.small.SenderSettleMode.TheVariants as modes;
ghost use Rattle.amqp_controller_transactions.specs.Attaches.{AttachesBy, NamesAttach, TellsAttach, attach_of, relay_of};

use crate::attach::Attaching;
use crate::controller::Controller;
use amqp_below_sessions::{Relay, SenderAttachError, Session};
use amqp_links::WireSender;
use amqp_txn_types::{
    Attach, Coordinator, Handle, LinkEnd, LinkFlows, NoMemory, OutputHandle, ReceiverSettleMode,
    Role, SenderSettleMode, Source, TargetArchetype, Text, TryClone,
};
use std::alloc::Global;
use std::marker::Model;

/// The control link that is wanted: its name, the coordinator that its attach names, and when it
/// settles its deliveries.
#[derive(Debug, Drop)]
pub struct ControllerBuilder {
    name: Text,
    coordinator: Coordinator,
    sender_settle_mode: SenderSettleMode,
    alloc: Global,
}

impl Model for ControllerBuilder {
    ghost use Rattle.amqp_controller_transactions.specs.Attaches.{Wanted};

    ghost Value = { Wanted };

    ghost view = { λ b. record {
      name = b.name;
      coordinator = b.coordinator;
      sender_settle_mode = b.sender_settle_mode;
    } };
}

impl Controller<WireSender> {
    /// A control link of the empty name, to a coordinator that names no capabilities, which sends
    /// all deliveries unsettled. It takes no memory; later growth takes it from `alloc`.
    pub fn builder(alloc: Global) -> ControllerBuilder
        ensures name { result.name ≡ [] }
        ensures coordinator { result.coordinator.capabilities ≡ None }
        ensures mode { result.sender_settle_mode ≡ modes.Unsettled }
    {
        ControllerBuilder {
            name: Text::new(alloc),
            coordinator: Coordinator::default(),
            sender_settle_mode: SenderSettleMode::Unsettled,
            alloc,
        }
    }

    /// Attaches a control link to a coordinator that names no capabilities: see
    /// [`ControllerBuilder::attach`].
    pub fn attach<S: Session>(
        alloc: Global,
        session: &mut S,
        name: Text,
    ) -> Result<(Attaching, Attach), SenderAttachError>
        ensures session { AttachesBy S.calls.allocate_link S.calls.outgoing_attach
            S.calls.deallocate_link session.old session.new
            (record {
              name = name;
              coordinator = record { capabilities = None };
              sender_settle_mode = modes.Unsettled;
            }) result }
        ensures told { TellsAttach (S.told session.old) (S.told session.new) result }
        ensures kept { S.kept session.new ≡ S.kept session.old }
        ensures names { NamesAttach (S.names session.old) (S.names session.new) name result }
    {
        Controller::builder(alloc).name(name).attach(session)
    }

    /// Attaches a control link to this coordinator: see [`ControllerBuilder::attach`].
    pub fn attach_with_coordinator<S: Session>(
        alloc: Global,
        session: &mut S,
        name: Text,
        coordinator: Coordinator,
    ) -> Result<(Attaching, Attach), SenderAttachError>
        ensures session { AttachesBy S.calls.allocate_link S.calls.outgoing_attach
            S.calls.deallocate_link session.old session.new
            (record {
              name = name;
              coordinator = coordinator;
              sender_settle_mode = modes.Unsettled;
            }) result }
        ensures told { TellsAttach (S.told session.old) (S.told session.new) result }
        ensures kept { S.kept session.new ≡ S.kept session.old }
        ensures names { NamesAttach (S.names session.old) (S.names session.new) name result }
    {
        Controller::builder(alloc)
            .name(name)
            .coordinator(coordinator)
            .attach(session)
    }
}

impl ControllerBuilder {
    /// Sets the link's name.
    pub fn name(mut self, name: Text) -> Self
        ensures { result ≡ record self { name = name } }
    {
        self.name = name;
        self
    }

    /// Sets the coordinator that the attach names. Part 4 of the standard, section 4.5.1.
    pub fn coordinator(mut self, coordinator: Coordinator) -> Self
        ensures { result ≡ record self { coordinator = coordinator } }
    {
        self.coordinator = coordinator;
        self
    }

    /// Sets when the link's sender settles, as its attach says. Control messages are sent unsettled
    /// whatever it says.
    pub fn sender_settle_mode(mut self, sender_settle_mode: SenderSettleMode) -> Self
        ensures { result ≡ record self { sender_settle_mode = sender_settle_mode } }
    {
        self.sender_settle_mode = sender_settle_mode;
        self
    }

    /// Gives the link an output handle on the session, and the attach that is to be sent, which the
    /// session let pass. Part 2 of the standard, section 2.6.3 (establishing a link).
    ///
    /// # Errors
    ///
    /// - `Alloc`: with what the session's allocation answered. A session that stopped answers
    ///   `SessionStopped` there.
    /// - `Session`: with what the session's check of the attach answered; the handle is freed again.
    /// - `NoMemory`: the session answered it, or memory runs out for the copies of the name; the
    ///   session isn't asked then.
    pub fn attach<S: Session>(
        self,
        session: &mut S,
    ) -> Result<(Attaching, Attach), SenderAttachError>
        ensures session { AttachesBy S.calls.allocate_link S.calls.outgoing_attach
            S.calls.deallocate_link session.old session.new self result }
        ensures told { TellsAttach (S.told session.old) (S.told session.new) result }
        ensures kept { S.kept session.new ≡ S.kept session.old }
        ensures names { NamesAttach (S.names session.old) (S.names session.new) self.name result }
    {
        let Ok((allocated, relayed, kept)) = three_copies(&self.name) else {
            drop(self);
            return Err(SenderAttachError::NoMemory);
        };
        let relay = relay_of(self.alloc, relayed);
        let output = session.allocate_link(allocated, relay)?;
        let end = LinkEnd {
            name: kept,
            role: Role::Sender,
            output,
            snd_settle_mode: self.sender_settle_mode,
            rcv_settle_mode: ReceiverSettleMode::First,
        };
        let attaching = Attaching::new(self.alloc, end);
        let attach = attach_of(self, output);
        match session.on_outgoing_attach(&attach) {
            Ok(()) => Ok((attaching, attach)),
            Err(fault) => {
                session.deallocate_link(output);
                drop(attaching);
                drop(attach);
                Err(SenderAttachError::Session(fault))
            }
        }
    }
}

/// Three copies of a name.
fn three_copies(name: &Text) -> Result<(Text, Text, Text), NoMemory>
    ensures { IfOk result (λ copies. copies ≡ (name.now, name.now, name.now)) }
{
    Ok((name.try_clone()?, name.try_clone()?, name.try_clone()?))
}

/// What the session passes on to the link, at first nothing.
fn relay_of(alloc: Global, name: Text) -> Relay
    ensures { result ≡ relay_of name }
{
    Relay {
        name,
        role: Role::Sender,
        rcv_settle_mode: ReceiverSettleMode::First,
        flows: LinkFlows::new(alloc),
        transfers: 0,
    }
}

/// The attach of the link that is wanted.
fn attach_of(wanted: ControllerBuilder, output: OutputHandle) -> Attach
    ensures { result ≡ attach_of wanted output }
{
    let ControllerBuilder {
        name,
        coordinator,
        sender_settle_mode,
        alloc: _,
    } = wanted;
    Attach::new(name, Handle(output.0), Role::Sender)
        .snd_settle_mode(sender_settle_mode)
        .source(Source::default())
        .target(TargetArchetype::Coordinator(coordinator))
        .initial_delivery_count(0)
}
