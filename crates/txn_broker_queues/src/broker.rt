//! A layer with queues.

ghost use Rattle.std.specs.Prelude.{ℕ, ◌≡◌, ◌≤◌, List, [], IfErr, IfOk, IsSome, OnOk, OnErr, Some, None, cond, length, nat_eq, option_copied, slice_get};
ghost use Rattle.std.specs.BTreeMap.{get, is_at};
ghost use Rattle.std.specs.Cmp.Lexicographic.{pointwise};
ghost use Rattle.indexmap.specs.IndexSet.{insert_key};
ghost use Rattle.amqp_txn_types.specs.declared.performatives.Frame.TheVariants as frames;
ghost use Rattle.amqp_txn_types.specs.declared.small.Handle.{Handle as H};
ghost use Rattle.txn_broker_queues.specs.Queues.{messages, queue_found};
ghost use Rattle.txn_broker_queues.specs.Given.{answered, given_back, refusal};
ghost use Rattle.txn_broker_queues.specs.Keeping.{handle_order, queue_names, same_handle};
ghost use Rattle.txn_broker_queues.specs.Taking.{Admitted, Answered, NotTook, SameCounts, taken_of};

mod frame_calls;

use crate::answering::{answer_attach, answer_credit, answer_detach};
use crate::copies::copy_messages;
use crate::link::{Link, address_of, is_sender};
use crate::message::Messages;
use crate::queues::Queues;
use crate::reviewing::{any_refused, queue_of_transfer};
use amqp_below_layer::{LayerBelow, SessionInnerError, Tells, Verdict};
use amqp_txn_types::{
    Attach, Detach, Disposition, Flow, Frame, Frames, Handle, NoMemory, Role, SessionState, Text,
    Transfer, TryClone, refuse,
};
use std::alloc::Global;
use std::collections::BTreeMap;
use std::marker::Model;

/// A layer below a transactional session that keeps messages in queues.
///
/// It is Mapped, keeps a journal of the frames that it took, and tells that. A link's address is
/// that of its target; for a peer that is the link's receiver it is that of its source, where that
/// has one. The queue of an address stays when its links are detached.
///
/// | frame | is refused | gives back |
/// |---|---|---|
/// | attach | `HandleInUse` where the handle is attached, `IllegalState` without an address | an attach of the other role and, to a sender, a flow of 200 credits |
/// | transfer | `UnattachedHandle`; `TransferFrameToSender` where the peer is the receiver; `IllegalState` with `more` or `aborted`, and after 4,294,967,295 messages | nothing |
/// | disposition | never | nothing |
/// | flow | `UnattachedHandle` | to a receiver with credit the first messages of its queue |
/// | detach | `UnattachedHandle` | a detach |
///
/// Where memory runs out it answers `NoMemory` before it changes anything; after an Accept it takes
/// the reviewed frames without memory.
#[derive(Drop)]
pub struct Broker {
    journal: Vec<(Frame, Frames)>,
    links: BTreeMap<Handle, Link>,
    queues: Queues,
    refusals: u64,
    vetoes: u64,
    alloc: Global,
}

impl Model for Broker {
    ghost use Rattle.std.specs.Prelude.{◌-◌};
    ghost use Rattle.std.specs.Vec.{vec_capacity, vec_len};
    ghost use Rattle.std.specs.BTreeMap.{get};
    ghost use Rattle.txn_broker_queues.specs.Taking.{Board, Stands};
    ghost use Rattle.txn_broker_queues.specs.Keeping.{handle_order};

    ghost Value = { Board };

    ghost view = { λ b. record {
      journal = b.journal.items;
      refusals = b.refusals;
      vetoes = b.vetoes;
      room = vec_capacity b.journal - vec_len b.journal;
      message_room = b.queues.room;
    } };

    ghost invariant = { λ b. Stands b.journal.items
        (λ handle. get handle_order b.links handle) b.queues };
}

impl Broker {
    /// A broker without queues. It takes no memory; later growth takes it from `alloc`.
    pub fn new(alloc: Global) -> Broker
        ensures journal { result.journal ≡ [] }
        ensures refusals { result.refusals ≡ 0 }
        ensures vetoes { result.vetoes ≡ 0 }
    {
        Broker {
            journal: Vec::new(alloc),
            links: BTreeMap::new(alloc),
            queues: Queues::new(alloc),
            refusals: 0,
            vetoes: 0,
            alloc,
        }
    }

    /// What was taken: each frame with the frames given back for it, in order.
    pub fn exchanges(&self) -> &[(Frame, Frames)]
        ensures journal { result.now ≡ self.now.journal }
        ensures answered { result.now ≡ answered (taken_of self.now) }
    {
        self.journal.as_slice()
    }

    /// A copy of the queue of a name; `None` where no link to that name was ever attached. The only
    /// error is out of memory.
    pub fn queue(&self, name: &Text) -> Result<Option<Messages>, NoMemory>
        ensures { IfOk result (λ found. found ≡ queue_found (taken_of self.now) name.now) }
    {
        match self.queues.find(name) {
            Some(queue) => {
                let count = self.queues.message_count();
                let journal = self.journal.as_slice();
                let copies = copy_messages(self.alloc, journal, &self.queues, queue, count)?;
                Ok(Some(copies))
            }
            None => Ok(None),
        }
    }

    /// How many messages were taken. They are numbered from 0, and after 4,294,967,295 of them no
    /// number is left.
    pub fn message_count(&self) -> u32
        ensures { result ≡ length (messages (taken_of self.now)) }
    {
        self.queues.message_count() as u32
    }

    /// How many queues there are.
    pub fn queue_count(&self) -> usize
        ensures { result ≡ length (queue_names (taken_of self.now)) }
    {
        self.queues.count()
    }

    /// The name of a queue, by first attach from 0; `None` from [`Broker::queue_count`] on.
    pub fn queue_name(&self, index: usize) -> Option<&Text>
        ensures { option_copied result ≡ slice_get (queue_names (taken_of self.now)) index }
    {
        self.queues.name(index)
    }

    /// What is given back for an attach, twice, with room for the attach in the journal; or why the
    /// attach is refused.
    fn answer_attach(&mut self, attach: &Attach) -> Result<(Frames, Frames), SessionInnerError>
        ensures counts { SameCounts self.old self.new }
        ensures ok { IfOk result (λ given.
            Answered self.old self.new (frames.Attach attach.now) given) }
        ensures err { IfErr result (λ error.
            NotTook self.old self.new (frames.Attach attach.now) error) }
    {
        if self.links.contains_key(&attach.handle) {
            return Err(SessionInnerError::HandleInUse);
        }
        let Some(_address) = address_of(attach) else {
            return Err(SessionInnerError::IllegalState);
        };
        let given = answer_attach(self.alloc, attach)?;
        let kept = given.try_clone()?;
        self.reserve()?;
        Ok((given, kept))
    }

    /// What is given back for a detach, twice, with room for the detach in the journal; or why the
    /// detach is refused.
    fn answer_detach(&mut self, detach: &Detach) -> Result<(Frames, Frames), SessionInnerError>
        ensures counts { SameCounts self.old self.new }
        ensures ok { IfOk result (λ given.
            Answered self.old self.new (frames.Detach detach.now) given) }
        ensures err { IfErr result (λ error.
            NotTook self.old self.new (frames.Detach detach.now) error) }
    {
        if !self.links.contains_key(&detach.handle) {
            return Err(SessionInnerError::UnattachedHandle);
        }
        let given = answer_detach(self.alloc, detach)?;
        let kept = given.try_clone()?;
        self.reserve()?;
        Ok((given, kept))
    }

    /// What is given back for a flow, twice, with room for the flow in the journal; or why the flow
    /// is refused.
    fn answer_flow(&mut self, flow: &Flow) -> Result<(Frames, Frames), SessionInnerError>
        ensures counts { SameCounts self.old self.new }
        ensures ok { IfOk result (λ given.
            Answered self.old self.new (frames.Flow flow.now) given) }
        ensures err { IfErr result (λ error.
            NotTook self.old self.new (frames.Flow flow.now) error) }
    {
        let given = self.first_of_credit(flow)?;
        let kept = given.try_clone()?;
        self.reserve()?;
        Ok((given, kept))
    }

    /// The messages that a flow's credit brings, as transfers; or why the flow is refused.
    fn first_of_credit(&mut self, flow: &Flow) -> Result<Frames, SessionInnerError>
        ensures same { self.new ≡ self.old }
        ensures ok { IfOk result (λ given.
            given ≡ given_back (taken_of self.old) (frames.Flow flow.now)) }
        ensures unrefused { OnOk result
            (refusal (taken_of self.old) (frames.Flow flow.now) ≡ None) }
        ensures err { IfErr result (λ error.
            NotTook self.old self.new (frames.Flow flow.now) error) }
    {
        let Some(handle) = flow.handle else {
            return Ok(Frames::new(self.alloc));
        };
        let Some(link) = self.links.get(&handle).copied() else {
            return Err(SessionInnerError::UnattachedHandle);
        };
        if is_sender(link.peer) {
            return Ok(Frames::new(self.alloc));
        }
        let Some(credit) = flow.link_credit else {
            return Ok(Frames::new(self.alloc));
        };
        let count = credit as usize;
        self.queues.shorten(link.queue, count);
        let journal = self.journal.as_slice();
        let copies = copy_messages(self.alloc, journal, &self.queues, link.queue, count)?;
        Ok(answer_credit(self.alloc, handle, copies)?)
    }

    /// The queue of a transfer, with room for it in the journal and in the queues; or why the
    /// transfer is refused.
    fn admit(&mut self, transfer: &Transfer) -> Result<usize, SessionInnerError>
        ensures counts { SameCounts self.old self.new }
        ensures ok { IfOk result (λ queue. Admitted self.old self.new transfer.now queue) }
        ensures err { IfErr result (λ error. (payload : List ℕ)
            → NotTook self.old self.new (frames.Transfer transfer.now payload) error) }
    {
        let count = self.queues.message_count();
        let queue = queue_of_transfer(&self.links, transfer, count)?;
        self.reserve()?;
        self.queues.reserve(1)?;
        Ok(queue)
    }

    /// Room in the journal for one more frame. The only error is out of memory.
    fn reserve(&mut self) -> Result<(), NoMemory>
        ensures journal { self.new.journal ≡ self.old.journal }
        ensures counts { SameCounts self.old self.new }
        ensures ok { OnOk result (1 ≤ self.new.room) }
        ensures stays { self.old.room ≤ self.new.room }
        ensures messages { self.new.message_room ≡ self.old.message_room }
        ensures lacked { OnErr result (self.old.room ≡ 0) }
    {
        Ok(self.journal.reserve(1)?)
    }

    /// Room in the journal and in the queues for these frames. The only error is out of memory.
    fn make_room(&mut self, frames: &Frames) -> Result<(), NoMemory>
        ensures journal { self.new.journal ≡ self.old.journal }
        ensures counts { SameCounts self.old self.new }
        ensures room { OnOk result (length frames.now ≤ self.new.room) }
        ensures messages { OnOk result (length frames.now ≤ self.new.message_room) }
    {
        self.journal.reserve(frames.len())?;
        self.queues.reserve(frames.len())
    }
}

/// Links a handle to the queue of an address. Where memory runs out, the only error, nothing
/// changes.
fn attach_link(
    links: &mut BTreeMap<Handle, Link>,
    queues: &mut Queues,
    handle: Handle,
    peer: Role,
    address: &Text,
) -> Result<(), NoMemory>
    ensures marks { queues.new.marks ≡ queues.old.marks }
    ensures room { queues.new.room ≡ queues.old.room }
    ensures names { OnOk result
        (queues.new.names ≡ insert_key (pointwise nat_eq) queues.old.names address.now) }
    ensures linked { OnOk result ((queue : ℕ)
        × (slice_get queues.new.names queue ≡ Some address.now)
        × ((h : H) → get handle_order links.new h ≡ cond (same_handle handle h)
        (Some (record { queue = queue; peer = peer })) (get handle_order links.old h))) }
    ensures err { OnErr result (queues.new.names ≡ queues.old.names) }
    ensures unlinked { OnErr result ((h : H) → get handle_order links.new h
        ≡ get handle_order links.old h) }
{
    let before = links.insert(handle, Link { queue: 0, peer })?;
    match queues.find_or_add(address) {
        Ok(queue) => {
            put_link(links, handle, Some(Link { queue, peer }));
            Ok(())
        }
        Err(error) => {
            put_link(links, handle, before);
            Err(error)
        }
    }
}

/// Changes the link of a handle that has one, or takes it out. It takes no memory.
fn put_link(links: &mut BTreeMap<Handle, Link>, handle: Handle, link: Option<Link>)
    requires { IsSome (get handle_order links.old handle) }
    ensures { (h : H) → get handle_order links.new h
        ≡ cond (is_at (handle_order handle) h) link (get handle_order links.old h) }
{
    if let Some(link) = link {
        let Ok(_) = links.insert(handle, link) else {
            unreachable!()
        };
    } else {
        let _ = links.remove(&handle);
    }
}

impl Tells for Broker {
    ghost use Rattle.txn_broker_queues.specs.Taking.{told_by};

    ghost told = { told_by };
}

impl LayerBelow for Broker {
    ghost use Rattle.std.specs.Prelude.{◌≡◌, true, None, Ok, []};
    ghost use Rattle.txn_broker_queues.specs.Taking.{ReviewGives, Takes, TakesAll};
    ghost use Rattle.txn_broker_queues.specs.Lasting.{broker-goes-on, broker-stays-on, kept-takes};

    ghost incoming_gives = { Takes };

    ghost opening_gives = { λ old new _ answer. (answer ≡ Ok []) × (new ≡ old) };

    ghost check_gives = { λ old new _ answer. (answer ≡ Ok tt) × (new ≡ old) };

    ghost window_gives = { λ old new flow. (flow ≡ None) × (new ≡ old) };

    ghost review_gives = { ReviewGives };

    ghost takes = { TakesAll };

    ghost sure = { true };

    ghost goes_on = { broker-goes-on };

    ghost stays_on = { λ old new _ answer gives. broker-stays-on old new answer gives };

    ghost window_stays_on = { λ old new _ gives list takes.
        kept-takes old new list gives.1 takes };

    fn local_state(&self) -> SessionState {
        SessionState::Mapped
    }

    fn on_incoming_frame(&mut self, frame: Frame) -> Result<Frames, SessionInnerError> {
        match frame {
            Frame::Attach(attach) => self.hear_attach(attach),
            Frame::Flow(flow) => self.hear_flow(flow),
            Frame::Transfer { transfer, payload } => self.hear_transfer(transfer, payload),
            Frame::Disposition(disposition) => self.hear_disposition(disposition),
            Frame::Detach(detach) => self.hear_detach(detach),
        }
    }

    fn on_control_attach(&mut self, attach: &Attach) -> Result<Frames, SessionInnerError> {
        Ok(Frames::new(self.alloc))
    }

    fn on_outgoing_disposition(
        &mut self,
        disposition: &Disposition,
    ) -> Result<(), SessionInnerError> {
        Ok(())
    }

    fn maybe_outgoing_session_flow(&mut self) -> Option<Flow> {
        None
    }

    fn review(&mut self, frames: &Frames) -> Result<Verdict, NoMemory> {
        let count = self.queues.message_count();
        if any_refused(&self.links, count, frames.as_slice()) {
            self.vetoes = self.vetoes.saturating_add(1);
            return Ok(Verdict::Veto);
        }
        match self.make_room(frames) {
            Ok(()) => Ok(Verdict::Accept),
            Err(error) => refuse(&mut self.refusals, error),
        }
    }
}
