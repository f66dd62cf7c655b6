//! The two parties but for the resource's session: the record, the two wires and the controllers.

ghost use Rattle.std.specs.Prelude.{◌≡◌, ◌<◌, length, slice_get, OnErr, IfOk, Some, Ok};
ghost use Rattle.txn_parties.specs.declared.event.Event.TheVariants as events;
ghost use Rattle.txn_parties.specs.declared.event.Happened.TheVariants as happenings;
ghost use Rattle.txn_parties.specs.declared.item.Item.TheVariants as items;
ghost use Rattle.txn_world_wires.specs.Moves.{MovesParties};
ghost use Rattle.txn_parties.specs.BackWire.{heard_by};
ghost use Rattle.txn_parties.specs.Turns.{state_under};
ghost use Rattle.txn_world_wires.specs.Knowing.{heard_of};
ghost use Rattle.txn_world_wires.specs.Parties.{Begun};
ghost use Rattle.txn_world_wires.specs.Putting.{IsDeclare, discharge_event, posted, retired, to_discharge, with_item, working_id};

use crate::controllers::{Controllers, Transaction};
use crate::tag::Tag;
use crate::waiting::{ForwardWire, Waiting};
use amqp_resource_record::{Entries, is_plain};
use amqp_txn_types::{
    DeliveryState, Disposition, Frame, Items, NoMemory, Outcome, Payload, TransactionId,
    TransactionalState, Transfer, TryClone,
};
use std::alloc::Global;
use txn_parties::{Answered, Event, Halt, Happened, Heard};

/// The record of the resource, the two wires, and the controllers.
#[derive(Drop)]
pub struct Parties {
    /// The entries of the attaches, and then those of the items that arrived.
    pub entries: Entries,
    /// How many of them are those of the attaches.
    pub attached: usize,
    /// What each item is that arrived.
    pub tags: Items<Tag>,
    /// The items that wait to arrive.
    pub waiting: ForwardWire,
    /// What was put back, in order.
    pub answers: Items<Answered>,
    /// How many of these answers have returned.
    pub returned: usize,
    /// Whether the wires were cut.
    pub cut: bool,
    /// Why the session stopped, if it did.
    pub stop: Option<Halt>,
    /// What the controllers know.
    pub controllers: Controllers,
    alloc: Global,
}

/// What a transaction has heard.
fn heard_of(txn: Transaction) -> Heard
    ensures { result ≡ heard_by txn.id txn.verdict }
{
    match (txn.id, txn.verdict) {
        (None, _) => Heard::Undeclared,
        (Some(_), None) => Heard::Nothing,
        (Some(_), Some(verdict)) => verdict,
    }
}

/// A copy of the transfer under the id, with its payload.
fn posted(
    id: TransactionId,
    transfer: &Transfer,
    outcome: &Option<Outcome>,
    payload: &Payload,
) -> Result<Frame, NoMemory>
    ensures { IfOk result (λ frame. frame ≡ posted id transfer.now outcome.now payload.now) }
{
    let state = state_under(id, outcome)?;
    let payload = payload.try_clone()?;
    let mut transfer = transfer.try_clone()?;
    transfer.state = Some(state);
    Ok(Frame::Transfer { transfer, payload })
}

/// A copy of the disposition under the id.
fn retired(
    id: TransactionId,
    disposition: &Disposition,
    outcome: &Option<Outcome>,
) -> Result<Frame, NoMemory>
    ensures { IfOk result (λ frame. frame ≡ retired id disposition.now outcome.now) }
{
    let state = state_under(id, outcome)?;
    let mut disposition = disposition.try_clone()?;
    disposition.state = Some(state);
    Ok(Frame::Disposition(disposition))
}

/// The transactional state of a frame under the id.
fn state_under(id: TransactionId, outcome: &Option<Outcome>) -> Result<DeliveryState, NoMemory>
    ensures { IfOk result (λ state. state_under id outcome.now ≡ Some state) }
{
    let outcome = outcome.try_clone()?;
    Ok(DeliveryState::TransactionalState(TransactionalState {
        txn_id: id,
        outcome,
    }))
}

impl Parties {
    /// Two parties as they begin, with the entries of the attaches, one for each controller. Out of
    /// memory is the only error.
    pub fn new(alloc: Global, entries: Entries) -> Result<Self, NoMemory>
        ensures { IfOk result (λ parties. Begun entries parties) }
    {
        let attached = entries.len();
        let controllers = Controllers::new(alloc, entries.as_slice())?;
        Ok(Parties {
            entries,
            attached,
            tags: Items::new(alloc),
            waiting: ForwardWire::new(alloc),
            answers: Items::new(alloc),
            returned: 0,
            cut: false,
            stop: None,
            controllers,
            alloc,
        })
    }

    /// What the transaction with this number has heard.
    pub fn heard(&self, txn: u32) -> Option<Heard>
        ensures { result ≡ heard_of (slice_get self.now.controllers.transactions txn) }
    {
        match self.controllers.find(txn) {
            None => None,
            Some(txn) => Some(heard_of(txn)),
        }
    }

    /// The entries, taken out.
    pub fn into_entries(self) -> Entries
        ensures { result ≡ self.entries }
    {
        self.entries
    }

    /// The id under which the transaction may put frames: it has heard it, and has sent no
    /// discharge.
    fn working_id(&self, txn: u32) -> Option<TransactionId>
        ensures { result ≡ working_id (slice_get self.now.controllers.transactions txn) }
    {
        let txn = self.controllers.find(txn)?;
        if txn.sent { None } else { txn.id }
    }

    /// The transaction and its id, where it may put a discharge: it may put frames, and its link's
    /// end wasn't sent.
    fn to_discharge(&self, txn: u32) -> Option<(Transaction, TransactionId)>
        ensures { result ≡ to_discharge self.now.controllers txn }
    {
        let txn = self.controllers.find(txn)?;
        if txn.sent || self.controllers.has_ended(txn.link) {
            return None;
        }
        let id = txn.id?;
        Some((txn, id))
    }

    /// Puts a frame.
    fn put_frame(&mut self, frame: Frame) -> Result<Happened, NoMemory>
        ensures ok { IfOk result (λ happened. (happened ≡ happenings.Put)
            × (self.new ≡ with_item self.old (items.Frame frame))) }
        ensures err { OnErr result (self.new ≡ self.old) }
    {
        self.waiting.put(Waiting::frame(frame))?;
        Ok(Happened::Put)
    }

    /// A controller declares a new transaction.
    fn declare(&mut self, link: u32) -> Result<Happened, NoMemory>
        requires { length self.old.controllers.transactions < 4294967295 }
        ensures { MovesParties self.old (events.Declare link) result self.new }
    {
        if !self.controllers.is_open(link) {
            return Ok(Happened::Skipped);
        }
        let number = self.controllers.len() as u32;
        let item = Waiting::declare(self.alloc, number, u64::from(link))?;
        self.waiting.put(item)?;
        match self.controllers.declare(link) {
            Ok(()) => Ok(Happened::Put),
            Err(error) => {
                self.waiting.take_back();
                Err(error)
            }
        }
    }

    /// A transaction posts a transfer.
    fn post(
        &mut self,
        txn: u32,
        transfer: &Transfer,
        outcome: &Option<Outcome>,
        payload: &Payload,
    ) -> Result<Happened, NoMemory>
        ensures { MovesParties self.old
            (events.Post txn transfer.now outcome.now payload.now) result self.new }
    {
        match self.working_id(txn) {
            None => Ok(Happened::Skipped),
            Some(id) => {
                let frame = posted(id, transfer, outcome, payload)?;
                self.put_frame(frame)
            }
        }
    }

    /// A transaction retires deliveries.
    fn retire(
        &mut self,
        txn: u32,
        disposition: &Disposition,
        outcome: &Option<Outcome>,
    ) -> Result<Happened, NoMemory>
        ensures { MovesParties self.old
            (events.Retire txn disposition.now outcome.now) result self.new }
    {
        match self.working_id(txn) {
            None => Ok(Happened::Skipped),
            Some(id) => {
                let frame = retired(id, disposition, outcome)?;
                self.put_frame(frame)
            }
        }
    }

    /// A transaction is to be committed or rolled back.
    fn discharge(&mut self, number: u32, rollback: bool) -> Result<Happened, NoMemory>
        ensures { MovesParties self.old (discharge_event number rollback) result self.new }
    {
        let Some((txn, id)) = self.to_discharge(number) else {
            return Ok(Happened::Skipped);
        };
        let link = u64::from(txn.link);
        let item = Waiting::discharge(self.alloc, number, link, id, rollback)?;
        self.waiting.put(item)?;
        match self.controllers.discharge(number, txn, id, rollback) {
            Ok(()) => Ok(Happened::Put),
            Err(error) => {
                self.waiting.take_back();
                Err(error)
            }
        }
    }

    /// A controller ends its link.
    fn end_link(&mut self, link: u32) -> Result<Happened, NoMemory>
        ensures { MovesParties self.old (events.LinkEnd link) result self.new }
    {
        if !self.controllers.is_open(link) {
            return Ok(Happened::Skipped);
        }
        self.waiting.put(Waiting::link_end(u64::from(link)))?;
        self.controllers.end(link);
        Ok(Happened::Put)
    }

    /// A plain frame is put.
    fn put_plain(&mut self, frame: &Frame) -> Result<Happened, NoMemory>
        ensures { MovesParties self.old (events.Plain frame.now) result self.new }
    {
        if !is_plain(frame) {
            return Ok(Happened::Skipped);
        }
        let frame = frame.try_clone()?;
        self.put_frame(frame)
    }

    /// The next answer returns, and its transaction hears it.
    fn give_back(&mut self) -> Result<Happened, NoMemory>
        ensures { MovesParties self.old events.Return result self.new }
    {
        if self.cut || self.returned >= self.answers.len() {
            return Ok(Happened::Skipped);
        }
        let Some(answer) = self.answers.get(self.returned) else {
            unreachable!();
        };
        let answer = *answer;
        // It is the answer to a request that a transaction awaits.
        let Some(txn) = self.controllers.find(answer.txn) else {
            return Ok(Happened::Skipped);
        };
        if !self.controllers.hear(txn, answer)? {
            return Ok(Happened::Skipped);
        }
        self.returned += 1;
        Ok(Happened::Heard)
    }

    /// Both wires are cut.
    fn cut_off(&mut self) -> Happened
        ensures { MovesParties self.old events.Cut (Ok result) self.new }
    {
        if self.cut {
            return Happened::Skipped;
        }
        self.cut = true;
        Happened::Cut
    }

    /// An event that is no arrival.
    pub fn happen(&mut self, event: &Event) -> Result<Happened, NoMemory>
        requires { IsDeclare event.now
            → length self.old.controllers.transactions < 4294967295 }
        ensures { (event.now ≡ events.Arrive → ⊥)
            → MovesParties self.old event.now result self.new }
    {
        match event {
            Event::Declare(link) => self.declare(*link),
            Event::Post {
                txn,
                transfer,
                outcome,
                payload,
            } => self.post(*txn, transfer, outcome, payload),
            Event::Retire {
                txn,
                disposition,
                outcome,
            } => self.retire(*txn, disposition, outcome),
            Event::Commit(txn) => self.discharge(*txn, false),
            Event::Rollback(txn) => self.discharge(*txn, true),
            Event::LinkEnd(link) => self.end_link(*link),
            Event::Plain(frame) => self.put_plain(frame),
            Event::Arrive => Ok(Happened::Skipped),
            Event::Return => self.give_back(),
            Event::Cut => Ok(self.cut_off()),
        }
    }
}
