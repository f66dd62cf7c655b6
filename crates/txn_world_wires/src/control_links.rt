//! The controllers' ends of their control links, and the calls on them that await an answer.

ghost use Rattle.std.specs.Prelude.{◌≡◌, ◌<◌, [], Some, length, slice_set, IfOk, OnOk, OnErr};
ghost use Rattle.txn_parties.specs.declared.item.Asked.TheVariants as asked_for;
ghost use Rattle.txn_parties.specs.BackWire.{asked_by};
ghost use Rattle.txn_world_wires.specs.Asking.{HearsAnswer, asking_too, with_asked};
ghost use Rattle.std.specs.Option.{option_map};
ghost use Rattle.txn_world_wires.specs.Links.{requested};
ghost use Rattle.txn_world_wires.specs.Table.{is_asked};

use crate::control_call::{ControlCall, Hearing, answer_of, send_declare, send_discharge};
use amqp_links::WireSender;
use amqp_resource_record::{Entry, Step};
use amqp_txn_types::{
    Frame, LinkEnd, NoMemory, OutputHandle, ReceiverSettleMode, Role, SenderSettleMode, Text,
    TransactionId, TryClone,
};
use std::alloc::Global;
use std::marker::Model;
use txn_parties::{Asked, ReplyState};

/// A call of a transaction, and the link on which it was sent.
#[derive(Debug, Drop)]
pub struct Request {
    link: u32,
    call: ControlCall,
}

/// The controllers' ends of their links, and of each transaction its call that awaits an answer.
///
/// A contract sees how many links there are, and what each transaction asked and awaits.
#[derive(Drop)]
pub struct ControlLinks {
    ends: Vec<WireSender>,
    requests: Vec<Option<Request>>,
    alloc: Global,
}

impl Model for ControlLinks {
    ghost use Rattle.std.specs.Prelude.{length};
    ghost use Rattle.txn_world_wires.specs.Known.{Asks};

    ghost Value = { Asks };

    ghost use Rattle.txn_world_wires.specs.Links.{AreOpen, asked_by_all};

    ghost view = { λ c. record {
      links = length c.ends.items;
      asked = asked_by_all c.requests.items;
    } };

    ghost invariant = { λ c. AreOpen c.ends.items c.requests.items };
}

/// The controller's end of a link that was attached so; without a name where it is no attach. The
/// only error is out of memory.
fn sender_end(alloc: Global, attach: &Step) -> Result<LinkEnd, NoMemory> {
    match attach {
        Step::Frame(Frame::Attach(attach)) => Ok(LinkEnd {
            name: attach.name.try_clone()?,
            role: attach.role,
            output: OutputHandle(attach.handle.0),
            snd_settle_mode: attach.snd_settle_mode,
            rcv_settle_mode: attach.rcv_settle_mode,
        }),
        _ => Ok(LinkEnd {
            name: Text::new(alloc),
            role: Role::Sender,
            output: OutputHandle(0),
            snd_settle_mode: SenderSettleMode::Mixed,
            rcv_settle_mode: ReceiverSettleMode::First,
        }),
    }
}

/// Whether the transaction made this request and awaits its answer.
fn is_asked(request: &Option<Request>, asked: Asked) -> bool
    ensures { result ≡ is_asked (option_map requested request.now) asked }
{
    match request {
        None => false,
        Some(request) => request.call.has_asked(asked),
    }
}

/// Keeps another request in place of the one at the place.
fn set_request(requests: &mut Vec<Option<Request>>, number: usize, request: Request)
    requires { number < length requests.old.items }
    ensures { requests.new.items ≡ slice_set requests.old.items number (Some request) }
{
    let earlier = requests[number].replace(request);
    drop(earlier);
}

impl ControlLinks {
    /// The ends of links that were attached so, on which nothing was asked. Out of memory is the
    /// only error.
    pub fn new(alloc: Global, attaches: &[Entry]) -> Result<Self, NoMemory>
        ensures links { IfOk result (λ made. made.links ≡ length attaches.now) }
        ensures asked { IfOk result (λ made. made.asked ≡ []) }
    {
        let mut ends = Vec::new(alloc);
        for entry in attaches {
            let end = sender_end(alloc, &entry.step)?;
            ends.push(WireSender::new(alloc, end))?;
        }
        Ok(ControlLinks {
            ends,
            requests: Vec::new(alloc),
            alloc,
        })
    }

    /// Declares the next transaction on the link. Where memory runs out nothing changes.
    pub fn declare(&mut self, link: u32) -> Result<(), NoMemory>
        requires { link < self.old.links }
        ensures ok { OnOk result (self.new ≡ asking_too self.old asked_for.Declare) }
        ensures err { OnErr result (self.new ≡ self.old) }
    {
        self.requests.reserve(1)?;
        let call = send_declare(self.alloc, &mut self.ends[link as usize])?;
        self.requests.push_reserved(Some(Request { link, call }));
        Ok(())
    }

    /// Discharges the transaction with this number and id on the link. Where memory runs out
    /// nothing changes.
    pub fn discharge(
        &mut self,
        number: u32,
        link: u32,
        id: TransactionId,
        rollback: bool,
    ) -> Result<(), NoMemory>
        requires number { number < length self.old.asked }
        requires link { link < self.old.links }
        ensures ok { OnOk result
            (self.new ≡ with_asked self.old number (Some (asked_by rollback))) }
        ensures err { OnErr result (self.new ≡ self.old) }
    {
        let end = &mut self.ends[link as usize];
        let call = send_discharge(self.alloc, end, id, rollback)?;
        set_request(&mut self.requests, number as usize, Request { link, call });
        Ok(())
    }

    /// The transaction hears the answer to its request; `None` exactly where it awaits no answer to
    /// such a one. Where memory runs out nothing changes.
    pub fn hear(
        &mut self,
        number: u32,
        asked: Asked,
        state: ReplyState,
    ) -> Result<Option<Hearing>, NoMemory>
        requires { number < length self.old.asked }
        ensures ok { IfOk result (λ heard.
            HearsAnswer self.old self.new number asked state heard) }
        ensures err { OnErr result (self.new ≡ self.old) }
    {
        if !is_asked(&self.requests[number as usize], asked) {
            return Ok(None);
        }
        let answer = answer_of(self.alloc, state)?;
        let Some(request) = self.requests[number as usize].take() else {
            unreachable!();
        };
        let Request { link, call } = request;
        Ok(Some(call.hear(&mut self.ends[link as usize], answer)))
    }
}
