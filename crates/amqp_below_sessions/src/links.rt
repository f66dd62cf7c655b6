//! The links of a session, by name, by input handle and by output handle.

ghost use Rattle.std.specs.Prelude.{◌≡◌, ◌<◌, ◌^◌, [], Some, None, is_some, option_copied, IfSome, IsSome, MatchOption, OnOk, OnErr, IfOk};
ghost use Rattle.std.specs.Bool.{OnTrue};
ghost use Rattle.std.specs.BTreeMap.{get as entry_of};
ghost use Rattle.amqp_txn_types.specs.declared.small.InputHandle.{InputHandle};
ghost use Rattle.amqp_below_sessions.specs.Links.{Finds, IsWaiting, LinkTable, Sets, attached, input_order, link_at, mapped_link, output_mapped, output_named, settled_as, waiting_link, with_flow, with_transfer};
ghost use Rattle.amqp_txn_types.specs.declared.text.Text.{Text};
ghost use Rattle.amqp_below_sessions.specs.Agreement.{found_without, input_in, name_in};

use crate::relay::Relay;
use amqp_txn_types::{
    InputHandle, LinkFlow, NoMemory, OutputHandle, ReceiverSettleMode, Role, Text, TryClone,
};
use slab::Slab;
use std::alloc::Global;
use std::collections::BTreeMap;
use std::marker::Model;

/// A link of a session.
#[derive(Debug, Drop)]
pub struct Link {
    /// The name that the session knows it by.
    pub name: Text,
    /// The peer's handle for it, once it is attached.
    pub input: Option<InputHandle>,
    /// What is passed on to it.
    pub relay: Relay,
}

/// The links of a session. A contract sees them by output handle alone: that the links by name and
/// by input handle are the same ones is an invariant of the type.
#[derive(Drop)]
pub struct Links {
    slots: Slab<Link>,
    names: BTreeMap<Text, OutputHandle>,
    inputs: BTreeMap<InputHandle, OutputHandle>,
}

impl Model for Links {
    ghost use Rattle.std.specs.Ordering.{nat_cmp};
    ghost use Rattle.std.specs.Cmp.Lexicographic.{slice_cmp};
    ghost use Rattle.std.specs.BTreeMap.{get as entry_of};
    ghost use Rattle.amqp_below_sessions.specs.Links.{LinkTable, input_order};
    ghost use Rattle.amqp_below_sessions.specs.Agreement.{Agree};

    ghost Value = { LinkTable };

    ghost view = { λ l. record { slots = l.slots.slots; next = l.slots.vacant_key } };

    ghost invariant = { λ l.
        Agree l.slots.slots (λ name. entry_of (slice_cmp nat_cmp) l.names name)
        (λ input. entry_of input_order l.inputs input) };
}

impl Links {
    /// No links. It takes no memory.
    pub fn new(alloc: Global) -> Links
        ensures slots { result.slots ≡ [] }
        ensures next { result.next ≡ 0 }
    {
        Links {
            slots: Slab::new(alloc),
            names: BTreeMap::new(alloc),
            inputs: BTreeMap::new(alloc),
        }
    }

    /// The link of a name, with its output handle.
    pub fn find_named(&self, name: &Text) -> Option<(OutputHandle, &Link)>
        ensures found { MatchOption result (output_named self.now.slots name.now ≡ None)
            (λ found. Finds self.now.slots (output_named self.now.slots name.now)
            found.0 found.1.now) }
        ensures name { IfSome result (λ found. found.1.now.name ≡ name.now) }
    {
        let Some(output) = self.names.get(name).copied() else {
            return None;
        };
        Some((output, self.slots.get(output.0 as usize).unwrap()))
    }

    /// The link that an input handle is mapped to, with its output handle.
    pub fn find_mapped(&self, input: InputHandle) -> Option<(OutputHandle, &Link)>
        ensures found { MatchOption result (output_mapped self.now.slots input ≡ None)
            (λ found. Finds self.now.slots (output_mapped self.now.slots input)
            found.0 found.1.now) }
        ensures input { IfSome result (λ found. found.1.now.input ≡ Some input) }
    {
        let Some(output) = self.inputs.get(&input).copied() else {
            return None;
        };
        Some((output, self.slots.get(output.0 as usize).unwrap()))
    }

    /// The link under an output handle.
    pub fn link(&self, output: OutputHandle) -> Option<&Link>
        ensures { option_copied result ≡ link_at self.now.slots output.0 }
    {
        self.slots.get(output.0 as usize)
    }

    /// The number of the output handle that the next link gets.
    pub fn next(&self) -> usize
        ensures { result ≡ self.now.next }
    {
        self.slots.vacant_key()
    }

    /// Places a link that waits for the peer's attach. The only error is out of memory.
    ///
    /// # Requires
    ///
    /// No link has the name, and the next output handle fits into 32 bits.
    pub fn place(&mut self, name: Text, relay: Relay) -> Result<OutputHandle, NoMemory>
        requires unknown { output_named self.old.slots name ≡ None }
        requires fits { self.old.next < 2 ^ 32 }
        ensures output { IfOk result (λ output. output.0 ≡ self.old.next) }
        ensures free { OnOk result (link_at self.old.slots self.old.next ≡ None) }
        ensures placed { OnOk result
            (Sets self.old.slots self.new.slots self.old.next (Some (waiting_link name relay))) }
        ensures named { OnOk result (output_named self.new.slots name ≡ Some self.old.next) }
        ensures err { OnErr result (self.new ≡ self.old) }
    {
        let copy = name.try_clone()?;
        self.slots.reserve(1)?;
        let output = OutputHandle(self.slots.vacant_key() as u32);
        let Ok(_) = self.names.insert(copy, output) else {
            return Err(NoMemory);
        };
        self.slots.insert_reserved(Link {
            name,
            input: None,
            relay,
        });
        Ok(output)
    }

    /// Places a link that is attached. The only error is out of memory.
    ///
    /// # Requires
    ///
    /// No link has the name or the input handle, and the next output handle fits into 32 bits.
    pub fn place_mapped(
        &mut self,
        name: Text,
        relay: Relay,
        input: InputHandle,
    ) -> Result<OutputHandle, NoMemory>
        requires unknown { output_named self.old.slots name ≡ None }
        requires unmapped { output_mapped self.old.slots input ≡ None }
        requires fits { self.old.next < 2 ^ 32 }
        ensures output { IfOk result (λ output. output.0 ≡ self.old.next) }
        ensures free { OnOk result (link_at self.old.slots self.old.next ≡ None) }
        ensures placed { OnOk result
            (Sets self.old.slots self.new.slots self.old.next
            (Some (mapped_link name relay input))) }
        ensures named { OnOk result (output_named self.new.slots name ≡ Some self.old.next) }
        ensures mapped { OnOk result (output_mapped self.new.slots input ≡ Some self.old.next) }
        ensures err { OnErr result (self.new ≡ self.old) }
    {
        let copy = name.try_clone()?;
        self.slots.reserve(1)?;
        let output = OutputHandle(self.slots.vacant_key() as u32);
        let Ok(_) = self.inputs.insert(input, output) else {
            return Err(NoMemory);
        };
        let Ok(_) = self.names.insert(copy, output) else {
            let _ = self.inputs.remove(&input);
            return Err(NoMemory);
        };
        self.slots.insert_reserved(Link {
            name,
            input: Some(input),
            relay,
        });
        Ok(output)
    }

    /// Maps an input handle to a link that waits for it. The only error is out of memory.
    ///
    /// # Requires
    ///
    /// The output handle has a link, which waits for the peer's attach, and no link has the input
    /// handle.
    pub fn attach(
        &mut self,
        output: OutputHandle,
        input: InputHandle,
        mode: ReceiverSettleMode,
    ) -> Result<(), NoMemory>
        requires waiting { IsWaiting (link_at self.old.slots output.0) }
        requires unmapped { output_mapped self.old.slots input ≡ None }
        ensures attached { OnOk result
            (Sets self.old.slots self.new.slots output.0
            (attached input mode (link_at self.old.slots output.0))) }
        ensures named { OnOk result
            ((name : Text) → output_named self.new.slots name ≡ output_named self.old.slots name) }
        ensures mapped { OnOk result (output_mapped self.new.slots input ≡ Some output.0) }
        ensures next { self.new.next ≡ self.old.next }
        ensures err { OnErr result (self.new ≡ self.old) }
    {
        let Ok(_) = self.inputs.insert(input, output) else {
            return Err(NoMemory);
        };
        let link = self.slots.get_mut(output.0 as usize).unwrap();
        link.input = Some(input);
        link.relay.rcv_settle_mode = settled_as(link.relay.role, link.relay.rcv_settle_mode, mode);
        Ok(())
    }

    /// Frees an output handle, with its name and the input handle that is mapped to it; false where
    /// it has no link.
    pub fn free(&mut self, output: OutputHandle) -> bool
        ensures found { result ≡ is_some (link_at self.old.slots output.0) }
        ensures freed { Sets self.old.slots self.new.slots output.0 None }
        ensures unnamed { (name : Text) → name_in (link_at self.old.slots output.0) ≡ Some name
            → output_named self.new.slots name ≡ None }
        ensures unmapped { (input : InputHandle) → input_in (link_at self.old.slots output.0) ≡ Some input
            → output_mapped self.new.slots input ≡ None }
        ensures next { OnTrue result (self.new.next ≡ output.0) }
        ensures absent { link_at self.old.slots output.0 ≡ None → self.new ≡ self.old }
    {
        let Some(link) = self.slots.try_remove(output.0 as usize) else {
            return false;
        };
        let _ = self.names.remove(&link.name);
        forget(&mut self.inputs, link.input);
        true
    }

    /// Appends a flow to what is passed on to a link. The only error is out of memory.
    ///
    /// # Requires
    ///
    /// The output handle has a link.
    pub fn append_flow(&mut self, output: OutputHandle, flow: LinkFlow) -> Result<(), NoMemory>
        requires { IsSome (link_at self.old.slots output.0) }
        ensures added { OnOk result
            (Sets self.old.slots self.new.slots output.0
            (with_flow flow (link_at self.old.slots output.0))) }
        ensures next { self.new.next ≡ self.old.next }
        ensures err { OnErr result (self.new ≡ self.old) }
    {
        let link = self.slots.get_mut(output.0 as usize).unwrap();
        link.relay.flows.append(flow)
    }

    /// Counts a transfer of a link.
    ///
    /// # Requires
    ///
    /// The output handle has a link.
    pub fn count_transfer(&mut self, output: OutputHandle)
        requires { IsSome (link_at self.old.slots output.0) }
        ensures counted { Sets self.old.slots self.new.slots output.0
            (with_transfer (link_at self.old.slots output.0)) }
        ensures next { self.new.next ≡ self.old.next }
    {
        let link = self.slots.get_mut(output.0 as usize).unwrap();
        link.relay.transfers = link.relay.transfers.saturating_add(1);
    }
}

/// When the receiver of an attached link settles: the peer of a sender says so.
fn settled_as(
    role: Role,
    kept: ReceiverSettleMode,
    attached: ReceiverSettleMode,
) -> ReceiverSettleMode
    ensures { result ≡ settled_as role kept attached }
{
    match role {
        Role::Sender => attached,
        Role::Receiver => kept,
    }
}

/// Takes an input handle out, where there is one.
fn forget(inputs: &mut BTreeMap<InputHandle, OutputHandle>, input: Option<InputHandle>)
    ensures { (q : InputHandle) → entry_of input_order inputs.new q
        ≡ found_without input q (entry_of input_order inputs.old q) }
{
    if let Some(input) = input {
        let _ = inputs.remove(&input);
    }
}
