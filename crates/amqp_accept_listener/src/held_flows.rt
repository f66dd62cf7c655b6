//! Flows of links that wait for the link's handle to be allocated.

ghost use Rattle.std.specs.Prelude.{◌≡◌, ◌++◌, [], None, IsSome, OnOk, IfOk};
ghost use Rattle.std.specs.BTreeMap.{get as entry_of};
ghost use Rattle.amqp_below_sessions.specs.Links.{input_order};
ghost use Rattle.amqp_txn_types.specs.declared.small.InputHandle.{InputHandle};
ghost use Rattle.amqp_accept_listener.specs.Held.{HasRoom, HasRoomFor, ListHasRoom, SameHeld, SameLists, flows_for, link_flow_in, replaying, with_flows, with_held};

use amqp_below_sessions::{Relay, link_flow};
use amqp_txn_types::{Flow, InputHandle, LinkFlow, LinkFlows, NoMemory, TryClone};
use std::alloc::Global;
use std::collections::BTreeMap;

/// A list of flows for each handle that had one.
type FlowsByHandle = BTreeMap<InputHandle, Vec<LinkFlow>>;

/// The flows that are held for each handle, in the order in which they came.
#[derive(Drop)]
pub struct HeldFlows {
    flows: FlowsByHandle,
    alloc: Global,
}

impl HeldFlows {
    /// No flows. It takes no memory.
    pub fn new(alloc: Global) -> Self
        ensures { (input : InputHandle) → flows_for result input ≡ [] }
    {
        HeldFlows {
            flows: BTreeMap::new(alloc),
            alloc,
        }
    }

    /// Room for one more flow of a handle. The only error is out of memory.
    fn make_room(&mut self, input: InputHandle) -> Result<(), NoMemory>
        ensures same { SameHeld (flows_for self.old) (flows_for self.new) }
        ensures room { OnOk result (HasRoom self.new input) }
    {
        if self.flows.contains_key(&input) {
            grow_list(&mut self.flows, input)
        } else {
            start_list(&mut self.flows, self.alloc, input)
        }
    }

    /// A copy of the part of a flow that is about one link, with room to hold it; `None` where the
    /// flow names no link. The only error is out of memory.
    pub fn prepare(&mut self, flow: &Flow) -> Result<Option<LinkFlow>, NoMemory>
        ensures same { SameHeld (flows_for self.old) (flows_for self.new) }
        ensures copy { IfOk result (λ copy. copy ≡ link_flow_in flow.now) }
        ensures room { IfOk result (HasRoomFor self.new) }
    {
        let Some(handle) = flow.handle else {
            return Ok(None);
        };
        self.make_room(InputHandle(handle.0))?;
        Ok(Some(link_flow(handle, flow.try_clone()?)))
    }

    /// Holds a flow for its handle, after those that are held for it.
    ///
    /// # Requires
    ///
    /// There is room for the flow, made by [`HeldFlows::prepare`].
    pub fn hold(&mut self, flow: Option<LinkFlow>)
        requires { HasRoomFor self.old flow }
        ensures { SameHeld (with_held flow (flows_for self.old)) (flows_for self.new) }
    {
        let Some(flow) = flow else {
            return;
        };
        if let Some(flows) = self.flows.get_mut(&InputHandle(flow.handle.0)) {
            flows.push_reserved(flow);
        }
    }

    /// Lets go the room that was made for a flow that isn't held.
    pub fn release(&mut self, flow: Option<LinkFlow>)
        ensures { SameHeld (flows_for self.old) (flows_for self.new) }
    {
        if let Some(flow) = flow {
            remove_empty(&mut self.flows, InputHandle(flow.handle.0));
        }
    }

    /// The relay with copies of the flows that are held for a handle, in the order in which they
    /// came, after its own. The only error is out of memory.
    pub fn replay(&self, input: InputHandle, mut relay: Relay) -> Result<Relay, NoMemory>
        ensures { IfOk result (λ now. now ≡ replaying (flows_for self.now input) relay) }
    {
        if let Some(flows) = self.flows.get(&input) {
            append_copies(&mut relay.flows, flows.as_slice())?;
        }
        Ok(relay)
    }

    /// Lets go what is held for a handle.
    pub fn forget(&mut self, input: InputHandle)
        ensures { SameHeld (with_flows input [] (flows_for self.old)) (flows_for self.new) }
    {
        let _ = self.flows.remove(&input);
    }
}

/// Room for one more flow in the list of a handle that has one. The only error is out of memory.
fn grow_list(flows: &mut FlowsByHandle, input: InputHandle) -> Result<(), NoMemory>
    requires { IsSome (entry_of input_order flows.old input) }
    ensures same { SameLists flows.old flows.new }
    ensures room { OnOk result (ListHasRoom (entry_of input_order flows.new input)) }
{
    if let Some(list) = flows.get_mut(&input) {
        list.reserve(1)?;
    }
    Ok(())
}

/// A list with room for one flow, for a handle that has none. The only error is out of memory.
fn start_list(flows: &mut FlowsByHandle, alloc: Global, input: InputHandle) -> Result<(), NoMemory>
    requires { entry_of input_order flows.old input ≡ None }
    ensures same { SameLists flows.old flows.new }
    ensures room { OnOk result (ListHasRoom (entry_of input_order flows.new input)) }
{
    let list = Vec::with_capacity(alloc, 1)?;
    flows.insert(input, list)?;
    Ok(())
}

/// Without the list of a handle, where that has no flows.
fn remove_empty(flows: &mut FlowsByHandle, input: InputHandle)
    ensures { SameLists flows.old flows.new }
{
    let Some(list) = flows.get(&input) else {
        return;
    };
    if let [] = list.as_slice() {
        let _ = flows.remove(&input);
    }
}

/// Appends copies of some flows, in their order. The only error is out of memory.
fn append_copies(flows: &mut LinkFlows, more: &[LinkFlow]) -> Result<(), NoMemory>
    ensures { OnOk result (flows.new ≡ flows.old ++ more.now) }
{
    for flow in more {
        flows.append(flow.try_clone()?)?;
    }
    Ok(())
}
