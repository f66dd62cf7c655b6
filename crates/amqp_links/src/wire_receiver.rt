//! A receiving end that keeps what was put.

ghost use Rattle.std.specs.Prelude.{◌≡◌, ◌≤◌, [], None, IfOk, IfErr, OnOk, OnErr};
ghost use Rattle.amqp_links.specs.declared.errors.IllegalLinkStateError.TheVariants as link_errors;
ghost use Rattle.amqp_links.specs.declared.messages.ReceiverMessage.TheVariants as messages;
ghost use Rattle.amqp_txn_types.specs.Calls.{is_failing};
ghost use Rattle.amqp_links.specs.Calls.{FailsAsListed, FailsOnlyAsListed};
ghost use Rattle.amqp_links.specs.Receiving.{Disposes, Receives, SetsCredit, SendsFlow, Inserts, Removes, included, inserted, removed};
ghost use Rattle.amqp_links.specs.ReceiverWire.{ReceiverWire, receiver_tells, after_put, received, after_credit, delivered, with_failing, with_properties, with_put, DisposesOnWire, SetsCreditOnWire, SendsFlowOnWire};

use crate::delivery::{Delivery, DeliveryInfo};
use crate::errors::{
    DispositionError, FlowError, IllegalLinkStateError, LinkStateError, RecvError,
};
use crate::messages::{ReceiverMessage, ReceiverMessages};
use crate::poll::Poll;
use crate::receiver::ReceiverLink;
use amqp_txn_types::{
    CallNumbers, Calls, DeliveryState, Fields, LinkEnd, NoMemory, Symbol, TryClone, Value,
};
use std::alloc::Global;
use std::collections::VecDeque;
use std::marker::Model;

/// A receiving end over which nothing travels: it keeps what was put for its owner to read, and
/// gives the deliveries that its owner fills in.
///
/// Its calls of [`ReceiverLink`] that may answer another error than out of memory are numbered
/// together from 1. A call whose number is in the list of failing calls fails with `IllegalState`,
/// and changes nothing but the counts of calls and faults. Any other fails only where memory runs
/// out.
#[derive(Drop)]
pub struct WireReceiver {
    end: LinkEnd,
    put: ReceiverMessages,
    deliveries: VecDeque<Delivery>,
    credit: u32,
    properties: Option<Fields>,
    calls: Calls,
    alloc: Global,
}

impl Model for WireReceiver {
    ghost use Rattle.amqp_links.specs.Receiving.{HasDistinctKeys};
    ghost use Rattle.amqp_links.specs.ReceiverWire.{ReceiverWire};

    ghost Value = { ReceiverWire };

    ghost view = { λ w. record {
      end = w.end;
      put = w.put;
      deliveries = w.deliveries.items;
      credit = w.credit;
      properties = w.properties;
      calls = w.calls;
    } };

    ghost invariant = { λ w. HasDistinctKeys w.properties };
}

impl WireReceiver {
    /// A wire on which nothing was put and nothing waits, with no credit and no map of properties,
    /// and of whose calls none is to fail.
    pub fn new(alloc: Global, end: LinkEnd) -> Self
        ensures end { result.end ≡ end }
        ensures put { result.put ≡ [] }
        ensures deliveries { result.deliveries ≡ [] }
        ensures credit { result.credit ≡ 0 }
        ensures properties { result.properties ≡ None }
        ensures failing { result.calls.failing ≡ [] }
        ensures made { result.calls.made ≡ 0 }
        ensures faults { result.calls.faults ≡ 0 }
    {
        WireReceiver {
            end,
            put: ReceiverMessages::new(alloc),
            deliveries: VecDeque::new(alloc),
            credit: 0,
            properties: None,
            calls: Calls::new(CallNumbers::new(alloc)),
            alloc,
        }
    }

    /// What this end knows of its link.
    pub fn end(&self) -> &LinkEnd
        ensures { result.now ≡ self.now.end }
    {
        &self.end
    }

    /// What was put, in order.
    pub fn put(&self) -> &ReceiverMessages
        ensures { result.now ≡ self.now.put }
    {
        &self.put
    }

    /// How many deliveries are wanted, as `set_credit` said last; 0 before.
    pub fn credit(&self) -> u32
        ensures { result ≡ self.now.credit }
    {
        self.credit
    }

    /// The numbers of the calls that are to fail.
    pub fn failing(&self) -> &CallNumbers
        ensures { result.now ≡ self.now.calls.failing }
    {
        &self.calls.failing
    }

    /// Sets the numbers of the calls that are to fail. The count of calls goes on.
    pub fn set_failing(&mut self, failing: CallNumbers)
        ensures { self.new ≡ with_failing self.old failing }
    {
        self.calls.failing = failing;
    }

    /// Fills in a delivery, to be given after those that wait. Where memory runs out it comes back,
    /// and the wire is as it was.
    pub fn deliver(&mut self, delivery: Delivery) -> Result<(), (Delivery, NoMemory)>
        ensures ok { OnOk result (self.new ≡ delivered self.old delivery) }
        ensures err { IfErr result (λ unkept. (unkept.0 ≡ delivery) × (self.new ≡ self.old)) }
    {
        match self.deliveries.push_back(delivery) {
            Ok(()) => Ok(()),
            Err(unkept) => Err((unkept.value, NoMemory)),
        }
    }

    /// Fills in a delivery, to be given after those that wait.
    ///
    /// # Errors
    ///
    /// Returns [`NoMemory`] where memory runs out; the wire is as it was then.
    pub fn append_delivery(&mut self, delivery: Delivery) -> Result<(), NoMemory>
        ensures ok { OnOk result (self.new ≡ delivered self.old delivery) }
        ensures err { OnErr result (self.new ≡ self.old) }
    {
        match self.deliver(delivery) {
            Ok(()) => Ok(()),
            Err((_, error)) => Err(error),
        }
    }

    /// Puts a message, in a call that was counted. Out of memory counts as a fault.
    fn put_message(&mut self, message: ReceiverMessage) -> Result<(), IllegalLinkStateError>
        ensures fails { OnErr result (result ≡ Err link_errors.NoMemory) }
        ensures wire { self.new ≡ with_put self.old message result }
        ensures later { self.old.calls.faults ≤ self.new.calls.faults }
    {
        match self.put.push(message) {
            Ok(()) => Ok(()),
            Err(unkept) => {
                drop(unkept);
                self.calls.fail(IllegalLinkStateError::NoMemory)
            }
        }
    }

    /// The properties, where a flow includes them.
    fn included_properties(&self, include: bool) -> Result<Option<Fields>, NoMemory>
        ensures { IfOk result (λ copy. copy ≡ included include self.now.properties) }
    {
        if include {
            self.properties.try_clone()
        } else {
            Ok(None)
        }
    }
}

/// Puts the value under the key, in a new map where there is none.
fn insert_into(
    properties: &mut Option<Fields>,
    alloc: Global,
    key: Symbol,
    value: Value,
) -> Result<(), NoMemory>
    ensures { properties.new ≡ inserted properties.old key value result }
{
    let inserted = match properties {
        Some(fields) => fields.insert(key, value),
        None => {
            let mut fields = Fields::new(alloc);
            let inserted = fields.insert(key, value);
            if inserted.is_ok() {
                *properties = Some(fields);
            }
            inserted
        }
    };
    match inserted {
        Ok(()) => Ok(()),
        Err((_, error)) => Err(error),
    }
}

/// Takes the key and its value out, where there is a map.
fn remove_from(properties: &mut Option<Fields>, key: &Symbol)
    ensures { properties.new ≡ removed properties.old key.now }
{
    if let Some(fields) = properties {
        fields.remove(key);
    }
}

impl ReceiverLink for WireReceiver {
    ghost use Rattle.std.specs.Prelude.{◌≡◌};

    ghost told = { receiver_tells };

    ghost dispose_gives = { DisposesOnWire };

    ghost recv_gives = { λ old new result. new ≡ received old result };

    ghost credit_gives = { SetsCreditOnWire };

    ghost flow_gives = { SendsFlowOnWire };

    ghost insert_gives = { λ old new key value result.
        new ≡ with_properties old (inserted old.properties key value result) };

    ghost remove_gives = { λ old new key.
        new ≡ with_properties old (removed old.properties key) };

    fn dispose(
        &mut self,
        delivery: &DeliveryInfo,
        settled: Option<bool>,
        state: DeliveryState,
    ) -> Result<(), DispositionError>
        ensures told { Disposes (receiver_tells self.old) (receiver_tells self.new)
            delivery.now settled state result }
        ensures fails { FailsAsListed (is_failing self.old.calls)
            link_errors.IllegalState link_errors.NoMemory result }
        ensures wire { self.new
            ≡ after_put self.old (messages.Disposition delivery.now settled state) result }
    {
        if self.calls.begin() {
            drop(state);
            return self.calls.fail(IllegalLinkStateError::IllegalState);
        }
        let Ok(copy) = delivery.try_clone() else {
            drop(state);
            return self.calls.fail(IllegalLinkStateError::NoMemory);
        };
        self.put_message(ReceiverMessage::Disposition {
            delivery: copy,
            settled,
            state,
        })
    }

    fn recv(&mut self) -> Poll<Result<Delivery, RecvError>>
        ensures told { Receives (receiver_tells self.old) (receiver_tells self.new) result }
        ensures wire { self.new ≡ received self.old result }
    {
        if self.calls.begin() {
            let error = RecvError::LinkStateError(LinkStateError::IllegalState);
            return Poll::Ready(self.calls.fail(error));
        }
        match self.deliveries.pop_front() {
            Some(delivery) => Poll::Ready(Ok(delivery)),
            None => Poll::Pending,
        }
    }

    fn set_credit(&mut self, credit: u32) -> Result<(), FlowError>
        ensures told { SetsCredit (receiver_tells self.old) (receiver_tells self.new) result }
        ensures fails { FailsOnlyAsListed (is_failing self.old.calls)
            link_errors.IllegalState result }
        ensures wire { self.new ≡ after_credit self.old credit result }
    {
        if self.calls.begin() {
            return self.calls.fail(IllegalLinkStateError::IllegalState);
        }
        self.credit = credit;
        Ok(())
    }

    fn send_flow(
        &mut self,
        credit: Option<u32>,
        drain: Option<bool>,
        echo: bool,
        include_properties: bool,
    ) -> Result<(), FlowError>
        ensures told { SendsFlow (receiver_tells self.old) (receiver_tells self.new)
            credit drain echo include_properties result }
        ensures fails { FailsAsListed (is_failing self.old.calls)
            link_errors.IllegalState link_errors.NoMemory result }
        ensures wire { let properties = included include_properties self.old.properties in
            self.new ≡ after_put self.old (messages.Flow credit drain echo properties) result }
    {
        if self.calls.begin() {
            return self.calls.fail(IllegalLinkStateError::IllegalState);
        }
        let Ok(properties) = self.included_properties(include_properties) else {
            return self.calls.fail(IllegalLinkStateError::NoMemory);
        };
        self.put_message(ReceiverMessage::Flow {
            credit,
            drain,
            echo,
            properties,
        })
    }

    fn properties(&self) -> Option<&Fields> {
        self.properties.as_ref()
    }

    fn insert_property(&mut self, key: Symbol, value: Value) -> Result<(), NoMemory>
        ensures told { Inserts (receiver_tells self.old) (receiver_tells self.new)
            key value result }
        ensures wire { self.new
            ≡ with_properties self.old (inserted self.old.properties key value result) }
    {
        insert_into(&mut self.properties, self.alloc, key, value)
    }

    fn remove_property(&mut self, key: &Symbol)
        ensures told { Removes (receiver_tells self.old) (receiver_tells self.new) key.now }
        ensures wire { self.new ≡ with_properties self.old (removed self.old.properties key.now) }
    {
        remove_from(&mut self.properties, key);
    }
}
