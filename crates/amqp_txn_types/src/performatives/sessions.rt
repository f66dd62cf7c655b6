//! Begins, flows and ends with the standard's defaults, and what sets the other fields of flows and
//! ends.

ghost use Rattle.std.specs.Prelude.{◌≡◌, Some};
ghost use Rattle.amqp_txn_types.specs.Plain.{plain_begin, plain_flow, plain_end};

use crate::delivery::Error;
use crate::fields::Fields;
use crate::performatives::{Begin, End, Flow};
use crate::small::Handle;

impl Begin {
    /// The begin of a session that this side opens: any handle, no capabilities and no properties.
    ///
    /// Part 2 of the standard, section 2.7.2 (begin). The windows are counted in transfers.
    pub fn new(next_outgoing_id: u32, incoming_window: u32, outgoing_window: u32) -> Self
        ensures { result ≡ plain_begin next_outgoing_id incoming_window outgoing_window }
    {
        Begin {
            remote_channel: None,
            next_outgoing_id,
            incoming_window,
            outgoing_window,
            handle_max: Handle::default(),
            offered_capabilities: None,
            desired_capabilities: None,
            properties: None,
        }
    }
}

impl Flow {
    /// The flow state of a session alone: no link, no echo.
    ///
    /// Part 2 of the standard, section 2.7.4 (flow). The windows are counted in transfers.
    pub fn new(incoming_window: u32, next_outgoing_id: u32, outgoing_window: u32) -> Self
        ensures { result ≡ plain_flow incoming_window next_outgoing_id outgoing_window }
    {
        Flow {
            next_incoming_id: None,
            incoming_window,
            next_outgoing_id,
            outgoing_window,
            handle: None,
            delivery_count: None,
            link_credit: None,
            available: None,
            drain: false,
            echo: false,
            properties: None,
        }
    }

    /// Sets the transfer id of the next transfer that is awaited.
    pub fn next_incoming_id(mut self, next_incoming_id: u32) -> Self
        ensures { result ≡ record self { next_incoming_id = Some next_incoming_id } }
    {
        self.next_incoming_id = Some(next_incoming_id);
        self
    }

    /// Sets the link that the flow is about.
    pub fn handle(mut self, handle: Handle) -> Self
        ensures { result ≡ record self { handle = Some handle } }
    {
        self.handle = Some(handle);
        self
    }

    /// Sets the link's delivery count.
    pub fn delivery_count(mut self, delivery_count: u32) -> Self
        ensures { result ≡ record self { delivery_count = Some delivery_count } }
    {
        self.delivery_count = Some(delivery_count);
        self
    }

    /// Sets how many more deliveries the link's receiver can take.
    pub fn link_credit(mut self, link_credit: u32) -> Self
        ensures { result ≡ record self { link_credit = Some link_credit } }
    {
        self.link_credit = Some(link_credit);
        self
    }

    /// Sets how many deliveries wait at the link's sender.
    pub fn available(mut self, available: u32) -> Self
        ensures { result ≡ record self { available = Some available } }
    {
        self.available = Some(available);
        self
    }

    /// Sets whether the sender is to use up the credit or give it up.
    pub fn drain(mut self, drain: bool) -> Self
        ensures { result ≡ record self { drain = drain } }
    {
        self.drain = drain;
        self
    }

    /// Sets whether the peer is to answer with its own flow state.
    pub fn echo(mut self, echo: bool) -> Self
        ensures { result ≡ record self { echo = echo } }
    {
        self.echo = echo;
        self
    }

    /// Sets other properties of the link's state.
    pub fn properties(mut self, properties: Fields) -> Self
        ensures { result ≡ record self { properties = Some properties } }
    {
        self.properties = Some(properties);
        self
    }
}

/// The end without an error. Part 2 of the standard, section 2.7.8 (end).
impl Default for End {
    ghost is_default = { λ end. end ≡ plain_end };

    fn default() -> Self {
        End { error: None }
    }
}

impl End {
    /// Sets why the session ends.
    pub fn error(mut self, error: Error) -> Self
        ensures { result ≡ record self { error = Some error } }
    {
        drop(self.error.replace(error));
        self
    }
}
