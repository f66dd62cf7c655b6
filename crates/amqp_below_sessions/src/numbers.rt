//! The numbers of a session: the ids and windows of its transfers.

ghost use Rattle.std.specs.Prelude.{◌≡◌};
ghost use Rattle.amqp_below_sessions.specs.Numbers.{at_first, after_begin, after_flow, counted_in, counted_out, delivery_numbered, flow_with, following, window_flow};

use amqp_txn_types::{Begin, Flow, LinkFlow};

/// The ids and windows of a session's transfers. Part 2 of the standard, section 2.5.6 (session
/// flow control). Ids go on from 2^32 - 1 with 0.
#[derive(Clone, Copy, Debug, PartialEq, Eq)]
pub struct SessionNumbers {
    /// The id of its first transfer.
    pub first_outgoing_id: u32,
    /// The id of its next transfer.
    pub next_outgoing_id: u32,
    /// The id of the peer's next transfer, once the peer told it.
    pub next_incoming_id: Option<u32>,
    /// How many transfers the peer can take.
    pub peer_incoming_window: u32,
    /// How many transfers the peer can send.
    pub peer_outgoing_window: u32,
    /// The number of its next delivery.
    pub next_delivery_id: u32,
}

impl SessionNumbers {
    /// Those of a session that begins so: nothing was sent, and the peer told nothing.
    pub fn new(begin: &Begin) -> SessionNumbers
        ensures { result ≡ at_first begin.now }
    {
        SessionNumbers {
            first_outgoing_id: begin.next_outgoing_id,
            next_outgoing_id: begin.next_outgoing_id,
            next_incoming_id: None,
            peer_incoming_window: 0,
            peer_outgoing_window: 0,
            next_delivery_id: 0,
        }
    }

    /// Notes those of the peer's begin.
    pub fn note_begin(&mut self, begin: &Begin)
        ensures { self.new ≡ after_begin self.old begin.now }
    {
        self.next_incoming_id = Some(begin.next_outgoing_id);
        self.peer_incoming_window = begin.incoming_window;
        self.peer_outgoing_window = begin.outgoing_window;
    }

    /// Notes the windows that a flow tells.
    pub fn note_flow(&mut self, flow: &Flow)
        ensures { self.new ≡ after_flow self.old flow.now }
    {
        let acknowledged = flow.next_incoming_id.unwrap_or(self.first_outgoing_id);
        let end = acknowledged.wrapping_add(flow.incoming_window);
        self.peer_incoming_window = end.wrapping_sub(self.next_outgoing_id);
        self.next_incoming_id = Some(flow.next_outgoing_id);
        self.peer_outgoing_window = flow.outgoing_window;
    }

    /// Counts a transfer that came.
    pub fn count_incoming(&mut self)
        ensures { self.new ≡ counted_in self.old }
    {
        self.next_incoming_id = following(self.next_incoming_id);
        self.peer_outgoing_window = self.peer_outgoing_window.saturating_sub(1);
    }

    /// Counts a transfer that is sent.
    pub fn count_outgoing(&mut self)
        ensures { self.new ≡ counted_out self.old }
    {
        self.next_outgoing_id = self.next_outgoing_id.wrapping_add(1);
        self.peer_incoming_window = self.peer_incoming_window.saturating_sub(1);
    }

    /// The number of a delivery that is sent.
    pub fn next_delivery(&mut self) -> u32
        ensures number { result ≡ self.old.next_delivery_id }
        ensures next { self.new ≡ delivery_numbered self.old }
    {
        let number = self.next_delivery_id;
        self.next_delivery_id = number.wrapping_add(1);
        number
    }

    /// The flow that tells the session's numbers alone.
    pub fn window_flow(&self, begin: &Begin) -> Flow
        ensures { result ≡ window_flow self.now begin.now }
    {
        Flow {
            next_incoming_id: self.next_incoming_id,
            incoming_window: begin.incoming_window,
            next_outgoing_id: self.next_outgoing_id,
            outgoing_window: begin.outgoing_window,
            handle: None,
            delivery_count: None,
            link_credit: None,
            available: None,
            drain: false,
            echo: false,
            properties: None,
        }
    }

    /// The flow that tells the session's numbers with those of a link.
    pub fn flow_with(&self, begin: &Begin, link: LinkFlow) -> Flow
        ensures { result ≡ flow_with self.now begin.now link }
    {
        Flow {
            next_incoming_id: self.next_incoming_id,
            incoming_window: begin.incoming_window,
            next_outgoing_id: self.next_outgoing_id,
            outgoing_window: begin.outgoing_window,
            handle: Some(link.handle),
            delivery_count: link.delivery_count,
            link_credit: link.link_credit,
            available: link.available,
            drain: link.drain,
            echo: link.echo,
            properties: link.properties,
        }
    }
}

/// The id after one.
fn following(id: Option<u32>) -> Option<u32>
    ensures { result ≡ following id }
{
    match id {
        None => None,
        Some(number) => Some(number.wrapping_add(1)),
    }
}
