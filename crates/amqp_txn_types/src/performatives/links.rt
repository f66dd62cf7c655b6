//! Attaches, their termini, flows of links and detaches with the standard's defaults, and what sets
//! the other fields of attaches and detaches, and the address of a terminus.

ghost use Rattle.std.specs.Prelude.{◌≡◌, Some};
ghost use Rattle.amqp_txn_types.specs.Plain.{plain_source, plain_target, plain_attach, plain_link_flow, plain_detach};

use crate::delivery::Error;
use crate::fields::Fields;
use crate::performatives::{Attach, Detach, LinkFlow, Source, Target, TargetArchetype};
use crate::small::{Handle, ReceiverSettleMode, Role, SenderSettleMode};
use crate::symbols::Symbols;
use crate::text::Text;

/// The source that names nothing. Part 3 of the standard, section 3.5.3 (source).
impl Default for Source {
    ghost is_default = { λ source. source ≡ plain_source };

    fn default() -> Self {
        Source {
            address: None,
            dynamic: false,
            dynamic_node_properties: None,
            outcomes: None,
            capabilities: None,
        }
    }
}

impl Source {
    /// Sets the node's address.
    pub fn address(mut self, address: Text) -> Self
        ensures { result ≡ record self { address = Some address } }
    {
        self.address = Some(address);
        self
    }
}

/// The target that names nothing. Part 3 of the standard, section 3.5.4 (target).
impl Default for Target {
    ghost is_default = { λ target. target ≡ plain_target };

    fn default() -> Self {
        Target {
            address: None,
            dynamic: false,
            dynamic_node_properties: None,
            capabilities: None,
        }
    }
}

impl Target {
    /// Sets the node's address.
    pub fn address(mut self, address: Text) -> Self
        ensures { result ≡ record self { address = Some address } }
    {
        self.address = Some(address);
        self
    }
}

impl Attach {
    /// The attach without termini, by which the sender may settle or not, and the receiver settles at
    /// once. One whose role is the sender's is complete only with an
    /// [`initial_delivery_count`](Attach::initial_delivery_count), which the standard asks for.
    ///
    /// Part 2 of the standard, section 2.7.3 (attach), whose defaults the modes are.
    pub fn new(name: Text, handle: Handle, role: Role) -> Self
        ensures { result ≡ plain_attach name handle role }
    {
        Attach {
            name,
            handle,
            role,
            snd_settle_mode: SenderSettleMode::default(),
            rcv_settle_mode: ReceiverSettleMode::default(),
            source: None,
            target: None,
            initial_delivery_count: None,
            max_message_size: None,
            offered_capabilities: None,
            desired_capabilities: None,
            properties: None,
        }
    }

    /// Sets when the link's sender settles.
    pub fn snd_settle_mode(mut self, snd_settle_mode: SenderSettleMode) -> Self
        ensures { result ≡ record self { snd_settle_mode = snd_settle_mode } }
    {
        self.snd_settle_mode = snd_settle_mode;
        self
    }

    /// Sets when the link's receiver settles.
    pub fn rcv_settle_mode(mut self, rcv_settle_mode: ReceiverSettleMode) -> Self
        ensures { result ≡ record self { rcv_settle_mode = rcv_settle_mode } }
    {
        self.rcv_settle_mode = rcv_settle_mode;
        self
    }

    /// Sets where the messages come from.
    pub fn source(mut self, source: Source) -> Self
        ensures { result ≡ record self { source = Some source } }
    {
        drop(self.source.replace(source));
        self
    }

    /// Sets where the messages go, or the coordinator.
    pub fn target(mut self, target: TargetArchetype) -> Self
        ensures { result ≡ record self { target = Some target } }
    {
        drop(self.target.replace(target));
        self
    }

    /// Sets the delivery count that a sender begins with.
    pub fn initial_delivery_count(mut self, initial_delivery_count: u32) -> Self
        ensures { result ≡ record self { initial_delivery_count = Some initial_delivery_count } }
    {
        self.initial_delivery_count = Some(initial_delivery_count);
        self
    }

    /// Sets the most octets that a message may have; 0 for no limit.
    pub fn max_message_size(mut self, max_message_size: u64) -> Self
        ensures { result ≡ record self { max_message_size = Some max_message_size } }
    {
        self.max_message_size = Some(max_message_size);
        self
    }

    /// Sets what the sender of this frame can do.
    pub fn offered_capabilities(mut self, offered_capabilities: Symbols) -> Self
        ensures { result ≡ record self { offered_capabilities = Some offered_capabilities } }
    {
        self.offered_capabilities = Some(offered_capabilities);
        self
    }

    /// Sets what it wants the peer to do.
    pub fn desired_capabilities(mut self, desired_capabilities: Symbols) -> Self
        ensures { result ≡ record self { desired_capabilities = Some desired_capabilities } }
    {
        self.desired_capabilities = Some(desired_capabilities);
        self
    }

    /// Sets other properties of the link.
    pub fn properties(mut self, properties: Fields) -> Self
        ensures { result ≡ record self { properties = Some properties } }
    {
        self.properties = Some(properties);
        self
    }
}

impl LinkFlow {
    /// The flow of a link that says nothing of its state.
    ///
    /// Part 2 of the standard, section 2.7.4 (flow).
    pub fn new(handle: Handle) -> Self
        ensures { result ≡ plain_link_flow handle }
    {
        LinkFlow {
            handle,
            delivery_count: None,
            link_credit: None,
            available: None,
            drain: false,
            echo: false,
            properties: None,
        }
    }
}

impl Detach {
    /// The detach without an error, after which the link can be attached again.
    ///
    /// Part 2 of the standard, section 2.7.7 (detach).
    pub fn new(handle: Handle) -> Self
        ensures { result ≡ plain_detach handle }
    {
        Detach {
            handle,
            closed: false,
            error: None,
        }
    }

    /// Sets whether the link ends for good.
    pub fn closed(mut self, closed: bool) -> Self
        ensures { result ≡ record self { closed = closed } }
    {
        self.closed = closed;
        self
    }

    /// Sets what went wrong.
    pub fn error(mut self, error: Error) -> Self
        ensures { result ≡ record self { error = Some error } }
    {
        drop(self.error.replace(error));
        self
    }
}
