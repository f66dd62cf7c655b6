//! Acceptors are built field by field.

ghost use Rattle.std.specs.Prelude.{◌≡◌, Some};
ghost use Rattle.amqp_accept_links.specs.LinkAcceptors.{with_source_rule, with_target_rule};

use crate::control::ControlLinkAcceptor;
use crate::credit::CreditMode;
use crate::fields::SharedLinkAcceptorFields;
use crate::link::{LinkAcceptor, LocalEnds};
use crate::modes::{SupportedReceiverSettleModes, SupportedSenderSettleModes};
use crate::receiver::LocalReceiverLinkAcceptor;
use crate::sender::LocalSenderLinkAcceptor;
use amqp_txn_types::{Fields, ReceiverSettleMode, SenderSettleMode, Symbols, Target};

/// An acceptor as two parts: what its links have in common, and what it gives the local ends.
pub trait Acceptor {
    ghost use Rattle.amqp_accept_links.specs.declared.fields.SharedLinkAcceptorFields.{SharedLinkAcceptorFields};

    /// What it gives the local ends.
    type Ends;

    /// The acceptor of these parts.
    ghost of_parts: { SharedLinkAcceptorFields → Self.Ends → Self };

    /// The acceptor of these parts.
    fn of_parts(shared: SharedLinkAcceptorFields, ends: Self::Ends) -> Self
        ensures { result ≡ of_parts shared ends };
}

/// An acceptor that is built field by field. Each setter is named like its field, and gives the
/// builder with that field alone changed.
#[derive(Drop)]
pub struct Builder<A: Acceptor> {
    /// What all its links have in common.
    pub shared: SharedLinkAcceptorFields,
    /// What it gives the local ends.
    pub ends: A::Ends,
}

impl<A: Acceptor> Builder<A> {
    /// Which settle modes of a link's sender are supported.
    pub fn supported_sender_settle_modes(mut self, modes: SupportedSenderSettleModes) -> Self
        ensures { result ≡ record self {
          shared = record self.shared {
            supported_snd_settle_modes = modes;
          };
        } }
    {
        self.shared.supported_snd_settle_modes = modes;
        self
    }

    /// The settle mode of a link's sender in place of one that isn't supported.
    pub fn fallback_snd_settle_mode(mut self, mode: SenderSettleMode) -> Self
        ensures { result ≡ record self {
          shared = record self.shared {
            fallback_snd_settle_mode = mode;
          };
        } }
    {
        self.shared.fallback_snd_settle_mode = mode;
        self
    }

    /// Which settle modes of a link's receiver are supported.
    pub fn supported_receiver_settle_modes(mut self, modes: SupportedReceiverSettleModes) -> Self
        ensures { result ≡ record self {
          shared = record self.shared {
            supported_rcv_settle_modes = modes;
          };
        } }
    {
        self.shared.supported_rcv_settle_modes = modes;
        self
    }

    /// The settle mode of a link's receiver in place of one that isn't supported.
    pub fn fallback_rcv_settle_mode(mut self, mode: ReceiverSettleMode) -> Self
        ensures { result ≡ record self {
          shared = record self.shared {
            fallback_rcv_settle_mode = mode;
          };
        } }
    {
        self.shared.fallback_rcv_settle_mode = mode;
        self
    }

    /// The most octets that a message may have; 0 for no limit.
    pub fn max_message_size(mut self, size: u64) -> Self
        ensures { result ≡ record self {
          shared = record self.shared {
            max_message_size = Some size;
          };
        } }
    {
        self.shared.max_message_size = Some(size);
        self
    }

    /// What this side can do.
    pub fn offered_capabilities(mut self, capabilities: Symbols) -> Self
        ensures { result ≡ record self {
          shared = record self.shared {
            offered_capabilities = Some capabilities;
          };
        } }
    {
        self.shared.offered_capabilities = Some(capabilities);
        self
    }

    /// What it wants the peer to do.
    pub fn desired_capabilities(mut self, capabilities: Symbols) -> Self
        ensures { result ≡ record self {
          shared = record self.shared {
            desired_capabilities = Some capabilities;
          };
        } }
    {
        self.shared.desired_capabilities = Some(capabilities);
        self
    }

    /// Other properties of a link.
    pub fn properties(mut self, properties: Fields) -> Self
        ensures { result ≡ record self {
          shared = record self.shared {
            properties = Some properties;
          };
        } }
    {
        self.shared.properties = Some(properties);
        self
    }

    /// How many frames of a link may wait, for link bodies that queue frames.
    pub fn buffer_size(mut self, size: usize) -> Self
        ensures { result ≡ record self {
          shared = record self.shared {
            buffer_size = size;
          };
        } }
    {
        self.shared.buffer_size = size;
        self
    }

    /// The acceptor.
    pub fn build(self) -> A
        ensures { result ≡ A.of_parts self.shared self.ends }
    {
        A::of_parts(self.shared, self.ends)
    }
}

impl Builder<ControlLinkAcceptor> {
    /// How control links grant credit.
    pub fn credit_mode(mut self, mode: CreditMode) -> Self
        ensures { result ≡ record self {
          ends = record self.ends {
            credit_mode = mode;
          };
        } }
    {
        self.ends.credit_mode = mode;
        self
    }

    /// What their coordinator can do.
    pub fn target_capabilities(mut self, capabilities: Symbols) -> Self
        ensures { result ≡ record self {
          ends = record self.ends {
            target_capabilities = Some capabilities;
          };
        } }
    {
        self.ends.target_capabilities = Some(capabilities);
        self
    }

    /// Whether link bodies accept all deliveries by themselves.
    pub fn auto_accept(mut self, accept: bool) -> Self
        ensures { result ≡ record self {
          ends = record self.ends {
            auto_accept = accept;
          };
        } }
    {
        self.ends.auto_accept = accept;
        self
    }

    /// Whether link bodies verify the peer's source.
    pub fn verify_incoming_source(mut self, verify: bool) -> Self
        ensures { result ≡ record self {
          ends = record self.ends {
            verify_incoming_source = verify;
          };
        } }
    {
        self.ends.verify_incoming_source = verify;
        self
    }

    /// Whether link bodies verify the peer's target.
    pub fn verify_incoming_target(mut self, verify: bool) -> Self
        ensures { result ≡ record self {
          ends = record self.ends {
            verify_incoming_target = verify;
          };
        } }
    {
        self.ends.verify_incoming_target = verify;
        self
    }
}

impl<FS, FT> Builder<LinkAcceptor<FS, FT>> {
    /// The delivery count that local senders begin with.
    pub fn initial_delivery_count(mut self, count: u32) -> Self
        ensures { result ≡ record self {
          ends = record self.ends {
            sender = record self.ends.sender { initial_delivery_count = count };
          };
        } }
    {
        self.ends.sender.initial_delivery_count = count;
        self
    }

    /// What their source can do.
    pub fn source_capabilities(mut self, capabilities: Symbols) -> Self
        ensures { result ≡ record self {
          ends = record self.ends {
            sender = record self.ends.sender { source_capabilities = Some capabilities };
          };
        } }
    {
        self.ends.sender.source_capabilities = Some(capabilities);
        self
    }

    /// How local receivers grant credit.
    pub fn credit_mode(mut self, mode: CreditMode) -> Self
        ensures { result ≡ record self {
          ends = record self.ends {
            receiver = record self.ends.receiver { credit_mode = mode };
          };
        } }
    {
        self.ends.receiver.credit_mode = mode;
        self
    }

    /// What their target can do.
    pub fn target_capabilities(mut self, capabilities: Symbols) -> Self
        ensures { result ≡ record self {
          ends = record self.ends {
            receiver = record self.ends.receiver { target_capabilities = Some capabilities };
          };
        } }
    {
        self.ends.receiver.target_capabilities = Some(capabilities);
        self
    }

    /// Whether link bodies accept all deliveries by themselves.
    pub fn auto_accept(mut self, accept: bool) -> Self
        ensures { result ≡ record self {
          ends = record self.ends {
            receiver = record self.ends.receiver { auto_accept = accept };
          };
        } }
    {
        self.ends.receiver.auto_accept = accept;
        self
    }

    /// Whether link bodies of both roles verify the peer's source.
    pub fn verify_incoming_source(mut self, verify: bool) -> Self
        ensures { result ≡ record self {
          ends = record {
            sender = record self.ends.sender { verify_incoming_source = verify };
            receiver = record self.ends.receiver { verify_incoming_source = verify };
          };
        } }
    {
        self.ends.sender.verify_incoming_source = verify;
        self.ends.receiver.verify_incoming_source = verify;
        self
    }

    /// Whether link bodies of both roles verify the peer's target.
    pub fn verify_incoming_target(mut self, verify: bool) -> Self
        ensures { result ≡ record self {
          ends = record {
            sender = record self.ends.sender { verify_incoming_target = verify };
            receiver = record self.ends.receiver { verify_incoming_target = verify };
          };
        } }
    {
        self.ends.sender.verify_incoming_target = verify;
        self.ends.receiver.verify_incoming_target = verify;
        self
    }

    /// The rule of local senders for a source that the peer wants to be made.
    pub fn on_dynamic_source<F>(self, rule: F) -> Builder<LinkAcceptor<F, FT>>
    where
        FS: Drop,
        ensures shared { result.shared ≡ self.shared }
        ensures sender { result.ends.sender ≡ with_source_rule self.ends.sender rule }
        ensures receiver { result.ends.receiver ≡ self.ends.receiver }
    {
        let Builder { shared, ends } = self;
        let LocalEnds { sender, receiver } = ends;
        let sender = with_source_rule(sender, rule);
        Builder {
            shared,
            ends: LocalEnds { sender, receiver },
        }
    }

    /// The rule of local receivers for a target that the peer wants to be made.
    pub fn on_dynamic_target<F>(self, rule: F) -> Builder<LinkAcceptor<FS, F>>
    where
        FT: Drop,
        ensures shared { result.shared ≡ self.shared }
        ensures sender { result.ends.sender ≡ self.ends.sender }
        ensures receiver { result.ends.receiver ≡ with_target_rule self.ends.receiver rule }
    {
        let Builder { shared, ends } = self;
        let LocalEnds { sender, receiver } = ends;
        let receiver = with_target_rule(receiver, rule);
        Builder {
            shared,
            ends: LocalEnds { sender, receiver },
        }
    }
}

/// The sender with another rule for dynamic sources.
fn with_source_rule<F: Drop, G>(
    sender: LocalSenderLinkAcceptor<F>,
    rule: G,
) -> LocalSenderLinkAcceptor<G>
    ensures { result ≡ with_source_rule sender rule }
{
    LocalSenderLinkAcceptor {
        initial_delivery_count: sender.initial_delivery_count,
        source_capabilities: sender.source_capabilities,
        on_dynamic_source: rule,
        verify_incoming_source: sender.verify_incoming_source,
        verify_incoming_target: sender.verify_incoming_target,
    }
}

/// The receiver with another rule for dynamic targets.
fn with_target_rule<F: Drop, G>(
    receiver: LocalReceiverLinkAcceptor<Target, F>,
    rule: G,
) -> LocalReceiverLinkAcceptor<Target, G>
    ensures { result ≡ with_target_rule receiver rule }
{
    LocalReceiverLinkAcceptor {
        credit_mode: receiver.credit_mode,
        target_capabilities: receiver.target_capabilities,
        auto_accept: receiver.auto_accept,
        on_dynamic_target: rule,
        verify_incoming_source: receiver.verify_incoming_source,
        verify_incoming_target: receiver.verify_incoming_target,
        target: receiver.target,
    }
}
