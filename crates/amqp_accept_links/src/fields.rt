//! What all links that an acceptor accepts have in common.

use crate::modes::{SupportedReceiverSettleModes, SupportedSenderSettleModes};
use amqp_txn_types::{Fields, NoMemory, ReceiverSettleMode, SenderSettleMode, Symbols, TryClone};

/// What all links that an acceptor accepts have in common. Part 2 of the standard, section 2.7.3
/// (attach).
#[derive(Debug, Drop, PartialEq)]
pub struct SharedLinkAcceptorFields {
    /// The settle modes of a link's sender that it supports; all by default.
    pub supported_snd_settle_modes: SupportedSenderSettleModes,
    /// The mode in place of one that it doesn't support; mixed by default.
    pub fallback_snd_settle_mode: SenderSettleMode,
    /// The settle modes of a link's receiver that it supports; both by default.
    pub supported_rcv_settle_modes: SupportedReceiverSettleModes,
    /// The mode in place of one that it doesn't support; first by default.
    pub fallback_rcv_settle_mode: ReceiverSettleMode,
    /// The most octets that a message of a link may have; none by default, for no limit.
    pub max_message_size: Option<u64>,
    /// What this side can do; none by default.
    pub offered_capabilities: Option<Symbols>,
    /// What it wants the peer to do; none by default.
    pub desired_capabilities: Option<Symbols>,
    /// Other properties of a link; none by default.
    pub properties: Option<Fields>,
    /// How many frames of a link may wait; 65,535 by default. It is kept for link bodies that queue
    /// frames, and bounds nothing here.
    pub buffer_size: usize,
}

impl Default for SharedLinkAcceptorFields {
    ghost use Rattle.std.specs.Prelude.{◌≡◌};
    ghost use Rattle.amqp_accept_links.specs.Fields.{default_shared};

    ghost is_default = { λ shared. shared ≡ default_shared };

    fn default() -> Self {
        SharedLinkAcceptorFields {
            supported_snd_settle_modes: SupportedSenderSettleModes::default(),
            fallback_snd_settle_mode: SenderSettleMode::default(),
            supported_rcv_settle_modes: SupportedReceiverSettleModes::default(),
            fallback_rcv_settle_mode: ReceiverSettleMode::default(),
            max_message_size: None,
            offered_capabilities: None,
            desired_capabilities: None,
            properties: None,
            buffer_size: 65_535,
        }
    }
}

impl TryClone for SharedLinkAcceptorFields {
    fn try_clone(&self) -> Result<Self, NoMemory> {
        Ok(SharedLinkAcceptorFields {
            supported_snd_settle_modes: self.supported_snd_settle_modes,
            fallback_snd_settle_mode: self.fallback_snd_settle_mode,
            supported_rcv_settle_modes: self.supported_rcv_settle_modes,
            fallback_rcv_settle_mode: self.fallback_rcv_settle_mode,
            max_message_size: self.max_message_size,
            offered_capabilities: self.offered_capabilities.try_clone()?,
            desired_capabilities: self.desired_capabilities.try_clone()?,
            properties: self.properties.try_clone()?,
            buffer_size: self.buffer_size,
        })
    }
}

impl SharedLinkAcceptorFields {
    ghost use Rattle.std.specs.Prelude.{◌≡◌};
    ghost use Rattle.amqp_accept_links.specs.Fields.{receiver_mode_for, sender_mode_for};

    /// The settle mode of a link's sender for the one that the peer asks for: that one where it is
    /// supported, else the fallback.
    pub fn sender_mode_for(&self, mode: SenderSettleMode) -> SenderSettleMode
        ensures { result ≡ sender_mode_for self.now mode }
    {
        if self.supported_snd_settle_modes.supports(&mode) {
            mode
        } else {
            self.fallback_snd_settle_mode
        }
    }

    /// The settle mode of a link's receiver for the one that the peer asks for: that one where it
    /// is supported, else the fallback.
    pub fn receiver_mode_for(&self, mode: ReceiverSettleMode) -> ReceiverSettleMode
        ensures { result ≡ receiver_mode_for self.now mode }
    {
        if self.supported_rcv_settle_modes.supports(&mode) {
            mode
        } else {
            self.fallback_rcv_settle_mode
        }
    }
}
