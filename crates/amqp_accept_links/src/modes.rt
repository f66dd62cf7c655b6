//! The settle modes that an acceptor supports.

ghost use Rattle.std.specs.Prelude.{◌≡◌};
ghost use Rattle.amqp_accept_links.specs.Modes.{supports_receiver, supports_sender};

use amqp_txn_types::{ReceiverSettleMode, SenderSettleMode};

/// The settle modes of a link's sender that an acceptor supports. Part 2 of the standard, section
/// 2.8.2 (sender settle mode).
#[derive(Clone, Copy, Debug, PartialEq, Eq)]
pub enum SupportedSenderSettleModes {
    /// Unsettled alone.
    Unsettled,
    /// Settled alone.
    Settled,
    /// Mixed alone.
    Mixed,
    /// Unsettled and settled.
    UnsettledAndSettled,
    /// Unsettled and mixed.
    UnsettledAndMixed,
    /// Settled and mixed.
    SettledAndMixed,
    /// All three; the default.
    All,
}

impl Default for SupportedSenderSettleModes {
    ghost use Rattle.amqp_accept_links.specs.declared.modes.SupportedSenderSettleModes.TheVariants as sets;

    ghost is_default = { λ supported. supported ≡ sets.All };

    fn default() -> Self {
        SupportedSenderSettleModes::All
    }
}

impl SupportedSenderSettleModes {
    /// Whether the mode is one of the set.
    pub fn supports(&self, mode: &SenderSettleMode) -> bool
        ensures { result ≡ supports_sender self.now mode.now }
    {
        match mode {
            SenderSettleMode::Unsettled => matches!(
                self,
                Self::Unsettled | Self::UnsettledAndSettled | Self::UnsettledAndMixed | Self::All
            ),
            SenderSettleMode::Settled => matches!(
                self,
                Self::Settled | Self::UnsettledAndSettled | Self::SettledAndMixed | Self::All
            ),
            SenderSettleMode::Mixed => matches!(
                self,
                Self::Mixed | Self::UnsettledAndMixed | Self::SettledAndMixed | Self::All
            ),
        }
    }
}

/// The settle modes of a link's receiver that an acceptor supports. Part 2 of the standard, section
/// 2.8.3 (receiver settle mode).
#[derive(Clone, Copy, Debug, PartialEq, Eq)]
pub enum SupportedReceiverSettleModes {
    /// First alone.
    First,
    /// Second alone.
    Second,
    /// Both; the default.
    Both,
}

impl Default for SupportedReceiverSettleModes {
    ghost use Rattle.amqp_accept_links.specs.declared.modes.SupportedReceiverSettleModes.TheVariants as sets;

    ghost is_default = { λ supported. supported ≡ sets.Both };

    fn default() -> Self {
        SupportedReceiverSettleModes::Both
    }
}

impl SupportedReceiverSettleModes {
    /// Whether the mode is one of the set.
    pub fn supports(&self, mode: &ReceiverSettleMode) -> bool
        ensures { result ≡ supports_receiver self.now mode.now }
    {
        match mode {
            ReceiverSettleMode::First => matches!(self, Self::First | Self::Both),
            ReceiverSettleMode::Second => matches!(self, Self::Second | Self::Both),
        }
    }
}
