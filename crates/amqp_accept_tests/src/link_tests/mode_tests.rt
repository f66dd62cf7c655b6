//! The sets of settle modes by their names.

use amqp_accept_links::*;
use amqp_txn_types::{ReceiverSettleMode, SenderSettleMode};

#[test]
fn a_set_supports_the_modes_of_its_name(rt: HostRuntime) {
    let set = SupportedSenderSettleModes::UnsettledAndMixed;
    assert!(rt; !set.supports(&SenderSettleMode::Settled));
    let set = SupportedSenderSettleModes::SettledAndMixed;
    assert!(rt; set.supports(&SenderSettleMode::Mixed));
    assert!(rt; SupportedSenderSettleModes::default().supports(&SenderSettleMode::Unsettled));
    let first = SupportedReceiverSettleModes::First;
    assert!(rt; !first.supports(&ReceiverSettleMode::Second));
    assert!(rt; SupportedReceiverSettleModes::default().supports(&ReceiverSettleMode::Second));
}
