//! Queues below a transactional session, under one name.
//!
//! | items | are |
//! |---|---|
//! | [`Broker`], [`Message`], [`Messages`] | a layer with queues, of `txn_broker_queues` |
//! | [`drive_broker`], [`BrokerRun`] | a run of a session over a broker, of `txn_broker_run` |
//! | [`run_broker`], [`BrokerRan`], [`broker_report`], [`end_broker`] | the program: its run, its report, its process |
//!
//! This crate has nothing of its own: it passes these on, and their definitions too.
#![tactic(auto)]

pub use txn_broker_queues::{Broker, Message, Messages};
pub use txn_broker_run::{
    BrokerRan, BrokerRun, broker_report, drive_broker, end_broker, run_broker,
};
