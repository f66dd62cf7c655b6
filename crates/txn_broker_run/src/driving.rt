//! Steps through a session over a broker.

ghost use Rattle.amqp_below_ids.specs.Ids.{Drew};
ghost use Rattle.amqp_resource_record.specs.Entries.{drawn_of};
ghost use Rattle.txn_broker_run.specs.Running.{IsBrokerRun};

use amqp_below_ids::IdSource;
use amqp_resource_record::{Driven, Steps};
use amqp_resource_session::{TxnSession, drive};
use std::alloc::Global;
use txn_broker_queues::Broker;

/// Steps that were driven, and the broker that they were driven over.
#[derive(Drop)]
pub struct BrokerRun {
    /// The record of the run.
    pub driven: Driven,
    /// The broker, with its queues.
    pub broker: Broker,
}

/// Drives the steps through a session over a new broker, until one isn't answered. Each queue is
/// then that of the frames that the broker took, as [`Broker::queue`] says.
pub fn drive_broker<G: IdSource>(alloc: Global, steps: Steps, ids: &mut G) -> BrokerRun
    ensures run { IsBrokerRun (G.next ids.old) steps result.broker result.driven }
    ensures drew { Drew (G.next ids.old) (G.next ids.new) (drawn_of result.driven.entries) }
{
    let mut session = TxnSession::new(alloc, Broker::new(alloc));
    let driven = drive(&mut session, steps, ids);
    let broker = session.into_below();
    // What it took has its own answers, as it says of them.
    let _exchanges = broker.exchanges();
    BrokerRun { driven, broker }
}
