//! The end of a link that receives.

use crate::delivery::{Delivery, DeliveryInfo};
use crate::errors::{DispositionError, FlowError, RecvError};
use crate::poll::Poll;
use amqp_txn_types::{DeliveryState, Fields, NoMemory, Symbol, Value};

/// The end of an attached link that receives messages. Part 2 of the standard, section 2.6 (links).
///
/// Only an Ok of `dispose` or `send_flow` adds to what was put, and only `insert_property` and
/// `remove_property` change the properties. Every Err counts as a fault: it comes only where the
/// count of faults rose in the call, or stands at its last value, 2^64 - 1. The one exception is
/// the out of memory of `insert_property`.
pub trait ReceiverLink {
    ghost use Rattle.std.specs.Prelude.{◌≡◌, option_map};
    ghost use Rattle.amqp_links.specs.Receiving.{ReceiverTold, Disposes, Receives, SetsCredit, SendsFlow, Inserts, Removes};
    ghost use Rattle.amqp_links.specs.OneCall.{DisposesOn, ReceivesOn, SetsCreditOn, SendsFlowOn, InsertsOn, RemovesOn};

    /// What the link tells: what was put, what stands ready, its properties, and how often it
    /// failed.
    ghost told: { Self → ReceiverTold };

    /// What one `dispose` answers and leaves of this link, beside what the link tells. A call over
    /// every link that promises this of the link before and after it made one `dispose`, and no
    /// other call; of one link it says as much as that link says here. So do the next five.
    ghost dispose_gives: { DisposesOn Self } = { λ _ _ _ _ _ _. Unit {0} };

    /// That of one `recv`.
    ghost recv_gives: { ReceivesOn Self } = { λ _ _ _. Unit {0} };

    /// That of one `set_credit`.
    ghost credit_gives: { SetsCreditOn Self } = { λ _ _ _ _. Unit {0} };

    /// That of one `send_flow`.
    ghost flow_gives: { SendsFlowOn Self } = { λ _ _ _ _ _ _ _. Unit {0} };

    /// That of one `insert_property`.
    ghost insert_gives: { InsertsOn Self } = { λ _ _ _ _ _. Unit {0} };

    /// That of one `remove_property`.
    ghost remove_gives: { RemovesOn Self } = { λ _ _ _. Unit {0} };

    /// Puts a disposition of one delivery. Section 2.7.6 (disposition).
    fn dispose(
        &mut self,
        delivery: &DeliveryInfo,
        settled: Option<bool>,
        state: DeliveryState,
    ) -> Result<(), DispositionError>
        ensures told { Disposes (told self.old) (told self.new) delivery.now settled state result }
        ensures gives { dispose_gives self.old self.new delivery.now settled state result };

    /// Gives the next delivery, once. It is `Pending` exactly where none stands ready.
    fn recv(&mut self) -> Poll<Result<Delivery, RecvError>>
        ensures told { Receives (told self.old) (told self.new) result }
        ensures gives { recv_gives self.old self.new result };

    /// Sets how many deliveries are wanted. It puts nothing: `send_flow` tells the peer.
    fn set_credit(&mut self, credit: u32) -> Result<(), FlowError>
        ensures told { SetsCredit (told self.old) (told self.new) result }
        ensures gives { credit_gives self.old self.new credit result };

    /// Puts a flow of the link, with the link's properties where they are to be included. Section
    /// 2.7.4 (flow).
    fn send_flow(
        &mut self,
        credit: Option<u32>,
        drain: Option<bool>,
        echo: bool,
        include_properties: bool,
    ) -> Result<(), FlowError>
        ensures told { SendsFlow (told self.old) (told self.new)
            credit drain echo include_properties result }
        ensures gives { flow_gives self.old self.new credit drain echo include_properties result };

    /// The link's properties, where it has any map of them.
    fn properties(&self) -> Option<&Fields>
        ensures { option_map (λ fields. fields.now) result ≡ (told self.now).properties };

    /// Puts the value under the key: a new key goes last, and a key that is there keeps its place.
    fn insert_property(&mut self, key: Symbol, value: Value) -> Result<(), NoMemory>
        ensures told { Inserts (told self.old) (told self.new) key value result }
        ensures gives { insert_gives self.old self.new key value result };

    /// Takes the key and its value out. Without the key nothing changes.
    fn remove_property(&mut self, key: &Symbol)
        ensures told { Removes (told self.old) (told self.new) key.now }
        ensures gives { remove_gives self.old self.new key.now };
}
