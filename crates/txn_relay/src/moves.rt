//! What a relay puts under a transaction.

ghost use Rattle.std.specs.Prelude.{◌≡◌, IfOk};
ghost use Rattle.txn_relay.specs.Moves.{post_of, retirement_of, transfer_on};

use amqp_txn_types::{Binary, Disposition, Handle, NoMemory, Outcome, Role, Transfer, TryClone};
use std::alloc::Global;
use txn_broker_queues::Message;
use txn_world::Event;

/// The name of the queue that messages are moved from.
pub const FROM_NAME: &str = "from";

/// The handle of the link to `from`.
pub const FROM_HANDLE: Handle = Handle(1);

/// The name of the queue that they are moved to.
pub const TO_NAME: &str = "to";

/// The handle of the link to `to`.
pub const TO_HANDLE: Handle = Handle(2);

/// The transfer of a message on a link, settled, with the message's number as its id. The only
/// error is out of memory.
pub fn transfer_on(alloc: Global, handle: Handle, number: u32) -> Result<Transfer, NoMemory>
    ensures { IfOk result (λ transfer. transfer ≡ transfer_on handle.0 number) }
{
    let tag = Binary::from_slice(alloc, &number.to_be_bytes())?;
    Ok(
        Transfer::new(handle)
            .delivery_id(number)
            .delivery_tag(tag)
            .message_format(0)
            .settled(true),
    )
}

/// The post of a message under a transaction. The only error is out of memory.
pub(crate) fn post_of(alloc: Global, txn: u32, message: &Message) -> Result<Event, NoMemory>
    ensures { IfOk result (λ event. event ≡ post_of txn message.now) }
{
    let payload = message.payload.try_clone()?;
    let transfer = transfer_on(alloc, TO_HANDLE, message.number)?;
    Ok(Event::Post {
        txn,
        transfer,
        outcome: None,
        payload,
    })
}

/// The retirement of a message under a transaction.
pub(crate) fn retirement_of(txn: u32, message: &Message) -> Event
    ensures { result ≡ retirement_of txn message.now }
{
    Event::Retire {
        txn,
        disposition: Disposition::new(Role::Receiver, message.number),
        outcome: Some(Outcome::Accepted),
    }
}
