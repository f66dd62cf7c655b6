//! Values that several tests use, and what a call or a wait must have given.

use amqp_controller_calls::ControllerSendError;
use amqp_links::{Progress, WireSender};
use amqp_test_values::{call_numbers, leak, link_end, plain_error};
use amqp_txn_types::{
    Declared, ErrorCondition, LinkEnd, Rejected, Role, SenderSettleMode, Text, TransactionError,
    TransactionId,
};
use std::process::Abort;

/// The declare of no global id.
pub const DECLARE: [u8; 7] = [0, 0x53, 0x77, 0, 0x53, 0x31, 0x45];

/// The declare of the global id 010203.
pub const GLOBAL_DECLARE: [u8; 14] = [0, 0x53, 0x77, 0, 0x53, 0x31, 0xc0, 6, 1, 0xa0, 3, 1, 2, 3];

/// The commit of the id 010203.
pub const COMMIT: [u8; 15] = [
    0, 0x53, 0x77, 0, 0x53, 0x32, 0xc0, 7, 2, 0xa0, 3, 1, 2, 3, 0x42,
];

/// The rollback of the id 010203.
pub const ROLLBACK: [u8; 15] = [
    0, 0x53, 0x77, 0, 0x53, 0x32, 0xc0, 7, 2, 0xa0, 3, 1, 2, 3, 0x41,
];

/// Whether the two are equal.
pub fn same<T: PartialEq>(found: T, want: T) -> bool {
    let equal = found == want;
    leak(found);
    leak(want);
    equal
}

/// The wait that goes on.
pub fn pending<P, T>(rt: &impl Abort, progress: Progress<P, T>) -> P {
    match progress {
        Progress::Pending(waiting) => waiting,
        Progress::Ready(_answer) => panic!(rt; "the wait is over"),
    }
}

/// The answer of a wait that is over.
pub fn ready<P, T>(rt: &impl Abort, progress: Progress<P, T>) -> T {
    match progress {
        Progress::Pending(_waiting) => panic!(rt; "the wait goes on"),
        Progress::Ready(answer) => answer,
    }
}

/// What a call gave that went well.
pub fn passed<T, E>(rt: &impl Abort, answer: Result<T, E>) -> T {
    match answer {
        Ok(value) => value,
        Err(_error) => panic!(rt; "the call is refused"),
    }
}

/// What a call gave that was refused.
pub fn refused<T, E>(rt: &impl Abort, answer: Result<T, E>) -> E {
    match answer {
        Ok(_value) => panic!(rt; "the call is not refused"),
        Err(error) => error,
    }
}

/// The id 010203.
pub fn id() -> TransactionId {
    match TransactionId::new(&[1, 2, 3]) {
        Ok(id) => id,
        Err(_) => TransactionId::from([0; 16]),
    }
}

/// A declare of no global id and one of the global id 010203, each with its octets.
pub fn declares() -> [(Option<TransactionId>, &'static [u8]); 2] {
    [(None, &DECLARE), (Some(id()), &GLOBAL_DECLARE)]
}

/// The declare of the id 010203, answered.
pub fn declaration() -> Declared {
    Declared { txn_id: id() }
}

/// A discharge of an id that the coordinator doesn't know, answered.
pub fn unknown_id() -> Rejected {
    let condition = ErrorCondition::TransactionError(TransactionError::UnknownId);
    Rejected {
        error: Some(plain_error(condition)),
    }
}

/// A discharge of a transaction that the coordinator rolled back, answered.
pub fn rolled_back() -> Rejected {
    let condition = ErrorCondition::TransactionError(TransactionError::Rollback);
    Rejected {
        error: Some(plain_error(condition)),
    }
}

/// Why a message about an id is refused that the coordinator doesn't know.
pub fn rejection() -> ControllerSendError {
    ControllerSendError::Rejected(unknown_id())
}

/// The name of each link.
pub fn name<R: Abort + AllocGlobal>(rt: &R) -> Text {
    Text::from_str(rt.alloc(), "c").expect(rt, "an Ok")
}

/// The first end of a link that settles so.
pub fn end<R: Abort + AllocGlobal>(rt: &R, role: Role, mode: SenderSettleMode) -> LinkEnd {
    let mut end = link_end(name(rt), role, 0);
    end.snd_settle_mode = mode;
    end
}

/// A wire of whose calls those of the numbers are to fail.
pub fn wire<R: Abort + AllocGlobal>(rt: &R, failing: &[u64]) -> WireSender {
    let failing = call_numbers(rt.alloc(), failing).expect(rt, "an Ok");
    let end = end(rt, Role::Sender, SenderSettleMode::Mixed);
    let mut wire = WireSender::new(rt.alloc(), end);
    wire.set_failing(failing);
    wire
}
