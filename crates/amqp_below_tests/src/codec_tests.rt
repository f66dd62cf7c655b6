//! Payloads of outside origin, and what no clause says: that calls succeed with ample memory, and
//! that deep values are read at once.

use amqp_txn_codec::{ControlMessageBody, Declare, Discharge, NotControl, decode, skip_value};
use amqp_txn_types::{IdTooLong, TransactionId};
use std::alloc::{Alloc, Global};
use std::process::Abort;

fn declare() -> ControlMessageBody {
    ControlMessageBody::Declare(Declare { global_id: None })
}

fn discharge(id: &[u8], fail: Option<bool>) -> Result<ControlMessageBody, IdTooLong> {
    let txn_id = TransactionId::new(id)?;
    Ok(ControlMessageBody::Discharge(Discharge { txn_id, fail }))
}

#[test]
fn declares_are_read_in_every_form(rt: HostRuntime) {
    let spellings: [&[u8]; 9] = [
        // The canonical spelling.
        b"\x00Sw\x00S\x31E",
        // A descriptor by eight octets.
        b"\x00\x80\x00\x00\x00\x00\x00\x00\x00w\x00S\x31E",
        // A descriptor by name.
        b"\x00Sw\x00\xa3\x11amqp:declare:listE",
        // A descriptor by a long name.
        b"\x00\xb3\x00\x00\x00\x11amqp:amqp-value:*\x00S\x31E",
        // A header before the body.
        b"\x00Sp\xc0\x01\x00\x00Sw\x00S\x31E",
        // A footer behind it.
        b"\x00Sw\x00S\x31E\x00Sx\xc1\x01\x00",
        // Qpid-proton 0.37.0: a header, properties, and a list with null.
        b"\x00SpE\x00SsE\x00Sw\x00\xa3\x11amqp:declare:list\xd0\x00\x00\x00\x05\x00\x00\x00\x01\x40",
        // Qpid-proton 0.37.0: every section before the body.
        b"\x00Sp\xc0\x02\x01A\x00Sq\xd1\x00\x00\x00\x0f\x00\x00\x00\x02\xa3\x07x-opt-dU\x01\x00Sr\xd1\x00\x00\x00\x29\x00\x00\x00\x02\xa3\x07x-opt-m\xd0\x00\x00\x00\x17\x00\x00\x00\x03U\x01U\x02\xd1\x00\x00\x00\x0a\x00\x00\x00\x02\xa1\x01a\xa0\x01b\x00Ss\xc0\x05\x01\xa1\x02m\x31\x00St\xd1\x00\x00\x00\x0a\x00\x00\x00\x02\xa1\x01k\xa1\x01v\x00Sw\x00\xa3\x11amqp:declare:list\xd0\x00\x00\x00\x05\x00\x00\x00\x01\x40",
        // Qpid-proton 0.37.0: sections by name, and a footer.
        b"\x00\xa3\x10amqp:header:list\xd0\x00\x00\x00\x05\x00\x00\x00\x01A\x00\xa3\x11amqp:amqp-value:*\x00S\x31E\x00\xa3\x0famqp:footer:map\xd1\x00\x00\x00\x0f\x00\x00\x00\x02\xa3\x07x-opt-fU\x01",
    ];
    for octets in spellings {
        assert!(rt; decode(octets) == Ok(declare()), "at {octets:?}");
    }
}

#[test]
fn a_global_id_is_read(rt: HostRuntime) {
    // qpid-proton 0.37.0
    let octets =
        b"\x00SpE\x00SsE\x00Sw\x00S\x31\xd0\x00\x00\x00\x0e\x00\x00\x00\x01\xa0\x08global-\x31";
    let global_id = Some(TransactionId::new(b"global-1").expect(&rt, "an Ok"));
    let message = ControlMessageBody::Declare(Declare { global_id });
    assert!(rt; decode(octets) == Ok(message));
}

fn reads_discharge(
    rt: &impl Abort,
    octets: &[u8],
    id: &[u8],
    fail: Option<bool>,
) -> Result<(), IdTooLong> {
    let message = discharge(id, fail)?;
    assert!(rt; decode(octets) == Ok(message), "at {octets:?}");
    Ok(())
}

#[test]
fn discharges_are_read_in_every_form(rt: HostRuntime) {
    // No fail.
    reads_discharge(
        &rt,
        b"\x00Sw\x00S\x32\xc0\x06\x01\xa0\x03\x01\x02\x03",
        b"\x01\x02\x03",
        None,
    )
    .expect(&rt, "an Ok");
    // A fail that is null.
    reads_discharge(
        &rt,
        b"\x00Sw\x00S\x32\xc0\x07\x02\xa0\x03\x01\x02\x03\x40",
        b"\x01\x02\x03",
        None,
    )
    .expect(&rt, "an Ok");
    // A rollback.
    reads_discharge(
        &rt,
        b"\x00Sw\x00S\x32\xc0\x07\x02\xa0\x03\x01\x02\x03A",
        b"\x01\x02\x03",
        Some(true),
    )
    .expect(&rt, "an Ok");
    // The long forms of list, id and fail.
    reads_discharge(
        &rt,
        b"\x00Sw\x00S\x32\xd0\x00\x00\x00\x0e\x00\x00\x00\x02\xb0\x00\x00\x00\x03\x01\x02\x03V\x00",
        b"\x01\x02\x03",
        Some(false),
    )
    .expect(&rt, "an Ok");
    // An id of 32 octets.
    reads_discharge(
        &rt,
        b"\x00Sw\x00S\x32\xc0\x23\x01\xa0\x20\x11\x11\x11\x11\x11\x11\x11\x11\x11\x11\x11\x11\x11\x11\x11\x11\x11\x11\x11\x11\x11\x11\x11\x11\x11\x11\x11\x11\x11\x11\x11\x11",
        b"\x11\x11\x11\x11\x11\x11\x11\x11\x11\x11\x11\x11\x11\x11\x11\x11\x11\x11\x11\x11\x11\x11\x11\x11\x11\x11\x11\x11\x11\x11\x11\x11",
        None,
    )
    .expect(&rt, "an Ok");
}

#[test]
fn discharges_of_other_libraries_are_read(rt: HostRuntime) {
    // Qpid-proton 0.37.0: an abort.
    reads_discharge(
        &rt,
        b"\x00SpE\x00SsE\x00Sw\x00\xa3\x13amqp:discharge:list\xd0\x00\x00\x00\x0f\x00\x00\x00\x02\xa0\x08\x00\x00\x00\x00\x00\x00\x00\x02A",
        b"\x00\x00\x00\x00\x00\x00\x00\x02",
        Some(true),
    )
    .expect(&rt, "an Ok");
    // Azure _pyamqp 20230112: a fail in two octets.
    reads_discharge(
        &rt,
        b"\x00Sw\x00S\x32\xc0\x15\x02\xa0\x10\x00\x00\x00\x00\x00\x00\x00\x00\x00\x00\x00\x00\x00\x00\x00\x01V\x01",
        b"\x00\x00\x00\x00\x00\x00\x00\x00\x00\x00\x00\x00\x00\x00\x00\x01",
        Some(true),
    )
    .expect(&rt, "an Ok");
    // Azure _pyamqp 20230112: a footer.
    reads_discharge(
        &rt,
        b"\x00Sw\x00S\x32\xc0\x15\x02\xa0\x10\x00\x00\x00\x00\x00\x00\x00\x00\x00\x00\x00\x00\x00\x00\x00\x01V\x00\x00Sx\xc1\x0c\x02\xa3\x07x-opt-fT\x01",
        b"\x00\x00\x00\x00\x00\x00\x00\x00\x00\x00\x00\x00\x00\x00\x00\x01",
        Some(false),
    )
    .expect(&rt, "an Ok");
}

#[test]
fn other_octets_are_refused(rt: HostRuntime) {
    let others: [&[u8]; 16] = [
        // No octets.
        b"",
        // A header twice.
        b"\x00Sp\xc0\x01\x00\x00Sp\xc0\x01\x00\x00Sw\x00S\x31E",
        // A header behind the body.
        b"\x00Sw\x00S\x31E\x00Sp\xc0\x01\x00",
        // A footer without its end.
        b"\x00Sw\x00S\x31E\x00Sx\xc1\x01",
        // A discharge without an id.
        b"\x00Sw\x00S\x32E",
        // An octet behind the body.
        b"\x00Sw\x00S\x31E\x00",
        // Another descriptor.
        b"\x00Sw\x00S\x33E",
        // A count of 2 for one field.
        b"\x00Sw\x00S\x31\xc0\x02\x02\x40",
        // A size that is one too great.
        b"\x00Sw\x00S\x31\xc0\x03\x01\x40",
        // RabbitMQ 3.10.8: two bodies.
        b"\x00Sw\x00S\x31\xc0\x02\x01\x40\x00Sw\x00S\x31\xc0\x02\x01\x40",
        // Uamqp 1.5.3: a footer before the body.
        b"\x00Sx\xc1\x0d\x02\xa3\x07x-opt-k\xa1\x01v\x00Sw\x00S\x32\xc0\x14\x02\xa0\x10\x00\x00\x00\x00\x00\x00\x00\x00\x00\x00\x00\x00\x00\x00\x00\x01B",
        // Qpid-proton 0.37.0: a descriptor that is a string.
        b"\x00SpE\x00SsE\x00Sw\x00\xa1\x11amqp:declare:list\xd0\x00\x00\x00\x05\x00\x00\x00\x01\x40",
        // Azure _pyamqp 20230112: an id that is a string.
        b"\x00Sw\x00S\x32\xc0\x0a\x02\xa1\x05txn-\x31V\x01",
        // Uamqp 1.5.3: no id.
        b"\x00Sw\x00S\x32\xc0\x03\x02\x40A",
        // Uamqp 1.5.3: an id of 33 octets.
        b"\x00Sw\x00S\x32\xc0\x25\x02\xa0\x21\x11\x11\x11\x11\x11\x11\x11\x11\x11\x11\x11\x11\x11\x11\x11\x11\x11\x11\x11\x11\x11\x11\x11\x11\x11\x11\x11\x11\x11\x11\x11\x11\x11B",
        // Qpid-proton 0.37.0: a fail that is a number.
        b"\x00SpE\x00SsE\x00Sw\x00\xa3\x13amqp:discharge:list\xd0\x00\x00\x00\x18\x00\x00\x00\x02\xa0\x10\x00\x00\x00\x00\x00\x00\x00\x00\x00\x00\x00\x00\x00\x00\x00\x01U\x01",
    ];
    for octets in others {
        assert!(rt; decode(octets) == Err(NotControl), "at {octets:?}");
    }
}

#[test]
fn the_canonical_spelling_is_written(rt: HostRuntime) {
    let spelling = b"\x00Sw\x00S\x32\xc0\x07\x02\xa0\x03\x01\x02\x03A";
    let txn_id = TransactionId::new(b"\x01\x02\x03").expect(&rt, "an Ok");
    let fail = Some(true);
    let message = ControlMessageBody::Discharge(Discharge { txn_id, fail });
    let payload = message.encode(rt.alloc()).expect(&rt, "an Ok");
    assert!(rt; payload.as_slice() == spelling.as_slice());
    let mut out = [9; 64];
    let len = message.encode_into(&mut out);
    assert!(rt; &out[..len] == spelling.as_slice());
}

fn only_the_whole_is_read(rt: &(impl Abort + Alloc<A = Global>), message: ControlMessageBody) {
    let payload = message.encode(rt.alloc()).expect(rt, "an Ok");
    let spelling = payload.as_slice();
    assert!(rt; decode(spelling) == Ok(message));
    for end in 0..spelling.len() {
        assert!(rt;
            decode(&spelling[..end]) == Err(NotControl),
            "at {end} of {spelling:?}"
        );
    }
    let mut longer = Vec::new(rt.alloc());
    longer.extend_from_slice(spelling).expect(rt, "an Ok");
    longer.push(0x40).expect(rt, "an Ok");
    assert!(rt; decode(longer.as_slice()) == Err(NotControl));
}

#[test]
fn only_the_whole_canonical_spelling_is_read(rt: HostRuntime) {
    only_the_whole_is_read(&rt, declare());
    let octets = [0x45; 32];
    for len in [0usize, 1, 16, 32] {
        let id = &octets[..len];
        let global_id = Some(TransactionId::new(id).expect(&rt, "an Ok"));
        only_the_whole_is_read(&rt, ControlMessageBody::Declare(Declare { global_id }));
        for fail in [None, Some(true), Some(false)] {
            only_the_whole_is_read(&rt, discharge(id, fail).expect(&rt, "an Ok"));
        }
    }
}

#[test]
fn an_octet_more_and_a_longer_id_are_no_message(rt: HostRuntime) {
    let more = b"\x00Sw\x00S\x32\xc0\x07\x02\xa0\x03\x01\x02\x03A\x00";
    assert!(rt; decode(more) == Err(NotControl));
    let mut longer = Vec::new(rt.alloc());
    longer
        .extend_from_slice(b"\x00Sw\x00S\x32\xc0\x24\x01\xa0\x21")
        .expect(&rt, "an Ok");
    longer.extend_from_slice(&[0x11; 33]).expect(&rt, "an Ok");
    assert!(rt; decode(longer.as_slice()) == Err(NotControl));
}

#[test]
fn a_value_is_skipped(rt: HostRuntime) {
    // A list of two octets between others, and a described value.
    assert!(rt; skip_value(b"\x01\xc0\x02\x01\x40\x99", 1) == Some(5));
    assert!(rt; skip_value(b"\x00\x53\x07\xa1\x01\x61", 0) == Some(6));
    assert!(rt; skip_value(b"\x00\x53\x07\xa1\x02\x61", 0) == None);
    assert!(rt; skip_value(b"\x3f", 0) == None);
}

#[test]
fn values_within_values_are_read_at_once(rt: HostRuntime) {
    // Each of 400,000 constructors 0 wants two values, and 400,001 nulls are all of them.
    let mut value = vec![in rt.alloc(); 0; 400_000].expect(&rt, "an Ok");
    assert!(rt; skip_value(value.as_slice(), 0) == None);
    let mut header = Vec::new(rt.alloc());
    header.extend_from_slice(b"\x00Sp").expect(&rt, "an Ok");
    header
        .extend_from_slice(value.as_slice())
        .expect(&rt, "an Ok");
    assert!(rt; decode(header.as_slice()) == Err(NotControl));
    let nulls = vec![in rt.alloc(); 0x40; 400_001].expect(&rt, "an Ok");
    value
        .extend_from_slice(nulls.as_slice())
        .expect(&rt, "an Ok");
    assert!(rt; skip_value(value.as_slice(), 0) == Some(800_001));
    let mut octets = Vec::new(rt.alloc());
    octets.extend_from_slice(b"\x00Sp").expect(&rt, "an Ok");
    octets
        .extend_from_slice(value.as_slice())
        .expect(&rt, "an Ok");
    octets
        .extend_from_slice(b"\x00Sw\x00S\x31E")
        .expect(&rt, "an Ok");
    assert!(rt; decode(octets.as_slice()) == Ok(declare()));
}

#[test]
fn the_error_says_what_is_wrong(rt: HostRuntime) {
    let text = format!(in rt.alloc(); "{NotControl}").expect(&rt, "an Ok");
    assert!(rt; text.as_str() == "the octets are no control message");
}
