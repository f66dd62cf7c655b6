//! What no clause says: that the calls succeed where there is memory.

use crate::*;
use amqp_txn_types::Binary;
use std::test::Fail;

#[test]
fn octets_go_from_source_to_sink(rt: HostRuntime) -> Result<(), Fail> {
    let alloc = rt.alloc();
    let mut source = SureSource::new(Binary::from_slice(alloc, b"abc")?);
    let mut sink = SureSink::new(alloc);
    sink.reserve(3)?;
    let mut buffer = [0; 2];
    assert!(rt; source.read(&mut buffer) == Ok(2));
    assert!(rt; buffer.as_slice() == b"ab".as_slice());
    assert!(rt; source.read(&mut buffer) == Ok(1));
    assert!(rt; source.read(&mut buffer) == Ok(0));
    assert!(rt; sink.write(b"abc") == Ok(3));
    assert!(rt; sink.as_slice() == b"abc".as_slice());
    Ok(())
}
