//! What no clause says: that the calls succeed where there is memory.

use crate::*;
use amqp_txn_types::{TransactionId, TryClone};
use std::test::Fail;

#[test]
fn sixteen_ids_have_room(rt: HostRuntime) -> Result<(), Fail> {
    let alloc = rt.alloc();
    let mut drawn = Drawn::new(alloc);
    drawn.make_room()?;
    drawn.push(TransactionId::from([7; 16]));
    assert_eq!(rt; drawn.len(), 1);
    assert!(rt; drawn.try_clone()? == drawn);
    Ok(())
}
