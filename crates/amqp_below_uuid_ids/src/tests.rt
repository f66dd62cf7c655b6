//! What no clause says: the ids of a number, against another implementation of ChaCha.

use crate::*;
use amqp_below_ids::IdSource;
use std::test::Fail;

/// Whether these are the next ids of the number, in hexadecimal digits.
fn gives(number: u64, first: u128, second: u128) -> bool {
    let mut ids = seeded_ids(number);
    let drawn = ids.draw();
    let other = ids.draw();
    drawn.as_ref() == first.to_be_bytes().as_slice()
        && other.as_ref() == second.to_be_bytes().as_slice()
}

#[test]
fn a_number_gives_the_uuids_of_its_generator(rt: HostRuntime) -> Result<(), Fail> {
    assert!(rt;
        gives(
            0,
            0x3e00ef2f895f40d6bf5bb8e81f09a5a1,
            0x2c840ec3ce9a4f3b981be188ef711a1e
        )
    );
    assert!(rt;
        gives(
            1,
            0x5a85f1b51ecf4dbb9042daec4b61f71d,
            0x1bbc2696a36b4a45bd6f2faf0a600402
        )
    );
    Ok(())
}

#[test]
fn the_last_number_gives_its_uuids(rt: HostRuntime) -> Result<(), Fail> {
    assert!(rt;
        gives(
            u64::MAX,
            0x3c2a801d4e044a8fb9747f39ff19ff69,
            0x045c7f8dc4d144f7b23a2feb0266a869
        )
    );
    Ok(())
}
