//! What no stored row shows: a row that states another answer, lines that are no row, and the texts
//! of errors.

use crate::row::{RowError, is_line_right};
use std::alloc::Global;
use std::test::Fail;

#[test]
fn a_row_that_states_another_answer_is_wrong(rt: HostRuntime) {
    let alloc = rt.alloc();
    assert_eq!(rt; is_line_right(alloc, "00537700533145\tdeclare"), Ok(true));
    assert_eq!(rt;
        is_line_right(alloc, "00537700533145\tnot-control"),
        Ok(false)
    );
    assert_eq!(rt;
        is_line_right(alloc, "0053770053314500\tdeclare"),
        Ok(false)
    );
    assert_eq!(rt; is_line_right(alloc, "\tdeclare"), Ok(false));
    assert_eq!(rt; is_line_right(alloc, "\tnot-control"), Ok(true));
}

#[test]
fn a_line_that_is_no_row_is_unread(rt: HostRuntime) {
    let alloc = rt.alloc();
    assert_eq!(rt; is_line_right(alloc, ""), Err(RowError::NoAnswer));
    assert_eq!(rt;
        is_line_right(alloc, "00537700533145"),
        Err(RowError::NoAnswer)
    );
    assert_eq!(rt;
        is_line_right(alloc, "0053770053314\tdeclare"),
        Err(RowError::Payload)
    );
    assert_eq!(rt;
        is_line_right(alloc, "0053770053314g\tdeclare"),
        Err(RowError::Payload)
    );
}

/// Whether the error's text is this.
fn has_text(alloc: Global, error: RowError, want: &str) -> Result<bool, Fail> {
    let text = format!(in alloc; "{error}")?;
    Ok(text.as_str() == want)
}

#[test]
fn errors_have_texts(rt: HostRuntime) -> Result<(), Fail> {
    let alloc = rt.alloc();
    assert!(rt; has_text(alloc, RowError::NoAnswer, "no answer is stated")?);
    assert!(rt;
        has_text(
            alloc,
            RowError::Payload,
            "the payload isn't hexadecimal digits"
        )?
    );
    assert!(rt; has_text(alloc, RowError::NoMemory, "out of memory")?);
    Ok(())
}
