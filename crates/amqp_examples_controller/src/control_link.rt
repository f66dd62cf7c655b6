//! A transaction on a control link that is lent.

use amqp_controller_calls::{
    ControllerSendError, abandon_on_link, declare_on_link, discharge_on_link,
};
use amqp_links::{Progress, SenderLink};
use std::alloc::Global;

/// Declares a transaction on a control link and commits it: whether the commit was answered as
/// accepted. A commit that wasn't answered yet is given up with one look.
pub fn commit_on_link<L: SenderLink>(
    alloc: Global,
    link: &mut L,
) -> Result<bool, ControllerSendError> {
    let declared = match declare_on_link(alloc, link, None)?.poll(link) {
        Progress::Ready(declared) => declared?,
        Progress::Pending(_declare) => return Ok(false),
    };
    match discharge_on_link(alloc, link, &declared.txn_id, Some(false))?.poll(link) {
        Progress::Ready(accepted) => {
            accepted?;
            Ok(true)
        }
        Progress::Pending(_commit) => {
            drop(abandon_on_link(alloc, link, &declared.txn_id, 1));
            Ok(false)
        }
    }
}
