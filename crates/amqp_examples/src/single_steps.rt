//! Single steps of a transactional session.

use amqp_below_ids::CountIds;
use amqp_below_layer::OpenSession;
use amqp_resource_record::{Reply, Step, StepError};
use amqp_resource_session::TxnSession;
use std::alloc::Global;

/// Opens a control link on a new session and declares a transaction there: the reply to the
/// second step, which draws an id.
pub fn attach_and_declare(
    alloc: Global,
    attach: &Step,
    declare: &Step,
) -> Result<Reply, StepError> {
    let mut ids = CountIds::new();
    let mut session = TxnSession::new(alloc, OpenSession::new(alloc));
    let (_drawn, attached) = session.step(attach, &mut ids)?;
    drop(attached);
    let (_drawn, reply) = session.step(declare, &mut ids)?;
    Ok(reply)
}
