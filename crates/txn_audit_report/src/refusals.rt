//! Refusals of the layer below, by the words that a report has for them.

ghost use Rattle.std.specs.Prelude.{◌≡◌};
ghost use Rattle.txn_audit_report.specs.Stopping.{refusal_of_attach, refusal_of_stop};

use amqp_resource_record::StopCode;
use txn_program_lines::is_text;

/// The code of a line `attach-refused WORD`, of any error that a layer may answer; `None` where the
/// line is another.
#[tactic(auto, unfolding(crate::specs::Stopping::refusal_of_attach))]
pub fn refusal_of_attach(line: &[u8]) -> Option<StopCode>
    ensures { result ≡ refusal_of_attach line.now }
{
    if is_text(line, "attach-refused unknown-txn-id") {
        Some(StopCode::UnknownTxnId)
    } else if is_text(line, "attach-refused unattached-handle") {
        Some(StopCode::UnattachedHandle)
    } else if is_text(line, "attach-refused link-name-not-found") {
        Some(StopCode::LinkNameNotFound)
    } else if is_text(line, "attach-refused handle-in-use") {
        Some(StopCode::HandleInUse)
    } else if is_text(line, "attach-refused illegal-state") {
        Some(StopCode::IllegalState)
    } else if is_text(line, "attach-refused transfer-to-sender") {
        Some(StopCode::TransferToSender)
    } else if is_text(line, "attach-refused below-connection-stopped") {
        Some(StopCode::BelowConnectionStopped)
    } else if is_text(line, "attach-refused below-remote-ended") {
        Some(StopCode::BelowRemoteEnded)
    } else if is_text(line, "attach-refused below-remote-ended-with-error") {
        Some(StopCode::BelowRemoteEndedWithError)
    } else if is_text(line, "attach-refused below-no-memory") {
        Some(StopCode::BelowNoMemory)
    } else {
        None
    }
}

/// The code of a line `stop WORD`, where it is that of a refusal; `None` where the line is another.
#[tactic(auto, unfolding(crate::specs::Stopping::refusal_of_stop))]
pub fn refusal_of_stop(line: &[u8]) -> Option<StopCode>
    ensures { result ≡ refusal_of_stop line.now }
{
    if is_text(line, "stop unattached-handle") {
        Some(StopCode::UnattachedHandle)
    } else if is_text(line, "stop link-name-not-found") {
        Some(StopCode::LinkNameNotFound)
    } else if is_text(line, "stop handle-in-use") {
        Some(StopCode::HandleInUse)
    } else if is_text(line, "stop illegal-state") {
        Some(StopCode::IllegalState)
    } else if is_text(line, "stop transfer-to-sender") {
        Some(StopCode::TransferToSender)
    } else if is_text(line, "stop below-connection-stopped") {
        Some(StopCode::BelowConnectionStopped)
    } else if is_text(line, "stop below-remote-ended") {
        Some(StopCode::BelowRemoteEnded)
    } else if is_text(line, "stop below-remote-ended-with-error") {
        Some(StopCode::BelowRemoteEndedWithError)
    } else if is_text(line, "stop below-no-memory") {
        Some(StopCode::BelowNoMemory)
    } else {
        None
    }
}
