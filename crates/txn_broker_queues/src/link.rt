//! The links of a broker.

ghost use Rattle.std.specs.Prelude.{◌≡◌, option_copied};
ghost use Rattle.std.specs.Option.{option_or};
ghost use Rattle.txn_broker_queues.specs.Queues.{address_of, is_final, is_receiver, is_sender, removed_numbers, source_address, target_address};

use amqp_txn_types::{Attach, DeliveryState, Disposition, Role, Source, TargetArchetype, Text};

/// A link that is attached: its queue, and which end the peer is.
#[derive(Clone, Copy)]
pub struct Link {
    /// The number of its queue, by first attach.
    pub queue: usize,
    /// Which end the peer is.
    pub peer: Role,
}

/// The address of a node that takes messages.
fn target_address(target: &Option<TargetArchetype>) -> Option<&Text>
    ensures { option_copied result ≡ target_address target.now }
{
    match target {
        Some(TargetArchetype::Target(target)) => target.address.as_ref(),
        Some(TargetArchetype::Coordinator(_)) | None => None,
    }
}

/// The address of a node that messages come from.
fn source_address(source: &Option<Source>) -> Option<&Text>
    ensures { option_copied result ≡ source_address source.now }
{
    match source {
        Some(source) => source.address.as_ref(),
        None => None,
    }
}

/// The address of a source, where it has one, else that of a target.
fn source_or_target<'a>(
    source: &'a Option<Source>,
    target: &'a Option<TargetArchetype>,
) -> Option<&'a Text>
    ensures { option_copied result
        ≡ option_or (source_address source.now) (target_address target.now) }
{
    match source_address(source) {
        Some(address) => Some(address),
        None => target_address(target),
    }
}

/// The address that an attach names: that of its target; for a receiver that of its source, where
/// that has one.
pub(crate) fn address_of(attach: &Attach) -> Option<&Text>
    ensures { option_copied result ≡ address_of attach.now }
{
    match attach.role {
        Role::Sender => target_address(&attach.target),
        Role::Receiver => source_or_target(&attach.source, &attach.target),
    }
}

/// Whether the peer sends on a link of its role.
pub(crate) fn is_sender(role: Role) -> bool
    ensures { result ≡ is_sender role }
{
    matches!(role, Role::Sender)
}

fn is_receiver(role: Role) -> bool
    ensures { result ≡ is_receiver role }
{
    matches!(role, Role::Receiver)
}

/// Whether an outcome takes a message from its queue.
fn is_final(state: &Option<DeliveryState>) -> bool
    ensures { result ≡ is_final state.now }
{
    matches!(
        state,
        Some(DeliveryState::Accepted) | Some(DeliveryState::Rejected(_)),
    )
}

/// The numbers that a disposition takes from their queues: from the first up to, but not with, the
/// second.
pub(crate) fn removed_numbers(disposition: &Disposition) -> Option<(usize, usize)>
    ensures { result ≡ removed_numbers disposition.now }
{
    if !is_receiver(disposition.role) || !is_final(&disposition.state) {
        return None;
    }
    let last = disposition.last.unwrap_or(disposition.first);
    Some((disposition.first as usize, last as usize + 1))
}
