//! The lines of frames, each by its table.

ghost use Rattle.std.specs.Prelude.{◌≡◌, IfOk};
ghost use Rattle.amqp_txn_types.specs.Frames.{state_of_outcomes};
ghost use Rattle.txn_program_lines.specs.Lines.{attach_line, attach_of, detach_line, disposition_line, disposition_of, first_count, flow_line, flow_of, frame_of_words, link_flow_line, link_line, node, post_line, retire_line, tag_of, transfer_line, transfer_of, state_under, format_of};
ghost use Rattle.txn_program_lines.specs.Reads.{Reads, words_left};

use crate::line_words::{
    Deliveries, Delivery, bool_at, deliveries_at, delivery_at, end_at, is_text, name_at,
    optional_outcome_of, payload_of, role_at, txn_id_of, u32_at, word_at,
};
use crate::unread::Unread;
use amqp_txn_types::{
    Attach, Binary, Coordinator, DeliveryState, Detach, Disposition, Flow, Frame, Handle, NoMemory,
    Outcome, ReceiverSettleMode, Role, SenderSettleMode, Source, Target, TargetArchetype, Text,
    TransactionId, TransactionalState, Transfer,
};
use std::alloc::Global;

/// The frame of a line, by its first word and the words after it.
#[tactic(auto, unfolding(crate::specs::Lines::frame_of_words))]
#[inline(always)]
pub fn frame_of_words(alloc: Global, kind: &[u8], words: Option<&[u8]>) -> Result<Frame, Unread>
    ensures { Reads (λ frame. frame) result (frame_of_words kind.now (words_left words.entry)) }
{
    if is_text(kind, "attach") {
        attach_line(alloc, words)
    } else if is_text(kind, "link") {
        link_line(alloc, words)
    } else if is_text(kind, "flow") {
        flow_line(words)
    } else if is_text(kind, "transfer") {
        transfer_line(alloc, words)
    } else if is_text(kind, "post") {
        post_line(alloc, words)
    } else if is_text(kind, "disposition") {
        disposition_line(words)
    } else if is_text(kind, "retire") {
        retire_line(alloc, words)
    } else if is_text(kind, "detach") {
        detach_line(words)
    } else {
        Err(Unread::OutsideTable)
    }
}

/// `attach NAME H`
#[tactic(auto, unfolding(crate::specs::Lines::attach_line))]
#[inline(always)]
pub fn attach_line(alloc: Global, words: Option<&[u8]>) -> Result<Frame, Unread>
    ensures { Reads (λ frame. frame) result (attach_line (words_left words.entry)) }
{
    let (name, words) = name_at(words)?;
    let (handle, words) = u32_at(words)?;
    end_at(words)?;
    let target = TargetArchetype::Coordinator(Coordinator { capabilities: None });
    let attach = attach_of(alloc, name, handle, Role::Sender, target)?;
    Ok(Frame::Attach(attach))
}

/// `link NAME H ROLE`
#[tactic(auto, unfolding(crate::specs::Lines::link_line))]
#[inline(always)]
pub fn link_line(alloc: Global, words: Option<&[u8]>) -> Result<Frame, Unread>
    ensures { Reads (λ frame. frame) result (link_line (words_left words.entry)) }
{
    let (name, words) = name_at(words)?;
    let (handle, words) = u32_at(words)?;
    let (role, words) = role_at(words)?;
    end_at(words)?;
    let attach = attach_of(alloc, name, handle, role, node(alloc, name)?)?;
    Ok(Frame::Attach(attach))
}

/// `flow H N` or `flow -`
#[tactic(auto, unfolding(crate::specs::Lines::flow_line))]
#[inline(always)]
pub fn flow_line(words: Option<&[u8]>) -> Result<Frame, Unread>
    ensures { Reads (λ frame. frame) result (flow_line (words_left words.entry)) }
{
    let (first, others) = word_at(words)?;
    if is_text(first, "-") {
        end_at(others)?;
        return Ok(Frame::Flow(flow_of(None)));
    }
    link_flow_line(words)
}

/// `flow H N`
#[tactic(auto, unfolding(crate::specs::Lines::link_flow_line))]
#[inline(always)]
pub fn link_flow_line(words: Option<&[u8]>) -> Result<Frame, Unread>
    ensures { Reads (λ frame. frame) result (link_flow_line (words_left words.entry)) }
{
    let (handle, words) = u32_at(words)?;
    let (credit, words) = u32_at(words)?;
    end_at(words)?;
    Ok(Frame::Flow(flow_of(Some((handle, credit)))))
}

/// `transfer H ID SET PAYLOAD`
#[tactic(auto, unfolding(crate::specs::Lines::transfer_line))]
#[inline(always)]
pub fn transfer_line(alloc: Global, words: Option<&[u8]>) -> Result<Frame, Unread>
    ensures { Reads (λ frame. frame) result (transfer_line (words_left words.entry)) }
{
    let (delivery, words) = delivery_at(words)?;
    let (payload, words) = word_at(words)?;
    let payload = payload_of(alloc, payload)?;
    end_at(words)?;
    let transfer = transfer_of(alloc, delivery, None)?;
    Ok(Frame::Transfer { transfer, payload })
}

/// `post T H ID SET OUT PAYLOAD`
#[tactic(auto, unfolding(crate::specs::Lines::post_line))]
#[inline(always)]
pub fn post_line(alloc: Global, words: Option<&[u8]>) -> Result<Frame, Unread>
    ensures { Reads (λ frame. frame) result (post_line (words_left words.entry)) }
{
    let (txn_id, words) = word_at(words)?;
    let txn_id = txn_id_of(alloc, txn_id)?;
    let (delivery, words) = delivery_at(words)?;
    let (outcome, words) = word_at(words)?;
    let outcome = optional_outcome_of(outcome)?;
    let (payload, words) = word_at(words)?;
    let payload = payload_of(alloc, payload)?;
    end_at(words)?;
    let transfer = transfer_of(alloc, delivery, state_under(txn_id, outcome))?;
    Ok(Frame::Transfer { transfer, payload })
}

/// `disposition ROLE FIRST LAST BOOL OUT`
#[tactic(auto, unfolding(crate::specs::Lines::disposition_line))]
#[inline(always)]
pub fn disposition_line(words: Option<&[u8]>) -> Result<Frame, Unread>
    ensures { Reads (λ frame. frame) result (disposition_line (words_left words.entry)) }
{
    let (deliveries, words) = deliveries_at(words)?;
    let (outcome, words) = word_at(words)?;
    let outcome = optional_outcome_of(outcome)?;
    end_at(words)?;
    let state = state_of(outcome);
    let disposition = disposition_of(deliveries, state);
    Ok(Frame::Disposition(disposition))
}

/// `retire T ROLE FIRST LAST BOOL OUT`
#[tactic(auto, unfolding(crate::specs::Lines::retire_line))]
#[inline(always)]
pub fn retire_line(alloc: Global, words: Option<&[u8]>) -> Result<Frame, Unread>
    ensures { Reads (λ frame. frame) result (retire_line (words_left words.entry)) }
{
    let (txn_id, words) = word_at(words)?;
    let txn_id = txn_id_of(alloc, txn_id)?;
    let (deliveries, words) = deliveries_at(words)?;
    let (outcome, words) = word_at(words)?;
    let outcome = optional_outcome_of(outcome)?;
    end_at(words)?;
    let state = state_under(txn_id, outcome);
    let disposition = disposition_of(deliveries, state);
    Ok(Frame::Disposition(disposition))
}

/// `detach H BOOL`
#[tactic(auto, unfolding(crate::specs::Lines::detach_line))]
#[inline(always)]
pub fn detach_line(words: Option<&[u8]>) -> Result<Frame, Unread>
    ensures { Reads (λ frame. frame) result (detach_line (words_left words.entry)) }
{
    let (handle, words) = u32_at(words)?;
    let (closed, words) = bool_at(words)?;
    end_at(words)?;
    let detach = Detach {
        handle: Handle(handle),
        closed,
        error: None,
    };
    Ok(Frame::Detach(detach))
}

/// The attach of a link of which a line names name, handle, role and target.
#[inline(always)]
pub fn attach_of(
    alloc: Global,
    name: &str,
    handle: u32,
    role: Role,
    target: TargetArchetype,
) -> Result<Attach, NoMemory>
    ensures { IfOk result (λ attach. attach ≡ attach_of name.now handle role target) }
{
    Ok(Attach {
        name: Text::from_str(alloc, name)?,
        handle: Handle(handle),
        role,
        snd_settle_mode: SenderSettleMode::Mixed,
        rcv_settle_mode: ReceiverSettleMode::First,
        source: Some(Source {
            address: None,
            dynamic: false,
            dynamic_node_properties: None,
            outcomes: None,
            capabilities: None,
        }),
        target: Some(target),
        initial_delivery_count: first_count(role),
        max_message_size: None,
        offered_capabilities: None,
        desired_capabilities: None,
        properties: None,
    })
}

/// The delivery count with which a link begins: a sender has one.
fn first_count(role: Role) -> Option<u32>
    ensures { result ≡ first_count role }
{
    match role {
        Role::Sender => Some(0),
        Role::Receiver => None,
    }
}

/// The node of that address, as a target.
#[inline(always)]
fn node(alloc: Global, address: &str) -> Result<TargetArchetype, NoMemory>
    ensures { IfOk result (λ target. target ≡ node address.now) }
{
    Ok(TargetArchetype::Target(Target {
        address: Some(Text::from_str(alloc, address)?),
        dynamic: false,
        dynamic_node_properties: None,
        capabilities: None,
    }))
}

/// A flow of a link, by its handle and credit, or of the session alone.
#[inline(always)]
pub fn flow_of(link: Option<(u32, u32)>) -> Flow
    ensures { result ≡ flow_of link }
{
    let (handle, delivery_count, link_credit) = match link {
        None => (None, None, None),
        Some((handle, credit)) => (Some(Handle(handle)), Some(0), Some(credit)),
    };
    Flow {
        next_incoming_id: Some(0),
        incoming_window: 2048,
        next_outgoing_id: 0,
        outgoing_window: 2048,
        handle,
        delivery_count,
        link_credit,
        available: None,
        drain: false,
        echo: false,
        properties: None,
    }
}

/// The transfer of a delivery.
#[inline(always)]
pub fn transfer_of(
    alloc: Global,
    delivery: Delivery,
    state: Option<DeliveryState>,
) -> Result<Transfer, NoMemory>
    ensures { IfOk result (λ transfer. transfer ≡ transfer_of delivery state) }
{
    Ok(Transfer {
        handle: Handle(delivery.handle),
        delivery_id: delivery.delivery_id,
        delivery_tag: tag_of(alloc, delivery.delivery_id)?,
        message_format: format_of(delivery.delivery_id),
        settled: delivery.settled,
        more: false,
        rcv_settle_mode: None,
        state,
        resume: false,
        aborted: false,
        batchable: false,
    })
}

/// The four octets of a delivery's number, as its tag.
fn tag_of(alloc: Global, delivery_id: Option<u32>) -> Result<Option<Binary>, NoMemory>
    ensures { IfOk result (λ tag. tag ≡ tag_of delivery_id) }
{
    match delivery_id {
        None => Ok(None),
        Some(number) => Ok(Some(Binary::from_slice(alloc, &number.to_be_bytes())?)),
    }
}

/// The message format of a delivery that has a number.
fn format_of(delivery_id: Option<u32>) -> Option<u32>
    ensures { result ≡ format_of delivery_id }
{
    match delivery_id {
        None => None,
        Some(_) => Some(0),
    }
}

/// The disposition of those deliveries.
#[inline(always)]
pub fn disposition_of(deliveries: Deliveries, state: Option<DeliveryState>) -> Disposition
    ensures { result ≡ disposition_of deliveries state }
{
    Disposition {
        role: deliveries.role,
        first: deliveries.first,
        last: deliveries.last,
        settled: deliveries.settled,
        state,
        batchable: false,
    }
}

/// The state of a delivery under a transaction.
#[inline(always)]
pub fn state_under(txn_id: TransactionId, outcome: Option<Outcome>) -> Option<DeliveryState>
    ensures { result ≡ state_under txn_id outcome }
{
    Some(DeliveryState::TransactionalState(TransactionalState { txn_id, outcome }))
}

/// The outcome as a state.
#[inline(always)]
pub fn state_of(outcome: Option<Outcome>) -> Option<DeliveryState>
    ensures { result ≡ state_of_outcomes outcome }
{
    match outcome {
        None => None,
        Some(outcome) => Some(DeliveryState::from(outcome)),
    }
}
