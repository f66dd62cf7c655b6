//! What a recorder keeps of a call, over lists that have room for it.

ghost use Rattle.std.specs.Prelude.{◌≡◌, ◌≢◌, ◌<◌, ◌++◌, ◌∷◌, [], IfErr, IfOk, OnOk, OnErr, vec_len, vec_capacity};
ghost use Rattle.amqp_below_recorder.specs.Recording.{KeepsAnswer, KeepsRefusal, RefusedBefore};
ghost use Rattle.amqp_below_recorder.specs.declared.call_numbers.Planned.TheVariants as fates;

use crate::call_numbers::Planned;
use amqp_below_layer::{Refusal, SessionInnerError};
use amqp_txn_types::{Frame, Frames, NoMemory, TryClone, refuse};
use std::alloc::Global;

/// A copy of what comes, and room for one more item of each list. The only error is out of memory.
#[inline(always)]
pub(crate) fn prepare<F: TryClone>(
    item: &F,
    kept: &mut Vec<(F, Frames)>,
    refused: &mut Vec<Refusal>,
) -> Result<F, NoMemory>
    ensures copy { IfOk result (λ copy. copy ≡ item.now) }
    ensures kept { kept.new.items ≡ kept.old.items }
    ensures refused { refused.new.items ≡ refused.old.items }
    ensures room { OnOk result (vec_len kept.new < vec_capacity kept.new) }
    ensures refusal_room { OnOk result (vec_len refused.new < vec_capacity refused.new) }
{
    kept.reserve(1)?;
    refused.reserve(1)?;
    item.try_clone()
}

/// A copy of the frames that are vetoed, and room for one more such list. The only error is out of
/// memory.
pub(crate) fn prepare_review(frames: &Frames, vetoed: &mut Vec<Frames>) -> Result<Frames, NoMemory>
    ensures copy { IfOk result (λ copy. copy ≡ frames.now) }
    ensures vetoed { vetoed.new.items ≡ vetoed.old.items }
    ensures room { OnOk result (vec_len vetoed.new < vec_capacity vetoed.new) }
{
    vetoed.reserve(1)?;
    frames.try_clone()
}

/// What comes before a call of the layer: that no plan refuses it, and room for what is kept of it.
/// A planned refusal is kept. It gives a copy of the frame, to be kept.
#[inline(always)]
pub(crate) fn before_call(
    planned: Planned,
    frame: &Frame,
    kept: &mut Vec<(Frame, Frames)>,
    refused: &mut Vec<Refusal>,
) -> Result<Frame, SessionInnerError>
    ensures copy { IfOk result (λ copy. copy ≡ frame.now) }
    ensures made { OnOk result (planned ≡ fates.Made) }
    ensures kept { kept.new.items ≡ kept.old.items }
    ensures unrefused { OnOk result (refused.new.items ≡ refused.old.items) }
    ensures room { OnOk result (vec_len kept.new < vec_capacity kept.new) }
    ensures refusal_room { OnOk result (vec_len refused.new < vec_capacity refused.new) }
    ensures err { IfErr result
        (RefusedBefore planned refused.old.items refused.new.items frame.now) }
{
    match planned {
        Planned::Made => Ok(prepare(frame, kept, refused)?),
        Planned::Refused => {
            let copy = prepare(frame, kept, refused)?;
            refused.push_reserved(Refusal {
                frame: copy,
                error: SessionInnerError::IllegalState,
            });
            Err(SessionInnerError::IllegalState)
        }
        Planned::Starved => Err(SessionInnerError::NoMemory),
    }
}

/// Keeps what the layer answered to a frame, and gives what is answered for it. A refusal of its
/// own, where memory runs out, is counted.
#[inline(always)]
pub(crate) fn after_call(
    alloc: Global,
    kept: &mut Vec<(Frame, Frames)>,
    refused: &mut Vec<Refusal>,
    refusals: &mut u64,
    frame: Frame,
    answer: Result<Frames, SessionInnerError>,
) -> Result<Frames, SessionInnerError>
    requires room { vec_len kept.old < vec_capacity kept.old }
    requires refusal_room { vec_len refused.old < vec_capacity refused.old }
    ensures { KeepsAnswer kept.old.items kept.new.items refused.old.items refused.new.items
        refusals.old refusals.new frame answer result }
{
    match answer {
        Ok(given) => match keep_taken(alloc, kept, frame, given) {
            Ok(given) => Ok(given),
            Err(_) => refuse(refusals, SessionInnerError::NoMemory),
        },
        Err(error) => Err(keep_refusal(refused, frame, error)),
    }
}

/// A copy, which takes no memory where there are no frames.
#[inline(always)]
fn copied(alloc: Global, frames: &Frames) -> Result<Frames, NoMemory>
    ensures copy { IfOk result (λ copy. copy ≡ frames.now) }
    ensures empty { OnErr result (frames.now ≢ []) }
{
    if frames.len() == 0 {
        return Ok(Frames::new(alloc));
    }
    frames.try_clone()
}

/// Keeps what was taken with a copy of the frames given back for it, and gives these. The only
/// error is out of memory for the copy, where there are such frames.
#[inline(always)]
pub(crate) fn keep_taken<F: Drop>(
    alloc: Global,
    kept: &mut Vec<(F, Frames)>,
    taken: F,
    given: Frames,
) -> Result<Frames, NoMemory>
    requires room { vec_len kept.old < vec_capacity kept.old }
    ensures given { IfOk result (λ out. out ≡ given) }
    ensures ok { OnOk result (kept.new.items ≡ kept.old.items ++ (taken, given) ∷ []) }
    ensures err { OnErr result (kept.new.items ≡ kept.old.items) }
    ensures some { OnErr result (given ≢ []) }
{
    let copy = copied(alloc, &given)?;
    kept.push_reserved((taken, copy));
    Ok(given)
}

/// Keeps what was refused with a copy of the error, and gives the error. Out of memory isn't kept,
/// and is what is given where the error can't be copied.
pub(crate) fn keep_refusal(
    refused: &mut Vec<Refusal>,
    frame: Frame,
    error: SessionInnerError,
) -> SessionInnerError
    requires room { vec_len refused.old < vec_capacity refused.old }
    ensures { KeepsRefusal refused.old.items refused.new.items frame error result }
{
    if error.is_no_memory() {
        return error;
    }
    match error.try_clone() {
        Ok(copy) => {
            refused.push_reserved(Refusal { frame, error: copy });
            error
        }
        Err(_) => SessionInnerError::NoMemory,
    }
}
