//! The text of a run of two parties.

ghost use Rattle.std.specs.Prelude.{◌≡◌, ◌≤◌, ◌++◌, string_bytes, IfOk, OnOk};
ghost use Rattle.txn_parties.specs.Exchange.{made};
ghost use Rattle.txn_program_agree.specs.AgreeText.{agree_text, heard_line, heard_lines, heard_word, refused_text};
ghost use Rattle.txn_program_runs.specs.Running.{taken_of};

use amqp_below_ids::IdSource;
use amqp_below_layer::{LayerBelow, SessionInnerError, Tells};
use amqp_below_recorder::Recorder;
use amqp_resource_record::code_of_fault;
use amqp_txn_types::NoMemory;
use std::alloc::Global;
use txn_program_parties::put_stop_or_none;
use txn_program_report::{put, put_count, put_number, put_taken, put_word, stop_word};
use txn_world::{Heard, World};

/// What each transaction heard, how many events were skipped, why the session stopped, how many
/// frames of the item at which it stopped were taken, and the frames that were taken.
#[tactic(auto, unfolding(crate::specs::AgreeText::agree_text))]
pub(crate) fn agree_string<S: LayerBelow, G: IdSource>(
    alloc: Global,
    world: &World<Recorder<S>, G>,
    skipped: usize,
) -> Result<String, NoMemory>
    requires { made world.now.sides ≤ 4294967295 }
    ensures { IfOk result (λ text. string_bytes text ≡ agree_text world.now.sides skipped
        (taken_of (⟦<Recorder<S> as Tells>⟧.told world.now.below))) }
{
    let mut out = String::new(alloc);
    put_heard(&mut out, world)?;
    put_count(&mut out, "skipped ", skipped)?;
    put_stop_or_none(&mut out, world.stop())?;
    put_count(&mut out, "handed ", world.handed())?;
    put_taken(alloc, &mut out, world.below().exchanges().as_slice())?;
    Ok(out)
}

/// The text of a refused attach.
pub(crate) fn refused_string(alloc: Global, error: &SessionInnerError) -> Result<String, NoMemory>
    ensures { IfOk result (λ text. string_bytes text ≡ refused_text error.now) }
{
    let mut out = String::new(alloc);
    put(&mut out, "attach-refused ")?;
    put(&mut out, stop_word(code_of_fault(error)))?;
    put(&mut out, "\n")?;
    Ok(out)
}

/// Puts a line for each transaction.
fn put_heard<S: LayerBelow, G: IdSource>(
    out: &mut String,
    world: &World<S, G>,
) -> Result<(), NoMemory>
    requires { made world.now.sides ≤ 4294967295 }
    ensures { OnOk result (string_bytes out.new
        ≡ string_bytes out.old ++ heard_lines world.now.sides (made world.now.sides)) }
{
    for number in 0..u32::MAX {
        let Some(heard) = world.heard(number) else {
            return Ok(());
        };
        put_heard_line(out, number, heard)?;
    }
    Ok(())
}

/// Puts the line of a transaction.
fn put_heard_line(out: &mut String, number: u32, heard: Heard) -> Result<(), NoMemory>
    ensures { OnOk result (string_bytes out.new
        ≡ string_bytes out.old ++ heard_line number heard) }
{
    put(out, "txn ")?;
    put_number(out, u64::from(number))?;
    put_word(out, heard_word(heard))?;
    put(out, "\n")
}

fn heard_word(heard: Heard) -> &'static str
    ensures { result.now ≡ heard_word heard }
{
    match heard {
        Heard::Undeclared => "undeclared",
        Heard::Nothing => "nothing",
        Heard::Committed => "committed",
        Heard::RolledBack => "rolled-back",
        Heard::Rejected => "rejected",
    }
}
