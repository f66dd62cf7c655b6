//! The audit of a whole report.

ghost use Rattle.std.specs.Prelude.{◌≡◌, ◌↔◌, ◌<◌, ◌&&◌, true, nat_lt, IfOk, IsTrue};
ghost use Rattle.txn_program_lines.specs.Cutting.{lines_of};
ghost use Rattle.txn_audit_fits.specs.Fits.{Fits};
ghost use Rattle.txn_audit_fits.specs.Departing.{Differs};
ghost use Rattle.txn_audit_fits.specs.Walking.{JudgesAll, JudgesStep, goes_on};

use crate::difference::{Difference, Wanted};
use crate::endings::judge_end;
use crate::judged_lines::{Judged, count_lines};
use crate::outs::lines_after;
use crate::replies::judge_reply;
use amqp_below_ids::IdSource;
use amqp_resource_held::Held;
use amqp_resource_log::Looks;
use amqp_resource_record::{Step, Steps};
use amqp_txn_types::{Frames, NoMemory};
use std::alloc::Global;
use std::marker::Brand;
use std::sync::ledger::{Blank, Ledger};
use txn_audit_report::is_stop_line;
use txn_program_lines::first_line;

/// Whether the lines are the report of a legal run of the steps, or of the first of them, whose
/// declares drew the next of the ids. A last line may be without its line feed.
///
/// The layer below of that run isn't known, so it may have given back any frames that a line can
/// show, and may have refused wherever a layer may.
///
/// # Errors
///
/// - `NoMemory` where memory runs out.
///
/// How many of the ids are drawn isn't promised.
pub fn audit<G: IdSource>(
    alloc: Global,
    steps: &Steps,
    ids: &mut G,
    lines: &[u8],
) -> Result<bool, NoMemory>
    ensures fits { IfOk result (λ fits. IsTrue fits ↔ Fits steps.now (G.next ids.old)
        (lines_of lines.now)) }
    ensures start { G.start ids.new ≡ G.start ids.old }
{
    Ok(first_difference(alloc, steps, ids, lines)?.is_none())
}

/// Where the lines stop being explained by a legal run, as by [`audit`]; `None` where they are the
/// report of one. The lines before are the first of those of a legal run, and with the line that
/// stands there they aren't; where none stands there, one is missing.
///
/// # Errors
///
/// - `NoMemory` where memory runs out.
///
/// What is wanted there isn't promised.
pub fn first_difference<G: IdSource>(
    alloc: Global,
    steps: &Steps,
    ids: &mut G,
    lines: &[u8],
) -> Result<Option<Difference>, NoMemory>
    ensures differs { IfOk result (Differs steps.now (G.next ids.old) (lines_of lines.now)) }
    ensures start { G.start ids.new ≡ G.start ids.old }
{
    let mut wanted = Wanted::Words("a report");
    match judge_lines::<G, Brand>(alloc, steps, ids, lines, Blank::new(1), &mut wanted)? {
        Judged::Explained(_) => Ok(None),
        Judged::Departs(rest) => Ok(Some(Difference {
            before: count_lines(lines) - count_lines(rest),
            wanted,
        })),
    }
}

/// Judges all the lines, with looks counted in a blank ledger.
fn judge_lines<'a, G: IdSource, L: Ledger>(
    alloc: Global,
    steps: &Steps,
    ids: &mut G,
    lines: &'a [u8],
    blank: Blank,
    told: &mut Wanted,
) -> Result<Judged<'a>, NoMemory>
    requires name { blank.name ≡ L.name }
    requires parts { blank.parts ≡ L.parts }
    requires some { 0 < blank.parts }
    ensures judged { IfOk result (JudgesAll steps.now (G.next ids.old) (lines_of lines.now)) }
    ensures start { G.start ids.new ≡ G.start ids.old }
{
    let mut looks = Looks::<L>::new(blank);
    let mut held = Held::new(alloc);
    let mut work = Frames::new(alloc);
    let mut answered = 0;
    let mut rest = lines;
    let count = steps.len();
    while is_answered(count, answered, rest) {
        let Some(step) = steps.get(answered) else {
            unreachable!()
        };
        match judge_step(
            &mut held, &mut work, alloc, step, ids, rest, &mut looks, told,
        )? {
            Judged::Explained(others) => rest = others,
            Judged::Departs(others) => return Ok(Judged::Departs(others)),
        }
        answered += 1;
    }
    judge_end(
        &mut held, &mut work, alloc, steps, answered, rest, &mut looks, told,
    )
}

/// Whether the next line is one that answers the next of so many steps.
fn is_answered(count: usize, answered: usize, lines: &[u8]) -> bool
    ensures { result ≡ (goes_on (lines_of lines.now) && nat_lt answered count) }
{
    goes_on(lines) && answered < count
}

/// Whether there is a line, and it isn't that of a stop.
fn goes_on(lines: &[u8]) -> bool
    ensures { result ≡ goes_on (lines_of lines.now) }
{
    if lines.is_empty() {
        return false;
    }
    let (line, _others) = first_line(lines);
    !is_stop_line(line)
}

/// Judges the lines of the step.
fn judge_step<'a, G: IdSource, L: Ledger>(
    held: &mut Held,
    work: &mut Frames,
    alloc: Global,
    step: &Step,
    ids: &mut G,
    lines: &'a [u8],
    looks: &mut Looks<L>,
    told: &mut Wanted,
) -> Result<Judged<'a>, NoMemory>
    requires { goes_on (lines_of lines.now) ≡ true }
    ensures judged { IfOk result (JudgesStep held.old held.new work.old work.new (G.next ids.old)
        (G.next ids.new) step.now (lines_of lines.now)) }
    ensures start { G.start ids.new ≡ G.start ids.old }
{
    let (line, after) = first_line(lines);
    let outs = judge_reply(held, work, alloc, step, ids, line, looks, told)?;
    held.work.compact(looks);
    let Some(outs) = outs else {
        return Ok(Judged::Departs(lines));
    };
    lines_after(alloc, &outs, after, told)
}
