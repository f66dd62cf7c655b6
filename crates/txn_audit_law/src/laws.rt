//! Laws of an audit.

ghost use Rattle.std.specs.Prelude.{ℕ, ◌≡◌, ◌≢◌, true, Some, Option, List, All, IfSome};
ghost use Rattle.amqp_txn_types.specs.declared.id.TransactionId.{TransactionId};
ghost use Rattle.amqp_txn_types.specs.declared.performatives.Frame.{Frame};
ghost use Rattle.amqp_below_layer.specs.Told.{Told};
ghost use Rattle.amqp_resource_record.specs.declared.step.Step.{Step};
ghost use Rattle.amqp_resource_record.specs.declared.stop.Driven.{Driven};
ghost use Rattle.amqp_resource_record.specs.declared.stop.Stop.TheVariants as stops;
ghost use Rattle.txn_program_lines.specs.Cutting.{lines_of};
ghost use Rattle.txn_program_report.specs.Report.{report_text};
ghost use Rattle.txn_program_edges.specs.Words.{stream_of_ids};
ghost use Rattle.txn_program_edges.specs.declared.input.Reading.{Reading};
ghost use Rattle.txn_program_runs.specs.Running.{IsRun, IsSpelledBy, input_text};
ghost use Rattle.txn_program_runs.specs.Serving.{ServesRun};
ghost use Rattle.txn_program_runs.specs.declared.run_words.Layer.{Layer};
ghost use Rattle.txn_program_runs.specs.declared.run_words.Plans.{Plans};
ghost use Rattle.txn_program_runs.specs.declared.run_words.RunCommand.TheVariants as commands;
ghost use Rattle.txn_program_edges.specs.declared.words.Ids.{Ids};
ghost use Rattle.amqp_below_streams.specs.Streams.{SinkTold, SourceTold};
ghost use Rattle.txn_audit_report.specs.OutLines.{is_out_line};
ghost use Rattle.txn_audit_fits.specs.Fits.{Fits, out_text};
ghost use Rattle.txn_audit_law.specs.Reported.{AllShown, IsReported, frames_given};
ghost use Rattle.txn_audit_law.specs.Shown.{CanBeShown, IsSpellable};

use crate::within_types::{entries_are_within_types, exchanges_are_within_types};
use amqp_below_layer::{Exchanges, LayerBelow, Tells};
use amqp_below_recorder::Recorder;
use amqp_resource_record::Driven;
use txn_program_runs::Ran;

/// The lines of a report of a legal run fit, where each frame that it shows can be shown.
pub fn a_report_of_a_legal_run_fits()
    ensures { (steps : List Step) (next : ℕ → TransactionId) (driven : Driven)
        (taken : List (Frame × List Frame)) → IsReported steps next driven taken
        → AllShown driven taken → Fits steps next (lines_of (report_text driven taken)) }
{}

/// The lines of a report of what was driven fit, for a run of an input: fit the steps that the input
/// spells, and the ids that the run drew from. Each attach that the layer below gave back has to have
/// a name that a line can spell. A run that ran out of memory of its own writes no report.
pub fn a_report_of_a_run_fits(driven: &Driven, exchanges: &Exchanges)
    ensures { (reading : Reading) (ids : ℕ → TransactionId)
        (before : Option (List (List Frame))) (below : Told)
        → IsSpelledBy reading (λ steps. IsRun ids steps before below driven.now)
        → below.taken ≡ Some exchanges.now → driven.now.stop ≢ stops.NoMemory
        → All IsSpellable (frames_given driven.now.entries)
        → IsSpelledBy reading (λ steps.
        Fits steps ids (lines_of (report_text driven.now exchanges.now))) }
{
    entries_are_within_types(&driven.entries);
    exchanges_are_within_types(exchanges);
}

/// The lines of what `run` and `listen` write fit, where steps were driven: by the contract of
/// `serve_run` of `txn_program_runs`, which says what is written, and as of
/// [`a_report_of_a_run_fits`].
pub fn a_report_that_is_written_fits<S: LayerBelow>(ran: &Ran<S>)
    ensures { (layer : Layer) (plans : Plans) (ids : Ids) (below : Recorder S)
        (input left : SourceTold) (output written : SinkTold)
        → (serves : ServesRun ⟦<Recorder<S> as Tells>⟧.told (Some (commands.Run layer plans ids))
        below input left output written ran.now)
        → IfSome ran.now.driven (λ driven. driven.stop ≢ stops.NoMemory
        → All IsSpellable (frames_given driven.entries)
        → IsSpelledBy serves.reading (λ steps. Fits steps (stream_of_ids ids)
        (lines_of (input_text serves.reading (⟦<Recorder<S> as Tells>⟧.told ran.now.below)
        ran.now.driven)))) }
{
    if let Some(driven) = &ran.driven {
        a_report_of_a_run_fits(driven, ran.below.exchanges());
    }
}

/// The line of a frame whose numbers and ids are within their types, and whose name a line can
/// spell, is read as one that shows a frame.
pub fn a_frame_that_can_be_shown_is_read()
    ensures { (frame : Frame) → CanBeShown frame → is_out_line (out_text frame) ≡ true }
{}
