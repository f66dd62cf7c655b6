//! The words of `run`, `listen` and `make`.

ghost use Rattle.std.specs.Prelude.{◌≡◌, IfOk};
ghost use Rattle.txn_program_runs.specs.RunWords.{IsWithin, asks_for, command_over, run_command_of, make_words, refusing_words, run_of, run_words, starving_or, starving_words};

use amqp_txn_types::{CallNumbers, NoMemory, Text};
use std::alloc::Global;
use txn_program_edges::{Ids, call_list_of, count_of, id_words};
use txn_program_lines::is_text;

/// The layer below over which a run is asked for.
#[derive(Clone, Copy, Debug, PartialEq, Eq)]
pub enum Layer {
    /// `run`: a layer that takes everything.
    Open,
    /// `listen`: a session that is listened on and accepts links at once.
    Listener,
}

/// The two plans of the words, by the numbers, from 1, of the recorder's incoming frame calls.
/// Without one of them the recorder keeps that plan as it is.
#[derive(Debug, Drop, PartialEq)]
pub struct Plans {
    /// `--refuse LIST`: the calls that it refuses, and whose commits it vetoes.
    pub refused: Option<CallNumbers>,
    /// `--starve LIST`: the calls that it answers with out of memory.
    pub starved: Option<CallNumbers>,
}

/// What the words ask for.
#[derive(Debug, Drop, PartialEq)]
pub enum RunCommand {
    /// `run` or `listen`: drives the steps of the input.
    Run {
        /// The layer below that the words ask for; a call does the same over every recorder.
        layer: Layer,
        /// The plans of the recorder.
        plans: Plans,
        /// The ids that declares draw.
        ids: Ids,
    },
    /// `make N`: drives N made transactions, 1 to 20,000.
    Make(u32),
}

/// The command that the words give, `None` where they are outside the table.
pub fn run_command_of(alloc: Global, words: &[Text]) -> Result<Option<RunCommand>, NoMemory>
    ensures command { IfOk result (λ command. command ≡ run_command_of words.now) }
    ensures within { IfOk result IsWithin }
{
    let [word, others @ ..] = words else {
        return Ok(None);
    };
    let word = word.as_str().as_bytes();
    if is_text(word, "run") {
        run_words(alloc, Layer::Open, others)
    } else if is_text(word, "listen") {
        run_words(alloc, Layer::Listener, others)
    } else if is_text(word, "make") {
        Ok(make_words(others))
    } else {
        Ok(None)
    }
}

fn run_words(alloc: Global, layer: Layer, words: &[Text]) -> Result<Option<RunCommand>, NoMemory>
    ensures command { IfOk result (λ command. command ≡ run_words layer words.now) }
    ensures within { IfOk result IsWithin }
{
    match words {
        [word, others @ ..] if is_text(word.as_str().as_bytes(), "--refuse") => {
            refusing_words(alloc, layer, others)
        }
        _ => starving_or(alloc, layer, None, words),
    }
}

fn refusing_words(
    alloc: Global,
    layer: Layer,
    words: &[Text],
) -> Result<Option<RunCommand>, NoMemory>
    ensures command { IfOk result (λ command. command ≡ refusing_words layer words.now) }
    ensures within { IfOk result IsWithin }
{
    let [word, others @ ..] = words else {
        return Ok(None);
    };
    let Some(plan) = call_list_of(alloc, word.as_str().as_bytes())? else {
        return Ok(None);
    };
    starving_or(alloc, layer, Some(plan), others)
}

fn starving_or(
    alloc: Global,
    layer: Layer,
    refused: Option<CallNumbers>,
    words: &[Text],
) -> Result<Option<RunCommand>, NoMemory>
    ensures command { IfOk result (λ command. command ≡ starving_or layer refused words.now) }
    ensures within { IfOk result IsWithin }
{
    match words {
        [word, others @ ..] if is_text(word.as_str().as_bytes(), "--starve") => {
            starving_words(alloc, layer, refused, others)
        }
        _ => {
            let plans = Plans {
                refused,
                starved: None,
            };
            run_of(alloc, layer, plans, words)
        }
    }
}

fn starving_words(
    alloc: Global,
    layer: Layer,
    refused: Option<CallNumbers>,
    words: &[Text],
) -> Result<Option<RunCommand>, NoMemory>
    ensures command { IfOk result (λ command. command ≡ starving_words layer refused words.now) }
    ensures within { IfOk result IsWithin }
{
    let [word, others @ ..] = words else {
        return Ok(None);
    };
    let Some(starved) = call_list_of(alloc, word.as_str().as_bytes())? else {
        return Ok(None);
    };
    let plans = Plans {
        refused,
        starved: Some(starved),
    };
    run_of(alloc, layer, plans, others)
}

fn run_of(
    alloc: Global,
    layer: Layer,
    plans: Plans,
    words: &[Text],
) -> Result<Option<RunCommand>, NoMemory>
    ensures command { IfOk result (λ command. command ≡ run_of layer plans words.now) }
    ensures within { IfOk result IsWithin }
{
    let Some(ids) = id_words(alloc, words)? else {
        return Ok(None);
    };
    Ok(Some(RunCommand::Run { layer, plans, ids }))
}

fn make_words(words: &[Text]) -> Option<RunCommand>
    ensures command { result ≡ make_words words.now }
    ensures within { IsWithin result }
{
    let [word] = words else {
        return None;
    };
    let Some(count) = count_of(word.as_str().as_bytes(), 20_000) else {
        return None;
    };
    Some(RunCommand::Make(count as u32))
}

/// The command, where it asks for that layer: `listen` for a listener, `run` and `make` for the
/// open one. None of another layer's.
pub fn command_over(layer: Layer, command: Option<RunCommand>) -> Option<RunCommand>
    requires { IsWithin command }
    ensures command { result ≡ command_over layer command }
    ensures within { IsWithin result }
{
    let Some(command) = command else {
        return None;
    };
    if asks_for(layer, &command) {
        Some(command)
    } else {
        drop(command);
        None
    }
}

fn asks_for(layer: Layer, command: &RunCommand) -> bool
    ensures { result ≡ asks_for layer command.now }
{
    match (layer, command) {
        (
            Layer::Open,
            RunCommand::Run {
                layer: Layer::Open,
                ..
            }
            | RunCommand::Make(_),
        ) => true,
        (
            Layer::Listener,
            RunCommand::Run {
                layer: Layer::Listener,
                ..
            },
        ) => true,
        _ => false,
    }
}
