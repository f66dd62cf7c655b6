//! The words of `agree`.

ghost use Rattle.std.specs.Prelude.{◌≡◌, ◌≤◌, IfOk};
ghost use Rattle.txn_program_agree.specs.AgreeWords.{IsWithin, agree_command_of, agree_of, counted_words, refusing_or, refusing_words, starving_or, starving_words};

use amqp_txn_types::{CallNumbers, NoMemory, Text};
use std::alloc::Global;
use txn_program_edges::{TransactionIds, call_list_of, count_of, id_list_of};
use txn_program_lines::is_text;
use txn_program_runs::Plans;

/// What the words ask for: a run of two parties.
#[derive(Debug, Drop, PartialEq)]
pub struct AgreeCommand {
    /// How many controllers there are, 1 to 8.
    pub controllers: u32,
    /// The plans of the recorder.
    pub plans: Plans,
    /// The ids that declares draw, 1 to 64 of 16 octets each, of which the last one repeats.
    pub ids: TransactionIds,
}

/// The command that the words give, `None` where they are outside the table.
pub fn agree_command_of(alloc: Global, words: &[Text]) -> Result<Option<AgreeCommand>, NoMemory>
    ensures command { IfOk result (λ command. command ≡ agree_command_of words.now) }
    ensures within { IfOk result IsWithin }
{
    match words {
        [word, others @ ..] if is_text(word.as_str().as_bytes(), "agree") => {
            counted_words(alloc, others)
        }
        _ => Ok(None),
    }
}

fn counted_words(alloc: Global, words: &[Text]) -> Result<Option<AgreeCommand>, NoMemory>
    ensures command { IfOk result (λ command. command ≡ counted_words words.now) }
    ensures within { IfOk result IsWithin }
{
    let [word, others @ ..] = words else {
        return Ok(None);
    };
    let Some(controllers) = count_of(word.as_str().as_bytes(), 8) else {
        return Ok(None);
    };
    refusing_or(alloc, controllers as u32, others)
}

fn refusing_or(
    alloc: Global,
    controllers: u32,
    words: &[Text],
) -> Result<Option<AgreeCommand>, NoMemory>
    requires some { 1 ≤ controllers }
    requires few { controllers ≤ 8 }
    ensures command { IfOk result (λ command. command ≡ refusing_or controllers words.now) }
    ensures within { IfOk result IsWithin }
{
    match words {
        [word, others @ ..] if is_text(word.as_str().as_bytes(), "--refuse") => {
            refusing_words(alloc, controllers, others)
        }
        _ => starving_or(alloc, controllers, None, words),
    }
}

fn refusing_words(
    alloc: Global,
    controllers: u32,
    words: &[Text],
) -> Result<Option<AgreeCommand>, NoMemory>
    requires some { 1 ≤ controllers }
    requires few { controllers ≤ 8 }
    ensures command { IfOk result (λ command. command ≡ refusing_words controllers words.now) }
    ensures within { IfOk result IsWithin }
{
    let [word, others @ ..] = words else {
        return Ok(None);
    };
    let Some(plan) = call_list_of(alloc, word.as_str().as_bytes())? else {
        return Ok(None);
    };
    starving_or(alloc, controllers, Some(plan), others)
}

fn starving_or(
    alloc: Global,
    controllers: u32,
    refused: Option<CallNumbers>,
    words: &[Text],
) -> Result<Option<AgreeCommand>, NoMemory>
    requires some { 1 ≤ controllers }
    requires few { controllers ≤ 8 }
    ensures command { IfOk result (λ command. command ≡ starving_or controllers refused words.now) }
    ensures within { IfOk result IsWithin }
{
    match words {
        [word, others @ ..] if is_text(word.as_str().as_bytes(), "--starve") => {
            starving_words(alloc, controllers, refused, others)
        }
        _ => {
            let plans = Plans {
                refused,
                starved: None,
            };
            agree_of(alloc, controllers, plans, words)
        }
    }
}

fn starving_words(
    alloc: Global,
    controllers: u32,
    refused: Option<CallNumbers>,
    words: &[Text],
) -> Result<Option<AgreeCommand>, NoMemory>
    requires some { 1 ≤ controllers }
    requires few { controllers ≤ 8 }
    ensures command { IfOk result
        (λ command. command ≡ starving_words controllers refused words.now) }
    ensures within { IfOk result IsWithin }
{
    let [word, others @ ..] = words else {
        return Ok(None);
    };
    let Some(starved) = call_list_of(alloc, word.as_str().as_bytes())? else {
        return Ok(None);
    };
    let plans = Plans {
        refused,
        starved: Some(starved),
    };
    agree_of(alloc, controllers, plans, others)
}

fn agree_of(
    alloc: Global,
    controllers: u32,
    plans: Plans,
    words: &[Text],
) -> Result<Option<AgreeCommand>, NoMemory>
    requires some { 1 ≤ controllers }
    requires few { controllers ≤ 8 }
    ensures command { IfOk result (λ command. command ≡ agree_of controllers plans words.now) }
    ensures within { IfOk result IsWithin }
{
    let Some(ids) = id_list_of(alloc, words)? else {
        return Ok(None);
    };
    Ok(Some(AgreeCommand {
        controllers,
        plans,
        ids,
    }))
}
