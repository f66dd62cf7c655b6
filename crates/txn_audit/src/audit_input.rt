//! The arguments and the input of an audit.

ghost use Rattle.std.specs.Prelude.{◌≡◌, ◌<◌, length, IfOk, IfSome};
ghost use Rattle.txn_program_lines.specs.Cutting.{lines_of};
ghost use Rattle.txn_audit.specs.AuditInput.{audit_words, parts_from};
ghost use Rattle.txn_audit.specs.Parting.{ReadsParts};

use amqp_resource_record::Steps;
use amqp_txn_types::{NoMemory, Text};
use std::alloc::Global;
use txn_program_edges::{TransactionIds, id_list_of};
use txn_program_lines::{LineReader, SpellError, Unread, first_line, is_text};

/// The ids of the arguments `audit ID ID ..`; `None` where they are anything else. The only error is
/// out of memory.
pub fn audit_words(alloc: Global, words: &[Text]) -> Result<Option<TransactionIds>, NoMemory>
    ensures ids { IfOk result (λ ids. ids ≡ audit_words words.now) }
    ensures some { IfOk result (λ ids. IfSome ids (λ ids. 0 < length ids)) }
{
    match words {
        [word, others @ ..] if is_text(word.as_str().as_bytes(), "audit") => {
            id_list_of(alloc, others)
        }
        _ => Ok(None),
    }
}

/// The parts of an input.
#[derive(Drop)]
pub struct AuditInput<'a> {
    /// The steps of the lines before the first that is exactly `report`.
    pub steps: Steps,
    /// The octets after that line; `None` where there is none.
    pub report: Option<&'a [u8]>,
    /// The number of the line after those of the steps, counted from 1.
    pub next: usize,
}

/// Reads the parts of an input.
///
/// # Errors
///
/// - `Line` exactly where a line before `report` isn't a step: the number of the first such line.
/// - `NoMemory` where memory runs out.
pub fn read_parts(alloc: Global, octets: &[u8]) -> Result<AuditInput<'_>, SpellError>
    ensures { ReadsParts result (parts_from 1 (lines_of octets.now)) }
{
    let mut steps = Steps::new(alloc);
    let mut number = 1;
    let mut rest = octets;
    while !rest.is_empty() {
        let (line, after) = first_line(rest);
        if is_text(line, "report") {
            return Ok(AuditInput {
                steps,
                report: Some(after),
                next: number,
            });
        }
        match steps.read_line(alloc, line) {
            Ok(()) => {}
            Err(Unread::OutsideTable) => return Err(SpellError::Line(number)),
            Err(Unread::NoMemory) => return Err(SpellError::NoMemory),
        }
        number += 1;
        rest = after;
    }
    Ok(AuditInput {
        steps,
        report: None,
        next: number,
    })
}
