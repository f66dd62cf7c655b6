//! Lines that are compared with the text that is wanted.

ghost use Rattle.std.specs.Prelude.{◌≡◌, ◌++◌, codes, decimal, IfOk, string_bytes};
ghost use Rattle.std.specs.Str.{bytes_eq};
ghost use Rattle.hex.specs.Hex.{encode_lower};
ghost use Rattle.txn_program_lines.specs.Cutting.{lines_of};
ghost use Rattle.txn_program_report.specs.Report.{frame_text};
ghost use Rattle.txn_audit_fits.specs.Passing.{IsFirst};

use crate::difference::Wanted;
use amqp_txn_types::{Frame, NoMemory, TransactionId};
use std::alloc::Global;
use txn_program_lines::{first_line, is_text};
use txn_program_report::{put, put_frame, put_number, put_txn_id};

/// The lines after the first, where that is this word and the text of the frame; else `None`.
pub fn lines_after_frame<'a>(
    alloc: Global,
    word: &str,
    frame: &Frame,
    lines: &'a [u8],
    told: &mut Wanted,
) -> Result<Option<&'a [u8]>, NoMemory>
    ensures { IfOk result (IsFirst (word.now ++ frame_text frame.now) (lines_of lines.now)) }
{
    let mut wanted = String::new(alloc);
    put(&mut wanted, word)?;
    put_frame(alloc, &mut wanted, frame)?;
    if lines.is_empty() {
        *told = Wanted::Text(wanted);
        return Ok(None);
    }
    let (line, after) = first_line(lines);
    if is_wanted(line, wanted, told) {
        Ok(Some(after))
    } else {
        Ok(None)
    }
}

/// Whether the line is this word and the number.
pub fn is_number_line(
    alloc: Global,
    word: &str,
    number: u64,
    line: &[u8],
    told: &mut Wanted,
) -> Result<bool, NoMemory>
    ensures { IfOk result (λ same. same ≡ bytes_eq line.now (word.now ++ decimal number)) }
{
    let mut wanted = String::new(alloc);
    put(&mut wanted, word)?;
    put_number(&mut wanted, number)?;
    Ok(is_wanted(line, wanted, told))
}

/// Whether the line is `declared T`, of this id.
pub fn is_declared_line(
    alloc: Global,
    id: TransactionId,
    line: &[u8],
    told: &mut Wanted,
) -> Result<bool, NoMemory>
    ensures { IfOk result (λ same. same ≡ bytes_eq line.now (codes "declared " ++ encode_lower id)) }
{
    let mut wanted = String::new(alloc);
    put(&mut wanted, "declared ")?;
    put_txn_id(alloc, &mut wanted, id)?;
    Ok(is_wanted(line, wanted, told))
}

/// Whether the line is the wanted one, which is told where it isn't.
fn is_wanted(line: &[u8], wanted: String, told: &mut Wanted) -> bool
    ensures { result ≡ bytes_eq line.now (string_bytes wanted) }
{
    if is_text(line, wanted.as_str()) {
        return true;
    }
    *told = Wanted::Text(wanted);
    false
}
