//! The line of a stop.

ghost use Rattle.std.specs.Prelude.{◌≡◌, ◌++◌, codes, string_bytes, OnOk};
ghost use Rattle.txn_program_parties.specs.StopLine.{stop_text};
ghost use Rattle.txn_program_report.specs.Report.{line};

use amqp_resource_record::StopCode;
use amqp_txn_types::NoMemory;
use txn_program_report::{put, stop_word};

/// Puts the line of the stop, or of none, at the end. The only error is out of memory.
pub fn put_stop_or_none(out: &mut String, stop: Option<StopCode>) -> Result<(), NoMemory>
    ensures { OnOk result (string_bytes out.new
        ≡ string_bytes out.old ++ line (codes "stop " ++ stop_text stop)) }
{
    put(out, "stop ")?;
    put(out, stop_text(stop))?;
    put(out, "\n")
}

fn stop_text(stop: Option<StopCode>) -> &'static str
    ensures { result.now ≡ stop_text stop }
{
    match stop {
        None => "none",
        Some(code) => stop_word(code),
    }
}
