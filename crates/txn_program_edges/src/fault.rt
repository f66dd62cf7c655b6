//! The arguments of a process, and its end where they can't be read.

ghost use Rattle.std.specs.Prelude.{◌≡◌};
ghost use Rattle.txn_program_edges.specs.Faults.{fault_status, fault_text};
ghost use Rattle.txn_program_edges.specs.Writing.{EndsWith, Wrote};

use crate::output::write_and_end;
use crate::status;
use amqp_below_streams::ByteSink;
use amqp_txn_types::{Items, NoMemory, Text};
use std::alloc::{Alloc, Global};
use std::env::{self, Env};
use std::io;

/// Why a process has no arguments to serve.
#[derive(Clone, Copy, Debug, PartialEq, Eq)]
pub enum Fault {
    /// An argument isn't UTF-8.
    Arguments,
    /// An allocation failed.
    NoMemory,
}

impl From<NoMemory> for Fault {
    ghost use Rattle.std.specs.Prelude.{◌≡◌};
    ghost use Rattle.txn_program_edges.specs.declared.fault.Fault.TheVariants as faults;

    ghost from_gives = { λ _ fault. fault ≡ faults.NoMemory };

    fn from(_error: NoMemory) -> Self {
        Fault::NoMemory
    }
}

/// The arguments of the process, after the program's name.
///
/// # Errors
///
/// - `Arguments` where one of them isn't UTF-8.
/// - `NoMemory` where memory runs out.
pub fn arguments(rt: &(impl Env + Alloc<A = Global>)) -> Result<Items<Text>, Fault> {
    let mut arguments = Items::new(rt.alloc());
    let all = env::args(rt).map_err(|error| match error.kind() {
        io::ErrorKind::OutOfMemory => Fault::NoMemory,
        _ => Fault::Arguments,
    })?;
    for argument in all.skip(1) {
        let argument = Text::from_str(rt.alloc(), argument.as_str())?;
        arguments.append(argument)?;
    }
    Ok(arguments)
}

/// Ends a process without arguments: writes the text of the fault, and returns the status, or the
/// one that [`write_and_end`] gives in its place.
pub fn end_at_fault<O: ByteSink>(fault: Fault, output: &mut O) -> u8
    ensures status { EndsWith (O.faults output.old) (O.faults output.new) (fault_status fault)
        result }
    ensures written { Wrote (O.written output.old) (O.written output.new) result
        (fault_text fault) }
{
    match fault {
        Fault::Arguments => write_and_end(status::USAGE, b"usage\n", output),
        Fault::NoMemory => write_and_end(status::NO_MEMORY, b"", output),
    }
}
