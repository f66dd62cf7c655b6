//! Errors, and the texts of errors.

ghost use Rattle.std.specs.Prelude.{◌≡◌, ◌<◌, All, length, slice_get, IfOk, IfSome, None};
ghost use Rattle.amqp_test_values.specs.Texts.{Differs, IsAsTold, Reads};
ghost use Rattle.amqp_txn_types.specs.declared.delivery.ErrorCondition.TheVariants as conditions;
ghost use Rattle.amqp_txn_types.specs.declared.small.AmqpError.TheVariants as errors;

use amqp_txn_types::{AmqpError, Error, ErrorCondition, NoMemory};
use std::alloc::Global;
use std::fmt::Display;

/// An error without a text.
pub fn plain_error(condition: ErrorCondition) -> Error
    ensures { result ≡ record { condition = condition; description = None; info = None } }
{
    Error {
        condition,
        description: None,
        info: None,
    }
}

/// The error that something is not allowed, without a text.
pub fn not_allowed() -> Error
    ensures { result ≡ record {
      condition = conditions.AmqpError errors.NotAllowed;
      description = None;
      info = None;
    } }
{
    plain_error(ErrorCondition::AmqpError(AmqpError::NotAllowed))
}

/// Whether the error's text is this. The only error is out of memory.
pub fn reads<E: Display>(alloc: Global, error: &E, want: &str) -> Result<bool, NoMemory>
    ensures { IfOk result (λ same. IsAsTold (E.output error.now) want.now same) }
{
    let text = format!(in alloc; "{error}")?;
    Ok(text.as_str() == want)
}

/// The place of the first error whose text is another than the one beside it. The only error is out
/// of memory.
pub fn other_text<E: Display>(alloc: Global, table: &[(E, &str)]) -> Result<Option<usize>, NoMemory>
    ensures none { result ≡ Ok None → All (λ row. Reads (E.output row.0) row.1.now) table.now }
    ensures other { IfOk result (λ found. IfSome found (λ place.
        IfSome (slice_get table.now place) (λ row. Differs (E.output row.0) row.1.now))) }
    ensures inside { IfOk result (λ found. IfSome found (λ place. place < length table.now)) }
{
    for (place, row) in table.iter().enumerate() {
        if !reads(alloc, &row.0, row.1)? {
            return Ok(Some(place));
        }
    }
    Ok(None)
}
