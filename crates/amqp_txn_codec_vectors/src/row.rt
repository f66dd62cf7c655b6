//! A row: a payload, and the answer that it must get.

ghost use Rattle.std.specs.Prelude.{◌↔◌, IfOk, IsTrue};
ghost use Rattle.amqp_txn_codec_vectors.specs.Answers.{IsAnswer};

use crate::answer::answer_of;
use hex::FromHexError;
use std::alloc::{AllocError, Global};
use thiserror::Error as ThisError;

/// A payload, and the answer that it must get.
#[derive(Drop)]
pub struct Row<'a> {
    /// The octets of the payload.
    pub payload: Vec<u8>,
    /// The answer, in words.
    pub stated: &'a str,
}

/// Why a row has no answer.
#[derive(Clone, Copy, Debug, PartialEq, Eq, ThisError)]
pub enum RowError {
    /// The line has no second column.
    #[error("no answer is stated")]
    NoAnswer,
    /// The first column isn't hexadecimal digits.
    #[error("the payload isn't hexadecimal digits")]
    Payload,
    /// An allocation failed.
    #[error("out of memory")]
    NoMemory,
}

impl From<AllocError> for RowError {
    fn from(_error: AllocError) -> Self {
        RowError::NoMemory
    }
}

/// The row that a line has in its first two columns.
pub fn row_of(alloc: Global, line: &str) -> Result<Row<'_>, RowError> {
    let mut columns = line.split('\t');
    let (Some(payload), Some(stated)) = (columns.next(), columns.next()) else {
        return Err(RowError::NoAnswer);
    };
    match hex::decode(alloc, payload) {
        Ok(payload) => Ok(Row { payload, stated }),
        Err(FromHexError::OutOfMemory) => Err(RowError::NoMemory),
        Err(_) => Err(RowError::Payload),
    }
}

/// Whether `decode` gives the payload of the line's row the answer that the row states.
pub fn is_line_right(alloc: Global, line: &str) -> Result<bool, RowError> {
    match row_of(alloc, line) {
        Ok(row) => is_right(alloc, &row),
        Err(error) => Err(error),
    }
}

/// Whether `decode` gives the payload the stated answer.
pub fn is_right(alloc: Global, row: &Row) -> Result<bool, RowError>
    ensures { IfOk result
        (λ right. IsTrue right ↔ IsAnswer row.now.payload.items row.now.stated.now) }
{
    let answer = answer_of(alloc, row.payload.as_slice())?;
    Ok(answer.as_str() == row.stated)
}
