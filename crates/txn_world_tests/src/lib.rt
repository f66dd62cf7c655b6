//! Tests of two parties: what each transaction heard, and what the layer below took, row by row.
//!
//! What a test made isn't taken apart at its end: the process gives all its memory back at once.
#![tactic(auto)]

#[cfg(test)]
mod row_tests;
