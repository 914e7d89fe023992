//! Lines, words and numbers in bytes, and numbers as bytes.
//!
//! The texts of subnets and plans are read where they lie: a call gives the places of what stands at a place,
//! or the number there, and none where something else stands. What that is, is a function of the bytes: a
//! line, a word, a number or a part in quotes in `specs/Fronts.antt`, the words and fields of a line in
//! `specs/Fields.antt`, digits in `specs/Digits.antt`. Readings, which answer a value or a fault, are joined by
//! `specs/Readings.antt`. The lemmas that readers and writers share, as of digits that are written and read
//! back, are in `proofs/`.
//!
//! A reader takes the time of the bytes that it passes over and no memory; a writer that of the digits that it
//! appends, and room for them.
#![tactic(auto)]

mod fronts;
mod laws;
mod pushes;
#[cfg(test)]
mod tests;

pub use fronts::{
    Line, Span, is_blank, next_line, read_dec, read_desc, read_hex, read_quoted, word,
};
pub use laws::lines_are_met;
pub use pushes::{push, push_dec, push_hex4, push_hex16, push_port3, push_two};
