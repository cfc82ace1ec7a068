//! Rows of tests as data: a file of cases, each of which says what a top call is given and what it must leave.
//!
//! A case begins with a line `case NAME` and goes on to the next. Empty lines and those that begin with `#` are passed over.
//!
//! - `word TEXT`: one more word.
//! - `file NAME`: a file that stands before the call and, where nothing else is said of its name, unchanged behind it.
//! - `after NAME`, `absent NAME`: a file that must stand behind the call, and a name under which none may.
//! - `fails N`, `sink_fails N`: a call on the folder that fails, and a write that does, counted from 1.
//! - `room N`: the bytes that the sink takes, else 1,048,576.
//! - `status N` and `out`: the status, and the bytes that must be written. Each case says both.
//!
//! Below `file`, `after` and `out` stand their bytes: `|TEXT` is a text and a newline, `+TEXT` a text alone, `=HEX` bytes of two
//! digits in hex, `*N TEXT` a text N times, and `@N TEXT` N lines of a text, in each of which `#` stands for its number, counted
//! from 0, and `^` for the next.
#![tactic(auto)]

mod bytes;
mod read;
mod run;

pub use run::{TopCall, run_rows};
