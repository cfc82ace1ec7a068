//! One lexeme: a function for each byte or class that it may begin with, and the choice between them.

ghost use Rattle.std.specs.Prelude.{◌≡◌, ◌<◌, ◌+◌, length, drop};
ghost use Rattle.verilog_lex.specs.Scan.{scan, scan_word, scan_number, scan_escape, scan_slash, scan_tick, scan_paren};
ghost use Rattle.verilog_lex.specs.Stepping.{step_at};

use crate::byte_classes::{is_blank, is_mark, is_reserved, is_skipped, is_start};
use crate::closing::{attribute_end, comment_end};
use crate::runs::{digits_end, graphic_end, is_small, line_end, name_end};
use crate::token::{LexWhy, TokenKind};

/// What stands at a place: something to skip or a token, with its end, or a fault, with its place.
#[derive(Clone, Copy)]
pub(crate) enum Step {
    Skip(usize),
    Take(TokenKind, usize),
    Fault(LexWhy, usize),
}

/// A name or a reserved word.
fn word(text: &[u8], at: usize) -> Step
    requires { at < length text.now }
    ensures { result ≡ step_at at (scan_word (drop at text.now)) }
{
    let end = name_end(text, at);
    if is_reserved(&text[at..end]) {
        return Step::Take(TokenKind::Reserved, end);
    }
    Step::Take(TokenKind::Name, end)
}

/// A number, or one that is too big.
fn number(text: &[u8], at: usize) -> Step
    requires { at < length text.now }
    ensures { result ≡ step_at at (scan_number (drop at text.now)) }
{
    let end = digits_end(text, at);
    if is_small(&text[at..end]) {
        return Step::Take(TokenKind::Number, end);
    }
    Step::Fault(LexWhy::BigNumber, at)
}

/// Behind a backslash: an escaped name.
fn escape(text: &[u8], at: usize) -> Step
    requires { at < length text.now }
    ensures { result ≡ step_at at (scan_escape (drop (at + 1) text.now)) }
{
    let end = graphic_end(text, at + 1);
    if end == at + 1 {
        return Step::Fault(LexWhy::EmptyEscape, at);
    }
    if end == text.len() {
        return Step::Take(TokenKind::Escaped, end);
    }
    if is_blank(text[end]) {
        return Step::Take(TokenKind::Escaped, end);
    }
    Step::Fault(LexWhy::BadByte, end)
}

/// Behind a slash: a comment.
fn slash(text: &[u8], at: usize) -> Step
    requires { at < length text.now }
    ensures { result ≡ step_at at (scan_slash (drop (at + 1) text.now)) }
{
    if at + 1 == text.len() {
        return Step::Fault(LexWhy::BadByte, at);
    }
    if text[at + 1] == b'/' {
        return Step::Skip(line_end(text, at + 2));
    }
    if text[at + 1] != b'*' {
        return Step::Fault(LexWhy::BadByte, at);
    }
    match comment_end(text, at + 2) {
        Some(end) => Step::Skip(end),
        None => Step::Fault(LexWhy::UnendedComment, at),
    }
}

/// At an opening parenthesis: an attribute or the mark.
fn parenthesis(text: &[u8], at: usize) -> Step
    requires { at < length text.now }
    ensures { result ≡ step_at at (scan_paren (drop (at + 1) text.now)) }
{
    if at + 1 == text.len() {
        return Step::Take(TokenKind::Mark, at + 1);
    }
    if text[at + 1] != b'*' {
        return Step::Take(TokenKind::Mark, at + 1);
    }
    match attribute_end(text, at + 2) {
        Some(end) => Step::Skip(end),
        None => Step::Fault(LexWhy::UnendedAttribute, at),
    }
}

/// Behind a backtick: a directive.
fn directive(text: &[u8], at: usize) -> Step
    requires { at < length text.now }
    ensures { result ≡ step_at at (scan_tick (drop (at + 1) text.now)) }
{
    if at + 1 == text.len() {
        return Step::Fault(LexWhy::BadByte, at);
    }
    if !is_start(text[at + 1]) {
        return Step::Fault(LexWhy::BadByte, at);
    }
    let end = name_end(text, at + 1);
    if is_skipped(&text[at + 1..end]) {
        return Step::Skip(line_end(text, at + 1));
    }
    Step::Fault(LexWhy::Directive, at)
}

/// The lexeme at a place.
pub(crate) fn next_step(text: &[u8], at: usize) -> Step
    requires { at < length text.now }
    ensures { result ≡ step_at at (scan (drop at text.now)) }
{
    let byte = text[at];
    if is_start(byte) {
        return word(text, at);
    }
    if byte.is_ascii_digit() {
        return number(text, at);
    }
    if is_blank(byte) {
        return Step::Skip(at + 1);
    }
    if byte == b'\\' {
        return escape(text, at);
    }
    if byte == b'/' {
        return slash(text, at);
    }
    if byte == b'`' {
        return directive(text, at);
    }
    if byte == b'(' {
        return parenthesis(text, at);
    }
    if is_mark(byte) {
        return Step::Take(TokenKind::Mark, at + 1);
    }
    Step::Fault(LexWhy::BadByte, at)
}
