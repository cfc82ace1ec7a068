//! The tokens of a text, lexeme by lexeme from the left.

ghost use Rattle.std.specs.Prelude.{◌≡◌, ◌≤◌, ◌<◌, ◌^◌, length, drop, IfOk, IfErr};
ghost use Rattle.verilog_lex.specs.Reads.{IsOnlyReading, IsRefusal, token_start};
ghost use Rattle.verilog_lex.specs.Scan.{scan};
ghost use Rattle.verilog_lex.specs.Stepping.{step_at, Within, Passes, Breaks};

use crate::steps::{Step, next_step};
use crate::token::{LexFault, LexWhy, Token, TokenKind};
use rsfq_ids::list::List;
use std::alloc::Global;

/// The lexeme at a place, which lies in the text.
#[inline]
fn lexeme_at(text: &[u8], at: usize) -> Step
    requires { at < length text.now }
    ensures is { result ≡ step_at at (scan (drop at text.now)) }
    ensures within { Within (length text.now) at result }
{
    next_step(text, at)
}

/// Where a token begins whose lexeme begins at a place.
#[inline]
fn start_of(kind: TokenKind, at: usize) -> usize
    requires { at < 2 ^ 63 }
    ensures { result ≡ token_start kind at }
{
    match kind {
        TokenKind::Escaped => at + 1,
        TokenKind::Name | TokenKind::Reserved | TokenKind::Number | TokenKind::Mark => at,
    }
}

/// Passes one lexeme, and keeps its token. Answers where it ends.
fn pass(text: &[u8], at: usize, tokens: &mut List<Token>) -> Result<usize, LexFault>
    requires place { at < length text.now }
    requires limit { length text.now ≤ 2 ^ 24 }
    ensures ok { IfOk result (λ end. Passes text.now at tokens.old tokens.new end) }
    ensures err { IfErr result (λ f. Breaks text.now at f) }
{
    match lexeme_at(text, at) {
        Step::Skip(end) => Ok(end),
        Step::Take(kind, end) => {
            let token = Token {
                kind,
                start: start_of(kind, at) as u32,
                end: end as u32,
            };
            match tokens.push(token) {
                Ok(()) => Ok(end),
                Err(_) => Err(LexFault {
                    offset: at as u32,
                    why: LexWhy::Memory,
                }),
            }
        }
        Step::Fault(why, place) => Err(LexFault {
            offset: place as u32,
            why,
        }),
    }
}

/// The tokens of a text of at most 16,777,216 bytes, in order.
///
/// A text is read as a list of blanks, comments, attributes, skipped directives and tokens of the subset of IEEE Std 1364-2005 that
/// `specs/Lexemes.antt` defines. It has at most one reading. `Ok` comes exactly where it has one, and holds its tokens.
///
/// # Errors
///
/// Where the text has no reading, its first fault in text order. Only `LexWhy::Memory` may come of any text, and then no token is kept.
pub fn lex(alloc: Global, bytes: &[u8]) -> Result<List<Token>, LexFault>
    requires { length bytes.now ≤ 2 ^ 24 }
    ensures tokens { IfOk result (λ tokens. IsOnlyReading bytes.now tokens) }
    ensures fault { IfErr result (λ fault. IsRefusal bytes.now fault) }
{
    let mut tokens = List::new(alloc);
    let mut at = 0;
    'more: while at < bytes.len() {
        at = pass(bytes, at, &mut tokens)?;
    }
    Ok(tokens)
}
