//! Texts with known tokens and faults.
//!
//! `lex` is proved to answer the one reading or the first fault that the definitions give. These tables say that the definitions mean what
//! the format says. The wanted answers are written by hand.

use rsfq_ids::list::{List, NoMemory};
use std::alloc::{AllocError, Global};
use std::test::Fail;
use verilog_lex::{
    LexWhy, Token, TokenKind, blanks_between_are_all, every_text_divides, is_blank, is_plain_name,
    lex, texts_divide_in_one_way, tokens_are_words, written_words_are_read,
};

/// The tokens, each with a blank behind it: a reserved word as `@input`, an escaped name as `\a+b`, a number as `#12`, others as they stand.
fn listed(alloc: Global, text: &[u8], tokens: &[Token]) -> Result<Vec<u8>, AllocError> {
    let mut list = Vec::new(alloc);
    for token in tokens {
        match token.kind {
            TokenKind::Reserved => list.push(b'@')?,
            TokenKind::Escaped => list.push(b'\\')?,
            TokenKind::Number => list.push(b'#')?,
            TokenKind::Name | TokenKind::Mark => {}
        }
        if token.start <= token.end {
            if let Some(bytes) = text.get(token.start as usize..token.end as usize) {
                list.extend_from_slice(bytes)?;
            }
        }
        list.push(b' ')?;
    }
    Ok(list)
}

/// A netlist as a synthesis tool writes it.
const NETLIST: &str = "/* made by a synthesis tool */
`timescale 1ps/1fs
(* top = 1 *)
module top(clk, a, y);
  input clk;
  wire clk;
  input [1:0] a;
  wire [1:0] a;
  output [1:0] y;
  wire [1:0] y;
  (* src = \"top.v:7.3-7.30\" *)
  pass \\p$0 (.c(clk), .i(a), .o(y));
endmodule
module pass(input c, input [1:0] i, output [1:0] o);
  wire \\t.1 , t0;
  assign o = {\\t.1 , t0};
  SPL cs(.a(c), .q0(c0), .q1(c1));
  DFF \\d[0] (.a(i[0]), .clk(c0), .q(m)), \\d[1] (i[1], c1, \\t.1 );
  SPL x(.a(m), .q0(t0), .q1());
endmodule
";

const NETLIST_TOKENS: &str = "@module top ( clk , a , y ) ; \
@input clk ; @wire clk ; @input [ #1 : #0 ] a ; @wire [ #1 : #0 ] a ; @output [ #1 : #0 ] y ; @wire [ #1 : #0 ] y ; \
pass \\p$0 ( . c ( clk ) , . i ( a ) , . o ( y ) ) ; @endmodule \
@module pass ( @input c , @input [ #1 : #0 ] i , @output [ #1 : #0 ] o ) ; \
@wire \\t.1 , t0 ; @assign o = { \\t.1 , t0 } ; \
SPL cs ( . a ( c ) , . q0 ( c0 ) , . q1 ( c1 ) ) ; \
DFF \\d[0] ( . a ( i [ #0 ] ) , . clk ( c0 ) , . q ( m ) ) , \\d[1] ( i [ #1 ] , c1 , \\t.1 ) ; \
SPL x ( . a ( m ) , . q0 ( t0 ) , . q1 ( ) ) ; @endmodule ";

#[test]
fn reads_tokens(rt: HostRuntime) {
    every_text_divides();
    texts_divide_in_one_way();
    written_words_are_read();
    for (text, wanted) in [
        (NETLIST, NETLIST_TOKENS),
        ("", ""),
        (" \t\r\n\u{c}", ""),
        ("()[]{},;:.=", "( ) [ ] { } , ; : . = "),
        ("1a a1 _c a$b", "#1 a a1 _c a$b "),
        ("0999999999 0000000000", "#0999999999 #0000000000 "),
        ("module modules \\module", "@module modules \\module "),
        ("\\a+b 1", "\\a+b #1 "),
        ("\\a/*b\t\\(*", "\\a/*b \\(* "),
        ("x/**/y//z", "x y "),
        ("/***/a/*//*/b", "a b "),
        ("a//b\rc\nd", "a d "),
        ("(* a = \"\\\" *)\" *)x", "x "),
        ("(**)x(*)*)y", "x y "),
        ("(* \\*)x", "x "),
        ("a `timescale 1ns/1ps /* x\nb", "a b "),
        ("`celldefine\n`endcelldefine", ""),
        ("(* a = \"b\n*)c\"\n*)/* d\n */e", "e "),
        ("a//", "a "),
        (
            "999999999 000000000999999999",
            "#999999999 #000000000999999999 ",
        ),
        (
            "inout reg parameter defparam generate always initial function task",
            "@inout @reg @parameter @defparam @generate @always @initial @function @task ",
        ),
        (
            "module endmodule input output wire assign",
            "@module @endmodule @input @output @wire @assign ",
        ),
    ] {
        let bytes = text.as_bytes();
        assert!(rt; bytes.len() < 2_000);
        match lex(rt.alloc(), bytes) {
            Ok(tokens) => {
                tokens_are_words(bytes, tokens.as_slice());
                blanks_between_are_all(bytes, tokens.as_slice());
                match listed(rt.alloc(), bytes, tokens.as_slice()) {
                    Ok(list) => assert_eq!(rt; list.as_slice(), wanted.as_bytes(), "at {text}"),
                    Err(_) => assert!(rt; false, "no memory"),
                }
            }
            Err(_) => assert!(rt; false, "at {text}"),
        }
    }
}

#[test]
fn finds_faults(rt: HostRuntime) {
    for (text, offset, why) in [
        ("/*", 0, LexWhy::UnendedComment),
        ("(* a", 0, LexWhy::UnendedAttribute),
        ("\\\n", 0, LexWhy::EmptyEscape),
        ("`include", 0, LexWhy::Directive),
        ("9999999999", 0, LexWhy::BigNumber),
        (
            "module top(input a, output y);\nassign y = 1'b0;",
            43,
            LexWhy::BadByte,
        ),
        ("assign y = 1'b0;", 12, LexWhy::BadByte),
        ("( *", 2, LexWhy::BadByte),
        ("a *)", 2, LexWhy::BadByte),
        ("\"a\"", 0, LexWhy::BadByte),
        ("(* \\\" *)", 0, LexWhy::UnendedAttribute),
        ("1000000000", 0, LexWhy::BigNumber),
        (" /*/", 1, LexWhy::UnendedComment),
        (" (*)", 1, LexWhy::UnendedAttribute),
        ("(* \" *)", 0, LexWhy::UnendedAttribute),
        ("(* \"\\\" *)", 0, LexWhy::UnendedAttribute),
        ("a ` b", 2, LexWhy::BadByte),
        ("a`", 1, LexWhy::BadByte),
        ("`timescale1 b", 0, LexWhy::Directive),
        ("`timescale$ b", 0, LexWhy::Directive),
        ("x//\n`define", 4, LexWhy::Directive),
        ("a\\ b", 1, LexWhy::EmptyEscape),
        ("a\\", 1, LexWhy::EmptyEscape),
        ("\\\u{1}", 0, LexWhy::EmptyEscape),
        ("\\ab\u{1}", 3, LexWhy::BadByte),
        ("x 01000000000", 2, LexWhy::BigNumber),
        ("a / b", 2, LexWhy::BadByte),
        ("a /", 2, LexWhy::BadByte),
        ("$a", 0, LexWhy::BadByte),
        ("\u{b}", 0, LexWhy::BadByte),
        ("# /*", 0, LexWhy::BadByte),
        ("/* #", 0, LexWhy::UnendedComment),
    ] {
        let bytes = text.as_bytes();
        assert!(rt; bytes.len() < 2_000);
        match lex(rt.alloc(), bytes) {
            Ok(_) => assert!(rt; false, "at {text}"),
            Err(fault) => {
                assert_eq!(rt; fault.offset, offset, "at {text}");
                assert_eq!(rt; fault.why, why, "at {text}");
            }
        }
    }
}

#[test]
fn tells_plain_names_and_keeps_lists(rt: HostRuntime) {
    for (name, wanted) in [
        ("a", true),
        ("_1$", true),
        ("modules", true),
        ("", false),
        ("module", false),
        ("1a", false),
        ("$a", false),
        ("a b", false),
    ] {
        assert_eq!(rt; is_plain_name(name.as_bytes()), wanted, "at {name}");
    }
    assert!(rt; is_blank(12));
    assert!(rt; !is_blank(11));
    let mut list: List<u32> = List::of(Vec::new(rt.alloc()));
    assert_eq!(rt; list.push(7), Ok::<(), NoMemory>(()));
    assert_eq!(rt; list.get(0), Some(&7));
    assert!(rt; list.get(1).is_none());
}

/// Bytes from 127 on stand in comments, attributes and skipped directives alone.
#[test]
fn knows_bytes_that_are_no_characters(rt: HostRuntime) {
    for (text, wanted) in [
        (b"a/*\x7f\x80\xff*/b".as_slice(), b"a b ".as_slice()),
        (b"a//\x80\xff\nb".as_slice(), b"a b ".as_slice()),
        (
            b"(* \x7f\xff \"\x80*)\\\xff\xff*)\" *)b".as_slice(),
            b"b ".as_slice(),
        ),
        (b"`timescale \xff\nb".as_slice(), b"b ".as_slice()),
        (b"\\~! b".as_slice(), b"\\~! b ".as_slice()),
    ] {
        assert!(rt; text.len() < 2_000);
        match lex(rt.alloc(), text) {
            Ok(tokens) => match listed(rt.alloc(), text, tokens.as_slice()) {
                Ok(list) => assert_eq!(rt; list.as_slice(), wanted),
                Err(_) => assert!(rt; false, "no memory"),
            },
            Err(_) => assert!(rt; false, "a fault"),
        }
    }
    for (text, offset, why) in [
        (b"\x7f".as_slice(), 0, LexWhy::BadByte),
        (b"\x80".as_slice(), 0, LexWhy::BadByte),
        (b"a\xff".as_slice(), 1, LexWhy::BadByte),
        (b"`\xfftimescale".as_slice(), 0, LexWhy::BadByte),
        (b"`timescale\n\xc3\xa4".as_slice(), 11, LexWhy::BadByte),
        (b"\\\x7f".as_slice(), 0, LexWhy::EmptyEscape),
        (b"\\\xff".as_slice(), 0, LexWhy::EmptyEscape),
        (b"\\a\x7f".as_slice(), 2, LexWhy::BadByte),
        (b" \\ab\x80 ".as_slice(), 4, LexWhy::BadByte),
        (b"(* \"\xff\\\"*)".as_slice(), 0, LexWhy::UnendedAttribute),
    ] {
        assert!(rt; text.len() < 2_000);
        match lex(rt.alloc(), text) {
            Ok(_) => assert!(rt; false, "no fault at {offset}"),
            Err(fault) => {
                assert_eq!(rt; fault.offset, offset);
                assert_eq!(rt; fault.why, why);
            }
        }
    }
}

/// The longest text, in bytes.
const LONGEST: usize = 16_777_216;

/// The longest text of a head, the same bytes again and again, and a tail.
fn longest(alloc: Global, head: &[u8], body: &[u8], tail: &[u8]) -> Result<Vec<u8>, AllocError> {
    let room = LONGEST
        .saturating_sub(head.len())
        .saturating_sub(tail.len());
    let mut text = Vec::new(alloc);
    text.extend_from_slice(head)?;
    text.extend_from_slice(
        body.repeat(alloc, room.checked_div(body.len()).unwrap_or(0))?
            .as_slice(),
    )?;
    text.extend_from_slice(tail)?;
    Ok(text)
}

/// Each kind of lexeme in texts of exactly 16,777,216 bytes: how many tokens, and the last one.
///
/// It needs the code that LLVM builds: without it the test takes longer than a test may.
#[test]
fn reads_the_longest_texts(rt: HostRuntime) {
    let no_token = Token {
        kind: TokenKind::Mark,
        start: 0,
        end: 0,
    };
    let last = |kind, start| Token {
        kind,
        start,
        end: 16_777_216,
    };
    for (head, body, tail, count, wanted) in [
        ("", " ", "", 0, no_token),
        ("", "\n\t", "", 0, no_token),
        ("//", "x", "", 0, no_token),
        ("/*", "*", "*/", 0, no_token),
        ("/*", "/ *-", "*/", 0, no_token),
        ("(*", "*", "*)", 0, no_token),
        ("(* ", "\"*)\\\"abc\" ", " *)", 0, no_token),
        ("(* ", "a=1, ", " *)", 0, no_token),
        ("`timescale", " ", "", 0, no_token),
        ("", "a", "", 1, last(TokenKind::Name, 0)),
        ("\\", "~", "", 1, last(TokenKind::Escaped, 1)),
        ("", "0", "9", 1, last(TokenKind::Number, 0)),
        ("", " ", "module", 1, last(TokenKind::Reserved, 16_777_210)),
        ("", "\n", ";", 1, last(TokenKind::Mark, 16_777_215)),
        ("", "ab ", ";", 5_592_406, last(TokenKind::Mark, 16_777_215)),
    ] {
        match longest(
            rt.alloc(),
            head.as_bytes(),
            body.as_bytes(),
            tail.as_bytes(),
        ) {
            Ok(text) => {
                assert_eq!(rt; text.len(), LONGEST, "at {head}{body}{tail}");
                match lex(rt.alloc(), text.as_slice()) {
                    Ok(tokens) => {
                        assert_eq!(rt; tokens.len(), count, "at {head}{body}{tail}");
                        if count > 0 {
                            let at = count - 1;
                            assert_eq!(rt; tokens.get(at), Some(&wanted), "at {head}{body}{tail}");
                        }
                    }
                    Err(_) => assert!(rt; false, "at {head}{body}{tail}"),
                }
            }
            Err(_) => assert!(rt; false, "no memory"),
        }
    }
}

/// Faults print as their cause and their place.
#[test]
fn prints_faults(rt: HostRuntime) -> Result<(), Fail> {
    for (text, wanted) in [
        ("a #", "bad byte at byte 2"),
        (" /*", "unended comment at byte 1"),
        (" (*", "unended attribute at byte 1"),
        ("a \\", "empty escape at byte 2"),
        ("`include", "directive at byte 0"),
        ("x 1000000000", "big number at byte 2"),
    ] {
        let bytes = text.as_bytes();
        assert!(rt; bytes.len() < 2_000);
        match lex(rt.alloc(), bytes) {
            Ok(_) => assert!(rt; false, "at {text}"),
            Err(fault) => {
                let printed = format!(in rt.alloc(); "{fault}")?;
                assert_eq!(rt; printed.as_str(), wanted);
            }
        }
    }
    Ok(())
}
