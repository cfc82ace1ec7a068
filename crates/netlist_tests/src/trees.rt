//! Texts with their trees, and the places of texts that have none.

ghost use Rattle.std.specs.Prelude.{◌≤◌, ◌^◌, length};

use std::alloc::Global;
use std::test::Fail;
use verilog_lex::lex;
use verilog_tree::{ParseFault, parse, words_spell_one_tree};

/// The token at which parsing a text stops, with the offset that is printed for it: its first byte, or the text's length at the
/// end. Nothing where the text has a tree, and a fault where memory or the text's tokens are wanting.
fn place(alloc: Global, text: &[u8]) -> Result<Option<(u32, usize)>, ParseFault>
    requires { length text.now ≤ 2 ^ 24 }
{
    let Ok(tokens) = lex(alloc, text) else {
        return Err(ParseFault::Memory);
    };
    match parse(alloc, text, &tokens) {
        Ok(_) => Ok(None),
        Err(ParseFault::NoTree { at }) => match tokens.get(at as usize) {
            Some(token) => Ok(Some((at, token.start as usize))),
            None => Ok(Some((at, text.len()))),
        },
        Err(ParseFault::Memory) => Err(ParseFault::Memory),
    }
}

#[test]
fn texts_are_trees_or_stop_at_a_token(rt: HostRuntime) -> Result<(), Fail> {
    words_spell_one_tree();
    let table: [(&str, Option<(u32, usize)>); 20] = [
        ("", None),
        ("module m(a);input a;endmodule", None),
        ("module m; endmodule module n(); endmodule", None),
        ("module m(input wire [3:0] a, b, output c);endmodule", None),
        (
            "module m; assign {a, b[0]} = {c[1:0], {d}}, e = f; endmodule",
            None,
        ),
        (
            "module m; x u(), v(,), w(a,), \\t[0] (.a(b), .c()); endmodule",
            None,
        ),
        ("module top(input clk", Some((5, 20))),
        ("module top(input clk  ", Some((5, 22))),
        ("module m(a,);endmodule", Some((5, 11))),
        ("module m; x u(.a(b), \\c ); endmodule", Some((12, 22))),
        ("module m(a, input b);endmodule", Some((5, 12))),
        ("module m(inout a);endmodule", Some((3, 9))),
        ("module m; reg a; endmodule", Some((3, 10))),
        ("module m; x u; endmodule", Some((5, 13))),
        ("module m(input [3] a);endmodule", Some((6, 17))),
        ("module m; wire a endmodule", Some((5, 17))),
        ("module m; endmodule;", Some((4, 19))),
        ("module m", Some((2, 8))),
        ("endmodule", Some((0, 0))),
        ("module input; endmodule", Some((1, 7))),
    ];
    for (text, wanted) in table {
        if text.len() <= 1000 {
            assert_eq!(rt; place(rt.alloc(), text.as_bytes())?, wanted);
        } else {
            assert!(rt; false);
        }
    }
    Ok(())
}

/// An `assign` from so many braces within one another.
fn braces(text: &mut Vec<u8>, depth: u32) -> Result<(), std::alloc::AllocError> {
    text.extend_from_slice(b"module m;assign a=")?;
    for _ in 0..depth {
        text.push(b'{')?;
    }
    text.push(b'b')?;
    for _ in 0..depth {
        text.push(b'}')?;
    }
    text.extend_from_slice(b";endmodule")
}

#[test]
fn braces_nest_64_deep(rt: HostRuntime) -> Result<(), Fail> {
    for (depth, wanted) in [(64u32, None), (65, Some((6 + 64, 18 + 64)))] {
        let mut text: Vec<u8> = Vec::new(rt.alloc());
        assert!(rt; braces(&mut text, depth).is_ok());
        if text.len() <= 1000 {
            assert_eq!(rt; place(rt.alloc(), text.as_slice())?, wanted);
        } else {
            assert!(rt; false);
        }
    }
    Ok(())
}
