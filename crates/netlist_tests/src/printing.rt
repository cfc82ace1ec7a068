//! Texts with the printed forms of their trees.

ghost use Rattle.std.specs.Prelude.{◌≤◌, ◌^◌, length};

use itoa::Buffer;
use std::alloc::Global;
use std::test::Fail;
use verilog_lex::lex;
use verilog_print::{print, printed_trees_are_read_back};
use verilog_tree::parse;

/// The printed form of the tree of a text, or a word in place of it.
fn printed(alloc: Global, text: &[u8], out: &mut Vec<u8>)
    requires { length text.now ≤ 2 ^ 24 }
{
    match lex(alloc, text) {
        Ok(tokens) => match parse(alloc, text, &tokens) {
            Ok(source) => {
                let _ = print(alloc, &source, out);
            }
            Err(_) => {
                let _ = out.extend_from_slice(b"no tree");
            }
        },
        Err(_) => {
            let _ = out.extend_from_slice(b"no tokens");
        }
    }
}

#[test]
fn trees_print_and_are_read_back(rt: HostRuntime) -> Result<(), Fail> {
    printed_trees_are_read_back();
    let table: [(&str, &str); 5] = [
        (
            "module m(a);input a;endmodule",
            "module m ( a ) ;\ninput a ;\nendmodule\n",
        ),
        (
            "/* no ports */ module \\m ();endmodule module n;endmodule",
            "module m ;\nendmodule\nmodule n ;\nendmodule\n",
        ),
        (
            "module m(output wire[007:0]a,b,input c);wire[0:3]d,\\wire ;endmodule",
            "module m ( output wire [ 7 : 0 ] a , b , input c ) ;\nwire [ 0 : 3 ] d , \\wire ;\nendmodule\n",
        ),
        (
            "module m;output wire[1:0]a;assign a={b[3:1],c[0]},d={{e}};endmodule",
            "module m ;\noutput wire [ 1 : 0 ] a ;\nassign a = { b [ 3 : 1 ] , c [ 0 ] } , d = { { e } } ;\nendmodule\n",
        ),
        (
            "module m;x \\t[0] (.a(b),.c()),u(),v(,),w(a,,{b});endmodule",
            "module m ;\nx \\t[0] ( . a ( b ) , . c ( ) ) , u ( ) , v ( , ) , w ( a , , { b } ) ;\nendmodule\n",
        ),
    ];
    for (text, wanted) in table {
        let mut once: Vec<u8> = Vec::new(rt.alloc());
        let mut twice: Vec<u8> = Vec::new(rt.alloc());
        if text.len() <= 1000 {
            printed(rt.alloc(), text.as_bytes(), &mut once);
        }
        if once.len() <= 1000 {
            printed(rt.alloc(), once.as_slice(), &mut twice);
        }
        assert!(rt; once.as_slice() == wanted.as_bytes());
        assert!(rt; twice.as_slice() == wanted.as_bytes());
    }
    Ok(())
}

/// Instances in their printed form.
fn instances(text: &mut Vec<u8>, count: u32) -> Result<(), std::alloc::AllocError> {
    let mut buffer = Buffer::new();
    for number in 0..count {
        text.extend_from_slice(b"DFF \\u[")?;
        text.extend_from_slice(buffer.format(number).as_bytes())?;
        text.extend_from_slice(b"] ( . a ( { b , c [ 3 ] } ) , . q ( n ) ) ;\n")?;
    }
    Ok(())
}

#[test]
fn a_large_text_prints_as_it_was(rt: HostRuntime) -> Result<(), Fail> {
    let mut text: Vec<u8> = Vec::new(rt.alloc());
    assert!(rt; text.extend_from_slice(b"module m ;\n").is_ok());
    assert!(rt; instances(&mut text, 80_000).is_ok());
    assert!(rt; text.extend_from_slice(b"endmodule\n").is_ok());
    assert!(rt; 4_000_000 < text.len());
    let mut again: Vec<u8> = Vec::new(rt.alloc());
    if text.len() <= 16_777_216 {
        printed(rt.alloc(), text.as_slice(), &mut again);
    }
    assert!(rt; again.as_slice() == text.as_slice());
    Ok(())
}
