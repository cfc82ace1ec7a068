//! Texts with the sites of their first modules.

use crate::texts::tree_of;
use bind_sites::{Operand, Site, Sites, Sort};
use std::alloc::{AllocError, Global};
use std::test::Fail;

fn operand_text(alloc: Global, operand: Operand<'_>) -> Result<String, AllocError> {
    match operand.select {
        None => format!(in alloc; "{}", operand.name),
        Some((left, right)) => format!(in alloc; "{}[{left}:{right}]", operand.name),
    }
}

/// A range as it is written; `-` for none.
fn range_text(alloc: Global, range: Option<(u32, u32)>) -> Result<String, AllocError> {
    match range {
        None => format!(in alloc; "-"),
        Some((left, right)) => format!(in alloc; "{left}:{right}"),
    }
}

fn site_text(alloc: Global, site: Site<'_>) -> Result<String, AllocError> {
    match site {
        Site::Module(name) => format!(in alloc; "module {name}"),
        Site::Listed(name) => format!(in alloc; "listed {name}"),
        Site::Port {
            name,
            output,
            range,
        } => {
            let range = range_text(alloc, range)?;
            format!(in alloc; "port {name} {output} {range}")
        }
        Site::Wire { name, range } => {
            let range = range_text(alloc, range)?;
            format!(in alloc; "wire {name} {range}")
        }
        Site::Assign { .. } => format!(in alloc; "assign"),
        Site::Instance { kind, name, .. } => format!(in alloc; "instance {kind} {name}"),
        Site::Named { kind, port, expr } => {
            let some = expr.is_some();
            format!(in alloc; "named {kind} {port} {some}")
        }
        Site::Ordered { kind, place, expr } => {
            let some = expr.is_some();
            format!(in alloc; "ordered {kind} {place} {some}")
        }
        Site::Assigned(operand) => {
            let text = operand_text(alloc, operand)?;
            format!(in alloc; "assigned {text}")
        }
        Site::Linked(operand) => {
            let text = operand_text(alloc, operand)?;
            format!(in alloc; "linked {text}")
        }
    }
}

/// The sites of the first module of a text, parted by semicolons.
fn listing(alloc: Global, text: &[u8]) -> Result<String, Fail> {
    let source = tree_of(alloc, text)?;
    let owner = source.modules.get(0).ok_or("no module")?;
    let all = Sites::of(alloc, owner)?;
    let mut out = String::new(alloc);
    for site in all.as_slice() {
        let one = site_text(alloc, *site)?;
        out.push_str(one.as_str())?;
        out.push_str("; ")?;
    }
    Ok(out)
}

#[test]
fn modules_are_listed_in_text_order(rt: HostRuntime) -> Result<(), Fail> {
    let table: [(&str, &str); 7] = [
        ("module m; endmodule", "module m; "),
        (
            "module m(a, b); output [3:0] b; input a; wire [3:0] b, c; endmodule",
            "module m; listed a; listed b; port b true 3:0; port a false -; wire b 3:0; wire c 3:0; ",
        ),
        (
            "module m(input wire [0:3] a, b, output c, d);endmodule",
            "module m; listed a; port a false 0:3; listed b; port b false 0:3; listed c; port c true -; listed d; port d true -; ",
        ),
        (
            "module m; assign {a, b[2]} = {{c[1:0]}, d}, e = f; endmodule",
            "module m; assign; assigned a; assigned b[2:2]; assigned c[1:0]; assigned d; assign; assigned e; assigned f; ",
        ),
        (
            "module m; x u(.p({a, b[1]}), .q()), v(); endmodule",
            "module m; instance x u; named x p true; linked a; linked b[1:1]; named x q false; instance x v; ",
        ),
        (
            "module m; x u(a,,b); endmodule",
            "module m; instance x u; ordered x 0 true; linked a; ordered x 1 false; ordered x 2 true; linked b; ",
        ),
        (
            "module m; y w(\\a[0] ); wire t; endmodule",
            "module m; instance y w; ordered y 0 true; linked a[0]; wire t -; ",
        ),
    ];
    for (text, wanted) in table {
        let answer = listing(rt.alloc(), text.as_bytes())?;
        assert_eq!(rt; answer.as_str(), wanted);
    }
    Ok(())
}

#[test]
fn sorts_name_their_sites(rt: HostRuntime) -> Result<(), Fail> {
    let operand = Operand {
        name: "a",
        select: None,
    };
    assert_eq!(rt; Sort::Linked.name(&Site::Linked(operand)), Some("a"));
    assert!(rt; Sort::Wire.name(&Site::Linked(operand)).is_none());
    assert!(rt; Sort::Linked.name(&Site::Assigned(operand)).is_none());
    assert_eq!(rt; operand.whole(), Some("a"));
    Ok(())
}
