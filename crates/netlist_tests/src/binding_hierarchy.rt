//! Texts with their tops, what these reach, and their rings.

use crate::texts::tree_of;
use bind_hierarchy::{
    Kinds, Meaning, Reach, TopFault, first_duplicate, module_graph, named_top, reach_from,
    single_top,
};
use graph_rings::is_graph;
use rsfq_ids::list::{List, NoMemory};
use rsfq_ids::name::Name;
use rsfq_ids::table::{CellRow, CellTable, Kind};
use std::alloc::Global;
use std::test::Fail;
use verilog_tree::Source;

/// A table with one cell of this name.
fn table_of(alloc: Global, name: &str) -> Result<CellTable, NoMemory> {
    let mut rows = List::new(alloc);
    rows.push(CellRow {
        name: Name::of(alloc, name)?,
        kind: Kind::Jtl,
        inputs: List::new(alloc),
        clock: None,
        outputs: List::new(alloc),
        truth: 0,
        low: 0,
        high: 0,
        setup: 0,
        hold: 0,
        dead: 0,
    })?;
    Ok(CellTable { rows })
}

/// The top and what it reaches.
fn hierarchy_of(
    alloc: Global,
    source: &Source,
    cells: &CellTable,
    top: Option<&str>,
) -> Result<(Result<usize, TopFault>, Option<Reach>), NoMemory> {
    let kinds = Kinds::of(alloc, source, cells)?;
    let graph = module_graph(alloc, source, &kinds)?;
    if !is_graph(&graph) {
        return Err(NoMemory);
    }
    let found = match top {
        Some(name) => named_top(&kinds, name).ok_or(TopFault::NoTop),
        None => single_top(alloc, &graph),
    };
    let reach = match found {
        Ok(at) if at < graph.len() => Some(reach_from(alloc, &graph, at)?),
        _ => None,
    };
    Ok((found, reach))
}

#[test]
fn tops_and_rings_are_found(rt: HostRuntime) -> Result<(), Fail> {
    let table: [(
        &str,
        Option<&str>,
        Result<usize, TopFault>,
        &[usize],
        &[usize],
    ); 12] = [
        ("", None, Err(TopFault::NoTop), &[], &[]),
        ("module a;endmodule", None, Ok(0), &[0], &[]),
        (
            "module a;endmodule",
            Some("b"),
            Err(TopFault::NoTop),
            &[],
            &[],
        ),
        (
            "module a;endmodule",
            Some("DFF"),
            Err(TopFault::NoTop),
            &[],
            &[],
        ),
        (
            "module a;endmodule module b;endmodule",
            None,
            Err(TopFault::TwoTops(0, 1)),
            &[],
            &[],
        ),
        (
            "module a;endmodule module b;endmodule",
            Some("b"),
            Ok(1),
            &[1],
            &[],
        ),
        (
            "module a;a u();endmodule",
            None,
            Err(TopFault::NoTop),
            &[],
            &[],
        ),
        ("module a;a u();endmodule", Some("a"), Ok(0), &[0], &[0]),
        (
            "module b;DFF u();endmodule module t;a u();endmodule module a;b u(),v();endmodule",
            None,
            Ok(1),
            &[0, 2, 1],
            &[],
        ),
        (
            "module b;a u();endmodule module t;a u();endmodule module a;b u(),v();endmodule",
            None,
            Ok(1),
            &[2, 0, 1],
            &[0, 2],
        ),
        (
            "module t;x u();endmodule module a;b u();endmodule module b;a u();endmodule",
            None,
            Ok(0),
            &[0],
            &[],
        ),
        (
            "module a;endmodule module t;a u();endmodule module a;t u();endmodule",
            Some("a"),
            Ok(0),
            &[0],
            &[],
        ),
    ];
    let cells = table_of(rt.alloc(), "DFF")?;
    for (text, top, wanted, order, ring) in table {
        let source = tree_of(rt.alloc(), text.as_bytes())?;
        let (found, reach) = hierarchy_of(rt.alloc(), &source, &cells, top)?;
        assert_eq!(rt; found, wanted, "{text}");
        if let Some(reach) = &reach {
            assert_eq!(rt; reach.order.as_slice(), order, "{text}");
            for (at, reached) in reach.reached.iter().enumerate() {
                assert_eq!(rt; *reached, order.contains(&at), "{text}");
            }
            match &reach.ring {
                Some(found) => assert_eq!(rt; found.as_slice(), ring, "{text}"),
                None => assert_eq!(rt; 0, ring.len(), "{text}"),
            }
        }
    }
    Ok(())
}

/// The meanings of `a`, `b`, `c` and `DFF`, and the place of the first module whose name is given twice.
#[test]
fn names_have_meanings(rt: HostRuntime) -> Result<(), Fail> {
    let table: [(&str, &str); 3] = [
        (
            "module a;endmodule module b;endmodule module a;endmodule",
            "Some(Module(0)) Some(Module(1)) None Some(Cell(0)), Some(2)",
        ),
        (
            "module a;endmodule module DFF;endmodule",
            "Some(Module(0)) None None Some(Module(1)), Some(1)",
        ),
        (
            "module a;endmodule module b;endmodule",
            "Some(Module(0)) Some(Module(1)) None Some(Cell(0)), None",
        ),
    ];
    let alloc = rt.alloc();
    let cells = table_of(alloc, "DFF")?;
    for (text, wanted) in table {
        let source = tree_of(alloc, text.as_bytes())?;
        let kinds = Kinds::of(alloc, &source, &cells)?;
        let a = kinds.meaning("a");
        let b = kinds.meaning("b");
        let c = kinds.meaning("c");
        let cell = kinds.meaning("DFF");
        let twice = first_duplicate(&source, &kinds);
        let answer = format!(in alloc; "{a:?} {b:?} {c:?} {cell:?}, {twice:?}")?;
        assert_eq!(rt; answer.as_str(), wanted);
    }
    Ok(())
}
