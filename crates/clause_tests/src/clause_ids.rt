//! A table over two clauses, one of them empty.
ghost use Rattle.std.specs.Prelude.{◌≡◌, length, IfOk};

use lrat_table::ClauseTable;
use rsfq_ids::circuit::Cnf;
use rsfq_ids::id::{Id, Lit};
use rsfq_ids::list::{List, NoMemory};
use std::alloc::Global;
use std::test::Fail;

/// The formula of one variable, with the clause `1` and the empty clause.
fn two_clauses(alloc: Global) -> Result<Cnf, NoMemory>
    ensures { IfOk result (λ cnf. length cnf.clauses ≡ 2) }
{
    let mut clauses = List::new(alloc);
    let mut positive = List::new(alloc);
    positive.push(Lit::of(0))?;
    clauses.push(positive)?;
    clauses.push(List::new(alloc))?;
    Ok(Cnf { vars: 1, clauses })
}

#[test]
fn clauses_come_and_go(rt: HostRuntime) -> Result<(), Fail> {
    let cnf = two_clauses(rt.alloc())?;
    let added = [Lit::of(0), Lit::of(3)];
    let mut table = ClauseTable::new(rt.alloc(), &cnf)?;
    assert_eq!(rt; table.last(), 2);
    table.add(7, &added)?;
    assert_eq!(rt; table.last(), 7);
    assert_eq!(rt; table.find(1), Some([Lit::of(0)].as_slice()));
    assert!(rt; table.remove(1));
    assert!(rt; !table.remove(1));
    let rows: [(u32, Option<&[Lit]>); 6] = [
        (0, None),
        (1, None),
        (2, Some(&[])),
        (3, None),
        (7, Some(&added)),
        (8, None),
    ];
    for (id, clause) in rows {
        assert_eq!(rt; table.find(id), clause, "{id}");
    }
    assert_eq!(rt; table.last(), 7);
    Ok(())
}
