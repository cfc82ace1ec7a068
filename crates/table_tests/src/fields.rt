//! Records of comma-separated text, their fields and names.

use rsfq_ids::table_fault::TableWhy;
use std::test::Fail;
use table_fields::checks::{check_head, read_time};
use table_fields::names::is_plain_name;
use table_fields::records::read_records;

#[test]
fn records_fields_and_names(rt: HostRuntime) -> Result<(), Fail> {
    let Ok(records) = read_records(rt.alloc(), b"\na,b\n\n\"c d\",e,f") else {
        panic!(rt; "no memory");
    };
    assert_eq!(rt; records.len(), 2);
    assert!(rt; check_head(&records[0], &["a", "b"]).is_ok());
    assert!(rt; check_head(&records[1], &["c d", "e"]).is_err());
    assert_eq!(rt; read_time(b"007", 3, 0), Ok(7));
    assert_eq!(rt;
        read_time(b"1000000001", 3, 0),
        Err(TableWhy::OutOfRange(3))
    );
    assert!(rt; is_plain_name(b"_a$9"));
    assert!(rt; !is_plain_name(b"task"));
    Ok(())
}
