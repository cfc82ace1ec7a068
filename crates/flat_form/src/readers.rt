//! What reads each net.

ghost use Rattle.std.specs.Prelude.{length, IfOk, IfSome, IfNone};
ghost use Rattle.rsfq_ids.specs.WellFormed.{IsFlat};
ghost use Rattle.flat_form.specs.Table.{jtl_table};
ghost use Rattle.flat_form.specs.Form.{HasOneReaderEach};
ghost use Rattle.flat_form.specs.Walking.{AreReaders};

use rsfq_ids::circuit::{Flat, Reader};
use rsfq_ids::id::Id;
use rsfq_ids::list::NoMemory;
use std::alloc::Global;

/// The one reader of each net, if it has one. `None` exactly where a net has two.
pub(crate) fn find_readers(
    alloc: Global,
    flat: &Flat,
) -> Result<Option<Vec<Option<Reader>>>, NoMemory>
    requires { IsFlat jtl_table flat.now }
    ensures readers { IfOk result (λ found. IfSome found (λ readers. AreReaders flat.now (length flat.now.pins) readers.items)) }
    ensures two { IfOk result (λ found. IfNone found (¬ HasOneReaderEach flat.now)) }
{
    let mut readers = vec![in alloc; None; flat.nets.len()]?;
    for pin in flat.pins.as_slice() {
        let net = pin.net.index();
        if readers[net].is_some() {
            return Ok(None);
        }
        readers[net] = Some(pin.reader);
    }
    Ok(Some(readers))
}
