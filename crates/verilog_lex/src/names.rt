//! Which names are written without a backslash.

ghost use Rattle.std.specs.Prelude.{◌≡◌};
ghost use Rattle.verilog_lex.specs.Bytes.{is_plain_name};

use crate::byte_classes::{is_reserved, is_start};
use crate::runs::name_end;

/// Whether a name may be written without a backslash: it is a plain name and not reserved.
pub fn is_plain_name(name: &[u8]) -> bool
    ensures { result ≡ is_plain_name name.now }
{
    if name.is_empty() {
        return false;
    }
    if !is_start(name[0]) {
        return false;
    }
    if name_end(name, 1) < name.len() {
        return false;
    }
    !is_reserved(name)
}
