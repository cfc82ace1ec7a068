//! What is wrong with the bytes of a cell table or a timing table, and in which row.
ghost use Rattle.rsfq_ids.specs.declared.table_fault.TableWhy.TheVariants.{Memory};
ghost use Rattle.std.specs.Prelude.{◌≡◌};

use crate::list::NoMemory;
use thiserror::Error;

/// The first cause for which a row is none of its table. Columns count from 0.
#[derive(Clone, Copy, Debug, Drop, PartialEq, Eq, Error)]
pub enum TableWhy {
    /// A field is no UTF-8.
    #[error("utf8")]
    Utf8,
    /// Row 0 is not the head of the table, or there is no row.
    #[error("header")]
    Header,
    /// The row has this number of fields.
    #[error("fields {0}")]
    Fields(u64),
    /// The cell's name is no plain name, or is reserved.
    #[error("name")]
    Name,
    /// There is no such kind of cell, or role of a port.
    #[error("kind")]
    Kind,
    /// The pins are not those of the kind, or not distinct; the port is missing, or must not be there.
    #[error("pins")]
    Pins,
    /// The truth string is not that of the kind and the number of pins.
    #[error("function")]
    Function,
    /// The field of this column is not one or more digits, or is not empty where it must be.
    #[error("number {0}")]
    Number(u32),
    /// The number of this column is above 1,000,000,000 fs, or 0 where it must not be.
    #[error("range {0}")]
    OutOfRange(u32),
    /// The least time is above the greatest.
    #[error("interval")]
    Interval,
    /// This earlier row says the same: it has the cell's name, or the period.
    #[error("repeated {0}")]
    Repeated(u32),
    /// No row gives the period.
    #[error("period")]
    Period,
    /// Memory could not be had, and the row says nothing.
    #[error("out of memory")]
    Memory,
}

/// The first row, from 0, that is none of its table, and the first cause.
#[derive(Clone, Copy, Debug, Drop, PartialEq, Eq, Error)]
#[error("{row} {why}")]
pub struct TableFault {
    pub row: u32,
    pub why: TableWhy,
}

impl From<NoMemory> for TableWhy {
    ghost from_gives = { λ _ why. why ≡ Memory };

    fn from(_: NoMemory) -> TableWhy {
        TableWhy::Memory
    }
}
