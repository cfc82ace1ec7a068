//! The lines of a timing table.

use rsfq_ids::circuit::PortUse;
use rsfq_ids::list::List;
use rsfq_ids::name::Name;

/// What a line says of a port, in femtoseconds.
#[derive(Debug, Drop)]
pub struct EnvLine {
    /// The printed name of a bit, or the name of a whole port.
    pub port: Name,
    pub used: PortUse,
    /// How much later than its tick a clock pulse may come, in femtoseconds. 0 except for the clock.
    pub jitter: i64,
}

/// A timing table: the clock's period in femtoseconds, and the lines on ports in order.
#[derive(Debug, Drop)]
pub struct Env {
    pub period: i64,
    pub lines: List<EnvLine>,
}
