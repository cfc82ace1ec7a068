//! The limits of the product, each said once. A quantity that is equal to its limit is accepted.

/// Bytes of a file that `rsfq_signoff` reads.
pub const FILE_LIMIT: usize = 16_777_216;

/// Bytes of a formula or a proof that `rsfq_lrat` reads.
pub const PROOF_FILE_LIMIT: usize = 268_435_456;

/// Cells of a flat circuit.
pub const CELL_LIMIT: u64 = 100_000;

/// Wire bits of a flat circuit, those of inner modules and ports included.
pub const WIRE_LIMIT: u64 = 2_000_000;

/// Levels of modules, the top being the first.
pub const LEVEL_LIMIT: u32 = 64;

/// Concatenations that nest in one another.
pub const BRACE_LIMIT: u32 = 64;

/// Bits of a port.
pub const WIDTH_LIMIT: u64 = 4096;

/// A delay, period, jitter, arrival, strobe's offset, setup, hold or dead time, in femtoseconds.
pub const TIME_LIMIT: u64 = 1_000_000_000;

/// Timing paths that end at one pin.
pub const PIN_LANE_LIMIT: u64 = 64;

/// Timing paths of a circuit.
pub const LANE_LIMIT: u64 = 1_000_000;

/// The depth of a cell or an output, in clock periods.
pub const DEPTH_LIMIT: u64 = 1_000_000;

/// Variables of an AIGER file.
pub const AIG_LIMIT: u64 = 1_000_000;

/// Variables of a formula, and clauses of it.
pub const FORMULA_LIMIT: u32 = 2_147_483_647;

/// Learnt clauses that a user may grant the solver.
pub const CONFLICT_LIMIT: u32 = 1_000_000;

/// Learnt clauses that the solver has where a user grants no number.
pub const CONFLICT_DEFAULT: u32 = 100_000;
