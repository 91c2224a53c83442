// The ledger that is kept over a list of records: one row of numbers, lent to whoever brings it up to date. Where each part starts comes from this one list.
#![tactic(auto)]

pub mod range;
pub mod refusal;

pub const PARTITIONS: usize = 8;

const METERS: usize = 45;

const PORTS: usize = 5;

// Units left of each partition.
pub const UNITS: usize = 0;

// Each meter's credit, in millionths of a bit, and its time in µs.
pub const CREDIT: usize = UNITS + PARTITIONS;

pub const SINCE: usize = CREDIT + METERS;

// Each port's frames and drops, and the sums of L over them.
pub const FRAMES: usize = SINCE + METERS;

pub const DROPS: usize = FRAMES + PORTS;

pub const OCTETS: usize = DROPS + PORTS;

pub const DROPPED: usize = OCTETS + PORTS;

// The last verdict's time.
pub const LAST: usize = DROPPED + PORTS;

pub const CELLS: usize = LAST + 1;

// The row by value: its parts stand one behind the other in one array, as the eight members of C's `struct tailbow_ledger` do (include/tailbow.h).
#[derive(Clone, Copy)]
pub struct Ledger {
    pub cells: [u64; CELLS],
}
