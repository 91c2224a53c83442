// The numbers that a load state is lent in, one by one: which phase, table or answer a number is, and the halves of a number. There are six, two
// fields to a number but for the words placed and due, low half first: phase and told, table, placed, due, first and second, stream and block. The
// upper half of the second number is no part of the state.
// The phase is 0 for word 0, which is also a load not yet begun; 1, 2, 3 for a block's two header words and their checksum; 4 for its data
// and their checksum; 5 once an answer has been told, which is `told`. The table is its place in the rows; outside phase 4 nothing reads it.
// C lends and is told these numbers, so they are no enums here: `tailbow_write` gives back what stands in them (`numbers_back`).
// Functions and no `From`: docs/ENTRIES.md names them, a number alone is no phase, and `Phase` and `Answer` are of `stream`.
#![tactic(auto)]

ghost use Rattle.std.specs.Prelude.{◌≡◌, ◌<◌};
ghost use Rattle.flat_numbers.specs.Flat.{low, high, joined, phase_number, told_in, kept, place_in, phase_of, is_load, number_of, FreshLoad};

use image::tables;
use image::tables::{TABLES, Table};
use stream::{Answer, Phase};

// The number of "more", which document 01 gives none. No load tells it as its answer, and no load state has been told it.
pub const MORE: u32 = 0xFFFF_FFFF;

// 2^32, by which a number is taken apart into its halves.
pub const HALF: u64 = 4294967296;

pub fn number_of(answer: Answer) -> u32
    ensures { result ≡ number_of answer }
{
    match answer {
        Answer::More => MORE,
        Answer::Loaded => 0,
        Answer::Refused(n) => n,
    }
}

pub fn low(x: u64) -> u32
    ensures { result ≡ low x }
{
    (x % HALF) as u32
}

pub fn high(x: u64) -> u32
    ensures { result ≡ high x }
{
    (x / HALF) as u32
}

pub fn joined(low: u32, high: u32) -> u64
    ensures { result ≡ joined low high }
{
    u64::from(low) + u64::from(high) * HALF
}

pub fn phase_number(phase: Phase) -> u32
    ensures { result ≡ phase_number phase }
{
    match phase {
        Phase::Device => 0,
        Phase::Id => 1,
        Phase::Length => 2,
        Phase::Sum => 3,
        Phase::Data => 4,
        Phase::Told(_) => 5,
    }
}

// The answer that was told; before that, `spare`.
pub fn told_in(spare: u32, phase: Phase) -> u32
    ensures { result ≡ told_in spare phase }
{
    match phase {
        Phase::Told(n) => n,
        _ => spare,
    }
}

// `spare`, which stood there, where the phase has not moved, else 0.
pub fn kept(before: u32, spare: u32, phase: u32) -> u32
    ensures { result ≡ kept before spare phase }
{
    if before == phase { spare } else { 0 }
}

// The place of a block's table; outside a block, `spare`.
pub fn place_in(spare: u32, phase: Phase, table: Table) -> u32
    ensures { result ≡ place_in spare phase table }
{
    match phase {
        Phase::Data => tables::row_of(table).place as u32,
        _ => spare,
    }
}

// Are these the numbers of a load state?
pub fn is_load(numbers: &[u64; 6]) -> bool
    ensures { result ≡ is_load numbers.now }
{
    match numbers[0] % HALF {
        0..=3 => true,
        4 => ((numbers[1] % HALF) as usize) < TABLES,
        5 => high(numbers[0]) != MORE,
        _ => false,
    }
}

pub fn phase_of(number: u64, told: u32) -> Phase
    ensures { result ≡ phase_of number told }
{
    match number {
        0 => Phase::Device,
        1 => Phase::Id,
        2 => Phase::Length,
        3 => Phase::Sum,
        4 => Phase::Data,
        _ => Phase::Told(told),
    }
}

// A load before its first write.
pub fn fresh_load(load: &mut [u64; 6])
    ensures { FreshLoad load.new }
{
    *load = [0; 6];
}
