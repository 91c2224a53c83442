// What refuses a call before its own numbers are looked at: 31, 30 and 39. `Sound` is asked in each contract, here, in `row` and in `judge`, and no type has it:
// docs/ENTRIES.md names these functions.
ghost use Rattle.std.specs.Prelude.{◌≡◌, ◌^◌, ◌<◌, ◌≤◌, ◌||◌, nat_lt};
ghost use Rattle.image.specs.Layout.{image_in};
ghost use Rattle.image.specs.Sound.{Sound};
ghost use Rattle.ledger.specs.Row.{credit, last, many, cell};
ghost use Rattle.ledger.specs.Above.{Tells, meter_over};
ghost use Rattle.ledger.specs.Refusals.{refused_by};
ghost use Rattle.ledger.specs.Range.{latest, units_over, full_of, credit_over, octets_off, counts_off, tiles_off, times_over, out_of_range, unloaded, standing};

use crate::refusal::Refusal;
use crate::{
    CELLS, CREDIT, DROPPED, DROPS, FRAMES, LAST, METERS, OCTETS, PARTITIONS, PORTS, SINCE, UNITS,
};
use image::tables::Table;

// The latest time, 2^48 - 1 µs.
pub const LATEST: u64 = 281474976710655;

// The most frames of which 4,100 octets each fit in 64 bits.
const MANY: u64 = 4499205871636476;

// A number whose top bit is set exactly where v is above `most`: a loop ors such numbers, without a branch, and tests one.
fn above(most: u64, v: u64) -> u64
    requires { most < 2 ^ 63 }
    ensures { Tells (nat_lt most v) result }
{
    std::num::wrapping_sub_u64(most, v) | v
}

// A partition has more units left than its PART_SPC.
fn units_over(image: &[u32], row: &[u64; CELLS]) -> bool
    requires { Sound image.now }
    ensures { result ≡ units_over (image_in image.now) row.now }
{
    let mut all: u64 = 0;
    for j in 0..PARTITIONS {
        all |= above(fields::parameters::part_spc(image, j), row[UNITS + j]);
    }
    all >> 63 == 1
}

// What meter k holds when it is full; nothing where its entry is not loaded.
pub fn full(image: &[u32], k: usize) -> u64
    requires { Sound image.now }
    ensures { (result ≡ full_of (image_in image.now) k) × (result < 524288000001) }
{
    if k < image::count(image, Table::Policing) {
        return fields::policing::smax(image, k) * 8000000;
    }
    0
}

// Meter k holds more than `most`, or was set after the last time: a flag in the top bit, as `above`.
fn meter_over(row: &[u64; CELLS], k: usize, most: u64) -> u64
    requires { (k < many credit) × (most < 2 ^ 63) × (cell row.now last 0 ≤ latest) }
    ensures { Tells (meter_over row.now k most) result }
{
    above(most, row[CREDIT + k]) | above(row[LAST], row[SINCE + k])
}

// A meter holds more than when it is full, or was set after the last time: those with an entry first, then the others, which hold nothing when they are full. Two loops, since one would
// test in each turn whether the entry is there.
fn meters_over(image: &[u32], row: &[u64; CELLS]) -> bool
    requires { Sound image.now × (cell row.now last 0 ≤ latest) }
    ensures { result ≡ (credit_over (image_in image.now) row.now || times_over row.now) }
{
    let entries = image::count(image, Table::Policing);
    let mut all: u64 = 0;
    for k in 0..entries {
        all |= meter_over(row, k, full(image, k));
    }
    for k in entries..METERS {
        all |= meter_over(row, k, 0);
    }
    all >> 63 == 1
}

// Octets that so many frames cannot have. Fewer than 4 a frame wrap to more than 4,096 a frame, as long as 4,100 a frame fit in 64 bits: one comparison
// then tells both bounds. For more frames than that no octets are too many.
fn octets_off(count: u64, octets: u64) -> bool
    ensures { result ≡ octets_off count octets }
{
    if MANY < count {
        return octets / 4 < count;
    }
    4096 * count < std::num::wrapping_sub_u64(octets, 4 * count)
}

// A tile's counts that no frames give. A port without frames has no other counts either, which most ports of a bench are.
fn counts_off(frames: u64, drops: u64, octets: u64, dropped: u64) -> bool
    ensures { result ≡ counts_off frames drops octets dropped }
{
    if frames == 0 {
        return drops != 0 || (octets != 0 || 0 < dropped);
    }
    frames < drops || octets_off(frames, octets) || octets_off(drops, dropped) || octets < dropped
}

// A `for`: with `any` over the ports its clause did not close.
fn tiles_off(row: &[u64; CELLS]) -> bool
    ensures { result ≡ tiles_off row.now }
{
    for p in 0..PORTS {
        if counts_off(
            row[FRAMES + p],
            row[DROPS + p],
            row[OCTETS + p],
            row[DROPPED + p],
        ) {
            return true;
        }
    }
    false
}

// 39
pub fn out_of_range(image: &[u32], row: &[u64; CELLS]) -> bool
    requires { Sound image.now }
    ensures { result ≡ out_of_range (image_in image.now) row.now }
{
    LATEST < row[LAST] || (units_over(image, row) || (tiles_off(row) || meters_over(image, row)))
}

// 31, 30.
pub fn unloaded(image: &[u32]) -> Result<(), Refusal>
    ensures { refused_by result ≡ unloaded image.now }
{
    if image::too_short(image) {
        return Err(Refusal::BufferTooShort);
    }
    if loaded::not_loaded(image) {
        return Err(Refusal::ImageNotLoaded);
    }
    Ok(())
}

// 31, 30, 39.
pub fn standing(image: &[u32], row: &[u64; CELLS]) -> Result<(), Refusal>
    ensures { refused_by result ≡ standing image.now row.now }
{
    unloaded(image)?;
    if out_of_range(image, row) {
        return Err(Refusal::LedgerOutOfRange);
    }
    Ok(())
}
