// A load state as the six lent numbers of `flat_numbers`, and back. The conversions stand alone, without a call of the loader's: nothing of a load is
// needed to see that no number is lost.
#![tactic(auto)]

ghost use Rattle.std.specs.Prelude.{◌≡◌, ◌+◌, ◌^◌, ◌<◌, ◌≤◌, get_or};
ghost use Rattle.flat_numbers.specs.Flat.{joined, table_in, load_in, stored_in, moved};

use crc_both::Both;
use flat_numbers::{HALF, high, joined, kept, low, phase_number, phase_of, place_in, told_in};
use image::tables;
use image::tables::Table;
use stream::{Load, Phase};

// A load state in its numbers. Functions and no `From`, here and back: docs/ENTRIES.md names them, and the numbers that stood before are kept in part.
pub fn store(numbers: &mut [u64; 6], load: Load)
    ensures { numbers.new ≡ stored_in numbers.old load }
{
    let phase = load.phase;
    let table = load.table;
    let told = told_in(high(numbers[0]), phase);
    let number = phase_number(phase);
    let place = place_in(kept(low(numbers[0]), low(numbers[1]), number), phase, table);
    let spare = high(numbers[1]);
    numbers[0] = joined(number, told);
    numbers[1] = joined(place, spare);
    numbers[2] = load.placed as u64;
    numbers[3] = load.due as u64;
    numbers[4] = joined(load.first, load.second);
    numbers[5] = joined(load.stream, load.block);
}

// The table of a place in the rows, in the data phase; in any other the fresh state's.
fn table_in(phase: Phase, place: usize) -> Table
    ensures { result ≡ table_in phase place }
{
    match phase {
        Phase::Data => tables::table_at(place),
        _ => Table::AddressLookup,
    }
}

// The load state of these numbers.
pub fn load_in(numbers: &[u64; 6]) -> Load
    ensures { result ≡ load_in numbers.now }
{
    let phase = phase_of(numbers[0] % HALF, high(numbers[0]));
    Load {
        phase,
        table: table_in(phase, (numbers[1] % HALF) as usize),
        placed: numbers[2] as usize,
        due: numbers[3] as usize,
        first: low(numbers[4]),
        second: high(numbers[4]),
        stream: low(numbers[5]),
        block: high(numbers[5]),
    }
}

// The registers of the block and of the stream.
pub fn sums_of(numbers: &[u64; 6]) -> Both
    ensures { (result.block ≡ (load_in numbers.now).block) × (result.stream ≡ (load_in numbers.now).stream) }
{
    Both {
        block: high(numbers[5]),
        stream: low(numbers[5]),
    }
}

// The state after n data words: its first two numbers stay.
pub fn move_on(numbers: &mut [u64; 6], n: u64, sums: Both)
    requires { (n ≤ get_or numbers.old 3 0) × (get_or numbers.old 2 0 + n < 2 ^ 64) }
    ensures { numbers.new ≡ moved numbers.old n (joined sums.stream sums.block) }
{
    let placed = numbers[2];
    let due = numbers[3];
    numbers[2] = placed + n;
    numbers[3] = due - n;
    numbers[4] = 0;
    numbers[5] = joined(sums.stream, sums.block);
}
