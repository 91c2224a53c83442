// CRC-32 of one word, into both registers, by tables that stand with the code (crc_word_bytes): nothing is made first, and nothing is lent.
// A word's four lookups do not wait for each other, as those of the plain loop do. A word's bytes and the two registers take turns in loops,
// since a lookup is one load only where the tables have one caller; the compiler unrolls both. It is for writes of one word; longer runs have
// their own crates.
#![tactic(auto)]

ghost use Rattle.std.specs.Prelude.{◌≡◌};
ghost use Rattle.crc.specs.Crc.{bits_out, word_in};

use crc_both::Both;
use crc_word_bytes::byte;

// What a word leaves: its bytes from the lowest on, fewer of them still to leave with each. Not one with `kept` of crc_short: a lookup is one load only where its
// tables have one caller, and the number is chosen in the loop itself.
fn leaves(w: u32) -> u32
    ensures { result ≡ bits_out 32 w }
{
    let mut rest = w;
    let mut left: u32 = 0;
    for j in 0..4u32 {
        let b = byte(rest);
        let u = match j {
            0 => b.four,
            1 => b.three,
            2 => b.two,
            _ => b.one,
        };
        left ^= u;
        rest >>= 8;
    }
    left
}

// A word goes into both.
pub fn word_in_both(both: Both, w: u32) -> Both
    ensures { (result.block ≡ word_in both.block w) × (result.stream ≡ word_in both.stream w) }
{
    let mut registers = [both.block ^ w, both.stream ^ w];
    for r in &mut registers {
        *r = leaves(*r);
    }
    let [block, stream] = registers;
    Both { block, stream }
}
