// CRC-32 over short runs of words, four words a turn, by tables that stand with the code (crc_short_bytes): nothing is made first, and nothing
// is lent.
// The tables are those of two words. A number of an entry holds in its low half what a byte leaves and in its high half the same two words later, so
// that it serves two words of a turn. A turn takes twenty lookups: eight for its second and last word and four for its third, which the
// registers share, and four for its first word with each register.
// The tables are one match, and a lookup is one load only where it has one caller in the whole program: hence the two little loops, over five
// words and over a word's bytes. The compiler unrolls them and loads of each entry the one number that is kept. The order of the five words costs
// least: in others two addresses more are made in each turn. The number is chosen in the loop itself: by a function of its own it is not unrolled.
#![tactic(auto)]

ghost use Rattle.std.specs.Prelude.{◌≡◌, ℕ, ◌/◌, ◌%◌, ◌^◌, ◌<◌, slice_index};
ghost use Rattle.crc.specs.Crc.{bits_out, words_in};
ghost use Rattle.crc_short_bytes.specs.Twice.{twice};
ghost use Rattle.crc_short.specs.Turn.{reach};

use crc_both::{Both, Sums};
use crc_short_bytes::byte;

// What is kept of the k-th of five words: of the first three what a word leaves that one follows, of the last two what one leaves that none follows.
fn kept(w: u32, k: usize) -> u64
    ensures { result ≡ twice (bits_out (reach k) w) }
{
    let mut rest = w;
    let mut left: u64 = 0;
    for j in 0..4u32 {
        let b = byte(rest);
        let u = if k < 3 {
            match j {
                0 => b.eight,
                1 => b.seven,
                2 => b.six,
                _ => b.five,
            }
        } else {
            match j {
                0 => b.four,
                1 => b.three,
                2 => b.two,
                _ => b.one,
            }
        };
        left ^= u;
        rest >>= 8;
    }
    left
}

// What five words leave, each at its place. Words and numbers move up by one in each turn, so that every index is a constant: with the place as the index,
// or the words from an iterator, the compiler keeps them in memory and unrolls nothing, and a run takes more than twice the instructions.
fn five(words: [u32; 5]) -> [u64; 5]
    ensures { (k : ℕ) → k < 5 → slice_index result k ≡ twice (bits_out (reach k) (slice_index words k)) }
{
    let mut rest = words;
    let mut left = [0; 5];
    for k in 0..5 {
        left = [left[1], left[2], left[3], left[4], kept(rest[0], k)];
        rest = [rest[1], rest[2], rest[3], rest[4], rest[4]];
    }
    left
}

// The half of a number that is what a word leaves. Two lines here, and no crate below for them and for the halves of `flat_numbers`, which mean another thing.
fn low(u: u64) -> u32
    ensures { result ≡ u % 2 ^ 32 }
{
    (u % 4294967296) as u32
}

// The half of a number that is two words ahead.
fn ahead(u: u64) -> u32
    ensures { result ≡ u / 2 ^ 32 }
{
    (u >> 32) as u32
}

// The tables that stand with the code.
#[derive(Clone, Copy)]
pub struct Short;

impl Sums for Short {
    fn turn(&self, both: Both, words: &[u32; 4]) -> Both {
        let [v, w, x, y] = *words;
        let left = five([x, both.block ^ v, both.stream ^ v, w, y]);
        let shared = low(left[0]) ^ low(left[4]) ^ ahead(left[3]);
        Both {
            block: ahead(left[1]) ^ shared,
            stream: ahead(left[2]) ^ shared,
        }
    }
}

// Words go into both.
pub fn words_in_both(both: Both, words: &[u32]) -> Both
    ensures { (result.block ≡ words_in both.block words.now) × (result.stream ≡ words_in both.stream words.now) }
{
    Short.words_in(both, words)
}
