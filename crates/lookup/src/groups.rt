// A search by groups of sixteen entries, for any table.
ghost use Rattle.std.specs.Prelude.{◌≡◌, false, not, List, ℕ, ◌+◌, ◌-◌, ◌^◌, ◌≤◌, ◌<◌, length, MatchOption};
ghost use Rattle.laws.specs.Scan.{some_below};
ghost use Rattle.image.specs.Layout.{Held, image_words, image_in, count_of};
ghost use Rattle.image.specs.Rows.{most_of};
ghost use Rattle.image.specs.declared.tables.Table.{Table};
ghost use Rattle.lookup.specs.Groups.{from, like};

use std::ops::Range;

// A table, and the number of each of its entries that a group is asked for.
pub trait Column {
    ghost table: { Table };

    ghost number: { List ℕ → ℕ → ℕ };

    fn number(image: &[u32], i: usize) -> u32
        requires { Held table i image.now }
        ensures value { result ≡ number (image_in image.now) i }
        ensures small { result < 2 ^ 31 };
}

// Is the number of none of entries i to i + 15 the key? No test stands in the loop, so that the entries go side by side.
fn none_has<C: Column>(image: &[u32], key: u32, i: usize) -> bool
    requires last { Held C.table (i + 15) image.now }
    requires small { key < 2 ^ 31 }
    ensures { result ≡ not (some_below 16 (from i (like (C.number (image_in image.now)) key))) }
{
    let mut all: u32 = 1 << 31;
    for k in 0..16 {
        all &= crate::apart(C::number(image, i + k), key);
    }
    all >> 31 == 1
}

// From entry i on, where the first group with the number starts, or where what is left behind the groups does; none before it has the number.
fn passed<C: Column>(image: &[u32], key: u32, i: usize, n: usize) -> usize
    requires room { (image_words ≤ length image.now) × (n ≤ most_of C.table) }
    requires count { (n ≡ count_of (image_in image.now) C.table) × (i ≤ n) }
    requires small { key < 2 ^ 31 }
    ensures { (i ≤ result) × (result ≤ n) × (some_below (result - i) (from i (like (C.number (image_in image.now)) key)) ≡ false) }
{
    // A `while` by sixteens: where it stops is what is answered.
    let mut start = i;
    while 16 <= n - start && none_has::<C>(image, key, start) {
        start += 16;
    }
    start
}

// From entry i on the next group with the number, or what is left behind the groups; none before it has the number. The loop stands apart, so that a search
// keeps the range in registers.
#[inline(always)]
pub fn next_group<C: Column>(image: &[u32], key: u32, i: usize, n: usize) -> Option<Range<usize>>
    requires room { (image_words ≤ length image.now) × (n ≤ most_of C.table) }
    requires count { (n ≡ count_of (image_in image.now) C.table) × (i ≤ n) }
    requires small { key < 2 ^ 31 }
    ensures { MatchOption result
        (some_below (n - i) (from i (like (C.number (image_in image.now)) key)) ≡ false)
        (λ group. (i ≤ group.start) × (group.start < group.end) × (group.end ≤ n)
        × (some_below (group.start - i) (from i (like (C.number (image_in image.now)) key)) ≡ false)) }
{
    let start = passed::<C>(image, key, i, n);
    if start < n {
        Some(start..start + 16.min(n - start))
    } else {
        None
    }
}
