// Entries of 05 for an address: one that bars a source from a port, and the one for a destination. Searched by groups, as 07 is in `lookup`.
#![tactic(auto)]

mod search;

ghost use Rattle.std.specs.Prelude.{◌≡◌, ◌+◌, ◌≤◌, ◌<◌, length, IfSome};
ghost use Rattle.image.specs.Layout.{image_words, image_in, count_of};
ghost use Rattle.image.specs.declared.tables.Table.TheVariants.{AddressLookup, LookupParameters};
ghost use Rattle.image.specs.Rows.{most_of};
ghost use Rattle.laws.specs.Scan.{some_below};
ghost use Rattle.lookup.specs.Found.{found};
ghost use Rattle.lookup.specs.Groups.{from};
ghost use Rattle.addresses.specs.Address.{holds, bars, barred, destination_at};
ghost use Rattle.addresses.specs.Leading.{Leading, Kept};

use search::Search;

// Is the port in the mask?
pub fn holds(mask: u64, port: usize) -> bool
    requires { port < 64 }
    ensures { result ≡ holds mask port }
{
    (mask >> port as u64) % 2 == 1
}

// Does one of `count` entries from i on keep this source from this port? It is inlined, so that a count which is a constant at the call is one here.
#[inline(always)]
fn one_bars(search: &Search, port: usize, i: usize, count: usize) -> bool
    requires there { i + count ≤ search.now.len }
    requires port_bound { port < 64 }
    ensures { result ≡ some_below count (from i (bars (image_in search.now.image.now) port search.now.vlan search.now.mac)) }
{
    for k in 0..count {
        if search.bars(port, i + k) {
            return true;
        }
    }
    false
}

// The same of a group. A whole one has a call of its own, with its sixteen as a constant, so that its turns are unrolled.
#[inline(always)]
fn group_bars(search: &Search, port: usize, i: usize, count: usize) -> bool
    requires there { i + count ≤ search.now.len }
    requires port_bound { port < 64 }
    ensures { result ≡ some_below count (from i (bars (image_in search.now.image.now) port search.now.vlan search.now.mac)) }
{
    if count == 16 {
        one_bars(search, port, i, 16)
    } else {
        one_bars(search, port, i, count)
    }
}

// Drop 6: does some entry keep this source from this port?
pub fn barred(image: &[u32], port: usize, vlan: u64, mac: u64) -> bool
    requires image_words_in_bounds { (image_words ≤ length image.now) × (count_of (image_in image.now) AddressLookup ≤ most_of AddressLookup) × (count_of (image_in image.now) LookupParameters ≤ most_of LookupParameters) }
    requires port_bound { port < 64 }
    ensures { result ≡ barred (image_in image.now) port vlan mac }
{
    let search = Search::new(image, vlan, mac);
    let mut passed = 0;
    while let Some(group) = search.next_group(passed) {
        if group_bars(&search, port, group.start, group.end - group.start) {
            return true;
        }
        passed = group.end;
    }
    false
}

// A match, and its INDEX.
#[derive(Clone, Copy)]
struct Best {
    entry: usize,
    index: u64,
}

// Above every INDEX: a search holds it where no entry has matched yet, so that each turn compares one number and asks no Option's tag.
const NO_INDEX: u64 = 1024;

// The best match, entry i looked at too: the one with the lower INDEX, of equal ones the first.
#[inline(always)]
fn better(search: &Search, i: usize, best: Best) -> Best
    requires there { i < search.now.len }
    requires so_far { Kept (image_in search.now.image.now) search.now.vlan search.now.mac i best }
    ensures { Kept (image_in search.now.image.now) search.now.vlan search.now.mac (i + 1) result }
{
    if !search.matches(i) {
        return best;
    }
    let index = search.index(i);
    if best.index <= index {
        return best;
    }
    Best { entry: i, index }
}

// The best match, `count` entries from i on looked at too.
#[inline(always)]
fn best_from(search: &Search, i: usize, count: usize, best: Best) -> Best
    requires there { i + count ≤ search.now.len }
    requires so_far { Kept (image_in search.now.image.now) search.now.vlan search.now.mac i best }
    ensures { Kept (image_in search.now.image.now) search.now.vlan search.now.mac (i + count) result }
{
    let mut best = best;
    for k in 0..count {
        best = better(search, i + k, best);
    }
    best
}

// The same of a group: a whole one has a call of its own here too.
#[inline(always)]
fn best_from_group(search: &Search, i: usize, count: usize, best: Best) -> Best
    requires there { i + count ≤ search.now.len }
    requires so_far { Kept (image_in search.now.image.now) search.now.vlan search.now.mac i best }
    ensures { Kept (image_in search.now.image.now) search.now.vlan search.now.mac (i + count) result }
{
    if count == 16 {
        best_from(search, i, 16, best)
    } else {
        best_from(search, i, count, best)
    }
}

// The match that a search holds at its end, if it holds one.
#[inline(always)]
fn held(search: &Search, best: Best) -> Option<Best>
    requires { Kept (image_in search.now.image.now) search.now.vlan search.now.mac search.now.len best }
    ensures { Leading (image_in search.now.image.now) search.now.vlan search.now.mac search.now.len result }
{
    if best.index < NO_INDEX {
        Some(best)
    } else {
        None
    }
}

// The match with the lowest INDEX, of equal ones the first.
pub fn destination(image: &[u32], vlan: u64, mac: u64) -> Option<usize>
    requires { (image_words ≤ length image.now) × (count_of (image_in image.now) AddressLookup ≤ most_of AddressLookup) × (count_of (image_in image.now) LookupParameters ≤ most_of LookupParameters) }
    ensures place { result ≡ found (count_of (image_in image.now) AddressLookup) (destination_at (image_in image.now) vlan mac) }
    ensures within { IfSome result (λ i. i < count_of (image_in image.now) AddressLookup) }
{
    let search = Search::new(image, vlan, mac);
    let mut best = Best {
        entry: 0,
        index: NO_INDEX,
    };
    let mut passed = 0;
    while let Some(group) = search.next_group(passed) {
        best = best_from_group(&search, group.start, group.end - group.start, best);
        passed = group.end;
    }
    let best = held(&search, best)?;
    Some(best.entry)
}
