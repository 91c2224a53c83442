// A search of 05 for an address on a VLAN, and what it asks of an entry. What makes it and what goes on with it is inlined, so that its numbers stay in
// registers.
ghost use Rattle.std.specs.Prelude.{◌≡◌, false, ◌-◌, ◌%◌, ◌<◌, ◌≤◌, length, eqb, MatchOption};
ghost use Rattle.image.specs.Layout.{image_words, image_in, count_of};
ghost use Rattle.image.specs.declared.tables.Table.TheVariants.{AddressLookup, LookupParameters};
ghost use Rattle.image.specs.Rows.{most_of};
ghost use Rattle.fields.specs.Fields.{shared_learn, macaddr, index};
ghost use Rattle.laws.specs.Scan.{some_below};
ghost use Rattle.lookup.specs.Groups.{from};
ghost use Rattle.addresses.specs.Address.{matches, bars, like_address};

use crate::holds;
use image::tables::Table;
use lookup::groups::{Column, next_group};
use std::ops::Range;

// The low 28 bits of MACADDR.
struct MacAddrs;

impl Column for MacAddrs {
    ghost table = { AddressLookup };

    ghost number = { λ image i. macaddr image i % 268435456 };

    fn number(image: &[u32], i: usize) -> u32 {
        fields::address::macaddr_low(image, i) as u32
    }
}

// What is looked for in an image's 05; how many entries that has and whether SHARED_LEARN is set are read once.
#[derive(Clone, Copy)]
pub struct Search<'a> {
    image: &'a [u32],
    len: usize,
    shared: bool,
    vlan: u64,
    mac: u64,
    ghost whole: { image_words ≤ length image.now },
    ghost counted: { len ≡ count_of (image_in image.now) AddressLookup },
    ghost within: { len ≤ most_of AddressLookup },
    ghost learned: { shared ≡ eqb (shared_learn (image_in image.now)) 1 },
}

impl<'a> Search<'a> {
    #[inline(always)]
    pub fn new(image: &'a [u32], vlan: u64, mac: u64) -> Search<'a>
        requires whole { image_words ≤ length image.now }
        requires within { count_of (image_in image.now) AddressLookup ≤ most_of AddressLookup }
        requires parameters { count_of (image_in image.now) LookupParameters ≤ most_of LookupParameters }
        ensures { (result.image.now ≡ image.now) × (result.vlan ≡ vlan) × (result.mac ≡ mac) × (result.len ≡ count_of (image_in image.now) AddressLookup) }
    {
        Search {
            image,
            len: image::count(image, Table::AddressLookup),
            shared: fields::parameters::shared_learn(image) == 1,
            vlan,
            mac,
        }
    }

    // Has entry i the address, and the VLAN where VLANs are compared?
    pub fn matches(&self, i: usize) -> bool
        requires { i < self.now.len }
        ensures { result ≡ matches (image_in self.now.image.now) self.now.vlan self.now.mac i }
    {
        fields::address::macaddr(self.image, i) == self.mac
            && (self.shared || fields::address::vlanid(self.image, i) == self.vlan)
    }

    // Does entry i keep this source from this port?
    pub fn bars(&self, port: usize, i: usize) -> bool
        requires there { i < self.now.len }
        requires port_bound { port < 64 }
        ensures { result ≡ bars (image_in self.now.image.now) port self.now.vlan self.now.mac i }
    {
        fields::address::enfport(self.image, i) != 0
            && !holds(fields::address::destports(self.image, i), port)
            && self.matches(i)
    }

    // INDEX of entry i.
    pub fn index(&self, i: usize) -> u64
        requires { i < self.now.len }
        ensures { result ≡ index (image_in self.now.image.now) i }
    {
        fields::address::index(self.image, i)
    }

    // From entry i on the next entries that may match; none before them does.
    #[inline(always)]
    pub fn next_group(&self, i: usize) -> Option<Range<usize>>
        requires { i ≤ self.now.len }
        ensures { MatchOption result
            (some_below (self.now.len - i) (from i (like_address (image_in self.now.image.now) (self.now.mac % 268435456))) ≡ false)
            (λ group. (i ≤ group.start) × (group.start < group.end) × (group.end ≤ self.now.len)
            × (some_below (group.start - i) (from i (like_address (image_in self.now.image.now) (self.now.mac % 268435456))) ≡ false)) }
    {
        next_group::<MacAddrs>(self.image, (self.mac % 268435456) as u32, i, self.len)
    }
}
