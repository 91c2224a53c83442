// The tests of the loading rules after 20: is it broken? One pass each; 21, 22 and 28 share the one over 07. Their numbers and their order are said in `rules`.
// `Bounded` and the marks are asked in each contract, and no type has them: docs/ENTRIES.md names these functions.
#![tactic(auto)]

ghost use Rattle.std.specs.Prelude.{◌≡◌, ◌||◌, true, false, ◌<◌, map, replicate, slice_index_or, slice_set};
ghost use Rattle.image.specs.Layout.{Held, image_in, count_of};
ghost use Rattle.image.specs.Sound.{Bounded};
ghost use Rattle.image.specs.declared.tables.Table.TheVariants.{MacConfiguration, ForwardingParameters, Retagging};
ghost use Rattle.laws.specs.Scan.{flag};
ghost use Rattle.broken.specs.Broken.{vlan_missing, sharindx_beyond, space_over, index_twice, stray, retag_stray};
ghost use Rattle.broken.specs.Passes.{Vlans, VlanMarks};

use image::count;
use image::tables::Table;

// How many values a field has, by its bits in the manual: 12 for a VLANID, 10 for an INDEX. They are no table's size.
pub const VLANIDS: usize = 4096;

const INDICES: usize = 1024;

// What a pass over values below N leaves: a mark for each value that has come, and whether one was marked already when it came.
#[derive(Clone, Copy)]
pub struct Seen<const N: usize> {
    pub again: bool,
    pub marks: [bool; N],
}

impl<const N: usize> Seen<N> {
    fn none() -> Self
        ensures again { result.again ≡ false }
        ensures marks { result.marks ≡ replicate N false }
    {
        Seen {
            again: false,
            marks: [false; N],
        }
    }

    fn mark(&mut self, v: usize)
        requires { v < N }
        ensures again { self.new.again ≡ (self.old.again || slice_index_or self.old.marks v false) }
        ensures marks { self.new.marks ≡ slice_set self.old.marks v true }
    {
        self.again |= self.marks[v];
        self.marks[v] = true;
    }
}

// What one pass over 07 leaves for rules 21, 22 and 28.
pub fn vlans_seen(image: &[u32]) -> Seen<VLANIDS>
    requires { Bounded image.now }
    ensures { Vlans (image_in image.now) (flag result.again) (map flag result.marks) }
{
    let mut seen = Seen::none();
    for i in 0..count(image, Table::VlanLookup) {
        seen.mark(fields::vlan::vlanid(image, i) as usize);
    }
    seen
}

// Rules 22, 23 and 28 go through a table by a loop each, three lines over a test of their own: one over a closure would be no shorter.

// Rule 22: each of the five ports, whether it takes frames or not, by a mark for each VLANID of 07.
pub fn vlan_missing(image: &[u32], marks: &[bool; VLANIDS]) -> bool
    requires bounded { Bounded image.now }
    requires image_value { count_of (image_in image.now) MacConfiguration ≡ 5 }
    requires marked { VlanMarks (image_in image.now) marks.now }
    ensures { result ≡ vlan_missing (image_in image.now) }
{
    for port in 0..5 {
        if !marks[fields::mac::vlanid(image, port) as usize] {
            return true;
        }
    }
    false
}

// Rule 25, as rule 21.
pub fn index_twice(image: &[u32]) -> bool
    requires { Bounded image.now }
    ensures { result ≡ index_twice (image_in image.now) }
{
    let mut seen = Seen::<INDICES>::none();
    for i in 0..count(image, Table::AddressLookup) {
        seen.mark(fields::address::index(image, i) as usize);
    }
    seen.again
}

// Rule 23.
pub fn sharindx_beyond(image: &[u32]) -> bool
    requires { Bounded image.now }
    ensures { result ≡ sharindx_beyond (image_in image.now) }
{
    let n = count(image, Table::Policing);
    for i in 0..n {
        if n <= fields::policing::sharindx(image, i) as usize {
            return true;
        }
    }
    false
}

// Rule 24.
pub fn space_over(image: &[u32]) -> bool
    requires bounded { Bounded image.now }
    requires image_value { count_of (image_in image.now) ForwardingParameters ≡ 1 }
    ensures { result ≡ space_over (image_in image.now) }
{
    let mut sum: u64 = 0;
    for j in 0..8 {
        sum += fields::parameters::part_spc(image, j);
    }
    929 < sum
}

// Entry i of 12 has a VLAN without a mark: its VLAN_ING or its VLAN_EGR.
fn stray(image: &[u32], marks: &[bool; VLANIDS], i: usize) -> bool
    requires held { Held Retagging i image.now }
    requires marked { VlanMarks (image_in image.now) marks.now }
    ensures { result ≡ stray (image_in image.now) i }
{
    !marks[fields::retagging::vlan_ing(image, i) as usize]
        || !marks[fields::retagging::vlan_egr(image, i) as usize]
}

// Rule 28: each entry of 12, whatever its ING_PORT, by the marks that rule 22 asks.
pub fn retag_stray(image: &[u32], marks: &[bool; VLANIDS]) -> bool
    requires bounded { Bounded image.now }
    requires marked { VlanMarks (image_in image.now) marks.now }
    ensures { result ≡ retag_stray (image_in image.now) }
{
    for i in 0..count(image, Table::Retagging) {
        if stray(image, marks, i) {
            return true;
        }
    }
    false
}
