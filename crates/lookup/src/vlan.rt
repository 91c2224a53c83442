// The entry of 07 for a VLAN.
ghost use Rattle.std.specs.Prelude.{◌≡◌, ◌≤◌, ◌<◌, length, IfSome};
ghost use Rattle.image.specs.Layout.{image_words, image_in, count_of};
ghost use Rattle.image.specs.declared.tables.Table.TheVariants.{VlanLookup};
ghost use Rattle.image.specs.Rows.{most_of};
ghost use Rattle.fields.specs.Fields.{vlanid};
ghost use Rattle.lookup.specs.Found.{found};
ghost use Rattle.lookup.specs.Vlan.{vlan_at};

use crate::groups::{Column, next_group};
use image::tables::Table;

// VLANID of an entry.
struct VlanIds;

impl Column for VlanIds {
    ghost table = { VlanLookup };

    ghost number = { λ image i. vlanid image i };

    fn number(image: &[u32], i: usize) -> u32 {
        fields::vlan::vlanid(image, i) as u32
    }
}

// The first entry of 07 with this VLANID.
pub fn find(image: &[u32], vlanid: u64) -> Option<usize>
    requires { (image_words ≤ length image.now) × (count_of (image_in image.now) VlanLookup ≤ most_of VlanLookup) }
    ensures place { result ≡ found (count_of (image_in image.now) VlanLookup) (vlan_at (image_in image.now) vlanid) }
    ensures within { IfSome result (λ i. i < count_of (image_in image.now) VlanLookup) }
{
    let n = image::count(image, Table::VlanLookup);
    let group = next_group::<VlanIds>(image, (vlanid % 4096) as u32, 0, n)?;
    for i in group.start..n {
        if fields::vlan::vlanid(image, i) == vlanid {
            return Some(i);
        }
    }
    None
}
