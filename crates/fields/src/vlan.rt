// VLAN Lookup, block 07 (the manual's table 12).
ghost use Rattle.std.specs.Prelude.{◌≡◌, ◌<◌};
ghost use Rattle.image.specs.Layout.{Held, image_in};
ghost use Rattle.image.specs.declared.tables.Table.TheVariants.{VlanLookup};
ghost use Rattle.fields.specs.Fields.{vmemb_port, vlan_bc, tag_port, vlanid};

use crate::bits::field;
use image::tables::Table;

// VMEMB_PORT, 53:49
pub fn vmemb_port(image: &[u32], i: usize) -> u64
    requires { Held VlanLookup i image.now }
    ensures { (result ≡ vmemb_port (image_in image.now) i) × (result < 32) }
{
    field(image, Table::VlanLookup, i, 53, 49)
}

// VLAN_BC, 48:44
pub fn vlan_bc(image: &[u32], i: usize) -> u64
    requires { Held VlanLookup i image.now }
    ensures { (result ≡ vlan_bc (image_in image.now) i) × (result < 32) }
{
    field(image, Table::VlanLookup, i, 48, 44)
}

// TAG_PORT, 43:39
pub fn tag_port(image: &[u32], i: usize) -> u64
    requires { Held VlanLookup i image.now }
    ensures { (result ≡ tag_port (image_in image.now) i) × (result < 32) }
{
    field(image, Table::VlanLookup, i, 43, 39)
}

// VLANID, 38:27
pub fn vlanid(image: &[u32], i: usize) -> u64
    requires { Held VlanLookup i image.now }
    ensures { (result ≡ vlanid (image_in image.now) i) × (result < 4096) }
{
    field(image, Table::VlanLookup, i, 38, 27)
}
