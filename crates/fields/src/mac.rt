// MAC Configuration, block 09 (the manual's table 14): entry i is port i's.
ghost use Rattle.std.specs.Prelude.{◌≡◌, ◌<◌};
ghost use Rattle.image.specs.Layout.{Held, image_in};
ghost use Rattle.image.specs.declared.tables.Table.TheVariants.{MacConfiguration};
ghost use Rattle.fields.specs.Fields.{vlanprio, port_vlanid, drpuntag, egress, ingress};

use crate::bits::field;
use image::tables::Table;

// VLANPRIO, 24:22
pub fn vlanprio(image: &[u32], i: usize) -> u64
    requires { Held MacConfiguration i image.now }
    ensures { (result ≡ vlanprio (image_in image.now) i) × (result < 8) }
{
    field(image, Table::MacConfiguration, i, 24, 22)
}

// VLANID, 21:10
pub fn vlanid(image: &[u32], i: usize) -> u64
    requires { Held MacConfiguration i image.now }
    ensures { (result ≡ port_vlanid (image_in image.now) i) × (result < 4096) }
{
    field(image, Table::MacConfiguration, i, 21, 10)
}

// DRPUNTAG, bit 5
pub fn drpuntag(image: &[u32], i: usize) -> u64
    requires { Held MacConfiguration i image.now }
    ensures { (result ≡ drpuntag (image_in image.now) i) × (result < 2) }
{
    field(image, Table::MacConfiguration, i, 5, 5)
}

// EGRESS, bit 2
pub fn egress(image: &[u32], i: usize) -> u64
    requires { Held MacConfiguration i image.now }
    ensures { (result ≡ egress (image_in image.now) i) × (result < 2) }
{
    field(image, Table::MacConfiguration, i, 2, 2)
}

// INGRESS, bit 1
pub fn ingress(image: &[u32], i: usize) -> u64
    requires { Held MacConfiguration i image.now }
    ensures { (result ≡ ingress (image_in image.now) i) × (result < 2) }
{
    field(image, Table::MacConfiguration, i, 1, 1)
}
