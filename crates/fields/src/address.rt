// L2 Address Lookup, block 05 (the manual's table 10).
ghost use Rattle.std.specs.Prelude.{◌≡◌, ◌%◌, ◌<◌};
ghost use Rattle.image.specs.Layout.{Held, image_in};
ghost use Rattle.image.specs.declared.tables.Table.TheVariants.{AddressLookup};
ghost use Rattle.fields.specs.Fields.{address_vlanid, macaddr, destports, enfport, index};

use crate::bits::field;
use image::tables::Table;

// VLANID, 95:84
pub fn vlanid(image: &[u32], i: usize) -> u64
    requires { Held AddressLookup i image.now }
    ensures { (result ≡ address_vlanid (image_in image.now) i) × (result < 4096) }
{
    field(image, Table::AddressLookup, i, 95, 84)
}

// MACADDR, 83:36
pub fn macaddr(image: &[u32], i: usize) -> u64
    requires { Held AddressLookup i image.now }
    ensures { (result ≡ macaddr (image_in image.now) i) × (result < 281474976710656) }
{
    field(image, Table::AddressLookup, i, 83, 36)
}

// MACADDR's low 28 bits, which lie in one word
pub fn macaddr_low(image: &[u32], i: usize) -> u64
    requires { Held AddressLookup i image.now }
    ensures { (result ≡ macaddr (image_in image.now) i % 268435456) × (result < 268435456) }
{
    field(image, Table::AddressLookup, i, 63, 36)
}

// DESTPORTS, 35:31
pub fn destports(image: &[u32], i: usize) -> u64
    requires { Held AddressLookup i image.now }
    ensures { (result ≡ destports (image_in image.now) i) × (result < 32) }
{
    field(image, Table::AddressLookup, i, 35, 31)
}

// ENFPORT, bit 30
pub fn enfport(image: &[u32], i: usize) -> u64
    requires { Held AddressLookup i image.now }
    ensures { (result ≡ enfport (image_in image.now) i) × (result < 2) }
{
    field(image, Table::AddressLookup, i, 30, 30)
}

// INDEX, 29:20
pub fn index(image: &[u32], i: usize) -> u64
    requires { Held AddressLookup i image.now }
    ensures { (result ≡ index (image_in image.now) i) × (result < 1024) }
{
    field(image, Table::AddressLookup, i, 29, 20)
}
