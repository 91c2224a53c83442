// Retagging, block 12 (the manual's table 23). Its other fields are kept and not read.
ghost use Rattle.std.specs.Prelude.{◌≡◌, ◌<◌};
ghost use Rattle.image.specs.Layout.{Held, image_in};
ghost use Rattle.image.specs.declared.tables.Table.TheVariants.{Retagging};
ghost use Rattle.fields.specs.Fields.{ing_port, vlan_ing, vlan_egr};

use crate::bits::field;
use image::tables::Table;

// ING_PORT, 58:54
pub fn ing_port(image: &[u32], i: usize) -> u64
    requires { Held Retagging i image.now }
    ensures { (result ≡ ing_port (image_in image.now) i) × (result < 32) }
{
    field(image, Table::Retagging, i, 58, 54)
}

// VLAN_ING, 53:42
pub fn vlan_ing(image: &[u32], i: usize) -> u64
    requires { Held Retagging i image.now }
    ensures { (result ≡ vlan_ing (image_in image.now) i) × (result < 4096) }
{
    field(image, Table::Retagging, i, 53, 42)
}

// VLAN_EGR, 41:30
pub fn vlan_egr(image: &[u32], i: usize) -> u64
    requires { Held Retagging i image.now }
    ensures { (result ≡ vlan_egr (image_in image.now) i) × (result < 4096) }
{
    field(image, Table::Retagging, i, 41, 30)
}
