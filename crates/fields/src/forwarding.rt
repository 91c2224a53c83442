// L2 Forwarding, block 08 (the manual's table 13).
ghost use Rattle.std.specs.Prelude.{◌≡◌, ◌<◌};
ghost use Rattle.image.specs.Layout.{Held, image_in};
ghost use Rattle.image.specs.declared.tables.Table.TheVariants.{Forwarding};
ghost use Rattle.fields.specs.Fields.{bc_domain, reach_port, fl_domain, vlan_pmap};

use crate::bits::field;
use image::tables::Table;

// BC_DOMAIN, 63:59
pub fn bc_domain(image: &[u32], i: usize) -> u64
    requires { Held Forwarding i image.now }
    ensures { (result ≡ bc_domain (image_in image.now) i) × (result < 32) }
{
    field(image, Table::Forwarding, i, 63, 59)
}

// REACH_PORT, 58:54
pub fn reach_port(image: &[u32], i: usize) -> u64
    requires { Held Forwarding i image.now }
    ensures { (result ≡ reach_port (image_in image.now) i) × (result < 32) }
{
    field(image, Table::Forwarding, i, 58, 54)
}

// FL_DOMAIN, 53:49
pub fn fl_domain(image: &[u32], i: usize) -> u64
    requires { Held Forwarding i image.now }
    ensures { (result ≡ fl_domain (image_in image.now) i) × (result < 32) }
{
    field(image, Table::Forwarding, i, 53, 49)
}

// VLAN_PMAP(j), three bits up from 25 + 3j
pub fn vlan_pmap(image: &[u32], i: usize, j: usize) -> u64
    requires held { Held Forwarding i image.now }
    requires j_bound { j < 8 }
    ensures { (result ≡ vlan_pmap (image_in image.now) i j) × (result < 8) }
{
    field(image, Table::Forwarding, i, 27 + 3 * j, 25 + 3 * j)
}
