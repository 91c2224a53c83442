// L2 Policing, block 06 (the manual's table 11).
ghost use Rattle.std.specs.Prelude.{◌≡◌, ◌<◌};
ghost use Rattle.image.specs.Layout.{Held, image_in};
ghost use Rattle.image.specs.declared.tables.Table.TheVariants.{Policing};
ghost use Rattle.fields.specs.Fields.{sharindx, smax, rate, maxlen, partition};

use crate::bits::field;
use image::tables::Table;

// SHARINDX, 63:58
pub fn sharindx(image: &[u32], i: usize) -> u64
    requires { Held Policing i image.now }
    ensures { (result ≡ sharindx (image_in image.now) i) × (result < 64) }
{
    field(image, Table::Policing, i, 63, 58)
}

// SMAX, 57:42
pub fn smax(image: &[u32], i: usize) -> u64
    requires { Held Policing i image.now }
    ensures { (result ≡ smax (image_in image.now) i) × (result < 65536) }
{
    field(image, Table::Policing, i, 57, 42)
}

// RATE, 41:26
pub fn rate(image: &[u32], i: usize) -> u64
    requires { Held Policing i image.now }
    ensures { (result ≡ rate (image_in image.now) i) × (result < 65536) }
{
    field(image, Table::Policing, i, 41, 26)
}

// MAXLEN, 25:15
pub fn maxlen(image: &[u32], i: usize) -> u64
    requires { Held Policing i image.now }
    ensures { (result ≡ maxlen (image_in image.now) i) × (result < 2048) }
{
    field(image, Table::Policing, i, 25, 15)
}

// PARTITION, 14:12
pub fn partition(image: &[u32], i: usize) -> u64
    requires { Held Policing i image.now }
    ensures { (result ≡ partition (image_in image.now) i) × (result < 8) }
{
    field(image, Table::Policing, i, 14, 12)
}
