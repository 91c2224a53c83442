// Bits of an entry: the one reader that knows how a field lies in an entry's words.
ghost use Rattle.std.specs.Prelude.{◌≡◌, ◌+◌, ◌-◌, ◌*◌, ◌/◌, ◌%◌, ◌^◌, ◌<◌, ◌≤◌};
ghost use Rattle.image.specs.Layout.{Held, image_in};
ghost use Rattle.image.specs.Rows.{size_of};
ghost use Rattle.fields.specs.Fields.{field_of};

use image::tables;
use image::tables::Table;

// The `width` bits of a number from bit `bottom` up.
fn cut(n: u64, bottom: u64, width: u64) -> u64
    requires { (bottom < 32) × (width < 64) }
    ensures { (result ≡ n / 2 ^ bottom % 2 ^ width) × (result < 2 ^ width) }
{
    (n >> bottom) % (1 << width)
}

// Two neighbouring words as one number.
fn pair(low: u32, high: u32) -> u64
    ensures { result ≡ low + high * 4294967296 }
{
    u64::from(low) + u64::from(high) * 4294967296
}

// Bits top:bottom of entry i of a table; the field lies in one word or in two neighbours.
pub fn field(image: &[u32], table: Table, i: usize, top: usize, bottom: usize) -> u64
    requires there { Held table i image.now }
    requires narrow { (bottom ≤ top) × (top < bottom + 48) × (top < 32 * size_of table) × (top / 32 ≤ bottom / 32 + 1) }
    ensures { (result ≡ field_of (image_in image.now) table i top bottom) × (result < 2 ^ (top - bottom + 1)) }
{
    let low = tables::entry_at(table, i) + bottom / 32;
    let shift = (bottom % 32) as u64;
    let width = (top - bottom + 1) as u64;
    if top / 32 == bottom / 32 {
        cut(u64::from(image[low]), shift, width)
    } else {
        cut(pair(image[low], image[low + 1]), shift, width)
    }
}
