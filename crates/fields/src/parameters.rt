// L2 Lookup Parameters, block 0D, and L2 Forwarding Parameters, block 0E (the manual's tables 18 and 19): one entry each.
ghost use Rattle.std.specs.Prelude.{◌≡◌, ◌<◌, ◌≤◌, length};
ghost use Rattle.image.specs.Layout.{Held, image_words, image_in, count_of};
ghost use Rattle.image.specs.Rows.{most_of};
ghost use Rattle.image.specs.declared.tables.Table.TheVariants.{LookupParameters, ForwardingParameters};
ghost use Rattle.fields.specs.Fields.{shared_learn, part_spc};

use crate::bits::field;
use image::count;
use image::tables::Table;

// SHARED_LEARN, bit 5; an absent table means clear, whatever its word holds
pub fn shared_learn(image: &[u32]) -> u64
    requires { (image_words ≤ length image.now) × (count_of (image_in image.now) LookupParameters ≤ most_of LookupParameters) }
    ensures { (result ≡ shared_learn (image_in image.now)) × (result < 2) }
{
    if count(image, Table::LookupParameters) == 0 {
        0
    } else {
        field(image, Table::LookupParameters, 0, 5, 5)
    }
}

// PART_SPC(j), ten bits up from 13 + 10j
pub fn part_spc(image: &[u32], j: usize) -> u64
    requires held { Held ForwardingParameters 0 image.now }
    requires j_bound { j < 8 }
    ensures { (result ≡ part_spc (image_in image.now) j) × (result < 1024) }
{
    field(
        image,
        Table::ForwardingParameters,
        0,
        22 + 10 * j,
        13 + 10 * j,
    )
}
