// The tests behind refusal 30, of an image in a lent buffer that is long enough: a count above its limit, rule 20, and an image that is not loaded.
#![tactic(auto)]

ghost use Rattle.std.specs.Prelude.{◌≡◌, ◌≤◌, length};
ghost use Rattle.image.specs.Layout.{image_words, image_in};
ghost use Rattle.image.specs.Loaded.{above, over_limit, incomplete, not_loaded};

use image::tables::{TABLES, Table};
use image::{count, mark, tables};

// A table's count is above its most entries.
fn above(image: &[u32], table: Table) -> bool
    requires { image_words ≤ length image.now }
    ensures { result ≡ above (image_in image.now) table }
{
    tables::row_of(table).most < count(image, table)
}

// Some count is above its table's most entries.
pub fn over_limit(image: &[u32]) -> bool
    requires { image_words ≤ length image.now }
    ensures { result ≡ over_limit (image_in image.now) }
{
    for place in 0..TABLES {
        if above(image, tables::table_at(place)) {
            return true;
        }
    }
    false
}

// Rule 20: a table is missing that has to be there, or has another number of entries than it has to have.
#[tactic(auto, unfolding(image::specs::Loaded::incomplete))]
pub fn incomplete(image: &[u32]) -> bool
    requires { image_words ≤ length image.now }
    ensures { result ≡ incomplete (image_in image.now) }
{
    count(image, Table::Policing) == 0
        || count(image, Table::VlanLookup) == 0
        || count(image, Table::Forwarding) != 13
        || count(image, Table::MacConfiguration) != 5
        || count(image, Table::ForwardingParameters) != 1
        || count(image, Table::GeneralParameters) != 1
        || count(image, Table::XmiiModeParameters) != 1
}

// 30 for a frame, a release, a tile and a fresh ledger.
#[tactic(auto, unfolding(image::specs::Loaded::not_loaded))]
pub fn not_loaded(image: &[u32]) -> bool
    requires { image_words ≤ length image.now }
    ensures { result ≡ not_loaded (image_in image.now) }
{
    mark(image) != 1 || over_limit(image) || incomplete(image)
}
