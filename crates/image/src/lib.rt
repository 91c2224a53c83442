// The image in a lent buffer: its counts and its mark behind the entries, how they are read and written, and the test behind refusal 31.
// No other crate knows where anything stands in it.
// Room for an image (`image_words ≤ length`) is asked in each contract, here and in the crates above, and no type has it: docs/ENTRIES.md names these functions,
// which take any buffer that is long enough.
#![tactic(auto)]

pub mod tables;

ghost use Rattle.std.specs.Prelude.{◌≡◌, ◌<◌, ◌≤◌, length, get_or};
ghost use Rattle.image.specs.Layout.{image_words, image_in, count_of, mark_of, cleared, counted, marked};
ghost use Rattle.image.specs.Loaded.{too_short};

use crate::tables::{TABLES, Table};

// 11,494 words of entries; the counts follow them, then the mark. 26 words are for counts and state.
const COUNTS: usize = 11494;

const MARK: usize = COUNTS + TABLES;

pub const IMAGE_WORDS: usize = COUNTS + 26;

// Word j of the image.
fn word(image: &[u32], j: usize) -> usize
    requires { (image_words ≤ length image.now) × (j < image_words) }
    ensures { (result ≡ get_or (image_in image.now) j 0) × (result < 4294967296) }
{
    image[j] as usize
}

// How many entries of a table the image holds.
pub fn count(image: &[u32], table: Table) -> usize
    requires { image_words ≤ length image.now }
    ensures { (result ≡ count_of (image_in image.now) table) × (result < 4294967296) }
{
    word(image, COUNTS + tables::row_of(table).place)
}

// The word where the mark stands.
pub fn mark(image: &[u32]) -> usize
    requires { image_words ≤ length image.now }
    ensures { (result ≡ mark_of (image_in image.now)) × (result < 4294967296) }
{
    word(image, MARK)
}

// The image's words to zero; the buffer's rest is kept.
pub fn clear(image: &mut [u32])
    requires { image_words ≤ length image.old }
    ensures { image.new ≡ cleared image.old }
{
    image[..IMAGE_WORDS].fill(0);
}

pub fn set_count(image: &mut [u32], table: Table, n: u32)
    requires { image_words ≤ length image.old }
    ensures { image.new ≡ counted image.old table n }
{
    image[COUNTS + tables::row_of(table).place] = n;
}

// The mark that the image is loaded.
pub fn set_mark(image: &mut [u32])
    requires { image_words ≤ length image.old }
    ensures { image.new ≡ marked image.old }
{
    image[MARK] = 1;
}

// 31
pub fn too_short(image: &[u32]) -> bool
    ensures { result ≡ too_short image.now }
{
    image.len() < IMAGE_WORDS
}
