// Data of one block alone: where the words of a write go that brings nothing else, the copy of them, and the load state after them. Only loads from C
// and Rust take data so.
#![tactic(auto)]

ghost use Rattle.std.specs.Prelude.{◌≡◌, ◌+◌, ◌<◌, ◌≤◌, length};
ghost use Rattle.std.proofs.lemmas.List.Edits.{sets};
ghost use Rattle.image.specs.Layout.{image_words};
ghost use Rattle.crc.specs.Crc.{words_in};
ghost use Rattle.stream.specs.Fine.{Roomy};
ghost use Rattle.stream.specs.Machine.{at, run};
ghost use Rattle.stream.specs.declared.Phase.TheVariants.{Data};
ghost use Rattle.stream.specs.Leaves.{Leaves};
ghost use Rattle.one_block.specs.Data.{data_place};

use crc_both::Both;
use image::tables::Table;
use placing::refusal;
use stream::{Load, states};

// Where a write's n words go inside a block, where they are data of this block alone and no test refuses them.
#[tactic(auto, unfolding(crate::specs::Data::data_place))]
pub fn data_place(image: &[u32], table: Table, placed: usize, due: usize, n: usize) -> Option<usize>
    requires { image_words ≤ length image.now }
    ensures { result ≡ data_place image.now table placed due n }
{
    if refusal::outside(n) || due < n || loaded::over_limit(image) {
        return None;
    }
    let room = placing::room_of(image, table);
    if refusal::passes(room.left, placed, due) {
        return None;
    }
    Some(room.place + placed)
}

// Words into the image, one behind the other: a loop, since `copy_from_slice` would have the archive for C ask for `memmove` from outside.
pub fn copy(image: &mut [u32], place: usize, words: &[u32])
    requires { place + length words.now ≤ length image.old }
    ensures { image.new ≡ sets image.old place words.now }
{
    for (k, w) in words.iter().enumerate() {
        image[place + k] = *w;
    }
}

// A run of data words, no more than are due, whose sums are known.
pub fn stored(image: &mut [u32], load: Load, words: &[u32], sums: Both) -> Load
    requires image_words_in_bounds { (image_words ≤ length image.old) × Roomy Data load image.old }
    requires words_nonzero { (0 < length words.now) × (length words.now ≤ load.due) × (load.phase ≡ Data) }
    requires block_value { (sums.block ≡ words_in load.block words.now) × (sums.stream ≡ words_in load.stream words.now) }
    ensures { Leaves (run (at load image.old) words.now) result image.new }
{
    let place = placing::place_of(image, load.table, load.placed, load.due);
    copy(image, place, words);
    states::filling(
        load.table,
        load.placed + words.len(),
        load.due - words.len(),
        sums.stream,
        sums.block,
    )
}
