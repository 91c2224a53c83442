// Loads by a lent load state of six numbers (`flat_states`), and whole loads with their answers as numbers: what the exports of `tailbow_c` pass
// on to. Data of one block alone go in on the numbers themselves, every other write by the load state that they are.
#![tactic(auto)]

ghost use Rattle.std.specs.Prelude.{◌≡◌, [], ◌∷◌};
ghost use Rattle.flat_loads.specs.Calls.{WritesFlat, LoadsWords, LoadsBytes};
ghost use Rattle.flat_loads.specs.Data.{flat_place, Fits, Takes};

use flat_numbers::{HALF, MORE, is_load, number_of};
use flat_states::{load_in, move_on, store, sums_of};
use image::tables;
use image::tables::TABLES;

// Where a write's n words go, where they are data of one block alone and no test refuses them.
#[tactic(auto, using(crate::proofs::Laws::place_by), unfolding(crate::specs::Data::flat_place))]
fn place_of(image: &[u32], numbers: &[u64; 6], n: usize) -> Option<usize>
    ensures { result ≡ flat_place numbers.now image.now n }
{
    if image::too_short(image) || numbers[0] % HALF != 4 {
        return None;
    }
    let table = (numbers[1] % HALF) as usize;
    if TABLES <= table {
        return None;
    }
    one_block::data_place(
        image,
        tables::table_at(table),
        numbers[2] as usize,
        numbers[3] as usize,
        n,
    )
}

// One data word at its place. It has stores of its own, since it is the shortest write and there may be thousands of them.
fn take_word(image: &mut [u32], numbers: &mut [u64; 6], place: usize, w: u32) -> u32
    requires { Fits numbers.old image.old (w ∷ []) place }
    ensures { Takes numbers.old image.old (w ∷ []) place result numbers.new image.new }
{
    image[place] = w;
    let sums = crc_word::word_in_both(sums_of(numbers), w);
    move_on(numbers, 1, sums);
    MORE
}

// Data words at their place.
fn take_words(image: &mut [u32], numbers: &mut [u64; 6], place: usize, words: &[u32]) -> u32
    requires { Fits numbers.old image.old words.now place }
    ensures { Takes numbers.old image.old words.now place result numbers.new image.new }
{
    one_block::copy(image, place, words);
    let sums = crc_short::words_in_both(sums_of(numbers), words);
    move_on(numbers, words.len() as u64, sums);
    MORE
}

// Any write, by the load state that the numbers are. C is told its refusals by their numbers.
fn write_any(image: &mut [u32], numbers: &mut [u64; 6], words: &[u32]) -> u32
    ensures { WritesFlat numbers.old image.old words.now result numbers.new image.new }
{
    if image::too_short(image) {
        return 31;
    }
    if !is_load(numbers) {
        return 30;
    }
    let wrote = quick::write(image, load_in(numbers), words);
    let answer = wrote.answer;
    let next = wrote.load;
    store(numbers, next);
    number_of(answer)
}

// Words for a load. The buffer's first words are the image. Mostly a write brings data of one block alone, which go in on the
// numbers themselves.
pub fn write(image: &mut [u32], load: &mut [u64; 6], words: &[u32]) -> u32
    ensures { WritesFlat load.old image.old words.now result load.new image.new }
{
    let Some(place) = place_of(image, load, words.len()) else {
        return write_any(image, load, words);
    };
    if let [w] = words {
        take_word(image, load, place, *w)
    } else {
        take_words(image, load, place, words)
    }
}

// A whole stream of words.
pub fn load_words(image: &mut [u32], words: &[u32]) -> u32
    ensures { LoadsWords image.old words.now result image.new }
{
    number_of(whole::load_words(image, words))
}

// A whole stream of bytes, each word's most significant first.
pub fn load_bytes(image: &mut [u32], bytes: &[u8]) -> u32
    ensures { LoadsBytes image.old bytes.now result image.new }
{
    number_of(whole::load_bytes(image, bytes))
}
