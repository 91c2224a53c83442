// Where a block's data go, and what they come to: 7 and a table's count.
#![tactic(auto)]

pub mod refusal;

ghost use Rattle.std.specs.Prelude.{◌≡◌, ◌+◌, ◌*◌, ◌/◌, ◌≤◌, length};
ghost use Rattle.image.specs.Layout.{image_words, entry_words, image_in};
ghost use Rattle.image.specs.Rows.{size_of, most_of};
ghost use Rattle.image.specs.Sound.{Within};
ghost use Rattle.stream.specs.Fine.{Roomy};
ghost use Rattle.stream.specs.Machine.{had_in, place_in, filled};
ghost use Rattle.stream.specs.declared.Phase.TheVariants.{Data};
ghost use Rattle.stream.specs.Leaves.{Leaves};
ghost use Rattle.placing.specs.Places.{RoomOf};

use image::tables;
use image::tables::Table;
use stream::{Fault, Load, states};

// Where a table's next entry goes, and the words that the table has left from there on.
#[derive(Clone, Copy)]
pub struct Room {
    pub place: usize,
    pub left: usize,
}

pub fn room_of(image: &[u32], table: Table) -> Room
    requires image_words_in_bounds { image_words ≤ length image.now }
    requires table_bound { had_in image.now table * size_of table ≤ most_of table * size_of table }
    ensures { RoomOf image.now table result }
{
    let row = tables::row_of(table);
    let had = image::count(image, table);
    Room {
        place: row.start + had * row.size,
        left: row.most * row.size - had * row.size,
    }
}

// Where the next word of a block goes.
pub fn place_of(image: &[u32], table: Table, placed: usize, due: usize) -> usize
    requires image_words_in_bounds { image_words ≤ length image.now }
    requires due_bound { had_in image.now table * size_of table + placed + due ≤ most_of table * size_of table }
    ensures { (result ≡ place_in image.now table placed) × (result + due ≤ entry_words) }
{
    room_of(image, table).place + placed
}

// A table's count once a block's checksum has passed.
fn raised(image: &[u32], table: Table, placed: usize) -> u32
    requires image_words_in_bounds { image_words ≤ length image.now }
    requires placed_bound { had_in image.now table * size_of table + placed ≤ most_of table * size_of table }
    ensures { result ≡ had_in image.now table + placed / size_of table }
{
    let size = tables::row_of(table).size;
    let had = image::count(image, table);
    (had + placed / size) as u32
}

// A block's data word, or their checksum where none is due.
pub fn filled(image: &mut [u32], load: Load, w: u32) -> Load
    requires { (image_words ≤ length image.old) × Within (image_in image.old) × Roomy Data load image.old }
    ensures { Leaves (filled load.table load.placed load.due load.stream load.block image.old w) result image.new }
{
    let table = load.table;
    let placed = load.placed;
    let due = load.due;
    if due != 0 {
        let place = place_of(image, table, placed, due);
        image[place] = w;
        states::filling(
            table,
            placed + 1,
            due - 1,
            crc::word_in(load.stream, w),
            crc::word_in(load.block, w),
        )
    } else if w != crc::finish(load.block) {
        states::refuse(image, u32::from(Fault::DataSum))
    } else {
        let count = raised(image, table, placed);
        image::set_count(image, table, count);
        states::idle(crc::word_in(load.stream, w))
    }
}
