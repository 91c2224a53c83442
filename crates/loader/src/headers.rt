// Word 0, a block's header and the stream's end: what numbers 1 to 6 and 8 are told for, the mark and the rules. The rules are run from here alone.
ghost use Rattle.std.specs.Prelude.{◌≡◌, [], ◌∷◌, ◌<◌, ◌≤◌, length};
ghost use Rattle.crc.specs.Crc.{checksum};
ghost use Rattle.image.specs.Layout.{image_words, image_in};
ghost use Rattle.image.specs.Sound.{Bounded};
ghost use Rattle.image.specs.Blocks.{block_of};
ghost use Rattle.stream.specs.Header.{id_of, header_of, header_told};
ghost use Rattle.stream.specs.Machine.{had_in, finish, ended_by, begun_by, summed, started_by};
ghost use Rattle.stream.specs.Leaves.{Leaves};

use image::tables;
use image::tables::Table;
use stream::{Fault, Load, WrongHeader, states};

// Word 0.
pub fn device(image: &mut [u32], w: u32) -> Load
    requires { image_words ≤ length image.old }
    ensures { Leaves (started_by image.old w) result image.new }
{
    if w != 0x9E00_030E {
        states::refuse(image, u32::from(Fault::WrongDevice))
    } else {
        states::idle(crc::word_in(crc::START, w))
    }
}

// 5 and 6, for a table that is carried.
fn fits(image: &[u32], table: Table, n: usize) -> Result<Table, WrongHeader>
    requires { Bounded image.now × (n < 16777216) }
    ensures { header_told result ≡ header_of (Ok table) n (had_in image.now) }
{
    let row = tables::row_of(table);
    let size = row.size;
    if n % size != 0 {
        return Err(WrongHeader::PartialEntry);
    }
    let had = image::count(image, table);
    if row.most < had + n / size {
        return Err(WrongHeader::TooManyEntries);
    }
    Ok(table)
}

// 3 to 6 for a block of n data words, or its table.
fn header_of(image: &[u32], first: u32, n: usize) -> Result<Table, WrongHeader>
    requires { Bounded image.now × (n < 16777216) }
    ensures { header_told result ≡ header_of (block_of (id_of first)) n (had_in image.now) }
{
    let table = tables::block_of(first / 16777216)?;
    fits(image, table, n)
}

// The checksum of a block's two header words.
fn header_sum(first: u32, second: u32) -> u32
    ensures { result ≡ checksum (first ∷ second ∷ []) }
{
    crc::finish(crc::word_in(crc::word_in(crc::START, first), second))
}

// The end block has passed: the image is marked and the rules are run.
fn finish(image: &mut [u32]) -> Load
    requires { Bounded image.old }
    ensures { Leaves (finish image.old) result image.new }
{
    image::set_mark(image);
    match rules::first_broken_rule(image) {
        Ok(()) => states::told(0),
        Err(rule) => states::refuse(image, u32::from(rule)),
    }
}

// A block's third word where its length is 0: the global checksum.
fn ended(image: &mut [u32], stream: u32, w: u32) -> Load
    requires { Bounded image.old }
    ensures { Leaves (ended_by stream image.old w) result image.new }
{
    if w != crc::finish(stream) {
        states::refuse(image, u32::from(Fault::StreamSum))
    } else {
        finish(image)
    }
}

// A header whose checksum is right: 3 to 6, or its data follow.
fn begun(image: &mut [u32], stream: u32, first: u32, n: usize) -> Load
    requires { Bounded image.old × (n < 16777216) }
    ensures { Leaves (begun_by stream first n image.old) result image.new }
{
    match header_of(image, first, n) {
        Ok(table) => states::filling(table, 0, n, stream, crc::START),
        Err(wrong) => states::refuse(image, u32::from(wrong)),
    }
}

// A block's third word.
pub fn summed(image: &mut [u32], stream: u32, first: u32, second: u32, w: u32) -> Load
    requires { Bounded image.old }
    ensures { Leaves (summed stream first second image.old w) result image.new }
{
    let n = second % 16777216;
    if n == 0 {
        ended(image, stream, w)
    } else if w != header_sum(first, second) {
        states::refuse(image, u32::from(Fault::HeaderSum))
    } else {
        begun(image, crc::word_in(stream, w), first, n as usize)
    }
}
