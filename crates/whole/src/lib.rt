// Whole loads, of words and of bytes. The long tables are made for them alone, so they stand apart from the writes.
#![tactic(auto)]

ghost use Rattle.std.specs.Prelude.{◌≤◌, length};
ghost use Rattle.image.specs.Layout.{image_words, cleared};
ghost use Rattle.stream.specs.Ends.{cut_short, settled};
ghost use Rattle.stream.specs.Fine.{Fine};
ghost use Rattle.stream.specs.Machine.{at, fresh, run};
ghost use Rattle.stream.specs.Paper.{words_of};
ghost use Rattle.stream.specs.Leaves.{Leaves, Ends, EndsWords, EndsBytes};

use crc_long::Long;
use crc_short::Short;
use crc_table::Tables;
use loader::Runs;
use placing::refusal::Refusal;
use quick::ByTables;
use stream::bytes::word_at;
use stream::{Answer, Fault, Load, Phase, states};

// 10: the words ended before the end block was complete.
fn cut_short(image: &mut [u32]) -> Answer
    requires { image_words ≤ length image.old }
    ensures { Ends (cut_short image.old) result image.new }
{
    image::clear(image);
    Answer::Refused(u32::from(Fault::CutShort))
}

// A whole load's run has ended: its answer, or 10 where it has none.
fn settle(image: &mut [u32], load: Load) -> Answer
    requires { image_words ≤ length image.old }
    ensures { Ends (settled (at load image.old)) result image.new }
{
    match load.phase {
        Phase::Told(n) => states::numbered(n),
        _ => cut_short(image),
    }
}

// Words from a fresh load state, run in any way.
fn fresh_by<R: Runs>(runs: &R, image: &mut [u32], words: &[u32]) -> Load
    requires { image_words ≤ length image.old }
    ensures { Leaves (run (at fresh (cleared image.old)) words.now) result image.new }
{
    image::clear(image);
    runs.run(image, states::fresh(), words)
}

// The same, by the long tables. They are made here and nowhere else, so that no other load keeps room for them, or fills it.
fn fresh_long(image: &mut [u32], words: &[u32]) -> Load
    requires { image_words ≤ length image.old }
    ensures { Leaves (run (at fresh (cleared image.old)) words.now) result image.new }
{
    let tables = Tables::new();
    let sums = Long::new(&tables);
    fresh_by(&ByTables { sums }, image, words)
}

// The same, by tables. Making the long ones pays from some thousands of words on.
fn fresh_run(image: &mut [u32], words: &[u32]) -> Load
    requires { image_words ≤ length image.old }
    ensures { Leaves (run (at fresh (cleared image.old)) words.now) result image.new }
{
    if words.len() < 4096 {
        fresh_by(&ByTables { sums: Short }, image, words)
    } else {
        fresh_long(image, words)
    }
}

// A whole stream of words.
pub fn load_words(image: &mut [u32], words: &[u32]) -> Answer
    ensures { EndsWords image.old words.now result image.new }
{
    if image::too_short(image) {
        return Answer::Refused(u32::from(Refusal::TooShort));
    }
    let end = fresh_run(image, words);
    settle(image, end)
}

// Bytes of 256 words at most: their words first, in a fixed buffer, since no memory is asked for; then these at once.
fn chunk_run(image: &mut [u32], load: Load, bytes: &[u8]) -> Load
    requires { Fine (at load image.old) × (length bytes.now ≤ 1024) }
    ensures { Leaves (run (at load image.old) (words_of bytes.now)) result image.new }
{
    let mut words = [0; 256];
    let (fours, _) = bytes.as_chunks::<4>();
    for (k, four) in fours.iter().enumerate() {
        words[k] = word_at(four, 0);
    }
    ByTables { sums: Short }.run(image, load, &words[..fours.len()])
}

// Bytes from a fresh load state.
fn bytes_run(image: &mut [u32], bytes: &[u8]) -> Load
    requires { image_words ≤ length image.old }
    ensures { Leaves (run (at fresh (cleared image.old)) (words_of bytes.now)) result image.new }
{
    image::clear(image);
    let mut state = states::fresh();
    let (chunks, rest) = bytes.as_chunks::<1024>();
    for chunk in chunks {
        state = chunk_run(image, state, chunk);
    }
    chunk_run(image, state, rest)
}

// A whole stream of bytes.
pub fn load_bytes(image: &mut [u32], bytes: &[u8]) -> Answer
    ensures { EndsBytes image.old bytes.now result image.new }
{
    if image::too_short(image) {
        return Answer::Refused(u32::from(Refusal::TooShort));
    }
    if bytes.len() % 4 != 0 {
        return Answer::Refused(u32::from(Fault::PartialWord));
    }
    let end = bytes_run(image, bytes);
    settle(image, end)
}
