// The entries for Rust and C: states, ledgers, verdicts, tiles and records as numbers, answers as numbers, buffers as pointer and length. Only
// what this crate itself exports is in its archive, so all nine stand here. Each passes on to one leaf, whose promise is its own.
#![tactic(auto)]

ghost use Rattle.flat_numbers.specs.Flat.{FreshLoad};
ghost use Rattle.flat_loads.specs.Calls.{WritesFlat, LoadsWords, LoadsBytes};
ghost use Rattle.flat_frames.specs.Frames.{FreshensFlat, JudgesFlat, ReleasesFlat, TilesFlat};
ghost use Rattle.flat_lists.specs.Lists.{RecordsFlat};

use flat_answers::FlatTile;
use flat_frames::FlatJudged;
use flat_lists::FlatRecord;
use ledger::CELLS;
use places::PLACES;

// A load before its first write.
#[unsafe(no_mangle)]
pub extern "C" fn tailbow_fresh_load(load: &mut [u64; 6])
    ensures { FreshLoad load.new }
{
    flat_numbers::fresh_load(load);
}

// Words for a load. The buffer's first words are the image.
#[unsafe(no_mangle)]
pub extern "C" fn tailbow_write(image: &mut [u32], load: &mut [u64; 6], words: &[u32]) -> u32
    ensures { WritesFlat load.old image.old words.now result load.new image.new }
{
    flat_loads::write(image, load, words)
}

// A whole stream of words.
#[unsafe(no_mangle)]
pub extern "C" fn tailbow_load_words(image: &mut [u32], words: &[u32]) -> u32
    ensures { LoadsWords image.old words.now result image.new }
{
    flat_loads::load_words(image, words)
}

// A whole stream of bytes, each word's most significant first.
#[unsafe(no_mangle)]
pub extern "C" fn tailbow_load_bytes(image: &mut [u32], bytes: &[u8]) -> u32
    ensures { LoadsBytes image.old bytes.now result image.new }
{
    flat_loads::load_bytes(image, bytes)
}

// Fills the lent row with a fresh ledger of an image: the refusal's number, 0 for none.
#[unsafe(no_mangle)]
pub extern "C" fn tailbow_fresh_ledger(image: &[u32], ledger: &mut [u64; CELLS]) -> u32
    ensures { FreshensFlat image.now result ledger.new }
{
    flat_frames::fresh_ledger(image, ledger)
}

// A frame that came in at a port at a time in µs, and its replicas in the lent places.
#[unsafe(no_mangle)]
pub extern "C" fn tailbow_judge(
    image: &[u32],
    ledger: &mut [u64; CELLS],
    port: usize,
    time: u64,
    frame: &[u8],
    replicas: &mut [u64; PLACES],
) -> FlatJudged
    ensures { JudgesFlat image.now ledger.old port time frame.now replicas.old result ledger.new replicas.new }
{
    flat_frames::judge(image, ledger, port, time, frame, replicas)
}

// One unit of a partition comes back: the refusal's number, 0 for none.
#[unsafe(no_mangle)]
pub extern "C" fn tailbow_release(image: &[u32], ledger: &mut [u64; CELLS], partition: usize) -> u32
    ensures { ReleasesFlat image.now ledger.old partition result ledger.new }
{
    flat_frames::release(image, ledger, partition)
}

// What the screen shows of a port.
#[unsafe(no_mangle)]
pub extern "C" fn tailbow_tile(image: &[u32], ledger: &[u64; CELLS], port: usize) -> FlatTile
    ensures { TilesFlat image.now ledger.now port result }
{
    flat_frames::tile(image, ledger, port)
}

// What stands at a place of a list.
#[unsafe(no_mangle)]
pub extern "C" fn tailbow_record_at(list: &[u8], at: usize) -> FlatRecord
    ensures { RecordsFlat list.now at result }
{
    flat_lists::record_at(list, at)
}
