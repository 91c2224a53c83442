// A fresh ledger, a frame, a release and a tile over a lent row of numbers: each is one call and one conversion, and what the exports of
// `tailbow_c` pass on to. Every row is a ledger: 39 judges it.
#![tactic(auto)]

ghost use Rattle.flat_frames.specs.Frames.{FreshensFlat, JudgesFlat, ReleasesFlat, TilesFlat};

use flat_answers::{FlatTile, FlatVerdict};
use ledger::CELLS;
use places::PLACES;

// A frame's verdict, and how many replicas stand in the lent places.
#[repr(C)]
#[derive(Clone, Copy)]
pub struct FlatJudged {
    pub verdict: FlatVerdict,
    pub replicas: u64,
}

// Fills the lent row with a fresh ledger of an image: the refusal's number, 0 for none.
pub fn fresh_ledger(image: &[u32], ledger: &mut [u64; CELLS]) -> u32
    ensures { FreshensFlat image.now result ledger.new }
{
    flat_answers::outcome_number(row::fresh::fresh_ledger(image, ledger))
}

// A frame that came in at a port at a time in µs, and its replicas in the lent places.
pub fn judge(
    image: &[u32],
    ledger: &mut [u64; CELLS],
    port: usize,
    time: u64,
    frame: &[u8],
    replicas: &mut [u64; PLACES],
) -> FlatJudged
    ensures { JudgesFlat image.now ledger.old port time frame.now replicas.old result ledger.new replicas.new }
{
    let j = judge::judge(image, ledger, port, time, frame, replicas);
    let verdict = j.verdict;
    FlatJudged {
        verdict: flat_answers::flat_verdict(verdict),
        replicas: j.replicas as u64,
    }
}

// One unit of a partition comes back: the refusal's number, 0 for none.
pub fn release(image: &[u32], ledger: &mut [u64; CELLS], partition: usize) -> u32
    ensures { ReleasesFlat image.now ledger.old partition result ledger.new }
{
    flat_answers::outcome_number(row::release::release(image, ledger, partition))
}

// What the screen shows of a port.
pub fn tile(image: &[u32], ledger: &[u64; CELLS], port: usize) -> FlatTile
    ensures { TilesFlat image.now ledger.now port result }
{
    flat_answers::flat_tile(tile::tile(image, ledger, port))
}
