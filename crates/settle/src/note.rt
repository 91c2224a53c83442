// What every verdict on a frame leaves beside what it spends: the last time, and the port's counts. What is sent beside a frame spends and is not noted.
ghost use Rattle.std.specs.Prelude.{◌≡◌, ◌<◌};
ghost use Rattle.settle.specs.Note.{is_drop, noted};
ghost use Rattle.settle.specs.Countable.{Countable};

use crate::Verdict;
use ledger::{CELLS, DROPPED, DROPS, FRAMES, LAST, OCTETS};
use spend::Counts;

pub fn is_drop(verdict: Verdict) -> bool
    ensures { result ≡ is_drop verdict }
{
    matches!(verdict, Verdict::Drop(_))
}

// The last time and the port's counts after a verdict.
#[tactic(auto, unfolding(crate::specs::Note::noted))]
pub fn note(row: &mut [u64; CELLS], port: usize, time: u64, octets: u64, drop: bool)
    requires countable { Countable row.old port }
    requires port_bound { (port < 5) × (octets < 65536) }
    ensures { row.new ≡ noted row.old port time octets drop }
{
    let frames = FRAMES + port;
    let drops = DROPS + port;
    let sum = OCTETS + port;
    let dropped = DROPPED + port;
    let n = spend::counted(
        Counts {
            frames: row[frames],
            drops: row[drops],
            octets: row[sum],
            dropped: row[dropped],
        },
        octets,
        drop,
    );
    row[frames] = n.frames;
    row[drops] = n.drops;
    row[sum] = n.octets;
    row[dropped] = n.dropped;
    row[LAST] = time;
}
