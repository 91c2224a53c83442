// One frame with its replicas: refused, dropped with the step's number, or sent; the row is lent and left as the last verdict leaves it, and each
// replica's verdict is told in a lent place.
#![tactic(auto)]

ghost use Rattle.std.specs.Prelude.{◌≡◌, ◌<◌, ◌≤◌, length};
ghost use Rattle.image.specs.Layout.{image_in};
ghost use Rattle.image.specs.Sound.{Sound};
ghost use Rattle.ledger.specs.Refusals.{refused_by};
ghost use Rattle.judge.specs.Refusal.{mistimed, unjudged, refusal_of};
ghost use Rattle.frame.specs.Bytes.{octets_of};
ghost use Rattle.plan.specs.Answered.{entered_in};
ghost use Rattle.plan.specs.LetIn.{Through};
ghost use Rattle.settle.specs.Settle.{Carries};
ghost use Rattle.settle.specs.Answered.{verdict_in};
ghost use Rattle.judge.specs.Judge.{by_entry, Judges};

use drops::Dropped;
use ledger::range::{LATEST, standing};
use ledger::refusal::Refusal;
use ledger::{CELLS, FRAMES, LAST};
use places::PLACES;
use plan::enter::{Entrant, enter};
use plan::{Arrival, police};
use ports::Sending;
use replica::replicate;
use settle::note::{is_drop, note};
use settle::{Verdict, carry_on};

// 35 and 38: the most bytes of a frame, and the frames of a port at which no more are counted.
const MOST_BYTES: usize = 4096;

const MOST_FRAMES: u64 = 4294967295;

// 34
fn mistimed(last: u64, time: u64) -> bool
    ensures { result ≡ mistimed last time }
{
    time < last || LATEST < time
}

// 33, 34, 35, 38.
fn unjudged(row: &[u64; CELLS], port: usize, time: u64, frame: &[u8]) -> Result<(), Refusal>
    ensures { refused_by result ≡ unjudged row.now port time frame.now }
{
    if 4 < port {
        return Err(Refusal::NoSuchPort);
    }
    if mistimed(row[LAST], time) {
        return Err(Refusal::Mistimed);
    }
    if MOST_BYTES < frame.len() {
        return Err(Refusal::FrameTooLong);
    }
    if MOST_FRAMES <= row[FRAMES + port] {
        return Err(Refusal::TooManyFrames);
    }
    Ok(())
}

// What refuses a frame.
fn refusal(
    image: &[u32],
    row: &[u64; CELLS],
    port: usize,
    time: u64,
    frame: &[u8],
) -> Result<(), Refusal>
    ensures { refused_by result ≡ refusal_of image.now row.now port time frame.now }
{
    standing(image, row)?;
    unjudged(row, port, time, frame)
}

// The verdict, and how many replicas were told.
#[derive(Clone, Copy)]
pub struct Judgement {
    pub verdict: Verdict,
    pub replicas: usize,
}

// The frame by itself, by what steps 1 to 6 answered. Port, time and frame come one by one, as to `judge`: an `Arrival` is of sixty bytes at least, which a
// frame that is dropped may not have.
fn own(
    image: &[u32],
    row: &mut [u64; CELLS],
    port: usize,
    time: u64,
    frame: &[u8],
    entered: Result<Entrant, Dropped>,
) -> Result<Sending, Dropped>
    requires sound { Sound image.now }
    requires port_bound { (port < 5) × (length frame.now ≤ 4096) }
    requires through { Through (image_in image.now) frame.now (entered_in entered) }
    ensures { Carries row.old time (octets_of frame.now) (by_entry (image_in image.now) port frame.now (entered_in entered)) (verdict_in result) row.new }
{
    let entrant = entered?;
    let arrival = Arrival::of(port, time, frame);
    let policer = police(image, arrival, entrant.priority)?;
    carry_on(image, row, arrival, entrant, policer)
}

// The verdict on a frame that came in at a port at a time in µs, and on its replicas.
pub fn judge(
    image: &[u32],
    row: &mut [u64; CELLS],
    port: usize,
    time: u64,
    frame: &[u8],
    replicas: &mut [u64; PLACES],
) -> Judgement
    ensures { Judges image.now row.old port time frame.now replicas.old result row.new replicas.new }
{
    if let Err(refusal) = refusal(image, row, port, time, frame) {
        return Judgement {
            verdict: Verdict::Refused(u32::from(refusal)),
            replicas: 0,
        };
    }
    let octets = frame.len() as u64 + 4;
    let entered = enter(image, port, frame);
    let verdict = Verdict::from(own(image, row, port, time, frame, entered));
    note(row, port, time, octets, is_drop(verdict));
    let told = replicate(image, row, port, time, frame, entered.ok(), replicas);
    Judgement {
        verdict,
        replicas: told,
    }
}
