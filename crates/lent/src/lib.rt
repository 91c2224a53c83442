// The ledger, lent by `&mut` and brought up to date by each record: one step by value for frames and releases, and the loan around it. The places of a
// frame's replicas are lent beside it, and a release leaves them as found.
#![tactic(auto)]

ghost use Rattle.lent.specs.Brings.{Brings};

use judge::{Judgement, judge};
use ledger::Ledger;
use places::PLACES;
use row::release::release;

// A frame's port and time in µs, its bytes apart; a release of a partition.
#[derive(Clone, Copy)]
pub enum Event {
    Frame(usize, u64),
    Release(usize),
}

#[derive(Clone, Copy)]
pub enum Told {
    Judged(Judgement),
    Released(Result<(), u32>),
}

// What is told of a record, and the ledger afterwards.
#[derive(Clone, Copy)]
pub struct Brought {
    pub told: Told,
    pub ledger: Ledger,
}

// The step: the ledger by value, the places lent.
pub fn step(
    image: &[u32],
    ledger: Ledger,
    event: Event,
    frame: &[u8],
    replicas: &mut [u64; PLACES],
) -> Brought
    ensures { Brings image.now ledger.cells event frame.now replicas.old result.told result.ledger.cells replicas.new }
{
    let mut after = ledger;
    let told = match event {
        Event::Frame(port, time) => Told::Judged(judge(
            image,
            &mut after.cells,
            port,
            time,
            frame,
            replicas,
        )),
        Event::Release(partition) => Told::Released(release(image, &mut after.cells, partition)),
    };
    Brought {
        told,
        ledger: after,
    }
}

// What a record tells; the ledger and the places are left as the step leaves them.
pub fn bring(
    image: &[u32],
    g: &mut Ledger,
    event: Event,
    frame: &[u8],
    replicas: &mut [u64; PLACES],
) -> Told
    ensures { Brings image.now g.old.cells event frame.now replicas.old result g.new.cells replicas.new }
{
    let k = step(image, *g, event, frame, replicas);
    *g = k.ledger;
    k.told
}

// The same by a ledger of one's own that is lent: every caller that holds its ledger by value needs no walk.
pub fn bring_once(
    image: &[u32],
    ledger: Ledger,
    event: Event,
    frame: &[u8],
    replicas: &mut [u64; PLACES],
) -> Brought
    ensures { Brings image.now ledger.cells event frame.now replicas.old result.told result.ledger.cells replicas.new }
{
    let mut g = ledger;
    let told = bring(image, &mut g, event, frame, replicas);
    Brought { told, ledger: g }
}
