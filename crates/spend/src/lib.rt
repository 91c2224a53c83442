// What a frame spends, on numbers: its meter's credit, its partition's unit, and its place in a port's counts. Steps 9, 10 and 11.
#![tactic(auto)]

ghost use Rattle.std.specs.Prelude.{◌≡◌, ◌+◌, ◌-◌, ◌*◌, ◌<◌, ◌≤◌, min};
ghost use Rattle.spend.specs.Spend.{credit_at, paid_of, spent_of, counted_of};
ghost use Rattle.spend.specs.Answered.{spent_in};

use drops::Dropped;

// Millionths of a bit in an octet, and those that a RATE of 1 gains in a µs.
const MILLIONTHS: u64 = 8000000;

const STEP: u64 = 15625;

// A meter: SMAX and RATE of its entry, its credit in millionths of a bit, and its time.
#[derive(Clone, Copy)]
pub struct Meter {
    pub smax: u64,
    pub rate: u64,
    pub credit: u64,
    pub since: u64,
}

// One meter's credit and time, and one partition's units.
#[derive(Clone, Copy)]
pub struct Held {
    pub credit: u64,
    pub since: u64,
    pub units: u64,
}

// One port's counts.
#[derive(Clone, Copy)]
pub struct Counts {
    pub frames: u64,
    pub drops: u64,
    pub octets: u64,
    pub dropped: u64,
}

// Credit after `elapsed` steps of `gain`, at most `full`. A product or a sum that passes 64 bits is above `full` too.
fn grown(full: u64, old: u64, elapsed: u64, gain: u64) -> u64
    ensures { (result ≡ min full (old + elapsed * gain)) × (result ≤ full) }
{
    old.saturating_add(elapsed.saturating_mul(gain)).min(full)
}

// The meter's credit at `now`.
fn credit_at(m: Meter, now: u64) -> u64
    requires { (m.smax < 65536) × (m.rate < 65536) }
    ensures { result ≡ credit_at m now }
{
    grown(
        m.smax * MILLIONTHS,
        m.credit,
        now.saturating_sub(m.since),
        m.rate * STEP,
    )
}

// Steps 10 and 11 of a frame of `octets` that is paid for.
#[tactic(auto, unfolding(crate::specs::Spend::paid_of))]
fn paid(credit: u64, now: u64, units: u64, octets: u64, ports: u64) -> (Result<(), Dropped>, Held)
    ensures { spent_in result.0 result.1 ≡ paid_of credit now units octets ports }
{
    let held = Held {
        credit,
        since: now,
        units,
    };
    if ports == 0 {
        return (Err(Dropped::NoPort), held);
    }
    if units < 1 {
        return (Err(Dropped::NoUnit), held);
    }
    (
        Ok(()),
        Held {
            units: units - 1,
            ..held
        },
    )
}

// Step 9, then the rest: whether the frame is sent, with the meter and the partition as it leaves them.
#[tactic(auto, unfolding(crate::specs::Spend::spent_of))]
pub fn spend(m: Meter, now: u64, units: u64, octets: u64, ports: u64) -> (Result<(), Dropped>, Held)
    requires { (m.smax < 65536) × (m.rate < 65536) × (octets < 65536) }
    ensures { spent_in result.0 result.1 ≡ spent_of m now units octets ports }
{
    let credit = credit_at(m, now);
    if credit < octets * MILLIONTHS {
        let held = Held {
            credit,
            since: now,
            units,
        };
        return (Err(Dropped::NoCredit), held);
    }
    paid(credit - octets * MILLIONTHS, now, units, octets, ports)
}

// What a verdict adds to its port's counts.
#[tactic(auto, unfolding(crate::specs::Spend::counted_of))]
pub fn counted(n: Counts, octets: u64, dropped: bool) -> Counts
    requires { (n.frames < 4294967295) × (n.drops ≤ n.frames) × (n.octets ≤ 4100 * n.frames) × (n.dropped ≤ n.octets) × (octets < 65536) }
    ensures { result ≡ counted_of n octets dropped }
{
    Counts {
        frames: n.frames + 1,
        drops: n.drops + u64::from(dropped),
        octets: n.octets + octets,
        dropped: n.dropped + if dropped { octets } else { 0 },
    }
}
