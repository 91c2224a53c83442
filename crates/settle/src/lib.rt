// Steps 9 to 11: on the few numbers that a course concerns, and on the row, of which those are loaded and stored. What is noted of a frame
// stands in `note`. The functions are inlined: a sending is nine numbers, which each return would copy.
// That the image is sound and the port below 5 is asked in each contract, and no type has it: docs/ENTRIES.md names these functions, which take any such image and port.
#![tactic(auto)]

pub mod note;

ghost use Rattle.std.specs.Prelude.{◌≡◌, ◌<◌};
ghost use Rattle.image.specs.Layout.{image_in, count_of};
ghost use Rattle.image.specs.Sound.{Sound};
ghost use Rattle.image.specs.declared.tables.Table.TheVariants.{Policing, VlanLookup};
ghost use Rattle.plan.specs.Plan.{Goes, course_of};
ghost use Rattle.settle.specs.Settle.{settled_of, Carries};
ghost use Rattle.settle.specs.Answered.{verdict_in, settled_in};
ghost use Rattle.settle.specs.Runs.{Runs};

use drops::Dropped;
use ledger::{CELLS, CREDIT, SINCE, UNITS};
use plan::enter::Entrant;
use plan::{Arrival, Course, Policer, course_on};
use ports::Sending;
use spend::{Held, Meter, spend};

// Numbers, since `places::put` and `flat_answers::flat_verdict` answer for a verdict of any number.
#[derive(Clone, Copy)]
pub enum Verdict {
    Refused(u32),
    Drop(u32),
    Sent(Sending),
}

// What the steps answer, as a verdict.
impl From<Result<Sending, Dropped>> for Verdict {
    ghost from_gives = { λ outcome verdict. verdict ≡ verdict_in outcome };

    #[inline(always)]
    fn from(outcome: Result<Sending, Dropped>) -> Verdict {
        match outcome {
            Ok(sending) => Verdict::Sent(sending),
            Err(drop) => Verdict::Drop(u32::from(drop)),
        }
    }
}

// Steps 9 to 11 on numbers: the sending or the drop, and the cells as it leaves them.
#[inline(always)]
pub fn settle(
    course: Course,
    held: Held,
    time: u64,
    octets: u64,
) -> (Result<Sending, Dropped>, Held)
    requires runs { Runs course }
    requires octets_bound { octets < 65536 }
    ensures { settled_in result.0 result.1 ≡ settled_of course held time octets }
{
    let meter = Meter {
        smax: course.smax,
        rate: course.rate,
        credit: held.credit,
        since: held.since,
    };
    let (spent, after) = spend(meter, time, held.units, octets, course.sending.ports);
    (spent.and(Ok(course.sending)), after)
}

#[tactic(auto, using(crate::specs::Laws::runs_as))]
#[inline(always)]
fn run(row: &mut [u64; CELLS], course: Course, time: u64, octets: u64) -> Result<Sending, Dropped>
    requires runs { Runs course }
    requires octets_bound { octets < 65536 }
    ensures { Carries row.old time octets (Goes course) (verdict_in result) row.new }
{
    let credit = CREDIT + course.meter;
    let since = SINCE + course.meter;
    let units = UNITS + course.partition;
    let held = Held {
        credit: row[credit],
        since: row[since],
        units: row[units],
    };
    let (outcome, after) = settle(course, held, time, octets);
    row[units] = after.units;
    row[credit] = after.credit;
    row[since] = after.since;
    outcome
}

// Steps 9 to 11 on a VLAN, of a frame or of a replica that a policer lets through: its course, run.
#[tactic(auto, using(crate::specs::RunsLaws::course_runs, crate::specs::Laws::carries_as))]
#[inline(always)]
pub fn carry_on(
    image: &[u32],
    row: &mut [u64; CELLS],
    arrival: Arrival,
    entrant: Entrant,
    policer: Policer,
) -> Result<Sending, Dropped>
    requires sound { Sound image.now }
    requires port_bound { (arrival.port < 5) × (entrant.place < count_of (image_in image.now) VlanLookup) × (entrant.priority < 8) }
    requires policer_bound { (policer.entry < count_of (image_in image.now) Policing) × (policer.meter < count_of (image_in image.now) Policing) }
    requires octets_bound { arrival.octets < 65536 }
    ensures { Carries row.old arrival.time arrival.octets (Goes (course_of (image_in image.now) arrival.port arrival.destination entrant.vlan entrant.place entrant.priority policer.entry policer.meter)) (verdict_in result) row.new }
{
    let course = course_on(image, arrival, entrant, policer);
    run(row, course, arrival.time, arrival.octets)
}
