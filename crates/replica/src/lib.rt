// Replicas: a frame that steps 1 to 6 let in yields one for each entry of 12 that names its VLAN and port. A replica spends as a frame does and is noted nowhere.
// That the image is sound and the port below 5 is asked in each contract, and no type has it: docs/ENTRIES.md names these functions, which take any such image and port.
#![tactic(auto)]

ghost use Rattle.std.specs.Prelude.{◌≡◌, ◌<◌, ◌≤◌, length, IfSome};
ghost use Rattle.image.specs.Layout.{Held, image_in};
ghost use Rattle.image.specs.Sound.{Sound};
ghost use Rattle.image.specs.declared.tables.Table.TheVariants.{Retagging};
ghost use Rattle.plan.specs.LetIn.{LetIn};
ghost use Rattle.plan.specs.Sane.{Loaded};
ghost use Rattle.settle.specs.Settle.{Carries};
ghost use Rattle.settle.specs.Answered.{verdict_in};
ghost use Rattle.replica.specs.Replica.{names, planned_by, replicas_in, replicas_for, Replicates};

use addresses::holds;
use drops::Dropped;
use image::tables::Table;
use ledger::CELLS;
use plan::enter::{Entrant, place};
use plan::{Arrival, Policer, police};
use ports::Sending;
use settle::{Verdict, carry_on};

// Does entry i name the VLAN and the port?
fn names(image: &[u32], port: usize, vlan: u64, i: usize) -> bool
    requires held { Held Retagging i image.now }
    requires port_bound { port < 5 }
    ensures { result ≡ names (image_in image.now) port vlan i }
{
    fields::retagging::vlan_ing(image, i) == vlan
        && holds(fields::retagging::ing_port(image, i), port)
}

// One replica: step 4 on a VLAN of its own, then 7 to 11 by what 7 and 8 answered of the frame. Membership and the source are not asked. Inlined, as in `settle`.
#[inline(always)]
fn one(
    image: &[u32],
    row: &mut [u64; CELLS],
    arrival: Arrival,
    vlan: u64,
    priority: u64,
    policed: Result<Policer, Dropped>,
) -> Result<Sending, Dropped>
    requires sound { Sound image.now }
    requires port_bound { (arrival.port < 5) × (priority < 8) × (arrival.octets < 65536) }
    requires loaded { Loaded (image_in image.now) policed }
    ensures { Carries row.old arrival.time arrival.octets (planned_by (image_in image.now) arrival.port arrival.destination vlan priority policed) (verdict_in result) row.new }
{
    let place = place(image, vlan).ok_or(Dropped::NoVlan)?;
    let policer = policed?;
    let entrant = Entrant {
        vlan,
        place,
        priority,
    };
    carry_on(image, row, arrival, entrant, policer)
}

// All replicas of a frame that was let in, in table order, each on the row that the one before left; how many there are. What asks no VLAN is asked once.
#[tactic(auto, using(image::specs::SoundLaws::held, laws::specs::Chain::lt_of))]
fn all(
    image: &[u32],
    row: &mut [u64; CELLS],
    port: usize,
    time: u64,
    frame: &[u8],
    entrant: Entrant,
    places: &mut [u64],
) -> usize
    requires sound { Sound image.now }
    requires port_bound { (port < 5) × (60 ≤ length frame.now) × (length frame.now ≤ 4096) × (entrant.priority < 8) }
    requires in_bounds { 320 ≤ length places.old }
    ensures { Replicates (replicas_in (image_in image.now) row.old port time frame.now entrant.vlan entrant.priority) places.old result row.new places.new }
{
    let entries = image::count(image, Table::Retagging);
    if entries == 0 {
        return 0;
    }
    let arrival = Arrival::of(port, time, frame);
    let policed = police(image, arrival, entrant.priority);
    let mut n: usize = 0;
    for i in 0..entries {
        if names(image, port, entrant.vlan, i) {
            let egress = fields::retagging::vlan_egr(image, i);
            let outcome = one(image, row, arrival, egress, entrant.priority, policed);
            places::put(places, n, Verdict::from(outcome));
            n += 1;
        }
    }
    n
}

// The replicas of a frame that steps 1 to 6 let in: none where they drop it, whatever the later steps make of it otherwise. Port, time and frame come one by
// one, since an `Arrival` is of sixty bytes at least.
pub fn replicate(
    image: &[u32],
    row: &mut [u64; CELLS],
    port: usize,
    time: u64,
    frame: &[u8],
    entered: Option<Entrant>,
    places: &mut [u64],
) -> usize
    requires sound { Sound image.now }
    requires port_bound { (port < 5) × (length frame.now ≤ 4096) }
    requires through { IfSome entered (λ e. LetIn (image_in image.now) frame.now e.place e.priority) }
    requires in_bounds { 320 ≤ length places.old }
    ensures { Replicates (replicas_for (image_in image.now) row.old port time frame.now entered) places.old result row.new places.new }
{
    match entered {
        None => 0,
        Some(entrant) => all(image, row, port, time, frame, entrant, places),
    }
}
