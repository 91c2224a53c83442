// Steps 7 and 8, and what steps 9 to 11 need of a frame that passes them: its meter, its partition, and the sending if it comes to that.
// They read the image and the frame's numbers only, and can be run with any VLAN, place and priority.
// That the image is sound and the port below 5 is asked in each contract, and no type has it: docs/ENTRIES.md names these functions, which take any such image and port.
#![tactic(auto)]

pub mod enter;

ghost use Rattle.std.specs.Prelude.{◌≡◌, ◌<◌, ◌≤◌, length};
ghost use Rattle.image.specs.Layout.{image_in, count_of};
ghost use Rattle.image.specs.Sound.{Sound};
ghost use Rattle.image.specs.declared.tables.Table.TheVariants.{Policing, VlanLookup};
ghost use Rattle.plan.specs.Arrival.{arrival_of};
ghost use Rattle.plan.specs.Police.{policer_of, metered_by, policed_by, policed_of};
ghost use Rattle.plan.specs.Plan.{course_of};

use drops::Dropped;
use enter::Entrant;
use image::tables::Table;
use ports::Sending;

// How a frame came: its port, its time in µs, its octets L and its destination.
#[derive(Clone, Copy)]
pub struct Arrival {
    pub port: usize,
    pub time: u64,
    pub octets: u64,
    pub destination: u64,
}

impl Arrival {
    // Of a frame's bytes.
    pub fn of(port: usize, time: u64, frame: &[u8]) -> Arrival
        requires { (60 ≤ length frame.now) × (length frame.now ≤ 4096) }
        ensures { result ≡ arrival_of port time frame.now }
    {
        Arrival {
            port,
            time,
            octets: frame.len() as u64 + 4,
            destination: frame::mac_at(frame, 0),
        }
    }
}

// The policing entry that lets a frame through, and the entry whose meter it uses.
#[derive(Clone, Copy)]
pub struct Policer {
    pub entry: usize,
    pub meter: usize,
}

// The meter's entry with its SMAX and RATE, the partition, and where the frame goes; its ports are none where drop 10 is due.
#[derive(Clone, Copy)]
pub struct Course {
    pub meter: usize,
    pub smax: u64,
    pub rate: u64,
    pub partition: usize,
    pub sending: Sending,
}

// The policing entry k.
fn policer_of(port: usize, priority: u64, destination: u64) -> usize
    requires { (port < 5) × (priority < 8) }
    ensures { result ≡ policer_of port priority destination }
{
    if destination == frame::BROADCAST {
        40 + port
    } else {
        8 * port + priority as usize
    }
}

fn metered(image: &[u32], entry: usize, meter: usize, octets: u64) -> Result<Policer, Dropped>
    requires sound { Sound image.now }
    requires entry_bound { entry < count_of (image_in image.now) Policing }
    ensures { result ≡ metered_by (image_in image.now) entry meter octets }
{
    if image::count(image, Table::Policing) <= meter {
        return Err(Dropped::NotPoliced);
    }
    if fields::policing::maxlen(image, entry) < octets {
        return Err(Dropped::TooLong);
    }
    Ok(Policer { entry, meter })
}

fn policed_by(image: &[u32], entry: usize, octets: u64) -> Result<Policer, Dropped>
    requires { Sound image.now }
    ensures { result ≡ policed_by (image_in image.now) entry octets }
{
    if image::count(image, Table::Policing) <= entry {
        return Err(Dropped::NotPoliced);
    }
    let meter = fields::policing::sharindx(image, entry) as usize;
    metered(image, entry, meter, octets)
}

// Steps 7 and 8 by how a frame came and its priority: they ask no VLAN.
#[tactic(auto, unfolding(crate::specs::Police::policed_of))]
pub fn police(image: &[u32], arrival: Arrival, priority: u64) -> Result<Policer, Dropped>
    requires sound { Sound image.now }
    requires port_bound { (arrival.port < 5) × (priority < 8) }
    ensures { result ≡ policed_of (image_in image.now) arrival.port priority arrival.destination arrival.octets }
{
    let entry = policer_of(arrival.port, priority, arrival.destination);
    policed_by(image, entry, arrival.octets)
}

// The course of the rest on a VLAN, for what a policer lets through. Inlined, as in `settle`.
#[tactic(auto, unfolding(crate::specs::Plan::course_of))]
#[inline(always)]
pub fn course_on(image: &[u32], arrival: Arrival, entrant: Entrant, policer: Policer) -> Course
    requires sound { Sound image.now }
    requires port_bound { (arrival.port < 5) × (entrant.place < count_of (image_in image.now) VlanLookup) × (entrant.priority < 8) }
    requires policer_bound { (policer.entry < count_of (image_in image.now) Policing) × (policer.meter < count_of (image_in image.now) Policing) }
    ensures { result ≡ course_of (image_in image.now) arrival.port arrival.destination entrant.vlan entrant.place entrant.priority policer.entry policer.meter }
{
    let to = ports::ports(
        image,
        arrival.port,
        entrant.vlan,
        entrant.place,
        arrival.destination,
    );
    Course {
        meter: policer.meter,
        smax: fields::policing::smax(image, policer.meter),
        rate: fields::policing::rate(image, policer.meter),
        partition: fields::policing::partition(image, policer.entry) as usize,
        sending: ports::send(
            image,
            arrival.port,
            to,
            entrant.vlan,
            entrant.priority,
            entrant.place,
        ),
    }
}
