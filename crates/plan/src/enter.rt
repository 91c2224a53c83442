// Steps 4 to 6, and 1 to 6 as one: is the frame let in, and on which VLAN. They read the image and the frame only; 4 can be run with any VLAN.
ghost use Rattle.std.specs.Prelude.{◌≡◌, ◌<◌, ◌≤◌, length};
ghost use Rattle.image.specs.Layout.{image_in, count_of};
ghost use Rattle.image.specs.Sound.{Sound};
ghost use Rattle.image.specs.declared.tables.Table.TheVariants.{VlanLookup};
ghost use Rattle.drops.specs.Numbers.{number_in};
ghost use Rattle.plan.specs.Steps.{placed_of, outsider, kept_out};
ghost use Rattle.plan.specs.Enter.{enter_of};
ghost use Rattle.plan.specs.Answered.{entered_in};

use drops::Dropped;
use frame::Received;

// A frame that steps 1 to 6 let in: its VLAN, the VLAN's place in 07, and its priority p.
#[derive(Clone, Copy)]
pub struct Entrant {
    pub vlan: u64,
    pub place: usize,
    pub priority: u64,
}

// Step 4: the VLAN's place in 07.
#[tactic(auto, unfolding(crate::specs::Steps::placed_of))]
pub fn place(image: &[u32], vlan: u64) -> Option<usize>
    requires { Sound image.now }
    ensures { result ≡ placed_of (image_in image.now) vlan }
{
    lookup::vlan::find(image, vlan)
}

// Step 5: membership is asked of tagged frames only.
fn outsider(image: &[u32], port: usize, tagged: bool, place: usize) -> bool
    requires sound { Sound image.now }
    requires port_bound { (port < 5) × (place < count_of (image_in image.now) VlanLookup) }
    ensures { result ≡ outsider (image_in image.now) port tagged place }
{
    tagged && !addresses::holds(fields::vlan::vmemb_port(image, place), port)
}

// Steps 5 and 6.
#[tactic(auto, unfolding(crate::specs::Steps::kept_out))]
fn kept_out(
    image: &[u32],
    port: usize,
    received: Received,
    source: u64,
    place: usize,
) -> Result<(), Dropped>
    requires sound { Sound image.now }
    requires port_bound { (port < 5) × (place < count_of (image_in image.now) VlanLookup) }
    ensures { number_in result ≡ kept_out (image_in image.now) port received.vlan received.tagged source place }
{
    if outsider(image, port, received.tagged, place) {
        return Err(Dropped::NotMember);
    }
    if addresses::barred(image, port, received.vlan, source) {
        return Err(Dropped::Barred);
    }
    Ok(())
}

// Steps 1 to 6.
pub fn enter(image: &[u32], port: usize, frame: &[u8]) -> Result<Entrant, Dropped>
    requires sound { Sound image.now }
    requires port_bound { port < 5 }
    ensures { entered_in result ≡ enter_of (image_in image.now) port frame.now }
{
    let received = frame::take_in(image, port, frame)?;
    let place = place(image, received.vlan).ok_or(Dropped::NoVlan)?;
    kept_out(image, port, received, frame::mac_at(frame, 6), place)?;
    Ok(Entrant {
        vlan: received.vlan,
        place,
        priority: received.priority,
    })
}
