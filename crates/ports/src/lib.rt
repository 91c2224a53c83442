// Where a frame is sent: its ports, its new priority, the ports that tag it, and its five queues. Image and frame only.
// That the image is sound and the port below 5 is asked in each contract, and no type has it: docs/ENTRIES.md names these functions, which take any such image and port.
#![tactic(auto)]

ghost use Rattle.std.specs.Prelude.{◌≡◌, ◌+◌, ◌<◌};
ghost use Rattle.image.specs.Layout.{image_in, count_of};
ghost use Rattle.image.specs.Sound.{Sound};
ghost use Rattle.image.specs.declared.tables.Table.TheVariants.{VlanLookup};
ghost use Rattle.ports.specs.Ports.{wanted_of, egress_ports, others, ports_of, queue_of, sending_of};

// What a sent frame gets: masks of ports with port 0 the lowest bit, and a queue for each of the five ports, 0 where it is not sent.
// Five fields and no array: a definition sees an array as a list of any length, and `said_of` and `ten_of` say nine and ten numbers of every sending.
#[derive(Clone, Copy)]
pub struct Sending {
    pub ports: u64,
    pub vlan: u64,
    pub priority: u64,
    pub tags: u64,
    pub queue0: u64,
    pub queue1: u64,
    pub queue2: u64,
    pub queue3: u64,
    pub queue4: u64,
}

// The ports before the cuts that every frame gets. VLAN_BC cuts broadcasts only.
#[tactic(auto, unfolding(crate::specs::Ports::wanted_of))]
fn wanted(image: &[u32], port: usize, vlan: u64, entry: usize, destination: u64) -> u64
    requires sound { Sound image.now }
    requires port_bound { (port < 5) × (entry < count_of (image_in image.now) VlanLookup) }
    ensures { result ≡ wanted_of (image_in image.now) port vlan entry destination }
{
    if destination == frame::BROADCAST {
        return fields::forwarding::bc_domain(image, port) & fields::vlan::vlan_bc(image, entry);
    }
    match addresses::destination(image, vlan, destination) {
        None => fields::forwarding::fl_domain(image, port),
        Some(found) => fields::address::destports(image, found),
    }
}

// The ports with EGRESS.
fn egress_ports(image: &[u32]) -> u64
    requires { Sound image.now }
    ensures { result ≡ egress_ports (image_in image.now) }
{
    fields::mac::egress(image, 0)
        + 2 * fields::mac::egress(image, 1)
        + 4 * fields::mac::egress(image, 2)
        + 8 * fields::mac::egress(image, 3)
        + 16 * fields::mac::egress(image, 4)
}

// The other four ports.
fn others(port: usize) -> u64
    requires { port < 5 }
    ensures { result ≡ others port }
{
    31 - (1 << port)
}

// The ports that the frame is sent to. VLAN, entry and priority come one by one, here and in `send`: the struct of a frame that was let in is `plan`'s, which
// stands on this crate.
pub fn ports(image: &[u32], port: usize, vlan: u64, entry: usize, destination: u64) -> u64
    requires sound { Sound image.now }
    requires port_bound { (port < 5) × (entry < count_of (image_in image.now) VlanLookup) }
    ensures { result ≡ ports_of (image_in image.now) port vlan entry destination }
{
    wanted(image, port, vlan, entry, destination)
        & fields::forwarding::reach_port(image, port)
        & fields::vlan::vmemb_port(image, entry)
        & egress_ports(image)
        & others(port)
}

// The queue at output e.
fn queue(image: &[u32], ports: u64, q: u64, e: usize) -> u64
    requires sound { Sound image.now }
    requires q_bound { (q < 8) × (e < 5) }
    ensures { result ≡ queue_of (image_in image.now) ports q e }
{
    if addresses::holds(ports, e) {
        fields::forwarding::vlan_pmap(image, 5 + q as usize, e)
    } else {
        0
    }
}

// What a frame that is sent to these ports gets.
#[tactic(auto, unfolding(crate::specs::Ports::sending_of, crate::specs::Ports::sending_at))]
pub fn send(
    image: &[u32],
    port: usize,
    ports: u64,
    vlan: u64,
    priority: u64,
    entry: usize,
) -> Sending
    requires sound { Sound image.now }
    requires port_bound { (port < 5) × (priority < 8) × (entry < count_of (image_in image.now) VlanLookup) }
    ensures { result ≡ sending_of (image_in image.now) port ports vlan priority entry }
{
    let q = fields::forwarding::vlan_pmap(image, port, priority as usize);
    Sending {
        ports,
        vlan,
        priority: q,
        tags: ports & fields::vlan::tag_port(image, entry),
        queue0: queue(image, ports, q, 0),
        queue1: queue(image, ports, q, 1),
        queue2: queue(image, ports, q, 2),
        queue3: queue(image, ports, q, 3),
        queue4: queue(image, ports, q, 4),
    }
}
