// A frame's bytes: its addresses and its tag, and steps 1 to 3, which take it in.
// That the image is sound and the port below 5 is asked in each contract, and no type has it: docs/ENTRIES.md names these functions, which take any such image and port.
#![tactic(auto)]

ghost use Rattle.std.specs.Prelude.{◌≡◌, ◌+◌, ◌*◌, ◌<◌, ◌≤◌, length};
ghost use Rattle.image.specs.Layout.{image_in};
ghost use Rattle.image.specs.Sound.{Sound};
ghost use Rattle.frame.specs.Bytes.{mac_at, pair_at, tag_of};
ghost use Rattle.frame.specs.Intake.{vlan_or, untagged_of, by_tag, intake_of};
ghost use Rattle.frame.specs.Answered.{intake_in};

use drops::Dropped;

// The one broadcast address.
pub const BROADCAST: u64 = 0xFFFFFFFFFFFF;

// What bytes 12 and 13 are in a tagged frame.
const TAGGED: u64 = 0x8100;

// The bytes below which L is below 64.
const LEAST_BYTES: usize = 60;

// A frame's tag, with the place of its first byte.
#[derive(Clone, Copy)]
pub struct Tag {
    pub at: usize,
    pub priority: u64,
    pub vlan: u64,
}

// A frame that steps 1 to 3 take in: its VLAN, its priority, and whether it has a tag.
#[derive(Clone, Copy)]
pub struct Received {
    pub vlan: u64,
    pub priority: u64,
    pub tagged: bool,
}

// The two bytes from `at` on.
fn pair_at(frame: &[u8], at: usize) -> u64
    requires { at + 2 ≤ length frame.now }
    ensures { (result ≡ pair_at frame.now at) × (result < 65536) }
{
    u64::from(u16::from_be_bytes([frame[at], frame[at + 1]]))
}

// The address in the six bytes from `at` on.
pub fn mac_at(frame: &[u8], at: usize) -> u64
    requires { at + 6 ≤ length frame.now }
    ensures { result ≡ mac_at frame.now at }
{
    u64::from_be_bytes([
        0,
        0,
        frame[at],
        frame[at + 1],
        frame[at + 2],
        frame[at + 3],
        frame[at + 4],
        frame[at + 5],
    ])
}

#[tactic(auto, unfolding(crate::specs::Bytes::tag_of))]
fn tag_of(frame: &[u8]) -> Option<Tag>
    requires { 60 ≤ length frame.now }
    ensures { result ≡ tag_of frame.now }
{
    if pair_at(frame, 12) != TAGGED {
        return None;
    }
    let control = pair_at(frame, 14);
    Some(Tag {
        at: 12,
        priority: control / 8192 % 8,
        vlan: control % 4096,
    })
}

// A tag's VLAN, or the port's where the tag has VLAN 0.
fn vlan_or(image: &[u32], port: usize, vlan: u64) -> u64
    requires sound { Sound image.now }
    requires port_bound { port < 5 }
    ensures { result ≡ vlan_or (image_in image.now) port vlan }
{
    if vlan == 0 {
        fields::mac::vlanid(image, port)
    } else {
        vlan
    }
}

// Step 3 of an untagged frame.
fn untagged(image: &[u32], port: usize) -> Result<Received, Dropped>
    requires sound { Sound image.now }
    requires port_bound { port < 5 }
    ensures { intake_in result ≡ untagged_of (image_in image.now) port }
{
    if fields::mac::drpuntag(image, port) != 0 {
        return Err(Dropped::Untagged);
    }
    Ok(Received {
        vlan: fields::mac::vlanid(image, port),
        priority: fields::mac::vlanprio(image, port),
        tagged: false,
    })
}

// Step 3.
fn by_tag(image: &[u32], port: usize, tag: Option<Tag>) -> Result<Received, Dropped>
    requires sound { Sound image.now }
    requires port_bound { port < 5 }
    ensures { intake_in result ≡ by_tag (image_in image.now) port tag }
{
    match tag {
        None => untagged(image, port),
        Some(tag) => Ok(Received {
            vlan: vlan_or(image, port, tag.vlan),
            priority: tag.priority,
            tagged: true,
        }),
    }
}

// Steps 1 to 3: the first drop that applies, or the frame taken in.
#[tactic(auto, unfolding(crate::specs::Intake::intake_of))]
pub fn take_in(image: &[u32], port: usize, frame: &[u8]) -> Result<Received, Dropped>
    requires sound { Sound image.now }
    requires port_bound { port < 5 }
    ensures { intake_in result ≡ intake_of (image_in image.now) port frame.now }
{
    if frame.len() < LEAST_BYTES {
        return Err(Dropped::TooShort);
    }
    if fields::mac::ingress(image, port) == 0 {
        return Err(Dropped::NoIngress);
    }
    by_tag(image, port, tag_of(frame))
}
