// CRC-32 of IEEE 802.3 over 32-bit words, each word's low byte first: the plain loops, which need no table and take one register.
// The program loads with them alone. Two registers at once (crc_both) and runs by tables have their own crates.
#![tactic(auto)]

ghost use Rattle.std.specs.Prelude.{◌≡◌};
ghost use Rattle.crc.specs.Crc.{bit, bits_out, word_in, finished};

// The register before the first word.
pub const START: u32 = 0xFFFF_FFFF;

// One bit leaves the register. The branch is what the compiler knows a CRC by, and turns into a table of its own.
#[tactic(auto, unfolding(crate::specs::Crc::bit))]
fn bit_out(r: u32) -> u32
    ensures { result ≡ bit r }
{
    if r % 2 == 1 {
        0xEDB8_8320 ^ (r >> 1)
    } else {
        r >> 1
    }
}

// k bits leave the register.
pub fn bits_out(r: u32, k: u32) -> u32
    ensures { result ≡ bits_out k r }
{
    let mut x = r;
    for _ in 0..k {
        x = bit_out(x);
    }
    x
}

// A word goes in.
pub fn word_in(r: u32, w: u32) -> u32
    ensures { result ≡ word_in r w }
{
    bits_out(r ^ w, 32)
}

// The checksum that a register stands for.
#[tactic(auto, unfolding(crate::specs::Crc::finished))]
pub fn finish(r: u32) -> u32
    ensures { result ≡ finished r }
{
    r ^ 0xFFFF_FFFF
}
