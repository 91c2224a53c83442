// The search in 07, and what it shares with those in 05. Each asks a group of entries at once, so that they go side by side, whether one may be
// what it looks for, and only such a group's one after the other.
#![tactic(auto)]

pub mod groups;
pub mod vlan;

ghost use Rattle.std.specs.Prelude.{◌≡◌, not, ◌/◌, ◌^◌, ◌<◌, eqb};
ghost use Rattle.laws.specs.Scan.{flag};

// A number whose top bit is clear exactly where the two are equal. And-ed, sixteen of them need no test each: a flag in place of a bool, for speed.
pub fn apart(a: u32, b: u32) -> u32
    requires { (a < 2 ^ 31) × (b < 2 ^ 31) }
    ensures { result / 2 ^ 31 ≡ flag (not (eqb a b)) }
{
    (a ^ b) + 2147483647
}
