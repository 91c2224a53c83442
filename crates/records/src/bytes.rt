// Bytes of a list: the number that some of them make, and whether one differs from what has to stand there.
ghost use Rattle.std.specs.Prelude.{◌≡◌, ◌+◌, ◌<◌, ◌≤◌, ◌^◌, length, drop, not, eqb};
ghost use Rattle.std.specs.List.{list_any, zip};
ghost use Rattle.records.specs.Bytes.{number_at, differ};

// The number in the `width` bytes from `at` on, high byte first.
pub fn number_at(list: &[u8], at: usize, width: usize) -> u64
    requires { (at + width ≤ length list.now) × (width ≤ 8) }
    ensures { (result ≡ number_at list.now at width) × (result < 256 ^ width) }
{
    let mut n: u64 = 0;
    for b in &list[at..at + width] {
        n = n * 256 + u64::from(*b);
    }
    n
}

// Does a byte differ from the one wanted at its place, as far as both go?
fn unlike(bytes: &[u8], wanted: &[u8]) -> bool
    ensures { result ≡ list_any (λ p. not (eqb p.0 p.1)) (zip bytes.now wanted.now) }
{
    bytes.iter().zip(wanted).any(|(byte, want)| byte != want)
}

// Does a byte from `at` on, as far as there are any, differ from the wanted one?
pub fn differs(list: &[u8], at: usize, wanted: &[u8]) -> bool
    requires { at + length wanted.now < 2 ^ 64 }
    ensures { result ≡ differ (drop at list.now) wanted.now }
{
    let Some(rest) = list.get(at..) else {
        return false;
    };
    unlike(rest, wanted)
}
