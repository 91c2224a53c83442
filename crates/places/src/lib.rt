// A verdict in one of the lent places, as ten numbers: how a frame's call says its replicas' verdicts.
// What puts it there is inlined, as in `settle`: a sending is nine numbers.
#![tactic(auto)]

ghost use Rattle.std.specs.Prelude.{◌≡◌, ◌+◌, ◌*◌, ◌<◌, ◌≤◌, length};
ghost use Rattle.places.specs.Places.{head_of, ten, put_from, put_in};

use ports::Sending;
use settle::Verdict;

// Numbers a place, and of all 32 places.
pub const TEN: usize = 10;

pub const PLACES: usize = 320;

// What a verdict that is not sent has.
const NOWHERE: Sending = Sending {
    ports: 0,
    vlan: 0,
    priority: 0,
    tags: 0,
    queue0: 0,
    queue1: 0,
    queue2: 0,
    queue3: 0,
    queue4: 0,
};

// Kind and number are one number, as C reads the places (D104).
fn head_of(kind: u64, number: u32) -> u64
    requires { kind < 4294967296 }
    ensures { result ≡ head_of kind number }
{
    kind + u64::from(number) * 4294967296
}

#[inline(always)]
fn put_ten(places: &mut [u64], at: usize, head: u64, s: Sending)
    requires { at + 10 ≤ length places.old }
    ensures { places.new ≡ put_from places.old at 0 (ten head s) }
{
    places[at..at + TEN].copy_from_slice(&[
        head, s.ports, s.vlan, s.priority, s.tags, s.queue0, s.queue1, s.queue2, s.queue3, s.queue4,
    ]);
}

// A verdict in place n.
#[inline(always)]
pub fn put(places: &mut [u64], n: usize, verdict: Verdict)
    requires { 10 * n + 10 ≤ length places.old }
    ensures { places.new ≡ put_in places.old n verdict }
{
    let at = TEN * n;
    match verdict {
        Verdict::Refused(number) => put_ten(places, at, head_of(0, number), NOWHERE),
        Verdict::Drop(number) => put_ten(places, at, head_of(1, number), NOWHERE),
        Verdict::Sent(s) => put_ten(places, at, head_of(2, 0), s),
    }
}
