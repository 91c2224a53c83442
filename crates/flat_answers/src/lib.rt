// Verdicts, tiles and the answers of a ledger as numbers that C and Rust share: conversions alone. They call no judge and no ledger, so what
// each kind is told as stands apart from what is judged.
#![tactic(auto)]

ghost use Rattle.std.specs.Prelude.{◌≡◌};
ghost use Rattle.ledger.specs.Answers.{number_of};
ghost use Rattle.flat_answers.specs.Answers.{flat_verdict, flat_tile};

use settle::Verdict;
use tile::shares::Tile;

// `kind`: 0 refused and 1 dropped, with the `number`; 2 sent, with the values, which are 0 before.
#[repr(C)]
#[derive(Clone, Copy)]
pub struct FlatVerdict {
    pub kind: u32,
    pub number: u32,
    pub ports: u64,
    pub vlan: u64,
    pub priority: u64,
    pub tags: u64,
    pub queue0: u64,
    pub queue1: u64,
    pub queue2: u64,
    pub queue3: u64,
    pub queue4: u64,
}

// `kind`: 0 refused, with the `number`; 1 not-loaded; 2 no-frames; 3 shares, by their bits, which are 0 before.
#[repr(C)]
#[derive(Clone, Copy)]
pub struct FlatTile {
    pub kind: u32,
    pub number: u32,
    pub share: u64,
    pub octets: u64,
}

// What a verdict that is not sent does not have.
const UNSENT: FlatVerdict = FlatVerdict {
    kind: 0,
    number: 0,
    ports: 0,
    vlan: 0,
    priority: 0,
    tags: 0,
    queue0: 0,
    queue1: 0,
    queue2: 0,
    queue3: 0,
    queue4: 0,
};

// What a tile without shares does not have.
const NO_SHARES: FlatTile = FlatTile {
    kind: 0,
    number: 0,
    share: 0,
    octets: 0,
};

// The three conversions are functions and no `From`: docs/ENTRIES.md names them, and a `From` for `u32` cannot stand here.
pub fn outcome_number(answer: Result<(), u32>) -> u32
    ensures { result ≡ number_of answer }
{
    match answer {
        Err(n) => n,
        Ok(()) => 0,
    }
}

pub fn flat_verdict(verdict: Verdict) -> FlatVerdict
    ensures { result ≡ flat_verdict verdict }
{
    match verdict {
        Verdict::Refused(n) => FlatVerdict {
            kind: 0,
            number: n,
            ..UNSENT
        },
        Verdict::Drop(n) => FlatVerdict {
            kind: 1,
            number: n,
            ..UNSENT
        },
        Verdict::Sent(s) => FlatVerdict {
            kind: 2,
            number: 0,
            ports: s.ports,
            vlan: s.vlan,
            priority: s.priority,
            tags: s.tags,
            queue0: s.queue0,
            queue1: s.queue1,
            queue2: s.queue2,
            queue3: s.queue3,
            queue4: s.queue4,
        },
    }
}

pub fn flat_tile(asked: Result<Tile, u32>) -> FlatTile
    ensures { result ≡ flat_tile asked }
{
    match asked {
        Err(n) => FlatTile {
            kind: 0,
            number: n,
            ..NO_SHARES
        },
        Ok(Tile::NotLoaded) => FlatTile {
            kind: 1,
            ..NO_SHARES
        },
        Ok(Tile::NoFrames) => FlatTile {
            kind: 2,
            ..NO_SHARES
        },
        Ok(Tile::Shares(frames, octets)) => FlatTile {
            kind: 3,
            number: 0,
            share: tile::shares::bits(frames),
            octets: tile::shares::bits(octets),
        },
    }
}
