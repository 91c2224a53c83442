// What is printed: a function for each kind of line. Functions and no `Display`: a line names its record or its port, which the value does not have.
ghost use Rattle.std.specs.Prelude.{◌+◌, ◌≤◌};

use ledger::{CELLS, DROPS, FRAMES};
use places::{PLACES, TEN};
use records::Refusal;
use settle::Verdict;
use std::io;
use std::io::Write;
use tile::shares::Tile;

// As many replicas as there are places.
const MOST_REPLICAS: usize = 32;

// A stream that is refused: no list is read, and no tile is loaded.
pub fn config_refused<W: Write>(out: &mut W, n: u32) -> io::Result<()> {
    writeln!(
        out,
        "config refused {n}\ntile 0 not-loaded\ntile 1 not-loaded\ntile 2 not-loaded\ntile 3 not-loaded\ntile 4 not-loaded"
    )
}

fn refused<W: Write>(out: &mut W, n: u32) -> io::Result<()> {
    writeln!(out, "refused {n}")
}

pub fn list_refused<W: Write>(out: &mut W, why: Refusal) -> io::Result<()> {
    let n = records::number_of(why);
    writeln!(out, "list refused {n}")
}

// A drop, of a frame or of a replica; `whose` brings its blank, since each piece of a line is a write of its own.
fn dropped<W: Write>(out: &mut W, whose: &str, record: u64, n: u64) -> io::Result<()> {
    writeln!(out, "{whose}{record} drop {n}")
}

// A sending, of a frame or of a replica: ports, VLAN, new priority, tags and the five queues.
fn sent<W: Write>(out: &mut W, whose: &str, record: u64, numbers: [u64; 9]) -> io::Result<()> {
    let [ports, vlan, priority, tags, a, b, c, d, e] = numbers;
    writeln!(
        out,
        "{whose}{record} sent {ports} vlan {vlan} prio {priority} tags {tags} queues {a} {b} {c} {d} {e}"
    )
}

pub fn verdict<W: Write>(out: &mut W, record: u64, v: Verdict) -> io::Result<()> {
    match v {
        Verdict::Refused(n) => refused(out, n),
        Verdict::Drop(n) => dropped(out, "frame ", record, u64::from(n)),
        Verdict::Sent(s) => sent(
            out,
            "frame ",
            record,
            [
                s.ports, s.vlan, s.priority, s.tags, s.queue0, s.queue1, s.queue2, s.queue3,
                s.queue4,
            ],
        ),
    }
}

// A replica's line from its ten numbers, which are never a refusal's.
fn replica<W: Write>(out: &mut W, record: u64, places: &[u64; PLACES], at: usize) -> io::Result<()>
    requires { at + 10 ≤ 320 }
{
    let head = places[at];
    if head % 4294967296 == 1 {
        return dropped(out, "replica ", record, head >> 32);
    }
    let numbers = [
        places[at + 1],
        places[at + 2],
        places[at + 3],
        places[at + 4],
        places[at + 5],
        places[at + 6],
        places[at + 7],
        places[at + 8],
        places[at + 9],
    ];
    sent(out, "replica ", record, numbers)
}

// The replicas of a frame, right behind it, under its record's number.
pub fn replicas<W: Write>(
    out: &mut W,
    record: u64,
    places: &[u64; PLACES],
    count: usize,
) -> io::Result<()> {
    for i in 0..count.min(MOST_REPLICAS) {
        replica(out, record, places, TEN * i)?;
    }
    Ok(())
}

pub fn released<W: Write>(out: &mut W, record: u64, answer: Result<(), u32>) -> io::Result<()> {
    match answer {
        Err(n) => refused(out, n),
        Ok(()) => writeln!(out, "release {record} ok"),
    }
}

// A tile, with its port's counts.
fn shown<W: Write>(out: &mut W, tile: Tile, frames: u64, drops: u64) -> io::Result<()> {
    match tile {
        Tile::NotLoaded => writeln!(out, "not-loaded"),
        Tile::NoFrames => writeln!(out, "no-frames"),
        Tile::Shares(share, octets) => {
            let share = tile::shares::bits(share);
            let octets = tile::shares::bits(octets);
            writeln!(
                out,
                "frames {frames} drops {drops} share {share:016x} octets {octets:016x}"
            )
        }
    }
}

// Each port's tile.
pub fn tiles<W: Write>(out: &mut W, image: &[u32], cells: &[u64; CELLS]) -> io::Result<()> {
    for port in 0..5 {
        write!(out, "tile {port} ")?;
        match tile::tile(image, cells, port) {
            Err(n) => refused(out, n)?,
            Ok(tile) => shown(out, tile, cells[FRAMES + port], cells[DROPS + port])?,
        }
    }
    Ok(())
}
