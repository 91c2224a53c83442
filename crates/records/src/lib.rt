// The frame list: what stands at a place of it. Nothing is asked of a caller: any bytes are a list, and any number is a place.
#![tactic(auto)]

pub mod bytes;

ghost use Rattle.std.specs.Prelude.{◌≡◌, ◌<◌, length};
ghost use Rattle.records.specs.List.{opening_of, kind_of, frame_at, release_at};
ghost use Rattle.records.specs.Answer.{number_of, opens, told, Reads};

use crate::bytes::{differs, number_at};

// Where the first record starts: behind the mark and the version.
pub const FIRST: usize = 5;

const MOST_BYTES: usize = 16384;

// The kind byte, port, time and length in front of a frame's bytes.
const FRAME_HEAD: usize = 12;

const RELEASE_BYTES: usize = 2;

// Why a list, or what is left of it, is not run.
#[derive(Clone, Copy, Debug, PartialEq, Eq)]
pub enum Refusal {
    Size,
    Mark,
    Version,
    Cut,
    Kind,
}

// What a record is, by its kind byte.
#[derive(Clone, Copy)]
enum Kind {
    Frame,
    Release,
}

// What stands at a place of a list: one of four, as document 01 tells them (`Stands`), and no `Result` around an `Option`.
#[derive(Clone, Copy)]
pub enum Record {
    // The frame's bytes are the `count` bytes from `start` on; `next` is the place after the record.
    Frame {
        port: usize,
        time: u64,
        start: usize,
        count: usize,
        next: usize,
    },
    Release {
        partition: usize,
        next: usize,
    },
    End,
    Refused(Refusal),
}

impl From<Refusal> for u64 {
    ghost from_gives = { λ why number. number ≡ number_of why };

    fn from(why: Refusal) -> u64 {
        match why {
            Refusal::Size => 54,
            Refusal::Mark => 50,
            Refusal::Version => 51,
            Refusal::Cut => 52,
            Refusal::Kind => 53,
        }
    }
}

// The refusal's number in document 01, as its `From` has it: docs/ENTRIES.md names this function.
pub fn number_of(why: Refusal) -> u64
    ensures { result ≡ number_of why }
{
    u64::from(why)
}

// What a list opens with: the version of the records that follow, or 54, 50, 51 or 52.
fn opening_of(list: &[u8]) -> Result<u64, Refusal>
    ensures { opens result ≡ opening_of list.now }
{
    if list.len() > MOST_BYTES {
        return Err(Refusal::Size);
    }
    if differs(list, 0, b"FRL") {
        return Err(Refusal::Mark);
    }
    if differs(list, 3, &[0, 1]) {
        return Err(Refusal::Version);
    }
    if list.len() < FIRST {
        return Err(Refusal::Cut);
    }
    Ok(number_at(list, 3, 2))
}

// Which kind a byte is in a list of this version.
fn kind_of(version: u64, byte: u8) -> Option<Kind>
    ensures { result ≡ kind_of version byte }
{
    if version != 1 {
        return None;
    }
    match byte {
        1 => Some(Kind::Frame),
        2 => Some(Kind::Release),
        _ => None,
    }
}

// A record of kind 1.
fn frame_at(list: &[u8], at: usize) -> Record
    requires { at < length list.now }
    ensures { told result ≡ frame_at list.now at }
{
    let left = list.len() - at;
    if left < FRAME_HEAD {
        return Record::Refused(Refusal::Cut);
    }
    let count = number_at(list, at + 10, 2) as usize;
    if left - FRAME_HEAD < count {
        return Record::Refused(Refusal::Cut);
    }
    let start = at + FRAME_HEAD;
    Record::Frame {
        port: number_at(list, at + 1, 1) as usize,
        time: number_at(list, at + 2, 8),
        start,
        count,
        next: start + count,
    }
}

// A record of kind 2.
fn release_at(list: &[u8], at: usize) -> Record
    requires { at < length list.now }
    ensures { told result ≡ release_at list.now at }
{
    if list.len() - at < RELEASE_BYTES {
        return Record::Refused(Refusal::Cut);
    }
    Record::Release {
        partition: number_at(list, at + 1, 1) as usize,
        next: at + RELEASE_BYTES,
    }
}

// What stands at a place of a list. At its end and past it the list ends; a list that does not open has no record at any place.
pub fn record_at(list: &[u8], at: usize) -> Record
    ensures { Reads list.now at result }
{
    let version = match opening_of(list) {
        Ok(version) => version,
        Err(why) => return Record::Refused(why),
    };
    if list.len() <= at {
        return Record::End;
    }
    match kind_of(version, list[at]) {
        Some(Kind::Frame) => frame_at(list, at),
        Some(Kind::Release) => release_at(list, at),
        None => Record::Refused(Refusal::Kind),
    }
}
