// What loading is: the types of a load's state and answer. Their meaning stands in specs/, in the paper's form and in the machine's, with the bridge between them.
#![tactic(auto)]

pub mod bytes;
pub mod states;

ghost use Rattle.std.specs.Prelude.{◌≡◌};
ghost use Rattle.stream.specs.Faults.{fault_number};
ghost use Rattle.stream.specs.Header.{wrong_id, wrong_number};

use image::tables::{NoTable, Table};

// What a write or a whole load answers. Its number in document 01 is told by `numbered` in specs/. A refusal stays a number: a load that C lends may hold any
// number as the answer that it was told, and `flat_states` gives each of them back (`state_back`).
#[derive(Clone, Copy, PartialEq, Eq, Debug)]
pub enum Answer {
    More,
    Loaded,
    Refused(u32),
}

// What the next word is: word 0, which is also a load not yet begun; a block's two header words and their checksum; its data and their
// checksum. Or the answer has been told, by its number, for the same reason.
#[derive(Clone, Copy, PartialEq, Eq, Debug)]
pub enum Phase {
    Device,
    Id,
    Length,
    Sum,
    Data,
    Told(u32),
}

// Why a block's header is refused: its ID is none of the manual's, or names a table that is not carried; its length is not whole entries, or more than the
// table has room for.
#[derive(Clone, Copy, PartialEq, Eq, Debug)]
pub enum WrongHeader {
    UnknownId,
    UncarriedId,
    PartialEntry,
    TooManyEntries,
}

impl From<NoTable> for WrongHeader {
    ghost from_gives = { λ none wrong. wrong ≡ wrong_id none };

    fn from(none: NoTable) -> WrongHeader {
        match none {
            NoTable::NotCarried => WrongHeader::UncarriedId,
            NoTable::Unknown => WrongHeader::UnknownId,
        }
    }
}

// Its number.
impl From<WrongHeader> for u32 {
    ghost from_gives = { λ wrong number. number ≡ wrong_number wrong };

    fn from(wrong: WrongHeader) -> u32 {
        match wrong {
            WrongHeader::UnknownId => 3,
            WrongHeader::UncarriedId => 4,
            WrongHeader::PartialEntry => 5,
            WrongHeader::TooManyEntries => 6,
        }
    }
}

// Why a stream is refused for what it is as a whole: its first word; the checksum of a block's header, of its data, of all before the end; bytes that are no
// whole words; words that end before the stream does.
#[derive(Clone, Copy, PartialEq, Eq, Debug)]
pub enum Fault {
    WrongDevice,
    HeaderSum,
    DataSum,
    StreamSum,
    PartialWord,
    CutShort,
}

// Its number.
impl From<Fault> for u32 {
    ghost from_gives = { λ fault number. number ≡ fault_number fault };

    fn from(fault: Fault) -> u32 {
        match fault {
            Fault::WrongDevice => 1,
            Fault::HeaderSum => 2,
            Fault::DataSum => 7,
            Fault::StreamSum => 8,
            Fault::PartialWord => 9,
            Fault::CutShort => 10,
        }
    }
}

// A load under way: the phase, the block's table with the words placed and due, the two header words, and the running checksums. All stand in every phase, and
// not in those alone that need them: the six numbers that C lends hold them so, and the theorems on a load's states (`state_back`, `numbers_back`) speak of each.
#[derive(Clone, Copy)]
pub struct Load {
    pub phase: Phase,
    pub table: Table,
    pub placed: usize,
    pub due: usize,
    pub first: u32,
    pub second: u32,
    pub stream: u32,
    pub block: u32,
}
