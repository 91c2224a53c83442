// What stands at a place of a frame list, as a struct of numbers that C and Rust share. `tailbow_record_at` passes on to `record_at`; it stands
// apart from loads and frames, which it never calls.
#![tactic(auto)]

ghost use Rattle.std.specs.Prelude.{◌≡◌};
ghost use Rattle.records.specs.Answer.{told};
ghost use Rattle.flat_lists.specs.Lists.{flat_stands, RecordsFlat};

use records::Record;

// `kind`: 0 refused, with the `number`; 1 a frame and 2 a release, as in the list itself; 3 the list's end. A frame's bytes are the `count`
// bytes from `start` on; `next` is the place after the record. What a kind does not have is 0.
#[repr(C)]
#[derive(Clone, Copy)]
pub struct FlatRecord {
    pub kind: u32,
    pub number: u32,
    pub time: u64,
    pub port: u64,
    pub partition: u64,
    pub start: u64,
    pub count: u64,
    pub next: u64,
}

// What a kind does not have.
const NOTHING: FlatRecord = FlatRecord {
    kind: 0,
    number: 0,
    time: 0,
    port: 0,
    partition: 0,
    start: 0,
    count: 0,
    next: 0,
};

impl From<Record> for FlatRecord {
    ghost from_gives = { λ stands flat. flat ≡ flat_stands (told stands) };

    fn from(stands: Record) -> FlatRecord {
        match stands {
            Record::Frame {
                port,
                time,
                start,
                count,
                next,
            } => FlatRecord {
                kind: 1,
                time,
                port: port as u64,
                start: start as u64,
                count: count as u64,
                next: next as u64,
                ..NOTHING
            },
            Record::Release { partition, next } => FlatRecord {
                kind: 2,
                partition: partition as u64,
                next: next as u64,
                ..NOTHING
            },
            Record::End => FlatRecord { kind: 3, ..NOTHING },
            Record::Refused(why) => FlatRecord {
                kind: 0,
                number: records::number_of(why) as u32,
                ..NOTHING
            },
        }
    }
}

// What stands at a place of a list.
pub fn record_at(list: &[u8], at: usize) -> FlatRecord
    ensures { RecordsFlat list.now at result }
{
    FlatRecord::from(records::record_at(list, at))
}
