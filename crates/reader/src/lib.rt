// A reader over a frame list: it carries the list and its place, and hands on what stands there. Its functions are few and thin: the work is
// `records::record_at`'s, and `record_from` serves every caller that has a list and a place.
#![tactic(auto)]

ghost use Rattle.std.specs.Prelude.{◌≡◌};
ghost use Rattle.records.specs.Answer.{Reads};

use records::Record;

#[derive(Clone, Copy)]
pub struct Reader<'a> {
    pub list: &'a [u8],
    pub at: usize,
}

// A reader of a list at a place of it.
pub fn reader_at<'a>(list: &'a [u8], at: usize) -> Reader<'a>
    ensures { (result.list ≡ list.entry) × (result.at ≡ at) }
{
    Reader { list, at }
}

// What stands at the reader's place: a record with the next place, the list's end, or a refusal.
pub fn next<'a>(r: Reader<'a>) -> Record
    ensures { Reads r.entry.list.now r.entry.at result }
{
    records::record_at(r.list, r.at)
}

// What a reader of this list finds at this place.
pub fn record_from(list: &[u8], at: usize) -> Record
    ensures { Reads list.now at result }
{
    next(reader_at(list, at))
}
