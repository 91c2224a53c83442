// The list of records: read whole, walked with one ledger, then the tiles.
use crate::print;
use input::fill;
use ledger::CELLS;
use places::PLACES;
use records::{Record, Refusal};
use row::fresh::fresh_ledger;
use row::release::release;
use std::io;
use std::io::{Read, Write};

// One byte more than the most bytes, so that a list that is too long shows. A fixed buffer: no memory is asked for here.
const MOST: usize = 16385;

// Each record in turn, and what it tells, a frame's replicas right behind it; the row is brought up to date by each. What is left of the walk ends it.
fn records_of<W: Write>(
    out: &mut W,
    image: &[u32],
    list: &[u8],
    row: &mut [u64; CELLS],
    places: &mut [u64; PLACES],
    broken: bool,
) -> io::Result<()> {
    let mut record: u64 = 1;
    let mut at: usize = records::FIRST;
    loop {
        let found = reader::record_from(list, at);
        match found {
            Record::Frame {
                port,
                time,
                start,
                count: _,
                next,
            } => {
                let j = judge::judge(image, row, port, time, &list[start..next], places);
                print::verdict(out, record, j.verdict)?;
                print::replicas(out, record, places, j.replicas)?;
                at = next;
            }
            Record::Release { partition, next } => {
                print::released(out, record, release(image, row, partition))?;
                at = next;
            }
            Record::End => {
                if broken {
                    print::list_refused(out, Refusal::Cut)?;
                }
                return Ok(());
            }
            Record::Refused(why) => {
                return print::list_refused(out, why);
            }
        }
        record += 1;
    }
}

pub fn walk<R: Read, W: Write>(input: &mut R, out: &mut W, image: &[u32]) -> io::Result<()> {
    let mut list = [0u8; MOST];
    let filled = fill(input, &mut list);
    let mut cells = [0u64; CELLS];
    // Of a loaded image it is never refused; were it, 39 would refuse each record.
    let _ = fresh_ledger(image, &mut cells);
    let mut places = [0u64; PLACES];
    records_of(
        out,
        image,
        &list[..filled.count],
        &mut cells,
        &mut places,
        filled.broken,
    )?;
    print::tiles(out, image, &cells)
}
