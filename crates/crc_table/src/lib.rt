// The tables of CRC-32 by four words a turn, one for each place of a word in the turn. Each is 4 KiB: make them once, and lend them to every run.
#![tactic(auto)]

mod entries;

ghost use Rattle.crc_table.specs.Table.{IsTable};

// The tables of a turn's words, in their order: three words follow the first, none the last.
#[derive(Drop)]
pub struct Tables {
    pub first: [u32; 1024],
    pub second: [u32; 1024],
    pub third: [u32; 1024],
    pub last: [u32; 1024],
}

impl Tables {
    pub fn new() -> Tables
        ensures first { IsTable 3 result.first }
        ensures second { IsTable 2 result.second }
        ensures third { IsTable 1 result.third }
        ensures last { IsTable 0 result.last }
    {
        Tables {
            first: entries::FIRST,
            second: entries::SECOND,
            third: entries::THIRD,
            last: entries::LAST,
        }
    }
}
