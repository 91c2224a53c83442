// CRC-32 over long runs of words, by table, four words a turn. The caller makes the tables once (crc_table) and lends them to every run.
#![tactic(auto)]

ghost use Rattle.std.specs.Prelude.{◌≡◌, ℕ, ◌+◌, ◌*◌};
ghost use Rattle.crc.specs.Crc.{bits_out, words_in};
ghost use Rattle.crc.specs.Four.{rest};
ghost use Rattle.crc_table.specs.Table.{IsTable};
ghost use Rattle.crc_long.specs.Turn.{AreTables};

use crc_both::{Both, Sums};
use crc_table::Tables;

// What a word leaves in the register after the words that follow it in a turn.
fn look(table: &[u32; 1024], w: u32) -> u32
    ensures { (n : ℕ) → IsTable n table.now → result ≡ bits_out (32 * n + 32) w }
{
    let [a, b, c, d] = w.to_le_bytes();
    table[768 + usize::from(a)]
        ^ table[512 + usize::from(b)]
        ^ table[256 + usize::from(c)]
        ^ table[usize::from(d)]
}

// A turn's tables, lent.
#[derive(Clone, Copy)]
pub struct Long<'a> {
    tables: &'a Tables,
    ghost are_tables: { AreTables tables.now.first tables.now.second tables.now.third tables.now.last },
}

impl<'a> Long<'a> {
    pub fn new(tables: &'a Tables) -> Long<'a>
        requires are_tables { AreTables tables.now.first tables.now.second tables.now.third tables.now.last }
        ensures { result.tables.now ≡ tables.now }
    {
        Long { tables }
    }

    // What the last three words of a turn leave.
    fn others(&self, w: u32, x: u32, y: u32) -> u32
        ensures { result ≡ rest w x y }
    {
        look(&self.tables.second, w) ^ look(&self.tables.third, x) ^ look(&self.tables.last, y)
    }
}

impl<'a> Sums for Long<'a> {
    fn turn(&self, both: Both, words: &[u32; 4]) -> Both {
        let [v, w, x, y] = *words;
        let shared = self.others(w, x, y);
        Both {
            block: look(&self.tables.first, both.block ^ v) ^ shared,
            stream: look(&self.tables.first, both.stream ^ v) ^ shared,
        }
    }
}

// Words go into both.
pub fn words_in_both(tables: &Tables, both: Both, words: &[u32]) -> Both
    requires { AreTables tables.now.first tables.now.second tables.now.third tables.now.last }
    ensures { (result.block ≡ words_in both.block words.now) × (result.stream ≡ words_in both.stream words.now) }
{
    Long::new(tables).words_in(both, words)
}
