// Two registers at once: words one by one, by the plain loops, and four a turn, by tables that a way to sum them brings along (crc_long, crc_short). The
// few words that a run of turns leaves over go in one by one.
#![tactic(auto)]

ghost use Rattle.std.specs.Prelude.{◌≡◌};
ghost use Rattle.crc.specs.Crc.{word_in, words_in};

// Two registers that the same words go into: one that began with a block, one that began with the stream.
#[derive(Clone, Copy)]
pub struct Both {
    pub block: u32,
    pub stream: u32,
}

// A word goes into both.
fn word_in_both(both: Both, w: u32) -> Both
    ensures { (result.block ≡ word_in both.block w) × (result.stream ≡ word_in both.stream w) }
{
    Both {
        block: crc::word_in(both.block, w),
        stream: crc::word_in(both.stream, w),
    }
}

// Words go into both.
#[tactic(auto, using(crc::proofs::Laws::words_in_more, crc::proofs::Laws::words_in_done))]
pub fn words_in_both(both: Both, words: &[u32]) -> Both
    ensures { (result.block ≡ words_in both.block words.now) × (result.stream ≡ words_in both.stream words.now) }
{
    let mut x = both;
    for w in words {
        x = word_in_both(x, *w);
    }
    x
}

// A way to sum words, four a turn.
pub trait Sums {
    // Four words go into both.
    fn turn(&self, both: Both, words: &[u32; 4]) -> Both
        ensures { (result.block ≡ words_in both.block words.now) × (result.stream ≡ words_in both.stream words.now) };

    // Words go into both.
    fn words_in(&self, both: Both, words: &[u32]) -> Both
        ensures { (result.block ≡ words_in both.block words.now) × (result.stream ≡ words_in both.stream words.now) }
    {
        let (turns, rest) = words.as_chunks::<4>();
        let mut x = both;
        for turn in turns {
            x = self.turn(x, turn);
        }
        words_in_both(x, rest)
    }
}
