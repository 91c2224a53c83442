// A write, by any way to run its words; and word by word, which the program loads with. No table of checksums stands below it, so that the program proves none;
// `quick` has the same write by tables.
#![tactic(auto)]

pub mod headers;

ghost use Rattle.stream.specs.Fine.{Fine};
ghost use Rattle.stream.specs.Machine.{at, step, run};
ghost use Rattle.stream.specs.Leaves.{Leaves, Writes};

use placing::refusal;
use stream::states::Wrote;
use stream::{Answer, Load, Phase, states};

// One word.
pub fn step(image: &mut [u32], load: Load, w: u32) -> Load
    requires { Fine (at load image.old) }
    ensures { Leaves (step (at load image.old) w) result image.new }
{
    match load.phase {
        Phase::Device => headers::device(image, w),
        Phase::Id => states::headed(crc::word_in(load.stream, w), w),
        Phase::Length => states::sized(crc::word_in(load.stream, w), load.first, w),
        Phase::Sum => headers::summed(image, load.stream, load.first, load.second, w),
        Phase::Data => placing::filled(image, load, w),
        Phase::Told(_) => load,
    }
}

// A way to run words, one after the other.
pub trait Runs {
    fn run(&self, image: &mut [u32], load: Load, words: &[u32]) -> Load
        requires { Fine (at load image.old) }
        ensures { Leaves (run (at load image.old) words.now) result image.new };
}

// Word by word, by `step`.
#[derive(Clone, Copy)]
pub struct WordByWord;

impl Runs for WordByWord {
    fn run(&self, image: &mut [u32], load: Load, words: &[u32]) -> Load {
        let mut state = load;
        for w in words {
            state = step(image, state, *w);
        }
        state
    }
}

// Words for a load, run in any way: its answer and its state afterwards. The buffer's first words are the image.
pub fn write_by<R: Runs>(runs: &R, image: &mut [u32], load: Load, words: &[u32]) -> Wrote
    ensures { Writes load image.old words.now result image.new }
{
    if let Err(refusal) = refusal::write_refusal(image, load, words.len()) {
        return Wrote {
            answer: Answer::Refused(u32::from(refusal)),
            load,
        };
    }
    refusal::open(image, load);
    let next = runs.run(image, load, words);
    Wrote {
        answer: states::answer_of(next.phase),
        load: next,
    }
}

// Words for a load, word by word.
pub fn write(image: &mut [u32], load: Load, words: &[u32]) -> Wrote
    ensures { Writes load image.old words.now result image.new }
{
    write_by(&WordByWord, image, load, words)
}
