// The same write, with the data words that are due at once, by tables: what C is given, and what whole loads run by. It stands apart from `loader`, since the program does without those tables.
#![tactic(auto)]

ghost use Rattle.std.specs.Prelude.{◌≡◌, ◌<◌, ◌≤◌, length};
ghost use Rattle.image.specs.Layout.{image_words};
ghost use Rattle.stream.specs.Fine.{Roomy};
ghost use Rattle.stream.specs.Machine.{at, run};
ghost use Rattle.stream.specs.declared.Phase.TheVariants.{Data};
ghost use Rattle.stream.specs.Leaves.{Leaves, Writes};

use crc_both::{Both, Sums};
use crc_short::Short;
use loader::Runs;
use stream::states::Wrote;
use stream::{Load, Phase};

// A block's data by tables, those that are due at once; the words between, one by one.
#[derive(Clone, Copy)]
pub struct ByTables<S> {
    pub sums: S,
}

impl<S: Sums> ByTables<S> {
    // A run of data words, no more than are due.
    fn data_run(&self, image: &mut [u32], load: Load, words: &[u32]) -> Load
        requires image_words_in_bounds { (image_words ≤ length image.old) × Roomy Data load image.old }
        requires words_nonzero { (0 < length words.now) × (length words.now ≤ load.due) × (load.phase ≡ Data) }
        ensures { Leaves (run (at load image.old) words.now) result image.new }
    {
        let sums = Both {
            block: load.block,
            stream: load.stream,
        };
        one_block::stored(image, load, words, self.sums.words_in(sums, words))
    }
}

impl<S: Sums> Runs for ByTables<S> {
    fn run(&self, image: &mut [u32], load: Load, words: &[u32]) -> Load {
        let mut state = load;
        let mut rest = words;
        while let Some((first, others)) = rest.split_first() {
            if matches!(state.phase, Phase::Data) && 0 < state.due {
                let (data, after) = rest.split_at(state.due.min(rest.len()));
                state = self.data_run(image, state, data);
                rest = after;
            } else {
                state = loader::step(image, state, *first);
                rest = others;
            }
        }
        state
    }
}

// What `loader::write` does, by the short tables.
pub fn write(image: &mut [u32], load: Load, words: &[u32]) -> Wrote
    ensures { Writes load image.old words.now result image.new }
{
    loader::write_by(&ByTables { sums: Short }, image, load, words)
}
