// A release: one unit of a partition comes back to the lent row.
ghost use Rattle.std.specs.Prelude.{◌≡◌, ◌<◌};
ghost use Rattle.image.specs.Layout.{image_in};
ghost use Rattle.image.specs.Sound.{Sound};
ghost use Rattle.ledger.specs.Refusals.{refused_by};
ghost use Rattle.row.specs.Release.{unreleased, release_refusal, given_to, HasRoom, Released};

use ledger::range::standing;
use ledger::refusal::Refusal;
use ledger::{CELLS, UNITS};

// 36, 37.
fn unreleased(image: &[u32], row: &[u64; CELLS], partition: usize) -> Result<(), Refusal>
    requires { Sound image.now }
    ensures { refused_by result ≡ unreleased (image_in image.now) row.now partition }
{
    if 7 < partition {
        return Err(Refusal::NoSuchPartition);
    }
    if fields::parameters::part_spc(image, partition) <= row[UNITS + partition] {
        return Err(Refusal::NothingOut);
    }
    Ok(())
}

// What refuses a release: 31, 30, 39, 36, 37.
fn refusal(image: &[u32], row: &[u64; CELLS], partition: usize) -> Result<(), Refusal>
    ensures { refused_by result ≡ release_refusal image.now row.now partition }
{
    standing(image, row)?;
    unreleased(image, row, partition)
}

// One unit more is left.
fn give_back(row: &mut [u64; CELLS], partition: usize)
    requires { HasRoom row.old partition }
    ensures { row.new ≡ given_to row.old partition }
{
    row[UNITS + partition] += 1;
}

// One unit of a partition comes back.
pub fn release(image: &[u32], row: &mut [u64; CELLS], partition: usize) -> Result<(), u32>
    ensures { Released image.now row.old partition result row.new }
{
    refusal(image, row, partition)?;
    give_back(row, partition);
    Ok(())
}
