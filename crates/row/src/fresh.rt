// A fresh ledger of an image: the row that a bench starts its list with.
ghost use Rattle.std.specs.Prelude.{◌≡◌, ◌<◌};
ghost use Rattle.image.specs.Layout.{image_in};
ghost use Rattle.image.specs.Sound.{Sound};
ghost use Rattle.row.specs.Fresh.{fresh_of, no_ledger, Freshened};

use image::tables::Table;
use ledger::range::{LATEST, full, unloaded};
use ledger::{CELLS, CREDIT, LAST, PARTITIONS, UNITS};

// Every partition at its PART_SPC, every meter that has an entry full, nothing anywhere else.
fn fresh_row(image: &[u32]) -> [u64; CELLS]
    requires { Sound image.now }
    ensures { result ≡ fresh_of (image_in image.now) }
{
    let mut row = [0u64; CELLS];
    for j in 0..PARTITIONS {
        row[UNITS + j] = fields::parameters::part_spc(image, j);
    }
    for k in 0..image::count(image, Table::Policing) {
        row[CREDIT + k] = full(image, k);
    }
    row
}

// No ledger: the last time is one that 39 refuses under every image.
fn no_ledger() -> [u64; CELLS]
    ensures { result ≡ no_ledger }
{
    let mut row = [0u64; CELLS];
    row[LAST] = LATEST + 1;
    row
}

// Fills the lent row: partitions and meters full, times and tiles 0; refused with 31 or 30, with no ledger.
pub fn fresh_ledger(image: &[u32], row: &mut [u64; CELLS]) -> Result<(), u32>
    ensures { Freshened image.now result row.new }
{
    match unloaded(image) {
        Err(refusal) => {
            *row = no_ledger();
            Err(u32::from(refusal))
        }
        Ok(()) => {
            *row = fresh_row(image);
            Ok(())
        }
    }
}
