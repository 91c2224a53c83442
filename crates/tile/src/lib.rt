// A port's tile: not-loaded, no-frames, or its shares of dropped frames and octets.
#![tactic(auto)]

ghost use Rattle.tile.specs.Tiles.{Tiled};

use ledger::refusal::Refusal;
use ledger::{CELLS, DROPPED, DROPS, FRAMES, OCTETS};
use shares::Tile;

pub mod shares;

// What the screen shows of a port, or the number of what refuses the call: what tells it on (`flat_answers::flat_tile`) answers for every number. It changes
// nothing.
pub fn tile(image: &[u32], row: &[u64; CELLS], port: usize) -> Result<Tile, u32>
    ensures { Tiled image.now row.now port result }
{
    if image::too_short(image) {
        return Err(u32::from(Refusal::BufferTooShort));
    }
    if 4 < port {
        return Err(u32::from(Refusal::NoSuchPort));
    }
    if loaded::not_loaded(image) {
        return Ok(Tile::NotLoaded);
    }
    if ledger::range::out_of_range(image, row) {
        return Err(u32::from(Refusal::LedgerOutOfRange));
    }
    Ok(shares::tile_of(
        row[FRAMES + port],
        row[DROPS + port],
        row[OCTETS + port],
        row[DROPPED + port],
    ))
}
