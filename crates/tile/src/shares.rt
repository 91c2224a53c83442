// What a tile shows, and the one division behind each share.
ghost use Rattle.std.specs.Prelude.{◌≡◌, ◌<◌, pos};
ghost use Rattle.std.specs.Float.{binary64};
ghost use Rattle.std.specs.Float.Ieee.{of_int};
ghost use Rattle.tile.specs.Tiles.{share_of, tile_of, bits_of};

#[derive(Clone, Copy)]
pub enum Tile {
    NotLoaded,
    NoFrames,
    Shares(f64, f64),
}

// A count as a float: without loss up to 2^53, which no judged ledger passes; a larger one rounds to the nearest.
fn as_float(n: u64) -> f64
    ensures { result ≡ of_int binary64 (pos n) }
{
    if n <= 9007199254740992 {
        return n as f64;
    }
    std::num::nearest_u64_to_f64(n)
}

// One division.
fn share(part: u64, of: u64) -> f64
    ensures { result ≡ share_of part of }
{
    as_float(part) / as_float(of)
}

pub fn tile_of(frames: u64, drops: u64, octets: u64, dropped: u64) -> Tile
    ensures { result ≡ tile_of frames drops octets dropped }
{
    if frames == 0 {
        return Tile::NoFrames;
    }
    Tile::Shares(share(drops, frames), share(dropped, octets))
}

// The bits of a share; a NaN, which no share is, never reaches the cast.
pub fn bits(x: f64) -> u64
    ensures { result ≡ bits_of x }
{
    if x != x {
        return 0x7FF8000000000000;
    }
    f64::to_bits(x)
}
