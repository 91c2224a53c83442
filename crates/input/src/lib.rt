// Input, read until a buffer is full: what the programs take their streams, lists and cases with.
#![tactic(auto)]

ghost use Rattle.std.specs.Prelude.{◌≡◌, ◌≤◌, length, take};

use std::io::Read;

// How many bytes were read, and whether a read failed. A count and a flag: every caller takes the count in both cases, so that a `Result` would only be taken
// apart and put together again.
#[derive(Clone, Copy)]
pub struct Filled {
    pub count: usize,
    pub broken: bool,
}

// Reads until buf is full, the input ends or a read fails.
pub fn fill<R: Read>(input: &mut R, buf: &mut [u8]) -> Filled
    ensures in_bounds { result.count ≤ length buf.new }
    ensures taken { result.count ≡ length (take result.count buf.new) }
{
    let mut count: usize = 0;
    while count < buf.len() {
        match input.read(&mut buf[count..]) {
            Ok(0) => break,
            Ok(n) => count += n,
            Err(_) => {
                return Filled {
                    count,
                    broken: true,
                };
            }
        }
    }
    Filled {
        count,
        broken: false,
    }
}
