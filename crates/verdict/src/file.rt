// The stream's file: counted first, then sent in writes.
use input::fill;
use std::io::Read;
use std::rt::Files;
use std::{fs, io};
use stream::bytes::word_at;
use stream::states::Wrote;
use stream::{Answer, states};

// A file that does not end is counted up to here; past it 9 is not asked.
const BUDGET: u64 = 4294967296;

// Counts what is left of a file; none where that is more than the budget.
fn count_bytes<R: Read>(file: &mut R) -> io::Result<Option<u64>> {
    let mut buf = [0u8; 65536];
    let mut bytes: u64 = 0;
    while bytes <= BUDGET {
        match file.read(&mut buf)? {
            0 => return Ok(Some(bytes)),
            n => bytes += n as u64,
        }
    }
    Ok(None)
}

// Opens a file, counts it and closes it.
fn count<R: Files>(files: &R, path: &str) -> io::Result<Option<u64>> {
    count_bytes(&mut fs::open(files, path)?)
}

// More bytes than a stream can need before it is answered: 32,374 words. A fixed buffer: no memory is asked for here.
const MOST: usize = 131072;

// What is left of a file, a word a write. An answer that was told is repeated, so the last one counts.
fn send<R: Read>(file: &mut R, image: &mut [u32]) -> Answer {
    let mut bytes = [0u8; MOST];
    let count = fill(file, &mut bytes).count;
    let mut wrote = Wrote {
        load: states::fresh(),
        answer: Answer::More,
    };
    let (fours, _) = bytes[..count].as_chunks::<4>();
    for four in fours {
        wrote = loader::write(image, wrote.load, &[word_at(four, 0)]);
    }
    wrote.answer
}

// Loads a stream's file, or tells the number of what refuses it: 10 where it cannot be opened or read, then 9, then 10 where it is empty or its words end
// at "more", or the writes' answer.
pub fn load<R: Files>(files: &R, path: &str, image: &mut [u32]) -> Result<(), u32> {
    match count(files, path) {
        Err(_) | Ok(Some(0)) => return Err(10),
        Ok(Some(bytes)) if bytes % 4 != 0 => return Err(9),
        Ok(_) => {}
    }
    let Ok(mut file) = fs::open(files, path) else {
        return Err(10);
    };
    match send(&mut file, image) {
        Answer::More => Err(10),
        Answer::Loaded => Ok(()),
        Answer::Refused(number) => Err(number),
    }
}
