// Loads each stream of standard input in every way and prints what each answers and leaves. The files stdin and stdout were made from the independent second
// program alone: tests/cases/src/bin/loader_vectors.rs made them and says how.
#![tactic(auto)]

ghost use Rattle.std.specs.Prelude.{◌<◌, ◌≤◌, length};

use crc_both::Both;
use image::IMAGE_WORDS;
use std::io;
use std::io::{Read, Write};
use stream::bytes::word_at;
use stream::states::Wrote;
use stream::{Answer, Load, states};

// The image and four words behind it, which no load touches.
const BUFFER: usize = IMAGE_WORDS + 4;

// What the buffer holds before a load, in each word.
const FOUND: u32 = 0xA5A5_A5A5;

// A function, since a Display would have to stand with the type, in stream, of which no other program prints an answer.
fn print_answer<W: Write>(out: &mut W, answer: Answer) -> io::Result<()> {
    match answer {
        Answer::More => write!(out, "more"),
        Answer::Loaded => write!(out, "0"),
        Answer::Refused(n) => write!(out, "{n}"),
    }
}

// The answer, and the checksum of the whole buffer: the image and four words behind it.
fn report<W: Write>(out: &mut W, way: &str, answer: Answer, buffer: &[u32]) -> io::Result<()> {
    let from_start = Both {
        block: crc::START,
        stream: crc::START,
    };
    let sum = crc::finish(crc_both::words_in_both(from_start, buffer).block);
    write!(out, " {way} ")?;
    print_answer(out, answer)?;
    write!(out, " {sum:08x}")
}

fn by_bytes<W: Write>(out: &mut W, bytes: &[u8]) -> io::Result<()> {
    let mut buffer = [FOUND; BUFFER];
    let answer = whole::load_bytes(&mut buffer, bytes);
    report(out, "bytes", answer, &buffer)
}

fn by_words<W: Write>(out: &mut W, words: &[u32]) -> io::Result<()> {
    let mut buffer = [FOUND; BUFFER];
    let answer = whole::load_words(&mut buffer, words);
    report(out, "words", answer, &buffer)
}

// Writes of `most` words by `write` until all are written, also past the answer. The last answer counts; "more" where there is no word.
fn in_writes<F: Fn(&mut [u32], Load, &[u32]) -> Wrote>(
    buffer: &mut [u32],
    words: &[u32],
    most: usize,
    write: F,
) -> Answer
    requires callable { F.IsAlwaysCallable write }
    requires some { 0 < most }
{
    let mut load = states::fresh();
    let mut answer = Answer::More;
    for part in words.chunks(most) {
        let wrote = write(buffer, load, part);
        load = wrote.load;
        answer = wrote.answer;
    }
    answer
}

fn by_writes<W: Write, F: Fn(&mut [u32], Load, &[u32]) -> Wrote>(
    out: &mut W,
    way: &str,
    words: &[u32],
    most: usize,
    write: F,
) -> io::Result<()>
    requires callable { F.IsAlwaysCallable write }
    requires some { 0 < most }
{
    let mut buffer = [FOUND; BUFFER];
    let answer = in_writes(&mut buffer, words, most, write);
    report(out, way, answer, &buffer)
}

// The ways that take words: writes of 64 go by tables, the others word by word. A write of 65 is refused, and what follows it goes on.
fn in_words<W: Write>(out: &mut W, words: &[u32]) -> io::Result<()> {
    by_words(out, words)?;
    by_writes(out, "by 1", words, 1, loader::write)?;
    by_writes(out, "by 7", words, 7, loader::write)?;
    by_writes(out, "by 64", words, 64, quick::write)?;
    by_writes(out, "by 65", words, 65, loader::write)
}

// Bytes as words, in a fixed buffer, since no memory is asked for here; no stream is longer than 16,384 of them.
fn as_words<W: Write>(out: &mut W, bytes: &[u8]) -> io::Result<()> {
    let mut words = [0u32; 16384];
    let (fours, _) = bytes.as_chunks::<4>();
    let Some(part) = words.get_mut(..fours.len()) else {
        return Ok(());
    };
    for (word, four) in part.iter_mut().zip(fours) {
        *word = word_at(four, 0);
    }
    in_words(out, part)
}

// One stream in every way.
fn run<W: Write>(out: &mut W, bytes: &[u8]) -> io::Result<()> {
    by_bytes(out, bytes)?;
    if bytes.len() % 4 == 0 {
        as_words(out, bytes)?;
    }
    Ok(())
}

// The next n bytes of the input, at the buffer's start. The answer is how many came.
fn fill<R: Read>(input: &mut R, buffer: &mut [u8], n: usize) -> usize
    ensures { result ≤ length buffer.new }
{
    let Some(part) = buffer.get_mut(..n) else {
        return 0;
    };
    input::fill(input, part).count
}

// One case: a name of 32 bytes, a length, the stream. False where there is none.
fn next<R: Read, W: Write>(input: &mut R, out: &mut W) -> io::Result<bool> {
    let mut name = [0u8; 32];
    if input::fill(input, &mut name).count < 32 {
        return Ok(false);
    }
    let mut size = [0u8; 4];
    if input::fill(input, &mut size).count < 4 {
        return Ok(false);
    }
    let mut buffer = [0u8; 65536];
    let n = fill(input, &mut buffer, word_at(&size, 0) as usize);
    out.write_all(&name)?;
    run(out, &buffer[..n])?;
    writeln!(out)?;
    Ok(true)
}

fn main(rt: HostRuntime) -> io::Result<()> {
    let mut input = rt.reader();
    let mut out = io::writer(&rt);
    for _ in 0..4096 {
        if !next(&mut input, &mut out)? {
            break;
        }
    }
    Ok(())
}
