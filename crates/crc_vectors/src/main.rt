// Runs every CRC function over outside vectors and prints what each gives. The file stdout holds what other programs compute; vectors.py made it and says how.
// The checksums that Linux's driver packed are met by loader_vectors, which loads its streams.
#![tactic(auto)]

use crc_both::Both;
use crc_table::Tables;
use std::io;
use std::io::Write;

fn print_line<W: Write>(out: &mut W, name: &str, n: usize, value: u32) -> io::Result<()> {
    writeln!(out, "{name} {n} {value:08x}")
}

fn print_both<W: Write>(out: &mut W, name: &str, n: usize, both: Both) -> io::Result<()> {
    let block = crc::finish(both.block);
    let stream = crc::finish(both.stream);
    writeln!(out, "{name} {n} {block:08x} {stream:08x}")
}

// Bytes, by themselves: the check value of CRC-32.
fn run_bytes<W: Write>(out: &mut W, bytes: &[u8]) -> io::Result<()> {
    let mut r = crc::START;
    for byte in bytes {
        r = crc::bits_out(r ^ u32::from(*byte), 8);
    }
    print_line(out, "bits_out", bytes.len(), crc::finish(r))
}

// Words into two registers by the tables of a long run.
fn by_long(both: Both, words: &[u32]) -> Both {
    crc_long::words_in_both(&Tables::new(), both, words)
}

// Words into two registers, one by one.
fn one_by_one(both: Both, words: &[u32]) -> Both {
    let mut x = both;
    for word in words {
        x = crc_word::word_in_both(x, *word);
    }
    x
}

// A run of words by tables into two registers that begin alike, of which one is told.
fn run_one<W: Write>(out: &mut W, words: &[u32]) -> io::Result<()> {
    let both = Both {
        block: crc::START,
        stream: crc::START,
    };
    let n = words.len();
    let long = by_long(both, words).block;
    print_line(out, "long words_in", n, crc::finish(long))?;
    let short = crc_short::words_in_both(both, words).block;
    print_line(out, "short words_in", n, crc::finish(short))
}

// The same into two. The second register begins after the word 9E00030E, as a stream's does.
fn run_two<W: Write>(out: &mut W, words: &[u32]) -> io::Result<()> {
    let both = Both {
        block: crc::START,
        stream: crc::word_in(crc::START, 0x9E00_030E),
    };
    let n = words.len();
    print_both(
        out,
        "words_in_both",
        n,
        crc_both::words_in_both(both, words),
    )?;
    print_both(out, "long words_in_both", n, by_long(both, words))?;
    print_both(
        out,
        "short words_in_both",
        n,
        crc_short::words_in_both(both, words),
    )?;
    print_both(out, "word words_in_both", n, one_by_one(both, words))
}

// The first n words, in every way.
fn run<W: Write>(out: &mut W, words: &[u32], n: usize) -> io::Result<()> {
    let Some(part) = words.get(..n) else {
        return Ok(());
    };
    run_one(out, part)?;
    run_two(out, part)
}

// A thousand words, each the last one times 1,664,525 and 1,013,904,223 more, modulo 2^32.
fn made() -> [u32; 1000] {
    let mut words = [0u32; 1000];
    let mut w: u32 = 1;
    for word in &mut words {
        w = w.wrapping_mul(1664525).wrapping_add(1013904223);
        *word = w;
    }
    words
}

// Bytes; short runs, of every length up to twenty, so that a run by four leaves over each number of words several times; and long ones.
fn main(rt: HostRuntime) -> io::Result<()> {
    let words = made();
    let mut out = io::writer(&rt);
    run_bytes(&mut out, b"123456789")?;
    for n in 0..21 {
        run(&mut out, &words, n)?;
    }
    run(&mut out, &words, 999)?;
    run(&mut out, &words, 1000)
}
