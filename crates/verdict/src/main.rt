// The verdict program: a stream's file is loaded, a list of records is walked, and what the switch does with each is printed.
// It prints and nothing else: every number that it shows comes from the proved crates.
#![tactic(auto)]

mod file;
mod list;
mod print;

use image::IMAGE_WORDS;
use std::env::Env;
use std::io;

fn main(rt: HostRuntime) -> io::Result<()> {
    // Where there is no argument, or one that is too long or no text, the path is empty: no file has it, which is 10.
    let mut argument = [0u8; 4096];
    let length = rt.arg(1, &mut argument).unwrap_or(0);
    let path = str::from_utf8(&argument[..length]).unwrap_or("");
    let mut image = [0u32; IMAGE_WORDS];
    if let Err(number) = file::load(&rt, path, &mut image) {
        return print::config_refused(&mut io::writer(&rt), number);
    }
    println!(rt; "config loaded")?;
    list::walk(&mut rt.reader(), &mut io::writer(&rt), &image)
}
