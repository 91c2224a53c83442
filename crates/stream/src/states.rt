// Load states, answers, and what a refusal leaves: what each way of loading comes to.
ghost use Rattle.std.specs.Prelude.{◌≡◌, ◌≤◌, length};
ghost use Rattle.image.specs.Layout.{image_words};
ghost use Rattle.stream.specs.Machine.{fresh, idle, headed, sized, filling, told, refuse, answer_of, begun};
ghost use Rattle.stream.specs.Paper.{numbered};
ghost use Rattle.stream.specs.Leaves.{Leaves};

use crate::{Answer, Load, Phase};
use image::tables::Table;

// The answer and the load state that a write leaves.
#[derive(Clone, Copy)]
pub struct Wrote {
    pub answer: Answer,
    pub load: Load,
}

// A load before its first write.
pub fn fresh() -> Load
    ensures { result ≡ fresh }
{
    Load {
        phase: Phase::Device,
        table: Table::AddressLookup,
        placed: 0,
        due: 0,
        first: 0,
        second: 0,
        stream: 0,
        block: 0,
    }
}

pub fn told(n: u32) -> Load
    ensures { result ≡ told n }
{
    Load {
        phase: Phase::Told(n),
        ..fresh()
    }
}

pub fn idle(stream: u32) -> Load
    ensures { result ≡ idle stream }
{
    Load {
        phase: Phase::Id,
        stream,
        ..fresh()
    }
}

pub fn headed(stream: u32, first: u32) -> Load
    ensures { result ≡ headed stream first }
{
    Load {
        phase: Phase::Length,
        first,
        stream,
        ..fresh()
    }
}

pub fn sized(stream: u32, first: u32, second: u32) -> Load
    ensures { result ≡ sized stream first second }
{
    Load {
        phase: Phase::Sum,
        first,
        second,
        stream,
        ..fresh()
    }
}

pub fn filling(table: Table, placed: usize, due: usize, stream: u32, block: u32) -> Load
    ensures { result ≡ filling table placed due stream block }
{
    Load {
        phase: Phase::Data,
        table,
        placed,
        due,
        stream,
        block,
        ..fresh()
    }
}

// An answer by its number: a function, since every number has one.
pub fn numbered(n: u32) -> Answer
    ensures { result ≡ numbered n }
{
    if n == 0 {
        Answer::Loaded
    } else {
        Answer::Refused(n)
    }
}

pub fn answer_of(phase: Phase) -> Answer
    ensures { result ≡ answer_of phase }
{
    match phase {
        Phase::Told(n) => numbered(n),
        _ => Answer::More,
    }
}

pub fn is_begun(phase: Phase) -> bool
    ensures { result ≡ begun phase }
{
    phase != Phase::Device
}

pub fn refuse(image: &mut [u32], n: u32) -> Load
    requires { image_words ≤ length image.old }
    ensures { Leaves (refuse image.old n) result image.new }
{
    image::clear(image);
    told(n)
}
