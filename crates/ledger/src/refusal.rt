// What refuses a call with a ledger, and its number.
ghost use Rattle.std.specs.Prelude.{◌≡◌};
ghost use Rattle.ledger.specs.Refusals.{number_of};

#[derive(Clone, Copy, Debug, PartialEq, Eq)]
pub enum Refusal {
    ImageNotLoaded,
    BufferTooShort,
    NoSuchPort,
    Mistimed,
    FrameTooLong,
    NoSuchPartition,
    NothingOut,
    TooManyFrames,
    LedgerOutOfRange,
}

impl From<Refusal> for u32 {
    ghost from_gives = { λ refusal number. number ≡ number_of refusal };

    fn from(refusal: Refusal) -> u32 {
        match refusal {
            Refusal::ImageNotLoaded => 30,
            Refusal::BufferTooShort => 31,
            Refusal::NoSuchPort => 33,
            Refusal::Mistimed => 34,
            Refusal::FrameTooLong => 35,
            Refusal::NoSuchPartition => 36,
            Refusal::NothingOut => 37,
            Refusal::TooManyFrames => 38,
            Refusal::LedgerOutOfRange => 39,
        }
    }
}
