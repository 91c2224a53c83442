// Why a frame is not sent: the eleven drops, in the order in which the steps ask for them, and the numbers that a verdict tells them by.
#![tactic(auto)]

ghost use Rattle.std.specs.Prelude.{◌≡◌};
ghost use Rattle.drops.specs.Numbers.{number_of};

#[derive(Clone, Copy, PartialEq, Eq)]
pub enum Dropped {
    // 1. L is below 64.
    TooShort,
    // 2. The port's INGRESS is clear.
    NoIngress,
    // 3. Untagged, and the port has DRPUNTAG.
    Untagged,
    // 4. The VLAN has no entry in 07.
    NoVlan,
    // 5. Tagged, and the port is not in VMEMB_PORT.
    NotMember,
    // 6. An entry of 05 enforces the source at other ports.
    Barred,
    // 7. A policing entry is not loaded.
    NotPoliced,
    // 8. L is above MAXLEN.
    TooLong,
    // 9. The meter is short.
    NoCredit,
    // 10. There is no port to send to.
    NoPort,
    // 11. The partition has no unit left.
    NoUnit,
}

// A drop's number, that of its step.
impl From<Dropped> for u32 {
    ghost from_gives = { λ drop number. number ≡ number_of drop };

    fn from(drop: Dropped) -> u32 {
        match drop {
            Dropped::TooShort => 1,
            Dropped::NoIngress => 2,
            Dropped::Untagged => 3,
            Dropped::NoVlan => 4,
            Dropped::NotMember => 5,
            Dropped::Barred => 6,
            Dropped::NotPoliced => 7,
            Dropped::TooLong => 8,
            Dropped::NoCredit => 9,
            Dropped::NoPort => 10,
            Dropped::NoUnit => 11,
        }
    }
}
