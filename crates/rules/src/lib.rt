// The loading rules, run one after the other up to the first that is broken.
#![tactic(auto)]

ghost use Rattle.std.specs.Prelude.{◌≡◌, if◌then◌else◌};
ghost use Rattle.image.specs.Layout.{image_in};
ghost use Rattle.image.specs.Sound.{Bounded};
ghost use Rattle.rules.specs.Rules.{ruled};
ghost use Rattle.rules.specs.Told.{number_of, told_of};

// A loading rule that an image can break, in the order in which they are asked.
#[derive(Clone, Copy, PartialEq, Eq, Debug)]
pub enum Rule {
    Incomplete,
    VlanTwice,
    VlanMissing,
    SharindxBeyond,
    SpaceOver,
    IndexTwice,
    RetagStray,
}

// A rule's number.
impl From<Rule> for u32 {
    ghost from_gives = { λ rule number. number ≡ number_of rule };

    fn from(rule: Rule) -> u32 {
        match rule {
            Rule::Incomplete => 20,
            Rule::VlanTwice => 21,
            Rule::VlanMissing => 22,
            Rule::SharindxBeyond => 23,
            Rule::SpaceOver => 24,
            Rule::IndexTwice => 25,
            Rule::RetagStray => 28,
        }
    }
}

// A rule that is broken stops the run.
fn unless(broken: bool, rule: Rule) -> Result<(), Rule>
    ensures { result ≡ (if broken then Err rule else Ok tt) }
{
    if broken { Err(rule) } else { Ok(()) }
}

// The first rule that the image breaks.
#[tactic(auto, using(crate::proofs::Asked::ports_there, crate::proofs::Asked::spaces_there), unfolding(crate::specs::Rules::ruled))]
pub fn first_broken_rule(image: &[u32]) -> Result<(), Rule>
    requires { Bounded image.now }
    ensures { told_of result ≡ ruled (image_in image.now) }
{
    let seen = broken::vlans_seen(image);
    let marks = &seen.marks;
    unless(loaded::incomplete(image), Rule::Incomplete)?;
    unless(seen.again, Rule::VlanTwice)?;
    unless(broken::vlan_missing(image, marks), Rule::VlanMissing)?;
    unless(broken::sharindx_beyond(image), Rule::SharindxBeyond)?;
    unless(broken::space_over(image), Rule::SpaceOver)?;
    unless(broken::index_twice(image), Rule::IndexTwice)?;
    unless(broken::retag_stray(image, marks), Rule::RetagStray)?;
    Ok(()) // no rule is broken: the image is loaded
}
