// What refuses a write before one of its words is looked at: 31, 30 and 32. 30 is what every place in the image rests on. Also what a load's first write
// zeroes.
ghost use Rattle.std.specs.Prelude.{◌≡◌, ◌+◌, ◌≤◌, ltb, length};
ghost use Rattle.image.specs.Layout.{image_words, image_in};
ghost use Rattle.image.specs.Sound.{Within};
ghost use Rattle.stream.specs.Machine.{at, overdue_in, damaged, outside, opened};
ghost use Rattle.placing.specs.Refusal.{write_refusal};
ghost use Rattle.placing.specs.Refused.{number_of, number_in};

use stream::{Load, Phase, states};

// Why a write is refused before one of its words is looked at.
#[derive(Clone, Copy)]
pub enum Refusal {
    TooShort,
    Damaged,
    Outside,
}

// Its number in document 01.
impl From<Refusal> for u32 {
    ghost from_gives = { λ r n. n ≡ number_of r };

    fn from(refusal: Refusal) -> u32 {
        match refusal {
            Refusal::TooShort => 31,
            Refusal::Damaged => 30,
            Refusal::Outside => 32,
        }
    }
}

// More words are placed and due than are left. The sum is tested without ever being out of a number's range.
pub fn passes(left: usize, placed: usize, due: usize) -> bool
    ensures { result ≡ ltb left (placed + due) }
{
    left < placed || left - placed < due
}

fn overdue(image: &[u32], load: Load) -> bool
    requires { (image_words ≤ length image.now) × Within (image_in image.now) }
    ensures { result ≡ overdue_in load.phase load (image_in image.now) }
{
    matches!(load.phase, Phase::Data)
        && passes(
            crate::room_of(image, load.table).left,
            load.placed,
            load.due,
        )
}

// 30 for a write to a load that has begun.
fn damaged(image: &[u32], load: Load) -> bool
    requires { image_words ≤ length image.now }
    ensures { result ≡ damaged load (image_in image.now) }
{
    states::is_begun(load.phase) && (loaded::over_limit(image) || overdue(image, load))
}

// 32.
pub fn outside(n: usize) -> bool
    ensures { result ≡ outside n }
{
    n == 0 || 64 < n
}

// What a write of so many words is refused with before one of them is looked at: document 01's order is 31, 30, 32.
#[tactic(auto, unfolding(crate::specs::Refusal::write_refusal))]
pub fn write_refusal(image: &[u32], load: Load, count: usize) -> Result<(), Refusal>
    ensures { number_in result ≡ write_refusal load image.now count }
{
    if image::too_short(image) {
        return Err(Refusal::TooShort);
    }
    if damaged(image, load) {
        return Err(Refusal::Damaged);
    }
    if outside(count) {
        return Err(Refusal::Outside);
    }
    Ok(())
}

// "A load starts by zeroing the image": a write to one that has begun leaves it.
pub fn open(image: &mut [u32], load: Load)
    requires { image_words ≤ length image.old }
    ensures { at load image.new ≡ opened load image.old }
{
    if !states::is_begun(load.phase) {
        image::clear(image);
    }
}
