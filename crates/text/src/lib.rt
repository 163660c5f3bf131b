// Text, put into lent bytes from a place on. What does not fit is not put, and its place comes back.
// The bytes and the place stay two arguments: what a public function asks of its callers may not change.
#![tactic(auto)]

ghost use Rattle.std.specs.Prelude.{[], ◌∷◌};
ghost use Rattle.text.specs.Decimal.{decimal};
ghost use Rattle.text.specs.Puts.{Puts, fitting};

use itoa::Buffer;

pub fn byte(out: &mut [u8], at: usize, b: u8) -> usize
    ensures { Puts out.old out.new at (fitting out.old at (b ∷ [])) result }
{
    word(out, at, &[b])
}

// `at + w.len()` may be too large for a usize, so it is not formed before there is room.
#[tactic(auto, using(crate::proofs::Putting::laid_over), unfolding(crate::specs::Puts::fitting))]
pub fn word(out: &mut [u8], at: usize, w: &[u8]) -> usize
    ensures { Puts out.old out.new at (fitting out.old at w.now) result }
{
    if at <= out.len() && w.len() <= out.len() - at {
        out[at..at + w.len()].copy_from_slice(w);
        return at + w.len();
    }
    at
}

#[tactic(auto, using(crate::proofs::Digits::same_decimal))]
pub fn number(out: &mut [u8], at: usize, n: u64) -> usize
    ensures { Puts out.old out.new at (fitting out.old at (decimal n)) result }
{
    let mut digits = Buffer::new();
    word(out, at, digits.format(n).as_bytes())
}
