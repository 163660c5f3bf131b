// Numbers in lent bytes, high byte first, of any width up to 8.
// Place and width stay two arguments, and 0 stands for no field: what a public function asks and promises may not change.
#![tactic(auto)]

ghost use Rattle.std.specs.Prelude.{◌≡◌};
ghost use Rattle.fields.specs.Field.{lies, field_at, with_field};

// `at + width` may be too large for a usize, so it is not formed before `width` is known to be at most `len`.
fn lies(len: usize, at: usize, width: usize) -> bool
    ensures { result ≡ lies len at width }
{
    width <= 8 && width <= len && at <= len - width
}

// The number in the `width` bytes from `at` on; 0 where they do not lie in `s` or are more than 8, as `field_at` has it: it cannot fail.
#[tactic(auto, using(crate::proofs::Eight::loads), unfolding(crate::specs::Field::field_at))]
pub fn load(s: &[u8], at: usize, width: usize) -> u64
    ensures { result ≡ field_at s.now at width }
{
    if !lies(s.len(), at, width) {
        return 0;
    }
    let mut bytes = [0; 8];
    bytes[8 - width..].copy_from_slice(&s[at..at + width]);
    u64::from_be_bytes(bytes)
}

// Puts the lowest `width` bytes of `n` from `at` on; changes nothing where they do not lie in `buf` or are more than 8.
#[tactic(auto, using(crate::proofs::Eight::stores), unfolding(crate::specs::Field::with_field))]
pub fn store(buf: &mut [u8], at: usize, width: usize, n: u64)
    ensures { buf.new ≡ with_field buf.old at width n }
{
    if !lies(buf.len(), at, width) {
        return;
    }
    buf[at..at + width].copy_from_slice(&n.to_be_bytes()[8 - width..]);
}
