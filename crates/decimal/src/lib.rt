// A word of at most 20 decimal digits as a number of 64 bits. `number_of` takes any bytes.
#![tactic(auto)]

ghost use Rattle.std.specs.Prelude.{◌≡◌};
ghost use Rattle.decimal.specs.Numbers.{number_of};

// The number that a word spells, or none where it spells none of 64 bits.
// Digit by digit: the first byte that is no digit, or that makes the number too large, ends it.
#[tactic(auto, using(crate::proofs::Digits::digit_on, crate::proofs::Digits::no_digit, crate::proofs::Digits::above_64, crate::proofs::Digits::at_end))]
pub fn number_of(word: &[u8]) -> Option<u64>
    ensures { result ≡ number_of word.now }
{
    if word.is_empty() || 20 < word.len() {
        return None;
    }
    let mut n: u64 = 0;
    for b in word {
        if !b.is_ascii_digit() {
            return None;
        }
        n = n.checked_mul(10)?.checked_add(u64::from(*b - b'0'))?;
    }
    Some(n)
}
