// Lines of text in lent bytes: a word, numbers in plain decimal, LF. Each function stores from the offset `at` on and answers the offset after its text;
// bytes past the end of the lent list are left out, so a text that is too long is cut. What the functions require, small offsets, is proved by the crates that call them.
#![tactic(auto)]

ghost use Rattle.std.specs.Prelude.{◌≡◌, [], ◌∷◌, ◌+◌, ◌≤◌, ◌<◌, length};
ghost use Rattle.text.specs.Text.{decimal, line, blank, Puts};

const BLANK: u8 = 32;

const LINE_FEED: u8 = 10;

// One byte, stored where the list is long enough.
fn put_byte(out: &mut [u8], at: usize, b: u8) -> usize
    requires { at ≤ 1000000 }
    ensures { Puts (b ∷ []) at out.old out.new result }
{
    if at < out.len() {
        out[at] = b;
    }
    at + 1
}

// The bytes of a word.
fn put_word(out: &mut [u8], at: usize, word: &[u8]) -> usize
    requires { at + length word.now ≤ 1000000 }
    ensures { Puts word.now at out.old out.new result }
{
    let mut end = at;
    for b in word {
        end = put_byte(out, end, *b);
    }
    end
}

// A number in plain decimal: the digits before the last one, then that one.
fn put_number(out: &mut [u8], at: usize, n: u64) -> usize
    requires { at + 20 ≤ 1000000 }
    ensures { (Puts (decimal n) at out.old out.new result) × (result ≤ at + 20) }
{
    if n < 10 {
        return put_byte(out, at, (48 + n) as u8);
    }
    let last = put_number(out, at, n / 10);
    put_byte(out, last, (48 + n % 10) as u8)
}

// A number with a blank before it.
fn put_field(out: &mut [u8], at: usize, n: u64) -> usize
    requires { at + 21 ≤ 1000000 }
    ensures { (Puts (blank ∷ decimal n) at out.old out.new result) × (result ≤ at + 21) }
{
    let first = put_byte(out, at, BLANK);
    put_number(out, first, n)
}

// The line of a word and a number.
pub fn put_line(out: &mut [u8], at: usize, word: &[u8], n: u64) -> usize
    requires { at + length word.now + 22 ≤ 1000000 }
    ensures { (Puts (line word.now (n ∷ [])) at out.old out.new result) × (result ≤ at + length word.now + 22) }
{
    let first = put_word(out, at, word);
    let end = put_field(out, first, n);
    put_byte(out, end, LINE_FEED)
}

// The line of a word and two numbers.
pub fn put_pair(out: &mut [u8], at: usize, word: &[u8], n: u64, m: u64) -> usize
    requires { at + length word.now + 43 ≤ 1000000 }
    ensures { (Puts (line word.now (n ∷ m ∷ [])) at out.old out.new result) × (result ≤ at + length word.now + 43) }
{
    let first = put_word(out, at, word);
    let second = put_field(out, first, n);
    let end = put_field(out, second, m);
    put_byte(out, end, LINE_FEED)
}
