// Numbers in lists of bytes, little-endian: one function reads and one writes, at any width up to four bytes.
// What both require is proved by the crates that call them.
#![tactic(auto)]

ghost use Rattle.std.specs.Prelude.{◌≡◌, ◌+◌, ◌≤◌, ◌<◌, length};
ghost use Rattle.std.proofs.lemmas.List.Edits.{sets};
ghost use Rattle.little_endian.specs.LittleEndian.{number_at, bytes_of};

// The number in `width` bytes from offset `at`. The highest byte stands last, so they are gathered from there.
#[tactic(auto, using(crate::proofs::Turns::number_none, crate::proofs::Turns::power_none, crate::proofs::Turns::number_whole))]
pub fn number_at(list: &[u8], at: usize, width: usize) -> u64
    requires { (width ≤ 4) × (at + width ≤ length list.now) }
    ensures { (result ≡ number_at list.now at width) × (result < 4294967296) }
{
    let mut x = 0;
    for i in (0..width).rev() {
        x = x * 256 + u64::from(list[at + i]);
    }
    x
}

// Stores a number in `width` bytes from offset `at`.
#[tactic(auto, using(crate::proofs::Turns::put_turn, crate::proofs::Turns::put_whole))]
pub fn put_number(out: &mut [u8], at: usize, width: usize, x: u64)
    requires { at + width ≤ length out.old }
    ensures { out.new ≡ sets out.old at (bytes_of width x) }
{
    let mut rest = x;
    for byte in &mut out[at..at + width] {
        *byte = (rest % 256) as u8;
        rest /= 256;
    }
}
