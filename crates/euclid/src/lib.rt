// The greatest common divisor of two periods by Euclid's rule, and the least common multiple built upon it.
#![tactic(auto)]

ghost use Rattle.std.specs.Prelude.{◌≡◌, ◌*◌, ◌≤◌, ◌<◌};
ghost use Rattle.euclid.specs.Divisor.{gcd_of, lcm_of};

// The second number falls at each call.
#[tactic(auto, using(crate::proofs::Steps::gcd_zero, crate::proofs::Steps::gcd_step))]
pub fn gcd(a: u64, b: u64) -> u64
    ensures { result ≡ gcd_of a b }
{
    if b == 0 { a } else { gcd(b, a % b) }
}

// The least common multiple of two numbers whose product fits, for the crates above.
#[tactic(auto, using(crate::proofs::LeastMultiple::gcd_pos), unfolding(crate::specs::Divisor::lcm_of))]
pub fn lcm(a: u64, b: u64) -> u64
    requires { (1 ≤ a) × (a * b ≤ 1000000000000000000) }
    ensures { result ≡ lcm_of a b }
{
    a / gcd(a, b) * b
}
