// Signed numbers. Of 64 bits: magnitude, exact halving and the symmetric range test, each defined for every argument. Of 16 bits: sums, differences,
// a sign times a number and the change to 64 bits and back, for the crates above this one, whose calls show what they require.
#![tactic(auto)]

ghost use Rattle.std.specs.Prelude.{◌≡◌, ◌+◌, ◌≤◌, nat_abs, ◌+ℤ◌, ◌-ℤ◌, ◌*ℤ◌};
ghost use Rattle.integers.specs.Half.{half_of};
ghost use Rattle.integers.specs.Range.{is_within};

// The absolute value of x. The least number has one too, though its negation is no `i64`.
pub fn magnitude(x: i64) -> u64
    ensures { result ≡ nat_abs x }
{
    x.unsigned_abs()
}

// The number of which x is the double, where there is one. Nothing is rounded.
#[tactic(auto, using(std::proofs::lemmas::Int::ints, std::proofs::lemmas::Bool::Decides::nat_tests), unfolding(crate::specs::Half::is_even, crate::specs::Half::half_of))]
pub fn halve(x: i64) -> Option<i64>
    ensures { result ≡ half_of x }
{
    if x % 2 == 0 { Some(x / 2) } else { None }
}

// Whether −n ≤ x ≤ n. For a negative n this is false, and n is not negated.
#[tactic(auto, using(std::proofs::lemmas::Int::ints, std::proofs::lemmas::Bool::Decides::nat_tests), unfolding(crate::specs::Range::is_within))]
pub fn within(x: i64, n: i64) -> bool
    ensures { result ≡ is_within x n }
{
    0 <= n && -n <= x && x <= n
}

// A number of 16 bits as one of 64, and back.
pub fn wide(x: i16) -> i64
    ensures { result ≡ x }
{
    x as i64
}

pub fn narrow(x: i64) -> i16
    requires { nat_abs x ≤ 32767 }
    ensures { result ≡ x }
{
    x as i16
}

// Sum and difference of numbers of 16 bits.
pub fn plus(a: i16, b: i16) -> i16
    requires { nat_abs a + nat_abs b ≤ 32767 }
    ensures { result ≡ a +ℤ b }
{
    a + b
}

pub fn minus(a: i16, b: i16) -> i16
    requires { nat_abs a + nat_abs b ≤ 32767 }
    ensures { result ≡ a -ℤ b }
{
    a - b
}

// A sign times a number.
pub fn scale(s: i64, x: i16) -> i16
    requires { (nat_abs s ≤ 1) × (nat_abs x ≤ 32767) }
    ensures { result ≡ s *ℤ x }
{
    narrow(s) * x
}
