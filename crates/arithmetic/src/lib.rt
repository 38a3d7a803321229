// Rounding a quotient of whole numbers, a half away from zero: the one place where anything is rounded.
#![tactic(auto)]

ghost use Rattle.std.specs.Prelude.{◌≡◌, ◌*◌, ◌^◌, ◌<◌, ◌≤◌, ℤ, pos, ◌*ℤ◌, neg_ℤ, MatchOption};
ghost use Rattle.arithmetic.specs.Rounding.{half_up, nearest as nearest_ℤ, WithinHalf};

// What is divided by: a number above zero.
#[derive(Clone, Copy)]
pub struct Divisor {
    pub value: u64,
    ghost above_zero: { 0 < value },
}

impl Divisor {
    // The number as a divisor, or none for zero.
    pub fn new(value: u64) -> Option<Divisor>
        ensures { MatchOption result (value ≡ 0) (λ d. d.value ≡ value) }
    {
        if value == 0 {
            None
        } else {
            Some(Divisor { value })
        }
    }
}

// n / d to the nearest whole number, a half up. Half of d is cut down, which changes no quotient: where d is odd
// there is no half to meet.
fn half_up(n: u64, d: Divisor) -> u64
    requires { n ≤ 2 ^ 63 }
    ensures value { result ≡ half_up n d.value }
    ensures bound { result ≤ n }
{
    (n + d.value / 2) / d.value
}

// n / d to the nearest whole number, a half away from zero.
pub fn nearest(n: i64, d: Divisor) -> i64
    ensures value { result ≡ nearest_ℤ n d.value }
    ensures within { WithinHalf n d.value result }
    ensures odd { nearest_ℤ (neg_ℤ n) d.value ≡ neg_ℤ result }
    ensures exact { (q : ℤ) → n ≡ pos d.value *ℤ q → result ≡ q }
{
    let size = half_up(n.unsigned_abs(), d);
    if n >= 0 {
        size as i64
    } else if size > i64::MAX as u64 {
        // Only the smallest number of all, divided by 1, has a size that no i64 holds.
        i64::MIN
    } else {
        -(size as i64)
    }
}
