//! Remainders without a division.
ghost use Rattle.std.specs.Prelude.{◌≡◌, ◌≤◌, ◌%◌};

/// A factor by which a number is multiplied in place of a division (Granlund and Montgomery, PLDI 1994).
#[derive(Clone, Copy)]
pub(crate) struct Inverse {
    // 2 ^ 64 by the divisor, rounded up; 0 for the divisor 1
    factor: u64,
}

impl Inverse {
    /// That of a divisor.
    pub fn of(divisor: u32) -> Inverse {
        let factor = (u64::MAX / u64::from(divisor.max(1))).wrapping_add(1);
        Inverse { factor }
    }

    /// The remainder of a number by a divisor. Where the factor is that of this divisor, and the divisor isn't 1, no
    /// division is made. The quotient is tested once it is found, so no proof speaks of the factor.
    #[inline(always)]
    pub fn remainder(self, number: u32, divisor: u32) -> u32
        requires { 1 ≤ divisor }
        ensures { result ≡ number % divisor }
    {
        let product = u128::from(number).wrapping_mul(u128::from(self.factor));
        let quotient = (product >> 64) as u32;
        let whole = u64::from(quotient) * u64::from(divisor);
        if whole <= u64::from(number) {
            let rest = number - whole as u32;
            if rest < divisor {
                return rest;
            }
        }
        number % divisor
    }
}
