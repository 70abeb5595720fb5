// The cycles of a set one by one.
ghost use Rattle.std.specs.Iterator.{at_most};
ghost use Rattle.rows.specs.Least.{GivesLeast};

// The set of those still to come; the least comes next.
#[derive(Clone, Drop)]
pub(crate) struct Cycles(pub(crate) u64);

impl Iterator for Cycles {
    type Item = usize;

    ghost next_gives = { GivesLeast };

    // A set has no more cycles than its word says as a number.
    ghost remaining = { λ s. at_most s.0 };

    #[inline(always)]
    fn next(&mut self) -> Option<usize> {
        if self.0 == 0 {
            return None;
        }
        let least = self.0.trailing_zeros() as usize;
        self.0 &= self.0 - 1;
        Some(least)
    }
}
