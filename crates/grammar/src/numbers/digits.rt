// The digits on one side of the point of a number that is being read.
ghost use Rattle.std.specs.Prelude.{◌≡◌, ◌+◌, ◌-◌, ◌*◌, ◌^◌, ◌<◌, ◌≤◌, MatchOption};

// `count` digits stand on this side, MOST are the most, and the most that may stand before this side are BEFORE.
// `n` is the number that all digits write so far. It is below ten to the power of the digits that may stand by now:
// BEFORE, and the `count` of this side.
#[derive(Clone, Copy)]
pub(crate) struct Digits<const BEFORE: usize, const MOST: usize> {
    pub(crate) minus: bool,
    pub(crate) count: usize,
    pub(crate) n: u64,
    ghost few: { count ≤ MOST },
    ghost small: { n < 10 ^ (BEFORE + count) },
}

impl<const BEFORE: usize, const MOST: usize> Digits<BEFORE, MOST> {
    // One digit more; none where there are as many as there may be.
    pub(crate) fn more(self, c: u8) -> Option<Self>
        requires { (48 ≤ c) × (c ≤ 57) × (BEFORE + MOST ≤ 10) }
        ensures cases { MatchOption result (self.entry.count ≡ MOST) (λ d. (self.entry.count < MOST) × (d.minus ≡ self.entry.minus) × (d.count ≡ self.entry.count + 1) × (d.n ≡ self.entry.n * 10 + (c - 48))) }
    {
        if self.count == MOST {
            return None;
        }
        Some(Digits {
            minus: self.minus,
            count: self.count + 1,
            n: self.n * 10 + u64::from(c - b'0'),
        })
    }
}
