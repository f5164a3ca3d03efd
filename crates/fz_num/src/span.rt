//! Spans and their arithmetic.
ghost use Rattle.std.specs.Prelude.{◌≡◌, ◌≢◌, ◌⊎◌, ◌≤ℤ◌, ◌<ℤ◌, ◌↔◌, pos, ℤ, IsNone, IfSome};

/// The whole numbers from a low to a high, both in it.
#[derive(Clone, Copy)]
pub struct Span {
    pub lo: i128,
    pub hi: i128,
    pub ghost rising: { lo ≤ℤ hi },
}

impl Span {
    ghost use Rattle.fz_num.specs.Spans.{IsHull, IsSmall, IsSum, IsDifference, IsProduct, IsMultiple, IsQuotient, IsInSpan, IsNegative, IsPositive, IsAround};

    /// The span of the sums of a number of each.
    pub fn add(self, other: Span) -> Span
        requires left { IsSmall 90 self }
        requires right { IsSmall 90 other }
        ensures { IsHull (IsSum self other) result }
    {
        Span {
            lo: self.lo + other.lo,
            hi: self.hi + other.hi,
        }
    }

    /// The span of the differences of a number of the one and a number of the other.
    pub fn sub(self, other: Span) -> Span
        requires left { IsSmall 90 self }
        requires right { IsSmall 90 other }
        ensures { IsHull (IsDifference self other) result }
    {
        Span {
            lo: self.lo - other.hi,
            hi: self.hi - other.lo,
        }
    }

    /// The smallest span of the multiples of its numbers by a factor.
    pub fn scale(self, factor: i32) -> Span
        requires { IsSmall 90 self }
        ensures { IsHull (IsMultiple factor self) result }
    {
        let factor = i128::from(factor);
        if factor < 0 {
            return Span {
                lo: factor * self.hi,
                hi: factor * self.lo,
            };
        }
        Span {
            lo: factor * self.lo,
            hi: factor * self.hi,
        }
    }

    /// The smallest span of the products of a number of each.
    pub fn mul(self, other: Span) -> Span
        requires left { IsSmall 62 self }
        requires right { IsSmall 62 other }
        ensures { IsHull (IsProduct self other) result }
    {
        Span::around(
            self.lo * other.lo,
            self.lo * other.hi,
            self.hi * other.lo,
            self.hi * other.hi,
        )
    }

    /// The smallest span of the quotients, rounded toward zero, of its numbers by the divisor's, and `None` where the
    /// divisor is zero alone.
    pub fn div_trunc(self, divisor: Span) -> Option<Span>
        requires { IsSmall 100 self }
        ensures zero { IsNone result ↔ ((divisor.lo ≡ pos 0) × (divisor.hi ≡ pos 0)) }
        ensures hull { IfSome result (λ s. IsHull (IsQuotient self divisor) s) }
    {
        match (divisor.below_zero(), divisor.above_zero()) {
            (None, None) => None,
            (Some(below), None) => Some(self.quotients(below)),
            (None, Some(above)) => Some(self.quotients(above)),
            (Some(below), Some(above)) => Some(self.quotients(below).join(self.quotients(above))),
        }
    }

    /// The smallest span of the quotients by numbers of one sign.
    fn quotients(self, divisor: Span) -> Span
        requires small { IsSmall 100 self }
        requires sign { (pos 0 <ℤ divisor.lo) ⊎ (divisor.hi <ℤ pos 0) }
        ensures { IsHull (IsQuotient self divisor) result }
    {
        Span::around(
            self.lo / divisor.lo,
            self.lo / divisor.hi,
            self.hi / divisor.lo,
            self.hi / divisor.hi,
        )
    }

    /// Its numbers below zero.
    fn below_zero(self) -> Option<Span>
        ensures none { IsNone result ↔ (pos 0 ≤ℤ self.lo) }
        ensures some { IfSome result (λ s. (s.hi <ℤ pos 0) × IsHull (IsNegative self) s) }
    {
        if self.lo >= 0 {
            return None;
        }
        Some(Span {
            lo: self.lo,
            hi: self.hi.min(-1),
        })
    }

    /// Its numbers above zero.
    fn above_zero(self) -> Option<Span>
        ensures none { IsNone result ↔ (self.hi ≤ℤ pos 0) }
        ensures some { IfSome result (λ s. (pos 0 <ℤ s.lo) × IsHull (IsPositive self) s) }
    {
        if self.hi <= 0 {
            return None;
        }
        Some(Span {
            lo: self.lo.max(1),
            hi: self.hi,
        })
    }

    /// The smallest span round both.
    fn join(self, other: Span) -> Span
        ensures { IsHull (λ x. IsInSpan self x ⊎ IsInSpan other x) result }
    {
        Span {
            lo: self.lo.min(other.lo),
            hi: self.hi.max(other.hi),
        }
    }

    /// The smallest span round four numbers.
    fn around(a: i128, b: i128, c: i128, d: i128) -> Span
        ensures { IsAround a b c d result }
    {
        Span {
            lo: a.min(b).min(c.min(d)),
            hi: a.max(b).max(c.max(d)),
        }
    }
}
