//! The two sides from which a number bounds a sum.
ghost use Rattle.std.specs.Prelude.{◌↔◌, pos, ◌≤ℤ◌, IsTrue};
ghost use Rattle.fz_linear.specs.Sides.{seen_from};

/// From where a number bounds a sum: the sum is at most the number, or at least.
#[derive(Clone, Copy)]
pub enum Side {
    Above,
    Below,
}

/// Whether a term with this factor is to be low for the bound to be met.
pub fn is_low(side: Side, factor: i32) -> bool
    ensures { IsTrue result ↔ (pos 0 ≤ℤ seen_from side factor) }
{
    match side {
        Side::Above => 0 <= factor,
        Side::Below => factor <= 0,
    }
}
