//! What the numbers of a column are found by, where these are many.
ghost use Rattle.std.specs.Prelude.{◌≡◌, ◌↔◌, ℤ, IfOk, IfSome};
ghost use Rattle.fz_sets.specs.Sets.{IsInSet};
ghost use Rattle.fz_column.specs.Supports.{IsIn, AreInOrder};
ghost use Rattle.fz_column.specs.Indexes.{IsIndexOf};

use crate::packed::{Packed, packed_of};
use crate::spans::Spans;
use crate::supports::Support;
use crate::walk::ends_of;
use std::alloc::{AllocError, Global};

/// What the numbers of supports are found by.
#[derive(Drop)]
pub struct Index {
    /// For each support where the next number begins.
    pub ends: Vec<usize>,
    /// The ranges of the numbers.
    pub spans: Spans,
    /// The same supports as words of one width, where these are few.
    pub packed: Option<Packed>,
}

/// So few supports of a short table are looked at one after the other.
const FEW: usize = 10;

/// That many rows has a short table, at most.
const SHORT: usize = 63;

/// What the numbers of the supports of that many rows are found by, if these are more than a few.
///
/// # Errors
/// `AllocError` where there is no memory.
pub fn index_of(
    alloc: Global,
    supports: &[Support],
    rows: usize,
) -> Result<Option<Box<Index>>, AllocError>
    requires { AreInOrder supports.now }
    ensures { IfOk result (λ o. IfSome o (λ b. IsIndexOf b.value supports.now)) }
{
    if supports.len() <= FEW && rows <= SHORT {
        return Ok(None);
    }
    let ends = ends_of(alloc, supports)?;
    let spans = spans_of(alloc, supports)?;
    let packed = packed_of(alloc, supports)?;
    let index = Index {
        ends,
        spans,
        packed,
    };
    Ok(Some(Box::new(alloc, index)?))
}

/// The ranges of the numbers of supports.
fn spans_of(alloc: Global, supports: &[Support]) -> Result<Spans, AllocError>
    ensures { IfOk result (λ s. (n : ℤ) → IsInSet s n
        ↔ ((t : Support) × IsIn t supports.now × (t.number ≡ n))) }
{
    let mut spans = Spans::new(alloc);
    for support in supports {
        spans.add(support.number)?;
    }
    spans.shrink();
    Ok(spans)
}
