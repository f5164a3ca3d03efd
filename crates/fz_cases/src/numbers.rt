//! Spans and quotients.
use fz_num::{Span, ceil_div, floor_div};

fn ends(span: Span) -> (i128, i128) {
    (span.lo, span.hi)
}

#[test]
fn quotients_are_rounded_down_and_up(rt: HostRuntime) {
    for (a, b, down, up) in [
        (-7, 2, -4, -3),
        (7, -2, -4, -3),
        (-6, 2, -3, -3),
        (6, 4, 1, 2),
    ] {
        assert_eq!(rt; rounded(a, b), Some((down, up)));
    }
}

/// The quotient rounded down and up.
fn rounded(a: i32, b: i32) -> Option<(i128, i128)> {
    let (a, b) = (i128::from(a), i128::from(b));
    if b == 0 {
        return None;
    }
    Some((floor_div(a, b), ceil_div(a, b)))
}

#[test]
fn sums_differences_and_multiples(rt: HostRuntime) {
    let (small, large) = (Span { lo: -1, hi: 2 }, Span { lo: 10, hi: 30 });
    assert_eq!(rt; ends(small.add(large)), (9, 32));
    assert_eq!(rt; ends(small.sub(large)), (-31, -8));
    assert_eq!(rt; ends(small.scale(-3)), (-6, 3));
    assert_eq!(rt; ends(small.scale(3)), (-3, 6));
}

#[test]
fn a_product_has_its_ends_at_the_corners(rt: HostRuntime) {
    let product = Span { lo: -2, hi: 3 }.mul(Span { lo: 4, hi: 5 });
    assert_eq!(rt; ends(product), (-10, 15));
    let product = Span { lo: -3, hi: -2 }.mul(Span { lo: -5, hi: 4 });
    assert_eq!(rt; ends(product), (-12, 15));
}

#[test]
fn a_quotient_leaves_zero_out_of_the_divisor(rt: HostRuntime) {
    let seven = Span { lo: -7, hi: -7 };
    let quotient = seven.div_trunc(Span { lo: -2, hi: 2 });
    assert_eq!(rt; quotient.map(ends), Some((-7, 7)));
    let quotient = Span { lo: 1, hi: 1 }.div_trunc(Span { lo: 0, hi: 0 });
    assert_eq!(rt; quotient.map(ends), None);
    let quotient = Span { lo: 7, hi: 9 }.div_trunc(Span { lo: 0, hi: 2 });
    assert_eq!(rt; quotient.map(ends), Some((3, 9)));
    let quotient = Span { lo: -7, hi: 9 }.div_trunc(Span { lo: -3, hi: 0 });
    assert_eq!(rt; quotient.map(ends), Some((-9, 7)));
}
