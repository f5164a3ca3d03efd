//! How the values of a variable are divided.
ghost use Rattle.std.specs.Prelude.{◌≡◌, true, IfOk};
ghost use Rattle.fz_branch.specs.Values.{is_open, median, middle, decision_of, takes_each, choice_of};

use fz_dom::Dom;
use fz_region::value::value_at;
use fz_region::{Choice, Comparison, Decision};
use fz_spec::search::Value;
use std::alloc::{AllocError, Global};

/// The most values that `indomain` takes one by one.
pub const EACH_MOST: u64 = 4096;

/// Whether more than one value is left.
pub fn is_open(dom: &Dom) -> bool
    ensures { result ≡ is_open dom.now }
{
    dom.size() > 1
}

/// The choice for a variable that has more than one value left.
pub fn choice_of(
    alloc: Global,
    value: Value,
    variable: u32,
    dom: &Dom,
) -> Result<Choice, AllocError>
    requires { is_open dom.now ≡ true }
    ensures { IfOk result (λ c. c ≡ choice_of value variable dom.now) }
{
    if takes_each(value, dom) {
        return Choice::each(alloc, variable, dom);
    }
    Ok(Choice::two(alloc, decision_of(value, variable, dom)))
}

/// Whether each value is an alternative of its own.
fn takes_each(value: Value, dom: &Dom) -> bool
    ensures { result ≡ takes_each value dom.now }
{
    match value {
        Value::Indomain => dom.size() <= EACH_MOST,
        Value::IndomainMin
        | Value::IndomainMax
        | Value::IndomainMedian
        | Value::IndomainSplit
        | Value::IndomainReverseSplit => false,
    }
}

/// The first alternative of two for a variable that has more than one value left.
fn decision_of(value: Value, variable: u32, dom: &Dom) -> Decision
    requires { is_open dom.now ≡ true }
    ensures { result ≡ decision_of value variable dom.now }
{
    let (comparison, number) = match value {
        Value::IndomainMin | Value::Indomain => (Comparison::Equal, dom.min()),
        Value::IndomainMax => (Comparison::Equal, dom.max()),
        Value::IndomainMedian => (Comparison::Equal, median(dom)),
        Value::IndomainSplit => (Comparison::AtMost, middle(dom)),
        Value::IndomainReverseSplit => (Comparison::Above, middle(dom)),
    };
    Decision {
        variable,
        comparison,
        value: number,
    }
}

/// The middle of the hull, rounded down.
fn middle(dom: &Dom) -> i32
    requires { is_open dom.now ≡ true }
    ensures { result ≡ middle dom.now }
{
    let sum = i64::from(dom.min()) + i64::from(dom.max());
    sum.div_euclid(2) as i32
}

/// The value in the middle of those that are left, the lower of two.
fn median(dom: &Dom) -> i32
    requires { is_open dom.now ≡ true }
    ensures { result ≡ median dom.now }
{
    value_at(dom, (dom.size() - 1) / 2)
}
