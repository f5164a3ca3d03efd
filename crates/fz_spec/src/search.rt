//! Words of search annotations (MiniZinc Handbook, "Search annotations"; Gecode's value selection).

/// Which variable of a part is picked, among those that aren't fixed.
#[derive(Clone, Copy, Debug, PartialEq, Eq)]
pub enum Pick {
    /// The first in order.
    InputOrder,
    /// The one with the fewest values.
    FirstFail,
    /// The one with the most values.
    AntiFirstFail,
    /// The one with the smallest least value.
    Smallest,
    /// The one with the largest greatest value.
    Largest,
}

/// The word of each pick; any other word is `input_order`, too.
pub const PICKS: [(&'static [u8], Pick); 5] = [
    (b"input_order", Pick::InputOrder),
    (b"first_fail", Pick::FirstFail),
    (b"anti_first_fail", Pick::AntiFirstFail),
    (b"smallest", Pick::Smallest),
    (b"largest", Pick::Largest),
];

/// How the values of the picked variable are parted.
#[derive(Clone, Copy, Debug, PartialEq, Eq)]
pub enum Value {
    /// The least value, then the others.
    IndomainMin,
    /// The greatest value, then the others.
    IndomainMax,
    /// The middle value, then the others.
    IndomainMedian,
    /// The lower half of the hull, then the upper one.
    IndomainSplit,
    /// The upper half of the hull, then the lower one.
    IndomainReverseSplit,
    /// Each value by itself, in rising order.
    Indomain,
}

/// The word of each way to part values; any other word is `indomain_min`, too.
pub const VALUES: [(&'static [u8], Value); 6] = [
    (b"indomain_min", Value::IndomainMin),
    (b"indomain_max", Value::IndomainMax),
    (b"indomain_median", Value::IndomainMedian),
    (b"indomain_split", Value::IndomainSplit),
    (b"indomain_reverse_split", Value::IndomainReverseSplit),
    (b"indomain", Value::Indomain),
];
