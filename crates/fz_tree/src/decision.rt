//! Decisions.
ghost use Rattle.std.specs.Prelude.{◌≡◌};
ghost use Rattle.fz_tree.specs.Choice.{compares, meets, opposite, negated};

/// How a decision compares a variable with its value.
#[derive(Clone, Copy, Debug, PartialEq, Eq)]
pub enum Comparison {
    Equal,
    NotEqual,
    AtMost,
    Above,
}

impl Comparison {
    /// Whether a number compares so with a value.
    pub fn compares(self, number: i32, value: i32) -> bool
        ensures { result ≡ compares self number value }
    {
        match self {
            Comparison::Equal => number == value,
            Comparison::NotEqual => number != value,
            Comparison::AtMost => number <= value,
            Comparison::Above => number > value,
        }
    }

    /// The comparison that is true exactly where this one is false.
    pub fn opposite(self) -> Comparison
        ensures { result ≡ opposite self }
    {
        match self {
            Comparison::Equal => Comparison::NotEqual,
            Comparison::NotEqual => Comparison::Equal,
            Comparison::AtMost => Comparison::Above,
            Comparison::Above => Comparison::AtMost,
        }
    }
}

/// A test on one variable, as `x = 3` or `x > 5` ("Modeling and Programming with Gecode": an alternative of a choice). An
/// assignment without the variable doesn't meet it.
#[derive(Clone, Copy, Debug, PartialEq, Eq)]
pub struct Decision {
    /// The number of the variable, in order of declaration.
    pub variable: u32,
    pub comparison: Comparison,
    pub value: i32,
}

impl Decision {
    /// Whether the numbers of an assignment meet the decision.
    pub fn is_met_by(&self, numbers: &[i32]) -> bool
        ensures { result ≡ meets numbers.now self.now }
    {
        match numbers.get(self.variable as usize) {
            Some(number) => self.comparison.compares(*number, self.value),
            None => false,
        }
    }

    /// The decision that an assignment which has the variable meets exactly where it doesn't meet this one.
    pub fn negated(self) -> Decision
        ensures { result ≡ negated self }
    {
        Decision {
            variable: self.variable,
            comparison: self.comparison.opposite(),
            value: self.value,
        }
    }
}
