//! How often a search asks whether the sink is to hand on.

/// That many steps go by between two times that the sink is asked, at most.
const MOST: u32 = 16;

/// How many steps go by until the sink is asked again: twice as many each time, so that it is asked late by no more than it waited,
/// and the clock isn't read at each step.
#[derive(Clone, Copy)]
pub struct Pace {
    steps: u32,
    left: u32,
}

impl Pace {
    /// The sink is asked at the next step.
    pub fn new() -> Pace {
        Pace { steps: 1, left: 1 }
    }

    /// Whether the sink is to be asked at this step.
    pub fn is_turn(&mut self) -> bool {
        if self.left > 1 {
            self.left -= 1;
            return false;
        }
        self.steps = self.steps.saturating_mul(2).min(MOST);
        self.left = self.steps;
        true
    }
}
