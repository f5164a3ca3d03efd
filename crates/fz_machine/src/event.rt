//! Events.
ghost use Rattle.std.specs.Prelude.{◌≡◌};
ghost use Rattle.fz_machine.specs.Events.{step_outcome, learned_outcome};

use fz_account::Learned;
use fz_path::Step;

/// What a worker does next. Workers have numbers from 0.
#[derive(Clone, Copy, Debug, PartialEq, Eq)]
pub enum Event {
    /// The worker, that is idle with an empty hand, is handed the first part that nobody has claimed.
    Claim(u32),
    /// The worker, that is idle, takes up the task in its hand, and learns before what comes with it.
    Start(u32),
    /// The worker looks at one node of what it holds.
    Step(u32),
    /// The worker's account is taken into the book, and it goes on with what is left.
    Report(u32),
    /// A part of what the first worker holds is cut off and handed to the second, that is idle with an empty hand. The book takes
    /// the account that names the part as given.
    Steal(u32, u32),
    /// The worker is told the assignment of this number, from 0, among those that the book recorded as better ones.
    Learn(u32, u32),
}

/// What came of an event: what a step or a learning path answered, and `Moved` for each other event.
#[derive(Clone, Copy, Debug, PartialEq, Eq)]
pub enum Outcome {
    Expanded,
    Found,
    Closed,
    Learned,
    Ignored,
    Moved,
}

/// Whether an event happened. One that wasn't lawful is handed back.
#[derive(Clone, Copy, Debug, PartialEq, Eq)]
pub enum Answer {
    Applied(Outcome),
    Unlawful(Event),
}

/// What came of a step. A path that holds nothing doesn't step.
pub fn outcome_of_step(step: Step) -> Option<Outcome>
    ensures { result ≡ step_outcome step }
{
    match step {
        Step::Expanded => Some(Outcome::Expanded),
        Step::Found => Some(Outcome::Found),
        Step::Closed => Some(Outcome::Closed),
        Step::Idle => None,
    }
}

/// What came of what a path was told.
pub fn outcome_of_learned(learned: Learned) -> Outcome
    ensures { result ≡ learned_outcome learned }
{
    match learned {
        Learned::Learned => Outcome::Learned,
        Learned::Ignored => Outcome::Ignored,
    }
}
