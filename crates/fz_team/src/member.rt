//! Workers before and after their threads.
use fz_bound::Seat;
use fz_model::Assignment;
use fz_path::Task;
use fz_search_space::SearchSpace;

/// A worker: its number, its seat of the bound word, the assignment of the least score that it put with that score, the task in its
/// hand, and the score of what its path was last seen to know. `heard` says how often it was asked for what it found when it last reported, `short`
/// that it had no memory.
#[derive(Drop)]
pub struct Member<S: SearchSpace> {
    pub worker: u32,
    pub seat: Seat,
    pub best: Option<Assignment>,
    pub least: u64,
    pub hand: Option<Task<S>>,
    pub known: u64,
    pub heard: u64,
    pub short: bool,
}
