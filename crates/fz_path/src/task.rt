//! Tasks: frontiers that carry the space of a node above them.
ghost use Rattle.std.specs.Prelude.{◌≡◌, None};
ghost use Rattle.fz_tree.specs.Frontier.{AreEdges};
ghost use Rattle.fz_path.specs.Tasks.{TaskLaw, bare_task, depth_of_near};

use fz_account::Account;
use fz_model::Assignment;
use fz_region::Frontier;
use fz_search_space::SearchSpace;
use std::marker::Model;

/// A frontier to be searched, and maybe a space at one of its nodes, from which the path that takes it up goes on.
#[derive(Drop)]
pub struct Task<S: SearchSpace> {
    pub(crate) frontier: Frontier,
    pub(crate) near: Option<Near<S>>,
}

/// The space of the node below the first `depth` edges, and the best assignment that was known where it was made.
#[derive(Drop)]
pub struct Near<S: SearchSpace> {
    pub(crate) space: S,
    pub(crate) depth: usize,
    pub(crate) known: Option<Assignment>,
}

impl<S: SearchSpace> Model for Near<S> {
    ghost use Rattle.fz_path.specs.Tasks.{Neared};

    ghost Value = { Neared };

    ghost view = { λ n. record {
      space = S.spaced n.space;
      depth = n.depth;
      known = n.known;
    } };
}

impl<S: SearchSpace> Model for Task<S> {
    ghost use Rattle.fz_path.specs.Tasks as tasks;

    ghost Value = { tasks.Tasked };

    ghost view = { λ t. record { frontier = t.frontier; near = t.near } };

    ghost invariant = { λ t. tasks.TaskLaw (record { frontier = t.frontier; near = t.near }) };
}

/// A part that was cut off, and the account that names it as given.
#[derive(Drop)]
pub struct Cut<S: SearchSpace> {
    pub task: Task<S>,
    pub account: Account,
}

impl<S: SearchSpace> Task<S> {
    /// A frontier alone.
    pub fn of(frontier: Frontier) -> Task<S>
        ensures { result ≡ bare_task frontier }
    {
        let _ = frontier.edges();
        Task {
            frontier,
            near: None,
        }
    }

    /// The frontier.
    pub fn frontier(&self) -> &Frontier
        ensures frontier { result.now ≡ self.now.frontier }
        ensures law { TaskLaw self.now }
    {
        &self.frontier
    }

    /// How many edges are above the node whose space it carries, if it carries one.
    pub fn near_depth(&self) -> Option<u64>
        ensures { result ≡ depth_of_near self.now.near }
    {
        self.near.as_ref().map(|near| near.depth as u64)
    }
}
