//! The nodes at the front of a search tree.
ghost use Rattle.std.specs.Prelude.{◌≡◌, ◌+◌, ◌<◌, ◌≤◌, ◌++◌, ◌∷◌, ◌↔◌, [], length, IfOk, IfSome, IfNone, OnOk, IsTrue};
ghost use Rattle.fz_split.specs.Fronts.{count_of, Comes, IsTaken};

use fz_part::Part;
use fz_search_space::Status;
use std::alloc::{AllocError, Global};
use std::collections::VecDeque;

/// The parts of nodes at the front of a search tree: those that are open, the least deep first, and those in which no two
/// assignments satisfy.
#[derive(Drop)]
pub struct Nodes {
    pub queue: VecDeque<Part>,
    pub single: Vec<Part>,
}

impl Nodes {
    /// The root alone, which is open.
    ///
    /// # Errors
    /// `AllocError` where there is no memory.
    pub fn root(alloc: Global) -> Result<Nodes, AllocError>
        ensures queue { IfOk result (λ n. n.queue.items ≡ [] ∷ []) }
        ensures single { IfOk result (λ n. n.single.items ≡ []) }
    {
        let mut queue = VecDeque::new(alloc);
        queue.push_back(Part::whole(alloc))?;
        Ok(Nodes {
            queue,
            single: Vec::new(alloc),
        })
    }

    /// Whether a node is open and there are fewer than so many.
    pub fn can_grow(&self, most: usize) -> bool
        requires { count_of self.now ≤ most }
        ensures { IsTrue result ↔ ((count_of self.now < most) × (0 < length self.now.queue.items)) }
    {
        let count = self.single.len() + self.queue.len();
        count < most && !self.queue.is_empty()
    }

    /// How many more would make that many.
    pub fn room(&self, most: usize) -> usize
        requires { count_of self.now ≤ most }
        ensures { count_of self.now + result ≡ most }
    {
        most - self.single.len() - self.queue.len()
    }

    /// Takes the open part of least depth out.
    pub fn next(&mut self) -> Option<Part>
        ensures some { IfSome result (λ part. IsTaken part self.old self.new) }
        ensures none { IfNone result (self.old.queue.items ≡ []) }
    {
        self.queue.pop_front()
    }

    /// Adds a part by what is known of its node.
    ///
    /// # Errors
    /// `AllocError` where there is no memory.
    pub fn add(&mut self, part: Part, status: Status) -> Result<(), AllocError>
        ensures { OnOk result (Comes status part self.old self.new) }
    {
        match status {
            Status::Failed => {}
            Status::Solved => self.single.push(part)?,
            Status::Branch => self.queue.push_back(part)?,
        }
        Ok(())
    }

    /// All parts.
    ///
    /// # Errors
    /// `AllocError` where there is no memory.
    pub fn into_parts(self) -> Result<Vec<Part>, AllocError>
        ensures { IfOk result (λ v. v.items ≡ self.single.items ++ self.queue.items) }
    {
        let mut parts = self.single;
        let mut queue = self.queue.into_vec();
        parts.append(&mut queue)?;
        Ok(parts)
    }
}
