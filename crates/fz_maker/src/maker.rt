//! Makers of certificates.
ghost use Rattle.std.specs.Prelude.{◌≡◌, ◌≢◌, IfOk, IfSome, IfNone, OnErr, OnOk, option_copied};
ghost use Rattle.fz_refutes.specs.Texts.{IsHead};
ghost use Rattle.fz_refutes.specs.Makers.{HasNoBetter};
ghost use Rattle.fz_maker.specs.Making.{HasRest, IsEnded, IsFailed, IsWritten, begun};
ghost use Rattle.fz_maker.specs.declared.maker.Stage.TheVariants as stages;

use crate::make::make;
use fz_cert::area::Area;
use fz_cert::text::{push_head, push_step};
use fz_cert::walk::Walk;
use fz_model::Assignment;
use std::alloc::{AllocError, Global};
use std::marker::Model;

/// What is written next: the first line, the head, a line of the tree or the last one, or nothing. Where memory was wanting it is
/// nothing, too.
#[derive(Clone, Copy)]
pub enum Stage {
    First,
    Head,
    Tree,
    Done,
    Failed,
}

/// The certificate of a model and a head, as far as it isn't written yet. It keeps one box, and for each split above it the set that
/// it divided.
#[derive(Drop)]
pub struct Maker<'a> {
    model: &'a fz_model::Model,
    head: Option<Assignment>,
    walk: Walk,
    values: Vec<i32>,
    stage: Stage,
}

impl<'a> Model for Maker<'a> {
    ghost use Rattle.fz_maker.specs.Making.{Making, IsMaker};
    ghost use Rattle.fz_maker.specs.Inside.{making_of};

    ghost Value = { Making };

    ghost view = { making_of };

    ghost invariant = { λ k. IsMaker (making_of k) k.values.items };
}

impl<'a> Maker<'a> {
    /// Nothing is written yet.
    ///
    /// # Errors
    /// `AllocError` where there is no memory.
    pub fn new(
        alloc: Global,
        model: &'a fz_model::Model,
        head: Option<&Assignment>,
    ) -> Result<Maker<'a>, AllocError>
        requires is_head { IsHead model.now (option_copied head) }
        requires best { HasNoBetter model.now (option_copied head) }
        ensures { IfOk result (λ k. k ≡ begun model.now (option_copied head.entry)) }
    {
        let head = copy_of(head)?;
        let area = Area::declared(alloc, model)?;
        let values = Vec::from_elem(alloc, 0, model.variables().len())?;
        Ok(Maker {
            model,
            head,
            walk: Walk::new(alloc, area),
            values,
            stage: Stage::First,
        })
    }

    /// Where nothing has failed there is a rest of the certificate, whether or not there is memory to write it.
    pub fn law(&self)
        ensures { self.now.stage ≢ stages.Failed → HasRest self.now }
    {
        let _ = self.model.variables();
    }

    /// The next line of the certificate, and nothing after its last one.
    ///
    /// # Errors
    /// `AllocError` where there is no memory, and at each later call.
    pub fn next_line(&mut self, alloc: Global) -> Result<Option<Vec<u8>>, AllocError>
        ensures some { IfOk result (λ o. IfSome o (λ line. IsWritten line.items self.old self.new)) }
        ensures none { IfOk result (λ o. IfNone o (IsEnded self.old)) }
        ensures same { IfOk result (λ o. IfNone o (self.new ≡ self.old)) }
        ensures failed { OnErr result (IsFailed self.old self.new) }
    {
        let stage = std::mem::replace(&mut self.stage, Stage::Failed);
        let mut line = Vec::new(alloc);
        match stage {
            Stage::First => {
                line.extend_from_slice(b"%c fzcert 1\n")?;
                self.stage = Stage::Head;
            }
            Stage::Head => {
                push_head(&mut line, &self.head)?;
                self.stage = Stage::Tree;
            }
            Stage::Tree if self.walk.is_done() => {
                line.extend_from_slice(b"%c end\n")?;
                self.stage = Stage::Done;
            }
            Stage::Tree => {
                let step = make(
                    alloc,
                    self.model,
                    &self.head,
                    &mut self.walk,
                    &mut self.values,
                )?;
                push_step(&mut line, step)?;
                self.stage = Stage::Tree;
            }
            Stage::Done => {
                self.stage = Stage::Done;
                return Ok(None);
            }
            Stage::Failed => return Err(AllocError),
        }
        Ok(Some(line))
    }
}

/// A copy of an assignment, if there is one.
fn copy_of(head: Option<&Assignment>) -> Result<Option<Assignment>, AllocError>
    ensures { IfOk result (λ o. o ≡ option_copied head.entry) }
{
    match head {
        None => Ok(None),
        Some(best) => Ok(Some(best.copy()?)),
    }
}
