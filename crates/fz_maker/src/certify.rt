//! Certificates, printed line by line.
ghost use Rattle.std.specs.Prelude.{◌≡◌, ◌≢◌, ◌<◌, ◌^◌, ◌-◌, Err, IfNone, IfOk, IfSome, OnErr, OnOk, option_copied};
ghost use Rattle.fz_refutes.specs.Texts.{IsHead, IsCert};
ghost use Rattle.fz_refutes.specs.Makers.{HasNoBetter};
ghost use Rattle.fz_maker.specs.Making.{HasRest, IsAhead, IsEnded, IsWritten};
ghost use Rattle.fz_maker.specs.declared.maker.Stage.TheVariants as stages;
ghost use Rattle.fz_printer.specs.Texts.{HasStopCause};
ghost use Rattle.fz_maker.specs.Taken.{HasMore, TakesOne, TakesFrontOfOne};

use crate::maker::Maker;
use fz_io::outside::Sink;
use fz_model::Assignment;
use fz_model::model::Model;
use fz_printer::{Stop, put};
use std::alloc::Global;

/// Prints the certificate of a model whose assignment is best, or that none satisfies. Each line is one piece.
///
/// # Errors
/// `Stop` where the sink failed, or there was no memory; then it took a prefix of the certificate.
pub fn print_certificate<S: Sink>(
    alloc: Global,
    sink: &mut S,
    model: &Model,
    head: Option<&Assignment>,
) -> Result<(), Stop>
    requires faults { S.faults sink.old < 2 ^ 64 - 1 }
    requires is_head { IsHead model.now (option_copied head) }
    requires best { HasNoBetter model.now (option_copied head) }
    ensures taken { OnOk result (TakesOne (IsCert model.now (option_copied head.entry))
        (S.taken sink.old) (S.taken sink.new)) }
    ensures front { OnErr result (TakesFrontOfOne (IsCert model.now (option_copied head.entry))
        (S.taken sink.old) (S.taken sink.new)) }
    ensures cause { HasStopCause (S.faults sink.old) (S.faults sink.new) result }
{
    let _ = model.goal();
    match Maker::new(alloc, model, head) {
        Ok(mut maker) => put_lines(alloc, sink, &mut maker),
        Err(_) => Err(Stop::Memory),
    }
}

/// Prints what is ahead of a maker.
fn put_lines<S: Sink>(alloc: Global, sink: &mut S, maker: &mut Maker<'_>) -> Result<(), Stop>
    requires faults { S.faults sink.old < 2 ^ 64 - 1 }
    requires sound { maker.old.stage ≢ stages.Failed }
    ensures taken { OnOk result
        (TakesOne (IsAhead maker.old) (S.taken sink.old) (S.taken sink.new)) }
    ensures front { OnErr result
        (TakesFrontOfOne (IsAhead maker.old) (S.taken sink.old) (S.taken sink.new)) }
    ensures cause { HasStopCause (S.faults sink.old) (S.faults sink.new) result }
{
    'lines: while let Some(line) = next_line(alloc, maker)? {
        put(sink, &line)?;
    }
    Ok(())
}

/// The next line of a maker, if there is one.
fn next_line(alloc: Global, maker: &mut Maker<'_>) -> Result<Option<Vec<u8>>, Stop>
    requires { maker.old.stage ≢ stages.Failed }
    ensures some { IfOk result (λ o. IfSome o (λ line.
        IsWritten line.items maker.old maker.new × HasRest maker.new)) }
    ensures none { IfOk result (λ o. IfNone o (IsEnded maker.old)) }
    ensures failed { OnErr result (HasMore maker.old) }
    ensures memory { result ≢ Err Stop.Fault }
{
    maker.law();
    match maker.next_line(alloc) {
        Ok(next) => {
            maker.law();
            Ok(next)
        }
        Err(_) => Err(Stop::Memory),
    }
}
