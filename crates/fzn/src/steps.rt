//! Steps of each kind of run.
ghost use Rattle.std.specs.Prelude.{◌≡◌, ◌≢◌, ◌<◌, ◌^◌, ◌-◌, Err};
ghost use Rattle.std.specs.Arc.{arc_value};
ghost use Rattle.fz_printer.specs.declared.printing.Stop.TheVariants as stops;
ghost use Rattle.fzn.specs.Steps.{Finishes, Flushes, HasSearched};

use crate::status::Status;
use fz_cmd::Options;
use fz_io::outside::Sink;
use fz_model::model::Model;
use fz_printer::{Printer, Stop};
use std::alloc::{AllocError, Global};
use std::sync::Arc;

/// The printer of a model's search.
pub(crate) fn searched<F: Fn(Arc<Model>, &mut S) -> Result<Printer, AllocError>, S: Sink>(
    alloc: Global,
    search_by: &F,
    model: Model,
    options: &Options,
    sink: &mut S,
) -> Result<Printer, AllocError>
    requires callable { (m : _) (s : _) → S.faults s.now < 2 ^ 64 - 1 → F.pre search_by.now m s }
    requires searches { (m : _) (s : _) (r : _) (t : _) → F.post search_by.now m s r t
        → HasSearched (arc_value m) options.now r
        (S.taken s.now) (S.taken t.now) (S.faults s.now) (S.faults t.now) }
    requires faults { S.faults sink.old < 2 ^ 64 - 1 }
    ensures { HasSearched model options.now result
        (S.taken sink.old) (S.taken sink.new) (S.faults sink.old) (S.faults sink.new) }
{
    match Arc::new(alloc, model) {
        Ok(model) => search_by(model, sink),
        Err(_) => Err(AllocError),
    }
}

/// Flushes what was printed, and answers so.
pub(crate) fn flush<S: Sink>(sink: &mut S, status: Status) -> Status
    requires { S.faults sink.old < 2 ^ 64 - 1 }
    ensures taken { S.taken sink.new ≡ S.taken sink.old }
    ensures cases { Flushes status result (S.taken sink.new) (S.flushed sink.new)
        (S.faults sink.old) (S.faults sink.new) }
{
    match sink.flush() {
        Ok(()) => status,
        Err(_) => Status::SinkFault,
    }
}

/// Flushes what was printed, unless printing stopped for a fault, and answers so.
pub(crate) fn finish<S: Sink>(printed: Result<(), Stop>, sink: &mut S) -> Status
    requires { printed ≢ Err stops.Fault → S.faults sink.old < 2 ^ 64 - 1 }
    ensures taken { S.taken sink.new ≡ S.taken sink.old }
    ensures cases { Finishes printed result (S.taken sink.new) (S.flushed sink.new)
        (S.faults sink.old) (S.faults sink.new) }
{
    match printed {
        Ok(()) => flush(sink, Status::Done),
        Err(Stop::Memory) => flush(sink, Status::NoMemory),
        Err(Stop::Fault) => Status::SinkFault,
    }
}
