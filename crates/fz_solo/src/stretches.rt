//! A stretch of a search: up to something that is found, or as long as nobody waits.
ghost use Rattle.std.specs.Prelude.{◌≡◌, ◌≢◌, ◌<◌, ◌⊎◌, true, IsTrue, IsFalse, is_some, IfOk};
ghost use Rattle.fz_path.specs.Paths as paths;
ghost use Rattle.fz_path.specs.Paths.{PathLaw, bare};
ghost use Rattle.fz_solo.specs.Walks.{weight_held};
ghost use Rattle.fz_solo.specs.Stretches.{AlwaysKept, Pauses};

use crate::pace::Pace;
use fz_io::outside::Sink;
use fz_path::{Path, Step, is_report_due, pays_report};
use fz_search_space::SearchSpace;
use std::alloc::AllocError;

/// When a stretch ends while something is left: at whatever is found; where as many are found as are wanted or as pay for a report;
/// or never.
#[derive(Debug, Clone, Copy, PartialEq, Eq)]
pub enum Halt {
    Each,
    Batch(Option<u64>),
    Never,
}

/// Why a stretch ended: something was found, and is to be told by now; the sink is to hand on; or nothing is left.
#[derive(Debug, Clone, Copy, PartialEq, Eq)]
pub enum Pause {
    Found,
    Due,
    Closed,
}

/// Searches what the path holds, until nothing is left of it, as much is found as the halt says, or the sink is to hand on. What was
/// found before has waited that many times.
///
/// # Errors
/// `AllocError` where there is no memory.
pub fn stretch<S: SearchSpace, K: Sink>(
    path: &mut Path<S>,
    halt: Halt,
    waited: u64,
    sink: &K,
) -> Result<Pause, AllocError>
    requires { IsTrue (is_some path.old.held) }
    ensures held { IsTrue (is_some path.new.held) }
    ensures kept { AlwaysKept path.old.held path.new.held }
    ensures closed { IfOk result
        (λ pause. pause ≡ Pause.Closed → paths.is_spent path.new.held ≡ true) }
    ensures never { IfOk result (λ pause. halt ≡ Halt.Never → pause ≡ Pause.Closed) }
    ensures falls { IfOk result (λ pause. (pause ≡ Pause.Closed)
        ⊎ (weight_held path.new.held < weight_held path.old.held)) }
    ensures searched { IfOk result
        (λ pause. Pauses halt pause (bare path.old) (bare path.new)) }
    ensures path { path.new.model ≡ path.old.model }
    ensures path_mode { path.new.mode ≡ path.old.mode }
{
    let mut pace = Pace::new();
    'steps: loop {
        let step = path.step()?;
        if step == Step::Closed {
            return Ok(Pause::Closed);
        }
        if is_reached(path, halt, step) {
            return Ok(Pause::Found);
        }
        if is_time(halt, sink, &mut pace) {
            return Ok(pause_in(path, halt, waited));
        }
    }
}

/// Whether the stretch is to end after a step that found something.
fn is_reached<S: SearchSpace>(path: &Path<S>, halt: Halt, step: Step) -> bool
    ensures found { IsTrue result → step ≡ Step.Found }
    ensures each { IsFalse result → step ≡ Step.Found → halt ≢ Halt.Each }
    ensures never { IsTrue result → halt ≢ Halt.Never }
    ensures law { PathLaw (bare path.now) }
{
    let _ = path.model();
    match (step, halt) {
        (Step::Found, Halt::Each) => true,
        (Step::Found, Halt::Batch(wanted)) => is_report_due(path, 0, wanted),
        _ => false,
    }
}

/// Why the stretch ends where the sink is to hand on: what is found is to be told, too, if that pays.
fn pause_in<S: SearchSpace>(path: &Path<S>, halt: Halt, waited: u64) -> Pause
    ensures each { halt ≡ Halt.Each → result ≡ Pause.Due }
    ensures left { result ≢ Pause.Closed }
{
    match halt {
        Halt::Batch(_) if pays_report(path, waited) => Pause::Found,
        _ => Pause::Due,
    }
}

/// Whether the stretch is to end since the sink is to hand on.
fn is_time<K: Sink>(halt: Halt, sink: &K, pace: &mut Pace) -> bool
    ensures { IsTrue result → halt ≢ Halt.Never }
{
    match halt {
        Halt::Each | Halt::Batch(_) => pace.is_turn() && sink.is_due(),
        Halt::Never => false,
    }
}
