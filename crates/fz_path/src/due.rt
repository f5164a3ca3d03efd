//! When a path is to report what it found.
ghost use Rattle.std.specs.Prelude.{IsTrue};
ghost use Rattle.fz_path.specs.Paths.{found_held};
ghost use Rattle.fz_path.specs.Reports.{HasWanted, IsReportDue};

use crate::path::Path;
use fz_search_space::SearchSpace;

/// How many solutions are found, at least, until they are reported; and how many edges may be compared for a report for each number of
/// theirs, and for each time that they have waited.
pub const BATCH: u64 = 256;

const EDGES_A_NUMBER: u64 = 32;

const EDGES_A_WAIT: u64 = 20_000;

/// Whether what is found is to be reported: it is as many as are wanted, if a number is, or it waited or is a batch, and pays for a
/// report.
pub fn is_report_due<S: SearchSpace>(path: &Path<S>, waited: u64, wanted: Option<u64>) -> bool
    ensures due { IsTrue result → IsReportDue wanted waited (found_held path.now.held) }
    ensures wanted { HasWanted wanted (found_held path.now.held) → IsTrue result }
{
    let found = path.found_count();
    if found == 0 {
        return false;
    }
    if let Some(wanted) = wanted
        && wanted <= found
    {
        return true;
    }
    (0 < waited || BATCH <= found) && pays_report(path, waited)
}

/// Whether something is found, and the path has no more edges than its numbers pay for, and that many times that they waited.
pub fn pays_report<S: SearchSpace>(path: &Path<S>, waited: u64) -> bool {
    let numbers = path
        .found_count()
        .saturating_mul(path.model().variables().len() as u64);
    let edges = numbers
        .saturating_mul(EDGES_A_NUMBER)
        .saturating_add(waited.saturating_mul(EDGES_A_WAIT));
    path.found_count() > 0 && path.depth() <= edges
}
