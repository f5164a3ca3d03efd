//! Tasks of which no two can run at the same time.
ghost use Rattle.std.specs.Prelude.{◌≡◌, ◌+ℤ◌, ◌&&◌, int_le, int_lt};
ghost use Rattle.fz_disjunctive.specs.Schedules.{takes};

/// A task that runs beside none of the others: when it may start, and how long it lasts at least.
#[derive(Clone, Copy)]
pub struct Job {
    /// Its place among all tasks.
    pub place: usize,
    /// The earliest start.
    pub earliest: i64,
    /// The latest start.
    pub latest: i64,
    /// The least duration.
    pub duration: i32,
}

impl Job {
    /// The earliest end.
    pub fn earliest_end(self) -> i128
        ensures { result ≡ self.earliest +ℤ self.duration }
    {
        i128::from(self.earliest) + i128::from(self.duration)
    }

    /// The latest end.
    pub fn latest_end(self) -> i128
        ensures { result ≡ self.latest +ℤ self.duration }
    {
        i128::from(self.latest) + i128::from(self.duration)
    }

    /// Whether it has ended by a time at the latest, and not by another.
    fn ends_between(self, after: i64, by: i128) -> bool
        ensures { result ≡ (int_le (self.latest +ℤ self.duration) by
            && int_lt after (self.earliest +ℤ self.duration)) }
    {
        self.latest_end() <= by && i128::from(after) < self.earliest_end()
    }
}

/// Which way time is read.
#[derive(Clone, Copy)]
pub enum Direction {
    /// As it goes.
    Forward,
    /// From its end: what is last is first.
    Backward,
}

/// Some of the jobs.
#[derive(Clone, Copy)]
pub enum Choice {
    /// Those that have ended by a time at the latest.
    EndingBy(i128),
    /// Those that have ended by a time at the latest, and the one at a place.
    EndingByOrAt(i128, usize),
    /// Those that come before another job, since it can't end by their latest start.
    Before(Job),
    /// Those other than a job that have ended by a time at the latest, none of them when the job can start.
    Beside(Job, i128),
}

impl Choice {
    /// Whether a job is among them.
    pub fn takes(self, job: Job) -> bool
        ensures { result ≡ takes self job }
    {
        match self {
            Choice::EndingBy(time) => job.latest_end() <= time,
            Choice::EndingByOrAt(time, place) => {
                let is_soon = job.latest_end() <= time;
                job.place == place || is_soon
            }
            Choice::Before(other) => {
                let is_soon = i128::from(job.latest) < other.earliest_end();
                job.place != other.place && is_soon
            }
            Choice::Beside(other, time) => {
                let is_between = job.ends_between(other.earliest, time);
                job.place != other.place && is_between
            }
        }
    }
}
