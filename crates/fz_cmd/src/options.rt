//! Options.
ghost use Rattle.std.specs.Prelude.{◌≡◌, option_map};
ghost use Rattle.fz_cmd.specs.Meaning.{HasRanges, SuitsAssets, SuitsPart, SuitsSplit};

use crate::name::Name;
use fz_gen::text::{ITEMS_LEAST, ITEMS_MOST};
use std::marker::Model;

/// What an option takes.
#[derive(Clone, Copy)]
pub enum Takes {
    /// Nothing: it is given or not.
    Nothing,
    /// A number from the first to the second.
    Number(u64, u64),
    /// A number from the first to the second; the third if it isn't given.
    Defaulted(u64, u64, u64),
    /// Any text.
    Text,
    /// A number, maybe below 0, from the first to the second.
    Signed(i64, i64),
}

/// An option: its name, by which it is read, and which is its word unless it has a letter; its letter; what it takes; and its line of
/// the usage.
pub type Row = (&'static str, Option<char>, Takes, &'static str);

pub const ALL: Row = (
    "all",
    Some('a'),
    Takes::Nothing,
    "-a                     all solutions; of a model with a goal, each better than the one before it",
);

pub const LIMIT: Row = (
    "limit",
    Some('n'),
    Takes::Number(0, 4_294_967_295),
    "-n N                   N solutions, 0 for all: 0 to 4294967295, else one, or all with -a",
);

pub const DISTINCT: Row = (
    "distinct",
    None,
    Takes::Nothing,
    "--distinct             of solutions of which the same is printed, one",
);

pub const WORKERS: Row = (
    "workers",
    Some('p'),
    Takes::Defaulted(1, 64, 1),
    "-p N                   N workers, each in a thread: 1 to 64, else 1",
);

pub const ASSETS: Row = (
    "assets",
    None,
    Takes::Defaulted(1, 8, 1),
    "--assets N             N ways to search side by side, each with workers of its own: 1 to 8, else 1; from 2 not with -a, -n, --distinct, --interleave",
);

pub const STATS: Row = (
    "stats",
    Some('s'),
    Takes::Nothing,
    "-s                     statistics after all else",
);

pub const CERTIFICATE: Row = (
    "certificate",
    None,
    Takes::Nothing,
    "--certificate          a proof after a best solution, or that there is none; not with -a, -n, -s, --distinct, --generate",
);

pub const COMMIT_DISTANCE: Row = (
    "commit-distance",
    None,
    Takes::Defaulted(1, 1_000_000, 8),
    "--commit-distance N    a copy of a node is kept at each Nth edge: 1 to 1000000, else 8",
);

pub const ADAPTIVE_DISTANCE: Row = (
    "adaptive-distance",
    None,
    Takes::Defaulted(1, 1_000_000, 2),
    "--adaptive-distance N  a copy is kept in the middle of a way of N edges: 1 to 1000000, else 2",
);

pub const INTERLEAVE: Row = (
    "interleave",
    None,
    Takes::Number(0, 18_446_744_073_709_551_615),
    "--interleave N         workers take turns, by a schedule that N begins: 0 to 18446744073709551615",
);

pub const GENERATE: Row = (
    "generate",
    None,
    Takes::Number(ITEMS_LEAST as u64, ITEMS_MOST as u64),
    "--generate N           a knapsack of N items is solved, and no text is read: 1 to 1000",
);

pub const SPLIT: Row = (
    "split",
    None,
    Takes::Number(1, 1_000_000),
    "--split N              at most N parts of the model, a line each, and no search: 1 to 1000000; beside it the two distances alone",
);

pub const PART: Row = (
    "part",
    None,
    Takes::Text,
    "--part TEXT            one part of the model, as 0=3,5!=2; beside it -a, -p, the two distances and --better alone",
);

pub const BETTER: Row = (
    "better",
    None,
    Takes::Signed(-2_147_483_646, 2_147_483_646),
    "--better=V             of the part of --part what is better than V: -2147483646 to 2147483646",
);

/// All options, in the order of the usage.
pub const OPTIONS: [Row; 14] = [
    ALL,
    LIMIT,
    DISTINCT,
    WORKERS,
    ASSETS,
    STATS,
    CERTIFICATE,
    COMMIT_DISTANCE,
    ADAPTIVE_DISTANCE,
    INTERLEAVE,
    GENERATE,
    SPLIT,
    PART,
    BETTER,
];

/// What is asked for.
#[derive(Drop)]
pub struct Options {
    pub(crate) all: bool,
    pub(crate) limit: Option<u32>,
    pub(crate) distinct: bool,
    pub(crate) workers: u32,
    pub(crate) assets: u32,
    pub(crate) commit_distance: u32,
    pub(crate) adaptive_distance: u32,
    pub(crate) interleave: Option<u64>,
    pub(crate) stats: bool,
    pub(crate) certificate: bool,
    pub(crate) generate: Option<u32>,
    pub(crate) split: Option<u32>,
    pub(crate) part: Option<Name>,
    pub(crate) better: Option<i32>,
    pub(crate) file: Name,
}

impl Model for Options {
    ghost use Rattle.fz_cmd.specs.Meaning as meaning;

    ghost Value = { meaning.Options };

    ghost use Rattle.fz_cmd.specs.Inside.{options_in};

    ghost view = { options_in };

    ghost invariant = { λ o. meaning.HasRanges (options_in o)
        × meaning.SuitsAssets (options_in o) × meaning.SuitsPart (options_in o)
        × meaning.SuitsSplit (options_in o) };
}

impl Options {
    /// Whether `-a` was given: all solutions.
    pub fn all(&self) -> bool
        ensures { result ≡ self.now.all }
    {
        self.all
    }

    /// The number of `-n`: that many solutions, and all where it is 0.
    pub fn limit(&self) -> Option<u32>
        ensures { result ≡ self.now.limit }
    {
        self.limit
    }

    /// Whether `--distinct` was given: of solutions of which the same is printed, one.
    pub fn distinct(&self) -> bool
        ensures { result ≡ self.now.distinct }
    {
        self.distinct
    }

    /// The number of workers.
    pub fn workers(&self) -> u32
        ensures workers { result ≡ self.now.workers }
        ensures kept { HasRanges self.now }
    {
        self.workers
    }

    /// The number of assets: how many plans are searched side by side, each by workers of its own. Several search for one solution, or a
    /// best one.
    pub fn assets(&self) -> u32
        ensures assets { result ≡ self.now.assets }
        ensures kept { HasRanges self.now }
        ensures suits { SuitsAssets self.now }
    {
        self.assets
    }

    /// The commit distance, which recomputation keeps copies by.
    pub fn commit_distance(&self) -> u32
        ensures distance { result ≡ self.now.commit_distance }
        ensures kept { HasRanges self.now }
    {
        self.commit_distance
    }

    /// The adaptive distance: how many commits make a way so long that recomputation keeps a copy in its middle.
    pub fn adaptive_distance(&self) -> u32
        ensures distance { result ≡ self.now.adaptive_distance }
        ensures kept { HasRanges self.now }
    {
        self.adaptive_distance
    }

    /// The seed of `--interleave`: the workers take turns on one thread, by a schedule that it begins.
    pub fn interleave(&self) -> Option<u64>
        ensures { result ≡ self.now.interleave }
    {
        self.interleave
    }

    /// Whether `-s` was given: statistics after all else.
    pub fn stats(&self) -> bool
        ensures { result ≡ self.now.stats }
    {
        self.stats
    }

    /// Whether `--certificate` was given: a certificate after a best solution, or after the line that says that there is none.
    pub fn certificate(&self) -> bool
        ensures { result ≡ self.now.certificate }
    {
        self.certificate
    }

    /// The number of `--generate`: no text is read, but a model of that many items generated.
    pub fn generate(&self) -> Option<u32>
        ensures generate { result ≡ self.now.generate }
        ensures kept { HasRanges self.now }
    {
        self.generate
    }

    /// The number of `--split`: the model is split into at most that many parts.
    pub fn split(&self) -> Option<u32>
        ensures split { result ≡ self.now.split }
        ensures kept { HasRanges self.now }
        ensures suits { SuitsSplit self.now }
    {
        self.split
    }

    /// The text of `--part`: that part of the model is run.
    pub fn part(&self) -> Option<&Name>
        ensures part { option_map (λ n. n.now) result ≡ self.now.part }
        ensures suits { SuitsPart self.now }
    {
        self.part.as_ref()
    }

    /// The number of `--better`: of a part what the solutions are to be better than.
    pub fn better(&self) -> Option<i32>
        ensures better { result ≡ self.now.better }
        ensures kept { HasRanges self.now }
        ensures suits { SuitsPart self.now }
    {
        self.better
    }

    /// The name of the text to read; `-` is standard input.
    pub fn file(&self) -> &Name
        ensures { result.now ≡ self.now.file }
    {
        &self.file
    }
}
