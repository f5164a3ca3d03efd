//! What several workers tell while they search.
use crate::subject::{OwnAccount, Solution, Subject};
use fz_account::Account;
use std::alloc::{AllocError, Global};
use std::mem;
use std::sync::atomic::{AtomicBool, AtomicU64, Ordering};
use std::sync::{Mutex, Wait};
use std::thread::Parker;
use std::time::Duration;

/// How many milliseconds a collector waits for what it is told.
const TICK: u64 = 15;

/// How many numbers wait at most before workers rest, a solution counting for sixteen beside its own and an edge for eight.
const MOST_WAITING: u64 = 1 << 22;

const NUMBERS_A_SOLUTION: u64 = 16;

const NUMBERS_AN_EDGE: u64 = 8;

/// What a worker tells.
#[derive(Drop)]
pub enum Told<T: Subject> {
    /// The workers' book took this account.
    Taken(OwnAccount<T>),
    /// The workers' book recorded this assignment.
    Better(Solution<T>),
}

/// What workers told and nobody has taken yet, in the order in which it was told. Each worker tells what a book took while it holds
/// that book's lock, so it is the order of the book. A deaf one keeps nothing.
#[derive(Drop)]
pub struct Outbox<T: Subject> {
    told: Mutex<Vec<Told<T>>>,
    is_deaf: bool,
    waiting: AtomicU64,
    asks: AtomicU64,
    is_read: AtomicBool,
    has_ended: AtomicBool,
    is_stopped: AtomicBool,
    parker: Parker,
}

impl<T: Subject> Outbox<T> {
    /// Nothing is told yet, and workers are asked for what they find first.
    pub fn new(alloc: Global) -> Outbox<T> {
        Outbox::with(alloc, false)
    }

    /// Nothing that is told is kept, since nobody is to take it.
    pub fn deaf(alloc: Global) -> Outbox<T> {
        Outbox::with(alloc, true)
    }

    fn with(alloc: Global, is_deaf: bool) -> Outbox<T> {
        Outbox {
            told: Mutex::new(Vec::new(alloc)),
            is_deaf,
            waiting: AtomicU64::new(0),
            asks: AtomicU64::new(1),
            is_read: AtomicBool::new(false),
            has_ended: AtomicBool::new(false),
            is_stopped: AtomicBool::new(false),
            parker: Parker::new(),
        }
    }

    /// Tells the collector. A deaf outbox tells nobody.
    ///
    /// # Errors
    /// `AllocError` where there is no memory; then nothing is told.
    pub fn tell<R: Wait>(&self, rt: &R, told: Told<T>) -> Result<(), AllocError> {
        if self.is_deaf {
            return Ok(());
        }
        let weight = weight_of(&told);
        let mut waiting = self.told.lock(rt);
        waiting.push(told)?;
        self.waiting.fetch_add(weight, Ordering::SeqCst);
        Ok(())
    }

    /// Whether so much waits that workers are to rest. They never do where nobody takes what they tell.
    pub fn is_full(&self) -> bool {
        MOST_WAITING <= self.waiting.load(Ordering::SeqCst) && self.is_read()
    }

    /// Whether somebody takes what is told.
    pub fn is_read(&self) -> bool {
        self.is_read.load(Ordering::SeqCst)
    }

    /// How often workers were asked for what they found.
    pub fn asks(&self) -> u64 {
        self.asks.load(Ordering::SeqCst)
    }

    /// Whether workers are to stop, since nothing more is taken in.
    pub fn is_stopped(&self) -> bool {
        self.is_stopped.load(Ordering::SeqCst)
    }

    /// The workers have ended.
    pub fn end(&self) {
        self.has_ended.store(true, Ordering::SeqCst);
        self.parker.unpark();
    }

    /// From now on somebody takes what is told.
    pub(crate) fn open(&self) {
        self.is_read.store(true, Ordering::SeqCst);
    }

    /// Nothing more is taken in.
    pub(crate) fn stop(&self) {
        self.is_stopped.store(true, Ordering::SeqCst);
    }

    /// Whether the workers have ended.
    pub(crate) fn has_ended(&self) -> bool {
        self.has_ended.load(Ordering::SeqCst)
    }

    /// Takes what was told.
    pub(crate) fn take<R: Wait>(&self, rt: &R, alloc: Global) -> Vec<Told<T>> {
        let mut told = self.told.lock(rt);
        self.waiting.store(0, Ordering::SeqCst);
        mem::replace(&mut *told, Vec::new(alloc))
    }

    /// Waits a little, or until the workers have ended.
    pub(crate) fn rest<R: Wait>(&self, rt: &R) {
        self.parker.park_timeout(rt, Duration::from_millis(TICK));
    }

    /// Asks each worker for what it found.
    pub(crate) fn ask(&self) {
        self.asks.fetch_add(1, Ordering::SeqCst);
    }
}

/// How many numbers are told, about.
fn weight_of<T: Subject>(told: &Told<T>) -> u64 {
    match told {
        Told::Taken(account) => weight_of_account(account.account()),
        Told::Better(solution) => solution.assignment().values().len() as u64,
    }
}

fn weight_of_account(account: &Account) -> u64 {
    let numbers = (account.model().variables().len() as u64).saturating_add(NUMBERS_A_SOLUTION);
    let before = account.before().edges().len() as u64;
    let edges = before.saturating_add(account.after().edges().len() as u64);
    let found = account.found().len() as u64;
    found
        .saturating_mul(numbers)
        .saturating_add(edges.saturating_mul(NUMBERS_AN_EDGE))
}
