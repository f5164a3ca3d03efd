//! Printers.
ghost use Rattle.std.specs.Prelude.{◌≡◌, ◌<◌, ◌≤◌, ◌^◌, ◌-◌, None, Some, length};
ghost use Rattle.fz_spec.specs.Instance.{Satisfies};
ghost use Rattle.fz_book.specs.Outcomes.{IsOwn};

use crate::{Stop, print_blocks};
use fz_account::Account;
use fz_book::{Book, Taken};
use fz_io::outside::Sink;
use fz_model::Assignment;
use std::alloc::Global;

/// A book of its own, how many of its recorded solutions it handed to the sink, and why it stopped, where it did. Where it prints
/// solutions as they are found it prints each that the book records, up to as many as are wanted, and the book lets go of what is
/// printed; else it prints none.
#[derive(Drop)]
pub struct Printer {
    book: Book,
    as_found: bool,
    wanted: Option<u32>,
    printed: usize,
    stopped: Option<Stop>,
    ghost kept: { book.gone ≤ printed },
}

impl Printer {
    ghost use Rattle.fz_printer.specs.Printed.{book_of, printed_of, stopped_of, as_found_of, wanted_of, due_of, AccountsTo, CountsMark, Grew, IsReady, KeepsPrinting, MarksMemory, OffersTo};

    /// Nothing is printed yet.
    pub fn new(book: Book, as_found: bool, wanted: Option<u32>) -> Printer
        requires { book.gone ≡ 0 }
        ensures book { book_of result ≡ book.book }
        ensures as_found { as_found_of result ≡ as_found }
        ensures wanted { wanted_of result ≡ wanted }
        ensures printed { printed_of result ≡ 0 }
        ensures stopped { stopped_of result ≡ None }
    {
        Printer {
            book,
            as_found,
            wanted,
            printed: 0,
            stopped: None,
        }
    }

    /// The book that its accounts were taken into.
    pub fn book(&self) -> &Book
        ensures book { result.now.book ≡ book_of self.now }
        ensures kept { result.now.gone ≤ printed_of self.now }
    {
        &self.book
    }

    /// Whether solutions are printed as they are found.
    pub fn as_found(&self) -> bool
        ensures { result ≡ as_found_of self.now }
    {
        self.as_found
    }

    /// How many solutions are wanted, none where it is all of them.
    pub fn wanted(&self) -> Option<u32>
        ensures { result ≡ wanted_of self.now }
    {
        self.wanted
    }

    /// How many blocks the sink took whole.
    pub fn printed_count(&self) -> usize
        ensures { result ≡ printed_of self.now }
    {
        self.printed
    }

    /// Why it stopped, where it did.
    pub fn stopped(&self) -> Option<Stop>
        ensures { result ≡ stopped_of self.now }
    {
        self.stopped
    }

    /// Takes an account into its book, and prints what the book recorded with it. An account of another model or mode, or of what
    /// isn't open, is dropped.
    pub fn account<S: Sink>(&mut self, alloc: Global, sink: &mut S, account: Account)
        requires working { stopped_of self.old ≡ None }
        requires ready { IsReady self.old }
        requires faults { S.faults sink.old < 2 ^ 64 - 1 }
        ensures taken { AccountsTo account self.old self.new }
        ensures grew { Grew self.old self.new (S.taken sink.old) (S.taken sink.new) }
        ensures ready { stopped_of self.new ≡ None → IsReady self.new }
        ensures cause { CountsMark (S.faults sink.old) (S.faults sink.new) (stopped_of self.new) }
    {
        if self.book.is_own(&account) {
            self.account_own(alloc, sink, account);
        }
    }

    /// Takes an account of its book's model and mode, as `account` does, but with no look at the model.
    pub fn account_own<S: Sink>(&mut self, alloc: Global, sink: &mut S, account: Account)
        requires working { stopped_of self.old ≡ None }
        requires ready { IsReady self.old }
        requires faults { S.faults sink.old < 2 ^ 64 - 1 }
        requires own { IsOwn (book_of self.old) account }
        ensures taken { AccountsTo account self.old self.new }
        ensures grew { Grew self.old self.new (S.taken sink.old) (S.taken sink.new) }
        ensures ready { stopped_of self.new ≡ None → IsReady self.new }
        ensures cause { CountsMark (S.faults sink.old) (S.faults sink.new) (stopped_of self.new) }
    {
        match self.book.take_own(account) {
            Taken::Taken => self.print_due(alloc, sink),
            Taken::Stranger(_) => {}
            Taken::Foreign(_) => unreachable!(),
            Taken::NoMemory(_) => self.stopped = Some(Stop::Memory),
        }
    }

    /// Takes an assignment that is found, and not yet accounted for, into its book, and prints it. One that isn't better, or doesn't
    /// satisfy, is dropped.
    pub fn offer<S: Sink>(&mut self, alloc: Global, sink: &mut S, assignment: Assignment)
        requires working { stopped_of self.old ≡ None }
        requires ready { IsReady self.old }
        requires faults { S.faults sink.old < 2 ^ 64 - 1 }
        ensures offered { OffersTo assignment self.old self.new }
        ensures grew { Grew self.old self.new (S.taken sink.old) (S.taken sink.new) }
        ensures ready { stopped_of self.new ≡ None → IsReady self.new }
        ensures cause { CountsMark (S.faults sink.old) (S.faults sink.new) (stopped_of self.new) }
    {
        match self.book.offer(assignment) {
            Ok(_) => self.print_due(alloc, sink),
            Err(_) => self.stopped = Some(Stop::Memory),
        }
    }

    /// Takes an assignment that satisfies, as `offer` does, but with no look at the constraints.
    pub fn offer_found<S: Sink>(&mut self, alloc: Global, sink: &mut S, assignment: Assignment)
        requires working { stopped_of self.old ≡ None }
        requires ready { IsReady self.old }
        requires faults { S.faults sink.old < 2 ^ 64 - 1 }
        requires satisfies { Satisfies (book_of self.old).model assignment }
        ensures offered { OffersTo assignment self.old self.new }
        ensures grew { Grew self.old self.new (S.taken sink.old) (S.taken sink.new) }
        ensures ready { stopped_of self.new ≡ None → IsReady self.new }
        ensures cause { CountsMark (S.faults sink.old) (S.faults sink.new) (stopped_of self.new) }
    {
        if self.book.offer_found(assignment).is_err() {
            self.stopped = Some(Stop::Memory);
            return;
        }
        self.print_due(alloc, sink);
    }

    /// Prints what is recorded and due, and not printed yet.
    fn print_due<S: Sink>(&mut self, alloc: Global, sink: &mut S)
        requires working { stopped_of self.old ≡ None }
        requires within { printed_of self.old ≤ due_of self.old }
        requires faults { S.faults sink.old < 2 ^ 64 - 1 }
        ensures keeps { KeepsPrinting self.old self.new }
        ensures book { book_of self.new ≡ book_of self.old }
        ensures grew { Grew self.old self.new (S.taken sink.old) (S.taken sink.new) }
        ensures ready { stopped_of self.new ≡ None → IsReady self.new }
        ensures cause { CountsMark (S.faults sink.old) (S.faults sink.new) (stopped_of self.new) }
    {
        let due = self.due();
        let found = &self.book.recorded_from(self.printed)[..due - self.printed];
        match print_blocks(alloc, sink, self.book.model(), found) {
            Ok(()) => self.mark_printed(due),
            Err(stop) => self.stopped = Some(stop),
        }
    }

    /// That many are printed now. Where these are all that is recorded, its book lets go of them.
    fn mark_printed(&mut self, count: usize)
        requires more { printed_of self.old ≤ count }
        ensures book { book_of self.new ≡ book_of self.old }
        ensures keeps { KeepsPrinting self.old self.new }
        ensures printed { printed_of self.new ≡ count }
        ensures stopped { stopped_of self.new ≡ stopped_of self.old }
    {
        self.printed = count;
        if self.book.recorded_count() <= count {
            self.book.keep_last();
        }
    }

    /// How many of those recorded are to be printed by now.
    fn due(&self) -> usize
        ensures due { result ≡ due_of self.now }
        ensures within { result ≤ length (book_of self.now).recorded }
    {
        let count = self.book.recorded_count();
        if !self.as_found {
            return 0;
        }
        match self.wanted {
            Some(wanted) => count.min(wanted as usize),
            None => count,
        }
    }

    /// Has the sink hand on what it took.
    pub fn hand_on<S: Sink>(&mut self, sink: &mut S)
        requires working { stopped_of self.old ≡ None }
        requires faults { S.faults sink.old < 2 ^ 64 - 1 }
        ensures keeps { KeepsPrinting self.old self.new }
        ensures book { book_of self.new ≡ book_of self.old }
        ensures printed { printed_of self.new ≡ printed_of self.old }
        ensures taken { S.taken sink.new ≡ S.taken sink.old }
        ensures cause { CountsMark (S.faults sink.old) (S.faults sink.new) (stopped_of self.new) }
        ensures fault { stopped_of self.new ≡ Some Stop.Memory → ⊥ }
    {
        if sink.hand_on().is_err() {
            self.stopped = Some(Stop::Fault);
        }
    }

    /// Marks that memory was refused.
    pub fn refuse(&mut self)
        ensures { MarksMemory self.old self.new }
    {
        self.stopped = Some(Stop::Memory);
    }
}
