//! Printing what several workers tell.
ghost use Rattle.std.specs.Prelude.{◌≡◌, ◌≢◌, ◌↔◌, ◌<◌, ◌^◌, ◌-◌, None, Some, IsTrue, IsFalse};
ghost use Rattle.fz_printer.specs.declared.printing.Stop.TheVariants as stops;
ghost use Rattle.fz_printer.specs.Printed.{book_of, printed_of, stopped_of, CountsMark, KeepsPrinting};
ghost use Rattle.fz_printer.specs.Gathered.{Gathers, HasEnough, IsFilled, IsWorking};
ghost use Rattle.fz_printer.specs.Gatherings.{gathers_both, gathers_none};

use crate::printer::Printer;
use fz_collect::{Collect, News};
use fz_io::outside::Sink;
use std::alloc::Global;

/// Whether as many are recorded as are wanted.
pub fn is_filled(printer: &Printer) -> bool
    ensures { IsTrue result ↔ IsFilled printer.now }
{
    match printer.wanted() {
        Some(count) => count as usize <= printer.book().recorded_count(),
        None => false,
    }
}

/// Whether the sink failed, or memory was refused.
pub fn has_stopped(printer: &Printer) -> bool
    ensures { IsFalse result ↔ (stopped_of printer.now ≡ None) }
{
    printer.stopped().is_some()
}

/// Has the sink hand on what it took, where it is due.
pub fn hand_on_if_due<K: Sink>(printer: &mut Printer, sink: &mut K)
    requires working { stopped_of printer.old ≡ None }
    requires faults { K.faults sink.old < 2 ^ 64 - 1 }
    ensures keeps { KeepsPrinting printer.old printer.new }
    ensures book { book_of printer.new ≡ book_of printer.old }
    ensures printed { printed_of printer.new ≡ printed_of printer.old }
    ensures taken { K.taken sink.new ≡ K.taken sink.old }
    ensures cause { CountsMark (K.faults sink.old) (K.faults sink.new) (stopped_of printer.new) }
    ensures fault { stopped_of printer.new ≢ Some stops.Memory }
{
    if sink.is_due() {
        printer.hand_on(sink);
    }
}

impl<K: Sink> Collect<K> for Printer {
    ghost works = { λ p k. IsWorking p (K.faults k) };

    ghost enough = { HasEnough };

    ghost grew = { λ p k q l. Gathers p (K.taken k) (K.faults k) q (K.taken l) (K.faults l) };

    ghost model = { λ p. (book_of p).model };

    ghost mode = { λ p. (book_of p).mode };

    ghost keeps = { λ p k q l g. (g.model, g.mode) };

    ghost stays = { λ p k w. gathers_none p (K.taken k) (K.faults k) w.none w.ready };

    ghost goes_on = { λ p k q l r m first w second. gathers_both p q r (K.taken k) (K.taken l) (K.taken m) (K.faults k) (K.faults l) (K.faults m) first w.none second };

    fn has_enough(&self) -> bool {
        has_stopped(self) || is_filled(self)
    }

    fn is_due(&self, sink: &K) -> bool {
        sink.is_due()
    }

    fn take_in(&mut self, alloc: Global, sink: &mut K, news: News) {
        match news {
            News::Taken(account) => self.account_own(alloc, sink, account),
            News::Better(assignment) => self.offer_found(alloc, sink, assignment),
        }
    }

    fn look_up(&mut self, sink: &mut K) {
        hand_on_if_due(self, sink);
    }
}
