//! Which calls of an object in memory fail.
ghost use Rattle.std.specs.Prelude.{◌≡◌, ℕ, ◌-◌, ◌+◌, ◌^◌, ◌<◌, ◌↔◌, IsErr};
ghost use Rattle.fz_io.specs.Outside.{HasCause};
ghost use Rattle.fz_io.specs.Calls.{FailsNext, Counts};

use crate::outside::Failed;

/// The numbers of the calls that fail, how many calls were made, and how many of them failed.
#[derive(Drop)]
pub(crate) struct Calls {
    fails: Vec<u64>,
    made: u64,
    faults: u64,
}

impl Calls {
    /// No call was made. Those of these numbers fail, the first one's number being 1.
    pub(crate) fn new(fails: Vec<u64>) -> Calls
        ensures fails { result.fails ≡ fails }
        ensures made { result.made ≡ 0 }
        ensures faults { result.faults ≡ 0 }
    {
        Calls {
            fails,
            made: 0,
            faults: 0,
        }
    }

    /// How often a call failed.
    pub(crate) fn fault_count(&self) -> u64
        ensures { result ≡ self.now.faults }
    {
        self.faults
    }

    /// Counts a call, which fails where its number is listed.
    pub(crate) fn begin(&mut self) -> Result<(), Failed>
        requires { self.old.faults < 2 ^ 64 - 1 }
        ensures fails { IsErr result ↔ FailsNext self.old }
        ensures counts { Counts self.old self.new }
        ensures cause { HasCause self.old.faults self.new.faults result }
    {
        self.made = self.made.saturating_add(1);
        if self.fails.contains(&self.made) {
            return Err(self.fault());
        }
        Ok(())
    }

    /// Counts a fault of the call that was begun last.
    pub(crate) fn fault(&mut self) -> Failed
        requires { self.old.faults < 2 ^ 64 - 1 }
        ensures { self.new ≡ record self.old { faults = self.old.faults + 1 } }
    {
        self.faults += 1;
        Failed
    }
}
