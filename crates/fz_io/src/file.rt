//! Files and standard input as a source.
ghost use Rattle.std.specs.Prelude.{◌≡◌, ℕ, ◌-◌, ◌+◌, ◌^◌, ◌<◌, ◌≤◌, IsTrue, None, Some, Ok, [], IfOk, OnOk, OnErr, false, true, length};
ghost use Rattle.std.specs.Io.KnownBytes.{ReadConsumes};
ghost use Rattle.std.specs.Fs.{asks_read, asks_write, asks_append, asks_truncate};
ghost use Rattle.fz_io.specs.Outside.{HasCause, one_more};
ghost use Rattle.fz_io.specs.File.{file_left, file_opened, file_faults, file_selections, is_nothing, is_opened_for};

use crate::outside::{Failed, Source};
use std::fs::OpenOptions;
use std::io;
use std::io::{ErrorKind, Read};
use std::rt::Files;

/// How often a read that a signal interrupts is tried again.
const TRIES: u32 = 1_000_000;

/// What is read from.
#[derive(Drop)]
enum Opened<F, I> {
    Nothing,
    File(F),
    Input(I),
}

/// The file of each name, and standard input for the name `-`. It doesn't tell its bytes. A file that can't be opened
/// or read is a fault. Each read asks the system for as many bytes as there is room for; one that a signal interrupts is tried
/// again.
#[derive(Drop)]
pub struct FileSource<R: Files + Input> {
    rt: R,
    opened: Opened<R::File, R::Reader>,
    selections: u64,
    faults: u64,
}

/// How a file is opened: to be read, and nothing else. It isn't made, and what stands in it stays.
fn for_reading() -> OpenOptions
    ensures read { asks_read result ≡ true }
    ensures write { asks_write result ≡ false }
    ensures append { asks_append result ≡ false }
    ensures truncate { asks_truncate result ≡ false }
{
    let mut how = OpenOptions::new();
    how.read(true);
    how
}

/// Reads, and tries again where a signal interrupts.
fn read_again<T: Read>(reader: &mut T, buf: &mut [u8]) -> io::Result<usize>
    ensures within { IfOk result (λ n. n ≤ length buf.old) }
    ensures bytes { ReadConsumes (T.remaining reader.old) (T.remaining reader.new) result buf.new }
{
    'tries: for _ in 0..TRIES {
        match reader.read(buf) {
            Err(fault) if fault.kind() == ErrorKind::Interrupted => {}
            other => return other,
        }
    }
    Err(io::Error::from(ErrorKind::Interrupted))
}

impl<R: Files + Input> FileSource<R> {
    /// Nothing is selected yet.
    pub fn new(rt: R) -> FileSource<R>
        ensures selections { file_selections result ≡ 0 }
        ensures faults { file_faults result ≡ 0 }
        ensures left { file_left R.File.remaining R.Reader.remaining result ≡ Some [] }
    {
        FileSource {
            rt,
            opened: Opened::Nothing,
            selections: 0,
            faults: 0,
        }
    }

    /// How often a call has failed.
    pub fn fault_count(&self) -> u64
        ensures { result ≡ file_faults self.now }
    {
        self.faults
    }

    fn open(&self, name: &str) -> io::Result<Opened<R::File, R::Reader>>
        ensures { IfOk result (λ o. IsTrue (is_opened_for o name.now)) }
    {
        if name == "-" {
            return Ok(Opened::Input(self.rt.reader()));
        }
        Ok(Opened::File(for_reading().open(&self.rt, name)?))
    }

    /// Counts a fault.
    fn fault(&mut self) -> Failed
        requires { self.old.faults < 2 ^ 64 - 1 }
        ensures { self.new ≡ record self.old { faults = self.old.faults + 1 } }
    {
        self.faults += 1;
        Failed
    }
}

impl<R: Files + Input> Source for FileSource<R> {
    ghost texts = { λ _ _. None };

    ghost left = { λ _. None };

    ghost is_selected = { λ s. is_opened_for (file_opened s) };

    ghost selections = { λ s. file_selections s };

    ghost faults = { λ s. file_faults s };

    fn select(&mut self, name: &str) -> Result<(), Failed>
        requires { file_faults self.old < 2 ^ 64 - 1 }
        ensures cause { HasCause (file_faults self.old) (file_faults self.new) result }
        ensures counted { file_selections self.new ≡ one_more (file_selections self.old) }
        ensures selected { OnOk result (IsTrue (is_opened_for (file_opened self.new) name.now)) }
        ensures stays { OnErr result (file_opened self.new ≡ file_opened self.old) }
    {
        self.selections = self.selections.saturating_add(1);
        match self.open(name) {
            Ok(opened) => {
                self.opened = opened;
                Ok(())
            }
            Err(_) => Err(self.fault()),
        }
    }

    fn read(&mut self, buf: &mut [u8]) -> Result<usize, Failed>
        requires faults { file_faults self.old < 2 ^ 64 - 1 }
        requires room { 0 < length buf.old }
        ensures within { IfOk result (λ n. n ≤ length buf.old) }
        ensures selected { is_opened_for (file_opened self.new)
            ≡ is_opened_for (file_opened self.old) }
        ensures counted { file_selections self.new ≡ file_selections self.old }
        ensures nothing { IsTrue (is_nothing (file_opened self.old)) → result ≡ Ok 0 }
        ensures cause { HasCause (file_faults self.old) (file_faults self.new) result }
        ensures bytes { ReadConsumes (file_left R.File.remaining R.Reader.remaining self.old)
            (file_left R.File.remaining R.Reader.remaining self.new) result buf.new }
    {
        let count = match &mut self.opened {
            Opened::Nothing => Ok(0),
            Opened::File(file) => read_again(file, buf),
            Opened::Input(input) => read_again(input, buf),
        };
        match count {
            Ok(count) => Ok(count),
            Err(_) => Err(self.fault()),
        }
    }
}
