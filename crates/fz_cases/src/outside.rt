//! Sources and sinks: in memory, of files, and of a writer.
use fz_io::buffered::BufferedSink;
use fz_io::file::FileSource;
use fz_io::gate::{EventKind, Gate, NoGate};
use fz_io::memory_sink::MemSink;
use fz_io::memory_source::MemSource;
use fz_io::output::OutSink;
use fz_io::outside::{Sink, Source};
use fz_io::sure_sink::SureSink;
use fz_io::sure_source::SureSource;
use fz_io::texts::NamedText;
use fz_io::whole::{Whole, put_all, read_all};
use std::alloc::{AllocError, Global};
use std::io::{ErrorKind, Write};
use std::process::Abort;
use std::rt::Files;
use std::test::Fail;
use std::{fs, io};

fn texts(alloc: Global) -> Result<Vec<NamedText>, AllocError> {
    let mut texts = Vec::new(alloc);
    for (name, text) in [("none", ""), ("digits", "0123456789")] {
        texts.push(NamedText {
            name: name.to_string(alloc)?,
            bytes: text.as_bytes().to_vec(alloc)?,
        })?;
    }
    Ok(texts)
}

/// What was read, with a mark for how it ended.
fn shown(alloc: Global, whole: Whole) -> Result<Vec<u8>, AllocError> {
    match whole {
        Whole::Bytes(bytes) => Ok(bytes),
        Whole::TooLong(mut bytes) => {
            bytes.extend_from_slice(b" and more")?;
            Ok(bytes)
        }
        Whole::Failed => b"failed".to_vec(alloc),
    }
}

/// The whole text of a name, up to a limit.
fn whole(
    alloc: Global,
    source: &mut MemSource,
    name: &str,
    limit: usize,
) -> Result<Vec<u8>, AllocError> {
    if source.fault_count() > 9 || source.select(name).is_err() || source.fault_count() > 9 {
        return Ok(Vec::new(alloc));
    }
    shown(alloc, read_all(alloc, source, limit)?)
}

#[test]
fn a_whole_text_ends_at_the_limit(rt: HostRuntime) -> Result<(), Fail> {
    let alloc = rt.alloc();
    let mut source = MemSource::new(texts(alloc)?, Vec::new(alloc));
    for (limit, text) in [
        (10, "0123456789"),
        (9, "0123456789 and more"),
        (3, "0123 and more"),
    ] {
        let given = whole(alloc, &mut source, "digits", limit)?;
        assert_eq!(rt; given.as_slice(), text.as_bytes(), "at {limit}");
    }
    Ok(())
}

#[test]
fn sure_ones_take_every_name_and_piece(rt: HostRuntime) -> Result<(), Fail> {
    let alloc = rt.alloc();
    let mut source = SureSource::new(texts(alloc)?);
    for (name, text) in [("digits", "0123456789"), ("letters", "")] {
        assert!(rt; source.select(name).is_ok());
        let given = shown(alloc, read_all(alloc, &mut source, 10)?)?;
        assert_eq!(rt; given.as_slice(), text.as_bytes());
    }
    assert!(rt; put_all(&mut SureSink, b"one").is_ok());
    assert!(rt; SureSink.flush().is_ok());
    Ok(())
}

/// The text of the file of a name, or what is left of what is selected; `None` where it can't be selected.
fn text_of<R: Files + Input>(
    alloc: Global,
    source: &mut FileSource<R>,
    name: Option<&str>,
) -> Option<Vec<u8>> {
    if let Some(name) = name {
        if source.fault_count() > 9 || source.select(name).is_err() {
            return None;
        }
    }
    if source.fault_count() > 9 {
        return None;
    }
    shown(alloc, read_all(alloc, source, 100).ok()?).ok()
}

static FILES: [(&str, &str); 4] = [
    ("other.fzn", "0123456789"),
    ("a", "letters"),
    ("two words.fzn", "blank"),
    ("-a", "dash"),
];

fn files() -> &'static [(&'static str, &'static str)] {
    &FILES
}

fn check_text(rt: &impl Abort, given: Option<Vec<u8>>, text: &str) {
    assert_eq!(rt; given.as_deref(), Some(text.as_bytes()), "{text}");
}

#[test]
fn a_file_is_read_by_its_whole_name_and_stays(rt: HostRuntime) {
    let alloc = rt.alloc();
    for (name, text) in files() {
        assert!(rt; fs::write(&rt, *name, *text).is_ok());
    }
    let mut source = FileSource::new(rt);
    // nothing is selected yet
    check_text(&rt, text_of(alloc, &mut source, None), "");
    for name in ["b", "other", "two", ""] {
        assert!(rt; text_of(alloc, &mut source, Some(name)).is_none(), "{name}");
    }
    assert_eq!(rt; source.fault_count(), 4);
    for (name, text) in files() {
        check_text(&rt, text_of(alloc, &mut source, Some(*name)), text);
        check_text(&rt, fs::read(&rt, *name).ok(), text);
    }
    assert_eq!(rt; source.fault_count(), 4);
}

/// A writer that takes no bytes.
#[derive(Drop)]
struct Closed;

impl Write for Closed {
    fn write(&mut self, _buf: &[u8]) -> io::Result<usize> {
        Ok(0)
    }

    fn flush(&mut self) -> io::Result<()> {
        Ok(())
    }
}

/// A writer that can't hand on what it took.
#[derive(Drop)]
struct Stuck;

impl Write for Stuck {
    fn write(&mut self, buf: &[u8]) -> io::Result<usize> {
        Ok(buf.len())
    }

    fn flush(&mut self) -> io::Result<()> {
        Err(io::Error::from(ErrorKind::BrokenPipe))
    }
}

/// Whether a sink over a writer takes a line and whether it flushes it, and how often it failed.
fn written<W: Write + Drop>(writer: W) -> (bool, bool, u64) {
    let mut sink = OutSink::new(writer);
    let is_taken = put_all(&mut sink, b"one\n").is_ok();
    if sink.fault_count() > 9 {
        return (is_taken, false, sink.fault_count());
    }
    let is_flushed = sink.flush().is_ok();
    (is_taken, is_flushed, sink.fault_count())
}

#[test]
fn what_a_writer_refuses_is_a_fault(rt: HostRuntime) {
    assert_eq!(rt; written(rt.stdout()), (true, true, 0));
    assert_eq!(rt; written(Stuck), (true, false, 1));
    assert_eq!(rt; written(Closed), (false, true, 1));
}

#[test]
fn standard_output_takes_a_piece(rt: HostRuntime) -> Result<(), Fail> {
    let mut sink = BufferedSink::new(rt.alloc(), OutSink::new(rt.stdout()))?;
    assert!(rt; put_all(&mut sink, b"one\n").is_ok());
    assert!(rt; sink.flush().is_ok());
    assert_eq!(rt; sink.inner().fault_count(), 0);
    Ok(())
}

/// That many bytes.
fn many(alloc: Global, count: usize) -> Result<Vec<u8>, AllocError> {
    vec![in alloc; b'x'; count]
}

#[test]
fn a_buffer_hands_on_what_it_has_no_room_for(rt: HostRuntime) -> Result<(), Fail> {
    let alloc = rt.alloc();
    let piece = many(alloc, 40_000)?;
    let mut sink = BufferedSink::new(alloc, MemSink::new(alloc, [3].to_vec(alloc)?))?;
    assert!(rt; put_all(&mut sink, &piece).is_ok());
    assert_eq!(rt; sink.inner().bytes().len(), 0, "it is kept");
    assert!(rt; put_all(&mut sink, &piece).is_ok());
    assert_eq!(rt; sink.inner().bytes().len(), 65_536);
    assert!(rt; sink.flush().is_err(), "its third call fails");
    assert_eq!(rt; sink.inner().bytes().len(), 80_000);
    assert_eq!(rt; sink.inner().fault_count(), 1);
    Ok(())
}

/// Takes what threads share.
fn lend<T: Sync>(_shared: &T) {}

/// Takes what moves from one thread to another.
fn lend_moved<T: Send>(_moved: &T) {}

#[test]
fn threads_share_a_gate_and_hand_on_a_sink(rt: HostRuntime) -> Result<(), Fail> {
    let alloc = rt.alloc();
    NoGate.before(0, EventKind::Step);
    NoGate.at(0, EventKind::Step);
    lend(&NoGate);
    lend_moved(&SureSink);
    lend_moved(&MemSink::new(alloc, Vec::new(alloc)));
    lend_moved(&BufferedSink::new(alloc, OutSink::new(rt.stdout()))?);
    Ok(())
}
