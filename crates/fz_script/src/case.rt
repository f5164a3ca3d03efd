//! A case: calls, the texts that they read, and what each of them is to answer.
use std::alloc::{AllocError, Global};
use std::mem;

/// How what is printed is compared with what is wanted.
#[derive(Clone, Copy)]
pub enum Order {
    /// It is the same.
    Same,
    /// It has the same blocks in any order, and ends in `==========` where that does.
    AnyOrder,
    /// It ends so.
    End,
}

/// How a call is to end.
#[derive(Clone, Copy)]
pub enum Ending {
    Refused,
    /// With this exit status.
    Status(u8),
}

/// The call of the source and of the sink that fails, from 1, and how many bytes a read gives and a write takes at most.
#[derive(Clone, Copy)]
pub struct Faults {
    pub source: Option<u64>,
    pub sink: Option<u64>,
    pub step: usize,
}

/// What a line goes on with.
#[derive(Clone, Copy)]
enum Place {
    Text,
    Output,
    Printed,
}

/// The lines of a case, put together.
#[derive(Drop)]
pub struct Case<'a> {
    alloc: Global,
    /// The line at which it ends, from 1.
    pub end: u64,
    pub has_lines: bool,
    pub calls: Vec<&'a str>,
    pub text: String,
    has_text: bool,
    /// What another program printed.
    pub output: String,
    pub has_output: bool,
    /// What is done with a value, a row of steps a line.
    pub steps: Vec<&'a str>,
    pub order: Order,
    /// What may be printed in place of `printed`.
    pub others: Vec<String>,
    pub printed: String,
    /// A variable whose values grow in what is printed.
    pub growing: Option<&'a str>,
    pub ending: Ending,
    /// What is to be said on standard error, where that is looked at.
    pub said: Option<String>,
    pub faults: Faults,
    place: Place,
}

impl<'a> Case<'a> {
    /// No line was read yet.
    pub fn new(alloc: Global) -> Case<'a> {
        Case {
            alloc,
            end: 0,
            has_lines: false,
            calls: Vec::new(alloc),
            text: String::new(alloc),
            has_text: false,
            output: String::new(alloc),
            has_output: false,
            steps: Vec::new(alloc),
            order: Order::Same,
            others: Vec::new(alloc),
            printed: String::new(alloc),
            growing: None,
            ending: Ending::Status(0),
            said: None,
            faults: Faults {
                source: None,
                sink: None,
                step: usize::MAX,
            },
            place: Place::Text,
        }
    }

    /// Takes up a line, and says whether it is one of a case.
    pub fn read(&mut self, line: &'a str) -> Result<bool, AllocError> {
        self.has_lines = true;
        let (mark, rest) = line.split_once(' ').unwrap_or((line, ""));
        match mark.as_bytes() {
            [byte] => self.read_marked(*byte, rest),
            b"or" => self.begin_another(),
            _ => {
                self.calls.push(line)?;
                Ok(true)
            }
        }
    }

    fn read_marked(&mut self, mark: u8, rest: &'a str) -> Result<bool, AllocError> {
        match mark {
            b'<' => self.read_text(rest),
            b':' => self.read_output(rest),
            b'-' => self.read_steps(rest),
            b'>' => self.read_printed(Order::Same, rest),
            b'~' => self.read_printed(Order::AnyOrder, rest),
            b'$' => self.read_printed(Order::End, rest),
            b'!' => self.read_refusal(rest),
            b'=' => self.read_status(rest),
            b'|' => self.read_said(rest),
            b'@' => Ok(self.read_fault(rest)),
            b'^' => {
                self.growing = Some(rest);
                Ok(true)
            }
            _ => self.go_on(mark, rest),
        }
    }

    /// A line of the text.
    fn read_text(&mut self, rest: &str) -> Result<bool, AllocError> {
        if self.has_text {
            self.text.push_str("\n")?;
        }
        self.text.push_str(rest)?;
        self.has_text = true;
        self.place = Place::Text;
        Ok(true)
    }

    /// A line of what another program printed.
    fn read_output(&mut self, rest: &str) -> Result<bool, AllocError> {
        push_line(&mut self.output, rest)?;
        self.has_output = true;
        self.place = Place::Output;
        Ok(true)
    }

    /// A row of steps.
    fn read_steps(&mut self, rest: &'a str) -> Result<bool, AllocError> {
        self.steps.push(rest)?;
        Ok(true)
    }

    /// A line of what is to be printed.
    fn read_printed(&mut self, order: Order, rest: &str) -> Result<bool, AllocError> {
        push_line(&mut self.printed, rest)?;
        self.order = order;
        self.place = Place::Printed;
        Ok(true)
    }

    /// What may be printed in place of what was read.
    fn begin_another(&mut self) -> Result<bool, AllocError> {
        let before = mem::replace(&mut self.printed, String::new(self.alloc));
        self.others.push(before)?;
        Ok(true)
    }

    /// The place of a refusal and its code, as `1:14 E03`.
    fn read_refusal(&mut self, rest: &str) -> Result<bool, AllocError> {
        let Some((place, code)) = rest.split_once(' ') else {
            return Ok(false);
        };
        let Some((line, column)) = place.split_once(':') else {
            return Ok(false);
        };
        let printed = format!(in self.alloc;
            "% line {line}, column {column}: {code}\n=====ERROR=====\n"
        )?;
        self.printed.push_str(&printed)?;
        self.ending = Ending::Refused;
        Ok(true)
    }

    /// The exit status and the first line on standard error, where that is looked at.
    fn read_status(&mut self, rest: &str) -> Result<bool, AllocError> {
        let (number, said) = rest.split_once(' ').unwrap_or((rest, ""));
        let Ok(status) = number.parse::<u8>() else {
            return Ok(false);
        };
        self.ending = Ending::Status(status);
        if !said.is_empty() {
            self.said = Some(String::from_str(self.alloc, said)?);
        }
        Ok(true)
    }

    /// One more line on standard error.
    fn read_said(&mut self, rest: &str) -> Result<bool, AllocError> {
        let Some(said) = &mut self.said else {
            return Ok(false);
        };
        said.push_str("\n")?;
        said.push_str(rest)?;
        Ok(true)
    }

    /// `source 2` or `sink 2`, where the second call fails, or `step 1`.
    fn read_fault(&mut self, rest: &str) -> bool {
        let Some((place, number)) = rest.split_once(' ') else {
            return false;
        };
        let Ok(number) = number.parse::<u64>() else {
            return false;
        };
        match place.as_bytes() {
            b"source" => self.faults.source = Some(number),
            b"sink" => self.faults.sink = Some(number),
            b"step" => self.faults.step = number as usize,
            _ => return false,
        }
        true
    }

    /// What goes on with the last line.
    fn go_on(&mut self, mark: u8, rest: &str) -> Result<bool, AllocError> {
        let alloc = self.alloc;
        match self.place {
            Place::Text => push(alloc, &mut self.text, mark, rest, ""),
            Place::Output => push(alloc, &mut self.output, mark, rest, ""),
            Place::Printed => push(alloc, &mut self.printed, mark, rest, "\n"),
        }
    }
}

/// Pushes some characters, one by its number, or copies, each with an end.
fn push(
    alloc: Global,
    text: &mut String,
    mark: u8,
    rest: &str,
    end: &str,
) -> Result<bool, AllocError> {
    match mark {
        b'+' | b'.' => {
            text.push_str(rest)?;
            Ok(true)
        }
        b'&' => push_character(text, rest),
        b'*' => push_copies(alloc, text, rest, end),
        _ => Ok(false),
    }
}

fn push_line(text: &mut String, line: &str) -> Result<(), AllocError> {
    text.push_str(line)?;
    text.push_str("\n")
}

/// The character of a number.
fn push_character(text: &mut String, number: &str) -> Result<bool, AllocError> {
    match number.parse::<u8>() {
        Ok(number) => {
            text.push(char::from(number))?;
            Ok(true)
        }
        Err(_) => Ok(false),
    }
}

/// That many copies of a piece, as `3 ab`, or with the number of each, from 0, in place of its `#`.
fn push_copies(
    alloc: Global,
    text: &mut String,
    rest: &str,
    end: &str,
) -> Result<bool, AllocError> {
    let Some((count, piece)) = rest.split_once(' ') else {
        return Ok(false);
    };
    let Ok(count) = count.parse::<u32>() else {
        return Ok(false);
    };
    match piece.split_once('#') {
        Some((before, after)) => push_numbered(alloc, text, count, before, after, end)?,
        None => push_same(text, count, piece, end)?,
    }
    Ok(true)
}

fn push_same(text: &mut String, count: u32, piece: &str, end: &str) -> Result<(), AllocError> {
    for _ in 0..count {
        text.push_str(piece)?;
        text.push_str(end)?;
    }
    Ok(())
}

fn push_numbered(
    alloc: Global,
    text: &mut String,
    count: u32,
    before: &str,
    after: &str,
    end: &str,
) -> Result<(), AllocError> {
    for number in 0..count {
        text.push_str(&format!(in alloc; "{before}{number}{after}{end}")?)?;
    }
    Ok(())
}
