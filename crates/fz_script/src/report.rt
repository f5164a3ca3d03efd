//! What comes of the cases of a file.
use crate::answer::Answer;
use crate::case::Case;
use std::alloc::{AllocError, Global};

/// How many calls of a file were made, and what differs.
#[derive(Drop)]
pub struct Report<'a> {
    alloc: Global,
    name: &'a str,
    line: u64,
    calls: u64,
    differing: u64,
    faults: String,
}

impl<'a> Report<'a> {
    /// Nothing of a file of this name was run yet.
    pub fn new(alloc: Global, name: &'a str) -> Report<'a> {
        Report {
            alloc,
            name,
            line: 0,
            calls: 0,
            differing: 0,
            faults: String::new(alloc),
        }
    }

    /// What differs, and how many calls were made.
    pub fn text(&self) -> Result<String, AllocError> {
        format!(in self.alloc;
            "{}{}: {} calls, {} differ\n",
            self.faults, self.name, self.calls, self.differing
        )
    }

    /// The cases of a file's text. A line that is none of a case is told.
    pub fn cases<'t>(&mut self, text: &'t str) -> Result<Vec<Case<'t>>, AllocError> {
        let mut cases = Vec::new(self.alloc);
        let mut case = Case::new(self.alloc);
        for line in text.split('\n') {
            self.line = self.line.saturating_add(1);
            if line.is_empty() {
                case.end = self.line;
                cases.push(case)?;
                case = Case::new(self.alloc);
            } else if !line.starts_with('#') && !case.read(line)? {
                self.tell(line, "no line of a case")?;
            }
        }
        case.end = self.line;
        cases.push(case)?;
        Ok(cases)
    }

    /// A case without a call is told.
    pub fn begin(&mut self, case: &Case) -> Result<(), AllocError> {
        self.line = case.end;
        if case.has_lines && case.calls.is_empty() {
            return self.tell("", "no call");
        }
        Ok(())
    }

    /// What a call answered is told where it isn't what the case wants; none where it is no call.
    pub fn compare(
        &mut self,
        case: &Case,
        call: &str,
        answer: Option<Answer>,
    ) -> Result<(), AllocError> {
        self.calls = self.calls.saturating_add(1);
        match answer {
            Some(answer) if answer.is_wanted(self.alloc, case)? => Ok(()),
            Some(answer) => self.tell_answer(call, &answer),
            None => self.tell(call, "no call"),
        }
    }

    /// Says what is wrong, and up to which line it was read.
    fn tell(&mut self, line: &str, fault: &str) -> Result<(), AllocError> {
        self.differing = self.differing.saturating_add(1);
        let told = format!(in self.alloc;
            "{}, before line {}: {line}: {fault}\n",
            self.name, self.line
        )?;
        self.faults.push_str(&told)
    }

    fn tell_answer(&mut self, call: &str, answer: &Answer) -> Result<(), AllocError> {
        let shown = answer.printed.len().min(1000);
        let printed = String::from_utf8_lossy(self.alloc, &answer.printed[..shown])?;
        let sound = if answer.is_sound { "" } else { ", not sound" };
        let said = answer.said.as_deref().unwrap_or("nothing");
        let fault = format!(in self.alloc;
            "status {}{sound}, said is {said}, and printed:\n{printed}",
            answer.status
        )?;
        self.tell(call, &fault)
    }
}
