//! The page of faults: each command of `bcpl` that it shows after a text runs on that text, and has to report what is shown.
//!
//! A text that a script writes is not tried, nor is a command that is not of `bcpl` alone.
use bk_rows::outcome::{Outcome, outcome_of};
use std::alloc::{AllocError, Global};
use std::mem::replace;
use std::{fs, io};

/// The page, a file of the folder.
const PAGE: &str = "FAULTS.md";

/// What the lines of the page so far say.
#[derive(Drop)]
struct Page<'a> {
    /// The heading of the fault.
    heading: &'a str,
    /// The status that the heading gives, or else the part.
    status: u8,
    /// The status that the heading of the part gives.
    status_of_part: u8,
    /// The kind of the block that is open, if one is.
    open: Option<&'a str>,
    /// The lines of that block, or of the last one.
    block: String,
    /// The text after the heading, if one is there in full.
    text: Option<String>,
}

/// The number after `(status`, if a heading has one.
fn status_of(heading: &str) -> Option<u8> {
    let (_, following) = heading.split_once("(status ")?;
    let (number, _) = following.split_once(")")?;
    number.parse::<u8>().ok()
}

/// The words of a command, if it is of `bcpl` alone.
fn words_of(alloc: Global, command: &str) -> Result<Option<Vec<&str>>, AllocError> {
    let mut words = Vec::new(alloc);
    for word in command.split_whitespace() {
        if word == ">" {
            return Ok(None);
        }
        words.push(word)?;
    }
    let is_ours = command.starts_with("bcpl ");
    Ok(if is_ours { Some(words) } else { None })
}

/// What a command comes to on a text, if it is of `bcpl` alone.
fn outcome_on(alloc: Global, command: &str, text: &[u8]) -> Result<Option<Outcome>, AllocError> {
    let (command, file, input) = match command.split_once(" < ") {
        Some((command, _)) => (command, b"".as_slice(), text),
        None => (command, text, b"".as_slice()),
    };
    match words_of(alloc, command)? {
        Some(words) => Ok(Some(outcome_of(alloc, words.as_slice(), file, input)?)),
        None => Ok(None),
    }
}

/// Whether an outcome is this status and these lines, the end of the last one apart.
fn is_shown(outcome: Outcome, status: u8, lines: &str) -> Result<bool, AllocError> {
    let mut reported = outcome.output;
    reported.extend_from_slice(outcome.line.as_slice())?;
    if reported.last() != Some(&b'\n') {
        reported.push(b'\n')?;
    }
    Ok(outcome.status == status && reported.as_slice() == lines.as_bytes())
}

impl<'a> Page<'a> {
    /// No lines.
    fn new(alloc: Global) -> Page<'a> {
        Page {
            heading: "",
            status: 0,
            status_of_part: 0,
            open: None,
            block: String::new(alloc),
            text: None,
        }
    }

    /// Takes a line that is in no block.
    fn take_prose(&mut self, line: &'a str) {
        if let Some(part) = line.strip_prefix("## ") {
            self.status_of_part = status_of(part).unwrap_or(0);
        } else if let Some(heading) = line.strip_prefix("### ") {
            self.heading = heading;
            self.status = status_of(heading).unwrap_or(self.status_of_part);
            self.text = None;
        }
    }

    /// Whether the command of the block reports what follows it, where there is a text to try it on.
    fn try_command(&self, alloc: Global) -> Result<Option<bool>, AllocError> {
        let Some(text) = &self.text else {
            return Ok(None);
        };
        let Some((first, lines)) = self.block.as_str().split_once("\n") else {
            return Ok(None);
        };
        let Some(command) = first.strip_prefix("$ ") else {
            return Ok(None);
        };
        match outcome_on(alloc, command, text.as_bytes())? {
            Some(outcome) => Ok(Some(is_shown(outcome, self.status, lines)?)),
            None => Ok(None),
        }
    }

    /// Takes the end of a block.
    fn close(&mut self, alloc: Global, kind: &str) -> Result<Option<bool>, AllocError> {
        self.open = None;
        if kind == "console" {
            return self.try_command(alloc);
        }
        let block = replace(&mut self.block, String::new(alloc));
        self.text = if kind == "sh" { None } else { Some(block) };
        Ok(None)
    }

    /// Takes a line. Where it ends a block with a command that could be tried, it answers whether the command reported what is shown.
    fn take(&mut self, alloc: Global, line: &'a str) -> Result<Option<bool>, AllocError> {
        match (self.open, line.strip_prefix("```")) {
            (Some(kind), Some(_)) => self.close(alloc, kind),
            (Some(_), None) => {
                self.block.push_str(line)?;
                self.block.push_str("\n")?;
                Ok(None)
            }
            (None, Some(kind)) => {
                self.open = Some(kind);
                self.block = String::new(alloc);
                Ok(None)
            }
            (None, None) => {
                self.take_prose(line);
                Ok(None)
            }
        }
    }
}

/// Reports of each fault that could be tried whether its line is the one shown; returns whether all are.
pub fn tell_faults(rt: &HostRuntime) -> io::Result<bool> {
    let text = fs::read_to_string(rt, PAGE)?;
    let mut page = Page::new(rt.alloc());
    let mut all = true;
    for line in text.as_str().lines() {
        if let Some(shown) = page.take(rt.alloc(), line)? {
            let not = if shown { "" } else { "not " };
            println!(rt; "{}: {not}as shown", page.heading)?;
            all &= shown;
        }
    }
    Ok(all)
}
