//! The cases of a file. conformance/README.md has their format.
use crate::text::text_of;
use std::alloc::{AllocError, Global};
use std::mem::replace;

/// A case: the texts that are given, and what is wanted. What a case does not say is empty, and its status 0.
#[derive(Drop)]
pub struct Case {
    pub name: String,
    pub args: String,
    pub int: Vec<u8>,
    pub ocode: Vec<u8>,
    pub b: Vec<u8>,
    pub input: Vec<u8>,
    pub output: Vec<u8>,
    pub line: Vec<u8>,
    pub status: u8,
}

/// The cases that were read so far.
#[derive(Drop)]
struct Cases<'a> {
    cases: Vec<Case>,
    /// The name of the field that is read, empty where there is none.
    key: &'a str,
    /// The part of it so far, with escapes as they are.
    raw: String,
    is_block: bool,
    /// How many blank lines are after it.
    blanks: u32,
    /// How many lines are no line of a case.
    wrong: usize,
}

impl Case {
    fn new(alloc: Global, name: &str) -> Result<Case, AllocError> {
        Ok(Case {
            name: String::from_str(alloc, name)?,
            args: String::new(alloc),
            int: Vec::new(alloc),
            ocode: Vec::new(alloc),
            b: Vec::new(alloc),
            input: Vec::new(alloc),
            output: Vec::new(alloc),
            line: Vec::new(alloc),
            status: 0,
        })
    }

    /// Sets a field; answers whether there is such a field, and this is a value of it.
    fn set(&mut self, alloc: Global, key: &str, raw: &str) -> Result<bool, AllocError> {
        let Some(mut text) = text_of(alloc, raw)? else {
            return Ok(false);
        };
        match key {
            "args" => self.args.push_str(raw)?,
            "int" => self.int = text,
            "ocode" => self.ocode = text,
            "b" => self.b = text,
            "in" => self.input = text,
            "out" => self.output = text,
            "line" => {
                text.push(b'\n')?;
                self.line = text;
            }
            "status" => match raw.parse::<u8>() {
                Ok(status) => self.status = status,
                Err(_) => return Ok(false),
            },
            _ => return Ok(false),
        }
        Ok(true)
    }
}

impl<'a> Cases<'a> {
    /// Ends the field that is read.
    fn close(&mut self, alloc: Global) -> Result<(), AllocError> {
        let raw = replace(&mut self.raw, String::new(alloc));
        if !self.key.is_empty() {
            let is_set = match self.cases.last_mut() {
                Some(case) => case.set(alloc, self.key, raw.as_str())?,
                None => false,
            };
            if !is_set {
                self.wrong = self.wrong.saturating_add(1);
            }
        }
        self.key = "";
        self.blanks = 0;
        Ok(())
    }

    /// Takes a line of a block, without the blanks before it.
    fn take_block(&mut self, text: &str) -> Result<(), AllocError> {
        for _ in 0..self.blanks {
            self.raw.push('\n')?;
        }
        self.blanks = 0;
        self.raw.push_str(text)?;
        self.raw.push('\n')
    }

    /// Takes a line that begins a field: its name, a colon, and the rest.
    fn open(&mut self, alloc: Global, line: &'a str) -> Result<(), AllocError> {
        let Some((key, rest)) = line.split_once(":") else {
            self.wrong = self.wrong.saturating_add(1);
            return Ok(());
        };
        let text = rest.strip_prefix(" ");
        if let ("case", Some(name)) = (key, text) {
            self.cases.push(Case::new(alloc, name)?)?;
            return Ok(());
        }
        self.key = key;
        self.is_block = rest.is_empty();
        if let Some(text) = text {
            self.raw.push_str(text)?;
        }
        Ok(())
    }

    /// Takes the next line.
    fn take(&mut self, alloc: Global, line: &'a str) -> Result<(), AllocError> {
        if line.is_empty() {
            self.blanks = self.blanks.saturating_add(1);
            return Ok(());
        }
        if self.is_block && !self.key.is_empty() {
            if let Some(text) = line.strip_prefix("    ") {
                return self.take_block(text);
            }
        }
        self.close(alloc)?;
        if line.starts_with("#") {
            return Ok(());
        }
        self.open(alloc, line)
    }
}

/// The cases of a file, or `None` where it is not of the format.
pub fn cases_of(alloc: Global, file: &str) -> Result<Option<Vec<Case>>, AllocError> {
    let mut read = Cases {
        cases: Vec::new(alloc),
        key: "",
        raw: String::new(alloc),
        is_block: false,
        blanks: 0,
        wrong: 0,
    };
    for line in file.lines() {
        read.take(alloc, line)?;
    }
    read.close(alloc)?;
    Ok(if read.wrong == 0 {
        Some(read.cases)
    } else {
        None
    })
}
