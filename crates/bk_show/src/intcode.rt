//! The items of INTCODE of a section, each with what it does.

use crate::follow::{Follow, string_of};
use crate::instruction::{Instruction, put_instruction, say_instruction};
use crate::origin::Origin;
use crate::spelling::put_string;
use crate::text::Text;
use bk_machine::{Function, Intcode, Item, Operand};
use bk_ocode::Stmt;
use bk_source_map::Mark;
use std::alloc::{AllocError, Global};

/// The column of what an item does.
const MEANING: usize = 24;

/// Items that are put.
#[derive(Drop)]
struct Walk<'s> {
    text: Text,
    follow: Follow<'s>,
    /// Whether the line of bytes is not ended.
    in_bytes: bool,
}

impl<'s> Walk<'s> {
    /// Ends a line of bytes.
    fn end_bytes(&mut self) -> Result<(), AllocError> {
        if self.in_bytes {
            self.in_bytes = false;
            self.text.end()?;
        }
        Ok(())
    }

    /// Adds a byte, which has a line with those before it.
    fn byte(&mut self, byte: u8) -> Result<(), AllocError> {
        if self.in_bytes {
            self.text.say(" ")?;
        } else {
            self.in_bytes = true;
            let line = self.follow.line();
            self.text.begin_at(line)?;
        }
        self.text.say("C")?;
        self.text.natural(u32::from(byte))
    }

    /// Adds what a label is for, after a comma.
    fn say_label(&mut self, label: u32) -> Result<(), AllocError> {
        let origin = self.follow.origin();
        match string_of(label, origin.stmts().len()) {
            Some(stmt) => match origin.stmts().get(stmt) {
                Some(Stmt::Text { bytes }) => {
                    self.text.say(", ")?;
                    put_string(&mut self.text, bytes.as_bytes())
                }
                _ => Ok(()),
            },
            None => origin.say_label(&mut self.text, label),
        }
    }

    /// Adds the line of a label that is set.
    fn label(&mut self, label: u32) -> Result<(), AllocError> {
        self.follow.set(label);
        let line = self.follow.line();
        self.text.begin_at(line)?;
        self.text.natural(label)?;
        self.text.go_to(MEANING)?;
        self.text.say("label ")?;
        self.text.natural(label)?;
        self.say_label(label)?;
        self.text.end()
    }

    /// Adds what an operand is called in the source, after a comma.
    fn say_operand(&mut self, operand: Operand) -> Result<(), AllocError> {
        match operand {
            Operand::Number(_) => Ok(()),
            Operand::Local(number) => match u32::try_from(number) {
                Ok(slot) => self.say_slot(slot),
                Err(_) => Ok(()),
            },
            Operand::Global(number) => match u32::try_from(number) {
                Ok(number) => self.say_global(number),
                Err(_) => Ok(()),
            },
            Operand::Label(label) => self.say_label(label),
        }
    }

    /// Adds the name of a word of the frame, after a comma.
    fn say_slot(&mut self, slot: u32) -> Result<(), AllocError> {
        let frame = self.follow.frame();
        if frame.word(slot).is_none() {
            return Ok(());
        }
        self.text.say(", ")?;
        let _named = frame.say_word(&mut self.text, self.follow.origin(), slot)?;
        Ok(())
    }

    /// Adds the name of a global, after a comma.
    fn say_global(&mut self, number: u32) -> Result<(), AllocError> {
        match self.follow.origin().global_name(number) {
            Some(name) => {
                self.text.say(", ")?;
                self.text.name(name)
            }
            None => Ok(()),
        }
    }

    /// Adds the line of an instruction.
    fn instruction(&mut self, instruction: Instruction) -> Result<(), AllocError> {
        let line = self.follow.line();
        self.text.begin_at(line)?;
        put_instruction(&mut self.text, instruction)?;
        self.text.go_to(MEANING)?;
        say_instruction(&mut self.text, instruction)?;
        if instruction.function != Function::Call {
            self.say_operand(instruction.operand)?;
        }
        self.text.end()
    }

    /// Adds the line of a word.
    fn word(&mut self, word: i32) -> Result<(), AllocError> {
        let line = self.follow.line();
        self.text.begin_at(line)?;
        self.text.say("D")?;
        self.text.integer(word)?;
        self.text.go_to(MEANING)?;
        self.text.say("a word")?;
        self.text.end()
    }

    /// Adds the line of a word with a label.
    fn label_word(&mut self, label: u32) -> Result<(), AllocError> {
        let line = self.follow.line();
        self.text.begin_at(line)?;
        self.text.say("DL")?;
        self.text.natural(label)?;
        self.text.go_to(MEANING)?;
        self.text.say("a word: the address of label ")?;
        self.text.natural(label)?;
        self.say_label(label)?;
        self.text.end()
    }

    /// Adds the line of a global, which is that of the procedure that it holds.
    fn global(&mut self, number: u32, label: u32) -> Result<(), AllocError> {
        let line = self.follow.origin().line_of_label(label);
        self.text.begin_at(line)?;
        self.text.say("G")?;
        self.text.natural(number)?;
        self.text.say("L")?;
        self.text.natural(label)?;
        self.text.go_to(MEANING)?;
        self.text.say("global ")?;
        self.text.natural(number)?;
        self.text.say(" holds the address of label ")?;
        self.text.natural(label)?;
        self.say_label(label)?;
        self.text.end()
    }

    /// Adds the line of the largest frame.
    fn frame(&mut self, words: u32) -> Result<(), AllocError> {
        self.text.begin_without()?;
        self.text.say("Q")?;
        self.text.natural(words)?;
        self.text.go_to(MEANING)?;
        self.text.say("the largest frame has ")?;
        self.text.natural(words)?;
        self.text.say(" words or fewer")?;
        self.text.end()
    }

    /// Adds the line of the end.
    fn end(&mut self) -> Result<(), AllocError> {
        self.text.begin_without()?;
        self.text.say("Z")?;
        self.text.go_to(MEANING)?;
        self.text.say("the end of the segment")?;
        self.text.end()
    }

    /// Adds an item that is no byte.
    fn item(&mut self, item: Item) -> Result<(), AllocError> {
        self.end_bytes()?;
        match item {
            Item::Instruction {
                function,
                indirect,
                operand,
            } => self.instruction(Instruction {
                function,
                indirect,
                operand,
            }),
            Item::SetLabel(label) => self.label(label),
            Item::Byte(_) => Ok(()),
            Item::Word(word) => self.word(word),
            Item::LabelWord(label) => self.label_word(label),
            Item::SetGlobal { number, label } => self.global(number, label),
            Item::Frame(words) => self.frame(words),
            Item::End => self.end(),
        }
    }
}

/// A line for each item, with the line of its statement; the bytes of a string have one line. The largest frame and the end are of no
/// line of the source. `ends` says how many items there are up to the end of each statement.
pub fn intcode_text<'s>(
    alloc: Global,
    segment: &Intcode,
    ends: &'s [usize],
    origin: &'s Origin<'s>,
    marks: &'s [Mark],
) -> Result<Text, AllocError> {
    let mut walk = Walk {
        text: Text::new(alloc),
        follow: Follow::of(alloc, origin, ends, marks),
        in_bytes: false,
    };
    walk.text.say("  line  item            what it does")?;
    walk.text.end()?;
    for (number, item) in segment.items().iter().enumerate() {
        walk.follow.reach(number)?;
        match item {
            Item::Byte(byte) => walk.byte(*byte)?,
            other => walk.item(*other)?,
        }
    }
    let Walk { text, .. } = walk;
    Ok(text)
}
