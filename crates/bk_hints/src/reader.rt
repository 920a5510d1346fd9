//! A reader of symbols that makes no tree: it knows which symbols begin a section, as the parser does, and is copied cheaply.

use bk_grammar::spelling::{same_tag, tag};
use bk_grammar::symbols::{goes_on, infix, inner_row, prefix, repeats, row_after, starts_command};
use bk_lex::Kind;
use std::alloc::{AllocError, Global};

/// The rows of operators that an expression may have which nothing bounds.
const ALL_ROWS: u8 = 12;

/// The rows of the operand of `!`, `%` or `@`.
const CELL_ROWS: u8 = 2;

/// A construct that is begun and not complete, by the part of it that is read.
#[derive(Clone, Copy, Debug, PartialEq, Eq)]
pub enum Part {
    /// A block: whether a command may come, and whether a declaration may.
    Block(bool, bool),
    /// A LET or AND; whether it is in a block.
    Let(bool),
    /// After the name of a definition; whether it is in a block.
    Named(bool),
    /// After the `(` of a procedure, after a `,` between formals, after a formal, and after the `)`.
    Formals,
    Formal,
    FormalEnd,
    Headed,
    /// After a `,` between so many variables of a LET, after the last of so many, and where so many values are due.
    Variable(usize),
    VariableEnd(usize),
    Values(usize),
    /// After MANIFEST, STATIC or GLOBAL.
    Opening(Kind),
    /// Between its items, whether there is one; after the name of an item, and in its constant.
    Items(Kind, bool),
    Signed(Kind),
    Item(Kind),
    /// After GOTO, FOR, the variable of a FOR, and DEFAULT.
    Goto,
    For,
    Forward,
    DefaultSign,
    /// In parentheses, and in an operand of operators up to this row.
    Parens,
    Operand(u8),
    /// In the two values of a choice.
    Then,
    Else,
    /// In the arguments of a call, whether there is one; in a TABLE.
    Arguments(bool),
    Table,
    /// In the first expression of a command, in that after so many destinations, and where so many values are due.
    Start,
    Destinations(usize),
    Assigned(usize),
    /// In the expression after IF, CASE and so on, which this symbol ends.
    Guard(Kind),
    Test,
    ResultIs,
    RepeatWhile,
    /// In the start, the limit and the step of a FOR.
    From,
    To,
    By,
    /// In the value of a function, and in one of a LET where so many are due.
    Function,
    Value(usize),
    /// In a command of VALOF, after a label, IF or CASE, the two of TEST, of a FOR and of a routine.
    Valof,
    Labelled,
    Yes,
    No,
    Body,
    Routine,
}

/// What an expression is, as far as a command may begin with it.
#[derive(Clone, Copy, Debug, PartialEq, Eq)]
pub enum Shape {
    Name,
    Call,
    /// What has an address besides names.
    Cell,
    Other,
}

/// What is due.
#[derive(Clone, Copy, Debug, PartialEq, Eq)]
pub enum State {
    /// An operand.
    Want,
    /// Anything that an expression goes on with, or that comes after it.
    Have(Shape),
    /// A command.
    Begin,
    /// A command, or what comes after none.
    Maybe,
    /// Anything that a command goes on with, or that comes after it.
    Did,
    /// A symbol, as the innermost construct says.
    Due,
}

/// What became of a symbol.
#[derive(Clone, Copy, Debug, PartialEq, Eq)]
enum Flow {
    Taken,
    /// It comes after the construct that is complete now.
    Comes,
    Refused,
}

/// What was read of a section.
#[derive(Drop)]
pub struct Reader<'a> {
    alloc: Global,
    /// What is begun and not complete, outermost first.
    parts: Vec<Part>,
    /// The tags of the sections that are open, outermost first.
    tags: Vec<&'a [u8]>,
    pub state: State,
    /// Whether what has no address is refused as a destination, as no parser does.
    pub strict: bool,
}

impl<'a> Reader<'a> {
    /// Nothing was read.
    pub fn new(alloc: Global) -> Reader<'a> {
        Reader {
            alloc,
            parts: Vec::new(alloc),
            tags: Vec::new(alloc),
            state: State::Due,
            strict: false,
        }
    }

    /// The same.
    pub fn copy(&self) -> Result<Reader<'a>, AllocError> {
        let mut parts = Vec::new(self.alloc);
        parts.extend_from_slice(self.parts.as_slice())?;
        let mut tags = Vec::new(self.alloc);
        for tag in &self.tags {
            tags.push(*tag)?;
        }
        Ok(Reader {
            alloc: self.alloc,
            parts,
            tags,
            state: self.state,
            strict: self.strict,
        })
    }

    /// The innermost construct, if there is one.
    pub fn top(&self) -> Option<Part> {
        self.parts.last().copied()
    }

    /// Whether such a construct is begun in this command or definition.
    pub fn is_in(&self, wanted: Part) -> bool {
        for part in self.parts.iter().rev() {
            if *part == wanted {
                return true;
            }
            if !is_of_expression(*part) {
                return false;
            }
        }
        false
    }

    /// Whether an operand of an operator is due.
    pub fn is_operand(&self) -> bool {
        self.state == State::Want && matches!(self.top(), Some(Part::Operand(_)))
    }

    /// The innermost construct that is more than an operand.
    pub fn around(&self) -> Option<Part> {
        self.parts.iter().rev().copied().find(|part| !matches!(
            *part,
            Part::Operand(_) | Part::Else | Part::Parens
        ))
    }

    /// Reads a symbol with this spelling, which is empty if it is not in the text; whether a section begins so.
    pub fn read(&mut self, kind: Kind, text: &'a [u8]) -> Result<bool, AllocError> {
        match kind {
            Kind::SectionOpen => {
                self.tags.push(tag(text))?;
                self.take(kind)
            }
            Kind::SectionClose => self.close(text),
            _ => self.take(kind),
        }
    }

    /// Whether a section ends here.
    pub fn end(&mut self) -> Result<bool, AllocError> {
        Ok(self.take(Kind::Semicolon)? && self.parts.is_empty() && self.state == State::Due)
    }

    /// Reads a `$)`, which closes up to the innermost section of its tag.
    fn close(&mut self, text: &'a [u8]) -> Result<bool, AllocError> {
        let wanted = tag(text);
        for _ in 0..self.tags.len() {
            let open = self.tags.pop().unwrap_or(&[]);
            if !self.take(Kind::SectionClose)? {
                return Ok(false);
            }
            if text.is_empty() || same_tag(wanted, open) {
                return Ok(true);
            }
            if wanted.is_empty() {
                return Ok(false);
            }
        }
        Ok(false)
    }

    /// Takes a symbol.
    fn take(&mut self, kind: Kind) -> Result<bool, AllocError> {
        for _ in 0..self.parts.len().saturating_add(2) {
            match self.step(kind)? {
                Flow::Taken => return Ok(true),
                Flow::Refused => return Ok(false),
                Flow::Comes => {}
            }
        }
        Ok(false)
    }

    /// Takes a symbol, or completes what it comes after.
    fn step(&mut self, kind: Kind) -> Result<Flow, AllocError> {
        match self.state {
            State::Want => self.operand(kind),
            State::Begin => self.command(kind),
            State::Maybe if starts_command(kind) => self.command(kind),
            State::Maybe => Ok(self.without()),
            State::Due => self.due(kind),
            State::Have(shape) => self.after_expression(shape, kind),
            State::Did => self.after_command(kind),
        }
    }

    /// The symbol is taken, and this is due.
    fn go(&mut self, state: State) -> Flow {
        self.state = state;
        Flow::Taken
    }

    /// The symbol begins this construct.
    fn begin(&mut self, part: Part, state: State) -> Result<Flow, AllocError> {
        self.parts.push(part)?;
        Ok(self.go(state))
    }

    /// The symbol goes on with the innermost construct.
    fn become_part(&mut self, part: Part, state: State) -> Result<Flow, AllocError> {
        let _before = self.parts.pop();
        self.begin(part, state)
    }

    /// The same, where the symbol is of this kind.
    fn become_at(
        &mut self,
        kind: Kind,
        wanted: Kind,
        part: Part,
        state: State,
    ) -> Result<Flow, AllocError> {
        if kind == wanted {
            self.become_part(part, state)
        } else {
            Ok(Flow::Refused)
        }
    }

    /// The innermost construct is complete, and the symbol ends it.
    fn ends(&mut self, state: State) -> Flow {
        let _before = self.parts.pop();
        self.go(state)
    }

    /// The innermost construct is complete, and the symbol comes after it.
    fn complete(&mut self, state: State) -> Flow {
        let _before = self.parts.pop();
        self.state = state;
        Flow::Comes
    }

    /// Whether a `,` is owed after the expression, so that no TABLE may end it.
    fn owes_comma(&self) -> bool {
        for part in self.parts.iter().rev() {
            match *part {
                Part::Then => return true,
                Part::Operand(_) | Part::Else => {}
                Part::Assigned(due) | Part::Value(due) => return due > 1,
                _ => return false,
            }
        }
        false
    }

    /// An operand is due.
    fn operand(&mut self, kind: Kind) -> Result<Flow, AllocError> {
        match kind {
            Kind::Open => self.begin(Part::Parens, State::Want),
            Kind::Close if self.top() == Some(Part::Arguments(false)) => Ok(self.ends(State::Have(
                Shape::Call,
            ))),
            Kind::Valof => self.begin(Part::Valof, State::Begin),
            Kind::Table if !self.owes_comma() => self.begin(Part::Table, State::Want),
            Kind::Name => Ok(self.go(State::Have(Shape::Name))),
            Kind::Number | Kind::Text | Kind::Character | Kind::True | Kind::False | Kind::Query =>
                Ok(self.go(State::Have(Shape::Other))),
            _ => match prefix(kind) {
                Some(operator) => self.begin(Part::Operand(row_after(operator)), State::Want),
                None => Ok(Flow::Refused),
            },
        }
    }

    /// A command is due.
    fn command(&mut self, kind: Kind) -> Result<Flow, AllocError> {
        match kind {
            Kind::Goto => self.begin(Part::Goto, State::Due),
            Kind::Test => self.begin(Part::Test, State::Want),
            Kind::For => self.begin(Part::For, State::Due),
            Kind::ResultIs => self.begin(Part::ResultIs, State::Want),
            Kind::Default => self.begin(Part::DefaultSign, State::Due),
            Kind::SectionOpen => self.begin(Part::Block(true, true), State::Due),
            Kind::Break | Kind::Loop | Kind::EndCase | Kind::Return | Kind::Finish => Ok(self.go(
                State::Did,
            )),
            Kind::If | Kind::Unless | Kind::While | Kind::Until => self.begin(
                Part::Guard(Kind::Do),
                State::Want,
            ),
            Kind::SwitchOn => self.begin(Part::Guard(Kind::Into), State::Want),
            Kind::Case => self.begin(Part::Guard(Kind::Colon), State::Want),
            _ => {
                self.parts.push(Part::Start)?;
                self.operand(kind)
            }
        }
    }

    /// No command comes after a label, CASE or DEFAULT.
    fn without(&mut self) -> Flow {
        match self.top() {
            Some(Part::Labelled) => self.complete(State::Did),
            _ => Flow::Refused,
        }
    }

    /// A symbol is due.
    fn due(&mut self, kind: Kind) -> Result<Flow, AllocError> {
        let Some(part) = self.top() else {
            return self.between(kind, false);
        };
        match part {
            Part::Block(free, heads) => self.in_block(free, heads, kind),
            Part::Let(inside) if kind == Kind::Name => self.begin(Part::Named(inside), State::Due),
            Part::Named(_) if kind == Kind::Open => self.become_part(Part::Formals, State::Due),
            Part::Named(true) => self.names(1, kind),
            Part::Formals if kind == Kind::Close => self.become_part(Part::Headed, State::Due),
            Part::Formals | Part::Formal => self.become_at(
                kind,
                Kind::Name,
                Part::FormalEnd,
                State::Due,
            ),
            Part::FormalEnd if kind == Kind::Comma => self.become_part(Part::Formal, State::Due),
            Part::FormalEnd => self.become_at(kind, Kind::Close, Part::Headed, State::Due),
            Part::Headed if kind == Kind::Be => self.become_part(Part::Routine, State::Begin),
            Part::Headed => self.become_at(kind, Kind::Equal, Part::Function, State::Want),
            Part::Variable(count) => self.become_at(
                kind,
                Kind::Name,
                Part::VariableEnd(count.saturating_add(1)),
                State::Due,
            ),
            Part::VariableEnd(count) => self.names(count, kind),
            Part::Values(count) => self.value(count, kind),
            _ => self.due_at(part, kind),
        }
    }

    /// A symbol is due in a list of items or in a command.
    fn due_at(&mut self, part: Part, kind: Kind) -> Result<Flow, AllocError> {
        match part {
            Part::Opening(sort) => self.become_at(
                kind,
                Kind::SectionOpen,
                Part::Items(sort, false),
                State::Due,
            ),
            Part::Items(_, true) if kind == Kind::Semicolon => Ok(Flow::Taken),
            Part::Items(_, true) if kind == Kind::SectionClose => self.declared(),
            Part::Items(sort, _) if kind == Kind::Name => self.begin(
                Part::Signed(sort),
                State::Due,
            ),
            Part::Signed(sort) if matches!(kind, Kind::Equal | Kind::Colon) => self.become_part(
                Part::Item(sort),
                State::Want,
            ),
            Part::Goto if kind == Kind::Name => Ok(self.ends(State::Did)),
            Part::For => self.become_at(kind, Kind::Name, Part::Forward, State::Due),
            Part::Forward => self.become_at(kind, Kind::Equal, Part::From, State::Want),
            Part::DefaultSign => self.become_at(kind, Kind::Colon, Part::Labelled, State::Maybe),
            _ => Ok(Flow::Refused),
        }
    }

    /// A symbol between declarations, which are in a block or not.
    fn between(&mut self, kind: Kind, inside: bool) -> Result<Flow, AllocError> {
        match kind {
            Kind::Semicolon if !inside => Ok(Flow::Taken),
            Kind::Let => self.begin(Part::Let(inside), State::Due),
            Kind::Manifest | Kind::Static | Kind::Global => self.begin(
                Part::Opening(kind),
                State::Due,
            ),
            _ => Ok(Flow::Refused),
        }
    }

    /// A symbol in a block, where no command goes on.
    fn in_block(&mut self, free: bool, heads: bool, kind: Kind) -> Result<Flow, AllocError> {
        match kind {
            Kind::Semicolon => self.become_part(Part::Block(true, heads), State::Due),
            Kind::SectionClose => Ok(self.ends(State::Did)),
            Kind::Let | Kind::Manifest | Kind::Static | Kind::Global if heads => {
                self.between(kind, true)
            }
            _ if free => self.command(kind),
            _ => Ok(Flow::Refused),
        }
    }

    /// After so many names of a LET.
    fn names(&mut self, count: usize, kind: Kind) -> Result<Flow, AllocError> {
        match kind {
            Kind::Comma => self.become_part(Part::Variable(count), State::Due),
            _ => self.become_at(kind, Kind::Equal, Part::Values(count), State::Due),
        }
    }

    /// A value of a LET is due, of so many.
    fn value(&mut self, count: usize, kind: Kind) -> Result<Flow, AllocError> {
        let flow = self.become_part(Part::Value(count), State::Want)?;
        if kind == Kind::Vec {
            return Ok(flow);
        }
        self.operand(kind)
    }

    /// A list of items is complete, which the symbol ends.
    fn declared(&mut self) -> Result<Flow, AllocError> {
        let _list = self.parts.pop();
        self.bind_block()?;
        Ok(self.go(State::Due))
    }

    /// After a declaration a command of the block needs a `;`.
    fn bind_block(&mut self) -> Result<(), AllocError> {
        if let Some(Part::Block(_, heads)) = self.top() {
            let _before = self.parts.pop();
            self.parts.push(Part::Block(false, heads))?;
        }
        Ok(())
    }

    /// A definition is complete.
    fn after_definition(&mut self, kind: Kind) -> Result<Flow, AllocError> {
        let _definition = self.parts.pop();
        if kind == Kind::And {
            return Ok(self.go(State::Due));
        }
        let _list = self.parts.pop();
        self.bind_block()?;
        self.state = State::Due;
        Ok(Flow::Comes)
    }

    /// An expression is complete so far.
    fn after_expression(&mut self, shape: Shape, kind: Kind) -> Result<Flow, AllocError> {
        let Some(part) = self.top() else {
            return Ok(Flow::Refused);
        };
        let rows = match part {
            Part::Operand(rows) => rows,
            _ => ALL_ROWS,
        };
        if goes_on(rows, kind) {
            return match infix(kind) {
                Some(operator) => self.begin(Part::Operand(inner_row(operator)), State::Want),
                None if kind == Kind::Open => self.begin(Part::Arguments(false), State::Want),
                None => self.begin(Part::Then, State::Want),
            };
        }
        if is_of_expression(part) {
            return self.in_expression(part, kind);
        }
        match part {
            Part::Start | Part::Destinations(_) | Part::Assigned(_) => {
                self.in_assignment(part, shape, kind)
            }
            Part::Item(_) | Part::Function | Part::Value(_) => self.in_definition(part, kind),
            _ => self.in_phrase(part, kind),
        }
    }

    /// An expression in another is complete.
    fn in_expression(&mut self, part: Part, kind: Kind) -> Result<Flow, AllocError> {
        match (part, kind) {
            (Part::Parens, Kind::Close) => Ok(self.ends(State::Have(Shape::Other))),
            (Part::Operand(rows), _) if rows <= CELL_ROWS => Ok(self.complete(State::Have(
                Shape::Cell,
            ))),
            (Part::Operand(_) | Part::Else, _) => Ok(self.complete(State::Have(Shape::Other))),
            (Part::Then, Kind::Comma) => self.become_part(Part::Else, State::Want),
            (Part::Arguments(_), Kind::Comma) => self.become_part(
                Part::Arguments(true),
                State::Want,
            ),
            (Part::Arguments(_), Kind::Close) => Ok(self.ends(State::Have(Shape::Call))),
            (Part::Table, Kind::Comma) => Ok(self.go(State::Want)),
            (Part::Table, _) => Ok(self.complete(State::Have(Shape::Other))),
            _ => Ok(Flow::Refused),
        }
    }

    /// An expression that a command begins with, or a value that it assigns, is complete.
    fn in_assignment(&mut self, part: Part, shape: Shape, kind: Kind) -> Result<Flow, AllocError> {
        match (part, kind) {
            (Part::Assigned(due), _) if due <= 1 => Ok(self.complete(State::Did)),
            (Part::Assigned(due), Kind::Comma) => self.become_part(
                Part::Assigned(due.saturating_sub(1)),
                State::Want,
            ),
            (Part::Start | Part::Destinations(_), Kind::Comma | Kind::Assign)
                if self.strict && !matches!(shape, Shape::Name | Shape::Cell) => Ok(Flow::Refused),
            (Part::Start, Kind::Comma) => self.become_part(Part::Destinations(1), State::Want),
            (Part::Start, Kind::Assign) => self.become_part(Part::Assigned(1), State::Want),
            (Part::Destinations(count), Kind::Comma) => self.become_part(
                Part::Destinations(count.saturating_add(1)),
                State::Want,
            ),
            (Part::Destinations(count), Kind::Assign) => self.become_part(
                Part::Assigned(count.saturating_add(1)),
                State::Want,
            ),
            (Part::Start, _) if shape == Shape::Call => Ok(self.complete(State::Did)),
            (Part::Start, Kind::Colon) if shape == Shape::Name => self.become_part(
                Part::Labelled,
                State::Maybe,
            ),
            _ => Ok(Flow::Refused),
        }
    }

    /// An expression of an item or a definition is complete.
    fn in_definition(&mut self, part: Part, kind: Kind) -> Result<Flow, AllocError> {
        match (part, kind) {
            (Part::Item(sort), Kind::Semicolon) => {
                let _item = self.parts.pop();
                self.become_part(Part::Items(sort, true), State::Due)
            }
            (Part::Item(_), Kind::SectionClose) => {
                let _item = self.parts.pop();
                self.declared()
            }
            (Part::Function, _) => self.after_definition(kind),
            (Part::Value(due), _) if due <= 1 => self.after_definition(kind),
            (Part::Value(due), Kind::Comma) => self.become_part(
                Part::Values(due.saturating_sub(1)),
                State::Due,
            ),
            _ => Ok(Flow::Refused),
        }
    }

    /// An expression after a word of a command is complete.
    fn in_phrase(&mut self, part: Part, kind: Kind) -> Result<Flow, AllocError> {
        match (part, kind) {
            (Part::Guard(Kind::Colon), Kind::Colon) => self.become_part(
                Part::Labelled,
                State::Maybe,
            ),
            (Part::Guard(sign), _) => self.become_at(kind, sign, Part::Body, State::Begin),
            (Part::Test, Kind::Do) => self.become_part(Part::Yes, State::Begin),
            (Part::ResultIs | Part::RepeatWhile, _) => Ok(self.complete(State::Did)),
            (Part::From, Kind::To) => self.become_part(Part::To, State::Want),
            (Part::To, Kind::By) => self.become_part(Part::By, State::Want),
            (Part::To | Part::By, Kind::Do) => self.become_part(Part::Body, State::Begin),
            _ => Ok(Flow::Refused),
        }
    }

    /// A command is complete so far.
    fn after_command(&mut self, kind: Kind) -> Result<Flow, AllocError> {
        if kind == Kind::Repeat {
            return Ok(Flow::Taken);
        }
        if repeats(kind) {
            return self.begin(Part::RepeatWhile, State::Want);
        }
        match self.top() {
            Some(Part::Valof) => Ok(self.complete(State::Have(Shape::Other))),
            Some(Part::Labelled | Part::No | Part::Body) => Ok(self.complete(State::Did)),
            Some(Part::Yes) => self.become_at(kind, Kind::Or, Part::No, State::Begin),
            Some(Part::Routine) => self.after_definition(kind),
            Some(Part::Block(_, _)) if kind == Kind::Semicolon => self.become_part(
                Part::Block(true, false),
                State::Due,
            ),
            Some(Part::Block(_, _)) if kind == Kind::SectionClose => Ok(self.ends(State::Did)),
            _ => Ok(Flow::Refused),
        }
    }
}

/// Whether it is a part of an expression.
fn is_of_expression(part: Part) -> bool {
    matches!(
        part,
        Part::Parens | Part::Operand(_) | Part::Then | Part::Else | Part::Arguments(_) | Part::Table
    )
}
