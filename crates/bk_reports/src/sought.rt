//! What is sought in the bodies of procedures, and what is found.

use crate::remarks::number;
use bk_check::acts_at;
use bk_objects::Worth;
use bk_tree::{Command, Expr, Init, Name, Operator, Position, Prefix};
use std::mem::replace;

/// What the source makes an object by.
#[derive(Clone, Copy)]
pub enum Kind {
    /// A variable of a LET or of a FOR.
    Variable,
    /// A VEC.
    Vector,
    /// The formals of a procedure.
    Formals,
}

/// Up to four names, each once.
#[derive(Clone, Copy)]
pub struct Few<'a> {
    first: Option<&'a [u8]>,
    second: Option<&'a [u8]>,
    third: Option<&'a [u8]>,
    fourth: Option<&'a [u8]>,
}

impl<'a> Few<'a> {
    /// None.
    pub fn none() -> Few<'a> {
        Few {
            first: None,
            second: None,
            third: None,
            fourth: None,
        }
    }

    /// They, in the order in which they came.
    pub fn each(&self) -> [Option<&'a [u8]>; 4] {
        [self.first, self.second, self.third, self.fourth]
    }

    /// Whether a name is one of them.
    pub fn has(&self, name: &[u8]) -> bool {
        self.each().contains(&Some(name))
    }

    /// Adds a name where there is room for it.
    pub fn add(&mut self, name: &'a [u8]) {
        if self.has(name) {
            return;
        }
        if self.first.is_none() {
            self.first = Some(name);
        } else if self.second.is_none() {
            self.second = Some(name);
        } else if self.third.is_none() {
            self.third = Some(name);
        } else if self.fourth.is_none() {
            self.fourth = Some(name);
        }
    }
}

/// The line where a variable is set, and what it is set to there.
#[derive(Clone, Copy)]
pub struct Setter<'a> {
    pub line: u32,
    pub value: &'a Expr,
}

/// A line, and the number of a byte.
#[derive(Clone, Copy)]
pub struct Place {
    pub line: u32,
    pub byte: u32,
}

/// The place of a position.
pub fn place_of(at: Position) -> Place {
    Place {
        line: at.line().number(),
        byte: at.bytes(),
    }
}

/// The first places where a variable is set, and how many there are.
#[derive(Clone, Copy)]
pub struct Setters<'a> {
    pub count: usize,
    pub first: Option<Setter<'a>>,
    pub second: Option<Setter<'a>>,
}

impl<'a> Setters<'a> {
    /// None.
    pub fn none() -> Setters<'a> {
        Setters {
            count: 0,
            first: None,
            second: None,
        }
    }

    /// Whether one of the first two is on a line.
    fn has_line(&self, line: u32) -> bool {
        match (self.first, self.second) {
            (Some(first), Some(second)) => first.line == line || second.line == line,
            (Some(first), None) => first.line == line,
            _ => false,
        }
    }

    /// Adds one.
    pub fn add(&mut self, setter: Setter<'a>) {
        self.count = self.count.saturating_add(1);
        if self.first.is_none() {
            self.first = Some(setter);
        } else if self.second.is_none() {
            self.second = Some(setter);
        }
    }
}

/// Words of vectors that are written alike.
#[derive(Clone, Copy)]
pub enum Words<'a> {
    /// Those that have this constant on a side of `!`.
    Field(&'a [u8]),
    /// Those of the vector that has this name, with this number if it is one.
    Of(&'a [u8], Option<u32>),
    /// Those that this name leads to, with `!` before or after it, and its bytes; of those on one line the first.
    Part(&'a [u8]),
}

/// Whether an expression is this name.
fn is_name(expr: &Expr, name: &[u8]) -> bool {
    match expr {
        Expr::Name { letters, .. } => letters.as_slice() == name,
        _ => false,
    }
}

/// Whether a destination has a name beside `!`, or before `%`.
fn is_part(destination: &Expr, name: &[u8]) -> bool {
    match destination {
        Expr::Unary {
            prefix: Prefix::Contents,
            operand,
            ..
        } => is_name(operand, name),
        Expr::Binary {
            operator: Operator::Subscript,
            left,
            right,
            ..
        } => is_name(left, name) || is_name(right, name),
        Expr::Binary {
            operator: Operator::Byte,
            left,
            ..
        } => is_name(left, name),
        _ => false,
    }
}

/// Whether a name that is set to an expression may have this value from it: not where that is another number.
fn may_give(value: &Expr, worth: Worth) -> bool {
    match (number(value), worth) {
        (Some(set), Worth::Number(word)) => set == word.cast_signed(),
        (Some(_), _) => false,
        (None, _) => true,
    }
}

/// Whether an index may be this number.
fn may_be(index: &Expr, wanted: Option<u32>) -> bool {
    match (index, wanted) {
        (Expr::Number { word, .. }, Some(number)) => *word == number,
        _ => true,
    }
}

impl<'a> Words<'a> {
    /// Whether a destination is one of them.
    fn has(&self, destination: &Expr) -> bool {
        match (self, destination) {
            (Words::Part(name), _) => is_part(destination, name),
            (
                Words::Field(name),
                Expr::Binary {
                    operator: Operator::Subscript,
                    left,
                    right,
                    ..
                },
            ) => is_name(left, name) || is_name(right, name),
            (
                Words::Of(name, number),
                Expr::Binary {
                    operator: Operator::Subscript,
                    left,
                    right,
                    ..
                },
            ) => is_name(left, name) && may_be(right, *number),
            _ => false,
        }
    }
}

/// A GOTO.
#[derive(Clone, Copy)]
pub struct Jump<'a> {
    pub place: Place,
    pub label: &'a [u8],
}

/// What is sought, and what is found.
#[derive(Drop)]
pub struct Search<'a> {
    /// The position that is sought.
    pub at: Position,
    /// The name that is sought.
    pub name: &'a [u8],
    /// A declaration that is at the position.
    pub made: Option<(&'a [u8], Kind)>,
    /// The block or the FOR that has that declaration.
    pub scope: Option<&'a Command>,
    /// The innermost block or FOR that is gone through.
    inside: Option<&'a Command>,
    /// The arguments of a call that is there.
    pub arguments: Option<&'a [Expr]>,
    /// A loop that is there.
    pub looping: Option<&'a Command>,
    /// What is before the `!` before a call that is there.
    pub vector: Option<&'a Expr>,
    /// The names of the expressions beside what is there, in its command.
    pub beside: Few<'a>,
    /// How far the names beside it are known.
    is_here: bool,
    is_past: bool,
    /// How many declarations have the name, where the first is, and the line of the first that is not at the position.
    pub declared: usize,
    pub declared_at: Option<Position>,
    pub other: Option<u32>,
    /// Whether a vector has it that is not at the position.
    pub is_other_vector: bool,
    /// Where the name is set, and the first position of that; where its value is known, only where it may come from.
    pub setters: Setters<'a>,
    pub set_at: Option<Position>,
    pub value: Option<Worth>,
    /// Whether its address is taken.
    pub is_taken: bool,
    /// The words that are sought, where they are set, and the first two of them as they are written.
    pub words: Option<Words<'a>>,
    pub words_set: Setters<'a>,
    pub first_word: Option<&'a Expr>,
    pub second_word: Option<&'a Expr>,
    /// Where it is a label.
    pub label: Option<Place>,
    /// The GOTOs that are behind the position, up to four.
    pub first_jump: Option<Jump<'a>>,
    pub second_jump: Option<Jump<'a>>,
    pub third_jump: Option<Jump<'a>>,
    /// The names that are assigned to between two positions.
    pub assigned: Few<'a>,
    pub from: Place,
    pub to: Option<Place>,
    /// The names that the conditions of IF, UNLESS and TEST have there.
    pub tested: Few<'a>,
    is_tested: bool,
    /// The names that are set there to what RDCH gives.
    pub read: Few<'a>,
    /// The values of RESULTIS, and the line of the first that is the value that is sought, written as a number.
    pub results: Setters<'a>,
    pub result_line: Option<u32>,
}

/// Whether a place is before another, or is it.
pub fn is_up_to(a: Place, b: Place) -> bool {
    a.line < b.line || a.line == b.line && a.byte <= b.byte
}

/// Whether an expression is a call of RDCH.
fn is_read(expr: &Expr) -> bool {
    match expr {
        Expr::Apply { callee, .. } => match &**callee {
            Expr::Name { letters, .. } => letters.as_slice() == b"RDCH".as_slice(),
            _ => false,
        },
        _ => false,
    }
}

impl<'a> Search<'a> {
    /// Nothing is found yet. What is assigned is found from the position on.
    pub fn new(at: Position, name: &'a [u8]) -> Search<'a> {
        Search::sought(at, name, None)
    }

    /// The same, with words of vectors that are sought.
    pub fn sought(at: Position, name: &'a [u8], words: Option<Words<'a>>) -> Search<'a> {
        Search {
            at,
            name,
            made: None,
            scope: None,
            inside: None,
            arguments: None,
            looping: None,
            vector: None,
            beside: Few::none(),
            is_here: false,
            is_past: false,
            declared: 0,
            declared_at: None,
            other: None,
            is_other_vector: false,
            setters: Setters::none(),
            set_at: None,
            value: None,
            is_taken: false,
            words,
            words_set: Setters::none(),
            first_word: None,
            second_word: None,
            label: None,
            first_jump: None,
            second_jump: None,
            third_jump: None,
            assigned: Few::none(),
            from: place_of(at),
            to: None,
            tested: Few::none(),
            is_tested: false,
            read: Few::none(),
            results: Setters::none(),
            result_line: None,
        }
    }

    /// A part of a command begins, whose names are beside one another.
    fn begin(&mut self) {
        self.is_tested = false;
        if self.is_here {
            self.is_past = true;
        }
        if !self.is_past {
            self.beside = Few::none();
        }
    }

    /// Whether a position is in the range in which assignments are sought.
    fn is_within(&self, at: Position) -> bool {
        let place = place_of(at);
        let is_before = match self.to {
            Some(to) => is_up_to(place, to),
            None => true,
        };
        is_before && is_up_to(self.from, place)
    }

    /// A name that is declared.
    pub fn declaration(&mut self, name: &'a Name) {
        let letters: &[u8] = &name.letters;
        if name.at == self.at {
            self.made = Some((letters, Kind::Variable));
            self.scope = self.inside;
        }
        if letters == self.name {
            self.declared = self.declared.saturating_add(1);
            if self.declared_at.is_none() {
                self.declared_at = Some(name.at);
            }
            if name.at != self.at && self.other.is_none() {
                self.other = Some(name.at.line().number());
            }
        }
    }

    /// A block or a FOR begins: the one around it.
    pub fn enter(&mut self, command: &'a Command) -> Option<&'a Command> {
        replace(&mut self.inside, Some(command))
    }

    /// It ends.
    pub fn leave(&mut self, outer: Option<&'a Command>) {
        self.inside = outer;
    }

    /// What a variable begins with.
    pub fn init(&mut self, name: &'a Name, init: &'a Init) {
        self.begin();
        let letters: &[u8] = &name.letters;
        match init {
            Init::Value(value) => self.sets(letters, name.at, value, false),
            Init::Vector { size, .. } => {
                if size.at() == self.at {
                    self.made = Some((letters, Kind::Vector));
                } else if letters == self.name {
                    self.is_other_vector = true;
                }
            }
        }
    }

    /// A call with these arguments at a position.
    pub fn call(&mut self, at: Position, arguments: &'a [Expr]) {
        if at == self.at {
            self.arguments = Some(arguments);
            self.is_here = true;
        }
    }

    /// A call after `!`.
    pub fn index(&mut self, operator: Operator, left: &'a Expr, right: &'a Expr) {
        if let Expr::Apply { sign, .. } = right
            && matches!(operator, Operator::Subscript)
            && *sign == self.at
        {
            self.vector = Some(left);
        }
    }

    /// An expression.
    pub fn expr(&mut self, expr: &'a Expr) {
        if acts_at(expr) == self.at {
            self.is_here = true;
        }
        match expr {
            Expr::Name { letters, .. } => {
                if !self.is_past {
                    self.beside.add(letters);
                }
                if self.is_tested {
                    self.tested.add(letters);
                }
            }
            Expr::Unary {
                prefix: Prefix::Address,
                operand,
                ..
            } => {
                if let Expr::Name { letters, .. } = &**operand
                    && letters.as_slice() == self.name
                {
                    self.is_taken = true;
                }
            }
            _ => {}
        }
    }

    /// Whether the value that is sought, if one is, may come from an expression.
    fn may_come_from(&self, value: &Expr) -> bool {
        match self.value {
            Some(worth) => may_give(value, worth),
            None => true,
        }
    }

    /// A name is set to a value: by an assignment, or where it is declared.
    fn sets(&mut self, letters: &'a [u8], at: Position, value: &'a Expr, is_assigned: bool) {
        if letters == self.name
            && !matches!(value, Expr::Query { .. })
            && self.may_come_from(value)
        {
            self.setters.add(Setter {
                line: at.line().number(),
                value,
            });
            if self.set_at.is_none() {
                self.set_at = Some(at);
            }
        }
        if is_read(value) && self.is_within(at) {
            self.read.add(letters);
        }
        if is_assigned && self.is_within(at) {
            self.assigned.add(letters);
        }
    }

    /// A destination that is no name is set to a value.
    fn sets_word(&mut self, destination: &'a Expr, value: &'a Expr) {
        let line = destination.at().line().number();
        if let Some(words) = self.words
            && words.has(destination)
            && !(matches!(words, Words::Part(_)) && self.words_set.has_line(line))
        {
            self.words_set.add(Setter { line, value });
            if self.first_word.is_none() {
                self.first_word = Some(destination);
            } else if self.second_word.is_none() {
                self.second_word = Some(destination);
            }
        }
    }

    /// Assignments.
    pub fn assignments(&mut self, destinations: &'a [Expr], values: &'a [Expr]) {
        for (i, destination) in destinations.iter().enumerate() {
            let Some(value) = values.get(i) else {
                return;
            };
            if let Expr::Name { at, letters } = destination {
                self.sets(letters, *at, value, true);
            } else {
                self.sets_word(destination, value);
            }
        }
    }

    /// A GOTO.
    fn jump(&mut self, at: Position, label: &'a [u8]) {
        let place = place_of(at);
        if !is_up_to(place_of(self.at), place) {
            return;
        }
        let jump = Some(Jump { place, label });
        if self.first_jump.is_none() {
            self.first_jump = jump;
        } else if self.second_jump.is_none() {
            self.second_jump = jump;
        } else if self.third_jump.is_none() {
            self.third_jump = jump;
        }
    }

    /// A RESULTIS.
    fn result(&mut self, value: &'a Expr) {
        let line = value.at().line().number();
        self.results.add(Setter { line, value });
        if let Some(Worth::Number(word)) = self.value
            && number(value) == Some(word.cast_signed())
            && self.result_line.is_none()
        {
            self.result_line = Some(line);
        }
    }

    /// A command. A FOR is at the name of its variable, and another loop at its first symbol.
    pub fn command(&mut self, command: &'a Command) {
        self.begin();
        let at = match command {
            Command::For { name, .. } => Some(name.at),
            Command::While { at, .. }
            | Command::Repeat { at, .. }
            | Command::RepeatWhile { at, .. } => Some(*at),
            Command::ResultIs { value, .. } => {
                self.result(value);
                None
            }
            Command::If { at, .. } | Command::Test { at, .. } => {
                self.is_tested = self.is_within(*at);
                None
            }
            Command::Goto { at, name } => {
                self.jump(*at, &name.letters);
                None
            }
            Command::Label { at, letters, .. } => {
                if letters.as_slice() == self.name {
                    self.label = Some(place_of(*at));
                }
                None
            }
            _ => None,
        };
        if at == Some(self.at) {
            self.looping = Some(command);
        }
    }
}
