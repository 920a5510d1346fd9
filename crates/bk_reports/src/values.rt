//! Values and objects, as a person knows them: by the names of the source.

use crate::made::{Made, formals_at, made_at};
use crate::names::{Names, env_of, name_in, names_in};
use crate::operands::bare;
use crate::results::say_last;
use crate::sought::Kind;
use crate::spelling::{
    add, add_character, add_expr, add_number, add_string, add_word, has_piece, routine_kind,
    routine_name,
};
use crate::text::Text;
use bk_base::word;
use bk_check::Evaluator;
use bk_lasting::{Env, GLOBALS_OBJECT, Lasting, Sense};
use bk_objects::{Cell, Computed, Origin, Worth, combine, read};
use bk_tree::{Expr, Position, Prefix};

/// In how many frames the name of a static word is sought at most.
const NEAR: usize = 1000;

/// What is written, and what it is written of.
#[derive(Drop)]
pub struct Page<'m, 'a> {
    pub text: Text,
    pub m: &'m Evaluator<'a>,
    pub program: &'m [Lasting<'a>],
    /// What names mean where the act is done, if that is known.
    pub names: Option<Names<'m, 'a>>,
    /// Where the act is done.
    pub at: Position,
}

/// The name of the procedure with this number.
fn procedure_name<'a>(program: &[Lasting<'a>], number: u64) -> &'a [u8] {
    match program.get(number as usize) {
        Some(Lasting::Code(procedure)) => procedure.name,
        _ => b"?",
    }
}

/// The name of what is called.
pub fn callee_name<'a>(program: &[Lasting<'a>], callee: Worth) -> &'a [u8] {
    match callee {
        Worth::Procedure(number) => procedure_name(program, number),
        Worth::Routine(routine) => routine_name(routine),
        Worth::Number(_) | Worth::Address(_, _) | Worth::Unset(_) => b"?",
    }
}

/// The name of the formal that is at an offset, if the object is that of a call's formals and has it.
fn formal_name<'a>(
    program: &[Lasting<'a>],
    kind: Kind,
    at: Position,
    offset: u32,
) -> Option<&'a [u8]> {
    match kind {
        Kind::Formals => match formals_at(program, at)?.get(offset as usize) {
            Some(formal) => Some(&formal.letters),
            None => None,
        },
        Kind::Variable | Kind::Vector => None,
    }
}

/// Another name of a global, among those of a procedure.
fn other_name_in<'a>(env: &Env<'a>, name: &[u8], number: u32) -> Option<&'a [u8]> {
    let mut names = &env.names;
    while let Some(node) = names {
        if let Sense::Cell(other, object) = node.sense
            && object == GLOBALS_OBJECT
            && other == number
            && node.name != name
        {
            return Some(node.name);
        }
        names = &node.outer;
    }
    None
}

/// The number of another global that has this name, among those of a procedure.
fn other_number_in(env: &Env, name: &[u8], number: u32) -> Option<u32> {
    let mut names = &env.names;
    while let Some(node) = names {
        if let Sense::Cell(other, object) = node.sense
            && object == GLOBALS_OBJECT
            && other != number
            && node.name == name
        {
            return Some(other);
        }
        names = &node.outer;
    }
    None
}

/// The byte at a place of words.
fn byte_of(words: &[u32], place: u32) -> u8 {
    match words.get(word::distance_of_byte(place) as usize) {
        Some(w) => word::byte(*w, word::place_of_byte(place)),
        None => 0,
    }
}

/// Adds the bytes of a string of these words.
fn add_bytes(bytes: &mut Text, words: &[u32]) {
    for i in 0..u32::from(byte_of(words, 0)) {
        bytes.add(&[byte_of(words, i.saturating_add(1))]);
    }
}

/// Whether words are those of a string that can be printed.
fn is_string(words: &[u32]) -> bool {
    let length = u32::from(byte_of(words, 0));
    if words.len() != (length / 4) as usize + 1 {
        return false;
    }
    for i in 1..1024 {
        let byte = byte_of(words, i);
        let fits = if i <= length {
            matches!(byte, 8..=10 | 12..=13) || byte >= 32 && byte != 127
        } else {
            byte == 0
        };
        if !fits {
            return false;
        }
    }
    true
}

/// Whether what a text has from a place on, after a semicolon, is in it before that place, too.
fn is_twice(text: &[u8], place: usize) -> bool {
    let (Some(before), Some(added)) = (text.get(..place), text.get(place..)) else {
        return false;
    };
    match added {
        [b';', piece @ ..] => has_piece(before, piece) || before.starts_with(piece.trim_ascii()),
        _ => false,
    }
}

/// What an object is.
#[derive(Clone, Copy)]
pub enum Object<'m, 'a> {
    Made(Made<'a>),
    Globals,
    Static(&'a [u8]),
    String(&'m [u32]),
    Table,
    Entry(&'a [u8]),
    Unknown,
}

impl<'m, 'a> Page<'m, 'a> {
    /// An empty page, for an act that is done at this position.
    pub fn new(m: &'m Evaluator<'a>, program: &'m [Lasting<'a>], at: Position) -> Page<'m, 'a> {
        Page {
            text: Text::new(m.alloc),
            m,
            program,
            names: names_in(m, program),
            at,
        }
    }

    /// Adds pieces of text.
    pub fn say(&mut self, pieces: &[&[u8]]) {
        add(&mut self.text, pieces);
    }

    /// Adds a number.
    pub fn say_number(&mut self, number: usize) {
        add_number(&mut self.text, number);
    }

    /// Adds a word as a signed number.
    pub fn say_word(&mut self, word: u32) {
        add_word(&mut self.text, word);
    }

    /// How many bytes the text has.
    pub fn length(&self) -> usize {
        self.text.bytes().len()
    }

    /// Whether a piece is in the text.
    pub fn has(&self, piece: &[u8]) -> bool {
        has_piece(self.text.bytes(), piece)
    }

    /// Takes away what the text has behind so many bytes, if that is in it before, too.
    pub fn drop_twice(&mut self, length: usize) {
        if is_twice(self.text.bytes(), length) {
            self.text.truncate(length);
        }
    }

    /// How an expression is written.
    pub fn spelled(&mut self, expr: &Expr) -> Vec<u8> {
        let mut spelled = Text::new(self.m.alloc);
        add_expr(&mut spelled, expr);
        self.text.part(spelled)
    }

    /// Adds an expression.
    pub fn say_expr(&mut self, expr: &Expr) {
        add_expr(&mut self.text, expr);
    }

    /// What an object is.
    pub fn object(&self, object: u64) -> Object<'m, 'a> {
        match self.program.get(object as usize) {
            Some(Lasting::Globals) => Object::Globals,
            Some(Lasting::Code(procedure)) => Object::Entry(procedure.name),
            Some(Lasting::Words(words)) => {
                if words.len() == 1
                    && let Some(name) = self.static_name(object)
                {
                    Object::Static(name)
                } else if is_string(words) {
                    Object::String(words)
                } else {
                    Object::Table
                }
            }
            None => match self.m.store.made_at(object) {
                Some(at) => match made_at(self.program, at) {
                    Some(made) => Object::Made(made),
                    None => Object::Unknown,
                },
                None => Object::Unknown,
            },
        }
    }

    /// The name of a static word: one that is visible, or is in another procedure.
    fn static_name(&self, object: u64) -> Option<&'a [u8]> {
        if let Some(names) = self.names
            && let Some(name) = names.name_of(object, 0)
        {
            return Some(name);
        }
        for lasting in self.program {
            if let Lasting::Code(procedure) = lasting
                && let Some(name) = name_in(&procedure.env, object, 0)
            {
                return Some(name);
            }
        }
        for frame in self.m.frames.iter().rev().take(NEAR) {
            if let Some(env) = env_of(frame)
                && let Some(name) = name_in(env, object, 0)
            {
                return Some(name);
            }
        }
        None
    }

    /// Whether an object is dead.
    pub fn is_dead(&self, object: u64) -> bool {
        self.m.store.size(object).is_none()
    }

    /// Whether the procedure of this name is active.
    pub fn is_here(&self, procedure: &[u8]) -> bool {
        if let Some(names) = self.names {
            names.procedure.name == procedure
        } else {
            false
        }
    }

    /// Adds of which procedure an object is, where it is not the one that is active.
    fn say_of(&mut self, procedure: &[u8], object: u64) {
        if self.is_here(procedure) && !self.is_dead(object) {
            return;
        }
        self.say(&[b" of ", procedure]);
    }

    /// Adds what an object is called in `word 3 of ..`.
    pub fn say_object(&mut self, object: u64) {
        match self.object(object) {
            Object::Made(made) => match made.kind {
                Kind::Formals => self.say(&[b"the formals of ", made.name]),
                Kind::Variable | Kind::Vector => {
                    self.say(&[made.name]);
                    self.say_of(made.procedure, object);
                }
            },
            Object::Globals => self.say(&[b"the global vector"]),
            Object::Static(name) => self.say(&[name]),
            Object::String(words) => {
                self.say(&[b"the string "]);
                self.say_string(words);
            }
            Object::Table => match self.table_name(object) {
                Some(made) => {
                    self.say(&[made.name]);
                    self.say_of(made.procedure, object);
                }
                None => self.say(&[b"a TABLE"]),
            },
            Object::Entry(name) => self.say(&[b"the word of the procedure ", name]),
            Object::Unknown => self.say(&[b"a variable or vector"]),
        }
    }

    /// Adds the name of the formal that a cell is; false where it is none.
    pub fn say_formal_name(&mut self, object: u64, offset: u32) -> bool {
        let program = self.program;
        let Object::Made(made) = self.object(object) else {
            return false;
        };
        let procedure = made.procedure;
        let Some(name) = formal_name(program, made.kind, made.at, offset) else {
            return false;
        };
        self.say(&[name]);
        self.say_of(procedure, object);
        true
    }

    /// Adds a string of these words.
    fn say_string(&mut self, words: &[u32]) {
        let mut bytes = Text::new(self.m.alloc);
        add_bytes(&mut bytes, words);
        let bytes = self.text.part(bytes);
        add_string(&mut self.text, &bytes);
    }

    /// Adds the bytes of the string at an address, if one is there.
    pub fn add_text(&self, bytes: &mut Text, x: Worth) {
        if let Worth::Address(0, object) = x
            && let Object::String(words) = self.object(object)
        {
            add_bytes(bytes, words);
        }
    }

    /// Adds that the object of an address is gone; of formals, the one at this offset.
    pub fn say_gone(&mut self, object: u64, offset: u32) {
        let program = self.program;
        let Object::Made(made) = self.object(object) else {
            self.say(&[b"a variable or vector is gone"]);
            return;
        };
        let procedure = made.procedure;
        let line = made.at.line().number();
        match formal_name(program, made.kind, made.at, offset) {
            Some(name) => self.say(&[name, b", a formal of ", procedure]),
            None => {
                self.say_object(object);
                self.say(&[b", made on line "]);
                self.say_number(line as usize);
            }
        }
        self.say(&[b", is gone"]);
    }

    /// Adds a distance in words.
    fn say_offset(&mut self, offset: u32) {
        let distance = offset.cast_signed();
        if distance == 0 {
            return;
        }
        self.say(&[if distance < 0 { b" - " } else { b" + " }]);
        self.say_word(distance.unsigned_abs());
    }

    /// Adds the address of a formal, or of a word after them.
    fn say_formal(&mut self, procedure: &[u8], owner: &[u8], at: Position, offset: u32) {
        let is_here = self.is_here(procedure);
        match formal_name(self.program, Kind::Formals, at, offset) {
            Some(name) => {
                self.say(&[b"@", name]);
                if is_here {} else {
                    self.say(&[b" of ", procedure]);
                }
            }
            None => {
                self.say(&[b"the address of word "]);
                self.say_word(offset);
                self.say(&[b" of the formals of ", owner]);
            }
        }
    }

    /// Adds an address.
    fn say_address(&mut self, object: u64, offset: u32) {
        match self.object(object) {
            Object::Made(made) => match made.kind {
                Kind::Formals => self.say_formal(made.procedure, made.name, made.at, offset),
                Kind::Variable => {
                    self.say(&[b"@", made.name]);
                    self.say_offset(offset);
                    self.say_of(made.procedure, object);
                }
                Kind::Vector => {
                    self.say(&[made.name]);
                    self.say_offset(offset);
                    self.say_of(made.procedure, object);
                }
            },
            Object::Globals => match self.global(offset) {
                Some(name) => self.say(&[b"@", name]),
                None => {
                    self.say(&[b"the address of global "]);
                    self.say_word(offset);
                }
            },
            Object::Static(name) => {
                self.say(&[b"@", name]);
                self.say_offset(offset);
            }
            Object::Entry(name) => {
                self.say(&[b"@", name]);
                self.say_offset(offset);
            }
            Object::String(_) | Object::Table => {
                self.say_object(object);
                self.say_offset(offset);
            }
            Object::Unknown => self.say(&[b"the address of a variable or vector"]),
        }
    }

    /// The name of a global, if one is visible.
    fn global(&self, number: u32) -> Option<&'a [u8]> {
        match self.names {
            Some(names) => names.name_of(GLOBALS_OBJECT, number),
            None => None,
        }
    }

    /// Another name of a global, in any section.
    pub fn other_name(&self, name: &[u8], number: u32) -> Option<&'a [u8]> {
        if let Some(names) = self.names
            && let Some(other) = other_name_in(names.env, name, number)
        {
            return Some(other);
        }
        for lasting in self.program {
            if let Lasting::Code(procedure) = lasting
                && let Some(other) = other_name_in(&procedure.env, name, number)
            {
                return Some(other);
            }
        }
        None
    }

    /// The number of another global that has this name, in any section.
    pub fn other_number(&self, name: &[u8], number: u32) -> Option<u32> {
        for lasting in self.program {
            if let Lasting::Code(procedure) = lasting
                && let Some(other) = other_number_in(&procedure.env, name, number)
            {
                return Some(other);
            }
        }
        None
    }

    /// Adds a global, by its name if it has one.
    pub fn say_global(&mut self, number: u32) {
        self.say(&[b"the global "]);
        if let Some(name) = self.other_name(b"", number) {
            self.say(&[name, b", "]);
        }
        self.say_word(number);
    }

    /// Adds a value.
    pub fn say_value(&mut self, x: Worth) {
        match x {
            Worth::Number(number) => self.say_word(number),
            Worth::Address(offset, object) => self.say_address(object, offset),
            Worth::Procedure(number) => {
                let name = procedure_name(self.program, number);
                self.say(&[b"the procedure ", name]);
            }
            Worth::Routine(routine) => self.say(&[
                b"the ",
                routine_kind(routine),
                b" ",
                routine_name(routine),
            ]),
            Worth::Unset(origin) => self.say_origin(origin),
        }
    }

    /// Adds what a value is, where its name says it already.
    fn say_kind(&mut self, x: Worth) {
        match x {
            Worth::Number(_) => self.say(&[b"a number"]),
            Worth::Procedure(_) => self.say(&[b"a procedure"]),
            Worth::Routine(routine) => {
                self.say(&[b"a ", routine_kind(routine), b" of the library"]);
            }
            Worth::Unset(_) => self.say(&[b"not set"]),
            Worth::Address(_, object) => match self.object(object) {
                Object::Made(made) => match made.kind {
                    Kind::Vector => self.say(&[b"the address of a vector"]),
                    Kind::Variable => self.say(&[b"the address of a variable"]),
                    Kind::Formals => self.say(&[b"the address of a formal"]),
                },
                Object::String(_) => self.say(&[b"a string"]),
                Object::Table => self.say(&[b"a TABLE"]),
                _ => self.say(&[b"an address"]),
            },
        }
    }

    /// Adds an expression and its value, as in `P is V + 2`.
    pub fn say_is(&mut self, expr: &Expr, x: Worth) {
        let start = self.length();
        self.say_expr(expr);
        let name = self.length();
        self.say(&[b" is "]);
        let value = self.length();
        self.say_value(x);
        if self.is_said_twice(start, name, value, x) {
            self.text.truncate(value);
            self.say_kind(x);
        }
    }

    /// Whether the text of a value is that of its expression, or ends in it.
    fn is_said_twice(&self, start: usize, name: usize, value: usize, x: Worth) -> bool {
        let expr = self.text.bytes().get(start..name).unwrap_or(&[]);
        let spelled = self.text.bytes().get(value..).unwrap_or(&[]);
        match x {
            Worth::Procedure(_) | Worth::Routine(_) => callee_name(self.program, x) == expr,
            Worth::Address(_, _) => spelled == expr
                || spelled.ends_with(b"\"") && expr.ends_with(b"\""),
            Worth::Number(_) | Worth::Unset(_) => spelled == expr,
        }
    }

    /// Adds why there is no value.
    pub fn say_origin(&mut self, origin: Origin) {
        match origin {
            Origin::Never => self.say(&[b"nothing was assigned to it"]),
            Origin::Query(line) => {
                self.say(&[b"it is the `?` of line "]);
                self.say_number(line as usize);
            }
            Origin::Valof(line, number) => {
                let name = procedure_name(self.program, u64::from(number));
                self.say(&[b"the `VALOF` of line "]);
                self.say_number(line as usize);
                self.say(&[b", of ", name, b", ended without `RESULTIS`"]);
                say_last(self, line, number);
            }
            Origin::Body(line, number) => {
                let name = procedure_name(self.program, u64::from(number));
                self.say(&[name, b", called on line "]);
                self.say_number(line as usize);
                self.say(&[b", is a routine, with `BE`, and gives none"]);
            }
            Origin::Library(routine) => self.say(&[routine_name(routine), b" gives none"]),
            Origin::Argument => self.say(&[b"its argument is missing"]),
        }
    }

    /// The value of a name, if it has one and its place is known.
    pub fn value_of(&self, name: &[u8]) -> Option<Worth> {
        match self.names?.sense(name)? {
            Sense::Constant(word) => Some(Worth::Number(word)),
            Sense::Cell(offset, object) => match self.m.store.cell(object, offset)? {
                Cell::Holds(worth) => Some(worth),
                Cell::Places(_, _, _, _) => None,
            },
            Sense::Label | Sense::Foreign => None,
        }
    }

    /// The value of a name that is no constant, if it has one.
    pub fn variable(&self, name: &[u8]) -> Option<Worth> {
        match self.names?.sense(name)? {
            Sense::Cell(_, _) => self.value_of(name),
            Sense::Constant(_) | Sense::Label | Sense::Foreign => None,
        }
    }

    /// Whether an expression is a number, or a name of MANIFEST.
    pub fn is_constant(&self, expr: &Expr) -> bool {
        match bare(expr) {
            Expr::Number { .. } => true,
            Expr::Name { letters, .. } => match self.names {
                Some(names) => matches!(names.sense(letters), Some(Sense::Constant(_))),
                None => false,
            },
            _ => false,
        }
    }

    /// Whether a value is the address of a string.
    pub fn is_text(&self, x: Worth) -> bool {
        match x {
            Worth::Address(_, object) => matches!(self.object(object), Object::String(_)),
            _ => false,
        }
    }

    /// Adds how the byte of a string of one byte is written.
    pub fn say_character(&mut self, x: Worth) {
        if let Worth::Address(_, object) = x
            && let Object::String(words) = self.object(object)
            && byte_of(words, 0) == 1
        {
            self.say(&[b"; `"]);
            add_character(&mut self.text, byte_of(words, 1));
            self.say(&[b"` is its byte"]);
        }
    }

    /// The variable that holds the address of a TABLE: of those that do, the first of the outermost procedure.
    pub fn table_name(&self, object: u64) -> Option<Made<'a>> {
        for frame in self.m.frames.iter().take(NEAR) {
            if let Some(env) = env_of(frame)
                && let Some(made) = self.holder_in(env, object)
            {
                return Some(made);
            }
        }
        self.holder_in(self.names?.env, object)
    }

    /// The variable that was declared first among these that hold the address of an object.
    fn holder_in(&self, env: &Env<'a>, object: u64) -> Option<Made<'a>> {
        let mut names = &env.names;
        let mut found = None;
        while let Some(node) = names {
            if let Sense::Cell(0, holder) = node.sense
                && let Some(Cell::Holds(Worth::Address(0, held))) = self.m.store.cell(holder, 0)
                && held == object
                && let Object::Made(made) = self.object(holder)
                && matches!(made.kind, Kind::Variable)
            {
                found = Some(made);
            }
            names = &node.outer;
        }
        found
    }

    /// The value of an expression, if it has no calls and its names have values.
    pub fn known(&self, expr: &Expr) -> Option<Worth> {
        known_in(self, expr, None)
    }

    /// The same, where a name has this value.
    pub fn known_where(&self, expr: &Expr, name: &[u8], value: Worth) -> Option<Worth> {
        known_in(self, expr, Some((name, value)))
    }
}

/// What an operation gave, if it gave a value.
fn given(computed: Computed) -> Option<Worth> {
    match computed {
        Computed::Value(x) => Some(x),
        Computed::DivideByZero | Computed::Undefined(_) => None,
    }
}

/// The value of a name, if it has one: that which is given here, if it is of this name.
fn value_in(page: &Page, name: &[u8], given: Option<(&[u8], Worth)>) -> Option<Worth> {
    match given {
        Some((other, value)) if other == name => Some(value),
        _ => page.value_of(name),
    }
}

/// The value of an expression, if it has no calls and its names have values, of which one may be given.
#[cycle(known)]
fn known_in(page: &Page, expr: &Expr, name: Option<(&[u8], Worth)>) -> Option<Worth> {
    match expr {
        Expr::Name { letters, .. } => value_in(page, letters, name),
        Expr::Number { word, .. } => Some(Worth::Number(*word)),
        Expr::Parens { inside, .. } => known_in(page, inside, name),
        Expr::Unary {
            prefix: Prefix::Contents,
            operand,
            ..
        } => given(read(&page.m.store, known_in(page, operand, name)?)),
        Expr::Binary {
            operator,
            left,
            right,
            ..
        } => given(combine(
            &page.m.store,
            *operator,
            known_in(page, left, name)?,
            known_in(page, right, name)?,
        )),
        _ => None,
    }
}
