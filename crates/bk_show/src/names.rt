//! The names of a section, each with what it means.

use crate::frame::{Frame, NamedWord};
use crate::origin::{Origin, put_at};
use crate::spelling::sort_spelling;
use crate::text::Text;
use crate::used::Uses;
use bk_scope::{Bound, Resolved};
use bk_source_map::{Change, Mark};
use bk_tree::{Command, ConstItem, Decl, Def, Expr, Init, Name, Position, Sort};
use std::alloc::{AllocError, Global};

/// The column of the meanings.
const MEANING: usize = 24;

/// The words of the frames of variables, by the tokens of their names.
#[derive(Drop)]
pub struct Slots<'a> {
    origin: &'a Origin<'a>,
    /// By the number of a token.
    words: Vec<Option<NamedWord>>,
}

impl<'a> Slots<'a> {
    /// Those of a section, whose marks these are.
    pub fn of(
        alloc: Global,
        origin: &'a Origin<'a>,
        marks: &'a [Mark],
    ) -> Result<Slots<'a>, AllocError> {
        let mut words = Vec::new(alloc);
        let mut frame = Frame::new(alloc, marks);
        for (number, stmt) in origin.stmts().iter().enumerate() {
            let passed = frame.passed();
            frame.reach(number, stmt)?;
            for mark in marks.get(passed..frame.passed()).unwrap_or(&[]) {
                if let (Some(token), Some(word)) = (
                    origin.token_at(mark.name),
                    frame.named(mark.name),
                ) {
                    put_at(&mut words, token, word)?;
                }
            }
            frame.pass_stmt(stmt);
        }
        Ok(Slots { origin, words })
    }

    /// The word of a variable, by the position of its name where it is declared.
    fn word(&self, at: Position) -> Option<NamedWord> {
        self.words.get(self.origin.token_at(at)?).copied()?
    }
}

/// Names that are put. The meanings and the words are in the source's order.
#[derive(Drop)]
struct Walk<'s> {
    text: Text,
    slots: &'s Slots<'s>,
    /// Which declarations with constants are of a header.
    headers: &'s [bool],
    meanings: &'s [Bound],
    words: &'s [u32],
    /// How many of these were met.
    header: usize,
    meaning: usize,
    word: usize,
    uses: Uses,
    /// What a walk before this one found.
    known: Option<&'s Uses>,
}

/// Adds what a name means.
fn put_meaning(text: &mut Text, bound: Bound) -> Result<(), AllocError> {
    match bound {
        Bound::Constant(Some(word)) => {
            text.say("constant ")?;
            text.integer(word.cast_signed())
        }
        Bound::Constant(None) => text.say("constant"),
        Bound::Global(Some(number)) => {
            text.say("global ")?;
            text.natural(number)
        }
        Bound::Global(None) => text.say("global"),
        Bound::Static(_) => text.say("static word"),
        Bound::Variable(_, slot) => {
            text.say("variable, word ")?;
            text.natural(slot)?;
            text.say(" of the frame")
        }
        Bound::Label(_, _) => text.say("label"),
    }
}

/// Adds which word of the frame a variable is.
fn put_word(text: &mut Text, word: NamedWord) -> Result<(), AllocError> {
    text.say(if word.change == Change::Formal {
        "argument"
    } else {
        "variable"
    })?;
    text.say(", word ")?;
    text.natural(word.slot)?;
    text.say(" of the frame")?;
    if word.change == Change::Vector {
        text.say(", vector in words ")?;
        text.natural(word.vector)?;
        text.say(" to ")?;
        text.natural(word.slot.saturating_sub(1))?;
    }
    Ok(())
}

impl Walk<'_> {
    /// The next meaning.
    fn takes_meaning(&mut self) -> Option<Bound> {
        let bound = self.meanings.get(self.meaning).copied();
        self.meaning = self.meaning.saturating_add(1);
        bound
    }

    /// The next word of a constant.
    fn takes_word(&mut self) -> u32 {
        let word = self.words.get(self.word).copied();
        self.word = self.word.saturating_add(1);
        word.unwrap_or(0)
    }

    /// The words of so many constants are not shown.
    fn skips_words(&mut self, count: usize) {
        self.word = self.word.saturating_add(count);
    }

    /// Whether the next declaration with constants is of a header.
    fn takes_header(&mut self) -> bool {
        let is = matches!(self.headers.get(self.header), Some(true));
        self.header = self.header.saturating_add(1);
        is
    }

    /// Begins the line of a name.
    fn begin(&mut self, at: Position, name: &[u8]) -> Result<(), AllocError> {
        let text = &mut self.text;
        text.begin(at.line())?;
        text.spell(name)?;
        text.go_to(MEANING)
    }

    /// Adds a name and what it means.
    fn name(&mut self, at: Position, name: &[u8]) -> Result<(), AllocError> {
        self.begin(at, name)?;
        if let Some(bound) = self.takes_meaning() {
            put_meaning(&mut self.text, bound)?;
            self.uses.meet(self.slots.origin, name, bound)?;
        }
        self.text.end()
    }

    /// Adds that a declaration is never used, if that is known.
    fn say_used(&mut self, number: usize) -> Result<(), AllocError> {
        match self.known {
            Some(known) if !known.is_used(number) => self.text.say(", never used"),
            _ => Ok(()),
        }
    }

    /// Adds the same of a static word, a procedure or a label.
    fn say_met(&mut self, bound: Bound) -> Result<(), AllocError> {
        match self.known {
            Some(known) if !known.is_met(bound) => self.text.say(", never used"),
            _ => Ok(()),
        }
    }

    /// Adds a label where it is set.
    fn label(&mut self, at: Position, name: &[u8]) -> Result<(), AllocError> {
        self.begin(at, name)?;
        if let Some(bound) = self.takes_meaning() {
            put_meaning(&mut self.text, bound)?;
            self.say_met(bound)?;
        }
        self.text.end()
    }

    /// A constant is used in another, which has no meanings of its own.
    fn constant(&mut self, name: &[u8]) -> Result<(), AllocError> {
        self.uses
            .meet(self.slots.origin, name, Bound::Constant(None))
    }

    /// Adds a procedure and what its name means.
    fn procedure(&mut self, at: Position, name: &[u8], words: &str) -> Result<(), AllocError> {
        self.begin(at, name)?;
        self.text.say(words)?;
        if let Some(bound) = self.takes_meaning() {
            put_meaning(&mut self.text, bound)?;
            match bound {
                Bound::Static(_) => self.say_met(bound)?,
                _ => self.uses.meet(self.slots.origin, name, bound)?,
            }
        }
        self.text.end()
    }

    /// Adds a variable where it is declared, and returns its number among the declarations.
    fn declare(&mut self, name: &Name) -> Result<usize, AllocError> {
        self.begin(name.at, &name.letters)?;
        let mut slot = 0;
        match self.slots.word(name.at) {
            Some(word) => {
                slot = word.slot;
                put_word(&mut self.text, word)?;
            }
            None => self.text.say("variable")?,
        }
        self.text.say(", declared here")?;
        self.uses.declare(name.at, Bound::Variable(0, slot))
    }

    /// Adds the line of a variable.
    fn variable(&mut self, name: &Name) -> Result<(), AllocError> {
        let number = self.declare(name)?;
        self.say_used(number)?;
        self.text.end()
    }

    /// Adds the line of the variable of a FOR, which its loop uses.
    fn counter(&mut self, name: &Name) -> Result<(), AllocError> {
        let _number = self.declare(name)?;
        self.text.end()
    }

    /// Adds variables where they are declared.
    fn variables(&mut self, names: &[Name]) -> Result<(), AllocError> {
        for name in names {
            self.variable(name)?;
        }
        Ok(())
    }

    /// Adds an item of a declaration, with the word of its constant.
    fn item(&mut self, at: Position, name: &[u8], sort: Sort) -> Result<(), AllocError> {
        self.begin(at, name)?;
        let word = self.takes_word().cast_signed();
        let text = &mut self.text;
        text.say(match sort {
            Sort::Manifest => "constant ",
            Sort::Static => "static word that begins with ",
            Sort::Global => "global ",
        })?;
        text.integer(word)?;
        self.say_item(at, sort)?;
        self.text.end()
    }

    /// Brings an item into scope, and adds that it is never used, if that is known.
    fn say_item(&mut self, at: Position, sort: Sort) -> Result<(), AllocError> {
        let bound = match sort {
            Sort::Manifest => Bound::Constant(None),
            Sort::Global => Bound::Global(None),
            Sort::Static => {
                return match self.takes_meaning() {
                    Some(bound) => self.say_met(bound),
                    None => Ok(()),
                };
            }
        };
        let number = self.uses.declare(at, bound)?;
        self.say_used(number)
    }

    /// Adds a declaration of a header.
    fn from_header(&mut self, at: Position, sort: Sort, items: usize) -> Result<(), AllocError> {
        self.skips_words(items);
        let text = &mut self.text;
        text.begin(at.line())?;
        text.natural((items % 0x1_0000_0000) as u32)?;
        text.say(" names")?;
        text.go_to(MEANING)?;
        text.say(sort_spelling(sort))?;
        text.say(" of the header")?;
        text.end()
    }
}

/// Adds the names of an expression.
#[cycle(nodes)]
fn put_expr(walk: &mut Walk<'_>, expr: &Expr) -> Result<(), AllocError> {
    match expr {
        Expr::Name { at, letters } => walk.name(*at, letters),
        Expr::Number { .. } | Expr::Text { .. } | Expr::Truth { .. } | Expr::Query { .. } => Ok(()),
        Expr::Parens { inside, .. } => put_expr(walk, inside),
        Expr::Unary { operand, .. } => put_expr(walk, operand),
        Expr::Binary { left, right, .. } => {
            put_expr(walk, left)?;
            put_expr(walk, right)
        }
        Expr::Choice {
            condition,
            yes,
            no,
            ..
        } => {
            put_expr(walk, condition)?;
            put_expr(walk, yes)?;
            put_expr(walk, no)
        }
        Expr::Apply {
            callee,
            arguments,
            ..
        } => {
            put_expr(walk, callee)?;
            put_exprs(walk, arguments)
        }
        Expr::Valof { command, .. } => put_command(walk, command),
        Expr::Table { items, .. } => {
            walk.skips_words(items.len());
            put_constants(walk, items)
        }
    }
}

/// Notes the names in constants one after another.
fn put_constants(walk: &mut Walk<'_>, exprs: &[Expr]) -> Result<(), AllocError> {
    for expr in exprs {
        put_constant(walk, expr)?;
    }
    Ok(())
}

/// Notes the names in a constant.
fn put_constant(walk: &mut Walk<'_>, expr: &Expr) -> Result<(), AllocError> {
    match expr {
        Expr::Name { letters, .. } => walk.constant(letters),
        Expr::Parens { inside, .. } => put_constant(walk, inside),
        Expr::Unary { operand, .. } => put_constant(walk, operand),
        Expr::Binary { left, right, .. } => {
            put_constant(walk, left)?;
            put_constant(walk, right)
        }
        _ => Ok(()),
    }
}

/// Adds the names of expressions one after another.
#[cycle(nodes)]
fn put_exprs(walk: &mut Walk<'_>, exprs: &[Expr]) -> Result<(), AllocError> {
    for expr in exprs {
        put_expr(walk, expr)?;
    }
    Ok(())
}

/// Adds the names of a command.
#[cycle(nodes)]
fn put_command(walk: &mut Walk<'_>, command: &Command) -> Result<(), AllocError> {
    match command {
        Command::Empty | Command::Simple { .. } => Ok(()),
        Command::Assign {
            destinations,
            values,
            ..
        } => {
            put_exprs(walk, destinations)?;
            put_exprs(walk, values)
        }
        Command::Call {
            callee,
            arguments,
            ..
        } => {
            put_expr(walk, callee)?;
            put_exprs(walk, arguments)
        }
        Command::Goto {
            name: Name { at, letters },
            ..
        } => walk.name(*at, letters),
        Command::Label { at, letters, body } => {
            walk.label(*at, letters)?;
            put_command(walk, body)
        }
        Command::Case { value, body, .. } => {
            walk.skips_words(1);
            put_constant(walk, value)?;
            put_command(walk, body)
        }
        Command::Default { body, .. } | Command::Repeat { body, .. } => put_command(walk, body),
        Command::If {
            condition,
            body,
            ..
        }
        | Command::While {
            condition,
            body,
            ..
        } => {
            put_expr(walk, condition)?;
            put_command(walk, body)
        }
        Command::Test {
            condition,
            yes: body,
            no: other,
            ..
        } => {
            put_expr(walk, condition)?;
            put_command(walk, body)?;
            put_command(walk, other)
        }
        Command::For {
            name,
            from,
            to,
            by,
            body,
            ..
        } => {
            let depth = walk.uses.depth();
            walk.counter(name)?;
            put_expr(walk, from)?;
            put_expr(walk, to)?;
            if let Some(by) = by {
                walk.skips_words(1);
                put_constant(walk, by)?;
            }
            put_command(walk, body)?;
            walk.uses.leave(depth);
            Ok(())
        }
        Command::SwitchOn {
            value: expr,
            body,
            ..
        } => {
            put_expr(walk, expr)?;
            put_command(walk, body)
        }
        Command::ResultIs { value: expr, .. } => put_expr(walk, expr),
        Command::Block {
            decls,
            commands,
            ..
        } => {
            let depth = walk.uses.depth();
            put_decls(walk, decls)?;
            put_commands(walk, commands)?;
            walk.uses.leave(depth);
            Ok(())
        }
        Command::RepeatWhile {
            body,
            condition,
            ..
        } => {
            put_command(walk, body)?;
            put_expr(walk, condition)
        }
    }
}

/// Adds the names of commands one after another.
#[cycle(nodes)]
fn put_commands(walk: &mut Walk<'_>, commands: &[Command]) -> Result<(), AllocError> {
    for command in commands {
        put_command(walk, command)?;
    }
    Ok(())
}

/// Adds the names of declarations one after another.
#[cycle(nodes)]
fn put_decls(walk: &mut Walk<'_>, decls: &[Decl]) -> Result<(), AllocError> {
    for decl in decls {
        put_decl(walk, decl)?;
    }
    Ok(())
}

/// Adds the names of a declaration. One of a header is a single line.
#[cycle(nodes)]
fn put_decl(walk: &mut Walk<'_>, decl: &Decl) -> Result<(), AllocError> {
    match decl {
        Decl::Constants { at, sort, items } => {
            if walk.takes_header() {
                return walk.from_header(*at, *sort, items.len());
            }
            put_items(walk, *sort, items)
        }
        Decl::Let { defs, .. } => put_defs(walk, defs),
    }
}

/// Adds the items of a declaration.
fn put_items(walk: &mut Walk<'_>, sort: Sort, items: &[ConstItem]) -> Result<(), AllocError> {
    for ConstItem::Item {
        at,
        letters: name,
        expr,
    } in items {
        walk.item(*at, name, sort)?;
        put_constant(walk, expr)?;
    }
    Ok(())
}

/// Adds the names of definitions one after another.
#[cycle(nodes)]
fn put_defs(walk: &mut Walk<'_>, defs: &[Def]) -> Result<(), AllocError> {
    for def in defs {
        put_def(walk, def)?;
    }
    Ok(())
}

/// Adds the names of a definition.
#[cycle(nodes)]
fn put_def(walk: &mut Walk<'_>, def: &Def) -> Result<(), AllocError> {
    match def {
        Def::Routine {
            at,
            letters: name,
            formals,
            body,
        } => {
            walk.procedure(*at, name, "routine, ")?;
            let depth = walk.uses.depth();
            walk.variables(formals)?;
            put_command(walk, body)?;
            walk.uses.leave(depth);
            Ok(())
        }
        Def::Function {
            at,
            letters: name,
            formals,
            body,
        } => {
            walk.procedure(*at, name, "function, ")?;
            let depth = walk.uses.depth();
            walk.variables(formals)?;
            put_expr(walk, body)?;
            walk.uses.leave(depth);
            Ok(())
        }
        Def::Variables {
            names,
            inits: starts,
            ..
        } => {
            walk.variables(names)?;
            put_starts(walk, starts)
        }
    }
}

/// Adds the names of what variables begin with.
#[cycle(nodes)]
fn put_starts(walk: &mut Walk<'_>, starts: &[Init]) -> Result<(), AllocError> {
    for start in starts {
        put_start(walk, start)?;
    }
    Ok(())
}

/// Adds the names of what a variable begins with.
#[cycle(nodes)]
fn put_start(walk: &mut Walk<'_>, start: &Init) -> Result<(), AllocError> {
    match start {
        Init::Value(expr) => put_expr(walk, expr),
        Init::Vector { size, .. } => {
            walk.skips_words(1);
            put_constant(walk, size)
        }
    }
}

/// A walk of the names of a section. `headers` says which declarations with constants are of a header, and `known` which declarations are
/// used.
fn walk_of<'s>(
    alloc: Global,
    resolved: &'s Resolved<'s>,
    headers: &'s [bool],
    slots: &'s Slots<'s>,
    known: Option<&'s Uses>,
) -> Result<Walk<'s>, AllocError> {
    let mut walk = Walk {
        text: Text::new(alloc),
        slots,
        headers,
        meanings: resolved.meanings(),
        words: resolved.words(),
        header: 0,
        meaning: 0,
        word: 0,
        uses: Uses::new(alloc),
        known,
    };
    walk.text.say("  line  name            meaning")?;
    walk.text.end()?;
    put_decls(&mut walk, resolved.section().decls())?;
    Ok(walk)
}

/// Which declarations of a section are used.
fn uses_of<'s>(
    alloc: Global,
    resolved: &'s Resolved<'s>,
    headers: &'s [bool],
    slots: &'s Slots<'s>,
) -> Result<Uses, AllocError> {
    let Walk { uses, .. } = walk_of(alloc, resolved, headers, slots, None)?;
    Ok(uses)
}

/// A line for each name that is used or declared. `headers` says which declarations with constants are of a header.
pub fn names_text<'s>(
    alloc: Global,
    resolved: &'s Resolved<'s>,
    headers: &'s [bool],
    slots: &'s Slots<'s>,
) -> Result<Text, AllocError> {
    let uses = uses_of(alloc, &*resolved, headers, &*slots)?;
    let Walk { text, .. } = walk_of(alloc, resolved, headers, slots, Some(&uses))?;
    Ok(text)
}
