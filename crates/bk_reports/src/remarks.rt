//! What is suspicious in a program that is accepted. No contract says anything of these texts, nor which things they are.

use crate::falls::falls;
use crate::formats::in_format;
use crate::globals::{on_globals, own_routines};
use crate::mentions::Names;
use crate::notice::{Notice, Within};
use crate::procedures::{
    begins, defined_in, in_function, no_start, on_procedures, remark_arguments, twice,
};
use crate::spelling::{add, add_expr};
use crate::text::Text;
use bk_base::word_text;
use bk_tree::{Command, Decl, Def, Expr, Init, Operator, Position, Prefix, Section};
use std::alloc::{AllocError, Global};
use std::mem::replace;

/// How many remarks there are at most.
const REMARKS: usize = 10;

/// Something suspicious.
#[derive(Debug, Drop)]
pub struct Remark {
    /// What is suspicious, and where.
    pub notice: Notice,
    /// Where a comment from this position up to that of the remark says that it is meant, and nothing is reported.
    pub unless_noted_from: Option<Position>,
}

/// The remarks so far.
#[derive(Drop)]
pub struct Found {
    remarks: Vec<Remark>,
    /// The number of the section, from 0.
    section: usize,
    /// The names of the section.
    names: Names,
    /// The routines of the library that the program defines itself, of which nothing is known.
    own_routines: Vec<&'static [u8]>,
    /// Whether there was memory for all of this.
    is_whole: bool,
}

impl Found {
    /// Notes that memory ended.
    pub fn fails(&mut self) {
        self.is_whole = false;
    }
}

/// Whether the program defines this routine itself.
pub fn is_own(found: &Found, name: &[u8]) -> bool {
    for own in &found.own_routines {
        if *own == name {
            return true;
        }
    }
    false
}

/// Whether a section defines a procedure of this name.
pub fn is_defined(sections: &[Section], name: &[u8]) -> bool {
    sections
        .iter()
        .any(|section| defined_in(section.decls(), name).is_some())
}

/// How many arguments a routine of the library takes, if this is the name of one that has a number.
fn wanted_arguments(name: &[u8]) -> Option<usize> {
    match name {
        b"RDCH" | b"NEWLINE" => Some(0),
        b"STOP" | b"WRCH" | b"WRITES" | b"WRITEN" => Some(1),
        b"WRITED" | b"GETBYTE" => Some(2),
        b"PUTBYTE" => Some(3),
        _ => None,
    }
}

/// A call of a routine of the library with more arguments than it takes.
fn in_library_call(alloc: Global, found: &mut Found, at: Position, callee: &Expr, given: usize) {
    let Expr::Name { letters: name, .. } = callee else {
        return;
    };
    if let Some(wanted) = wanted_arguments(name)
        && given > wanted
        && !is_own(found, name)
    {
        remark_arguments(alloc, found, at, name, (given, wanted));
    }
}

/// Adds a remark, if there is room for it.
pub fn make_remark(alloc: Global, found: &mut Found, at: Position, pieces: &[&[u8]]) {
    if found.remarks.len() >= REMARKS {
        return;
    }
    if add_remark(alloc, found, at, pieces).is_err() {
        found.fails();
    }
}

/// Adds a remark.
fn add_remark(
    alloc: Global,
    found: &mut Found,
    at: Position,
    pieces: &[&[u8]],
) -> Result<(), AllocError> {
    let mut text = Text::new(alloc);
    add(&mut text, pieces);
    found.remarks.push(Remark {
        notice: Notice::new(
            alloc,
            at,
            Within::Section(found.section),
            text.whole()?,
            Vec::new(alloc),
        ),
        unless_noted_from: None,
    })?;
    Ok(())
}

/// Remarks on the cases of a SWITCHON into which the commands before them go on, with no comment that says so.
fn in_cases(alloc: Global, found: &mut Found, body: &Command) {
    let Ok(all) = falls(alloc, body) else {
        found.fails();
        return;
    };
    for fall in &all {
        let made = found.remarks.len();
        make_remark(
            alloc,
            found,
            fall.at,
            &[
                b"the commands before this go on into it, since no `ENDCASE` ends them; if that is meant, a comment before this stops the remark",
            ],
        );
        if let Some(remark) = found.remarks.get_mut(made) {
            remark.unless_noted_from = Some(fall.from);
        }
    }
}

/// The number that an expression is, if it is written as one.
pub fn number(expr: &Expr) -> Option<i32> {
    match expr {
        Expr::Number { word, .. } => Some(word.cast_signed()),
        Expr::Unary {
            prefix: Prefix::Minus,
            operand,
            ..
        } => match &**operand {
            Expr::Number { word, .. } => word.cast_signed().checked_neg(),
            _ => None,
        },
        _ => None,
    }
}

/// Whether a FOR begins at what may be a length or the last number of something: a name, or a part of a vector or string.
fn is_length(expr: &Expr) -> bool {
    match expr {
        Expr::Name { .. } => true,
        Expr::Binary { operator, .. } => matches!(
            operator,
            Operator::Byte | Operator::Subscript | Operator::Subtract
        ),
        _ => false,
    }
}

/// A FOR without a step, from a length to 0 or 1: it is perhaps meant to count down.
fn in_upward(alloc: Global, found: &mut Found, at: Position, from: &Expr, to: &Expr) {
    let Some(last) = number(to) else {
        return;
    };
    if last < 0 || last > 1 || !is_length(from) {
        return;
    }
    let limit = word_text(last);
    let mut first = Text::new(alloc);
    add_expr(&mut first, from);
    let Ok(first) = first.whole() else {
        found.fails();
        return;
    };
    make_remark(
        alloc,
        found,
        at,
        &[
            b"this `FOR` counts up, and does nothing where ",
            &first,
            b" is greater than ",
            limit.as_bytes(),
            b"; perhaps `BY -1` is missing",
        ],
    );
}

/// A FOR whose command is never done.
fn in_for(
    alloc: Global,
    found: &mut Found,
    at: Position,
    from: &Expr,
    to: &Expr,
    by: &Option<Box<Expr>>,
) {
    let step = match by {
        None => Some(1),
        Some(by) => number(by),
    };
    if by.is_none() {
        in_upward(alloc, found, at, from, to);
    }
    let (Some(from), Some(to), Some(step)) = (number(from), number(to), step) else {
        return;
    };
    let first = word_text(from);
    let last = word_text(to);
    if step > 0 && from > to {
        make_remark(
            alloc,
            found,
            at,
            &[
                b"this `FOR` does nothing, since ",
                first.as_bytes(),
                b" is greater than ",
                last.as_bytes(),
                b"; perhaps `BY -1` is missing",
            ],
        );
        return;
    }
    if step < 0 && from < to {
        make_remark(
            alloc,
            found,
            at,
            &[
                b"this `FOR` does nothing, since ",
                first.as_bytes(),
                b" is less than ",
                last.as_bytes(),
                b" and its step is negative",
            ],
        );
    }
}

/// A `\` in a string that begins an escape in C.
fn in_text(alloc: Global, found: &mut Found, at: Position, bytes: &[u8]) {
    if bytes.windows(2).any(|pair| matches!(pair, b"\\n" | b"\\t")) {
        make_remark(
            alloc,
            found,
            at,
            &[b"`\\` begins no escape in a string: `*N` is the end of a line, and `*T` a tab"],
        );
    }
}

/// Whether an expression compares two others.
fn compares(expr: &Expr) -> bool {
    match expr {
        Expr::Binary { operator, .. } => is_relation(*operator),
        _ => false,
    }
}

/// Whether an operator compares.
fn is_relation(operator: Operator) -> bool {
    matches!(
        operator,
        Operator::Equal
            | Operator::Unequal
            | Operator::Less
            | Operator::Greater
            | Operator::AtMost
            | Operator::AtLeast
    )
}

/// Whether an expression compares two numbers as they are written.
fn compares_numbers(expr: &Expr) -> bool {
    match expr {
        Expr::Binary {
            operator,
            left,
            right,
            ..
        } => is_relation(*operator) && number(left).is_some() && number(right).is_some(),
        _ => false,
    }
}

/// `&` or `|` whose operands are perhaps grouped otherwise than is meant.
fn in_operands(alloc: Global, found: &mut Found, expr: &Expr) {
    let Expr::Binary {
        operator,
        sign,
        left,
        right,
        ..
    } = expr
    else {
        return;
    };
    let operator = *operator;
    let at = *sign;
    if operator == Operator::Either && compares(left) && number(right).is_some() {
        make_remark(
            alloc,
            found,
            at,
            &[b"`X = A | B` groups as `(X = A) | B`; `X = A | X = B` compares with both"],
        );
        return;
    }
    if operator == Operator::Both && compares_numbers(right) && !compares(left) {
        make_remark(
            alloc,
            found,
            at,
            &[b"`X & A = B` groups as `X & (A = B)`; `(X & A) = B` compares what `&` gives"],
        );
    }
}

/// Notes the names that are conditions by themselves, in a condition.
#[cycle(tests)]
fn note_tests(found: &mut Found, expr: &Expr) {
    match expr {
        Expr::Name { at, letters } => found.names.note_test(letters, *at),
        Expr::Parens { inside, .. } => note_tests(found, inside),
        Expr::Unary {
            prefix: Prefix::Not,
            operand,
            ..
        } => note_tests(found, operand),
        Expr::Binary {
            operator: Operator::Both | Operator::Either,
            left,
            right,
            ..
        } => {
            note_tests(found, left);
            note_tests(found, right);
        }
        _ => {}
    }
}

/// What is suspicious in an expression.
#[cycle(remarks)]
fn in_expr(alloc: Global, found: &mut Found, expr: &Expr) {
    match expr {
        Expr::Text { at, bytes } => in_text(alloc, found, *at, bytes),
        Expr::Name { at, letters } => found.names.note(letters, *at, None),
        Expr::Number { .. } | Expr::Truth { .. } | Expr::Query { .. } | Expr::Table { .. } => {}
        Expr::Parens { inside, .. } => in_expr(alloc, found, inside),
        Expr::Unary { operand, .. } => in_expr(alloc, found, operand),
        Expr::Binary {
            left: a,
            right: b,
            ..
        } => {
            in_operands(alloc, found, expr);
            in_expr(alloc, found, a);
            in_expr(alloc, found, b);
        }
        Expr::Choice {
            condition,
            yes,
            no,
            ..
        } => {
            note_tests(found, condition);
            in_expr(alloc, found, condition);
            in_expr(alloc, found, yes);
            in_expr(alloc, found, no);
        }
        Expr::Apply {
            sign,
            callee,
            arguments,
            ..
        } => {
            in_call(alloc, found, *sign, callee, arguments);
            in_exprs(alloc, found, arguments);
        }
        Expr::Valof { command, .. } => in_command(alloc, found, command),
    }
}

/// What is suspicious in a call.
#[cycle(remarks)]
fn in_call(alloc: Global, found: &mut Found, at: Position, callee: &Expr, arguments: &[Expr]) {
    in_format(alloc, found, at, callee, arguments);
    in_library_call(alloc, found, at, callee, arguments.len());
    match callee {
        Expr::Name { at, letters } => found.names.note(letters, *at, Some(arguments.len())),
        _ => in_expr(alloc, found, callee),
    }
}

/// What is suspicious in some expressions.
#[cycle(remarks)]
fn in_exprs(alloc: Global, found: &mut Found, exprs: &[Expr]) {
    for expr in exprs {
        in_expr(alloc, found, expr);
    }
}

/// What is suspicious in a command.
#[cycle(remarks)]
fn in_command(alloc: Global, found: &mut Found, command: &Command) {
    match command {
        Command::Empty | Command::Goto { .. } | Command::Simple { .. } => {}
        Command::Assign {
            destinations: dests,
            values,
            ..
        } => {
            in_exprs(alloc, found, dests);
            in_exprs(alloc, found, values);
        }
        Command::Call {
            at,
            callee,
            arguments,
        } => {
            in_call(alloc, found, *at, callee, arguments);
            in_exprs(alloc, found, arguments);
        }
        Command::Label { at, letters, body } => {
            found.names.declare(letters, *at, None);
            in_command(alloc, found, body);
        }
        Command::Case { body, .. } | Command::Default { body, .. } | Command::Repeat { body, .. } =>
            in_command(alloc, found, body),
        Command::If {
            condition: value,
            body,
            ..
        }
        | Command::While {
            condition: value,
            body,
            ..
        } => {
            note_tests(found, value);
            in_expr(alloc, found, value);
            in_command(alloc, found, body);
        }
        Command::SwitchOn { value, body, .. } => {
            in_expr(alloc, found, value);
            in_cases(alloc, found, body);
            in_command(alloc, found, body);
        }
        Command::Test {
            condition: value,
            yes,
            no,
            ..
        } => {
            note_tests(found, value);
            in_expr(alloc, found, value);
            in_command(alloc, found, yes);
            in_command(alloc, found, no);
        }
        Command::For {
            at,
            name,
            from,
            to,
            by,
            body,
            ..
        } => {
            in_for(alloc, found, *at, from, to, by);
            found.names.declare(&name.letters, name.at, None);
            in_expr(alloc, found, from);
            in_expr(alloc, found, to);
            in_command(alloc, found, body);
        }
        Command::ResultIs { value, .. } => in_expr(alloc, found, value),
        Command::Block {
            decls,
            commands,
            ..
        } => {
            in_decls(alloc, found, decls);
            in_commands(alloc, found, commands);
        }
        Command::RepeatWhile {
            body,
            condition: value,
            ..
        } => {
            in_command(alloc, found, body);
            note_tests(found, value);
            in_expr(alloc, found, value);
        }
    }
}

/// What is suspicious in some commands.
#[cycle(remarks)]
fn in_commands(alloc: Global, found: &mut Found, commands: &[Command]) {
    for command in commands {
        in_command(alloc, found, command);
    }
}

/// What is suspicious in declarations and in what they define.
#[cycle(remarks)]
fn in_decls(alloc: Global, found: &mut Found, decls: &[Decl]) {
    twice(alloc, found, decls);
    for decl in decls {
        match decl {
            Decl::Let { defs, .. } => in_defs(alloc, found, defs),
            Decl::Constants { items, .. } => found.names.declare_items(items),
        }
    }
}

/// What is suspicious in the definitions of a LET.
#[cycle(remarks)]
fn in_defs(alloc: Global, found: &mut Found, defs: &[Def]) {
    for def in defs {
        in_def(alloc, found, def);
    }
}

/// What is suspicious in a definition.
#[cycle(remarks)]
fn in_def(alloc: Global, found: &mut Found, def: &Def) {
    match def {
        Def::Routine {
            at,
            letters,
            formals,
            body,
        } => {
            found.names.declare(letters, *at, Some(formals.len()));
            found.names.declare_all(formals);
            in_command(alloc, found, body);
        }
        Def::Function {
            at,
            letters,
            formals,
            body,
        } => {
            found.names.declare(letters, *at, Some(formals.len()));
            found.names.declare_all(formals);
            in_function(alloc, found, letters, formals, body);
            in_expr(alloc, found, body);
        }
        Def::Variables { names, inits, .. } => {
            found.names.declare_all(names);
            in_inits(alloc, found, inits);
        }
    }
}

/// What is suspicious in what variables begin with.
#[cycle(remarks)]
fn in_inits(alloc: Global, found: &mut Found, inits: &[Init]) {
    for init in inits {
        if let Init::Value(value) = init {
            in_expr(alloc, found, value);
        }
    }
}

/// What is suspicious in the sections of a program, in the order of the source within each kind: ten remarks at most.
pub fn remarks_on(alloc: Global, sections: &[Section]) -> Result<Vec<Remark>, AllocError> {
    let mut found = Found {
        remarks: Vec::new(alloc),
        section: 0,
        names: Names::new(alloc),
        own_routines: own_routines(alloc, sections)?,
        is_whole: true,
    };
    let has_start = sections.iter().any(begins);
    for (number, section) in sections.iter().enumerate() {
        found.section = number;
        if !has_start {
            no_start(alloc, &mut found, section.decls());
        }
        in_decls(alloc, &mut found, section.decls());
        let names = replace(&mut found.names, Names::new(alloc));
        if !names.is_whole() {
            found.fails();
        }
        on_procedures(alloc, &mut found, &names);
        on_globals(alloc, &mut found, section.decls());
    }
    if !found.is_whole {
        return Err(AllocError);
    }
    Ok(found.remarks)
}
