//! Where a name was set.

use crate::made::{arguments_at, in_procedure, seek};
use crate::names::names_of;
use crate::operands::{Operand, bare, name_of};
use crate::results::{say_call_result, say_given};
use crate::sought::{Few, Kind, Search, Setter, Setters, Words};
use crate::spelling::{add, add_expr, add_ordinal};
use crate::text::Text;
use crate::values::{Object, Page};
use crate::walk::{in_command, in_expr};
use bk_check::Continuation;
use bk_lasting::{Lasting, Procedure, Sense};
use bk_objects::Worth;
use bk_tree::{Expr, Operator, Position};

/// The number of a line.
pub fn line(at: Position) -> u32 {
    at.line().number()
}

/// Adds the line, or the two lines, where a name is set.
fn say_lines(page: &mut Page, name: &[u8], first: u32, second: Option<u32>) {
    page.say(&[b"; ", name, b" is set on line "]);
    page.say_number(first as usize);
    if let Some(second) = second
        && second != first
    {
        page.say(&[b" and on line "]);
        page.say_number(second as usize);
    }
}

/// Adds what a name is set to, unless it is a number, or is said already.
fn say_source(page: &mut Page, value: &Expr) {
    match bare(value) {
        Expr::Name { .. } | Expr::Binary { .. } | Expr::Apply { .. } | Expr::Unary { .. } => {}
        _ => return,
    }
    let spelled = page.spelled(value);
    if !page.has(&spelled) {
        page.say(&[b", to ", &spelled]);
    }
}

/// Adds where a name was set, if that is on another line than the act, and at most two places set it.
pub fn say_setters(page: &mut Page, name: &[u8], setters: Setters) {
    let here = line(page.at);
    let Setters {
        count,
        first,
        second,
    } = setters;
    match (first, second) {
        (Some(first), None) if first.line != here => {
            say_lines(page, name, first.line, None);
            say_source(page, first.value);
        }
        (Some(first), Some(second)) if count == 2 && (first.line != here || second.line != here) =>
            {
                say_lines(page, name, first.line, Some(second.line));
            }
        _ => {}
    }
}

/// Where a procedure sets a name, if that may have given this value.
fn setters_in<'a>(procedure: &Procedure<'a>, name: &'a [u8], value: Worth) -> Search<'a> {
    let mut search = Search::new(Position::first(), name);
    search.value = Some(value);
    seek(&mut search, procedure);
    search
}

/// Where the procedures set what a name means in all of them, if that may have given this value.
pub fn setters_of_all<'a>(
    program: &[Lasting<'a>],
    name: &'a [u8],
    cell: (u64, u32),
    value: Option<Worth>,
) -> Setters<'a> {
    let mut search = Search::new(Position::first(), name);
    search.value = value;
    for lasting in program {
        if let Lasting::Code(procedure) = lasting
            && has_outside(procedure, name, cell)
        {
            seek(&mut search, procedure);
        }
    }
    let Search {
        setters,
        is_taken,
        ..
    } = search;
    if is_taken { Setters::none() } else { setters }
}

/// Whether a name means this cell in a procedure, which declares no other of the name.
pub fn has_outside<'a>(procedure: &Procedure<'a>, name: &'a [u8], cell: (u64, u32)) -> bool {
    match procedure.env.sense(name) {
        Some(Sense::Cell(offset, object)) => {
            (object, offset) == cell
                && !is_formal(procedure, name)
                && in_procedure(procedure, Position::first(), name).declared == 0
        }
        _ => false,
    }
}

/// Whether a formal of a procedure has a name.
pub fn is_formal(procedure: &Procedure, name: &[u8]) -> bool {
    procedure
        .formals
        .iter()
        .any(|formal| formal.letters.as_slice() == name)
}

/// Where the variable of a LET or a FOR was set, if nothing in its scope has its name, and nothing else can set it.
fn setters_of_variable<'a>(
    page: &Page<'_, 'a>,
    at: Position,
    name: &'a [u8],
    value: Option<Worth>,
) -> Setters<'a> {
    let Some(names) = page.names else {
        return Setters::none();
    };
    let Some(scope) = in_procedure(names.procedure, at, name).scope else {
        return Setters::none();
    };
    let mut search = Search::new(at, name);
    search.value = value;
    in_command(&mut search, scope);
    let Search {
        declared,
        is_taken,
        setters,
        ..
    } = search;
    if declared != 1 || is_taken {
        Setters::none()
    } else {
        setters
    }
}

/// Adds where the variable of a LET was set, and where what it was set to was.
fn say_variable<'a>(page: &mut Page<'_, 'a>, at: Position, name: &'a [u8], x: Worth) {
    let setters = setters_of_variable(page, at, name, Some(x));
    say_setters(page, name, setters);
    say_given(page, setters, x);
    say_cause(page, name, setters);
}

/// Whether a command of a procedure sets a name, or takes its address.
pub fn is_set_in<'a>(procedure: &Procedure<'a>, name: &'a [u8]) -> bool {
    let Search {
        setters,
        is_taken,
        ..
    } = in_procedure(procedure, Position::first(), name);
    setters.count > 0 || is_taken
}

/// Where the procedure that is active is called, if there are several formals, of which no command of it sets this one.
fn call_of_formal<'a>(page: &Page<'_, 'a>, name: &'a [u8]) -> Option<Position> {
    let names = page.names?;
    if names.procedure.formals.len() < 2 || is_set_in(names.procedure, name) {
        return None;
    }
    match page.m.frames.get(names.call) {
        Some(Continuation::Returned(call)) => Some(call.at),
        _ => None,
    }
}

/// Adds where the commands of its procedure set a formal, at two places at most, and that the call does, if it has so many arguments.
fn say_set_formal<'a>(page: &mut Page<'_, 'a>, name: &'a [u8], offset: u32, x: Worth) {
    let Some(names) = page.names else {
        return;
    };
    let Search {
        declared,
        is_taken,
        setters,
        ..
    } = setters_in(names.procedure, name, x);
    if declared != 0 || is_taken || setters.count > 2 {
        return;
    }
    if let Some((_, arguments)) = names.formals
        && arguments <= offset as usize
    {
        say_setters(page, name, setters);
        return;
    }
    say_call_and(page, name, setters);
}

/// Adds that a call sets a formal, and the other places, if they are not all on the line of the act.
fn say_call_and(page: &mut Page, name: &[u8], setters: Setters) {
    let here = line(page.at);
    let Some(first) = setters.first else {
        return;
    };
    let last = setters.second.unwrap_or(first).line;
    if first.line == here && last == here {
        return;
    }
    page.say(&[b"; ", name, b" is set by the call, and on line "]);
    page.say_number(first.line as usize);
    if setters.count == 1 {
        say_source(page, first.value);
        say_field_setting(page, first.value);
        return;
    }
    if last != first.line {
        page.say(&[b" and on line "]);
        page.say_number(last as usize);
    }
}

/// Adds where a formal got its value; where a command of its procedure sets it, nothing of where an object begins, which is named itself.
fn say_formal<'a>(page: &mut Page<'_, 'a>, name: &'a [u8], offset: u32, x: Worth) {
    let Some(names) = page.names else {
        return;
    };
    if !is_set_in(names.procedure, name) {
        say_argument(page, name, offset);
        say_argument_source(page, name, offset);
        return;
    }
    match x {
        Worth::Address(0, _) => {}
        _ => say_set_formal(page, name, offset, x),
    }
}

/// The argument that a formal is, and where its call is, where there are several, and no command of the procedure sets it.
fn argument_of<'a>(
    page: &Page<'_, 'a>,
    name: &'a [u8],
    offset: u32,
) -> Option<(Position, &'a Expr)> {
    let at = call_of_formal(page, name)?;
    let argument = arguments_at(page.program, at)?.get(offset as usize)?;
    Some((at, argument))
}

/// Adds where the variables of the argument were set that a formal is, as the procedure says that passes it.
fn say_argument_source<'a>(page: &mut Page<'_, 'a>, name: &'a [u8], offset: u32) {
    let (Some(names), Some((_, argument))) = (page.names, argument_of(page, name, offset)) else {
        return;
    };
    let m = page.m;
    let Some(frames) = m.frames.get(..names.call) else {
        return;
    };
    page.names = names_of(page.program, frames);
    say_sources(page, argument);
    page.names = Some(names);
}

/// Adds which argument a formal is, where there are several, and no command of the procedure sets it.
fn say_argument<'a>(page: &mut Page<'_, 'a>, name: &'a [u8], offset: u32) {
    let Some((at, argument)) = argument_of(page, name, offset) else {
        return;
    };
    let index = offset as usize;
    page.say(&[b"; ", name, b" is the "]);
    add_ordinal(&mut page.text, index.saturating_add(1));
    page.say(&[b" argument on line "]);
    page.say_number(line(at) as usize);
    if let Expr::Number { .. } = argument {
        return;
    }
    page.say(&[b", "]);
    page.say_expr(argument);
}

/// Whether a value is the one that a static word begins with.
fn is_first(program: &[Lasting], object: u64, x: Worth) -> bool {
    match (program.get(object as usize), x) {
        (Some(Lasting::Words(words)), Worth::Number(number)) => words.first() == Some(&number),
        _ => false,
    }
}

/// Adds how a static word or a global was set.
fn say_lasting<'a>(page: &mut Page<'_, 'a>, name: &'a [u8], x: Worth, cell: (u64, u32)) {
    let (object, _) = cell;
    if is_first(page.program, object, x) {
        page.say(&[b"; `STATIC` gives ", name, b" that value"]);
        return;
    }
    let setters = setters_of_all(page.program, name, cell, Some(x));
    if setters.count == 1 {
        say_setters(page, name, setters);
        if let Some(names) = page.names
            && is_set_in(names.procedure, name)
        {
            say_given(page, setters, x);
            return;
        }
    }
}

/// The names of an expression that mean variables; none where it has many names.
pub fn variables_of<'e>(page: &Page, value: &'e Expr) -> Few<'e> {
    let mut search = Search::new(value.at(), b"");
    in_expr(&mut search, value);
    let Search { beside, .. } = search;
    let mut variables = Few::none();
    if let [_, _, _, Some(_)] = beside.each() {
        return variables;
    }
    for name in beside.each() {
        if let Some(name) = name
            && page.variable(name).is_some()
        {
            variables.add(name);
        }
    }
    variables
}

/// Adds where the variables of what a name was set to were set, if one place of the procedure that is active sets it.
fn say_cause<'a>(page: &mut Page<'_, 'a>, name: &'a [u8], setters: Setters<'a>) {
    let Some(Setter { line: set, value }) = setters.first else {
        return;
    };
    if setters.count != 1 || set == line(page.at) {
        return;
    }
    say_field_setting(page, value);
    if variables_of(page, value).has(name) {
        return;
    }
    say_sources(page, value);
}

/// Adds where the variables of a value were set; of none that is where an object begins, which is named itself.
fn say_sources<'a>(page: &mut Page<'_, 'a>, value: &'a Expr) {
    let variables = variables_of(page, value);
    let is_one = matches!(variables.each(), [Some(_), None, _, _]);
    for variable in variables.each() {
        if let Some(variable) = variable
            && !matches!(page.variable(variable), Some(Worth::Address(0, _)))
        {
            let before = page.length();
            say_source_of(page, variable, is_one);
            page.drop_twice(before);
        }
    }
}

/// Whether a name means the same everywhere in the procedure that is active: `outer` says that it means what is outside.
fn means_one<'a>(page: &Page<'_, 'a>, name: &'a [u8], outer: bool) -> bool {
    let Some(names) = page.names else {
        return false;
    };
    let declared = in_procedure(names.procedure, Position::first(), name).declared;
    if outer {
        declared == 0 && !is_formal(names.procedure, name)
    } else {
        declared == 0
    }
}

/// Adds where a name was set that another was set to: that its global has another name, or, where it is the only one, the place that
/// sets it, if there is one.
fn say_source_of<'a>(page: &mut Page<'_, 'a>, name: &'a [u8], is_one: bool) {
    let Some((_, object, offset)) = cell_of(page, name) else {
        return;
    };
    match page.object(object) {
        Object::Globals if means_one(page, name, true) => match page.other_name(name, offset) {
            Some(other) => {
                page.say(&[b"; ", name, b", the global "]);
                page.say_word(offset);
                page.say(&[b", is also called ", other]);
            }
            None if is_one => say_only(
                page,
                name,
                setters_of_all(page.program, name, (object, offset), None),
            ),
            None => {}
        },
        Object::Static(_) if is_one && means_one(page, name, true) => say_only(
            page,
            name,
            setters_of_all(page.program, name, (object, offset), None),
        ),
        Object::Made(made) if is_one => match made.kind {
            Kind::Variable => say_only(page, name, setters_of_variable(page, made.at, name, None)),
            Kind::Formals if means_one(page, name, false) => say_argument(page, name, offset),
            _ => {}
        },
        _ => {}
    }
}

/// Adds where a loop sets a name.
pub fn say_loop_setter(page: &mut Page, name: &[u8], setter: Setter) {
    say_lines(page, name, setter.line, None);
    say_source(page, setter.value);
}

/// Adds where a name is set, if there is one place.
fn say_only(page: &mut Page, name: &[u8], setters: Setters) {
    if setters.count == 1 {
        say_setters(page, name, setters);
    }
}

/// Adds where an operand that is a name, or a word of a vector, got its value, as far as the text tells.
pub fn say_setting(page: &mut Page, operand: Operand) {
    match (name_of(operand), operand.expr) {
        (Some(name), _) => say_setting_of(page, name, operand.value),
        (None, Some(expr)) => {
            say_word_setting(page, bare(expr));
            say_call_result(page, expr, Some(operand.value));
        }
        (None, None) => {}
    }
}

/// The words of vectors that are written like this one: of `!` with a constant that has a name, those with that constant.
fn words_like<'a>(page: &Page<'_, 'a>, expr: &Expr) -> Option<Words<'a>> {
    let names = page.names?;
    let Expr::Binary {
        operator: Operator::Subscript,
        left,
        right,
        ..
    } = expr
    else {
        return None;
    };
    match (&**left, &**right) {
        (_, Expr::Name { letters, .. }) if page.is_constant(right) => {
            Some(Words::Field(names.spelled(letters)?))
        }
        (Expr::Name { letters, .. }, _) if page.is_constant(left) => {
            Some(Words::Field(names.spelled(letters)?))
        }
        (Expr::Name { letters, .. }, Expr::Number { word, .. }) => {
            Some(Words::Of(names.spelled(letters)?, Some(*word)))
        }
        (Expr::Name { letters, .. }, _) => Some(Words::Of(names.spelled(letters)?, None)),
        _ => None,
    }
}

/// Adds where words like this one are set, if at most two places set them.
fn say_word_setting(page: &mut Page, expr: &Expr) {
    let Some(words) = words_like(page, expr) else {
        return;
    };
    let mut search = Search::sought(Position::first(), b"", Some(words));
    for lasting in page.program {
        if let Lasting::Code(procedure) = lasting {
            seek(&mut search, procedure);
        }
    }
    let Search {
        words_set,
        first_word,
        ..
    } = search;
    let mut spelled = Text::new(page.m.alloc);
    match (first_word, words) {
        (Some(first), _) if words_set.count == 1 => add_expr(&mut spelled, first),
        (_, Words::Field(name)) => add(&mut spelled, &[b"`!", name, b"`"]),
        (_, Words::Of(name, None)) => add(&mut spelled, &[b"a word of ", name]),
        (_, Words::Of(_, Some(_)) | Words::Part(_)) => add_expr(&mut spelled, expr),
    }
    let spelled = page.text.part(spelled);
    say_setters(page, &spelled, words_set);
}

/// Adds where the words are set that have this constant on a side of `!`, if an expression is such a word.
fn say_field_setting(page: &mut Page, expr: &Expr) {
    if let Some(Words::Field(_)) = words_like(page, bare(expr)) {
        say_word_setting(page, bare(expr));
    }
}

/// Adds where words like this one are set, but for those that have a number.
pub fn say_link_setting(page: &mut Page, expr: &Expr) {
    if let Some(Words::Field(_) | Words::Of(_, None)) = words_like(page, bare(expr)) {
        say_word_setting(page, bare(expr));
    }
}

/// Adds where a global or a static word is set, if at most two places set it.
pub fn say_places(page: &mut Page, name: &[u8]) {
    let Some((spelled, object, offset)) = cell_of(page, name) else {
        return;
    };
    let setters = setters_of_all(page.program, spelled, (object, offset), None);
    say_setters(page, spelled, setters);
}

/// Adds where a name got its value, as far as the text tells; nothing of a string, which is told itself.
pub fn say_setting_of(page: &mut Page, name: &[u8], x: Worth) {
    if page.is_text(x) {
        return;
    }
    let before = page.length();
    say_once_set(page, name, x);
    page.drop_twice(before);
    say_hidden(page, name);
}

/// Adds that a name hides a constant, if it means a variable, and would mean a constant without that.
pub fn say_hidden(page: &mut Page, name: &[u8]) {
    let Some(names) = page.names else {
        return;
    };
    let Some(word) = names.hidden_constant(name) else {
        return;
    };
    let before = page.length();
    page.say(&[b"; ", name, b" hides the constant ", name, b", "]);
    page.say_word(word);
    page.drop_twice(before);
}

/// What a name is in the program, and the cell that it means.
pub fn cell_of<'a>(page: &Page<'_, 'a>, name: &[u8]) -> Option<(&'a [u8], u64, u32)> {
    let names = page.names?;
    let spelled = names.spelled(name)?;
    match names.sense(name)? {
        Sense::Cell(offset, object) => Some((spelled, object, offset)),
        _ => None,
    }
}

/// Adds where a name got its value.
fn say_once_set(page: &mut Page, name: &[u8], x: Worth) {
    let Some((spelled, object, offset)) = cell_of(page, name) else {
        return;
    };
    match page.object(object) {
        Object::Made(made) => match made.kind {
            Kind::Variable => say_variable(page, made.at, spelled, x),
            Kind::Formals => say_formal(page, spelled, offset, x),
            Kind::Vector => {}
        },
        Object::Globals | Object::Static(_) | Object::Entry(_) => {
            say_lasting(page, spelled, x, (object, offset));
        }
        Object::String(_) | Object::Table | Object::Unknown => {}
    }
}
