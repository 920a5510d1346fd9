//! Why a name was never set, or has not the value that a call gives it.

use crate::made::{in_procedure, loop_at};
use crate::operations::say_names;
use crate::setting::{cell_of, has_outside, is_formal, is_set_in, line, setters_of_all};
use crate::sought::{Search, Setters};
use crate::values::{Object, Page};
use crate::walk::in_expr;
use bk_check::{Continuation, OnValue};
use bk_lasting::{GLOBALS_OBJECT, Lasting, Procedure, Sense};
use bk_objects::Worth;
use bk_tree::{Command, Expr, Position};

/// Where the variable is declared that a name means.
pub fn variable_at(page: &Page, name: &[u8]) -> Option<Position> {
    let (_, object, _) = cell_of(page, name)?;
    let_of(page, object)
}

/// Where the LET of a variable is that was made by it.
fn let_of(page: &Page, object: u64) -> Option<Position> {
    match page.object(object) {
        Object::Made(made) => Some(made.at),
        _ => None,
    }
}

/// Adds that another variable has the name of one that was never set, or that an assignment to it was not reached; `query` is the line
/// of the `?` that it has.
pub fn say_unreached(page: &mut Page, name: &[u8], object: u64, query: u32) {
    let Some(names) = page.names else {
        return;
    };
    let Some(spelled) = names.spelled(name) else {
        return;
    };
    let Some(at) = let_of(page, object) else {
        return;
    };
    if line(at) != query {
        return;
    }
    let Search {
        other,
        setters,
        is_taken,
        ..
    } = in_procedure(names.procedure, at, spelled);
    if let Some(other) = other {
        page.say(&[b"; the ", name, b" of line "]);
        page.say_number(other as usize);
        page.say(&[b" is another variable"]);
        return;
    }
    if is_taken {
        return;
    }
    say_assignment(page, name, setters, b"");
    if let Some(setter) = setters.first
        && setter.line != line(page.at)
    {
        say_for_of(page, setter.value);
    }
}

/// Adds from where to where a FOR goes in the procedure that is active, if an expression is its variable and nothing else has its name.
fn say_for_of<'a>(page: &mut Page<'_, 'a>, value: &'a Expr) {
    let (Some(names), Expr::Name { letters, .. }) = (page.names, value) else {
        return;
    };
    let Search {
        declared,
        declared_at,
        ..
    } = in_procedure(names.procedure, Position::first(), letters);
    if declared != 1 || is_formal(names.procedure, letters) {
        return;
    }
    let Some(at) = declared_at else {
        return;
    };
    let Some(
        Command::For {
            from,
            to,
            by: None,
            ..
        },
    ) = loop_at(page.program, at)
    else {
        return;
    };
    page.say(&[b"; the `FOR ", letters, b"` of line "]);
    page.say_number(line(at) as usize);
    page.say(&[b" goes from "]);
    page.say_expr(from);
    page.say(&[b" to "]);
    page.say_expr(to);
    say_names(page, from);
    say_names(page, to);
}

/// Whether an expression has a name.
fn has_name(expr: &Expr, name: &[u8]) -> bool {
    let mut search = Search::new(expr.at(), b"");
    in_expr(&mut search, expr);
    let Search { beside, .. } = search;
    beside.has(name)
}

/// Adds that the first of some assignments to a name was not reached, unless it is on the line of the act, or uses the name itself;
/// `procedure` is the name of the procedure that has it, where that may be another.
fn say_assignment(page: &mut Page, name: &[u8], setters: Setters, procedure: &[u8]) {
    let Setters { first, .. } = setters;
    if let Some(setter) = first
        && setter.line != line(page.at)
        && !has_name(setter.value, name)
    {
        page.say(&[b"; the assignment of line "]);
        page.say_number(setter.line as usize);
        if !procedure.is_empty() && !page.is_here(procedure) {
            page.say(&[b", in ", procedure, b","]);
        }
        page.say(&[b" was not reached"]);
    }
}

/// The name of the first procedure that sets what a name means in all of them.
fn first_to_set<'a>(program: &[Lasting<'a>], name: &'a [u8], cell: (u64, u32)) -> &'a [u8] {
    for lasting in program {
        if let Lasting::Code(procedure) = lasting
            && has_outside(procedure, name, cell)
            && is_set_in(procedure, name)
        {
            return procedure.name;
        }
    }
    b""
}

/// The procedure that a call evaluates an argument for, and the name of its formal.
fn callee_of<'m, 'a>(page: &Page<'m, 'a>) -> Option<(&'m Procedure<'a>, &'a [u8])> {
    let Continuation::Value(OnValue::Argument(_, _, _, before, callee, _)) = page.m.frames.last()?
    else {
        return None;
    };
    let Worth::Procedure(number) = page.known(callee)? else {
        return None;
    };
    match page.program.get(number as usize)? {
        Lasting::Code(procedure) => {
            Some((procedure, &procedure.formals.get(before.len())?.letters))
        }
        _ => None,
    }
}

/// Adds that a call passes the value of a name, where its procedure sets the formal.
pub fn say_by_value(page: &mut Page, name: &[u8]) {
    if let Some((procedure, formal)) = callee_of(page)
        && is_set_in(procedure, formal)
    {
        page.say(&[
            b"; ",
            procedure.name,
            b" gets its value, and sets a formal of its own; `@",
            name,
            b"` is its address",
        ]);
    }
}

/// The line of a declaration of this name in the body of a procedure, and the name of that procedure.
fn local_of<'a>(program: &[Lasting<'a>], name: &'a [u8]) -> Option<(u32, &'a [u8])> {
    for lasting in program {
        if let Lasting::Code(procedure) = lasting
            && let Some(other) = in_procedure(procedure, Position::first(), name).other
        {
            return Some((other, procedure.name));
        }
    }
    None
}

/// Whether a section has a procedure of this name that is no global.
fn is_own_procedure(program: &[Lasting], name: &[u8]) -> bool {
    for lasting in program {
        if let Lasting::Code(procedure) = lasting
            && procedure.name == name
            && procedure.global.is_none()
        {
            return true;
        }
    }
    false
}

/// Whether a section has a static word of this name.
fn is_static(program: &[Lasting], name: &[u8]) -> bool {
    for lasting in program {
        if let Lasting::Code(procedure) = lasting
            && let Some(Sense::Cell(_, object)) = procedure.env.sense(name)
            && object != GLOBALS_OBJECT
        {
            return true;
        }
    }
    false
}

/// Adds why nothing was assigned to a global, as far as the text tells.
pub fn say_no_global(page: &mut Page, name: &[u8], number: u32) {
    if let Some(other) = page.other_number(name, number) {
        page.say(&[b"; elsewhere ", name, b" is the global "]);
        page.say_word(other);
        return;
    }
    if is_own_procedure(page.program, name) {
        page.say(&[
            b"; the procedure ",
            name,
            b" of another section is no global there",
        ]);
        return;
    }
    if is_static(page.program, name) {
        page.say(&[
            b"; elsewhere ",
            name,
            b" is a static word, which no other section sees",
        ]);
        return;
    }
    let Some((spelled, _, _)) = cell_of(page, name) else {
        return;
    };
    let setters = setters_of_all(page.program, spelled, (GLOBALS_OBJECT, number), None);
    if setters.count > 0 {
        let procedure = first_to_set(page.program, spelled, (GLOBALS_OBJECT, number));
        say_assignment(page, name, setters, procedure);
        return;
    }
    if let Some((other, procedure)) = local_of(page.program, spelled) {
        page.say(&[b"; the ", name, b" of line "]);
        page.say_number(other as usize);
        page.say(&[b", in ", procedure, b", is another variable"]);
    }
}
