//! What a VALOF ends in that ended without RESULTIS, and what a procedure gives.

use crate::made::seek;
use crate::operands::bare;
use crate::sought::{Search, Setters};
use crate::values::Page;
use bk_lasting::{Body, Lasting, Procedure};
use bk_objects::Worth;
use bk_tree::{Command, Expr, Position, Simple};

/// The command of the VALOF on a line that is the body of a procedure.
fn command_of<'a>(procedure: &Procedure<'a>, line: u32) -> Option<&'a Command> {
    let Body::Value(value) = procedure.body else {
        return None;
    };
    match bare(value) {
        Expr::Valof { at, command } if at.line().number() == line => Some(command),
        _ => None,
    }
}

/// The last of the commands that a command has in it.
#[cycle(last)]
fn last_of(command: &Command) -> &Command {
    match command {
        Command::Block { commands, .. } => match commands.last() {
            Some(last) => last_of(last),
            None => command,
        },
        _ => command,
    }
}

/// Whether the command of a SWITCHON has a DEFAULT.
#[cycle(default)]
fn has_default(command: &Command) -> bool {
    match command {
        Command::Default { .. } => true,
        Command::Label { body, .. } | Command::Case { body, .. } => has_default(body),
        Command::Block { commands, .. } => one_has_default(commands),
        _ => false,
    }
}

/// Whether one of these commands has it.
#[cycle(default)]
fn one_has_default(commands: &[Command]) -> bool {
    for command in commands {
        if has_default(command) {
            return true;
        }
    }
    false
}

/// Whether an ENDCASE of the SWITCHON that a command is in is in the command; no VALOF is looked at.
#[cycle(endcase)]
fn has_endcase(command: &Command) -> bool {
    match command {
        Command::Simple {
            word: Simple::EndCase,
            ..
        } => true,
        Command::Label { body, .. }
        | Command::Case { body, .. }
        | Command::Default { body, .. }
        | Command::If { body, .. }
        | Command::While { body, .. }
        | Command::For { body, .. }
        | Command::Repeat { body, .. }
        | Command::RepeatWhile { body, .. } => has_endcase(body),
        Command::Test { yes, no, .. } => has_endcase(yes) || has_endcase(no),
        Command::Block { commands, .. } => one_has_endcase(commands),
        _ => false,
    }
}

/// Whether one is in one of these commands.
#[cycle(endcase)]
fn one_has_endcase(commands: &[Command]) -> bool {
    for command in commands {
        if has_endcase(command) {
            return true;
        }
    }
    false
}

/// Whether nothing goes on after a command.
#[cycle(leaves)]
fn leaves(command: &Command) -> bool {
    match command {
        Command::ResultIs { .. } | Command::Goto { .. } | Command::Simple { .. } => true,
        Command::Label { body, .. } | Command::Case { body, .. } | Command::Default { body, .. } =>
            leaves(body),
        Command::Test { yes, no, .. } => leaves(yes) && leaves(no),
        Command::Block { commands, .. } => match commands.last() {
            Some(last) => leaves(last),
            None => false,
        },
        _ => false,
    }
}

/// The word that a command is known by, and where it is, if it may end with nothing done, or after a last round.
fn keyword_of(command: &Command) -> Option<(&'static [u8], Position)> {
    match command {
        Command::If { at, truth, .. } => Some((if *truth { b"IF" } else { b"UNLESS" }, *at)),
        Command::Test { at, .. } => Some((b"TEST", *at)),
        Command::While { at, truth, .. } => Some((if *truth { b"WHILE" } else { b"UNTIL" }, *at)),
        Command::RepeatWhile { at, .. } | Command::Repeat { at, .. } => Some((b"REPEAT", *at)),
        Command::For { name, .. } => Some((b"FOR", name.at)),
        Command::SwitchOn { at, .. } => Some((b"SWITCHON", *at)),
        _ => None,
    }
}

/// Adds the last command of the VALOF on a line in the procedure with a number.
pub fn say_last(page: &mut Page, line: u32, number: u32) {
    let Some(Lasting::Code(procedure)) = page.program.get(number as usize) else {
        return;
    };
    let Some(command) = command_of(procedure, line) else {
        return;
    };
    let last = last_of(command);
    let Some((keyword, at)) = keyword_of(last) else {
        return;
    };
    page.say(&[b"; its last command is the `", keyword, b"` of line "]);
    page.say_number(at.line().number() as usize);
    if let Command::SwitchOn { body, .. } = last {
        say_switch_end(page, body);
    }
}

/// Adds what the procedure gives that is called by its name, in a call that has this value, where that is known.
pub fn say_call_result(page: &mut Page, call: &Expr, x: Option<Worth>) {
    if let Expr::Apply { callee, .. } = bare(call)
        && let Expr::Name { letters, .. } = &**callee
        && let Some(Worth::Procedure(number)) = page.known(callee)
        && let Some(Lasting::Code(procedure)) = page.program.get(number as usize)
        && procedure.name == letters.as_slice()
    {
        say_result(page, procedure, x);
    }
}

/// Adds what the procedure gives that is called where another name was set, if one place sets that.
pub fn say_given(page: &mut Page, setters: Setters, x: Worth) {
    if let Some(setter) = setters.first
        && setters.count == 1
    {
        say_call_result(page, setter.value, Some(x));
    }
}

/// Adds what a procedure gives.
fn say_gives(page: &mut Page, procedure: &Procedure, given: &Expr) {
    page.say(&[b"; ", procedure.name, b" gives `"]);
    page.say_expr(given);
    page.say(&[b"`, on line "]);
    page.say_number(given.at().line().number() as usize);
}

/// Adds the value of a procedure; of one with VALOF, the line of the first RESULTIS that has this number, or its only RESULTIS.
fn say_result(page: &mut Page, procedure: &Procedure, x: Option<Worth>) {
    let Body::Value(given) = procedure.body else {
        return;
    };
    if !matches!(bare(given), Expr::Valof { .. }) {
        say_gives(page, procedure, given);
        return;
    }
    let mut search = Search::new(Position::first(), b"");
    search.value = x;
    seek(&mut search, procedure);
    let Search {
        result_line,
        results,
        ..
    } = search;
    if let Some(line) = result_line
        && let Some(x) = x
    {
        page.say(&[b"; ", procedure.name, b" has `RESULTIS "]);
        page.say_value(x);
        page.say(&[b"` on line "]);
        page.say_number(line as usize);
        return;
    }
    match (results.first, x) {
        (Some(only), None | Some(Worth::Number(_) | Worth::Address(_, _))) if results.count == 1 =>
            {
                say_gives(page, procedure, only.value);
            }
        _ => {}
    }
}

/// Adds how a SWITCHON with this body may have ended, if the text tells: by a number that no CASE has, or by ENDCASE.
fn say_switch_end(page: &mut Page, body: &Command) {
    match (has_default(body), has_endcase(body)) {
        (false, true) => page.say(&[b", which has no `DEFAULT`, and which `ENDCASE` leaves"]),
        (true, true) => page.say(&[b", which `ENDCASE` leaves"]),
        (false, false) if leaves(body) => page.say(&[b", which has no `DEFAULT`"]),
        _ => {}
    }
}
