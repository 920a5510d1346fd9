//! What was going on where the turns of a check were used up.

use crate::depth::is_mostly_one;
use crate::jumps::{Back, back_at, between, label_of};
use crate::made::{in_procedure, loop_at};
use crate::names::names_at;
use crate::operations::say_names;
use crate::remarks::number;
use crate::setting::{say_link_setting, say_loop_setter, say_places, say_setters};
use crate::sought::{Few, Search, Setter, Setters, is_up_to, place_of};
use crate::spelling::add;
use crate::text::Text;
use crate::values::{Object, Page};
use crate::walk::{in_command, in_expr};
use bk_check::{Continuation, OnDone, OnTruth};
use bk_lasting::{Env, Lasting, Sense};
use bk_objects::{Cell, Worth};
use bk_tree::{Command, Expr, Name, Operator, Position, Prefix};

/// How many calls are active where a recursion may be without end.
pub const MANY: u64 = 1000;

/// How many rounds of a loop that follows addresses are looked ahead, and one more.
const ROUNDS: usize = 101;

/// How the text begins of where the turns are used up.
const USED_UP: &[u8] = b"the turns are used up";

/// Among how many objects that were made last the variable of a FOR is sought.
const RECENT: usize = 100;

/// How many loops are named at most.
const LOOPS: usize = 3;

/// In how many frames the calls are sought whose procedures test globals.
const NEAR: usize = 40;

/// Of how many formals the values are told at most.
const FORMALS: usize = 4;

/// The loop that is to go on after a truth, and what names mean there.
fn loop_of_truth<'m, 'a>(frame: &'m OnTruth<'a>) -> Option<(&'a Command, &'m Env<'a>)> {
    match frame {
        OnTruth::First(_, command, env) | OnTruth::Further(_, command, env) => Some((command, env)),
        _ => None,
    }
}

/// The loop that is to go on after a command, and what names mean there; none of a FOR, which mostly ends.
fn loop_of_done<'m, 'a>(frame: &'m OnDone<'a>) -> Option<(&'a Command, &'m Env<'a>)> {
    match frame {
        OnDone::Round(command, env) => Some((command, env)),
        _ => None,
    }
}

/// The loop that a frame is of, and what names mean there.
fn loop_of<'m, 'a>(frame: &'m Continuation<'a>) -> Option<(&'a Command, &'m Env<'a>)> {
    match frame {
        Continuation::Truth(frame) => loop_of_truth(frame),
        Continuation::Done(frame) => loop_of_done(frame),
        _ => None,
    }
}

/// Adds the value of a name, if that is a number or an address, unless it is there already.
fn say_value_once(page: &mut Page, name: &[u8], is_read: bool) {
    let Some(x) = page.variable(name) else {
        return;
    };
    if !matches!(x, Worth::Number(_) | Worth::Address(_, _)) || is_own_vector(page, name, x) {
        return;
    }
    let mut piece = Text::new(page.m.alloc);
    add(&mut piece, &[b"; ", name, b" is "]);
    let piece = page.text.part(piece);
    if page.has(&piece) {
        return;
    }
    page.say(&[&piece]);
    page.say_value(x);
    if is_read && matches!(x, Worth::Number(0xFFFF_FFFF)) {
        page.say(&[b", as `RDCH` gives at the end of the input"]);
    }
}

/// Whether a value is the vector or the TABLE of this name.
fn is_own_vector(page: &Page, name: &[u8], x: Worth) -> bool {
    match x {
        Worth::Address(0, object) => match page.object(object) {
            Object::Made(made) => made.name == name,
            Object::Table => match page.table_name(object) {
                Some(made) => made.name == name,
                None => false,
            },
            _ => false,
        },
        _ => false,
    }
}

/// Adds the values of some names.
fn say_values(page: &mut Page, names: Few, read: Few) {
    for name in names.each() {
        if let Some(name) = name {
            say_value_once(page, name, read.has(name));
        }
    }
}

/// The names of an expression.
fn names_of<'a>(expr: &'a Expr) -> Few<'a> {
    let mut search = Search::new(expr.at(), b"");
    in_expr(&mut search, expr);
    let Search { beside, .. } = search;
    beside
}

/// Whether a name means a variable or a formal of the procedure that is active, and a number is in it.
fn is_local_number(page: &Page, name: &[u8]) -> bool {
    match page.variable(name) {
        Some(Worth::Number(_)) => is_local(page, name),
        _ => false,
    }
}

/// Whether a name means a variable or a formal.
fn is_local(page: &Page, name: &[u8]) -> bool {
    let Some(names) = page.names else {
        return false;
    };
    match names.sense(name) {
        Some(Sense::Cell(_, object)) => matches!(page.object(object), Object::Made(_)),
        _ => false,
    }
}

/// Whether a value depends on names and numbers alone.
#[cycle(names)]
fn is_of_names(expr: &Expr) -> bool {
    match expr {
        Expr::Name { .. } | Expr::Number { .. } | Expr::Truth { .. } => true,
        Expr::Parens { inside, .. } => is_of_names(inside),
        Expr::Unary {
            prefix: Prefix::Plus | Prefix::Minus | Prefix::Not,
            operand,
            ..
        } => is_of_names(operand),
        Expr::Binary {
            operator,
            left,
            right,
            ..
        } => {
            !matches!(operator, Operator::Subscript | Operator::Byte)
                && is_of_names(left)
                && is_of_names(right)
        }
        _ => false,
    }
}

/// Whether nothing in a loop sets a name, and nothing else in the procedure can.
fn is_constant_in<'a>(page: &Page<'_, 'a>, command: &'a Command, name: &'a [u8]) -> bool {
    let Some(names) = page.names else {
        return false;
    };
    let mut search = Search::new(command.at(), name);
    in_command(&mut search, command);
    let Search {
        setters,
        declared,
        ..
    } = search;
    setters.count == 0
        && declared == 0
        && !in_procedure(names.procedure, command.at(), name).is_taken
}

/// How many variables a condition has, if nothing in its loop sets one of them; else none.
fn still<'a>(page: &Page<'_, 'a>, command: &'a Command, names: Few<'a>) -> usize {
    let mut count: usize = 0;
    if let [_, _, _, Some(_)] = names.each() {
        return 0;
    }
    for name in names.each() {
        if let Some(name) = name
            && page.variable(name).is_some()
        {
            if !is_local_number(page, name) || !is_constant_in(page, command, name) {
                return 0;
            }
            count = count.saturating_add(1);
        }
    }
    count
}

/// Adds that nothing in a loop sets the variables of its condition, if that is so.
fn say_unset<'a>(page: &mut Page<'_, 'a>, command: &'a Command, condition: &'a Expr) {
    if !is_of_names(condition) {
        return;
    }
    match still(page, command, names_of(condition)) {
        0 => {}
        1 => page.say(&[b", and nothing in the loop sets it"]),
        _ => page.say(&[b", and nothing in the loop sets them"]),
    }
}

/// Where a name is set in a command that does not declare it.
fn setters_of<'a>(command: &'a Command, name: &'a [u8]) -> Setters<'a> {
    let mut search = Search::new(command.at(), name);
    in_command(&mut search, command);
    let Search {
        setters,
        declared,
        ..
    } = search;
    if declared == 0 {
        setters
    } else {
        Setters::none()
    }
}

/// Where a name is set in a command, if one place sets it.
fn only_setter<'a>(command: &'a Command, name: &'a [u8]) -> Option<Setter<'a>> {
    let Setters { count, first, .. } = setters_of(command, name);
    if count == 1 { first } else { None }
}

/// Whether two values are one number, or one address.
pub fn is_same(x: Worth, y: Worth) -> bool {
    match (x, y) {
        (Worth::Number(a), Worth::Number(b)) => a == b,
        (Worth::Address(i, a), Worth::Address(j, b)) => a == b && i == j,
        _ => false,
    }
}

/// Whether the variables of a value, other than this name, are as they are in each round of a loop.
fn is_steady<'a>(
    page: &Page<'_, 'a>,
    command: &'a Command,
    name: &'a [u8],
    value: &'a Expr,
) -> bool {
    let names = names_of(value);
    if let [_, _, _, Some(_)] = names.each() {
        return false;
    }
    for other in names.each() {
        if let Some(other) = other
            && other != name
            && page.variable(other).is_some()
            && !is_constant_in(page, command, other)
        {
            return false;
        }
    }
    true
}

/// After how many rounds a name has the value again that it has now, where each sets it to this, as the memory is.
fn rounds_back<'a>(
    page: &Page<'_, 'a>,
    command: &'a Command,
    name: &'a [u8],
    value: &'a Expr,
) -> Option<usize> {
    if !is_steady(page, command, name, value) {
        return None;
    }
    let first = page.variable(name)?;
    let mut x = first;
    for i in 1..ROUNDS {
        x = page.known_where(value, name, x)?;
        if is_same(x, first) {
            return Some(i);
        }
    }
    None
}

/// Adds what the word is that a name is set to next, and that the name comes back to its value over several; `back` is after how many
/// rounds.
fn say_link(page: &mut Page, name: &[u8], value: &Expr, back: Option<usize>) {
    match page.known(value) {
        Some(x @ Worth::Address(_, _)) => {
            page.say(&[b"; "]);
            page.say_is(value, x);
        }
        Some(x @ Worth::Number(_)) if back == Some(1) => {
            let before = page.length();
            page.say(&[b"; "]);
            page.say_is(value, x);
            page.drop_twice(before);
        }
        _ => {}
    }
    match (back, page.variable(name)) {
        (Some(rounds), Some(first)) if rounds > 1 => {
            page.say(&[b"; `", name, b" := "]);
            page.say_expr(value);
            page.say(&[b"` leads back to "]);
            page.say_value(first);
            page.say(&[b" in "]);
            page.say_number(rounds);
            page.say(&[b" rounds"]);
        }
        _ => {}
    }
}

/// Adds the words of vectors that a loop sets names to, as the next of a list.
fn say_links<'a>(page: &mut Page<'_, 'a>, command: &'a Command, names: Few<'a>) {
    for name in names.each() {
        if let Some(name) = name
            && let Some(setter) = only_setter(command, name)
            && !is_of_names(setter.value)
        {
            let back = rounds_back(page, command, name, setter.value);
            say_link(page, name, setter.value, back);
            if back.is_some() {
                say_link_setting(page, setter.value);
            }
        }
    }
}

/// Adds where a loop sets the names of its condition that one place of it sets, on another line, or two; none that RDCH gives, or that
/// is the next of a list.
fn say_loop_setters<'a>(
    page: &mut Page<'_, 'a>,
    command: &'a Command,
    names: Few<'a>,
    read: Few<'a>,
) {
    for name in names.each() {
        if let Some(name) = name
            && page.variable(name).is_some()
            && !read.has(name)
        {
            let before = page.length();
            let setters = setters_of(command, name);
            if let Some(setter) = setters.first
                && setters.count == 1
                && setter.line != command.at().line().number()
                && (is_of_names(setter.value)
                    || rounds_back(page, command, name, setter.value).is_none())
            {
                say_loop_setter(page, name, setter);
            } else if setters.count == 2 {
                say_setters(page, name, setters);
            }
            page.drop_twice(before);
        }
    }
}

/// Adds where the program sets the globals and static words of a condition that its loop does not set itself.
fn say_outer_setters<'a>(page: &mut Page<'_, 'a>, command: &'a Command, names: Few<'a>) {
    for name in names.each() {
        if let Some(name) = name
            && let Some(Worth::Number(_)) = page.variable(name)
            && is_constant_in(page, command, name)
        {
            let before = page.length();
            say_places(page, name);
            page.drop_twice(before);
        }
    }
}

/// Adds the values of the names that a loop has in its condition, and of those that it sets.
fn say_state<'a>(page: &mut Page<'_, 'a>, command: &'a Command, condition: Option<&'a Expr>) {
    let mut search = Search::new(command.at(), b"");
    in_command(&mut search, command);
    let Search {
        tested,
        assigned,
        read,
        ..
    } = search;
    match condition {
        Some(condition) => {
            say_values(page, names_of(condition), read);
            say_unset(page, command, condition);
            say_names(page, condition);
            say_loop_setters(page, command, names_of(condition), read);
            say_outer_setters(page, command, names_of(condition));
        }
        None => say_values(page, tested, read),
    }
    say_values(page, assigned, read);
    say_links(page, command, assigned);
}

/// Adds a loop that has a condition, as it is written.
fn say_conditional(page: &mut Page, keyword: &[u8], condition: &Expr, place: &[u8], at: Position) {
    page.say(&[b"the `", keyword, b" "]);
    page.say_expr(condition);
    page.say(&[b"`", place]);
    page.say_number(at.line().number() as usize);
    page.say(&[b" goes on"]);
}

/// Adds a loop, and the values of the names in its condition, and of those that it sets.
fn say_loop<'a>(page: &mut Page<'_, 'a>, command: &'a Command) {
    match command {
        Command::While {
            at,
            truth,
            condition,
            ..
        } => {
            let keyword: &[u8] = if *truth { b"WHILE" } else { b"UNTIL" };
            say_conditional(page, keyword, condition, b" of line ", *at);
            say_state(page, command, Some(condition));
        }
        Command::RepeatWhile {
            at,
            truth,
            condition,
            ..
        } => {
            let keyword: &[u8] = if *truth {
                b"REPEATWHILE"
            } else {
                b"REPEATUNTIL"
            };
            say_conditional(page, keyword, condition, b" that begins on line ", *at);
            say_state(page, command, Some(condition));
        }
        _ => {
            page.say(&[b"the `REPEAT` that begins on line "]);
            page.say_number(command.at().line().number() as usize);
            page.say(&[b" goes on"]);
            say_state(page, command, None);
        }
    }
}

/// A FOR that goes on.
#[derive(Clone, Copy)]
struct Round<'a> {
    variable: &'a Name,
    /// The object that is its variable, if that is known.
    object: Option<u64>,
    step: u32,
    body: &'a Command,
}

/// The object that the source makes at a position, if it was made not long ago, and lives.
fn object_made(page: &Page, at: Position) -> Option<u64> {
    let mut object = page.m.store.made();
    for _ in 0..RECENT {
        object = object.checked_sub(1)?;
        if page.m.store.made_at(object) == Some(at) && !page.is_dead(object) {
            return Some(object);
        }
    }
    None
}

/// The FOR that a frame is of.
fn round_of<'a>(frame: &Continuation<'a>) -> Option<Round<'a>> {
    match frame {
        Continuation::Done(OnDone::ForRound(run)) => Some(Round {
            variable: run.name,
            object: Some(run.object),
            step: run.step,
            body: run.body,
        }),
        _ => None,
    }
}

/// The FOR that a loop is.
fn round_begun<'a>(page: &Page<'_, 'a>, command: &'a Command) -> Option<Round<'a>> {
    let Command::For { name, by, body, .. } = command else {
        return None;
    };
    let step = match by {
        Some(by) => number(by).unwrap_or(1),
        None => 1,
    };
    Some(Round {
        variable: name,
        object: object_made(page, name.at),
        step: step.cast_unsigned(),
        body,
    })
}

/// The line on which the body of a FOR sets its variable, if it does.
fn set_in_body(round: Round) -> Option<u32> {
    let mut search = Search::new(round.variable.at, &round.variable.letters);
    in_command(&mut search, round.body);
    let Search {
        setters,
        declared,
        ..
    } = search;
    match setters.first {
        Some(Setter { line, .. }) if declared == 0 => Some(line),
        _ => None,
    }
}

/// Whether a FOR may have no end.
fn is_endless(round: Round) -> bool {
    round.step == 0 || set_in_body(round).is_some()
}

/// Adds a FOR that goes on, the value of its variable, and what in it keeps it from its end.
fn say_round(page: &mut Page, round: Round) {
    let name: &[u8] = &round.variable.letters;
    page.say(&[b"the `FOR ", name, b"` of line "]);
    page.say_number(round.variable.at.line().number() as usize);
    page.say(&[b" goes on"]);
    if let Some(object) = round.object
        && let Some(Cell::Holds(x)) = page.m.store.cell(object, 0)
    {
        page.say(&[b"; ", name, b" is "]);
        page.say_value(x);
    }
    if round.step == 0 {
        page.say(&[b"; its step is 0"]);
        return;
    }
    if let Some(line) = set_in_body(round) {
        page.say(&[b"; ", name, b" is set on line "]);
        page.say_number(line as usize);
    }
}

/// The loop whose round begins at a position, if no frame is of it yet.
fn loop_begun<'a>(page: &Page<'_, 'a>, at: Position) -> Option<&'a Command> {
    let command = loop_at(page.program, at)?;
    if loop_here(page) == Some(at) {
        None
    } else {
        Some(command)
    }
}

/// Adds the loop whose round begins at a position, unless it is a FOR that mostly ends: how many that is.
fn say_begun(page: &mut Page, at: Position) -> usize {
    let Some(command) = loop_begun(page, at) else {
        return 0;
    };
    let round = round_begun(page, command);
    match round {
        Some(round) if is_endless(round) => {
            begin_piece(page);
            say_round(page, round);
        }
        Some(_) => return 0,
        None => {
            begin_piece(page);
            say_loop(page, command);
        }
    }
    1
}

/// Adds the loops that were to go on, innermost first, where a round may begin at this position.
fn say_loops(page: &mut Page, at: Position) {
    let m = page.m;
    let here = page.names;
    let mut count = say_begun(page, at);
    for (i, frame) in m.frames.iter().enumerate().rev() {
        if count >= LOOPS {
            break;
        }
        if let Some((command, env)) = loop_of(frame)
            && let Some(frames) = m.frames.get(..i)
        {
            page.names = names_at(page.program, frames, env);
            begin_piece(page);
            say_loop(page, command);
            count += 1;
        } else if let Some(round) = round_of(frame)
            && is_endless(round)
        {
            begin_piece(page);
            say_round(page, round);
            count += 1;
        }
    }
    page.names = here;
}

/// Begins a piece of the text of what goes on.
fn begin_piece(page: &mut Page) {
    let piece: &[u8] = if page.length() == USED_UP.len() {
        b": "
    } else {
        b"; "
    };
    page.say(&[piece]);
}

/// Adds the innermost FOR that goes on.
fn say_for_loop(page: &mut Page, at: Position) {
    let begun = match loop_begun(page, at) {
        Some(command) => round_begun(page, command),
        None => None,
    };
    let round = match begun {
        Some(round) => Some(round),
        None => page.m.frames.iter().rev().find_map(round_of),
    };
    if let Some(round) = round {
        begin_piece(page);
        say_round(page, round);
    }
}

/// Where the innermost loop of the procedure that is active begins, if one goes on.
fn loop_here(page: &Page) -> Option<Position> {
    for frame in page.m.frames.iter().rev() {
        match frame {
            Continuation::Returned(_) => return None,
            Continuation::Done(OnDone::ForRound(run)) => return Some(run.name.at),
            _ => {}
        }
        if let Some((command, _)) = loop_of(frame) {
            return Some(command.at());
        }
    }
    None
}

/// Adds that nothing in the innermost loop of the procedure that is active sets the variables of its condition, if it is a WHILE, and
/// that is so.
pub fn say_still_loop(page: &mut Page) {
    let Some(at) = loop_here(page) else {
        return;
    };
    let Some(command) = loop_at(page.program, at) else {
        return;
    };
    let Command::While { condition, .. } = command else {
        return;
    };
    let names = names_of(condition);
    if !is_of_names(condition) || still(page, command, names) == 0 {
        return;
    }
    page.say(&[b"; nothing in the loop of line "]);
    page.say_number(at.line().number() as usize);
    let mut before: &[u8] = b" sets ";
    for name in names.each() {
        if let Some(name) = name
            && page.variable(name).is_some()
        {
            page.say(&[before, name]);
            before = b" or ";
        }
    }
}

/// The GOTO that makes the innermost loop of the procedure that is active.
fn back_here<'a>(page: &Page<'_, 'a>) -> Option<Back<'a>> {
    let back = back_at(page.program, page.at)?;
    match loop_here(page) {
        Some(other) if is_up_to(label_of(back), place_of(other)) => None,
        _ => Some(back),
    }
}

/// Adds a loop that a GOTO makes.
fn say_back<'a>(page: &mut Page<'_, 'a>, back: Back<'a>) {
    page.say(&[b": the `GOTO ", back.name, b"` of line "]);
    page.say_number(back.line as usize);
    page.say(&[b" goes back to the label of line "]);
    page.say_number(back.label_line as usize);
    let Search {
        tested,
        assigned,
        read,
        ..
    } = between(page.program, back);
    say_values(page, tested, read);
    say_values(page, assigned, read);
}

/// Adds the values of the formals of the procedure that is active.
pub fn say_formals(page: &mut Page) {
    let Some(names) = page.names else {
        return;
    };
    let mut before: &[u8] = b"; in ";
    for formal in names.procedure.formals.iter().take(FORMALS) {
        if let Some(x) = page.value_of(&formal.letters)
            && !matches!(x, Worth::Unset(_))
        {
            page.say(&[before]);
            if before == b"; in ".as_slice() {
                page.say(&[names.procedure.name, b", "]);
            }
            page.say(&[&formal.letters, b" is "]);
            page.say_value(x);
            before = b", ";
        }
    }
}

/// Adds the values of the globals and static words that are numbers, and that the procedures without formals test whose calls are the
/// innermost.
fn say_tested_globals(page: &mut Page) {
    let m = page.m;
    for frame in m.frames.iter().rev().take(NEAR) {
        if let Continuation::Returned(call) = frame
            && let Worth::Procedure(number) = call.callee
            && let Some(Lasting::Code(procedure)) = page.program.get(number as usize)
            && procedure.formals.is_empty()
        {
            let Search { tested, .. } = in_procedure(procedure, Position::first(), b"");
            for name in tested.each() {
                if let Some(name) = name
                    && let Some(Worth::Number(_)) = page.variable(name)
                    && !is_local(page, name)
                {
                    say_value_once(page, name, false);
                }
            }
        }
    }
}

/// Adds how many calls are active, of which there are many, and the values of the formals of the innermost.
fn say_many(page: &mut Page) {
    page.say(&[b": "]);
    page.say_number(page.m.calls as usize);
    page.say(&[b" calls are active, perhaps of a recursion without end"]);
    say_formals(page);
    say_tested_globals(page);
}

/// Adds that the turns are used up at a position, and what goes on there.
pub fn say_turns(page: &mut Page, at: Position) {
    page.say(&[USED_UP]);
    if page.m.calls > MANY {
        say_many(page);
    } else if is_mostly_one(page) {
        say_many(page);
        say_loops(page, at);
    } else {
        let before = page.length();
        if let Some(back) = back_here(page) {
            say_back(page, back);
        }
        say_loops(page, at);
        if page.length() == before {
            say_for_loop(page, at);
        }
    }
    page.say(&[b"; `-t 1000000000` gives as many turns as `run` has steps"]);
}
