//! Blocks: what the declarations at the head of one do.
ghost use Rattle.std.specs.Prelude.{◌≡◌, ℕ, IfOk, List, [], map, ◌∷◌, ◌+◌, ◌≤◌};
ghost use Rattle.bk_tree.specs.Tree as t;
ghost use Rattle.bk_tree.specs.Tree.{declaration, declarations_in, definition, definitions_in, commands_in, items_in, starts_in, expression};
ghost use Rattle.bk_meaning.specs.World.{World, gives, with, turn, remembering};
ghost use Rattle.bk_meaning.specs.Environment.{constant_in};
ghost use Rattle.bk_meaning.specs.Lasting.{Program};
ghost use Rattle.bk_meaning.specs.Blocks as k;
ghost use Rattle.bk_meaning.specs.Parts.{acts_at};
ghost use Rattle.bk_meaning.specs.Full.{full};
ghost use Rattle.bk_check.specs.Views.{letters_in, start_in};
ghost use Rattle.bk_objects.specs.Views.{value_in};
ghost use Rattle.bk_lasting.specs.Views.{env_in};
ghost use Rattle.bk_check.specs.Worlds.{Bytes, world};
ghost use Rattle.bk_check.specs.Resume.{tag, done_tag, Comes, resumed, declared_then, bound_then, defined_then, started_then, starting_then, variables_then, vector_then};
ghost use Rattle.bk_check.specs.Progress.{Within, Adds, definitions_cost, declaration_cost, declare_cost, define_cost, starts_cost};

use crate::commands::scope;
use crate::frame::{Continuation, Let, Next, OnValue, Start, Subject};
use crate::machine::Evaluator;
use bk_lasting::{Env, Sense, constant, constants, count, count_def, count_defs, within_let};
use bk_objects::{Cell, Reason, Store, Worth};
use bk_tree::{Command, ConstItem, Decl, Def, Expr, Init, Name, Position, Sort};
use std::alloc::{AllocError, Global};
use std::mem::replace;

/// The declarations of a block, one after another, and then its commands.
#[inline(never)]
pub fn declare<'a>(
    m: &mut Evaluator<'a>,
    decls: &'a [Decl],
    commands: &'a [Command],
    env: Env<'a>,
) -> Result<Next<'a>, AllocError>
    ensures comes { IfOk result (λ next. (p : Program) (b : Bytes) →
        Comes p m.new.frames.items next (world m.new b)
        (resumed p m.old.frames.items (tag done_tag (declared_then p (declarations_in decls.now) (commands_in commands.now)
        (env_in env.entry) (world m.old b))))) }
    ensures falls { Within (declare_cost decls.now commands.now) m.old m.new result }
{
    match decls.split_first() {
        None => scope(m, commands, None, env),
        Some((first, rest)) => declare_one(m, first, rest, commands, env),
    }
}

/// A declaration, and what is after it.
fn declare_one<'a>(
    m: &mut Evaluator<'a>,
    first: &'a Decl,
    rest: &'a [Decl],
    commands: &'a [Command],
    env: Env<'a>,
) -> Result<Next<'a>, AllocError>
    ensures comes { IfOk result (λ next. (p : Program) (b : Bytes) →
        Comes p m.new.frames.items next (world m.new b)
        (resumed p m.old.frames.items (tag done_tag (declared_then p (t.declare (declaration first.now) (declarations_in rest.now))
        (commands_in commands.now) (env_in env.entry) (world m.old b))))) }
    ensures falls { Within (declaration_cost (declaration first.now) + declare_cost rest.now commands.now) m.old m.new result }
{
    match first {
        Decl::Constants { sort, items, .. } => declare_constants(
            m, *sort, items, rest, commands, env,
        ),
        Decl::Let { defs, .. } => declare_let(m, defs, rest, commands, env),
    }
}

/// MANIFEST, STATIC or GLOBAL.
#[inline(never)]
fn declare_constants<'a>(
    m: &mut Evaluator<'a>,
    sort: Sort,
    items: &'a [ConstItem],
    rest: &'a [Decl],
    commands: &'a [Command],
    env: Env<'a>,
) -> Result<Next<'a>, AllocError>
    ensures comes { IfOk result (λ next. (p : Program) (b : Bytes) (l : ℕ) →
        Comes p m.new.frames.items next (world m.new b)
        (resumed p m.old.frames.items (tag done_tag (declared_then p
        (t.declare (t.constants l sort (items_in items.now)) (declarations_in rest.now)) (commands_in commands.now)
        (env_in env.entry) (world m.old b))))) }
    ensures falls { Within (declare_cost rest.now commands.now + 1) m.old m.new result }
{
    let inside = constants(m.alloc, sort, items, env)?;
    Ok(Next::Declare(rest, commands, inside))
}

/// LET: the definitions see its procedures.
#[inline(never)]
fn declare_let<'a>(
    m: &mut Evaluator<'a>,
    defs: &'a [Def],
    rest: &'a [Decl],
    commands: &'a [Command],
    env: Env<'a>,
) -> Result<Next<'a>, AllocError>
    ensures comes { IfOk result (λ next. (p : Program) (b : Bytes) (l : ℕ) →
        Comes p m.new.frames.items next (world m.new b)
        (resumed p m.old.frames.items (tag done_tag (declared_then p
        (t.declare (t.definitions l (definitions_in defs.now)) (declarations_in rest.now)) (commands_in commands.now)
        (env_in env.entry) (world m.old b))))) }
    ensures falls { Within (definitions_cost (definitions_in defs.now) + declare_cost rest.now commands.now + 2) m.old m.new result }
{
    let here = within_let(m.alloc, defs, env)?;
    let count = count_defs(defs)?;
    let following = here.again()?.following(count)?;
    let starts = Vec::new(m.alloc);
    let rest = Let {
        starts,
        defs,
        here,
        following,
        decls: rest,
        commands,
    };
    Ok(Next::Define(Box::new(m.alloc, rest)?))
}

/// The definitions that are left of a LET. After the last one the variables come into being.
#[inline(never)]
pub fn define<'a>(m: &mut Evaluator<'a>, rest: Box<Let<'a>>) -> Result<Next<'a>, AllocError>
    ensures comes { IfOk result (λ next. (p : Program) (b : Bytes) →
        Comes p m.new.frames.items next (world m.new b)
        (resumed p m.old.frames.items (tag done_tag (defined_then p rest.entry.value (world m.old b))))) }
    ensures falls { Within (define_cost rest.entry.value) m.old m.new result }
{
    match rest.defs.split_first() {
        None => begin_scope(m, rest),
        Some((first, others)) => define_after(m, first, others, rest),
    }
}

/// The first of the definitions, with those after it.
fn define_after<'a>(
    m: &mut Evaluator<'a>,
    first: &'a Def,
    others: &'a [Def],
    rest: Box<Let<'a>>,
) -> Result<Next<'a>, AllocError>
    ensures comes { IfOk result (λ next. (p : Program) (b : Bytes) →
        Comes p m.new.frames.items next (world m.new b)
        (resumed p m.old.frames.items (tag done_tag (with (k.let_values (full p)
        (t.define (definition first.now) (definitions_in others.now)) (env_in rest.entry.value.here) (world m.old b))
        (λ ss w. bound_then p rest.entry.value ss w))))) }
    ensures falls { Within (define_cost (record rest.entry.value { defs = others.entry }) + 1) m.old m.new result }
{
    let mut rest = rest;
    rest.defs = others;
    define_one(m, first, rest)
}

/// The variables of a LET, and what is after it.
fn begin_scope<'a>(m: &mut Evaluator<'a>, rest: Box<Let<'a>>) -> Result<Next<'a>, AllocError>
    ensures comes { IfOk result (λ next. (p : Program) (b : Bytes) →
        Comes p m.new.frames.items next (world m.new b)
        (resumed p m.old.frames.items (tag done_tag (bound_then p rest.entry.value [] (world m.old b))))) }
    ensures falls { Within (declare_cost rest.entry.value.decls.now rest.entry.value.commands.now + 1) m.old m.new result }
{
    let following = rest.following.again()?;
    let inside = bind_starts(m.alloc, &mut m.store, &rest.starts, following)?;
    Ok(Next::Declare(rest.decls, rest.commands, inside))
}

/// A definition, and those after it.
fn define_one<'a>(
    m: &mut Evaluator<'a>,
    first: &'a Def,
    rest: Box<Let<'a>>,
) -> Result<Next<'a>, AllocError>
    ensures comes { IfOk result (λ next. (p : Program) (b : Bytes) →
        Comes p m.new.frames.items next (world m.new b)
        (resumed p m.old.frames.items (tag done_tag (with (k.let_values (full p)
        (t.define (definition first.now) (definitions_in rest.entry.value.defs.now)) (env_in rest.entry.value.here)
        (world m.old b)) (λ ss w. bound_then p rest.entry.value ss w))))) }
    ensures falls { Within (define_cost rest.entry.value + 1) m.old m.new result }
{
    let count = count_def(first)?;
    let there = rest.here.again()?.following(count)?;
    match first {
        Def::Routine { .. } => Ok(pass(there, rest)),
        Def::Function { .. } => Ok(pass(there, rest)),
        Def::Variables { at, names, inits } => Ok(variables(m, *at, names, inits, there, rest)),
    }
}

/// After a procedure.
fn pass<'a>(there: Env<'a>, rest: Box<Let<'a>>) -> Next<'a>
    ensures comes { (p : Program) (fs : List Continuation) (w : World) → Comes p fs result w (resumed p fs (tag done_tag
        (with (k.let_values (full p) (definitions_in rest.entry.value.defs.now) (env_in there.entry) w) (λ ss w. bound_then p rest.entry.value ss w)))) }
    ensures falls { Adds (define_cost rest.entry.value + 1) (Ok result) }
{
    let mut rest = rest;
    rest.here = there;
    Next::Define(rest)
}

/// Variables, whose values take a turn.
fn variables<'a>(
    m: &mut Evaluator<'a>,
    at: Position,
    names: &'a [Name],
    inits: &'a [Init],
    there: Env<'a>,
    rest: Box<Let<'a>>,
) -> Next<'a>
    ensures comes { (p : Program) (b : Bytes) → Comes p m.new.frames.items result (world m.new b) (resumed p m.old.frames.items (tag done_tag
        (turn at (world m.old b) (variables_then p (starts_in inits.now) (letters_in names.now) (env_in there.entry) rest.entry.value)))) }
    ensures falls { Within 0 m.old m.new (Ok result) }
{
    if m.turns == 0 {
        return Next::Going(at);
    }
    m.turns -= 1;
    let mut rest = rest;
    let here = replace(&mut rest.here, there);
    Next::Starts(inits, here, names, rest)
}

/// Variables: each is an object of one cell.
#[inline(never)]
fn bind_starts<'a>(
    alloc: Global,
    store: &mut Store,
    starts: &[Start<'a>],
    env: Env<'a>,
) -> Result<Env<'a>, AllocError>
    ensures { IfOk result (λ inside. (w : World) → w.memory ≡ store.old
        → k.bind_variables (map start_in starts.now) (env_in env.entry) w ≡ gives (env_in inside) (remembering store.new w)) }
{
    let mut env = env;
    for start in starts {
        let object = store.made();
        store.make(&[Cell::Holds(start.value)], start.name.at)?;
        env = env.bind(alloc, &start.name.letters, Sense::Cell(0, object))?;
    }
    Ok(env)
}

/// What variables begin with, from one of them on.
#[inline(never)]
pub fn starts<'a>(
    m: &mut Evaluator<'a>,
    inits: &'a [Init],
    here: Env<'a>,
    names: &'a [Name],
    rest: Box<Let<'a>>,
) -> Result<Next<'a>, AllocError>
    ensures comes { IfOk result (λ next. (p : Program) (b : Bytes) →
        Comes p m.new.frames.items next (world m.new b)
        (resumed p m.old.frames.items (tag done_tag (starting_then p (starts_in inits.now) (env_in here.entry)
        (letters_in names.now) rest.entry.value (world m.old b))))) }
    ensures falls { Within (starts_cost inits.now rest.entry.value) m.old m.new result }
{
    match inits.split_first() {
        None => Ok(no_start(names, rest)),
        Some((first, others)) => start_one(m, first, others, here, names, rest),
    }
}

/// Where no variable is left.
fn no_start<'a>(names: &'a [Name], rest: Box<Let<'a>>) -> Next<'a>
    ensures comes { (p : Program) (fs : List Continuation) (w : World)
        → Comes p fs result w (resumed p fs (tag done_tag (started_then p rest.entry.value (letters_in names.now) [] w))) }
    ensures falls { Adds (define_cost rest.entry.value + 1) (Ok result) }
{
    match names.split_first() {
        None => Next::Define(rest),
        Some(_) => Next::Define(rest),
    }
}

/// What one variable begins with, and those after it.
fn start_one<'a>(
    m: &mut Evaluator<'a>,
    first: &'a Init,
    others: &'a [Init],
    here: Env<'a>,
    names: &'a [Name],
    rest: Box<Let<'a>>,
) -> Result<Next<'a>, AllocError>
    ensures comes { IfOk result (λ next. (p : Program) (b : Bytes) →
        Comes p m.new.frames.items next (world m.new b)
        (resumed p m.old.frames.items (tag done_tag (starting_then p (starts_in (first.now ∷ others.now)) (env_in here.entry)
        (letters_in names.now) rest.entry.value (world m.old b))))) }
    ensures falls { Within (starts_cost others.now rest.entry.value + 3) m.old m.new result }
{
    match first {
        Init::Value(value) => start_value(m, value, others, here, names, rest),
        Init::Vector { at, size } => vector(m, *at, size, others, here, names, rest),
    }
}

/// A variable that begins with a value.
fn start_value<'a>(
    m: &mut Evaluator<'a>,
    value: &'a Expr,
    others: &'a [Init],
    here: Env<'a>,
    names: &'a [Name],
    rest: Box<Let<'a>>,
) -> Result<Next<'a>, AllocError>
    ensures comes { IfOk result (λ next. (p : Program) (b : Bytes) →
        Comes p m.new.frames.items next (world m.new b)
        (resumed p m.old.frames.items (tag done_tag (starting_then p (t.value (expression value.now) (starts_in others.now))
        (env_in here.entry) (letters_in names.now) rest.entry.value (world m.old b))))) }
    ensures falls { Within (starts_cost others.now rest.entry.value + 3) m.old m.new result }
{
    let count = count(value)?;
    let following = here.again()?.following(count)?;
    m.first_value(OnValue::Starts(others, following, names, rest), value, here)
}

/// A VEC, which takes a turn: its object is made.
fn vector<'a>(
    m: &mut Evaluator<'a>,
    at: Position,
    size: &'a Expr,
    others: &'a [Init],
    here: Env<'a>,
    names: &'a [Name],
    rest: Box<Let<'a>>,
) -> Result<Next<'a>, AllocError>
    ensures comes { IfOk result (λ next. (p : Program) (b : Bytes) →
        Comes p m.new.frames.items next (world m.new b)
        (resumed p m.old.frames.items (tag done_tag (turn at (world m.old b)
        (vector_then p (acts_at (expression size.now)) (constant_in (env_in here.entry) (expression size.now)) (starts_in others.now) (env_in here.entry)
        (letters_in names.now) rest.entry.value))))) }
    ensures falls { Within 0 m.old m.new result }
{
    if m.turns == 0 {
        return Ok(Next::Going(at));
    }
    m.turns -= 1;
    let last = constant(&here, size);
    make_vector(m, size, last, others, here, names, rest)
}

/// The object of a VEC, whose last place has this number.
fn make_vector<'a>(
    m: &mut Evaluator<'a>,
    size: &'a Expr,
    last: Option<u32>,
    others: &'a [Init],
    here: Env<'a>,
    names: &'a [Name],
    rest: Box<Let<'a>>,
) -> Result<Next<'a>, AllocError>
    ensures comes { IfOk result (λ next. (p : Program) (b : Bytes) →
        Comes p m.new.frames.items next (world m.new b)
        (resumed p m.old.frames.items (tag done_tag (vector_then p (acts_at (expression size.now)) last (starts_in others.now) (env_in here.entry)
        (letters_in names.now) rest.entry.value (world m.old b))))) }
    ensures turns { m.new.turns ≤ m.old.turns }
{
    match last {
        None => Ok(Next::Undefined(Subject::Expr(size), Reason::NoConstant)),
        Some(last) => {
            let object = m.store.made();
            let length = last as usize + 1;
            m.store.make_unset(length, size.at())?;
            m.most_cells = m.most_cells.max(m.store.cells_in_use());
            named(others, here, names, Worth::Address(0, object), rest)
        }
    }
}

/// A value for the next of these names.
#[inline(never)]
pub fn named<'a>(
    inits: &'a [Init],
    here: Env<'a>,
    names: &'a [Name],
    value: Worth,
    rest: Box<Let<'a>>,
) -> Result<Next<'a>, AllocError>
    ensures comes { IfOk result (λ next. (p : Program) (fs : List Continuation) (w : World) → Comes p fs next w
        (resumed p fs (tag done_tag (with (with (k.starts (full p) (starts_in inits.now) (env_in here.entry) w)
        (λ vs w. gives (value_in value ∷ vs) w)) (λ vs w. started_then p rest.entry.value (letters_in names.now) vs w))))) }
    ensures falls { Adds (starts_cost inits.now rest.entry.value + 1) result }
{
    match names.split_first() {
        None => Ok(Next::Starts(inits, here, names, rest)),
        Some((first, others)) => {
            let mut rest = rest;
            rest.starts.push(Start { name: first, value })?;
            Ok(Next::Starts(inits, here, others, rest))
        }
    }
}
