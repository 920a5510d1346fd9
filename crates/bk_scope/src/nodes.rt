//! Going through the nodes of a section.
ghost use Rattle.std.specs.Prelude.{◌≡◌, ◌++◌, [], ◌∷◌, map, OnOk, IfOk};
ghost use Rattle.bk_tree.specs.Tree.{expression, expressions_in, command_in, commands_in, declaration, declarations_in, definition, definitions_in, starts_in, mention};
ghost use Rattle.bk_scope.specs.Scope.{bind};
ghost use Rattle.bk_scope.specs.Found.{takes};
ghost use Rattle.bk_scope.specs.Places.{deeper, looping, labelled};
ghost use Rattle.bk_scope.specs.Entering.{Stage, with_labels, labels_of, labels_of_each};
ghost use Rattle.bk_scope.specs.declared.bound.Bound.TheVariants.{Variable};
ghost use Rattle.bk_scope.specs.Names.{AfterDeclarations, Defined, evaluated, each_evaluated, destinations, done, each_done, declared, one_declared, defined, one_defined, started, place_after, variables_of, words_below};

use crate::bound::Bound;
use crate::claims::Claim;
use crate::entering::{enter_labels, enter_labels_of_each, enter_procedures, list_names};
use crate::fresh::Fresh;
use crate::heads::{begin, case, default, end, in_valof, label, single, step, vector};
use crate::items::{constants, globals, manifests, statics};
use crate::naming::{go_to, name_at, without_word};
use crate::operands::{fit_infix, fit_prefix, place_of_second, role_of_operand, role_of_operands};
use crate::place::Enclosing;
use crate::role::Role;
use crate::walk::Walk;
use bk_tree::{Command, Decl, Def, Expr, Init, Name, Sort};
use std::alloc::AllocError;

/// An expression.
#[cycle(nodes)]
pub fn evaluate<'a>(
    walk: &mut Walk<'a>,
    role: &Role,
    place: Enclosing,
    expr: &'a Expr,
) -> Result<(), AllocError>
    ensures { OnOk result (walk.new ≡ record { scope = walk.old.scope; found = evaluated role.now walk.old.scope place (expression expr.now) walk.old.found }) }
{
    match expr {
        Expr::Name { at, letters } => name_at(
            &walk.table,
            &mut walk.findings,
            role,
            place,
            *at,
            letters,
            expr,
        ),
        Expr::Number { .. } | Expr::Text { .. } | Expr::Truth { .. } | Expr::Query { .. } => {
            without_word(&walk.table, &mut walk.findings, role, place.procedure, expr);
            walk.findings.reaches(place.depth, 1);
            Ok(())
        }
        Expr::Parens { inside, .. } => {
            let inner = role.parenthesised();
            evaluate(walk, &inner, place, inside)
        }
        Expr::Unary {
            prefix,
            operand,
            ..
        } => {
            let inner = role_of_operand(*prefix, role, operand);
            fit_prefix(
                &walk.table,
                &mut walk.findings,
                *prefix,
                role,
                place.procedure,
                expr,
            );
            evaluate(walk, &inner, place, operand)
        }
        Expr::Binary {
            operator,
            left,
            right,
            ..
        } => {
            let inner = role_of_operands(*operator, role);
            let second = place_of_second(*operator, role, place);
            fit_infix(
                &walk.table,
                &mut walk.findings,
                *operator,
                role,
                place.procedure,
                expr,
            );
            evaluate(walk, &inner, place, left)?;
            evaluate(walk, &inner, second, right)
        }
        Expr::Choice {
            condition,
            yes,
            no,
            ..
        } => {
            without_word(&walk.table, &mut walk.findings, role, place.procedure, expr);
            evaluate(walk, &Role::Truth, place, condition)?;
            evaluate(walk, &Role::Value, place, yes)?;
            evaluate(walk, &Role::Value, place, no)
        }
        Expr::Apply {
            callee,
            arguments,
            ..
        } => {
            without_word(&walk.table, &mut walk.findings, role, place.procedure, expr);
            let above = place.deeper(arguments.len() + 2);
            let first = place.deeper(2);
            evaluate(walk, &Role::Value, above, callee)?;
            evaluate_each(walk, 1, first, arguments)
        }
        Expr::Valof { command, .. } => {
            without_word(&walk.table, &mut walk.findings, role, place.procedure, expr);
            act_inside(walk, place.valued(), command)?;
            walk.findings.reaches(place.depth, 1);
            Ok(())
        }
        Expr::Table { items, .. } => {
            without_word(&walk.table, &mut walk.findings, role, place.procedure, expr);
            constants(walk, place.procedure, items)?;
            walk.findings.reaches(place.depth, 1);
            Ok(())
        }
    }
}

/// Expressions one after another, each so many words deeper.
#[cycle(nodes)]
fn evaluate_each<'a>(
    walk: &mut Walk<'a>,
    words: usize,
    place: Enclosing,
    exprs: &'a [Expr],
) -> Result<(), AllocError>
    ensures { OnOk result (walk.new ≡ record {
      scope = walk.old.scope;
      found = each_evaluated words walk.old.scope place (expressions_in exprs.now) walk.old.found;
    }) }
{
    let mut next = place;
    for expr in exprs {
        evaluate(walk, &Role::Value, next, expr)?;
        next = next.deeper(words);
    }
    Ok(())
}

/// The destinations of an assignment.
#[cycle(nodes)]
fn set_each<'a>(walk: &mut Walk<'a>, place: Enclosing, exprs: &'a [Expr]) -> Result<(), AllocError>
    ensures { OnOk result (walk.new ≡ record { scope = walk.old.scope; found = destinations walk.old.scope place (expressions_in exprs.now) walk.old.found }) }
{
    for expr in exprs {
        evaluate(walk, &Role::Destination(false, expr.at()), place, expr)?;
    }
    Ok(())
}

/// A command.
#[cycle(nodes)]
pub fn act<'a>(
    walk: &mut Walk<'a>,
    place: Enclosing,
    command: &'a Command,
) -> Result<(), AllocError>
    ensures { OnOk result (walk.new ≡ record { scope = walk.old.scope; found = done walk.old.scope place (command_in command.now) walk.old.found }) }
{
    match command {
        Command::Empty => Ok(()),
        Command::Assign {
            destinations: dests,
            values,
            ..
        } => {
            set_each(walk, place.deeper(1), dests)?;
            evaluate_each(walk, 0, place, values)
        }
        Command::Call {
            callee,
            arguments,
            ..
        } => {
            let above = place.deeper(arguments.len() + 2);
            let first = place.deeper(2);
            evaluate(walk, &Role::Value, above, callee)?;
            evaluate_each(walk, 1, first, arguments)
        }
        Command::Goto { name, .. } => {
            let bound = walk.table.find(&name.letters);
            go_to(
                &mut walk.findings,
                place.procedure,
                name.at,
                &name.letters,
                bound,
            )
        }
        Command::Label { at, letters, body } => {
            label(&mut walk.findings, &walk.table, place.labels, *at, letters)?;
            act(walk, place, body)
        }
        Command::Case {
            at,
            value: expr,
            body,
        } => {
            case(walk, place, *at, expr)?;
            act(walk, place, body)
        }
        Command::Default { at, body } => {
            default(&mut walk.findings, place.switch, *at)?;
            act(walk, place, body)
        }
        Command::If {
            condition,
            body,
            ..
        } => {
            evaluate(walk, &Role::Truth, place, condition)?;
            act(walk, place, body)
        }
        Command::Test {
            condition,
            yes: body,
            no: other,
            ..
        } => {
            evaluate(walk, &Role::Truth, place, condition)?;
            act(walk, place, body)?;
            act(walk, place, other)
        }
        Command::While {
            condition,
            body,
            ..
        } => {
            evaluate(walk, &Role::Truth, place, condition)?;
            act(walk, place.looping(), body)
        }
        Command::For {
            name,
            from,
            to,
            by,
            body,
            ..
        } => {
            evaluate(walk, &Role::Value, place, from)?;
            evaluate(walk, &Role::Value, place.deeper(1), to)?;
            step(walk, place, by)?;
            act_for(walk, place, name, body)
        }
        Command::SwitchOn {
            value: expr,
            body,
            ..
        } => {
            evaluate(walk, &Role::Value, place, expr)?;
            let number = walk.findings.takes();
            act(walk, place.switching(number), body)
        }
        Command::ResultIs { at, value: expr } => {
            in_valof(&mut walk.findings, place, *at);
            evaluate(walk, &Role::Value, place, expr)
        }
        Command::Simple { at, word } => {
            single(&mut walk.findings, place, *at, *word);
            Ok(())
        }
        Command::Block {
            decls,
            commands,
            ..
        } => {
            if decls.is_empty() {
                act_each(walk, place, commands)
            } else {
                let mark = walk.table.mark();
                let inner = declare_each(walk, place, decls)?;
                act_each_labelled(walk, place.procedure, inner, commands)?;
                walk.table.leave(mark);
                Ok(())
            }
        }
        Command::Repeat { body, .. } => act(walk, place.looping(), body),
        Command::RepeatWhile {
            body,
            condition,
            ..
        } => {
            act(walk, place.looping(), body)?;
            evaluate(walk, &Role::Truth, place, condition)
        }
    }
}

/// A command whose labels come into scope, and are left again after it.
#[cycle(nodes)]
#[inline]
fn act_inside<'a>(
    walk: &mut Walk<'a>,
    place: Enclosing,
    command: &'a Command,
) -> Result<(), AllocError>
    ensures { let t : Stage = with_labels place.procedure (labels_of (command_in command.now)) (record { scope = walk.old.scope; found = takes walk.old.found }) in
        OnOk result (walk.new ≡ record { scope = walk.old.scope; found = done t.scope (labelled walk.old.found.next place) (command_in command.now) t.found }) }
{
    let mark = walk.table.mark();
    let labels = walk.findings.takes();
    enter_labels(walk, place.procedure, command)?;
    act(walk, place.labelled(labels), command)?;
    walk.table.leave(mark);
    Ok(())
}

/// The command of a FOR, with its variable in scope.
#[cycle(nodes)]
#[inline]
fn act_for<'a>(
    walk: &mut Walk<'a>,
    place: Enclosing,
    name: &'a Name,
    body: &'a Command,
) -> Result<(), AllocError>
    ensures { let t : Stage = with_labels place.procedure (labels_of (command_in body.now))
        (record {
          scope = bind ((mention name.now).letters) (Variable place.procedure place.depth) walk.old.scope;
          found = takes walk.old.found;
        }) in
        OnOk result (walk.new ≡ record {
          scope = walk.old.scope;
          found = done t.scope (labelled walk.old.found.next (looping (deeper 2 place))) (command_in body.now) t.found;
        }) }
{
    let mark = walk.table.mark();
    walk.table.bind(&name.letters, Bound::Variable(place.procedure, place.depth))?;
    act_inside(walk, place.deeper(2).looping(), body)?;
    walk.table.leave(mark);
    Ok(())
}

/// Commands one after another, whose labels in this procedure come into scope.
#[cycle(nodes)]
fn act_each_labelled<'a>(
    walk: &mut Walk<'a>,
    procedure: u32,
    place: Enclosing,
    commands: &'a [Command],
) -> Result<(), AllocError>
    ensures { let t : Stage = with_labels procedure (labels_of_each (commands_in commands.now))
        (record { scope = walk.old.scope; found = takes walk.old.found }) in
        OnOk result (walk.new ≡ record { scope = t.scope; found = each_done t.scope (labelled walk.old.found.next place) (commands_in commands.now) t.found }) }
{
    let labels = walk.findings.takes();
    enter_labels_of_each(walk, procedure, commands)?;
    act_each(walk, place.labelled(labels), commands)
}

/// Commands one after another.
#[cycle(nodes)]
fn act_each<'a>(
    walk: &mut Walk<'a>,
    place: Enclosing,
    commands: &'a [Command],
) -> Result<(), AllocError>
    ensures { OnOk result (walk.new ≡ record { scope = walk.old.scope; found = each_done walk.old.scope place (commands_in commands.now) walk.old.found }) }
{
    for command in commands {
        act(walk, place, command)?;
    }
    Ok(())
}

/// Declarations one after another, and the place after them.
#[cycle(nodes)]
pub fn declare_each<'a>(
    walk: &mut Walk<'a>,
    place: Enclosing,
    decls: &'a [Decl],
) -> Result<Enclosing, AllocError>
    ensures { IfOk result (λ following. (record { scope = walk.new.scope; place = following; found = walk.new.found })
        ≡ declared walk.old.scope place (declarations_in decls.now) walk.old.found) }
{
    let mut following = place;
    for decl in decls {
        following = declare(walk, following, decl)?;
    }
    Ok(following)
}

/// A declaration, and the place after it.
#[cycle(nodes)]
fn declare<'a>(
    walk: &mut Walk<'a>,
    place: Enclosing,
    decl: &'a Decl,
) -> Result<Enclosing, AllocError>
    ensures { IfOk result (λ following. (record { scope = walk.new.scope; place = following; found = walk.new.found })
        ≡ one_declared walk.old.scope place (declaration decl.now) walk.old.found) }
{
    match decl {
        Decl::Constants { sort, items, .. } => {
            if items.is_empty() {
                return Ok(place);
            }
            let list = walk.findings.takes();
            match sort {
                Sort::Manifest => manifests(walk, list, place.procedure, items)?,
                Sort::Static => statics(walk, list, place.procedure, items)?,
                Sort::Global => globals(walk, list, place.procedure, items)?,
            }
            Ok(place)
        }
        Decl::Let { defs, .. } => {
            if defs.is_empty() {
                return Ok(place);
            }
            let list = walk.findings.takes();
            enter_procedures(walk, defs)?;
            let mut fresh = Fresh::new(walk.alloc);
            let following = define_each(walk, list, place, defs, &mut fresh)?;
            fresh.enter(&mut walk.table)?;
            Ok(following)
        }
    }
}

/// The definitions of a LET, which are the list of this number, and the place after them. Their variables are fresh.
#[cycle(nodes)]
fn define_each<'a>(
    walk: &mut Walk<'a>,
    list: u32,
    place: Enclosing,
    defs: &'a [Def],
    fresh: &mut Fresh<'a>,
) -> Result<Enclosing, AllocError>
    ensures scope { OnOk result (walk.new.scope ≡ walk.old.scope) }
    ensures found { IfOk result (λ following. (record { fresh = fresh.new; place = following; found = walk.new.found })
        ≡ defined list walk.old.scope (definitions_in defs.now) (record { fresh = fresh.old; place = place; found = walk.old.found })) }
{
    let mut following = place;
    for def in defs {
        following = define(walk, list, following, def, fresh)?;
    }
    Ok(following)
}

/// A definition, and the place after it.
#[cycle(nodes)]
fn define<'a>(
    walk: &mut Walk<'a>,
    list: u32,
    place: Enclosing,
    def: &'a Def,
    fresh: &mut Fresh<'a>,
) -> Result<Enclosing, AllocError>
    ensures scope { OnOk result (walk.new.scope ≡ walk.old.scope) }
    ensures found { IfOk result (λ following. (record { fresh = fresh.new; place = following; found = walk.new.found })
        ≡ one_defined list walk.old.scope (definition def.now) (record { fresh = fresh.old; place = place; found = walk.old.found })) }
{
    match def {
        Def::Routine {
            at,
            letters: name,
            formals,
            body,
        } => {
            let procedure = begin(walk, list, *at, name, formals)?;
            let inner = Enclosing::called(true, procedure.number, formals.len());
            act_inside(walk, inner, body)?;
            end(walk, procedure, *at);
            Ok(place)
        }
        Def::Function {
            at,
            letters: name,
            formals,
            body,
        } => {
            let procedure = begin(walk, list, *at, name, formals)?;
            let inner = Enclosing::called(false, procedure.number, formals.len());
            evaluate(walk, &Role::Value, inner, body)?;
            end(walk, procedure, *at);
            Ok(place)
        }
        Def::Variables {
            names,
            inits: starts,
            ..
        } => {
            list_names(&mut walk.findings, list, names)?;
            start_each(walk, place, names, starts, fresh)
        }
    }
}

/// What variables begin with, one after another, and the place after them. The variables are fresh.
#[cycle(nodes)]
fn start_each<'a>(
    walk: &mut Walk<'a>,
    place: Enclosing,
    names: &'a [Name],
    starts: &'a [Init],
    fresh: &mut Fresh<'a>,
) -> Result<Enclosing, AllocError>
    ensures scope { OnOk result (walk.new.scope ≡ walk.old.scope) }
    ensures found { OnOk result (walk.new.found ≡ started walk.old.scope place (starts_in starts.now) walk.old.found) }
    ensures place { IfOk result (λ following. following ≡ place_after walk.old.scope place (starts_in starts.now)) }
    ensures fresh { OnOk result (fresh.new ≡ fresh.old ++ variables_of walk.old.scope place (map mention names.now) (starts_in starts.now)) }
{
    let mut next = place;
    for (index, start) in starts.iter().enumerate() {
        let words = start_one(walk, next, start)?;
        if let Some(name) = names.get(index) {
            let value = next.deeper(words);
            fresh.add(&name.letters, Bound::Variable(next.procedure, value.depth))?;
        }
        next = next.deeper(words + 1);
    }
    Ok(next)
}

/// What a variable begins with, and how many words are below its value: those of a VEC.
#[cycle(nodes)]
fn start_one<'a>(
    walk: &mut Walk<'a>,
    place: Enclosing,
    start: &'a Init,
) -> Result<usize, AllocError>
    ensures scope { OnOk result (walk.new.scope ≡ walk.old.scope) }
    ensures found { OnOk result (walk.new.found ≡ started walk.old.scope place (starts_in (start.now ∷ [])) walk.old.found) }
    ensures words { IfOk result (λ words. words ≡ words_below walk.old.scope (starts_in (start.now ∷ []))) }
{
    match start {
        Init::Value(expr) => {
            evaluate(walk, &Role::Value, place, expr)?;
            Ok(0)
        }
        Init::Vector { size: expr, .. } => {
            let words = vector(walk, place.procedure, expr)?;
            walk.findings.reaches(place.depth, words + 1);
            Ok(words)
        }
    }
}
