//! Going through the nodes of a section.
ghost use Rattle.std.specs.Prelude.{◌≡◌, [], ◌∷◌, OnOk, IfOk};
ghost use Rattle.bk_tree.specs.Tree.{expression, expressions_in, command_in, commands_in, declaration, declarations_in, definition, definitions_in, starts_in};
ghost use Rattle.bk_trans.specs.Writing.{written, each_written, address_written, store_written, stores_written, values_written, act_written, each_act_written, declared, one_declared, defined, one_defined, started, reached, any_variables, acted_apart, each_acted_apart};

use crate::aim::Aim;
use crate::around::Around;
use crate::codes::Codes;
use crate::evaluation::{Access, Evaluation, access_by, evaluation_through};
use crate::short::first_bytes;
use crate::statements::{after, truth_value, word_of};
use crate::unresolved::Unresolved;
use crate::writer::Writing;
use bk_ocode::{Dyadic, Stmt, Variable};
use bk_tree::{Command, Decl, Def, Expr, Init, Prefix, Sort};
use std::alloc::AllocError;

/// An expression, for an aim.
#[cycle(nodes)]
pub fn value(out: &mut Writing<'_>, depth: u32, aim: Aim, expr: &Expr) -> Result<(), AllocError>
    ensures { OnOk result (out.new ≡ written depth aim (expression expr.now) out.old) }
{
    match expr {
        Expr::Name { .. } => {
            out.put_name()?;
            out.serve(aim)
        }
        Expr::Number { word, .. } => {
            out.put(Stmt::Number {
                value: word.cast_signed(),
            })?;
            out.serve(aim)
        }
        Expr::Text { bytes, .. } => {
            out.put(Stmt::Text {
                bytes: first_bytes(out.alloc, bytes)?,
            })?;
            out.serve(aim)
        }
        Expr::Truth { truth, .. } => {
            out.put(truth_value(*truth))?;
            out.serve(aim)
        }
        Expr::Query { .. } => {
            out.put(Stmt::Query)?;
            out.serve(aim)
        }
        Expr::Parens { inside, .. } => value(out, depth, aim, inside),
        Expr::Unary {
            prefix: Prefix::Address,
            operand,
            ..
        } => {
            address(out, depth, operand)?;
            out.serve(aim)
        }
        Expr::Unary {
            prefix: Prefix::Not,
            operand,
            ..
        } => {
            value(out, depth, aim.negated(), operand)?;
            out.put_not(aim)
        }
        Expr::Unary {
            prefix,
            operand,
            ..
        } => {
            value(out, depth, Aim::Value, operand)?;
            out.put_prefix(*prefix)?;
            out.serve(aim)
        }
        Expr::Binary {
            operator,
            left,
            right,
            ..
        } => {
            match evaluation_through(*operator, aim, out.next) {
                Evaluation::Plain => {
                    value(out, depth, Aim::Value, left)?;
                    value(out, after(depth, 1), Aim::Value, right)?;
                    out.put_operator(*operator)?;
                    out.serve(aim)
                }
                Evaluation::Short(first, second, sets) => {
                    let label = out.labels(1);
                    value(out, depth, first, left)?;
                    value(out, depth, second, right)?;
                    if sets {
                        out.put(Stmt::Label { label })?;
                    }
                    Ok(())
                }
            }
        }
        Expr::Choice {
            condition,
            yes,
            no,
            ..
        } => {
            let first = out.labels(2);
            let second = after(first, 1);
            value(out, depth, Aim::Jump(false, first), condition)?;
            value(out, depth, Aim::Value, yes)?;
            out.begin_other(first, second)?;
            value(out, depth, Aim::Value, no)?;
            out.end_choice(second, depth)?;
            out.serve(aim)
        }
        Expr::Apply {
            callee,
            arguments,
            ..
        } => {
            // What is called has the first labels, and follows the arguments.
            let before = out.aside();
            value(out, after(depth, arguments.len() + 2), Aim::Value, callee)?;
            let called = out.resume(before);
            out.put(Stmt::Stack {
                depth: after(depth, 2),
            })?;
            each_value(out, after(depth, 2), arguments)?;
            out.put_all(called)?;
            out.put(Stmt::CallFunction { frame: depth })?;
            out.serve(aim)
        }
        Expr::Valof { command, .. } => {
            let label = out.labels(1);
            act_apart(out, Around::valued(label), depth, command)?;
            out.put(Stmt::Label { label })?;
            out.put(Stmt::TakeResult { depth })?;
            out.serve(aim)
        }
        Expr::Table { items, .. } => {
            out.put_table(items)?;
            out.serve(aim)
        }
    }
}

/// Values one after another are pushed.
#[cycle(nodes)]
fn each_value(out: &mut Writing<'_>, depth: u32, exprs: &[Expr]) -> Result<(), AllocError>
    ensures { OnOk result (out.new ≡ each_written depth (expressions_in exprs.now) out.old) }
{
    let mut next = depth;
    for expr in exprs {
        value(out, next, Aim::Value, expr)?;
        next = after(next, 1);
    }
    Ok(())
}

/// The address of a word is pushed.
#[cycle(nodes)]
fn address(out: &mut Writing<'_>, depth: u32, expr: &Expr) -> Result<(), AllocError>
    ensures { OnOk result (out.new ≡ address_written depth (expression expr.now) out.old) }
{
    match expr {
        Expr::Name { .. } => {
            let bound = out.meaning();
            out.put_draft(Unresolved::Address(word_of(bound)))
        }
        Expr::Parens { inside, .. } => address(out, depth, inside),
        Expr::Unary {
            prefix: Prefix::Contents,
            operand,
            ..
        } => { value(out, depth, Aim::Value, operand) }
        Expr::Binary {
            operator,
            left,
            right,
            ..
        } => match access_by(*operator) {
            Access::Word => {
                value(out, depth, Aim::Value, left)?;
                value(out, after(depth, 1), Aim::Value, right)?;
                out.put(Stmt::Dyadic {
                    operator: Dyadic::Add,
                })
            }
            // A byte has no address, which is a fault.
            Access::Byte => {
                let before = out.aside();
                value(out, depth, Aim::Value, left)?;
                value(out, after(depth, 1), Aim::Value, right)?;
                let _written = out.resume(before);
                Ok(())
            }
            Access::Nothing => Ok(()),
        },
        _ => Ok(()),
    }
}

/// The value on top is put into a word or a byte.
#[cycle(nodes)]
fn store(out: &mut Writing<'_>, depth: u32, expr: &Expr) -> Result<(), AllocError>
    ensures { OnOk result (out.new ≡ store_written depth (expression expr.now) out.old) }
{
    match expr {
        Expr::Name { .. } => {
            let bound = out.meaning();
            out.put_draft(Unresolved::Assign(word_of(bound)))
        }
        Expr::Parens { inside, .. } => store(out, depth, inside),
        Expr::Unary {
            prefix: Prefix::Contents,
            operand,
            ..
        } => {
            value(out, depth, Aim::Value, operand)?;
            out.put(Stmt::AssignAt)
        }
        Expr::Binary {
            operator,
            left,
            right,
            ..
        } => match access_by(*operator) {
            Access::Word => {
                value(out, depth, Aim::Value, left)?;
                value(out, after(depth, 1), Aim::Value, right)?;
                out.put(Stmt::Dyadic {
                    operator: Dyadic::Add,
                })?;
                out.put(Stmt::AssignAt)
            }
            Access::Byte => {
                value(out, depth, Aim::Value, left)?;
                value(out, after(depth, 1), Aim::Value, right)?;
                out.put(Stmt::AssignByte)
            }
            Access::Nothing => Ok(()),
        },
        _ => Ok(()),
    }
}

/// Destinations, each written aside.
#[cycle(nodes)]
fn each_store(
    out: &mut Writing<'_>,
    depth: u32,
    exprs: &[Expr],
    codes: &mut Codes,
) -> Result<(), AllocError>
    ensures { OnOk result ((record { codes = codes.new; writing = out.new })
        ≡ stores_written depth (expressions_in exprs.now) (record { codes = codes.old; writing = out.old })) }
{
    for expr in exprs {
        let before = out.aside();
        store(out, depth, expr)?;
        codes.push(out.resume(before))?;
    }
    Ok(())
}

/// Values, and after each its destination.
#[cycle(nodes)]
fn each_stored(
    out: &mut Writing<'_>,
    depth: u32,
    exprs: &[Expr],
    codes: &mut Codes,
) -> Result<(), AllocError>
    ensures { OnOk result (out.new ≡ values_written depth (expressions_in exprs.now) codes.old out.old) }
{
    for expr in exprs {
        match codes.take_first() {
            Some(code) => {
                value(out, depth, Aim::Value, expr)?;
                out.put_all(code)?;
            }
            None => {
                let before = out.aside();
                value(out, depth, Aim::Value, expr)?;
                let _written = out.resume(before);
            }
        }
    }
    Ok(())
}

/// A command.
#[cycle(nodes)]
pub fn act(
    out: &mut Writing<'_>,
    around: Around,
    depth: u32,
    command: &Command,
) -> Result<(), AllocError>
    ensures { OnOk result (out.new ≡ act_written around depth (command_in command.now) out.old) }
{
    match command {
        Command::Empty => Ok(()),
        Command::Assign {
            destinations,
            values,
            ..
        } => {
            let mut codes = Codes::new(out.alloc);
            each_store(out, after(depth, 1), destinations, &mut codes)?;
            each_stored(out, depth, values, &mut codes)
        }
        Command::Call {
            callee,
            arguments,
            ..
        } => {
            // What is called has the first labels, and follows the arguments.
            let before = out.aside();
            value(out, after(depth, arguments.len() + 2), Aim::Value, callee)?;
            let called = out.resume(before);
            out.put(Stmt::Stack {
                depth: after(depth, 2),
            })?;
            each_value(out, after(depth, 2), arguments)?;
            out.put_all(called)?;
            out.put(Stmt::CallRoutine { frame: depth })
        }
        Command::Goto { .. } => { out.put_goto(depth) }
        Command::Label { body, .. } => {
            out.put_label(depth)?;
            act(out, around, depth, body)
        }
        Command::Case { body, .. } => {
            out.put_case()?;
            act(out, around, depth, body)
        }
        Command::Default { body, .. } => {
            out.put_default()?;
            act(out, around, depth, body)
        }
        Command::If {
            truth: sense,
            condition,
            body,
            ..
        } => {
            let first = out.labels(1);
            value(out, depth, Aim::Jump(!*sense, first), condition)?;
            act(out, around, depth, body)?;
            out.put(Stmt::Label { label: first })
        }
        Command::Test {
            condition,
            yes,
            no,
            ..
        } => {
            let first = out.labels(2);
            let second = after(first, 1);
            value(out, depth, Aim::Jump(false, first), condition)?;
            act(out, around, depth, yes)?;
            out.put(Stmt::Jump { label: second })?;
            out.put(Stmt::Label { label: first })?;
            act(out, around, depth, no)?;
            out.put(Stmt::Label { label: second })
        }
        Command::While {
            truth: sense,
            condition,
            body,
            ..
        } => {
            let first = out.labels(3);
            let second = after(first, 1);
            let third = after(first, 2);
            let before = out.aside();
            value(out, depth, Aim::Jump(*sense, second), condition)?;
            let test = out.resume(before);
            out.put(Stmt::Jump { label: first })?;
            out.put(Stmt::Label { label: second })?;
            act(out, around.looping(first, third, depth), depth, body)?;
            out.put(Stmt::Label { label: first })?;
            out.put_all(test)?;
            out.put(Stmt::Label { label: third })
        }
        Command::For {
            from,
            to,
            by,
            body,
            ..
        } => {
            let first = out.labels(4);
            value(out, depth, Aim::Value, from)?;
            value(out, after(depth, 1), Aim::Value, to)?;
            let step = out.step(by);
            out.begin_for(first)?;
            let inside = after(depth, 2);
            let inner = around.looping(after(first, 2), after(first, 3), inside);
            act_apart(out, inner, inside, body)?;
            out.end_for(first, depth, step)
        }
        Command::SwitchOn {
            value: expr,
            body,
            ..
        } => {
            let label = out.labels(1);
            value(out, depth, Aim::Value, expr)?;
            let before = out.aside();
            let choices = out.leave_switch();
            act(out, around.switching(label, depth), depth, body)?;
            out.end_switch(label, before, choices)
        }
        Command::ResultIs { value: expr, .. } => {
            value(out, depth, Aim::Value, expr)?;
            out.put(Stmt::GiveResult {
                label: around.valof,
            })
        }
        Command::Simple { word, .. } => out.put_simple(around, depth, *word),
        Command::Block {
            decls,
            commands,
            ..
        } => {
            if decls.is_empty() {
                each_act(out, around, depth, commands)
            } else {
                let inside = declare_each(out, depth, decls)?;
                each_act_apart(out, around, inside, commands)?;
                out.put(Stmt::Stack { depth })
            }
        }
        Command::Repeat { body, .. } => {
            let first = out.labels(2);
            let second = after(first, 1);
            out.put(Stmt::Label { label: first })?;
            act(out, around.looping(first, second, depth), depth, body)?;
            out.put(Stmt::Jump { label: first })?;
            out.put(Stmt::Label { label: second })
        }
        Command::RepeatWhile {
            truth: sense,
            body,
            condition,
            ..
        } => {
            let first = out.labels(3);
            let second = after(first, 1);
            let third = after(first, 2);
            out.put(Stmt::Label { label: first })?;
            act(out, around.looping(second, third, depth), depth, body)?;
            out.put(Stmt::Label { label: second })?;
            value(out, depth, Aim::Jump(*sense, first), condition)?;
            out.put(Stmt::Label { label: third })
        }
    }
}

/// A command whose choices are its own.
#[cycle(nodes)]
fn act_apart(
    out: &mut Writing<'_>,
    around: Around,
    depth: u32,
    command: &Command,
) -> Result<(), AllocError>
    ensures { OnOk result (out.new ≡ acted_apart around depth (command_in command.now) out.old) }
{
    let choices = out.leave_switch();
    act(out, around, depth, command)?;
    let _made = out.return_to_switch(choices);
    Ok(())
}

/// Commands whose choices are their own.
#[cycle(nodes)]
fn each_act_apart(
    out: &mut Writing<'_>,
    around: Around,
    depth: u32,
    commands: &[Command],
) -> Result<(), AllocError>
    ensures { OnOk result (out.new ≡ each_acted_apart around depth (commands_in commands.now) out.old) }
{
    let choices = out.leave_switch();
    each_act(out, around, depth, commands)?;
    let _made = out.return_to_switch(choices);
    Ok(())
}

/// Commands one after another.
#[cycle(nodes)]
fn each_act(
    out: &mut Writing<'_>,
    around: Around,
    depth: u32,
    commands: &[Command],
) -> Result<(), AllocError>
    ensures { OnOk result (out.new ≡ each_act_written around depth (commands_in commands.now) out.old) }
{
    for command in commands {
        act(out, around, depth, command)?;
    }
    Ok(())
}

/// Declarations one after another, and the depth after them.
#[cycle(nodes)]
pub fn declare_each(out: &mut Writing<'_>, depth: u32, decls: &[Decl]) -> Result<u32, AllocError>
    ensures { IfOk result (λ following. reached following out.new ≡ declared (declarations_in decls.now) (reached depth out.old)) }
{
    let mut following = depth;
    for decl in decls {
        following = declare(out, following, decl)?;
    }
    Ok(following)
}

/// A declaration, and the depth after it.
#[cycle(nodes)]
fn declare(out: &mut Writing<'_>, depth: u32, decl: &Decl) -> Result<u32, AllocError>
    ensures { IfOk result (λ following. reached following out.new ≡ one_declared (declaration decl.now) (reached depth out.old)) }
{
    match decl {
        Decl::Constants { sort, items, .. } => {
            match sort {
                Sort::Static => out.put_items(items)?,
                Sort::Manifest => out.pass_items(items),
                Sort::Global => out.pass_items(items),
            }
            Ok(depth)
        }
        Decl::Let { defs, .. } => {
            let following = define_each(out, depth, defs)?;
            if has_variables(defs) {
                out.put(Stmt::Store)?;
            }
            Ok(following)
        }
    }
}

/// Definitions one after another, and the depth after them.
#[cycle(nodes)]
fn define_each(out: &mut Writing<'_>, depth: u32, defs: &[Def]) -> Result<u32, AllocError>
    ensures { IfOk result (λ following. reached following out.new ≡ defined (definitions_in defs.now) (reached depth out.old)) }
{
    let mut following = depth;
    for def in defs {
        following = define(out, following, def)?;
    }
    Ok(following)
}

/// A definition, and the depth after it.
#[cycle(nodes)]
fn define(out: &mut Writing<'_>, depth: u32, def: &Def) -> Result<u32, AllocError>
    ensures { IfOk result (λ following. reached following out.new ≡ one_defined (definition def.now) (reached depth out.old)) }
{
    match def {
        Def::Routine {
            letters: name,
            formals,
            body,
            ..
        } => {
            let outside = out.begin_procedure(name, formals.len())?;
            act(out, Around::outermost(), after(2, formals.len()), body)?;
            out.end_procedure(outside, Stmt::Return)?;
            Ok(depth)
        }
        Def::Function {
            letters: name,
            formals,
            body,
            ..
        } => {
            let outside = out.begin_procedure(name, formals.len())?;
            value(out, after(2, formals.len()), Aim::Value, body)?;
            out.end_procedure(outside, Stmt::ReturnItem)?;
            Ok(depth)
        }
        Def::Variables { inits: starts, .. } => start_each(out, depth, starts),
    }
}

/// What variables begin with, one after another, and the depth after them.
#[cycle(nodes)]
fn start_each(out: &mut Writing<'_>, depth: u32, starts: &[Init]) -> Result<u32, AllocError>
    ensures { IfOk result (λ following. reached following out.new ≡ started (starts_in starts.now) (reached depth out.old)) }
{
    let mut following = depth;
    for start in starts {
        following = start_one(out, following, start)?;
    }
    Ok(following)
}

/// What a variable begins with, and the depth after it.
#[cycle(nodes)]
fn start_one(out: &mut Writing<'_>, depth: u32, start: &Init) -> Result<u32, AllocError>
    ensures { IfOk result (λ following. reached following out.new ≡ started (starts_in (start.now ∷ [])) (reached depth out.old)) }
{
    match start {
        Init::Value(expr) => {
            value(out, depth, Aim::Value, expr)?;
            Ok(after(depth, 1))
        }
        Init::Vector { .. } => {
            let words = out.word() as usize;
            out.put(Stmt::Stack {
                depth: after(depth, words + 1),
            })?;
            out.put(Stmt::Address {
                of: Variable::Local(depth),
            })?;
            Ok(after(depth, words + 2))
        }
    }
}

/// Whether a LET has variables.
fn has_variables(defs: &[Def]) -> bool
    ensures { result ≡ any_variables (definitions_in defs.now) }
{
    for def in defs {
        if let Def::Variables { .. } = def {
            return true;
        }
    }
    false
}
