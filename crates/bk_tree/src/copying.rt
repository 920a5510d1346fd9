//! Copies of trees: the operand that two relations share is in the tree twice.
ghost use Rattle.std.specs.Prelude.{◌≡◌, [], ◌∷◌, IfOk, map};
ghost use Rattle.bk_tree.specs.Tree.{expression, expressions_in, command_in, commands_in, declaration, declarations_in, items_in, definition, definitions_in, starts_in, mention};

use crate::make::{apply, assign, block, call, constants, for_loop, let_of, table, variables};
use crate::tree::{Command, ConstItem, Decl, Def, Expr, Init, Letters, Name};
use std::alloc::{AllocError, Global};

/// A copy of letters.
fn copy_letters(letters: &Letters) -> Result<Letters, AllocError>
    ensures { IfOk result (λ copy. copy.items ≡ letters.now.items) }
{
    Letters::from_slice(*letters.allocator(), letters.as_slice())
}

/// A copy of a name.
fn copy_name(name: &Name) -> Result<Name, AllocError>
    ensures { IfOk result (λ copy. mention copy ≡ mention name.now) }
{
    let letters = copy_letters(&name.letters)?;
    Ok(Name {
        at: name.at,
        letters,
    })
}

/// A copy of names.
fn copy_names(alloc: Global, names: &[Name]) -> Result<Vec<Name>, AllocError>
    ensures { IfOk result (λ copies. map mention copies.items ≡ map mention names.now) }
{
    let mut copies = Vec::with_capacity(alloc, names.len())?;
    for name in names {
        let copy = copy_name(name)?;
        copies.push(copy)?;
    }
    Ok(copies)
}

/// A copy of an expression.
#[cycle(copy)]
pub fn copy(alloc: Global, expr: &Expr) -> Result<Expr, AllocError>
    ensures { IfOk result (λ copy. expression copy ≡ expression expr.now) }
{
    match expr {
        Expr::Name { at, letters } => {
            let letters = copy_letters(letters)?;
            Ok(Expr::Name { at: *at, letters })
        }
        Expr::Number { at, word } => Ok(Expr::Number {
            at: *at,
            word: *word,
        }),
        Expr::Text { at, bytes } => {
            let bytes = bytes.clone()?;
            Ok(Expr::Text { at: *at, bytes })
        }
        Expr::Truth { at, truth } => Ok(Expr::Truth {
            at: *at,
            truth: *truth,
        }),
        Expr::Query { at } => Ok(Expr::Query { at: *at }),
        Expr::Parens { at, inside: inner } => {
            let inner = copy_boxed(alloc, inner)?;
            Ok(Expr::Parens {
                at: *at,
                inside: inner,
            })
        }
        Expr::Unary {
            at,
            prefix,
            operand,
        } => {
            let operand = copy_boxed(alloc, operand)?;
            Ok(Expr::Unary {
                at: *at,
                prefix: *prefix,
                operand,
            })
        }
        Expr::Binary {
            at,
            operator,
            sign,
            left,
            right,
        } => {
            let left = copy_boxed(alloc, left)?;
            let right = copy_boxed(alloc, right)?;
            Ok(Expr::Binary {
                at: *at,
                operator: *operator,
                sign: *sign,
                left,
                right,
            })
        }
        Expr::Choice {
            at,
            sign,
            condition,
            yes,
            no,
        } => {
            let condition = copy_boxed(alloc, condition)?;
            let yes = copy_boxed(alloc, yes)?;
            let no = copy_boxed(alloc, no)?;
            Ok(Expr::Choice {
                at: *at,
                sign: *sign,
                condition,
                yes,
                no,
            })
        }
        Expr::Apply {
            at,
            sign,
            callee,
            arguments: items,
        } => {
            let callee = copy_boxed(alloc, callee)?;
            let items = copy_list(alloc, items)?;
            Ok(apply(*at, *sign, callee, items))
        }
        Expr::Valof { at, command } => {
            let command = copy_body(alloc, command)?;
            Ok(Expr::Valof { at: *at, command })
        }
        Expr::Table { at, items } => {
            let items = copy_list(alloc, items)?;
            Ok(table(*at, items))
        }
    }
}

/// A copy of an expression, in a box.
#[cycle(copy)]
fn copy_boxed(alloc: Global, expr: &Expr) -> Result<Box<Expr>, AllocError>
    ensures { IfOk result (λ copy. expression copy.value ≡ expression expr.now) }
{
    let copy = copy(alloc, expr)?;
    Ok(Box::new(alloc, copy)?)
}

/// A copy of a command, in a box.
#[cycle(copy)]
fn copy_body(alloc: Global, command: &Command) -> Result<Box<Command>, AllocError>
    ensures { IfOk result (λ copy. command_in copy.value ≡ command_in command.now) }
{
    let copy = copy_command(alloc, command)?;
    Ok(Box::new(alloc, copy)?)
}

/// A copy of expressions.
#[cycle(copy)]
#[tactic(auto, using(crate::proofs::Copies::expressions_next))]
fn copy_list(alloc: Global, exprs: &[Expr]) -> Result<Vec<Expr>, AllocError>
    ensures { IfOk result (λ copies. expressions_in copies.items ≡ expressions_in exprs.now) }
{
    let mut copies = Vec::with_capacity(alloc, exprs.len())?;
    for expr in exprs {
        let made = copy(alloc, expr)?;
        copies.push(made)?;
    }
    Ok(copies)
}

/// A copy of a command.
#[cycle(copy)]
fn copy_command(alloc: Global, command: &Command) -> Result<Command, AllocError>
    ensures { IfOk result (λ copy. command_in copy ≡ command_in command.now) }
{
    match command {
        Command::Empty => Ok(Command::Empty),
        Command::Assign {
            at,
            destinations: dests,
            values,
        } => {
            let dests = copy_list(alloc, dests)?;
            let values = copy_list(alloc, values)?;
            Ok(assign(*at, dests, values))
        }
        Command::Call {
            at,
            callee,
            arguments: items,
        } => {
            let callee = copy_boxed(alloc, callee)?;
            let items = copy_list(alloc, items)?;
            Ok(call(*at, callee, items))
        }
        Command::Goto { at, name } => Ok(Command::Goto {
            at: *at,
            name: copy_name(name)?,
        }),
        Command::Label { at, letters, body } => {
            let letters = copy_letters(letters)?;
            let body = copy_body(alloc, body)?;
            Ok(Command::Label {
                at: *at,
                letters,
                body,
            })
        }
        Command::Case { at, value, body } => {
            let value = copy_boxed(alloc, value)?;
            let body = copy_body(alloc, body)?;
            Ok(Command::Case {
                at: *at,
                value,
                body,
            })
        }
        Command::Default { at, body } => {
            let body = copy_body(alloc, body)?;
            Ok(Command::Default { at: *at, body })
        }
        Command::If {
            at,
            truth,
            condition,
            body,
        } => {
            let condition = copy_boxed(alloc, condition)?;
            let body = copy_body(alloc, body)?;
            Ok(Command::If {
                at: *at,
                truth: *truth,
                condition,
                body,
            })
        }
        Command::Test {
            at,
            condition,
            yes,
            no,
        } => {
            let condition = copy_boxed(alloc, condition)?;
            let yes = copy_body(alloc, yes)?;
            let no = copy_body(alloc, no)?;
            Ok(Command::Test {
                at: *at,
                condition,
                yes,
                no,
            })
        }
        Command::While {
            at,
            truth,
            condition,
            body,
        } => {
            let condition = copy_boxed(alloc, condition)?;
            let body = copy_body(alloc, body)?;
            Ok(Command::While {
                at: *at,
                truth: *truth,
                condition,
                body,
            })
        }
        Command::For {
            at,
            name,
            from,
            to,
            by,
            body,
        } => {
            let name = copy_name(name)?;
            let from = copy_boxed(alloc, from)?;
            let to = copy_boxed(alloc, to)?;
            let body = copy_body(alloc, body)?;
            match by {
                Some(by) => {
                    let by = copy_boxed(alloc, by)?;
                    Ok(for_loop(*at, name, from, to, Some(by), body))
                }
                None => Ok(for_loop(*at, name, from, to, None, body)),
            }
        }
        Command::SwitchOn { at, value, body } => {
            let value = copy_boxed(alloc, value)?;
            let body = copy_body(alloc, body)?;
            Ok(Command::SwitchOn {
                at: *at,
                value,
                body,
            })
        }
        Command::ResultIs { at, value } => {
            let value = copy_boxed(alloc, value)?;
            Ok(Command::ResultIs { at: *at, value })
        }
        Command::Simple { at, word } => Ok(Command::Simple {
            at: *at,
            word: *word,
        }),
        Command::Block {
            at,
            decls,
            commands,
        } => {
            let decls = copy_declarations(alloc, decls)?;
            let commands = copy_commands(alloc, commands)?;
            Ok(block(*at, decls, commands))
        }
        Command::Repeat { at, body } => {
            let body = copy_body(alloc, body)?;
            Ok(Command::Repeat { at: *at, body })
        }
        Command::RepeatWhile {
            at,
            truth,
            body,
            condition,
        } => {
            let body = copy_body(alloc, body)?;
            let condition = copy_boxed(alloc, condition)?;
            Ok(Command::RepeatWhile {
                at: *at,
                truth: *truth,
                body,
                condition,
            })
        }
    }
}

/// A copy of commands.
#[cycle(copy)]
#[tactic(auto, using(crate::proofs::Copies::commands_next))]
fn copy_commands(alloc: Global, commands: &[Command]) -> Result<Vec<Command>, AllocError>
    ensures { IfOk result (λ copies. commands_in copies.items ≡ commands_in commands.now) }
{
    let mut copies = Vec::with_capacity(alloc, commands.len())?;
    for command in commands {
        let copy = copy_command(alloc, command)?;
        copies.push(copy)?;
    }
    Ok(copies)
}

/// A copy of a declaration.
#[cycle(copy)]
fn copy_declaration(alloc: Global, decl: &Decl) -> Result<Decl, AllocError>
    ensures { IfOk result (λ copy. declaration copy ≡ declaration decl.now) }
{
    match decl {
        Decl::Constants { at, sort, items } => {
            let items = copy_items(alloc, items)?;
            Ok(constants(*at, *sort, items))
        }
        Decl::Let { at, defs } => {
            let defs = copy_definitions(alloc, defs)?;
            Ok(let_of(*at, defs))
        }
    }
}

/// A copy of declarations.
#[cycle(copy)]
#[tactic(auto, using(crate::proofs::Copies::declarations_next))]
fn copy_declarations(alloc: Global, decls: &[Decl]) -> Result<Vec<Decl>, AllocError>
    ensures { IfOk result (λ copies. declarations_in copies.items ≡ declarations_in decls.now) }
{
    let mut copies = Vec::with_capacity(alloc, decls.len())?;
    for decl in decls {
        let copy = copy_declaration(alloc, decl)?;
        copies.push(copy)?;
    }
    Ok(copies)
}

/// A copy of an item.
#[cycle(copy)]
fn copy_item(alloc: Global, item: &ConstItem) -> Result<ConstItem, AllocError>
    ensures { IfOk result (λ copy. items_in (copy ∷ []) ≡ items_in (item.now ∷ [])) }
{
    match item {
        ConstItem::Item { at, letters, expr } => {
            let letters = copy_letters(letters)?;
            let expr = copy(alloc, expr)?;
            Ok(ConstItem::Item {
                at: *at,
                letters,
                expr,
            })
        }
    }
}

/// A copy of items.
#[cycle(copy)]
#[tactic(auto, using(crate::proofs::Copies::items_next))]
fn copy_items(alloc: Global, items: &[ConstItem]) -> Result<Vec<ConstItem>, AllocError>
    ensures { IfOk result (λ copies. items_in copies.items ≡ items_in items.now) }
{
    let mut copies = Vec::with_capacity(alloc, items.len())?;
    for item in items {
        let copy = copy_item(alloc, item)?;
        copies.push(copy)?;
    }
    Ok(copies)
}

/// A copy of a definition.
#[cycle(copy)]
fn copy_definition(alloc: Global, def: &Def) -> Result<Def, AllocError>
    ensures { IfOk result (λ copy. definition copy ≡ definition def.now) }
{
    match def {
        Def::Routine {
            at,
            letters,
            formals,
            body,
        } => {
            let letters = copy_letters(letters)?;
            let formals = copy_names(alloc, formals)?;
            let body = copy_body(alloc, body)?;
            Ok(Def::Routine {
                at: *at,
                letters,
                formals,
                body,
            })
        }
        Def::Function {
            at,
            letters,
            formals,
            body,
        } => {
            let letters = copy_letters(letters)?;
            let formals = copy_names(alloc, formals)?;
            let body = copy_boxed(alloc, body)?;
            Ok(Def::Function {
                at: *at,
                letters,
                formals,
                body,
            })
        }
        Def::Variables { at, names, inits } => {
            let names = copy_names(alloc, names)?;
            let inits = copy_inits(alloc, inits)?;
            Ok(variables(*at, names, inits))
        }
    }
}

/// A copy of definitions.
#[cycle(copy)]
#[tactic(auto, using(crate::proofs::Copies::definitions_next))]
fn copy_definitions(alloc: Global, defs: &[Def]) -> Result<Vec<Def>, AllocError>
    ensures { IfOk result (λ copies. definitions_in copies.items ≡ definitions_in defs.now) }
{
    let mut copies = Vec::with_capacity(alloc, defs.len())?;
    for def in defs {
        let copy = copy_definition(alloc, def)?;
        copies.push(copy)?;
    }
    Ok(copies)
}

/// A copy of what a variable begins with.
#[cycle(copy)]
fn copy_init(alloc: Global, init: &Init) -> Result<Init, AllocError>
    ensures { IfOk result (λ copy. starts_in (copy ∷ []) ≡ starts_in (init.now ∷ [])) }
{
    match init {
        Init::Value(expr) => {
            let expr = copy(alloc, expr)?;
            Ok(Init::Value(expr))
        }
        Init::Vector { at, size: expr } => {
            let expr = copy(alloc, expr)?;
            Ok(Init::Vector {
                at: *at,
                size: expr,
            })
        }
    }
}

/// A copy of what variables begin with.
#[cycle(copy)]
#[tactic(auto, using(crate::proofs::Copies::starts_next))]
fn copy_inits(alloc: Global, inits: &[Init]) -> Result<Vec<Init>, AllocError>
    ensures { IfOk result (λ copies. starts_in copies.items ≡ starts_in inits.now) }
{
    let mut copies = Vec::with_capacity(alloc, inits.len())?;
    for init in inits {
        let copy = copy_init(alloc, init)?;
        copies.push(copy)?;
    }
    Ok(copies)
}
