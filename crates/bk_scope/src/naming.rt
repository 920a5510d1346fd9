//! Names where they are used.
ghost use Rattle.std.specs.Prelude.{◌≡◌, OnOk};
ghost use Rattle.bk_tree.specs.Tree.{expression, name};
ghost use Rattle.bk_scope.specs.Scope.{bound_in, has_address as HasAddress};
ghost use Rattle.bk_scope.specs.Names.{used, reached, is_usable as IsUsable, begins_wrong as BeginsWrong, unassignable as Unassignable, without_word as WithoutWord, without_address as WithoutAddress, named as Named};

use crate::bound::Bound;
use crate::findings::Findings;
use crate::first_fault::Misnaming;
use crate::place::Enclosing;
use crate::role::Role;
use crate::table::Table;
use bk_base::SourceKind;
use bk_tree::{Expr, Position};
use std::alloc::AllocError;

/// A name that means this is used in a procedure: another one's variable and a label are wrong.
pub fn use_name(
    findings: &mut Findings,
    procedure: u32,
    at: Position,
    name: &[u8],
    bound: Option<Bound>,
) -> Result<(), AllocError>
    ensures { OnOk result (findings.new ≡ used procedure at name.now bound findings.old) }
{
    match bound {
        None => findings.misnames(at, Misnaming::NotDeclared, name),
        Some(Bound::Variable(owner, depth)) => {
            if owner == procedure {
                findings.means(Bound::Variable(owner, depth))
            } else {
                findings.misnames(at, Misnaming::Dynamic, name)
            }
        }
        Some(Bound::Label(_, _)) => findings.misnames(at, Misnaming::LabelNotHere, name),
        Some(other) => findings.means(other),
    }
}

/// A GOTO in a procedure goes to a name that means this: to a label of the same procedure.
pub fn go_to(
    findings: &mut Findings,
    procedure: u32,
    at: Position,
    name: &[u8],
    bound: Option<Bound>,
) -> Result<(), AllocError>
    ensures { OnOk result (findings.new ≡ reached procedure at name.now bound findings.old) }
{
    match bound {
        None => findings.misnames(at, Misnaming::NotDeclared, name),
        Some(Bound::Label(owner, number)) => {
            if owner == procedure {
                findings.means(Bound::Label(owner, number))
            } else {
                findings.misnames(at, Misnaming::LabelNotHere, name)
            }
        }
        Some(Bound::Variable(owner, _)) => {
            if owner == procedure {
                findings.misnames(at, Misnaming::LabelNotHere, name)
            } else {
                findings.misnames(at, Misnaming::Dynamic, name)
            }
        }
        Some(_) => findings.misnames(at, Misnaming::LabelNotHere, name),
    }
}

/// Whether nothing is wrong with a name that means this, as an operand in a procedure.
fn is_usable(procedure: u32, bound: Option<Bound>) -> bool
    ensures { result ≡ IsUsable procedure bound }
{
    match bound {
        None | Some(Bound::Label(_, _)) => false,
        Some(Bound::Variable(owner, _)) => owner == procedure,
        Some(_) => true,
    }
}

/// Whether what a name means has an address.
fn has_address(bound: Option<Bound>) -> bool
    ensures { result ≡ HasAddress bound }
{
    matches!(
        bound,
        Some(Bound::Global(_) | Bound::Static(_) | Bound::Variable(_, _))
    )
}

/// Whether the first symbol of an expression is a name with which something is wrong.
fn begins_wrong<'a>(table: &Table<'a>, procedure: u32, expr: &'a Expr) -> bool
    ensures { result ≡ BeginsWrong table.now procedure (expression expr.now) }
{
    match expr {
        Expr::Name { letters, .. } => !is_usable(procedure, table.find(letters)),
        Expr::Binary { left: first, .. }
        | Expr::Choice {
            condition: first,
            ..
        }
        | Expr::Apply { callee: first, .. } => begins_wrong(table, procedure, first),
        _ => false,
    }
}

/// An expression has no address where one is asked for; its first symbol is at this position, and may be a parenthesis.
fn unassignable<'a>(
    table: &Table<'a>,
    findings: &mut Findings,
    procedure: u32,
    parenthesis: bool,
    at: Position,
    expr: &'a Expr,
)
    ensures { findings.new ≡ Unassignable table.now procedure parenthesis at (expression expr.now) findings.old }
{
    if parenthesis || !begins_wrong(table, procedure, expr) {
        findings.breaks(at, SourceKind::NotAssignable);
    }
}

/// An expression that has no word of its own is wrong where one is asked for.
pub fn without_word<'a>(
    table: &Table<'a>,
    findings: &mut Findings,
    role: &Role,
    procedure: u32,
    expr: &'a Expr,
)
    ensures { findings.new ≡ WithoutWord role.now table.now procedure (expression expr.now) findings.old }
{
    match role {
        Role::Value | Role::Truth => {}
        Role::Address(parenthesis, at) | Role::Destination(parenthesis, at) => {
            unassignable(table, findings, procedure, *parenthesis, *at, expr);
        }
    }
}

/// A byte is wrong where an address is asked for.
pub fn without_address<'a>(
    table: &Table<'a>,
    findings: &mut Findings,
    role: &Role,
    procedure: u32,
    expr: &'a Expr,
)
    ensures { findings.new ≡ WithoutAddress role.now table.now procedure (expression expr.now) findings.old }
{
    if let Role::Address(parenthesis, at) = role {
        unassignable(table, findings, procedure, *parenthesis, *at, expr);
    }
}

/// A name at its place.
pub fn name_at<'a>(
    table: &Table<'a>,
    findings: &mut Findings,
    role: &Role,
    place: Enclosing,
    at: Position,
    letters: &'a [u8],
    expr: &'a Expr,
) -> Result<(), AllocError>
    requires { expression expr.now ≡ name at letters.now }
    ensures { OnOk result (findings.new ≡ Named role.now table.now place at letters.now (bound_in table.now letters.now) findings.old) }
{
    let bound = table.find(letters);
    let procedure = place.procedure;
    match role {
        Role::Value | Role::Truth => {
            use_name(findings, procedure, at, letters, bound)?;
            findings.reaches(place.depth, 1);
        }
        Role::Address(_, _) => {
            if !has_address(bound) {
                without_word(table, findings, role, procedure, expr);
            }
            use_name(findings, procedure, at, letters, bound)?;
            findings.reaches(place.depth, 1);
        }
        Role::Destination(_, _) => {
            if has_address(bound) {
                use_name(findings, procedure, at, letters, bound)?;
            } else {
                without_word(table, findings, role, procedure, expr);
                use_name(findings, procedure, at, letters, bound)?;
                findings.reaches(place.depth, 1);
            }
        }
    }
    Ok(())
}
