//! What a position of the source declares or calls. It is sought in the bodies of the procedures of a program.

use crate::sought::{Kind, Search};
use crate::walk::{in_command, in_expr};
use bk_lasting::{Body, Lasting, Procedure};
use bk_tree::{Command, Expr, Name, Position};

/// A declaration of an object.
#[derive(Clone, Copy)]
pub struct Made<'a> {
    /// Its name; of formals, that of the procedure.
    pub name: &'a [u8],
    /// What it is.
    pub kind: Kind,
    /// Where it is.
    pub at: Position,
    /// The name of the procedure that it is in.
    pub procedure: &'a [u8],
}

/// Seeks in the body of a procedure.
pub fn seek<'a>(search: &mut Search<'a>, procedure: &Procedure<'a>) {
    match procedure.body {
        Body::Command(command) => in_command(search, command),
        Body::Value(value) => in_expr(search, value),
    }
}

/// What a procedure has at a position, and where it has a name.
pub fn in_procedure<'a>(procedure: &Procedure<'a>, at: Position, name: &'a [u8]) -> Search<'a> {
    let mut search = Search::new(at, name);
    seek(&mut search, procedure);
    search
}

/// Whether the formals of a procedure are at a position.
fn has_formals_at(procedure: &Procedure, at: Position) -> bool {
    match procedure.formals.first() {
        Some(first) => first.at == at,
        None => false,
    }
}

/// What a procedure declares at a position.
fn made_in<'a>(procedure: &Procedure<'a>, at: Position) -> Option<(&'a [u8], Kind)> {
    match in_procedure(procedure, at, b"").made {
        Some(made) => Some(made),
        None if has_formals_at(procedure, at) => Some((procedure.name, Kind::Formals)),
        None => None,
    }
}

/// The declaration at a position.
pub fn made_at<'a>(program: &[Lasting<'a>], at: Position) -> Option<Made<'a>> {
    for lasting in program {
        if let Lasting::Code(procedure) = lasting
            && let Some((name, kind)) = made_in(procedure, at)
        {
            return Some(Made {
                name,
                kind,
                at,
                procedure: procedure.name,
            });
        }
    }
    None
}

/// The arguments of the call at a position.
pub fn arguments_at<'a>(program: &[Lasting<'a>], at: Position) -> Option<&'a [Expr]> {
    for lasting in program {
        if let Lasting::Code(procedure) = lasting
            && let Some(arguments) = in_procedure(procedure, at, b"").arguments
        {
            return Some(arguments);
        }
    }
    None
}

/// The formals of the procedure that has the first of them at a position.
pub fn formals_at<'a>(program: &[Lasting<'a>], at: Position) -> Option<&'a [Name]> {
    for lasting in program {
        if let Lasting::Code(procedure) = lasting
            && let Some(first) = procedure.formals.first()
            && first.at == at
        {
            return Some(procedure.formals);
        }
    }
    None
}

/// The loop at a position: a FOR is at the name of its variable, and another at its first symbol.
pub fn loop_at<'a>(program: &[Lasting<'a>], at: Position) -> Option<&'a Command> {
    for lasting in program {
        if let Lasting::Code(procedure) = lasting
            && let Some(command) = in_procedure(procedure, at, b"").looping
        {
            return Some(command);
        }
    }
    None
}

/// What is before the `!`, where the call at a position is after one.
pub fn vector_at<'a>(program: &[Lasting<'a>], at: Position) -> Option<&'a Expr> {
    for lasting in program {
        if let Lasting::Code(procedure) = lasting
            && let Some(vector) = in_procedure(procedure, at, b"").vector
        {
            return Some(vector);
        }
    }
    None
}
