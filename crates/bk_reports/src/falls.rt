//! The cases of a SWITCHON into which the commands before them go on.

use bk_tree::{Command, Expr, Position};
use std::alloc::{AllocError, Global};

/// A CASE or DEFAULT that the command before it goes on into.
#[derive(Clone, Copy)]
pub struct Fall {
    /// Where that command is.
    pub from: Position,
    /// Where the CASE or DEFAULT is.
    pub at: Position,
}

/// The position of the CASE or DEFAULT that a command begins with, perhaps after labels.
fn case_at(command: &Command) -> Option<Position> {
    match command {
        Command::Case { at, .. } | Command::Default { at, .. } => Some(*at),
        Command::Label { body, .. } => case_at(body),
        _ => None,
    }
}

/// Whether this is the name of a routine that doesn't come back.
fn is_final(callee: &Expr) -> bool {
    match callee {
        Expr::Name { letters, .. } => {
            let name: &[u8] = letters;
            matches!(name, b"STOP" | b"ABORT" | b"LONGJUMP")
        }
        _ => false,
    }
}

/// Whether a run goes on from this command to the one after it; false where the form of the command does not tell.
#[cycle(falls)]
fn goes_on(command: &Command) -> bool {
    match command {
        Command::Assign { .. } | Command::For { .. } | Command::If { .. } => true,
        Command::Call { callee, .. } => !is_final(callee),
        Command::Label { body, .. } | Command::Case { body, .. } | Command::Default { body, .. } =>
            goes_on(body),
        Command::Test { yes, no, .. } => goes_on(yes) && goes_on(no),
        Command::Block { commands, .. } => last_goes_on(commands),
        _ => false,
    }
}

/// The same of the last of some commands.
#[cycle(falls)]
fn last_goes_on(commands: &[Command]) -> bool {
    match commands {
        [.., last] => goes_on(last),
        [] => false,
    }
}

/// The cases of a SWITCHON with this body into which the commands before them go on.
pub fn falls(alloc: Global, body: &Command) -> Result<Vec<Fall>, AllocError> {
    let mut found = Vec::new(alloc);
    let Command::Block { commands, .. } = body else {
        return Ok(found);
    };
    let mut before: Option<&Command> = None;
    for command in commands {
        let case = case_at(command);
        if let (Some(last), Some(at)) = (before, case)
            && goes_on(last)
        {
            found.push(Fall {
                from: last.at(),
                at,
            })?;
        }
        if before.is_some() || case.is_some() {
            before = Some(command);
        }
    }
    Ok(found)
}
