//! Seeking a label, or the place of a CASE or DEFAULT, in commands.
ghost use Rattle.std.specs.Prelude.{◌≡◌, Option};
ghost use Rattle.bk_tree.specs.Tree.{command_in, commands_in};
ghost use Rattle.bk_meaning.specs.Seeking as q;
ghost use Rattle.bk_check.specs.Views.{sought_in, mode_in};
ghost use Rattle.bk_lasting.specs.Views.{env_in};

use crate::frame::Sought;
use bk_lasting::{Env, constant};
use bk_tree::Command;

/// Whether a label is sought.
fn is_label(sought: Sought, label: &[u8]) -> bool
    ensures { result ≡ q.same_place (sought_in sought.entry) (q.the_label label.now) }
{
    match sought {
        Sought::Label(name) => name == label,
        Sought::Case(_) => false,
        Sought::Default => false,
    }
}

/// Whether the CASE with this word is sought.
fn is_case(sought: Sought, word: Option<u32>) -> bool
    ensures { result ≡ q.same_place (sought_in sought.entry) (q.the_case word) }
{
    match sought {
        Sought::Label(_) => false,
        Sought::Case(x) => match word {
            Some(y) => x == y,
            None => false,
        },
        Sought::Default => false,
    }
}

/// Whether a DEFAULT is sought.
fn is_default(sought: Sought) -> bool
    ensures { result ≡ q.same_place (sought_in sought.entry) q.the_default }
{
    match sought {
        Sought::Label(_) => false,
        Sought::Case(_) => false,
        Sought::Default => true,
    }
}

/// Whether the place is in a command, where seeking comes to it.
#[cycle(seeking)]
pub fn has_place(sought: Sought, env: &Env, command: &Command) -> bool
    ensures { result ≡ q.has_place (sought_in sought.entry) (env_in env.now) (command_in command.now) }
{
    match command {
        Command::Label {
            letters: name,
            body: c,
            ..
        } => is_label(sought, name) || has_place(sought, env, c),
        Command::Case {
            value: e,
            body: c,
            ..
        } => is_case(sought, constant(env, e)) || has_place(sought, env, c),
        Command::Default { body: c, .. } => is_default(sought) || has_place(sought, env, c),
        Command::If { body: c, .. } => has_place(sought, env, c),
        Command::While { body: c, .. } => has_place(sought, env, c),
        Command::Repeat { body: c, .. } => has_place(sought, env, c),
        Command::RepeatWhile { body: c, .. } => has_place(sought, env, c),
        Command::Test { yes: a, no: b, .. } => has_place(sought, env, a)
            || has_place(sought, env, b),
        Command::SwitchOn { body: c, .. } => match sought {
            Sought::Label(_) => has_place(sought, env, c),
            Sought::Case(_) => false,
            Sought::Default => false,
        },
        Command::Block {
            decls: ds,
            commands: cs,
            ..
        } => ds.is_empty() && one_has_place(sought, env, cs),
        Command::Empty => false,
        Command::Assign { .. } => false,
        Command::Call { .. } => false,
        Command::Goto { .. } => false,
        Command::For { .. } => false,
        Command::ResultIs { .. } => false,
        Command::Simple { .. } => false,
    }
}

/// Whether it is in one of these commands.
#[cycle(seeking)]
pub fn one_has_place(sought: Sought, env: &Env, commands: &[Command]) -> bool
    ensures { result ≡ q.one_has_place (sought_in sought.entry) (env_in env.now) (commands_in commands.now) }
{
    for c in commands {
        if has_place(sought, env, c) {
            return true;
        }
    }
    false
}

/// How to go on after a label.
pub fn at_label<'a>(mode: Option<Sought<'a>>, label: &[u8]) -> Option<Sought<'a>>
    ensures { mode_in result ≡ q.at_place (q.the_label label.now) (mode_in mode.entry) }
{
    match mode {
        None => None,
        Some(sought) => if is_label(sought, label) {
            None
        } else {
            Some(sought)
        },
    }
}

/// How to go on after a CASE.
pub fn at_case<'a>(mode: Option<Sought<'a>>, word: Option<u32>) -> Option<Sought<'a>>
    ensures { mode_in result ≡ q.at_place (q.the_case word) (mode_in mode.entry) }
{
    match mode {
        None => None,
        Some(sought) => if is_case(sought, word) {
            None
        } else {
            Some(sought)
        },
    }
}

/// How to go on after a DEFAULT.
pub fn at_default(mode: Option<Sought>) -> Option<Sought>
    ensures { mode_in result ≡ q.at_place q.the_default (mode_in mode.entry) }
{
    match mode {
        None => None,
        Some(sought) => if is_default(sought) {
            None
        } else {
            Some(sought)
        },
    }
}
