//! What an expression is there for.
ghost use Rattle.std.specs.Prelude.{◌≡◌};
ghost use Rattle.bk_scope.specs.Names.{parenthesised};

use bk_tree::Position;

/// What an expression is there for. Of the two that ask for a word: the line of its first symbol, and whether that is a
/// parenthesis.
#[derive(Clone, Copy)]
pub enum Role {
    /// Its value.
    Value,
    /// Whether it holds: `&`, `|` and NOT leave nothing on the frame.
    Truth,
    /// The address of its word.
    Address(bool, Position),
    /// A word, or a byte, to put a value into.
    Destination(bool, Position),
}

impl Role {
    /// The same within parentheses.
    pub fn parenthesised(&self) -> Role
        ensures { result ≡ parenthesised self.now }
    {
        match self {
            Role::Value => Role::Value,
            Role::Truth => Role::Truth,
            Role::Address(_, at) => Role::Address(true, *at),
            Role::Destination(_, at) => Role::Destination(true, *at),
        }
    }
}
