//! The positions of symbols.

ghost use Rattle.std.specs.Prelude.{◌≡◌};
ghost use Rattle.bk_grammar.specs.Placed.{position_at};
ghost use Rattle.bk_tree.specs.Position.{line_in};

use bk_lex::Token;
use bk_tree::Position;

/// The position of a symbol, which its node keeps.
pub fn position_of(token: &Token) -> Position
    ensures position { result ≡ position_at token.now }
    // Its line can be taken out of it.
    ensures line { line_in result ≡ token.now.line }
{
    Position::new(token.line, token.place)
}
