//! Signs of other languages that are two symbols here.

use crate::scene::Scene;
use crate::sentence::Reported;
use bk_lex::Kind;
use std::alloc::AllocError;

/// Two neighbouring symbols, and what is reported of them.
struct Pair {
    first: Kind,
    second: Kind,
    says: &'static str,
}

/// Pairs of which the second is refused.
static PAIRS: [Pair; 22] = [
    Pair {
        first: Kind::Plus,
        second: Kind::Assign,
        says: "`+:=` is no sign; write `X := X + E`",
    },
    Pair {
        first: Kind::Minus,
        second: Kind::Assign,
        says: "`-:=` is no sign; write `X := X - E`",
    },
    Pair {
        first: Kind::Star,
        second: Kind::Assign,
        says: "`*:=` is no sign; write `X := X * E`",
    },
    Pair {
        first: Kind::Slash,
        second: Kind::Assign,
        says: "`/:=` is no sign; write `X := X / E`",
    },
    Pair {
        first: Kind::Bang,
        second: Kind::Assign,
        says: "`!:=` is no sign; write `X := X!E`",
    },
    Pair {
        first: Kind::Equal,
        second: Kind::Equal,
        says: "`=` compares; `==` is no sign",
    },
    Pair {
        first: Kind::Bang,
        second: Kind::Equal,
        says: "`~=` is unequal; `!=` is no sign",
    },
    Pair {
        first: Kind::Less,
        second: Kind::Greater,
        says: "`~=` is unequal, and `;` goes between commands; `<>` is no sign",
    },
    Pair {
        first: Kind::Ampersand,
        second: Kind::Ampersand,
        says: "`&` is and; `&&` is no sign",
    },
    Pair {
        first: Kind::Bar,
        second: Kind::Bar,
        says: "`|` is or, and a comment begins with `//`; `||` is no sign",
    },
    Pair {
        first: Kind::Slash,
        second: Kind::Star,
        says: "a comment is `//` and the rest of the line; `/*` is no sign",
    },
    Pair {
        first: Kind::Star,
        second: Kind::Slash,
        says: "a comment is `//` and the rest of the line; `*/` is no sign",
    },
    Pair {
        first: Kind::Equal,
        second: Kind::Greater,
        says: "`>=` is greater or equal; `=>` is no sign",
    },
    Pair {
        first: Kind::Equal,
        second: Kind::Less,
        says: "`<=` is less or equal; `=<` is no sign",
    },
    Pair {
        first: Kind::Plus,
        second: Kind::Equal,
        says: "`+=` is no sign; write `X := X + E`",
    },
    Pair {
        first: Kind::Minus,
        second: Kind::Equal,
        says: "`-=` is no sign; write `X := X - E`",
    },
    Pair {
        first: Kind::Star,
        second: Kind::Equal,
        says: "`*=` is no sign; write `X := X * E`",
    },
    Pair {
        first: Kind::Slash,
        second: Kind::Equal,
        says: "`~=` is unequal; `/=` is no sign",
    },
    Pair {
        first: Kind::Equal,
        second: Kind::Assign,
        says: "`:=` assigns, and `=` compares",
    },
    Pair {
        first: Kind::Colon,
        second: Kind::Colon,
        says: "`::` and `OF` are left out; a shift and a mask take a part of a word",
    },
    Pair {
        first: Kind::Star,
        second: Kind::Star,
        says: "`**` is no sign; there are no powers",
    },
    Pair {
        first: Kind::Assign,
        second: Kind::Equal,
        says: "`:=` assigns, and `=` compares; `:==` is no sign",
    },
];

/// What is reported of the pair whose second symbol has this index, if it is one.
fn pair_at(scene: &Scene, index: usize) -> Option<&'static str> {
    if !scene.touches(index) {
        return None;
    }
    let first = scene.kind(index.checked_sub(1)?)?;
    let second = scene.kind(index)?;
    for pair in &PAIRS {
        if pair.first == first && pair.second == second {
            return Some(pair.says);
        }
    }
    None
}

/// The first two signs of this kind that touch each other in the command or definition of the refused symbol.
fn steps(scene: &Scene, kind: Kind) -> Option<usize> {
    for index in scene.statement()..scene.at {
        let next = index.saturating_add(1);
        if scene.kind(index) == Some(kind)
            && scene.kind(next) == Some(kind)
            && scene.touches(next)
        {
            return Some(index);
        }
    }
    None
}

/// What is reported of a sign of C that is two symbols before the refused one.
fn hint_step(scene: &Scene, kind: Kind, words: &str) -> Result<Option<Reported>, AllocError> {
    match steps(scene, kind) {
        Some(index) => Ok(Some(scene.reported(index, scene.sentence().say(words)?))),
        None => Ok(None),
    }
}

/// What is reported of NOT where `~=` is meant, and of a number before a name.
fn hint_apart(scene: &Scene) -> Result<Option<Reported>, AllocError> {
    if scene.refused() == Some(Kind::Not) && scene.following() == Some(Kind::Equal) {
        return Ok(Some(scene.here("`~=` (or `NE`) is unequal; `NOT =` is no sign")?));
    }
    hint_digits(scene)
}

/// What is reported of a number that a name follows at once.
fn hint_digits(scene: &Scene) -> Result<Option<Reported>, AllocError> {
    let index = if scene.refused() == Some(Kind::Number) {
        scene.at
    } else {
        scene.at.saturating_sub(1)
    };
    let next = index.saturating_add(1);
    if scene.kind(index) != Some(Kind::Number)
        || !matches!(scene.spelling(next), [first, ..] if first.is_ascii_alphabetic())
        || !scene.touches(next)
    {
        return Ok(None);
    }
    let words = match (scene.spelling(index), scene.spelling(next)) {
        (b"0", [b'x' | b'X', ..]) => {
            "`#X` begins a hexadecimal number, as `#XFF`; `0x` is no sign"
        }
        _ => "a name begins with a letter, and a number has digits alone",
    };
    Ok(Some(scene.reported(index, scene.sentence().say(words)?)))
}

/// What is reported of signs of other languages.
pub fn hint_signs(scene: &Scene) -> Result<Option<Reported>, AllocError> {
    if let Some(says) = pair_at(scene, scene.at) {
        return Ok(Some(scene.here(says)?));
    }
    if let Some(says) = pair_at(scene, scene.at.saturating_add(1)) {
        return Ok(Some(scene.here(says)?));
    }
    if let Some(reported) = hint_step(scene, Kind::Plus, "`++` is no sign; write `X := X + 1`")? {
        return Ok(Some(reported));
    }
    if let Some(reported) = hint_step(scene, Kind::Minus, "`--` is no sign; write `X := X - 1`")? {
        return Ok(Some(reported));
    }
    hint_apart(scene)
}
