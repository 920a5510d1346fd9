//! The role of each name of a section at its place: a use, or the declaration of something.

use bk_lex::{Kind, Token};
use std::alloc::{AllocError, Global};

/// What a symbol is in the declarations of a section.
#[derive(Clone, Copy, Debug, PartialEq, Eq)]
pub enum NameRole {
    /// Nothing that is declared.
    Used,
    /// The name of a procedure, where it is defined.
    Procedure,
    /// A formal.
    Formal,
    /// A variable of a LET.
    Variable,
    /// The variable of a FOR.
    Counter,
    /// An item of MANIFEST.
    Constant,
    /// An item of STATIC.
    Fixed,
    /// An item of GLOBAL.
    Shared,
    /// A label.
    Label,
}

/// Where the reading is.
#[derive(Clone, Copy, Debug, PartialEq, Eq)]
struct Reading {
    /// What the items are of the list that is read.
    list: Option<NameRole>,
    /// Whether the names of a LET or AND are read.
    head: bool,
    /// Whether formals are read.
    formals: bool,
    /// The symbol before.
    before: Option<Kind>,
}

/// Where the reading is after a symbol.
fn following(reading: Reading, kind: Kind) -> Reading {
    let next = Reading {
        before: Some(kind),
        ..reading
    };
    match kind {
        Kind::Manifest => Reading {
            list: Some(NameRole::Constant),
            ..next
        },
        Kind::Static => Reading {
            list: Some(NameRole::Fixed),
            ..next
        },
        Kind::Global => Reading {
            list: Some(NameRole::Shared),
            ..next
        },
        Kind::SectionClose => Reading { list: None, ..next },
        Kind::Let | Kind::And => Reading {
            head: true,
            formals: false,
            ..next
        },
        Kind::Open => Reading {
            formals: true,
            ..next
        },
        Kind::Name | Kind::Comma | Kind::Close => next,
        _ => Reading {
            head: false,
            ..next
        },
    }
}

/// Whether a label may be after a symbol.
fn comes_before_label(kind: Kind) -> bool {
    matches!(
        kind,
        Kind::Semicolon
            | Kind::SectionOpen
            | Kind::Do
            | Kind::Or
            | Kind::Be
            | Kind::Into
            | Kind::Valof
            | Kind::Colon
    )
}

/// What a name is here, with this symbol after it.
fn role_of(reading: Reading, next: Option<Kind>) -> NameRole {
    let Some(before) = reading.before else {
        return NameRole::Used;
    };
    if let Some(role) = reading.list {
        return if matches!(before, Kind::SectionOpen | Kind::Semicolon) {
            role
        } else {
            NameRole::Used
        };
    }
    if reading.head {
        return if reading.formals {
            NameRole::Formal
        } else if next == Some(Kind::Open) {
            NameRole::Procedure
        } else {
            NameRole::Variable
        };
    }
    if before == Kind::For {
        NameRole::Counter
    } else if next == Some(Kind::Colon) && comes_before_label(before) {
        NameRole::Label
    } else {
        NameRole::Used
    }
}

/// What each symbol is.
pub fn roles(alloc: Global, tokens: &[Token]) -> Result<Vec<NameRole>, AllocError> {
    let mut roles = Vec::new(alloc);
    let mut reading = Reading {
        list: None,
        head: false,
        formals: false,
        before: None,
    };
    for (i, token) in tokens.iter().enumerate() {
        let next = match tokens.get(i.saturating_add(1)) {
            Some(next) => Some(next.kind),
            None => None,
        };
        roles.push(if token.kind == Kind::Name {
            role_of(reading, next)
        } else {
            NameRole::Used
        })?;
        reading = following(reading, token.kind);
    }
    Ok(roles)
}
