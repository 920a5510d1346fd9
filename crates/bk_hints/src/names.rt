//! What is reported of names: those that mean nothing, that another procedure owns, or that are declared twice.

use crate::foreign::{library, put_foreign};
use crate::roles::NameRole;
use crate::scene::Scene;
use crate::sentence::{Reported, Sentence};
use bk_lex::Kind;
use std::alloc::AllocError;

/// The shortest name that is taken for another by one letter.
const SHORTEST: usize = 3;

/// The names of a section, and the one that is at fault.
#[derive(Drop)]
pub struct Names<'a> {
    pub scene: &'a Scene<'a>,
    /// What each symbol is.
    pub roles: &'a [NameRole],
    /// The name, in upper case.
    pub name: &'a [u8],
}

impl Names<'_> {
    /// What a symbol is.
    fn role(&self, index: usize) -> NameRole {
        self.roles.get(index).copied().unwrap_or(NameRole::Used)
    }

    /// Whether a symbol is the name.
    fn is_name(&self, index: usize) -> bool {
        self.scene.kind(index) == Some(Kind::Name)
            && self.scene.spelling(index).eq_ignore_ascii_case(self.name)
    }

    /// Whether a symbol declares the name.
    fn declares(&self, index: usize) -> bool {
        self.role(index) != NameRole::Used && self.is_name(index)
    }

    /// The last declaration of the name before a symbol.
    fn last_before(&self, at: usize) -> Option<usize> {
        let mut found = None;
        for index in 0..self.roles.len() {
            if index >= at {
                return found;
            }
            if self.declares(index) {
                found = Some(index);
            }
        }
        found
    }

    /// The first declaration of the name after a symbol.
    fn first_after(&self, at: usize) -> Option<usize> {
        for index in 0..self.roles.len() {
            if index > at && self.declares(index) {
                return Some(index);
            }
        }
        None
    }

    /// The last label of the name.
    fn label(&self) -> Option<usize> {
        let mut found = None;
        for index in 0..self.roles.len() {
            if self.role(index) == NameRole::Label && self.is_name(index) {
                found = Some(index);
            }
        }
        found
    }

    /// The name of something that is declared and that differs by one letter.
    fn alike(&self) -> Option<usize> {
        for index in 0..self.roles.len() {
            if self.role(index) != NameRole::Used
                && is_alike(self.scene.spelling(index), self.name)
            {
                return Some(index);
            }
        }
        None
    }

    /// This sentence at a symbol, with that of a declaration as a second place.
    fn reported(&self, at: usize, declared: Option<usize>, sentence: Sentence) -> Reported {
        let also = match declared {
            Some(declared) => self.scene.spot(declared),
            None => None,
        };
        self.scene.reported(at, sentence).and(also)
    }

    /// The sentence with the name after it.
    fn quoted(&self, words: &str) -> Result<Sentence, AllocError> {
        self.scene.sentence().say(words)?.quote(self.name)
    }
}

/// Whether two bytes are one letter.
fn same_letter(a: Option<u8>, b: Option<u8>) -> bool {
    match (a, b) {
        (Some(a), Some(b)) => a.eq_ignore_ascii_case(&b),
        (None, None) => true,
        _ => false,
    }
}

/// Whether the spellings are one from these places on.
fn same_rest(a: &[u8], from: usize, b: &[u8], other: usize) -> bool {
    match (a.get(from..), b.get(other..)) {
        (Some(a), Some(b)) => a.eq_ignore_ascii_case(b),
        _ => false,
    }
}

/// How many letters two spellings have in common at their beginnings.
fn common(a: &[u8], b: &[u8]) -> usize {
    for (i, byte) in a.iter().enumerate() {
        if !same_letter(Some(*byte), b.get(i).copied()) {
            return i;
        }
    }
    a.len()
}

/// Whether two spellings differ by one letter that is another, missing or added, or by two neighbours that are the other way round.
pub fn is_alike(a: &[u8], b: &[u8]) -> bool {
    if a.len() < SHORTEST || b.len() < SHORTEST {
        return false;
    }
    let same = common(a, b);
    let next = same.saturating_add(1);
    let last = next.saturating_add(1);
    same_rest(a, next, b, next)
        || same_rest(a, next, b, same)
        || same_rest(a, same, b, next)
        || (same_rest(a, last, b, last)
            && same_letter(a.get(same).copied(), b.get(next).copied())
            && same_letter(a.get(next).copied(), b.get(same).copied()))
}

/// Whether a declaration of a variable is in the LET that a symbol is in.
fn is_same_let(scene: &Scene, declared: usize, at: usize) -> bool {
    for index in declared..at {
        if matches!(
            scene.kind(index),
            Some(
                Kind::Semicolon
                    | Kind::Let
                    | Kind::Do
                    | Kind::Be
                    | Kind::SectionOpen
                    | Kind::SectionClose
                    | Kind::Valof
            )
        ) {
            return false;
        }
    }
    true
}

/// What is reported of a name that means nothing, where it is declared before.
fn hint_past(names: &Names, at: usize, declared: usize) -> Result<Sentence, AllocError> {
    let scene = names.scene;
    let line = scene.line(declared);
    let sentence = names.quoted("")?;
    match names.role(declared) {
        NameRole::Variable if is_same_let(scene, declared, at) => sentence.say(
            " is declared by this very LET, whose values don't see its variables; a LET of its own, before, serves",
        ),
        NameRole::Label => sentence.say(" is the label of ")?.line(line)?.say(
            ", in another procedure or inside a block: GOTO reaches a label of its own procedure, and none inside a block with declarations",
        ),
        NameRole::Formal => sentence
            .say(" is a formal of the procedure of ")?
            .line(line)?
            .say(", and means nothing outside it"),
        _ => sentence
            .say(" of ")?
            .line(line)?
            .say(" is declared in a block or procedure that has ended here"),
    }
}

/// What is reported of a name that means nothing, where it is declared after.
fn hint_later(names: &Names, declared: usize) -> Result<Sentence, AllocError> {
    let line = names.scene.line(declared);
    let sentence = names.quoted("")?;
    match names.role(declared) {
        NameRole::Label => sentence.say(" is the label of ")?.line(line)?.say(
            ", in another procedure or inside a block: GOTO reaches a label of its own procedure, and none inside a block with declarations",
        ),
        NameRole::Procedure => sentence.say(" is declared later, on ")?.line(line)?.say(
            "; `AND` in the place of its `LET` joins it to the procedure before, and each sees the other",
        ),
        _ => sentence
            .say(" is declared later, on ")?
            .line(line)?
            .say("; its declaration has to come before its use"),
    }
}

/// Whether the section has the symbols of a header before a symbol.
fn has_header(scene: &Scene, at: usize) -> bool {
    for (i, token) in scene.tokens.iter().enumerate() {
        if i >= at {
            return false;
        }
        if token.place.is_none() && !token.text.is_empty() {
            return true;
        }
    }
    false
}

/// What is reported of a name that means nothing.
pub fn hint_not_declared(names: &Names, at: usize) -> Result<Reported, AllocError> {
    let scene = names.scene;
    let sentence = if let Some(declared) = names.last_before(at) {
        hint_past(names, at, declared)?
    } else if let Some(declared) = names.first_after(at) {
        hint_later(names, declared)?
    } else if let Some(words) = library(names.name) {
        names.quoted("")?.say(" is not declared; ")?.say(words)?
    } else if let Some(sentence) = put_foreign(scene.sentence(), names.name)? {
        sentence
    } else {
        hint_unknown(names, at)?
    };
    let declared = names.last_before(at);
    Ok(names.reported(at, declared.or(names.first_after(at)), sentence))
}

/// What is reported of a name that is declared nowhere.
fn hint_unknown(names: &Names, at: usize) -> Result<Sentence, AllocError> {
    if names.name.last().copied() == Some(b'.') {
        return names
            .quoted("the `.` belongs to the name ")?
            .say("; a blank goes before the `.` that ends a section");
    }
    if let Some(index) = names.alike() {
        let sentence = names
            .quoted("")?
            .say(" is declared nowhere in this section; perhaps ")?
            .quote(names.scene.spelling(index))?
            .say(" is meant");
        return match names.scene.place(index) {
            Some(_) => sentence?.say(", of ")?.line(names.scene.line(index)),
            None => sentence,
        };
    }
    let sentence = names
        .quoted("")?
        .say(" is declared nowhere in this section")?;
    if names.name.contains(&b'.') {
        return sentence.say("; a `.` belongs to a name, so this is one name");
    }
    if names.scene.before_at(at) == Some(Kind::Goto) {
        return sentence.say("; `GOTO` takes a label of its procedure");
    }
    if has_header(names.scene, names.roles.len()) {
        sentence.say(
            "; `LET` in a block, `STATIC` or `GLOBAL` declares a variable, and `LET` a procedure",
        )
    } else {
        sentence.say(", which has no `GET` either")
    }
}

/// What is reported of a name that is declared twice in one list.
pub fn hint_twice(names: &Names, at: usize) -> Result<Reported, AllocError> {
    let sentence = names.quoted("")?;
    let sentence = match names.last_before(at) {
        Some(first) => sentence
            .say(" is declared already, on ")?
            .line(names.scene.line(first))?
            .say(
                ", in the same list: one LET with its ANDs, one MANIFEST, STATIC or GLOBAL, or the formals or labels of one procedure",
            )?,
        None => sentence.say(" is declared twice in one list")?,
    };
    Ok(names.reported(at, names.last_before(at), sentence))
}

/// What is reported of a variable of an outer procedure.
pub fn hint_dynamic(names: &Names, at: usize) -> Result<Reported, AllocError> {
    let sentence = names.quoted("")?;
    let sentence = match names.last_before(at) {
        Some(declared) => sentence.say(" of ")?.line(names.scene.line(declared))?,
        None => sentence,
    };
    let sentence = sentence.say(
        " is a variable of the procedure outside, which this one can't use; STATIC, a global or an argument serves",
    )?;
    Ok(names.reported(at, names.last_before(at), sentence))
}

/// What is reported of a label that is not one here.
pub fn hint_label(names: &Names, at: usize) -> Result<Reported, AllocError> {
    let sentence = names.quoted("")?;
    let sentence = if names.scene.before_at(at) != Some(Kind::Goto) {
        sentence.say(" is a label, which is no value: `GOTO` alone takes it")?
    } else if let Some(label) = names.label() {
        sentence
            .say(" is no label that this GOTO reaches; that of ")?
            .line(names.scene.line(label))?
            .say(" is in another procedure or inside a block")?
    } else {
        sentence.say(
            " is no label; `GOTO` takes a label of its procedure, and `F()` calls a procedure",
        )?
    };
    Ok(names.reported(at, names.label(), sentence))
}

/// What is reported of a second procedure of one global.
pub fn hint_procedures(names: &Names, at: usize) -> Result<Reported, AllocError> {
    let sentence = names.quoted("")?.say(
        " is a global, and a section has one procedure for it at most",
    )?;
    let sentence = match names.last_procedure(at) {
        Some(first) => sentence
            .say("; the first is on ")?
            .line(names.scene.line(first))?,
        None => sentence,
    };
    Ok(names.reported(at, names.last_procedure(at), sentence))
}

impl Names<'_> {
    /// The last procedure of the name before a symbol.
    fn last_procedure(&self, at: usize) -> Option<usize> {
        let mut found = None;
        for index in 0..self.roles.len() {
            if index >= at {
                return found;
            }
            if self.role(index) == NameRole::Procedure && self.is_name(index) {
                found = Some(index);
            }
        }
        found
    }

    /// Whether the last declaration of a name with this index before it is an item of MANIFEST, and which.
    pub fn manifest_of(&self, at: usize) -> Option<usize> {
        let declared = self.last_before(at)?;
        if self.role(declared) == NameRole::Constant {
            Some(declared)
        } else {
            None
        }
    }
}
