//! What is suspicious in the declarations of globals.

use crate::remarks::{Found, is_defined, make_remark, number};
use bk_base::word_text;
use bk_tree::{ConstItem, Decl, Position, Section, Sort};
use itoa::Buffer;
use std::alloc::{AllocError, Global};

/// How many declarations of globals are compared with one another at most.
const GLOBALS: usize = 4000;

/// Whether a declaration of globals gives this name another number.
fn has_other_number(items: &[ConstItem], name: &[u8], standard: i32) -> bool {
    for item in items {
        let ConstItem::Item { letters, expr, .. } = item;
        if letters.as_slice() == name && number(expr) != Some(standard) {
            return true;
        }
    }
    false
}

/// Whether a section declares a global of this name, and not with this number.
fn is_renumbered(section: &Section, name: &[u8], standard: i32) -> bool {
    for decl in section.decls() {
        if let Decl::Constants {
            sort: Sort::Global,
            items,
            ..
        } = decl
            && has_other_number(items, name, standard)
        {
            return true;
        }
    }
    false
}

/// The routines of the library that the sections define themselves, or whose names they give to other globals.
pub fn own_routines(alloc: Global, sections: &[Section]) -> Result<Vec<&'static [u8]>, AllocError> {
    let mut own = Vec::new(alloc);
    for (name, standard) in [
        (b"STOP".as_slice(), 2),
        (b"RDCH".as_slice(), 3),
        (b"WRCH".as_slice(), 4),
        (b"NEWLINE".as_slice(), 5),
        (b"WRITES".as_slice(), 6),
        (b"WRITEN".as_slice(), 7),
        (b"WRITED".as_slice(), 8),
        (b"GETBYTE".as_slice(), 9),
        (b"PUTBYTE".as_slice(), 10),
        (b"WRITEF".as_slice(), 11),
    ] {
        let is_other = sections
            .iter()
            .any(|section| is_renumbered(section, name, standard));
        if is_defined(sections, name) || is_other {
            own.push(name)?;
        }
    }
    Ok(own)
}

/// The first global before a position that has this number, where it has another name.
fn first_with<'a>(
    decls: &'a [Decl],
    before: Position,
    name: &[u8],
    wanted: i32,
) -> Option<&'a ConstItem> {
    for decl in decls {
        if let Decl::Constants {
            sort: Sort::Global,
            items,
            ..
        } = decl
        {
            for item in items {
                let ConstItem::Item { at, letters, expr } = item;
                let other: &[u8] = letters;
                if *at == before {
                    return None;
                }
                if number(expr) == Some(wanted) {
                    return if other == name { None } else { Some(item) };
                }
            }
        }
    }
    None
}

/// A remark on a global that has the number of another.
fn remark_shared(
    alloc: Global,
    found: &mut Found,
    global: &ConstItem,
    first: &ConstItem,
    number: i32,
) {
    let ConstItem::Item { at, letters, .. } = global;
    let ConstItem::Item {
        at: first_at,
        letters: first_letters,
        ..
    } = first;
    let number = word_text(number);
    let mut line = Buffer::new();
    make_remark(
        alloc,
        found,
        *at,
        &[
            b"`",
            letters,
            b"` is the global ",
            number.as_bytes(),
            b", and so is `",
            first_letters,
            b"` of line ",
            line.format(first_at.line().number()).as_bytes(),
        ],
    );
}

/// Remarks on globals of a declaration that have the number of one before them, and another name.
fn on_items(alloc: Global, found: &mut Found, decls: &[Decl], items: &[ConstItem]) {
    for item in items {
        let ConstItem::Item { at, letters, expr } = item;
        if let Some(number) = number(expr)
            && let Some(first) = first_with(decls, *at, letters, number)
        {
            remark_shared(alloc, found, item, first, number);
        }
    }
}

/// Remarks on globals of a section that have one number and two names. What another section calls a global may be meant, as where a
/// program puts a routine of its own in the place of one of the library.
pub fn on_globals(alloc: Global, found: &mut Found, decls: &[Decl]) {
    let mut count: usize = 0;
    for decl in decls {
        if let Decl::Constants {
            sort: Sort::Global,
            items,
            ..
        } = decl
        {
            count = count.saturating_add(items.len());
            if count <= GLOBALS {
                on_items(alloc, found, decls, items);
            }
        }
    }
}
