//! What is suspicious in the procedures of a section.

use crate::mentions::{Names, Used};
use crate::remarks::{Found, make_remark};
use crate::sought::Search;
use crate::walk::in_expr;
use bk_tree::{ConstItem, Decl, Def, Expr, Name, Position, Section, Sort};
use itoa::Buffer;
use std::alloc::{AllocError, Global};

/// Among how many definitions before a procedure its name is sought.
const NEAR: usize = 256;

/// A procedure where it is defined.
#[derive(Clone, Copy)]
struct Defined<'a> {
    name: &'a [u8],
    at: Position,
}

/// The procedure that a definition is, if it is one.
fn procedure(def: &Def) -> Option<Defined<'_>> {
    match def {
        Def::Routine {
            at,
            letters: name,
            ..
        } => Some(Defined { name, at: *at }),
        Def::Function {
            at,
            letters: name,
            ..
        } => Some(Defined { name, at: *at }),
        Def::Variables { .. } => None,
    }
}

/// These definitions, and others.
fn with_defs<'a>(before: Vec<&'a Def>, defs: &'a [Def]) -> Result<Vec<&'a Def>, AllocError> {
    let mut all = before;
    for def in defs {
        all.push(def)?;
    }
    Ok(all)
}

/// The definitions of a block or of a section.
fn defs_of(alloc: Global, decls: &[Decl]) -> Result<Vec<&Def>, AllocError> {
    let mut all = Vec::new(alloc);
    for decl in decls {
        if let Decl::Let { defs, .. } = decl {
            all = with_defs(all, defs)?;
        }
    }
    Ok(all)
}

/// The position of the last procedure among these definitions that has this name.
fn place_of_last(defs: &[&Def], name: &[u8]) -> Option<Position> {
    for def in defs.iter().rev() {
        if let Some(defined) = procedure(def)
            && defined.name == name
        {
            return Some(defined.at);
        }
    }
    None
}

/// A remark on a procedure with the name of one on another line.
fn remark_twice<'a>(
    alloc: Global,
    found: &mut Found,
    at: Position,
    name: &'a [u8],
    before: &'a [u8],
) {
    make_remark(
        alloc,
        found,
        at,
        &[b"`", name, b"` hides that of line ", before],
    );
}

/// Remarks on procedures of a block, or of a section, that have the name of one not far before them.
pub fn twice(alloc: Global, found: &mut Found, decls: &[Decl]) {
    let Ok(all) = defs_of(alloc, decls) else {
        found.fails();
        return;
    };
    for (i, def) in all.iter().enumerate() {
        if let Some(defined) = procedure(def)
            && let Some(before) = place_of_last(&all[i.saturating_sub(NEAR)..i], defined.name)
        {
            let mut number = Buffer::new();
            let spelling = number.format(before.line().number()).as_bytes();
            remark_twice(alloc, found, defined.at, defined.name, spelling);
        }
    }
}

/// Whether START is among the items of a declaration of globals.
fn has_start(items: &[ConstItem]) -> bool {
    items.iter().any(|ConstItem::Item { letters: name, .. }| name.as_slice() == b"START".as_slice())
}

/// Whether a declaration says that START is a global.
fn declares_start(decl: &Decl) -> bool {
    match decl {
        Decl::Constants {
            sort: Sort::Global,
            items,
            ..
        } => has_start(items),
        _ => false,
    }
}

/// The position of the procedure of this name, if it is among these definitions.
fn place_in(defs: &[Def], name: &[u8]) -> Option<Position> {
    for def in defs {
        if let Some(defined) = procedure(def)
            && defined.name == name
        {
            return Some(defined.at);
        }
    }
    None
}

/// The position of a procedure among these declarations.
pub fn defined_in(decls: &[Decl], name: &[u8]) -> Option<Position> {
    for decl in decls {
        if let Decl::Let { defs, .. } = decl
            && let Some(at) = place_in(defs, name)
        {
            return Some(at);
        }
    }
    None
}

/// Whether a section has a procedure START that is a global.
pub fn begins(section: &Section) -> bool {
    section.decls().iter().any(declares_start) && defined_in(section.decls(), b"START").is_some()
}

/// A remark on a procedure START that is no global, or on MAIN where there is no START.
pub fn no_start(alloc: Global, found: &mut Found, decls: &[Decl]) {
    if let Some(at) = defined_in(decls, b"START") {
        make_remark(
            alloc,
            found,
            at,
            &[
                b"`START` is no global here, so no run begins with it; `GET \"LIBHDR\"` before it makes it one",
            ],
        );
        return;
    }
    if let Some(at) = defined_in(decls, b"MAIN") {
        make_remark(
            alloc,
            found,
            at,
            &[b"a run begins with `START`, and not with `MAIN`"],
        );
    }
}

/// A remark on a procedure that is no global and that nothing in its section names.
fn remark_unused<'a>(alloc: Global, found: &mut Found, at: Position, name: &'a [u8]) {
    make_remark(
        alloc,
        found,
        at,
        &[b"nothing calls `", name, b"`, which is no global"],
    );
}

/// A remark on a call with more arguments than the procedure has formals.
pub fn remark_arguments<'a>(
    alloc: Global,
    found: &mut Found,
    at: Position,
    name: &'a [u8],
    counts: (usize, usize),
) {
    let (arguments, formals) = counts;
    let formats = name == b"WRITES".as_slice();
    let mut given = Buffer::new();
    let mut taken = Buffer::new();
    make_remark(
        alloc,
        found,
        at,
        &[
            b"`",
            name,
            b"` is called with ",
            given.format(arguments).as_bytes(),
            if arguments == 1 {
                b" argument"
            } else {
                b" arguments"
            },
            b", and takes ",
            taken.format(formals).as_bytes(),
            if formats {
                b"; `WRITEF` takes a format"
            } else {
                b""
            },
        ],
    );
}

/// A remark on a procedure that is a condition, and is not called.
fn remark_test<'a>(alloc: Global, found: &mut Found, at: Position, name: &'a [u8]) {
    make_remark(
        alloc,
        found,
        at,
        &[
            b"`",
            name,
            b"` is a procedure, which is true as a condition; `",
            name,
            b"()` calls it",
        ],
    );
}

/// Remarks on a use of a procedure that has so many formals.
fn on_use(alloc: Global, found: &mut Found, used: Used, name: &[u8], formals: usize) {
    if used.is_tested {
        remark_test(alloc, found, used.at, name);
        return;
    }
    if used.arguments > formals {
        remark_arguments(alloc, found, used.at, name, (used.arguments, formals));
    }
}

/// Remarks on the procedure that the declaration with this index is, where nothing calls it, or a call gives it too many arguments. One
/// whose name means something else elsewhere in the section is not looked at, since a call may be of that.
fn on_procedure(alloc: Global, found: &mut Found, names: &Names, index: usize) {
    let Some((at, formals)) = names.own_procedure(index) else {
        return;
    };
    let name = names.name_of(index);
    let mut is_used = false;
    for i in 0..names.uses() {
        if let Some(used) = names.use_of(i, name) {
            is_used = true;
            on_use(alloc, found, used, name, formals);
        }
    }
    if is_used {
        return;
    }
    remark_unused(alloc, found, at, name);
}

/// Remarks on the procedures of a section.
pub fn on_procedures(alloc: Global, found: &mut Found, names: &Names) {
    for i in 0..names.declarations() {
        on_procedure(alloc, found, names, i);
    }
}

/// A remark on a function that assigns to its own name, and whose VALOF has no RESULTIS.
pub fn in_function<'a>(
    alloc: Global,
    found: &mut Found,
    name: &'a [u8],
    formals: &'a [Name],
    body: &'a Expr,
) {
    for formal in formals {
        if formal.letters.as_slice() == name {
            return;
        }
    }
    let mut search = Search::new(body.at(), name);
    in_expr(&mut search, body);
    let Search {
        declared,
        results,
        set_at,
        ..
    } = search;
    if let Some(at) = set_at
        && declared == 0
        && results.count == 0
    {
        make_remark(
            alloc,
            found,
            at,
            &[
                b"`",
                name,
                b" := E` assigns to the word of the procedure; `RESULTIS E` gives the value of its `VALOF`",
            ],
        );
    }
}
