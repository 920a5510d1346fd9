//! The places of the data of a section.
ghost use Rattle.std.specs.Prelude.{◌≡◌, ◌++◌, drop, OnOk, IfOk};
ghost use Rattle.bk_source_map.specs.PlacedScheme.{entrance, entrances, from_label, first_place, pointed, owner, first_of, data_place, entrances_left, words_left, data_places};

use bk_ocode::Stmt;
use bk_tree::Position;
use std::alloc::{AllocError, Global};

/// The label of a procedure, and its place.
#[derive(Clone, Copy)]
pub struct Entrance {
    pub label: u32,
    pub at: Position,
}

/// The entrance of a statement at this place, if it is an ENTRY.
fn put_entrance(found: &mut Vec<Entrance>, stmt: &Stmt, at: Position) -> Result<(), AllocError>
    ensures { OnOk result (found.new.items ≡ found.old.items ++ entrance stmt.now at) }
{
    if let Stmt::Entry { label, .. } = stmt {
        found.push(Entrance { label: *label, at })?;
    }
    Ok(())
}

/// The procedures among statements with these places.
pub fn entrances_of(
    alloc: Global,
    stmts: &[Stmt],
    places: &[Position],
) -> Result<Vec<Entrance>, AllocError>
    ensures { IfOk result (λ found. found.items ≡ entrances stmts.now places.now) }
{
    let mut found = Vec::new(alloc);
    for i in 0..stmts.len().min(places.len()) {
        put_entrance(&mut found, &stmts[i], places[i])?;
    }
    Ok(found)
}

/// The entrances from that of this label on.
fn from_label<'a>(entrances: &'a [Entrance], label: u32) -> &'a [Entrance]
    ensures { result.now ≡ from_label label entrances.now }
{
    for i in 0..entrances.len() {
        if entrances[i].label == label {
            return &entrances[i..];
        }
    }
    &[]
}

/// The place of the first; the first line, without a place, where there is none.
fn first_place(entrances: &[Entrance]) -> Position
    ensures { result ≡ first_place entrances.now }
{
    match entrances {
        [] => Position::first(),
        [first, ..] => first.at,
    }
}

/// The first of these places; the first line, without a place, where there is none.
fn first_of(places: &[Position]) -> Position
    ensures { result ≡ first_of places.now }
{
    match places {
        [] => Position::first(),
        [first, ..] => *first,
    }
}

/// The label of the procedure whose address the next statement is.
fn pointed(rest: &[Stmt]) -> Option<u32>
    ensures { result ≡ pointed rest.now }
{
    match rest {
        [Stmt::DataAddress { label }, ..] => Some(*label),
        _ => None,
    }
}

/// The label of the procedure whose word a statement is of, with those that come after it.
fn owner(stmt: &Stmt, rest: &[Stmt]) -> Option<u32>
    ensures { result ≡ owner stmt.now rest.now }
{
    match stmt {
        Stmt::DataAddress { label } => Some(*label),
        Stmt::DataLabel { .. } => pointed(rest),
        _ => None,
    }
}

/// The entrances that are left after a statement of the data.
fn entrances_left<'a>(entrances: &'a [Entrance], owner: Option<u32>) -> &'a [Entrance]
    ensures { result.now ≡ entrances_left entrances.now owner }
{
    match owner {
        Some(label) => from_label(entrances, label),
        None => entrances,
    }
}

/// The places of other data that are left after it.
fn words_left<'a>(words: &'a [Position], owner: Option<u32>) -> &'a [Position]
    ensures { result.now ≡ words_left words.now owner }
{
    match (owner, words) {
        (None, [_, rest @ ..]) => rest,
        (_, _) => words,
    }
}

/// Its place, where these entrances are left after it and these other places before it.
fn data_place(entrances: &[Entrance], words: &[Position], owner: Option<u32>) -> Position
    ensures { result ≡ data_place entrances.now words.now owner }
{
    match owner {
        Some(_) => first_place(entrances),
        None => first_of(words),
    }
}

/// The places of statements after those of the procedures: the words of procedures are at these entrances, the other data at these
/// places, in their order.
pub fn put_data(
    out: &mut Vec<Position>,
    entrances: &[Entrance],
    words: &[Position],
    stmts: &[Stmt],
) -> Result<(), AllocError>
    ensures { OnOk result (out.new.items ≡ out.old.items ++ data_places entrances.now words.now stmts.now) }
{
    let mut ahead = entrances;
    let mut left = words;
    for i in 0..stmts.len() {
        let owner = owner(&stmts[i], &stmts[i + 1..]);
        ahead = entrances_left(ahead, owner);
        out.push(data_place(ahead, left, owner))?;
        left = words_left(left, owner);
    }
    Ok(())
}
