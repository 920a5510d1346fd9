//! Bytes of cells, and what is written to memory.
ghost use Rattle.std.specs.Prelude.{◌≡◌, ◌==◌, ◌<◌, ℕ, Some, None, IfErr, OnErr, is_ok, if◌then◌else◌};
ghost use Rattle.std.specs.Option.{option_map};
ghost use Rattle.std.specs.Result.{result_ok};
ghost use Rattle.bk_meaning.specs.Values as v;
ghost use Rattle.bk_meaning.specs.Memory as m;
ghost use Rattle.bk_meaning.specs.Causes.{cell_cause, byte_cause, set_byte_cause};
ghost use Rattle.bk_meaning.specs.World.{World, changes};
ghost use Rattle.bk_meaning.specs.Parts as p;
ghost use Rattle.bk_objects.specs.Views.{value_in, cell_in, place_in, cause_in, cause_by};

use crate::computed::Reason;
use crate::store::Store;
use crate::worth::{Cell, Location, Worth};
use bk_base::word;

/// The byte at a place from 0 to 3, if it is set.
fn byte_in(cell: Cell, i: u32) -> Option<u8>
    requires { i < 4 }
    ensures { result ≡ v.byte_in (cell_in cell) i }
{
    match cell {
        Cell::Holds(Worth::Number(n)) => Some(word::byte(n, i)),
        Cell::Holds(_) => None,
        Cell::Places(a, b, c, d) => match i {
            0 => a,
            1 => b,
            2 => c,
            _ => d,
        },
    }
}

/// The byte with this number of the words from an address on.
pub fn read_byte(store: &Store, at: Worth, i: Worth) -> Result<u8, Reason>
    ensures byte { result_ok result ≡ m.read_byte store.now (value_in at) (value_in i) }
    ensures why { IfErr result (λ why. cause_in why ≡ byte_cause (value_in at) (value_in i)) }
{
    let Worth::Number(i) = i else {
        return Err(Reason::NoNumber(i));
    };
    let Worth::Address(offset, object) = at else {
        return Err(Reason::NoAddress(at));
    };
    let offset = word::sum(offset, word::distance_of_byte(i));
    match store.cell(object, offset) {
        Some(cell) => byte_in(cell, word::place_of_byte(i)).ok_or(Reason::Byte(i, at)),
        None => Err(Reason::Byte(i, at)),
    }
}

/// A byte that is set where the place is this one.
fn placed(i: u32, place: u32, byte: u8, before: Option<u8>) -> Option<u8>
    ensures { result ≡ (if i == place then Some byte else before) }
{
    if i == place { Some(byte) } else { before }
}

/// The cell of four bytes: a number where all are set.
fn filled(a: Option<u8>, b: Option<u8>, c: Option<u8>, d: Option<u8>) -> Cell
    ensures { cell_in result ≡ v.filled a b c d }
{
    let Some(b0) = a else {
        return Cell::Places(a, b, c, d);
    };
    let Some(b1) = b else {
        return Cell::Places(a, b, c, d);
    };
    let Some(b2) = c else {
        return Cell::Places(a, b, c, d);
    };
    let Some(b3) = d else {
        return Cell::Places(a, b, c, d);
    };
    Cell::Holds(Worth::Number(word::packed(b0, b1, b2, b3)))
}

/// The cell of four bytes, with one set.
fn set_among(a: Option<u8>, b: Option<u8>, c: Option<u8>, d: Option<u8>, i: u32, byte: u8) -> Cell
    ensures { Some (cell_in result) ≡ v.set_among a b c d i byte }
{
    filled(
        placed(i, 0, byte, a),
        placed(i, 1, byte, b),
        placed(i, 2, byte, c),
        placed(i, 3, byte, d),
    )
}

/// The cell with a byte set, at a place from 0 to 3. An address or a procedure has no bytes.
fn with_byte(cell: Cell, i: u32, byte: u8) -> Option<Cell>
    requires { i < 4 }
    ensures { option_map cell_in result ≡ v.with_byte (cell_in cell) i byte }
{
    match cell {
        Cell::Holds(Worth::Number(n)) => Some(Cell::Holds(Worth::Number(word::with_byte(
            n, i, byte,
        )))),
        Cell::Holds(Worth::Unset(_)) => Some(set_among(None, None, None, None, i, byte)),
        Cell::Holds(_) => None,
        Cell::Places(a, b, c, d) => Some(set_among(a, b, c, d, i, byte)),
    }
}

/// Puts a value into the cell at an address. An `Err` says why it is undefined.
pub fn write(store: &mut Store, at: Worth, x: Worth) -> Result<(), Reason>
    ensures memory { (if is_ok result then Some store.new else None) ≡ m.write store.old (value_in at) (value_in x) }
    ensures why { IfErr result (λ why. cause_in why ≡ cell_cause (value_in at)) }
    ensures unchanged { OnErr result (store.new ≡ store.old) }
{
    let Worth::Address(offset, object) = at else {
        return Err(Reason::NoAddress(at));
    };
    if store.set(object, offset, Cell::Holds(x)) {
        Ok(())
    } else {
        Err(Reason::Cell(at))
    }
}

/// Sets the byte with this number of the words from an address on to the lowest byte of a number. An `Err` says why it is undefined.
pub fn write_byte(store: &mut Store, at: Worth, i: Worth, x: Worth) -> Result<(), Reason>
    ensures memory { (if is_ok result then Some store.new else None) ≡ m.write_byte store.old (value_in at) (value_in i) (value_in x) }
    ensures why { IfErr result (λ why. cause_in why ≡ set_byte_cause (value_in at) (value_in i) (value_in x)) }
    ensures unchanged { OnErr result (store.new ≡ store.old) }
{
    let Worth::Number(i) = i else {
        return Err(Reason::NoNumber(i));
    };
    let Worth::Number(x) = x else {
        return Err(Reason::NoByte(x));
    };
    let Worth::Address(offset, object) = at else {
        return Err(Reason::NoAddress(at));
    };
    let offset = word::sum(offset, word::distance_of_byte(i));
    let Some(cell) = store.cell(object, offset) else {
        return Err(Reason::Byte(i, at));
    };
    let Some(cell) = with_byte(cell, word::place_of_byte(i), (x % 256) as u8) else {
        return Err(Reason::Byte(i, at));
    };
    if store.set(object, offset, cell) {
        Ok(())
    } else {
        Err(Reason::Byte(i, at))
    }
}

/// Puts a value in a place. An `Err` says why it is undefined.
pub fn put(store: &mut Store, place: Location, x: Worth) -> Result<(), Reason>
    ensures memory { (l : ℕ) (w : World) → w.memory ≡ store.old
        → changes l (cause_by result) (if is_ok result then Some store.new else None) w ≡ p.store l (place_in place) (value_in x) w }
    ensures unchanged { OnErr result (store.new ≡ store.old) }
{
    match place {
        Location::Cell(at) => write(store, at, x),
        Location::Byte(at, i) => write_byte(store, at, i, x),
    }
}
