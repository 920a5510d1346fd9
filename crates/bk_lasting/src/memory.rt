//! The memory when the run of a program begins.
ghost use Rattle.std.specs.Prelude.{◌≡◌, ◌++◌, ◌∷◌, [], length, map, IfOk, OnOk};
ghost use Rattle.bk_meaning.specs.Values.{holds, number, procedure, routine};
ghost use Rattle.bk_meaning.specs.Memory.{made};
ghost use Rattle.bk_meaning.specs.Lasting.{library_cells, set_global, procedures_set, global_cells, entry_cells, object_of, first_memory};
ghost use Rattle.bk_objects.specs.Views.{cell_in, routine_in};
ghost use Rattle.bk_lasting.specs.Views.{lasting_in};

use crate::program::Lasting;
use bk_base::limit::GLOBAL_NUMBER;
use bk_objects::{Cell, Origin, Routine, Store, Worth};
use bk_tree::Position;
use std::alloc::{AllocError, Global};

/// How many cells the global vector has.
const GLOBALS: usize = GLOBAL_NUMBER as usize + 1;

/// A cell in which nothing was set.
const UNSET: Cell = Cell::Holds(Worth::Unset(Origin::Never));

/// The cell of a routine of the library.
fn routine_cell(which: Routine) -> Cell
    ensures { cell_in result ≡ holds (routine (routine_in which)) }
{
    Cell::Holds(Worth::Routine(which))
}

/// The cell of the procedure with this number.
fn procedure_cell(number: u64) -> Cell
    ensures { cell_in result ≡ holds (procedure number) }
{
    Cell::Holds(Worth::Procedure(number))
}

/// The globals of the library, which are the first of all: the routines, after two that are unset.
fn library_cells(alloc: Global) -> Result<Vec<Cell>, AllocError>
    ensures { IfOk result (λ cells. map cell_in cells.items ≡ library_cells) }
{
    Ok(vec![in alloc;
        UNSET,
        UNSET,
        routine_cell(Routine::Stop),
        routine_cell(Routine::Rdch),
        routine_cell(Routine::Wrch),
        routine_cell(Routine::Newline),
        routine_cell(Routine::Writes),
        routine_cell(Routine::Writen),
        routine_cell(Routine::Writed),
        routine_cell(Routine::Getbyte),
        routine_cell(Routine::Putbyte),
        routine_cell(Routine::Writef),
    ]?)
}

/// Sets this global, if there is one, to the procedure with this number. A global after the last changes nothing.
fn set_global(cells: &mut [Cell], global: Option<u32>, number: u64)
    ensures { map cell_in cells.new ≡ set_global global number (map cell_in cells.old) }
{
    if let Some(global) = global
        && (global as usize) < cells.len()
    {
        cells[global as usize] = procedure_cell(number);
    }
}

/// Sets the global of the object with this number, if the object is a procedure that sets one.
fn set_procedure(cells: &mut [Cell], lasting: &Lasting, number: u64)
    ensures { map cell_in cells.new ≡ procedures_set number (lasting_in lasting.now ∷ []) (map cell_in cells.old) }
{
    match lasting {
        Lasting::Code(procedure) => set_global(cells, procedure.global, number),
        Lasting::Globals | Lasting::Words(_) => {}
    }
}

/// Sets the global of each procedure of the program that sets one, in order.
#[tactic(auto, using(crate::proofs::Begun::procedures_next))]
fn set_procedures(cells: &mut [Cell], program: &[Lasting])
    ensures { map cell_in cells.new ≡ procedures_set 0 (map lasting_in program.now) (map cell_in cells.old) }
{
    for (number, lasting) in program.iter().enumerate() {
        set_procedure(cells, lasting, number as u64);
    }
}

/// The globals when the run begins: those of the library and of the procedures; the others are unset.
fn global_cells(alloc: Global, program: &[Lasting]) -> Result<Vec<Cell>, AllocError>
    ensures { IfOk result (λ cells. map cell_in cells.items ≡ global_cells (map lasting_in program.now)) }
{
    let mut cells = library_cells(alloc)?;
    cells.resize(GLOBALS, UNSET)?;
    set_procedures(&mut cells, program);
    Ok(cells)
}

/// The cells of these words.
#[tactic(auto, using(crate::proofs::Begun::words_next))]
fn word_cells(alloc: Global, words: &[u32]) -> Result<Vec<Cell>, AllocError>
    ensures { IfOk result (λ cells. map cell_in cells.items ≡ map (λ w. holds (number w)) words.now) }
{
    let mut cells = Vec::with_capacity(alloc, words.len())?;
    for word in words {
        cells.push(Cell::Holds(Worth::Number(*word)))?;
    }
    Ok(cells)
}

/// Makes the object of a procedure: with a cell that holds its number, or without cells where it sets a global.
fn make_entry(store: &mut Store, global: Option<u32>) -> Result<(), AllocError>
    ensures { OnOk result (store.new ≡ made (entry_cells global (length store.old)) store.old) }
{
    match global {
        None => {
            let cell = procedure_cell(store.made());
            store.make(&[cell], Position::first())
        }
        Some(_) => store.make(&[], Position::first()),
    }
}

/// Makes the next object, which is this one of the program.
fn make_object(
    store: &mut Store,
    alloc: Global,
    program: &[Lasting],
    lasting: &Lasting,
) -> Result<(), AllocError>
    ensures { OnOk result (store.new ≡ store.old ++ object_of (map lasting_in program.now) (length store.old) (lasting_in lasting.now) ∷ []) }
{
    match lasting {
        Lasting::Globals => store.make(&global_cells(alloc, program)?, Position::first()),
        Lasting::Words(words) => store.make(&word_cells(alloc, words)?, Position::first()),
        Lasting::Code(procedure) => make_entry(store, procedure.global),
    }
}

/// The memory when the run of a program begins: its objects that last, in order.
#[tactic(auto, using(crate::proofs::Begun::objects_next))]
pub fn first_memory(alloc: Global, program: &[Lasting]) -> Result<Store, AllocError>
    ensures { IfOk result (λ store. store ≡ first_memory (map lasting_in program.now)) }
{
    let mut store = Store::new(alloc);
    for lasting in program {
        make_object(&mut store, alloc, program, lasting)?;
    }
    Ok(store)
}
