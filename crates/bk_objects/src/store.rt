//! Memory.
ghost use Rattle.std.specs.Prelude.{◌≡◌, ◌≢◌, ◌-◌, ◌<◌, ◌≤◌, ◌++◌, ◌∷◌, take, Some, None, IfSome, IfNone, IfOk, OnOk, OnErr, All, length, map, replicate, [], if◌then◌else◌};
ghost use Rattle.std.specs.Bool.{OnFalse};
ghost use Rattle.std.specs.List.{HoldsAt, AllWithin};
ghost use Rattle.std.specs.Option.{option_map};
ghost use Rattle.bk_meaning.specs.Values.{address, holds, unset};
ghost use Rattle.bk_meaning.specs.Memory as m;
ghost use Rattle.bk_objects.specs.Views.{cell_in};
ghost use Rattle.bk_objects.specs.Memories.{Grow, Within, found};

use crate::worth::{Cell, Origin, Worth};
use bk_tree::Position;
use std::alloc::{AllocError, Global};
use std::marker::Model;

/// Of how many dead objects it is kept where they were made.
const GRAVES: usize = 1024;

/// How many of the last objects are tried first where one is looked for: most are variables of the procedure that runs.
const NEAR: usize = 8;

/// An object that lives.
#[derive(Clone, Copy)]
struct Life {
    number: u64,
    /// Where its cells begin among all.
    start: u32,
    /// How many cells it has.
    len: u32,
    /// What the source makes it by.
    at: Position,
}

/// An object that is dead, and what the source made it by.
#[derive(Clone, Copy)]
struct Grave {
    number: u64,
    at: Position,
}

/// Keeps where these objects were made, in the place of others where there are many.
fn bury(graves: &mut Vec<Grave>, lives: &[Life]) {
    for life in lives {
        let grave = Grave {
            number: life.number,
            at: life.at,
        };
        if graves.len() < GRAVES {
            // Where memory is refused, less is known of the dead.
            let _kept = graves.push(grave);
        } else if let Some(other) = graves.get_mut((life.number % GRAVES as u64) as usize) {
            *other = grave;
        }
    }
}

/// The same number.
fn whole(count: u32) -> usize
    ensures { result ≡ count }
{
    count as usize
}

/// An object with so many cells, from this one on. Cells are refused from 2^32 on.
fn placed(number: u64, start: usize, len: usize, at: Position) -> Result<Life, AllocError>
    ensures { IfOk result (λ life. (life.number ≡ number) × (life.start ≡ start) × (life.len ≡ len)) }
{
    Ok(Life {
        number,
        start: u32::try_from(start).map_err(|_| AllocError)?,
        len: u32::try_from(len).map_err(|_| AllocError)?,
        at,
    })
}

/// Adds an object whose cells are the last ones. Where memory is refused, they go.
fn add_life(lives: &mut Vec<Life>, cells: &mut Vec<Cell>, life: Life) -> Result<(), AllocError>
    ensures added { OnOk result (lives.new.items ≡ lives.old.items ++ life ∷ []) }
    ensures kept { OnOk result (cells.new.items ≡ cells.old.items) }
    ensures without { OnErr result (lives.new.items ≡ lives.old.items) }
    ensures gone { OnErr result (cells.new.items ≡ take life.start cells.old.items) }
{
    let start = whole(life.start);
    if lives.push(life).is_err() {
        cells.truncate(start);
        return Err(AllocError);
    }
    Ok(())
}

/// Where an object is among the last ones that live, if it is.
fn near(lives: &[Life], object: u64) -> Option<usize>
    ensures { IfSome result (λ i. (i < length lives.now) × HoldsAt (λ l. l.number ≡ object) lives.now i) }
{
    let mut i = lives.len();
    let end = i.saturating_sub(NEAR);
    'trying: while i > end {
        i -= 1;
        if lives[i].number == object {
            return Some(i);
        }
    }
    None
}

/// Where an object is among those that live.
fn place(lives: &[Life], object: u64) -> Option<usize>
    requires { Grow lives.now }
    ensures some { IfSome result (λ i. (i < length lives.now) × HoldsAt (λ l. l.number ≡ object) lives.now i) }
    ensures none { IfNone result (All (λ l. l.number ≢ object) lives.now) }
{
    // An object that lasts is at its number.
    if let Some(life) = lives.get(object as usize)
        && life.number == object
    {
        return Some(object as usize);
    }
    if let Some(i) = near(lives, object) {
        return Some(i);
    }
    lives.binary_search_by_key(&object, |life| life.number).ok()
}

/// The cells of an object that lives.
fn cells_of<'a>(lives: &[Life], cells: &'a [Cell], object: u64) -> Option<&'a [Cell]>
    requires { Within lives.now cells.now }
    ensures { option_map (λ part. map cell_in part.now) result ≡ m.cells_of (Some (found cells.now lives.now object)) }
{
    let life = lives[place(lives, object)?];
    let (_, following) = cells.split_at(whole(life.start));
    let (own, _) = following.split_at(whole(life.len));
    Some(own)
}

/// How many objects are left where those from a number on die.
fn left(lives: &[Life], from: u64) -> usize
    ensures within { result ≤ length lives.now }
    ensures dead { AllWithin (λ l. from ≤ l.number) lives.now result (length lives.now) }
    ensures living { 0 < result → HoldsAt (λ l. l.number < from) lives.now (result - 1) }
{
    let mut count = lives.len();
    while count > 0 && lives[count - 1].number >= from {
        count -= 1;
    }
    count
}

/// Memory: objects by their numbers, each living with its cells or dead. Only objects that live take memory.
#[derive(Drop)]
pub struct Store {
    /// The objects that live, by their numbers, which grow.
    lives: Vec<Life>,
    /// The cells of the objects that live, one object after another.
    cells: Vec<Cell>,
    /// How many objects were made.
    made: u64,
    /// Some of the objects that are dead.
    graves: Vec<Grave>,
}

impl Model for Store {
    ghost use Rattle.std.specs.Prelude.{length};
    ghost use Rattle.bk_meaning.specs.Memory.{Memory};
    ghost use Rattle.bk_objects.specs.Memories.{memory_of, Laid};

    ghost Value = { Memory };

    ghost view = { λ s. memory_of s.cells.items s.lives.items s.made };

    ghost invariant = { λ s. Laid 0 0 s.lives.items s.made (length s.cells.items) };
}

impl Store {
    /// Memory in which no object was made.
    pub fn new(alloc: Global) -> Store
        ensures { result ≡ [] }
    {
        Store {
            lives: Vec::new(alloc),
            cells: Vec::new(alloc),
            made: 0,
            graves: Vec::new(alloc),
        }
    }

    /// How many objects were made: the number of the next one.
    pub fn made(&self) -> u64
        ensures { result ≡ length self.now }
    {
        self.made
    }

    /// The cell at a distance from the first cell of an object, if the object lives and has it.
    pub fn cell(&self, object: u64, offset: u32) -> Option<Cell>
        ensures { option_map cell_in result ≡ m.cell_at self.now (address object offset) }
    {
        cells_of(&self.lives, &self.cells, object)?
            .get(offset as usize)
            .copied()
    }

    /// How many cells an object has, if it lives.
    pub fn size(&self, object: u64) -> Option<usize>
        ensures { result ≡ option_map length (m.cells_at self.now object) }
    {
        Some(cells_of(&self.lives, &self.cells, object)?.len())
    }

    /// Makes an object of these cells, for this part of the source. Memory may be refused, and so is an object after the number
    /// 2^64 - 2, and a cell after the first 2^32.
    pub fn make(&mut self, cells: &[Cell], at: Position) -> Result<(), AllocError>
        ensures made { OnOk result (self.new ≡ m.made (map cell_in cells.now) self.old) }
        ensures unchanged { OnErr result (self.new ≡ self.old) }
    {
        let next = self.made.checked_add(1).ok_or(AllocError)?;
        let start = self.cells.len();
        let life = placed(self.made, start, cells.len(), at)?;
        self.cells.extend_from_slice(cells)?;
        add_life(&mut self.lives, &mut self.cells, life)?;
        self.made = next;
        Ok(())
    }

    /// Makes an object of so many cells that hold nothing set. What `make` refuses is refused.
    pub fn make_unset(&mut self, count: usize, at: Position) -> Result<(), AllocError>
        ensures made { OnOk result (self.new ≡ m.made (replicate count (holds unset)) self.old) }
        ensures unchanged { OnErr result (self.new ≡ self.old) }
    {
        let next = self.made.checked_add(1).ok_or(AllocError)?;
        let start = self.cells.len();
        let end = start.checked_add(count).ok_or(AllocError)?;
        let life = placed(self.made, start, count, at)?;
        self.cells
            .resize(end, Cell::Holds(Worth::Unset(Origin::Never)))?;
        add_life(&mut self.lives, &mut self.cells, life)?;
        self.made = next;
        Ok(())
    }

    /// What the source made an object by, if the object lives or this is kept of it.
    pub fn made_at(&self, object: u64) -> Option<Position> {
        for life in &self.lives {
            if life.number == object {
                return Some(life.at);
            }
        }
        for grave in &self.graves {
            if grave.number == object {
                return Some(grave.at);
            }
        }
        None
    }

    /// How many cells the objects have that live.
    pub fn cells_in_use(&self) -> usize
        ensures { result ≡ m.cells_living self.now }
    {
        self.cells.len()
    }

    /// Ends the life of each object from this number on.
    pub fn forget(&mut self, from: u64)
        ensures { self.new ≡ m.dead_from from self.old }
    {
        let count = left(&self.lives, from);
        if count < self.lives.len() {
            let start = whole(self.lives[count].start);
            let (_, dying) = self.lives.split_at(count);
            bury(&mut self.graves, dying);
            self.cells.truncate(start);
            self.lives.truncate(count);
        }
    }

    /// Puts a cell in the place of one of an object that lives. False says that there is none, and nothing changes.
    pub fn set(&mut self, object: u64, offset: u32, cell: Cell) -> bool
        ensures cell { (if result then Some self.new else None) ≡ m.with_cell self.old (address object offset) (cell_in cell) }
        ensures unchanged { OnFalse result (self.new ≡ self.old) }
    {
        let Some(place) = place(&self.lives, object) else {
            return false;
        };
        let life = self.lives[place];
        if offset >= life.len {
            return false;
        }
        let start = whole(life.start);
        self.cells[start + offset as usize] = cell;
        true
    }
}
