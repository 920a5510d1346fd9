//! What is at the head of a command or a definition.
ghost use Rattle.std.specs.Prelude.{◌≡◌, ◌+◌, ◌-◌, ◌≤◌, OnOk, IfOk, cond, drop, length, map};
ghost use Rattle.bk_tree.specs.Tree.{expression, mention, step_in};
ghost use Rattle.bk_scope.specs.FirstFault.{first_fault};
ghost use Rattle.bk_scope.specs.Scope.{bound_in};
ghost use Rattle.bk_scope.specs.Found.{Found, breaks, takes, reaches, following};
ghost use Rattle.bk_scope.specs.Entering.{with_formals};
ghost use Rattle.bk_scope.specs.Names.{switched, chosen, defaulted, single as Single, listed, all_listed, sets, named_as, headed, frame_wrong, bounded, words_of_start, constant_found, constants_found};
ghost use Rattle.bk_scope.specs.Wrong.{vec_out_of_range, no_result_or_return};
ghost use Rattle.bk_scope.specs.Constants.{constant_word};
ghost use Rattle.bk_tree.specs.Parts.{at_expression};
ghost use Rattle.bk_base.specs.declared.limit.TheConstants.{VEC_NUMBER as VecNumber};

use crate::bound::Bound;
use crate::claims::Claim;
use crate::entering::{enter_formals, list_names};
use crate::findings::{Findings, OuterFindings};
use crate::place::{Enclosing, kept_depth};
use crate::table::Table;
use crate::walk::Walk;
use bk_base::SourceKind;
use bk_base::limit::VEC_NUMBER;
use bk_tree::{Expr, Name, Position, Simple};
use std::alloc::AllocError;

/// A label, in the list of this number, and what it means.
#[inline]
pub fn label<'a>(
    findings: &mut Findings<'a>,
    table: &Table<'a>,
    list: u32,
    at: Position,
    letters: &'a [u8],
) -> Result<(), AllocError>
    ensures { OnOk result (findings.new ≡ named_as (bound_in table.now letters.now) (listed list at letters.now findings.old)) }
{
    findings.lists(list, at, letters)?;
    findings.names(table.find(letters))
}

/// A CASE or a DEFAULT is wrong where it is in no SWITCHON.
#[inline]
pub fn in_switch(findings: &mut Findings, switch: Option<u32>, at: Position)
    ensures { findings.new ≡ switched switch at findings.old }
{
    if switch.is_none() {
        findings.breaks(at, SourceKind::NoSwitchon);
    }
}

/// What is before the command of a CASE.
#[inline]
pub fn case<'a>(
    walk: &mut Walk<'a>,
    place: Enclosing,
    at: Position,
    expr: &'a Expr,
) -> Result<(), AllocError>
    ensures { OnOk result (walk.new ≡ record {
      scope = walk.old.scope;
      found = chosen place.switch at (constant_word walk.old.scope (expression expr.now))
          (constant_found walk.old.scope place.procedure (expression expr.now) (switched place.switch at walk.old.found));
    }) }
{
    in_switch(&mut walk.findings, place.switch, at);
    let word = walk.findings.constant(&walk.table, place.procedure, expr)?;
    choose(&mut walk.findings, place.switch, at, word)
}

/// What is before the command of a DEFAULT.
#[inline]
pub fn default<'a>(
    findings: &mut Findings<'a>,
    switch: Option<u32>,
    at: Position,
) -> Result<(), AllocError>
    ensures { OnOk result (findings.new ≡ defaulted switch at (switched switch at findings.old)) }
{
    in_switch(findings, switch, at);
    choose_default(findings, switch, at)
}

/// The step of a FOR, if it has one; the words of its frame are reached.
#[inline]
pub fn step<'a>(
    walk: &mut Walk<'a>,
    place: Enclosing,
    by: &'a Option<Box<Expr>>,
) -> Result<(), AllocError>
    ensures { OnOk result (walk.new ≡ record {
      scope = walk.old.scope;
      found = reaches (place.depth + 4) (constants_found walk.old.scope place.procedure (step_in by.now) walk.old.found);
    }) }
{
    if let Some(step) = by {
        walk.findings.constant(&walk.table, place.procedure, step)?;
    }
    walk.findings.reaches(place.depth, 4);
    Ok(())
}

/// A RESULTIS is wrong where it is in no VALOF.
#[inline]
pub fn in_valof(findings: &mut Findings, place: Enclosing, at: Position)
    ensures { findings.new ≡ cond place.in_valof findings.old (breaks at no_result_or_return findings.old) }
{
    if !place.in_valof {
        findings.breaks(at, SourceKind::NoResultOrReturn);
    }
}

/// A CASE of this word, if its constant has one.
#[inline]
pub fn choose<'a>(
    findings: &mut Findings<'a>,
    switch: Option<u32>,
    at: Position,
    word: Option<u32>,
) -> Result<(), AllocError>
    ensures { OnOk result (findings.new ≡ chosen switch at word findings.old) }
{
    if let (Some(switch), Some(word)) = (switch, word) {
        findings.chooses(Claim::Choosing(switch, word), at, SourceKind::CaseRepeated)?;
    }
    Ok(())
}

/// A DEFAULT.
#[inline]
pub fn choose_default<'a>(
    findings: &mut Findings<'a>,
    switch: Option<u32>,
    at: Position,
) -> Result<(), AllocError>
    ensures { OnOk result (findings.new ≡ defaulted switch at findings.old) }
{
    if let Some(switch) = switch {
        findings.chooses(Claim::Defaulting(switch), at, SourceKind::DefaultRepeated)?;
    }
    Ok(())
}

/// A command of one word.
pub fn single(findings: &mut Findings, place: Enclosing, at: Position, word: Simple)
    ensures { findings.new ≡ Single place at word findings.old }
{
    match word {
        Simple::Break | Simple::Loop => {
            if !place.in_loop {
                findings.breaks(at, SourceKind::NoLoop);
            }
        }
        Simple::EndCase => {
            if !place.in_switch {
                findings.breaks(at, SourceKind::NoSwitchon);
            }
        }
        Simple::Return => {
            if !place.in_routine {
                findings.breaks(at, SourceKind::NoResultOrReturn);
            }
        }
        Simple::Finish => {}
    }
}

/// The constant of a VEC, and how many words it makes.
pub fn vector<'a>(walk: &mut Walk<'a>, procedure: u32, expr: &'a Expr) -> Result<usize, AllocError>
    ensures words { IfOk result (λ words. words ≡ words_of_start walk.old.scope (expression expr.now)) }
    ensures walk { OnOk result (walk.new ≡ record {
      scope = walk.old.scope;
      found = bounded VecNumber (at_expression (expression expr.now)) vec_out_of_range
          (constant_word walk.old.scope (expression expr.now))
          (constant_found walk.old.scope procedure (expression expr.now) walk.old.found);
    }) }
{
    let word = walk.findings.constant(&walk.table, procedure, expr)?;
    match word {
        None => Ok(1),
        Some(word) => {
            if word > VEC_NUMBER {
                walk.findings.breaks(expr.at(), SourceKind::VecOutOfRange);
                Ok(1)
            } else {
                Ok(word as usize + 1)
            }
        }
    }
}

/// The global that a procedure's name sets, and its formals, which are the list of this number.
#[inline]
fn formals_of<'a>(
    findings: &mut Findings<'a>,
    list: u32,
    at: Position,
    name: &'a [u8],
    bound: Option<Bound>,
    formals: &'a [Name],
) -> Result<(), AllocError>
    ensures { OnOk result (findings.new ≡ all_listed list (map mention formals.now) (sets at name.now bound findings.old)) }
{
    findings.sets(at, name, bound)?;
    list_names(findings, list, formals)
}

/// A procedure's name and its formals, which are the list of this number: its frame begins.
#[inline]
pub fn head<'a>(
    walk: &mut Walk<'a>,
    list: u32,
    at: Position,
    name: &'a [u8],
    formals: &'a [Name],
) -> Result<OuterFindings, AllocError>
    ensures walk { OnOk result (walk.new ≡ record {
      scope = walk.old.scope;
      found = headed list at name.now (map mention formals.now) (bound_in walk.old.scope name.now) walk.old.found;
    }) }
    ensures first { IfOk result (λ opened. first_fault opened.first ≡ walk.old.found.first) }
    ensures deepest { IfOk result (λ opened. opened.deepest ≡ walk.old.found.deepest) }
{
    let bound = walk.table.find(name);
    walk.findings.names(bound)?;
    let opened = walk.findings.opens(kept_depth(formals.len() + 2));
    formals_of(&mut walk.findings, list, at, name, bound, formals)?;
    Ok(opened)
}

/// A procedure that is gone through.
#[derive(Drop)]
pub struct Procedure {
    /// Its number.
    pub number: u32,
    /// How many bindings are in scope around it.
    mark: usize,
    /// What was found before it.
    opened: OuterFindings,
}

/// A procedure of the list of this number begins: its name is listed there, and its formals come into scope.
#[inline]
pub fn begin<'a>(
    walk: &mut Walk<'a>,
    list: u32,
    at: Position,
    name: &'a [u8],
    formals: &'a [Name],
) -> Result<Procedure, AllocError>
    ensures walk { let f : Found = listed list at name.now walk.old.found in OnOk result (walk.new
        ≡ record {
          scope = with_formals f.next 2 (map mention formals.now) walk.old.scope;
          found = headed f.next at name.now (map mention formals.now) (bound_in walk.old.scope name.now) (takes f);
        }) }
    ensures number { IfOk result (λ procedure. procedure.number ≡ (listed list at name.now walk.old.found).next) }
    ensures mark { IfOk result (λ procedure. procedure.mark ≡ length walk.old.scope) }
    ensures first { IfOk result (λ procedure. first_fault procedure.opened.first ≡ (listed list at name.now walk.old.found).first) }
    ensures deepest { IfOk result (λ procedure. procedure.opened.deepest ≡ (listed list at name.now walk.old.found).deepest) }
{
    let mark = walk.table.mark();
    walk.findings.lists(list, at, name)?;
    let number = walk.findings.takes();
    let opened = head(walk, number, at, name, formals)?;
    enter_formals(walk, number, formals)?;
    Ok(Procedure {
        number,
        mark,
        opened,
    })
}

/// The procedure whose name is at this position ends: its formals are no longer in scope.
#[inline]
pub fn end(walk: &mut Walk, procedure: Procedure, at: Position)
    requires { procedure.mark ≤ length walk.old.scope }
    ensures { walk.new ≡ record {
      scope = drop (length walk.old.scope - procedure.mark) walk.old.scope;
      found = following (first_fault procedure.opened.first) procedure.opened.deepest (frame_wrong at walk.old.found) walk.old.found;
    } }
{
    walk.table.leave(procedure.mark);
    walk.findings.closes(procedure.opened, at);
}
