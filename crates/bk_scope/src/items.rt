//! The items of MANIFEST, STATIC and GLOBAL, and other places where constants are asked for.
ghost use Rattle.std.specs.Prelude.{◌≡◌, List, OnOk, IfOk};
ghost use Rattle.bk_tree.specs.Tree.{expression, expressions_in, items_in};
ghost use Rattle.bk_tree.specs.Parts.{at_expression};
ghost use Rattle.bk_scope.specs.Scope.{Binding, bind_all};
ghost use Rattle.bk_scope.specs.Found.{Found, takes, means};
ghost use Rattle.bk_scope.specs.Constants.{constant_word};
ghost use Rattle.bk_scope.specs.declared.bound.Bound.TheVariants.{Static, Global};
ghost use Rattle.bk_scope.specs.Names.{bounded, within, listed, constant_found, constants_found, manifests as through_manifests, statics as through_statics, globals as through_globals};
ghost use Rattle.bk_scope.specs.Wrong.{global_out_of_range};
ghost use Rattle.bk_base.specs.declared.limit.TheConstants.{GLOBAL_NUMBER};

use crate::bound::Bound;
use crate::findings::Findings;
use crate::fresh::Fresh;
use crate::table::Table;
use crate::walk::Walk;
use bk_base::SourceKind;
use bk_base::limit::GLOBAL_NUMBER;
use bk_tree::{ConstItem, Expr, Position};
use std::alloc::AllocError;

/// Expressions where constants are asked for.
pub fn constants<'a>(
    walk: &mut Walk<'a>,
    procedure: u32,
    exprs: &'a [Expr],
) -> Result<(), AllocError>
    ensures { OnOk result (walk.new ≡ record {
      scope = walk.old.scope;
      found = constants_found walk.old.scope procedure (expressions_in exprs.now) walk.old.found;
    }) }
{
    for expr in exprs {
        let _word = walk.findings.constant(&walk.table, procedure, expr)?;
    }
    Ok(())
}

/// The items of a MANIFEST, which are the list of this number.
pub fn manifests<'a>(
    walk: &mut Walk<'a>,
    list: u32,
    procedure: u32,
    items: &'a [ConstItem],
) -> Result<(), AllocError>
    ensures { OnOk result (walk.new ≡ through_manifests list procedure (items_in items.now) walk.old) }
{
    for ConstItem::Item {
        at,
        letters: name,
        expr,
    } in items {
        walk.findings.lists(list, *at, name)?;
        let word = walk.findings.constant(&walk.table, procedure, expr)?;
        walk.table.bind(name, Bound::Constant(word))?;
    }
    Ok(())
}

/// The items of a STATIC, which are the list of this number. They come into scope together, after the last.
pub fn statics<'a>(
    walk: &mut Walk<'a>,
    list: u32,
    procedure: u32,
    items: &'a [ConstItem],
) -> Result<(), AllocError>
    ensures { OnOk result (walk.new ≡ through_statics walk.old.scope list procedure (items_in items.now) walk.old) }
{
    let fresh = fresh_statics(&mut walk.findings, &walk.table, list, procedure, items)?;
    fresh.enter(&mut walk.table)
}

/// The items of a GLOBAL, which are the list of this number. They come into scope together, after the last.
pub fn globals<'a>(
    walk: &mut Walk<'a>,
    list: u32,
    procedure: u32,
    items: &'a [ConstItem],
) -> Result<(), AllocError>
    ensures { OnOk result (walk.new ≡ through_globals walk.old.scope list procedure (items_in items.now) walk.old) }
{
    let fresh = fresh_globals(&mut walk.findings, &walk.table, list, procedure, items)?;
    fresh.enter(&mut walk.table)
}

/// Goes through the items of STATIC while none is in scope; what they will mean.
fn fresh_statics<'a>(
    findings: &mut Findings<'a>,
    table: &Table<'a>,
    list: u32,
    procedure: u32,
    items: &'a [ConstItem],
) -> Result<Fresh<'a>, AllocError>
    ensures { IfOk result (λ fresh. (scope : List Binding) →
        through_statics table.now list procedure (items_in items.now) (record { scope = scope; found = findings.old })
        ≡ record { scope = bind_all fresh scope; found = findings.new }) }
{
    let mut fresh = Fresh::with_capacity(findings.alloc(), items.len())?;
    for ConstItem::Item {
        at,
        letters: name,
        expr,
    } in items {
        let bound = static_of(findings, table, list, procedure, *at, name, expr)?;
        fresh.add(name, bound)?;
    }
    Ok(fresh)
}

/// What the name of an item of STATIC will mean.
#[inline]
fn static_of<'a>(
    findings: &mut Findings<'a>,
    table: &Table<'a>,
    list: u32,
    procedure: u32,
    at: Position,
    name: &'a [u8],
    expr: &'a Expr,
) -> Result<Bound, AllocError>
    ensures bound { let g : Found = constant_found table.now procedure (expression expr.now)
        (listed list at name.now findings.old) in IfOk result (λ bound. bound ≡ Static g.next) }
    ensures found { let g : Found = constant_found table.now procedure (expression expr.now)
        (listed list at name.now findings.old) in OnOk result (findings.new ≡ takes (means (Static g.next) g)) }
{
    findings.lists(list, at, name)?;
    let _word = findings.constant(table, procedure, expr)?;
    let bound = Bound::Static(findings.takes());
    findings.means(bound)?;
    Ok(bound)
}

/// Goes through the items of GLOBAL while none is in scope; what they will mean.
fn fresh_globals<'a>(
    findings: &mut Findings<'a>,
    table: &Table<'a>,
    list: u32,
    procedure: u32,
    items: &'a [ConstItem],
) -> Result<Fresh<'a>, AllocError>
    ensures { IfOk result (λ fresh. (scope : List Binding) →
        through_globals table.now list procedure (items_in items.now) (record { scope = scope; found = findings.old })
        ≡ record { scope = bind_all fresh scope; found = findings.new }) }
{
    let mut fresh = Fresh::with_capacity(findings.alloc(), items.len())?;
    for ConstItem::Item {
        at,
        letters: name,
        expr,
    } in items {
        let bound = named_global(findings, table, list, procedure, *at, name, expr)?;
        fresh.add(name, bound)?;
    }
    Ok(fresh)
}

/// What the name of an item of GLOBAL will mean.
#[inline]
fn named_global<'a>(
    findings: &mut Findings<'a>,
    table: &Table<'a>,
    list: u32,
    procedure: u32,
    at: Position,
    name: &'a [u8],
    expr: &'a Expr,
) -> Result<Bound, AllocError>
    ensures bound { IfOk result (λ bound. bound ≡ Global (within GLOBAL_NUMBER (constant_word table.now (expression expr.now)))) }
    ensures found { OnOk result (findings.new ≡ bounded GLOBAL_NUMBER (at_expression (expression expr.now)) global_out_of_range
        (constant_word table.now (expression expr.now)) (constant_found table.now procedure (expression expr.now)
        (listed list at name.now findings.old))) }
{
    findings.lists(list, at, name)?;
    let word = findings.constant(table, procedure, expr)?;
    Ok(Bound::Global(global_of(findings, expr.at(), word)))
}

/// The number of a global whose constant has this word, if it has one; that it is too large is reported at this position.
fn global_of(findings: &mut Findings, at: Position, word: Option<u32>) -> Option<u32>
    ensures number { result ≡ within GLOBAL_NUMBER word }
    ensures found { findings.new ≡ bounded GLOBAL_NUMBER at global_out_of_range word findings.old }
{
    let number = word?;
    if number > GLOBAL_NUMBER {
        findings.breaks(at, SourceKind::GlobalOutOfRange);
        return None;
    }
    Some(number)
}
