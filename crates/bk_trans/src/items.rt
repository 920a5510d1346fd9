//! Static words: the items of STATIC, and tables.
ghost use Rattle.std.specs.Prelude.{◌≡◌, ◌++◌, map, OnOk};
ghost use Rattle.bk_base.specs.Word.{signed};
ghost use Rattle.bk_tree.specs.Tree.{expressions_in, items_in, step_in};
ghost use Rattle.bk_ocode.specs.declared.stmt.Stmt.TheVariants.{DataNumber};
ghost use Rattle.bk_trans.specs.Filling.{constants_of, step_of as StepOf};
ghost use Rattle.bk_trans.specs.Writing.{puts_table, puts_items, puts_item, past_items, past_step};

use crate::remaining::Remaining;
use crate::writer::Writing;
use bk_ocode::{Stmt, Variable};
use bk_tree::{ConstItem, Expr};
use std::alloc::AllocError;

/// The words of constants, as data.
fn put_words(
    data_words: &mut Vec<Stmt>,
    left: &mut Remaining<'_>,
    exprs: &[Expr],
) -> Result<(), AllocError>
    ensures words { OnOk result (data_words.new.items ≡ data_words.old.items
        ++ map (λ x. DataNumber (signed x)) (constants_of (expressions_in exprs.now) left.old).part) }
    ensures left { OnOk result (left.new ≡ (constants_of (expressions_in exprs.now) left.old).left) }
{
    for _expr in exprs {
        let word = left.constant();
        data_words.push(Stmt::DataNumber {
            value: word.cast_signed(),
        })?;
    }
    Ok(())
}

impl<'a> Writing<'a> {
    /// A table.
    pub fn put_table(&mut self, exprs: &[Expr]) -> Result<(), AllocError>
        ensures { OnOk result (self.new ≡ puts_table (expressions_in exprs.now) self.old) }
    {
        let label = self.labels(1);
        self.data_words.push(Stmt::DataLabel { label })?;
        put_words(&mut self.data_words, &mut self.left, exprs)?;
        self.put(Stmt::Address {
            of: Variable::Static(label),
        })
    }

    /// An item of STATIC.
    fn put_item(&mut self) -> Result<(), AllocError>
        ensures { OnOk result (self.new ≡ puts_item self.old) }
    {
        let word = self.word();
        let bound = self.meaning();
        let label = self.labels(1);
        self.data_words.push(Stmt::DataLabel { label })?;
        self.data_words.push(Stmt::DataNumber {
            value: word.cast_signed(),
        })?;
        self.target_word(label, bound)
    }

    /// The items of STATIC.
    pub fn put_items(&mut self, items: &[ConstItem]) -> Result<(), AllocError>
        ensures { OnOk result (self.new ≡ puts_items (items_in items.now) self.old) }
    {
        for _item in items {
            self.put_item()?;
        }
        Ok(())
    }

    /// The items of MANIFEST and GLOBAL, which leave nothing.
    pub fn pass_items(&mut self, items: &[ConstItem])
        ensures { self.new ≡ past_items (items_in items.now) self.old }
    {
        for _item in items {
            let _word = self.word();
        }
    }

    /// The step of a FOR, which is 1 where none is written.
    pub fn step(&mut self, step: &Option<Box<Expr>>) -> u32
        ensures part { result ≡ (StepOf (step_in step.now) self.old.left).part }
        ensures left { self.new ≡ past_step (step_in step.now) self.old }
    {
        match step {
            None => 1,
            Some(_) => self.word(),
        }
    }
}
