//! What is written while one goes through a section.
ghost use Rattle.std.specs.Prelude.{◌≡◌, [], ◌∷◌, OnOk};
ghost use Rattle.bk_trans.specs.Filling.{meaning as Meaning, constant as Constant};
ghost use Rattle.bk_trans.specs.Scheme.{prefix_code, infix_code, go as Go, label_or as LabelOr};
ghost use Rattle.bk_ocode.specs.declared.stmt.Stmt.TheVariants.{Switch};
ghost use Rattle.bk_trans.specs.Writing.{puts, puts_all, puts_drafts, puts_name, puts_goto, puts_not, takes_labels, with_code, with_choices, no_choices, aimed, past_meaning, past_word};

use crate::aim::Aim;
use crate::around::{Goal, Target};
use crate::remaining::Remaining;
use crate::statements::{after, label_or, push_of, put_infix, put_prefix};
use crate::unresolved::Unresolved;
use bk_ocode::{Case, CaseList, GlobalEntry, Monadic, Stmt};
use bk_scope::Bound;
use bk_tree::{Operator, Prefix};
use std::alloc::{AllocError, Global};
use std::marker::Model;
use std::mem;

/// How many statements a section and a procedure have room for at first.
pub const FIRST_STMTS: usize = 128;

/// The drafts so far, what is by itself, what is left of the meanings and words, and the label that is next.
#[derive(Drop)]
pub struct Writing<'a> {
    pub alloc: Global,
    pub code: Vec<Unresolved>,
    /// Memory for what is written by itself next. What it has does not count.
    pub spare: Vec<Unresolved>,
    pub procedures: Vec<Unresolved>,
    pub data_words: Vec<Stmt>,
    pub entries: Vec<GlobalEntry>,
    pub targets: Vec<Target>,
    pub cases: Vec<Case>,
    pub default_label: Option<u32>,
    pub left: Remaining<'a>,
    pub next: u32,
}

impl<'a> Model for Writing<'a> {
    ghost use Rattle.bk_trans.specs.Writing as writing;

    ghost Value = { writing.Writing };

    ghost view = { λ w. record {
      code = w.code.items;
      apart = record { procedures = w.procedures.items; data_words = w.data_words.items; entries = w.entries.items; targets = w.targets.items };
      choices = record { cases = w.cases.items; default_label = w.default_label };
      left = w.left;
      next = w.next;
    } };
}

/// The CASEs of a SWITCHON, and its DEFAULT.
#[derive(Drop)]
pub struct Choices {
    cases: Vec<Case>,
    default_label: Option<u32>,
}

impl Model for Choices {
    ghost use Rattle.bk_trans.specs.Writing as writing;

    ghost Value = { writing.Choices };

    ghost view = { λ c. record { cases = c.cases.items; default_label = c.default_label } };
}

impl Choices {
    /// The statement of a SWITCHON with these choices, whose last label this is.
    pub fn statement(self, label: u32) -> Stmt
        ensures { result ≡ Switch (LabelOr label self.default_label) self.cases }
    {
        let Choices {
            cases,
            default_label,
        } = self;
        Stmt::Switch {
            default: label_or(label, default_label),
            cases: CaseList::new(cases),
        }
    }
}

impl<'a> Writing<'a> {
    /// Drafts more. Their list is kept for what is written by itself next.
    pub fn put_all(&mut self, mut code: Vec<Unresolved>) -> Result<(), AllocError>
        ensures { OnOk result (self.new ≡ puts_drafts code.items self.old) }
    {
        self.code.append(&mut code)?;
        self.spare = code;
        Ok(())
    }

    /// One draft more.
    pub fn put_draft(&mut self, draft: Unresolved) -> Result<(), AllocError>
        ensures { OnOk result (self.new ≡ puts_drafts (draft ∷ []) self.old) }
    {
        self.code.push(draft)?;
        Ok(())
    }

    /// One statement more.
    pub fn put(&mut self, stmt: Stmt) -> Result<(), AllocError>
        ensures { OnOk result (self.new ≡ puts stmt self.old) }
    {
        self.put_draft(Unresolved::Ready(stmt))
    }

    /// What a name means is pushed.
    pub fn put_name(&mut self) -> Result<(), AllocError>
        ensures { OnOk result (self.new ≡ puts_name self.old) }
    {
        let bound = self.left.meaning();
        self.put_draft(push_of(bound))
    }

    /// What a prefix does with the top item.
    pub fn put_prefix(&mut self, prefix: Prefix) -> Result<(), AllocError>
        ensures { OnOk result (self.new ≡ puts_all (prefix_code prefix) self.old) }
    {
        put_prefix(&mut self.code, prefix)
    }

    /// The NOT of a value.
    pub fn put_not(&mut self, aim: Aim) -> Result<(), AllocError>
        ensures { OnOk result (self.new ≡ puts_not aim self.old) }
    {
        match aim {
            Aim::Value => self.put(Stmt::Monadic {
                operator: Monadic::Not,
            }),
            Aim::Jump(_, _) => Ok(()),
        }
    }

    /// What an operator does with the two top items.
    pub fn put_operator(&mut self, operator: Operator) -> Result<(), AllocError>
        ensures { OnOk result (self.new ≡ puts_all (infix_code operator) self.old) }
    {
        put_infix(&mut self.code, operator)
    }

    /// The value on top serves the aim.
    pub fn serve(&mut self, aim: Aim) -> Result<(), AllocError>
        ensures { OnOk result (self.new ≡ aimed aim self.old) }
    {
        match aim {
            Aim::Value => Ok(()),
            Aim::Jump(truth, label) => self.put(Stmt::JumpIf { truth, label }),
        }
    }

    /// A jump out of a command, to a label where the depth may be another one.
    pub fn go(&mut self, goal: Goal, depth: u32) -> Result<(), AllocError>
        ensures { OnOk result (self.new ≡ puts_all (Go goal depth) self.old) }
    {
        self.put(Stmt::Stack { depth: goal.depth })?;
        self.put(Stmt::Jump { label: goal.label })?;
        self.put(Stmt::Stack { depth })
    }

    /// A GOTO to a name.
    pub fn put_goto(&mut self, depth: u32) -> Result<(), AllocError>
        ensures { OnOk result (self.new ≡ puts_goto depth self.old) }
    {
        match self.meaning() {
            Bound::Label(_, number) => {
                self.put_draft(Unresolved::Stack(number))?;
                self.put_draft(Unresolved::Jump(number))?;
                self.put(Stmt::Stack { depth })
            }
            _ => self.go(Goal::new(0, 0), depth),
        }
    }

    /// Takes so many labels; the first of them.
    pub fn labels(&mut self, count: usize) -> u32
        ensures first { result ≡ self.old.next }
        ensures taken { self.new ≡ takes_labels count self.old }
    {
        let first = self.next;
        self.next = after(first, count);
        first
    }

    /// The next meaning.
    pub fn meaning(&mut self) -> Bound
        ensures part { result ≡ (Meaning self.old.left).part }
        ensures left { self.new ≡ past_meaning self.old }
    {
        self.left.meaning()
    }

    /// The next word of a constant.
    pub fn word(&mut self) -> u32
        ensures part { result ≡ (Constant self.old.left).part }
        ensures left { self.new ≡ past_word self.old }
    {
        self.left.constant()
    }

    /// What was written is set aside; what follows is written by itself. Where nothing was written, the memory for it stays.
    pub fn aside(&mut self) -> Vec<Unresolved>
        ensures code { result.items ≡ self.old.code }
        ensures aside { self.new ≡ with_code [] self.old }
    {
        if self.code.is_empty() {
            return Vec::new(self.alloc);
        }
        let mut own = mem::replace(&mut self.spare, Vec::new(self.alloc));
        own.clear();
        mem::replace(&mut self.code, own)
    }

    /// One goes on after what was set aside; what was written by itself.
    pub fn resume(&mut self, code: Vec<Unresolved>) -> Vec<Unresolved>
        ensures code { result.items ≡ self.old.code }
        ensures resumed { self.new ≡ with_code code.items self.old }
    {
        mem::replace(&mut self.code, code)
    }

    /// The choices so far are set aside.
    pub fn leave_switch(&mut self) -> Choices
        ensures choices { result ≡ self.old.choices }
        ensures left { self.new ≡ with_choices no_choices self.old }
    {
        Choices {
            cases: mem::replace(&mut self.cases, Vec::new(self.alloc)),
            default_label: mem::replace(&mut self.default_label, None),
        }
    }

    /// One goes on with the choices that were set aside; those that were made since.
    pub fn return_to_switch(&mut self, choices: Choices) -> Choices
        ensures made { result ≡ self.old.choices }
        ensures returned { self.new ≡ with_choices choices self.old }
    {
        let Choices {
            cases,
            default_label,
        } = choices;
        Choices {
            cases: mem::replace(&mut self.cases, cases),
            default_label: mem::replace(&mut self.default_label, default_label),
        }
    }
}
