//! What begins and ends in the code: labels, cases, switches and procedures.
ghost use Rattle.std.specs.Prelude.{◌≡◌, [], ◌∷◌, OnOk, IfOk};
ghost use Rattle.bk_trans.specs.Parts.{target_of_word, target_of_label};
ghost use Rattle.bk_trans.specs.Writing.{puts_label, puts_case, puts_default, puts_switch, puts_all, begins_procedure, ends_procedure, outside_of, inside, adds_data, adds_entries, adds_targets, puts_entry, ends_for, begins_other, ends_choice, simple_code, before_body, steps_on, goes_on, after as After};
ghost use Rattle.bk_ocode.specs.declared.stmt.Stmt.TheVariants.{DataLabel, DataAddress};
ghost use Rattle.bk_trans.specs.Labels.{labels_of_procedure};

use crate::around::{Around, Target};
use crate::short::first_bytes;
use crate::statements::{after, test_of_step};
use crate::unresolved::Unresolved;
use crate::writer::{Choices, FIRST_STMTS, Writing};
use bk_ocode::{Case, Dyadic, GlobalEntry, Stmt, Variable};
use bk_scope::Bound;
use bk_tree::Simple;
use std::alloc::AllocError;
use std::marker::Model;
use std::mem;

/// What is written around a procedure.
#[derive(Drop)]
pub struct Outside {
    code: Vec<Unresolved>,
    procedures: Vec<Unresolved>,
    choices: Choices,
}

impl Model for Outside {
    ghost use Rattle.bk_trans.specs.Writing as writing;

    ghost Value = { writing.Outside };

    ghost view = { λ o. record { code = o.code.items; procedures = o.procedures.items; choices = o.choices } };
}

/// How many labels a procedure takes.
fn procedure_labels(bound: Bound) -> usize
    ensures { result ≡ labels_of_procedure bound }
{
    match bound {
        Bound::Static(_) => 2,
        _ => 1,
    }
}

impl<'a> Writing<'a> {
    /// A static word, where its name is one.
    pub fn target_word(&mut self, label: u32, bound: Bound) -> Result<(), AllocError>
        ensures { OnOk result (self.new ≡ adds_targets (target_of_word label bound) self.old) }
    {
        if let Bound::Static(number) = bound {
            self.targets.push(Target {
                number,
                label,
                depth: 0,
            })?;
        }
        Ok(())
    }

    /// A label, to which a GOTO may go.
    fn target_label(&mut self, label: u32, depth: u32, bound: Bound) -> Result<(), AllocError>
        ensures { OnOk result (self.new ≡ adds_targets (target_of_label label depth bound) self.old) }
    {
        if let Bound::Label(_, number) = bound {
            self.targets.push(Target {
                number,
                label,
                depth,
            })?;
        }
        Ok(())
    }

    /// A label before its command.
    pub fn put_label(&mut self, depth: u32) -> Result<(), AllocError>
        ensures { OnOk result (self.new ≡ puts_label depth self.old) }
    {
        let bound = self.meaning();
        let label = self.labels(1);
        self.target_label(label, depth, bound)?;
        self.put(Stmt::Label { label })
    }

    /// A CASE before its command.
    pub fn put_case(&mut self) -> Result<(), AllocError>
        ensures { OnOk result (self.new ≡ puts_case self.old) }
    {
        let word = self.word();
        let label = self.labels(1);
        self.cases.push(Case {
            value: word.cast_signed(),
            label,
        })?;
        self.put(Stmt::Label { label })
    }

    /// A DEFAULT before its command. The first of a SWITCHON counts.
    pub fn put_default(&mut self) -> Result<(), AllocError>
        ensures { OnOk result (self.new ≡ puts_default self.old) }
    {
        let label = self.labels(1);
        if self.default_label.is_none() {
            self.default_label = Some(label);
        }
        self.put(Stmt::Label { label })
    }

    /// A SWITCHON whose body was written by itself, after this code, and the choices around it.
    pub fn end_switch(
        &mut self,
        label: u32,
        before: Vec<Unresolved>,
        around: Choices,
    ) -> Result<(), AllocError>
        ensures { OnOk result (self.new ≡ puts_switch label before.items around self.old) }
    {
        let body = self.resume(before);
        let own = self.return_to_switch(around);
        self.put(own.statement(label))?;
        self.put_all(body)?;
        self.put(Stmt::Label { label })
    }

    /// The word of a procedure that sets no global.
    fn put_word(&mut self, label: u32) -> Result<(), AllocError>
        ensures { OnOk result (self.new ≡ adds_data (DataLabel (After label 1) ∷ DataAddress label ∷ []) self.old) }
    {
        self.data_words.push(Stmt::DataLabel {
            label: after(label, 1),
        })?;
        self.data_words.push(Stmt::DataAddress { label })?;
        Ok(())
    }

    /// The global of a procedure.
    fn put_global(&mut self, label: u32, number: u32) -> Result<(), AllocError>
        ensures { OnOk result (self.new ≡ adds_entries (record { number = number; label = label } ∷ []) self.old) }
    {
        self.entries.push(GlobalEntry { number, label })?;
        Ok(())
    }

    /// The word of a procedure that sets no global, and the global of another one.
    fn put_entry(&mut self, label: u32, bound: Bound) -> Result<(), AllocError>
        ensures { OnOk result (self.new ≡ puts_entry label bound self.old) }
    {
        match bound {
            Bound::Static(number) => {
                self.put_word(label)?;
                self.target_word(after(label, 1), Bound::Static(number))
            }
            Bound::Global(Some(number)) => self.put_global(label, number),
            _ => Ok(()),
        }
    }

    /// What was written around a procedure is set aside.
    fn step_out(&mut self) -> Outside
        ensures outside { result ≡ outside_of self.old }
        ensures within { self.new ≡ inside self.old }
    {
        let code = self.aside();
        let choices = self.leave_switch();
        Outside {
            code,
            procedures: mem::replace(&mut self.procedures, Vec::new(self.alloc)),
            choices,
        }
    }

    /// A procedure is begun; what was written around it.
    pub fn begin_procedure(&mut self, name: &[u8], formals: usize) -> Result<Outside, AllocError>
        ensures outside { IfOk result (λ outside. outside ≡ outside_of self.old) }
        ensures begun { OnOk result (self.new ≡ begins_procedure name.now formals self.old) }
    {
        let outside = self.step_out();
        self.code.reserve(FIRST_STMTS)?;
        let bound = self.meaning();
        let label = self.labels(procedure_labels(bound));
        self.put_entry(label, bound)?;
        self.put(Stmt::Entry {
            label,
            name: first_bytes(self.alloc, name)?,
        })?;
        self.put(Stmt::Save {
            depth: after(2, formals),
        })?;
        Ok(outside)
    }

    /// A procedure is ended after its body, with this return. It is before those inside it.
    pub fn end_procedure(&mut self, outside: Outside, last: Stmt) -> Result<(), AllocError>
        ensures { OnOk result (self.new ≡ ends_procedure last outside self.old) }
    {
        let Outside {
            code,
            procedures,
            choices,
        } = outside;
        let mut own = self.resume(code);
        let _made = self.return_to_switch(choices);
        let mut inner = mem::replace(&mut self.procedures, procedures);
        self.procedures.append(&mut own)?;
        self.procedures.push(Unresolved::Ready(last))?;
        self.procedures.push(Unresolved::Ready(Stmt::EndProcedure))?;
        self.procedures.append(&mut inner)?;
        if self.code.is_empty() {
            // What is written next has the room of the body.
            self.code = own;
        }
        Ok(())
    }

    /// What is before the body of a FOR.
    pub fn begin_for(&mut self, first: u32) -> Result<(), AllocError>
        ensures { OnOk result (self.new ≡ puts_all (before_body first) self.old) }
    {
        self.put(Stmt::Store)?;
        self.put(Stmt::Jump { label: first })?;
        self.put(Stmt::Label {
            label: after(first, 1),
        })
    }

    /// The step of a FOR, after its body.
    fn put_step(&mut self, first: u32, depth: u32, step: u32) -> Result<(), AllocError>
        ensures { OnOk result (self.new ≡ puts_all (steps_on first depth step) self.old) }
    {
        let variable = Variable::Local(depth);
        self.put(Stmt::Label {
            label: after(first, 2),
        })?;
        self.put(Stmt::Load { from: variable })?;
        self.put(Stmt::Number {
            value: step.cast_signed(),
        })?;
        self.put(Stmt::Dyadic {
            operator: Dyadic::Add,
        })?;
        self.put(Stmt::Assign { to: variable })
    }

    /// The test of a FOR, after its step, and the end.
    fn put_test(&mut self, first: u32, depth: u32, step: u32) -> Result<(), AllocError>
        ensures { OnOk result (self.new ≡ puts_all (goes_on first depth step) self.old) }
    {
        self.put(Stmt::Label { label: first })?;
        self.put(Stmt::Load {
            from: Variable::Local(depth),
        })?;
        self.put(Stmt::Load {
            from: Variable::Local(after(depth, 1)),
        })?;
        self.put(test_of_step(step))?;
        self.put(Stmt::JumpIf {
            truth: true,
            label: after(first, 1),
        })?;
        self.put(Stmt::Label {
            label: after(first, 3),
        })?;
        self.put(Stmt::Stack { depth })
    }

    /// What follows the body of a FOR.
    pub fn end_for(&mut self, first: u32, depth: u32, step: u32) -> Result<(), AllocError>
        ensures { OnOk result (self.new ≡ ends_for first depth step self.old) }
    {
        self.put_step(first, depth, step)?;
        self.put_test(first, depth, step)
    }

    /// What is between the values of a choice.
    pub fn begin_other(&mut self, first: u32, second: u32) -> Result<(), AllocError>
        ensures { OnOk result (self.new ≡ puts_all (begins_other first second) self.old) }
    {
        self.put(Stmt::GiveResult { label: second })?;
        self.put(Stmt::Label { label: first })
    }

    /// What follows the values of a choice.
    pub fn end_choice(&mut self, second: u32, depth: u32) -> Result<(), AllocError>
        ensures { OnOk result (self.new ≡ puts_all (ends_choice second depth) self.old) }
    {
        self.put(Stmt::GiveResult { label: second })?;
        self.put(Stmt::Label { label: second })?;
        self.put(Stmt::TakeResult { depth })
    }

    /// A command of one word.
    pub fn put_simple(&mut self, around: Around, depth: u32, word: Simple) -> Result<(), AllocError>
        ensures { OnOk result (self.new ≡ puts_all (simple_code around depth word) self.old) }
    {
        match word {
            Simple::Break => self.go(around.leaves, depth),
            Simple::Loop => self.go(around.goes_on, depth),
            Simple::EndCase => self.go(around.ends_case, depth),
            Simple::Return => self.put(Stmt::Return),
            Simple::Finish => self.put(Stmt::Finish),
        }
    }
}
