//! What is around a node of the program, and where declarations went.
ghost use Rattle.std.specs.Prelude.{◌≡◌};
ghost use Rattle.bk_trans.specs.Scheme.{goal as GoalAt, looping as Looping, switching as Switching, valued as Valued, outermost as Outermost};

/// Where a jump out of a command goes.
#[derive(Clone, Copy)]
pub struct Goal {
    /// The label.
    pub label: u32,
    /// The depth there.
    pub depth: u32,
}

/// What is around a command.
#[derive(Clone, Copy)]
pub struct Around {
    /// Where LOOP goes.
    pub goes_on: Goal,
    /// Where BREAK goes.
    pub leaves: Goal,
    /// Where ENDCASE goes.
    pub ends_case: Goal,
    /// The label of the VALOF.
    pub valof: u32,
}

/// Where a declaration went.
#[derive(Clone, Copy)]
pub struct Target {
    /// The number of the declaration.
    pub number: u32,
    /// Its label.
    pub label: u32,
    /// The depth at its label.
    pub depth: u32,
}

impl Goal {
    /// This label, where the depth is this.
    pub fn new(label: u32, depth: u32) -> Goal
        ensures { result ≡ GoalAt label depth }
    {
        Goal { label, depth }
    }
}

impl Around {
    /// In a procedure.
    pub fn outermost() -> Around
        ensures { result ≡ Outermost }
    {
        Around::valued(0)
    }

    /// In a VALOF with this label.
    pub fn valued(label: u32) -> Around
        ensures { result ≡ Valued label }
    {
        let nowhere = Goal::new(0, 0);
        Around {
            goes_on: nowhere,
            leaves: nowhere,
            ends_case: nowhere,
            valof: label,
        }
    }

    /// In a loop, with the labels where LOOP and BREAK go, and the depth there.
    pub fn looping(self, goes_on: u32, leaves: u32, depth: u32) -> Around
        ensures { result ≡ Looping goes_on leaves depth self }
    {
        Around {
            goes_on: Goal::new(goes_on, depth),
            leaves: Goal::new(leaves, depth),
            ..self
        }
    }

    /// In a SWITCHON, with the label where ENDCASE goes, and the depth there.
    pub fn switching(self, label: u32, depth: u32) -> Around
        ensures { result ≡ Switching label depth self }
    {
        Around {
            ends_case: Goal::new(label, depth),
            ..self
        }
    }
}
