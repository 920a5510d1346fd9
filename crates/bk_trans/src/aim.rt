//! What the code of an expression is for.
ghost use Rattle.std.specs.Prelude.{◌≡◌};
ghost use Rattle.bk_trans.specs.Writing.{negated as Negated};

/// What the code of an expression is for.
#[derive(Clone, Copy)]
pub enum Aim {
    /// Its value is pushed.
    Value,
    /// A jump to this label where its truth is this.
    Jump(bool, u32),
}

impl Aim {
    /// The aim of the operand of NOT.
    pub fn negated(self) -> Aim
        ensures { result ≡ Negated self }
    {
        match self {
            Aim::Value => Aim::Value,
            Aim::Jump(truth, label) => Aim::Jump(!truth, label),
        }
    }
}
