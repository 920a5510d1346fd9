//! The cases of a switch.
ghost use Rattle.std.specs.Prelude.{◌≡◌};

use crate::stmt::Case;
use std::marker::Model;

/// Cases, which contracts see as their list.
#[derive(Debug, Drop)]
pub struct CaseList {
    cases: Vec<Case>,
}

impl Model for CaseList {
    ghost use Rattle.std.specs.Prelude.{List};
    ghost use Rattle.bk_ocode.specs.declared.stmt.Case.{Case};

    ghost Value = { List Case };

    ghost view = { λ list. list.cases.items };
}

impl CaseList {
    /// These. It takes no memory.
    pub fn new(cases: Vec<Case>) -> CaseList
        ensures { result ≡ cases.items }
    {
        CaseList { cases }
    }

    /// They, in order.
    pub fn as_slice(&self) -> &[Case]
        ensures { result.now ≡ self.now }
    {
        self.cases.as_slice()
    }
}
