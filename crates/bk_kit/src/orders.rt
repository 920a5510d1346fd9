//! What a command line asks for.
use bk_base::Limits;
use bk_show::{Extent, Part};

/// What a command line asks for, with the name of FILE where there is one.
#[derive(Debug, Drop, PartialEq, Eq)]
pub enum Order {
    /// `bcpl compile`: compile the BCPL source of the input to OCODE.
    Compile,
    /// `bcpl generate`: generate INTCODE from the OCODE of the input.
    Generate,
    /// `bcpl run`: run the BCPL source in FILE.
    Run(Limits, String),
    /// `bcpl run --trace`: the same, with lines on the error stream for those of its steps that are asked for.
    TraceSource(Limits, Extent, String),
    /// `bcpl check`: do what the BCPL source in FILE means, in so many turns, and report what goes wrong.
    Check(u64, String),
    /// `bcpl show`: write what the phases of the compiler make of the BCPL source in FILE.
    Show(Part, String),
    /// `bcpl show -`: the same of the source of the input.
    ShowInput(Part),
    /// `bcpl interpret`: run the INTCODE in FILE.
    Interpret(Limits, String),
    /// `bcpl interpret --trace`: the same, with a line on the error stream for each step, and with the names of the procedures where
    /// `--ocode` gives the file of the OCODE.
    Trace(Limits, String, Option<String>),
    /// `bcpl interpret --sizes`: report what the INTCODE in FILE needs in a store of so many words. The steps that `-t` gives are
    /// not used.
    Sizes(u32, String),
}

impl Order {
    ghost use Rattle.std.specs.Prelude.{◌≡◌, IfSome, IfNone, None, Some};
    ghost use Rattle.bk_kit.specs.CommandLine.{file_name, ocode_name};

    /// The name of FILE; none where the input is read in its place.
    pub fn file(&self) -> Option<&str>
        ensures named { IfSome result (λ name. file_name self.now ≡ Some name.now) }
        ensures none { IfNone result (file_name self.now ≡ None) }
    {
        match self {
            Order::Compile | Order::Generate | Order::ShowInput(_) => None,
            Order::Run(_, file)
            | Order::TraceSource(_, _, file)
            | Order::Check(_, file)
            | Order::Show(_, file)
            | Order::Interpret(_, file)
            | Order::Trace(_, file, _)
            | Order::Sizes(_, file) => Some(file.as_str()),
        }
    }

    /// The name of the file of OCODE from which the names of procedures are taken.
    pub fn ocode(&self) -> Option<&str>
        ensures named { IfSome result (λ name. ocode_name self.now ≡ Some name.now) }
        ensures none { IfNone result (ocode_name self.now ≡ None) }
    {
        match self {
            Order::Trace(_, _, Some(ocode)) => Some(ocode.as_str()),
            _ => None,
        }
    }
}

/// The files that an order names.
#[derive(Drop)]
pub struct Files<F, N> {
    /// The bytes of FILE.
    pub file: F,
    /// Those of the OCODE that gives a trace the names of procedures.
    pub ocode: N,
}
