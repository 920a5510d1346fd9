//! The words that begin statements.
ghost use Rattle.std.specs.Prelude.{◌≡◌, ◌≢◌, IfSome, IfNone, ℕ, List};
ghost use Rattle.bk_ocode.specs.Keywords.{keyword_text, with_two, with_three, with_four, with_five, with_six, with_seven, candidate_with, keyword_role};
ghost use Rattle.bk_ocode.specs.declared.keyword.Keyword.TheVariants.{Load, Address, Assign};
ghost use Rattle.bk_ocode.specs.declared.keyword.Keyword.{Keyword};

use crate::arguments::{dyadic_word, monadic_word};
use crate::standing::StmtPlace;
use crate::stmt::{Dyadic, Monadic};

/// The kinds of variables.
#[derive(Clone, Copy, Debug, PartialEq, Eq)]
pub(crate) enum VariableKind {
    /// A slot of the frame.
    Local,
    /// A global.
    Global,
    /// A word of data.
    Static,
}

/// What a first word says of its statement.
#[derive(Clone, Copy, Debug, PartialEq, Eq)]
pub(crate) enum Keyword {
    /// LN.
    Number,
    /// TRUE.
    True,
    /// FALSE.
    False,
    /// QUERY.
    Query,
    /// LSTR.
    Text,
    /// GETBYTE.
    LoadByte,
    /// STIND.
    AssignAt,
    /// PUTBYTE.
    AssignByte,
    /// JUMP.
    Jump,
    /// LAB.
    Label,
    /// RES.
    GiveResult,
    /// RSTACK.
    TakeResult,
    /// STACK.
    Stack,
    /// STORE.
    Store,
    /// ENTRY.
    Entry,
    /// SAVE.
    Save,
    /// FNAP.
    CallFunction,
    /// RTAP.
    CallRoutine,
    /// FNRN.
    ReturnItem,
    /// RTRN.
    Return,
    /// ENDPROC.
    EndProcedure,
    /// SWITCHON.
    Switch,
    /// FINISH.
    Finish,
    /// DATALAB.
    DataLabel,
    /// ITEMN.
    DataNumber,
    /// ITEML.
    DataAddress,
    /// GLOBAL.
    Globals,
    /// LP, LG, LL.
    Load(VariableKind),
    /// LLP, LLG, LLL.
    Address(VariableKind),
    /// SP, SG, SL.
    Assign(VariableKind),
    /// RV, NEG, NOT.
    Monadic(Monadic),
    /// MULT to NEQV.
    Dyadic(Dyadic),
    /// JT, JF.
    JumpIf(bool),
}

/// The first word of a statement that pushes a variable.
fn load_text(kind: VariableKind) -> &'static str
    ensures { result.now ≡ keyword_text (Load kind) }
{
    match kind {
        VariableKind::Local => "LP",
        VariableKind::Global => "LG",
        VariableKind::Static => "LL",
    }
}

/// The first word of a statement that pushes an address.
fn address_text(kind: VariableKind) -> &'static str
    ensures { result.now ≡ keyword_text (Address kind) }
{
    match kind {
        VariableKind::Local => "LLP",
        VariableKind::Global => "LLG",
        VariableKind::Static => "LLL",
    }
}

/// The first word of a statement that stores an item.
fn store_text(kind: VariableKind) -> &'static str
    ensures { result.now ≡ keyword_text (Assign kind) }
{
    match kind {
        VariableKind::Local => "SP",
        VariableKind::Global => "SG",
        VariableKind::Static => "SL",
    }
}

/// The word itself.
fn text_of(keyword: Keyword) -> &'static str
    ensures { result.now ≡ keyword_text keyword }
{
    match keyword {
        Keyword::Number => "LN",
        Keyword::True => "TRUE",
        Keyword::False => "FALSE",
        Keyword::Query => "QUERY",
        Keyword::Text => "LSTR",
        Keyword::LoadByte => "GETBYTE",
        Keyword::AssignAt => "STIND",
        Keyword::AssignByte => "PUTBYTE",
        Keyword::Jump => "JUMP",
        Keyword::Label => "LAB",
        Keyword::GiveResult => "RES",
        Keyword::TakeResult => "RSTACK",
        Keyword::Stack => "STACK",
        Keyword::Store => "STORE",
        Keyword::Entry => "ENTRY",
        Keyword::Save => "SAVE",
        Keyword::CallFunction => "FNAP",
        Keyword::CallRoutine => "RTAP",
        Keyword::ReturnItem => "FNRN",
        Keyword::Return => "RTRN",
        Keyword::EndProcedure => "ENDPROC",
        Keyword::Switch => "SWITCHON",
        Keyword::Finish => "FINISH",
        Keyword::DataLabel => "DATALAB",
        Keyword::DataNumber => "ITEMN",
        Keyword::DataAddress => "ITEML",
        Keyword::Globals => "GLOBAL",
        Keyword::Load(kind) => load_text(kind),
        Keyword::Address(kind) => address_text(kind),
        Keyword::Assign(kind) => store_text(kind),
        Keyword::Monadic(operator) => monadic_word(operator),
        Keyword::Dyadic(operator) => dyadic_word(operator),
        Keyword::JumpIf(true) => "JT",
        Keyword::JumpIf(false) => "JF",
    }
}

/// The place that a statement with this first word may have.
pub(crate) fn place_of(keyword: Keyword) -> StmtPlace
    ensures { result ≡ keyword_role keyword }
{
    match keyword {
        Keyword::Entry | Keyword::DataLabel | Keyword::Globals => StmtPlace::Outer,
        Keyword::Save => StmtPlace::First,
        Keyword::TakeResult => StmtPlace::Taker,
        Keyword::EndProcedure => StmtPlace::Last,
        Keyword::DataNumber | Keyword::DataAddress => StmtPlace::Datum,
        _ => StmtPlace::Body,
    }
}

// No two keywords have the same length, first letter and last letter. So these leave one that a word can be.

/// The keyword whose word of two letters may have these as the first and the last.
fn of_two(first: u8, last: u8) -> Option<Keyword>
    ensures { result ≡ with_two first last }
{
    match first {
        b'L' => match last {
            b'P' => Some(Keyword::Load(VariableKind::Local)),
            b'N' => Some(Keyword::Number),
            b'G' => Some(Keyword::Load(VariableKind::Global)),
            b'L' => Some(Keyword::Load(VariableKind::Static)),
            b'E' => Some(Keyword::Dyadic(Dyadic::AtMost)),
            _ => Some(Keyword::Dyadic(Dyadic::Less)),
        },
        b'S' => match last {
            b'P' => Some(Keyword::Assign(VariableKind::Local)),
            b'G' => Some(Keyword::Assign(VariableKind::Global)),
            _ => Some(Keyword::Assign(VariableKind::Static)),
        },
        b'J' => match last {
            b'F' => Some(Keyword::JumpIf(false)),
            _ => Some(Keyword::JumpIf(true)),
        },
        b'R' => Some(Keyword::Monadic(Monadic::Contents)),
        b'E' => Some(Keyword::Dyadic(Dyadic::Equal)),
        b'G' => match last {
            b'R' => Some(Keyword::Dyadic(Dyadic::Greater)),
            _ => Some(Keyword::Dyadic(Dyadic::AtLeast)),
        },
        b'N' => Some(Keyword::Dyadic(Dyadic::Unequal)),
        _ => None,
    }
}

/// The keyword whose word of three letters may have these as the first and the last.
fn of_three(first: u8, last: u8) -> Option<Keyword>
    ensures { result ≡ with_three first last }
{
    match first {
        b'L' => match last {
            b'B' => Some(Keyword::Label),
            b'P' => Some(Keyword::Address(VariableKind::Local)),
            b'L' => Some(Keyword::Address(VariableKind::Static)),
            _ => Some(Keyword::Address(VariableKind::Global)),
        },
        b'R' => match last {
            b'S' => Some(Keyword::GiveResult),
            _ => Some(Keyword::Dyadic(Dyadic::Remainder)),
        },
        b'N' => match last {
            b'T' => Some(Keyword::Monadic(Monadic::Not)),
            _ => Some(Keyword::Monadic(Monadic::Negate)),
        },
        b'D' => Some(Keyword::Dyadic(Dyadic::Divide)),
        b'E' => Some(Keyword::Dyadic(Dyadic::Eqv)),
        _ => None,
    }
}

/// The keyword whose word of four letters may have these as the first and the last.
fn of_four(first: u8, last: u8) -> Option<Keyword>
    ensures { result ≡ with_four first last }
{
    match first {
        b'P' => Some(Keyword::Dyadic(Dyadic::Add)),
        b'R' => match last {
            b'P' => Some(Keyword::CallRoutine),
            _ => Some(Keyword::Return),
        },
        b'F' => match last {
            b'P' => Some(Keyword::CallFunction),
            _ => Some(Keyword::ReturnItem),
        },
        b'J' => Some(Keyword::Jump),
        b'L' => Some(Keyword::Text),
        b'M' => Some(Keyword::Dyadic(Dyadic::Multiply)),
        b'S' => Some(Keyword::Save),
        b'T' => Some(Keyword::True),
        b'N' => Some(Keyword::Dyadic(Dyadic::Neqv)),
        _ => None,
    }
}

/// The keyword whose word of five letters may have these as the first and the last.
fn of_five(first: u8, last: u8) -> Option<Keyword>
    ensures { result ≡ with_five first last }
{
    match first {
        b'S' => match last {
            b'K' => Some(Keyword::Stack),
            b'E' => Some(Keyword::Store),
            _ => Some(Keyword::AssignAt),
        },
        b'M' => Some(Keyword::Dyadic(Dyadic::Subtract)),
        b'E' => Some(Keyword::Entry),
        b'L' => Some(Keyword::Dyadic(Dyadic::Or)),
        b'F' => Some(Keyword::False),
        b'I' => match last {
            b'N' => Some(Keyword::DataNumber),
            _ => Some(Keyword::DataAddress),
        },
        b'Q' => Some(Keyword::Query),
        _ => None,
    }
}

/// The keyword whose word of six letters may have these as the first and the last.
fn of_six(first: u8, last: u8) -> Option<Keyword>
    ensures { result ≡ with_six first last }
{
    match first {
        b'R' => match last {
            b'K' => Some(Keyword::TakeResult),
            _ => Some(Keyword::Dyadic(Dyadic::ShiftRight)),
        },
        b'L' => match last {
            b'D' => Some(Keyword::Dyadic(Dyadic::And)),
            _ => Some(Keyword::Dyadic(Dyadic::ShiftLeft)),
        },
        b'F' => Some(Keyword::Finish),
        b'G' => Some(Keyword::Globals),
        _ => None,
    }
}

/// The keyword whose word of seven letters may have this as the first.
fn of_seven(first: u8) -> Option<Keyword>
    ensures { result ≡ with_seven first }
{
    match first {
        b'E' => Some(Keyword::EndProcedure),
        b'G' => Some(Keyword::LoadByte),
        b'P' => Some(Keyword::AssignByte),
        b'D' => Some(Keyword::DataLabel),
        _ => None,
    }
}

/// The keyword whose word may have so many letters, and these as the first and the last.
fn candidate(len: usize, first: u8, last: u8) -> Option<Keyword>
    ensures { result ≡ candidate_with len first last }
{
    match len {
        2 => of_two(first, last),
        3 => of_three(first, last),
        4 => of_four(first, last),
        5 => of_five(first, last),
        6 => of_six(first, last),
        7 => of_seven(first),
        8 => Some(Keyword::Switch),
        _ => None,
    }
}

/// The keyword whose word the bytes are.
#[tactic(auto, using(crate::proofs::KeywordLemmas::only_candidate))]
pub(crate) fn keyword_of(bytes: &[u8]) -> Option<Keyword>
    ensures found { IfSome result (λ k. keyword_text k ≡ bytes.now) }
    ensures none { IfNone result ((k : Keyword) → keyword_text k ≢ bytes.now) }
{
    let first = *bytes.first()?;
    let last = *bytes.last()?;
    let keyword = candidate(bytes.len(), first, last)?;
    if text_of(keyword).as_bytes() == bytes {
        Some(keyword)
    } else {
        None
    }
}
