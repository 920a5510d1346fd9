//! Reading a statement, one word after another.
ghost use Rattle.std.specs.Prelude.{◌≡◌, ◌≢◌, ℕ, ◌<◌, ◌≤◌, ◌^◌, List, [], ◌∷◌, ◌++◌, length, true, false, Some, None, IfSome, IfNone, IfOk, IfErr};
ghost use Rattle.bk_base.specs.declared.limit.TheConstants.{NAME_BYTES};
ghost use Rattle.bk_words.specs.Gathering.{Holds};
ghost use Rattle.bk_ocode.specs.StmtText.{natural_word, label_word, variable_word, byte_words, stmt_words};
ghost use Rattle.bk_ocode.specs.StmtRange.{IsLabel, IsVariable, AreBytes};
ghost use Rattle.bk_ocode.specs.FirstFault.{IsStmt};
ghost use Rattle.bk_ocode.specs.Keywords.{keyword_text, kind_of};
ghost use Rattle.bk_ocode.specs.PartialStmts.{IsStep, IsPartialStmt, IsOwner, ArePartialCases, ArePartialEntries, owner_words, switch_words, entries_words, partial_words, is_short, takes_label, AreCasesUpTo, AreEntriesUpTo, NoVariable, NoArgument, IsUnfit};
ghost use Rattle.bk_ocode.specs.declared.partial.Partial.TheVariants.{EntryLabel, Length, Bytes, CaseCount, Default, CaseValue, CaseLabel, GlobalCount, GlobalNumber, GlobalLabel};
ghost use Rattle.bk_ocode.specs.declared.partial.Unfit.TheVariants.{BadWord, BadNumber};

use crate::byte_string::ByteString;
use crate::case_list::CaseList;
use crate::global_list::GlobalList;
use crate::keyword::{Keyword, VariableKind};
use crate::stmt::{Case, GlobalEntry, Stmt, Variable};
use bk_base::limit::{FRAME_WORDS, GLOBAL_NUMBER, NAME_BYTES, OCODE_LABEL};
use bk_words::Gathered;
use std::alloc::Global;
use std::collections::BTreeSet;

/// The largest number.
const LARGEST: u32 = 2_147_483_647;

/// Why a statement is not read on.
#[derive(Clone, Copy, Debug, PartialEq, Eq)]
pub(crate) enum Unfit {
    /// No statement that may be there begins with this word.
    BadWord,
    /// No statement goes on with this word.
    BadNumber,
    /// Memory was refused.
    Memory,
}

/// What has bytes: LSTR, or the ENTRY of a label.
#[derive(Clone, Copy, Debug, PartialEq, Eq)]
pub(crate) enum Owner {
    /// LSTR.
    Text,
    /// ENTRY.
    Entry(u32),
}

/// The cases of a SWITCHON so far, their values, and how many there will be.
#[derive(Drop)]
pub(crate) struct CaseDraft {
    default: u32,
    cases: Vec<Case>,
    values: BTreeSet<i32>,
    count: u32,
}

/// The entries of a GLOBAL so far, and how many there will be.
#[derive(Drop)]
pub(crate) struct EntryDraft {
    entries: Vec<GlobalEntry>,
    count: u32,
}

/// What is due next in a statement.
#[derive(Drop)]
pub(crate) enum Partial {
    /// The one word after this first word.
    Short(Keyword),
    /// The label of an ENTRY.
    EntryLabel,
    /// How many bytes there are.
    Length {
        owner: Owner,
    },
    /// A byte.
    Bytes {
        owner: Owner,
        bytes: Vec<u8>,
        count: u32,
    },
    /// How many cases there are.
    CaseCount,
    /// The default of a SWITCHON.
    Default {
        count: u32,
    },
    /// The value of a case.
    CaseValue(CaseDraft),
    /// The label of a case.
    CaseLabel {
        draft: CaseDraft,
        value: i32,
    },
    /// How many globals there are.
    GlobalCount,
    /// The number of a global.
    GlobalNumber(EntryDraft),
    /// The label of a global.
    GlobalLabel {
        draft: EntryDraft,
        number: u32,
    },
}

/// A statement after one word more.
#[derive(Drop)]
pub(crate) enum Progress {
    /// It goes on.
    More(Partial),
    /// It is whole.
    Done(Stmt),
}

/// The label in a word.
fn label_in(word: &Gathered) -> Option<u32>
    ensures found { IfSome result (λ l. IsLabel l × ((w : List ℕ) → Holds word.now w → label_word l ≡ w)) }
    ensures none { IfNone result ((w : List ℕ) → Holds word.now w → (l : ℕ) → IsLabel l → label_word l ≢ w) }
{
    word.marked(b'L', 1, OCODE_LABEL)
}

/// The variable of this kind in a word.
fn variable_in(kind: VariableKind, word: &Gathered) -> Option<Variable>
    ensures found { IfSome result (λ v. IsVariable v × (kind_of v ≡ kind) × ((w : List ℕ) → Holds word.now w → variable_word v ≡ w)) }
    ensures none { IfNone result ((w : List ℕ) → Holds word.now w → NoVariable kind w) }
{
    match kind {
        VariableKind::Local => Some(Variable::Local(word.within(2, LARGEST)?)),
        VariableKind::Global => Some(Variable::Global(word.within(0, GLOBAL_NUMBER)?)),
        VariableKind::Static => Some(Variable::Static(label_in(word)?)),
    }
}

/// The statement of this first word and one word more.
fn short_stmt(keyword: Keyword, word: &Gathered) -> Option<Stmt>
    requires { is_short keyword ≡ true }
    ensures found { IfSome result (λ s. IsStmt s × ((w : List ℕ) → Holds word.now w → stmt_words s ≡ keyword_text keyword ∷ w ∷ [])) }
    ensures none { IfNone result ((w : List ℕ) → Holds word.now w → NoArgument keyword w) }
{
    match keyword {
        Keyword::Number => Some(Stmt::Number {
            value: word.number()?,
        }),
        Keyword::DataNumber => Some(Stmt::DataNumber {
            value: word.number()?,
        }),
        Keyword::Load(kind) => Some(Stmt::Load {
            from: variable_in(kind, word)?,
        }),
        Keyword::Address(kind) => Some(Stmt::Address {
            of: variable_in(kind, word)?,
        }),
        Keyword::Assign(kind) => Some(Stmt::Assign {
            to: variable_in(kind, word)?,
        }),
        Keyword::TakeResult => Some(Stmt::TakeResult {
            depth: word.within(2, LARGEST)?,
        }),
        Keyword::CallFunction => Some(Stmt::CallFunction {
            frame: word.within(2, LARGEST)?,
        }),
        Keyword::CallRoutine => Some(Stmt::CallRoutine {
            frame: word.within(2, LARGEST)?,
        }),
        Keyword::Stack => Some(Stmt::Stack {
            depth: word.within(2, FRAME_WORDS)?,
        }),
        Keyword::Save => Some(Stmt::Save {
            depth: word.within(2, FRAME_WORDS)?,
        }),
        _ => label_stmt(keyword, label_in(word)?),
    }
}

/// The statement of this first word and a label.
fn label_stmt(keyword: Keyword, label: u32) -> Option<Stmt>
    requires { IsLabel label }
    ensures found { IfSome result (λ s. IsStmt s × (stmt_words s ≡ keyword_text keyword ∷ label_word label ∷ [])) }
    ensures none { IfNone result (takes_label keyword ≡ false) }
{
    match keyword {
        Keyword::Jump => Some(Stmt::Jump { label }),
        Keyword::JumpIf(truth) => Some(Stmt::JumpIf { truth, label }),
        Keyword::Label => Some(Stmt::Label { label }),
        Keyword::GiveResult => Some(Stmt::GiveResult { label }),
        Keyword::DataLabel => Some(Stmt::DataLabel { label }),
        Keyword::DataAddress => Some(Stmt::DataAddress { label }),
        _ => None,
    }
}

/// The statement of some bytes.
fn bytes_stmt(owner: Owner, bytes: Vec<u8>) -> Stmt
    requires owner { IsOwner owner }
    requires short { length bytes.items ≤ NAME_BYTES }
    ensures { IsStmt result × (stmt_words result ≡ owner_words owner ++ natural_word (length bytes.items) ∷ byte_words bytes.items) }
{
    let bytes = ByteString::new(bytes);
    match owner {
        Owner::Text => Stmt::Text { bytes },
        Owner::Entry(label) => Stmt::Entry { label, name: bytes },
    }
}

/// A statement of so many bytes.
fn bytes_step(owner: Owner, bytes: Vec<u8>, count: u32) -> Progress
    requires owner { IsOwner owner }
    requires short { count ≤ NAME_BYTES }
    requires some { length bytes.items ≤ count }
    ensures { IsStep result (owner_words owner ++ natural_word count ∷ byte_words bytes.items) }
{
    if bytes.len() < count as usize {
        Progress::More(Partial::Bytes {
            owner,
            bytes,
            count,
        })
    } else {
        Progress::Done(bytes_stmt(owner, bytes))
    }
}

/// A SWITCHON of so many cases.
fn cases_step(draft: CaseDraft) -> Progress
    requires { AreCasesUpTo draft }
    ensures { IsStep result (switch_words draft) }
{
    if draft.cases.len() < draft.count as usize {
        return Progress::More(Partial::CaseValue(draft));
    }
    let CaseDraft {
        default,
        cases,
        values: _,
        count: _,
    } = draft;
    Progress::Done(Stmt::Switch {
        default,
        cases: CaseList::new(cases),
    })
}

/// A GLOBAL of so many entries.
fn entries_step(draft: EntryDraft) -> Progress
    requires { AreEntriesUpTo draft }
    ensures { IsStep result (entries_words draft) }
{
    if draft.entries.len() < draft.count as usize {
        return Progress::More(Partial::GlobalNumber(draft));
    }
    let EntryDraft { entries, count: _ } = draft;
    Progress::Done(Stmt::Globals {
        entries: GlobalList::new(entries),
    })
}

/// A statement with this first word.
pub(crate) fn begin(keyword: Keyword) -> Progress
    ensures { IsStep result (keyword_text keyword ∷ []) }
{
    match keyword {
        Keyword::True => Progress::Done(Stmt::True),
        Keyword::False => Progress::Done(Stmt::False),
        Keyword::Query => Progress::Done(Stmt::Query),
        Keyword::Monadic(operator) => Progress::Done(Stmt::Monadic { operator }),
        Keyword::Dyadic(operator) => Progress::Done(Stmt::Dyadic { operator }),
        Keyword::LoadByte => Progress::Done(Stmt::LoadByte),
        Keyword::AssignAt => Progress::Done(Stmt::AssignAt),
        Keyword::AssignByte => Progress::Done(Stmt::AssignByte),
        Keyword::Store => Progress::Done(Stmt::Store),
        Keyword::ReturnItem => Progress::Done(Stmt::ReturnItem),
        Keyword::Return => Progress::Done(Stmt::Return),
        Keyword::EndProcedure => Progress::Done(Stmt::EndProcedure),
        Keyword::Finish => Progress::Done(Stmt::Finish),
        Keyword::Text => Progress::More(Partial::Length { owner: Owner::Text }),
        Keyword::Entry => Progress::More(Partial::EntryLabel),
        Keyword::Switch => Progress::More(Partial::CaseCount),
        Keyword::Globals => Progress::More(Partial::GlobalCount),
        _ => Progress::More(Partial::Short(keyword)),
    }
}

/// A byte more.
fn with_byte(owner: Owner, bytes: Vec<u8>, count: u32, word: &Gathered) -> Result<Progress, Unfit>
    requires { IsPartialStmt (Bytes owner bytes count) }
    ensures step { IfOk result (λ step. (w : List ℕ) → Holds word.now w → IsStep step (partial_words (Bytes owner bytes count) ++ w ∷ [])) }
    ensures known { IfErr result (λ unfit. unfit ≢ BadWord) }
    ensures bad { IfErr result (λ unfit. unfit ≡ BadNumber → (w : List ℕ) → Holds word.now w → IsUnfit (Bytes owner bytes count) w) }
{
    let Some(byte) = word.within(0, 255) else {
        return Err(Unfit::BadNumber);
    };
    let mut bytes = bytes;
    match bytes.push(byte as u8) {
        Ok(()) => Ok(bytes_step(owner, bytes, count)),
        Err(_) => Err(Unfit::Memory),
    }
}

/// The value of a case.
fn with_value(draft: CaseDraft, word: &Gathered) -> Result<Progress, Unfit>
    requires { ArePartialCases draft }
    ensures step { IfOk result (λ step. (w : List ℕ) → Holds word.now w → IsStep step (switch_words draft ++ w ∷ [])) }
    ensures known { IfErr result (λ unfit. unfit ≢ BadWord) }
    ensures bad { IfErr result (λ unfit. unfit ≡ BadNumber → (w : List ℕ) → Holds word.now w → IsUnfit (CaseValue draft) w) }
{
    let Some(value) = word.number() else {
        return Err(Unfit::BadNumber);
    };
    if draft.values.contains(&value) {
        return Err(Unfit::BadNumber);
    }
    Ok(Progress::More(Partial::CaseLabel { draft, value }))
}

/// The label of a case.
fn with_case_label(draft: CaseDraft, value: i32, word: &Gathered) -> Result<Progress, Unfit>
    requires { IsPartialStmt (CaseLabel draft value) }
    ensures step { IfOk result (λ step. (w : List ℕ) → Holds word.now w → IsStep step (partial_words (CaseLabel draft value) ++ w ∷ [])) }
    ensures known { IfErr result (λ unfit. unfit ≢ BadWord) }
    ensures bad { IfErr result (λ unfit. unfit ≡ BadNumber → (w : List ℕ) → Holds word.now w → IsUnfit (CaseLabel draft value) w) }
{
    let Some(label) = label_in(word) else {
        return Err(Unfit::BadNumber);
    };
    let mut draft = draft;
    let Ok(_) = draft.values.insert(value) else {
        return Err(Unfit::Memory);
    };
    match draft.cases.push(Case { value, label }) {
        Ok(()) => Ok(cases_step(draft)),
        Err(_) => Err(Unfit::Memory),
    }
}

/// The label of a global.
fn with_global_label(draft: EntryDraft, number: u32, word: &Gathered) -> Result<Progress, Unfit>
    requires { IsPartialStmt (GlobalLabel draft number) }
    ensures step { IfOk result (λ step. (w : List ℕ) → Holds word.now w → IsStep step (partial_words (GlobalLabel draft number) ++ w ∷ [])) }
    ensures known { IfErr result (λ unfit. unfit ≢ BadWord) }
    ensures bad { IfErr result (λ unfit. unfit ≡ BadNumber → (w : List ℕ) → Holds word.now w → IsUnfit (GlobalLabel draft number) w) }
{
    let Some(label) = label_in(word) else {
        return Err(Unfit::BadNumber);
    };
    let mut draft = draft;
    match draft.entries.push(GlobalEntry { number, label }) {
        Ok(()) => Ok(entries_step(draft)),
        Err(_) => Err(Unfit::Memory),
    }
}

/// How many bytes there are.
fn with_length(owner: Owner, word: &Gathered, alloc: Global) -> Option<Progress>
    requires { IsOwner owner }
    ensures step { IfSome result (λ step. (w : List ℕ) → Holds word.now w → IsStep step (owner_words owner ++ w ∷ [])) }
    ensures none { IfNone result ((w : List ℕ) → Holds word.now w → IsUnfit (Length owner) w) }
{
    let count = word.within(0, NAME_BYTES as u32)?;
    Some(bytes_step(owner, Vec::new(alloc), count))
}

/// The default of a switch of so many cases.
fn with_default(count: u32, word: &Gathered, alloc: Global) -> Option<Progress>
    requires { count < 2 ^ 31 }
    ensures step { IfSome result (λ step. (w : List ℕ) → Holds word.now w → IsStep step (partial_words (Default count) ++ w ∷ [])) }
    ensures none { IfNone result ((w : List ℕ) → Holds word.now w → IsUnfit (Default count) w) }
{
    let default = label_in(word)?;
    Some(cases_step(CaseDraft {
        default,
        cases: Vec::new(alloc),
        values: BTreeSet::new(alloc),
        count,
    }))
}

/// How many globals there are.
fn with_globals(word: &Gathered, alloc: Global) -> Option<Progress>
    ensures step { IfSome result (λ step. (w : List ℕ) → Holds word.now w → IsStep step (partial_words GlobalCount ++ w ∷ [])) }
    ensures none { IfNone result ((w : List ℕ) → Holds word.now w → IsUnfit GlobalCount w) }
{
    let count = word.within(0, LARGEST)?;
    Some(entries_step(EntryDraft {
        entries: Vec::new(alloc),
        count,
    }))
}

/// The number of a global.
fn with_global(draft: EntryDraft, word: &Gathered) -> Option<Progress>
    requires { ArePartialEntries draft }
    ensures step { IfSome result (λ step. (w : List ℕ) → Holds word.now w → IsStep step (entries_words draft ++ w ∷ [])) }
    ensures none { IfNone result ((w : List ℕ) → Holds word.now w → IsUnfit (GlobalNumber draft) w) }
{
    let number = word.within(0, GLOBAL_NUMBER)?;
    Some(Progress::More(Partial::GlobalLabel { draft, number }))
}

/// How many cases there are.
fn with_cases(word: &Gathered) -> Option<Progress>
    ensures step { IfSome result (λ step. (w : List ℕ) → Holds word.now w → IsStep step (partial_words CaseCount ++ w ∷ [])) }
    ensures none { IfNone result ((w : List ℕ) → Holds word.now w → IsUnfit CaseCount w) }
{
    let count = word.within(0, LARGEST)?;
    Some(Progress::More(Partial::Default { count }))
}

/// The label of an ENTRY.
fn with_label(word: &Gathered) -> Option<Progress>
    ensures step { IfSome result (λ step. (w : List ℕ) → Holds word.now w → IsStep step (partial_words EntryLabel ++ w ∷ [])) }
    ensures none { IfNone result ((w : List ℕ) → Holds word.now w → IsUnfit EntryLabel w) }
{
    let label = label_in(word)?;
    Some(Progress::More(Partial::Length {
        owner: Owner::Entry(label),
    }))
}

/// The statement of this first word and one word more.
fn with_argument(keyword: Keyword, word: &Gathered) -> Option<Progress>
    requires { is_short keyword ≡ true }
    ensures step { IfSome result (λ step. (w : List ℕ) → Holds word.now w → IsStep step (keyword_text keyword ∷ w ∷ [])) }
    ensures none { IfNone result ((w : List ℕ) → Holds word.now w → NoArgument keyword w) }
{
    Some(Progress::Done(short_stmt(keyword, word)?))
}

/// A word that is misspelt is a bad number.
fn or_bad(step: Option<Progress>) -> Result<Progress, Unfit>
    ensures step { IfOk result (λ s. step ≡ Some s) }
    ensures bad { IfErr result (λ e. (step ≡ None) × (e ≡ BadNumber)) }
{
    match step {
        Some(s) => Ok(s),
        None => Err(Unfit::BadNumber),
    }
}

/// A statement with one word more.
pub(crate) fn take(begun: Partial, word: &Gathered, alloc: Global) -> Result<Progress, Unfit>
    requires { IsPartialStmt begun }
    ensures step { IfOk result (λ step. (w : List ℕ) → Holds word.now w → IsStep step (partial_words begun ++ w ∷ [])) }
    ensures known { IfErr result (λ unfit. unfit ≢ BadWord) }
    ensures bad { IfErr result (λ unfit. unfit ≡ BadNumber → (w : List ℕ) → Holds word.now w → IsUnfit begun w) }
{
    match begun {
        Partial::Short(keyword) => or_bad(with_argument(keyword, word)),
        Partial::EntryLabel => or_bad(with_label(word)),
        Partial::Length { owner } => or_bad(with_length(owner, word, alloc)),
        Partial::Bytes {
            owner,
            bytes,
            count,
        } => with_byte(owner, bytes, count, word),
        Partial::CaseCount => or_bad(with_cases(word)),
        Partial::Default { count } => or_bad(with_default(count, word, alloc)),
        Partial::CaseValue(draft) => with_value(draft, word),
        Partial::CaseLabel { draft, value } => with_case_label(draft, value, word),
        Partial::GlobalCount => or_bad(with_globals(word, alloc)),
        Partial::GlobalNumber(draft) => or_bad(with_global(draft, word)),
        Partial::GlobalLabel { draft, number } => with_global_label(draft, number, word),
    }
}
