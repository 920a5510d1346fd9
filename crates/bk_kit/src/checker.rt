//! The checker.
ghost use Rattle.std.specs.Prelude.{◌≡◌, ◌⊎◌, ℕ, List, [], ◌++◌, Option, None, map, IfOk, IfErr, IfSome, OnOk, if◌then◌else◌};
ghost use Rattle.bk_base.specs.Devices.{Begins};
ghost use Rattle.bk_tree.specs.Section.{declarations_of};
ghost use Rattle.bk_checker.specs.Reports.{IsAdded};
ghost use Rattle.bk_filters.specs.CompilingSection.{trees_in};
ghost use Rattle.bk_filters.specs.RunningSource.{NotAssembled, ReadsSource};
ghost use Rattle.bk_filters.specs.Interpreting.{streams};
ghost use Rattle.bk_kit.specs.Checking.{fails_reading, fails_check, HasTheseTrees, HintsAt, HintsIn, IsCut, AllInSource, IsPlacedIn, ChecksSource, Untouched};

use crate::cut::{CutSection, cut_at};
use bk_base::{ByteIn, ByteOut, Line};
use bk_checker::{GivenUp, Report, SourceTexts, check};
use bk_filters::{KitFault, SectionCode, compile_section, read_source_section};
use bk_hints::hints;
use bk_lines::Start;
use bk_tree::Section;
use std::alloc::{AllocError, Global};

/// A fault of a source, and what a person is reported of it.
#[derive(Debug, Drop)]
pub struct Refusal {
    /// The fault.
    pub fault: KitFault,
    /// What is reported of it and of further faults of its section. Each is lines of text, with their ends, that come after the name of
    /// FILE: the place and what is wrong, the line of the source with a caret, and what is meant.
    pub hints: Vec<Vec<u8>>,
    /// The text before a fault of bytes, whose line may go on in the source; none where memory is refused for it.
    pub cut: Option<CutSection>,
}

/// Why a check of a source gives no verdict.
#[derive(Debug, Drop)]
pub enum NotChecked {
    /// The source is refused or cannot be read; nothing is done.
    Text(Refusal),
    /// The run of the meaning was given up.
    Run(GivenUp),
}

/// A fault without hints.
pub fn no_hint(alloc: Global, fault: KitFault) -> Refusal
    ensures fault { result.fault ≡ fault }
    ensures hints { result.hints.items ≡ [] }
    ensures cut { result.cut ≡ None }
{
    Refusal {
        fault,
        hints: Vec::new(alloc),
        cut: None,
    }
}

/// What a person is reported of a fault of a section of this text, which begins here in the source; nothing where memory is refused.
pub fn hints_of(alloc: Global, text: &[u8], start: &Start, fault: &KitFault) -> Vec<Vec<u8>>
    ensures { HintsAt start.now text.now fault.now result.items }
{
    match fault {
        KitFault::Source(reported) => match hints(alloc, text, start, reported) {
            Ok(pages) => pages,
            Err(_) => Vec::new(alloc),
        },
        _ => Vec::new(alloc),
    }
}

/// A fault of a section of this text, which begins here in the source, with what a person is reported of it.
fn refused(alloc: Global, text: &[u8], start: &Start, fault: KitFault) -> Refusal
    ensures fault { result.fault ≡ fault }
    ensures hints { HintsAt start.now text.now result.fault result.hints.items }
    ensures cut { IsCut start.now text.now result.fault result.cut }
{
    Refusal {
        hints: hints_of(alloc, text, start, &fault),
        cut: cut_at(alloc, text, start, &fault),
        fault,
    }
}

/// Adds the tree of a section and its text, which begins here in the source, if it has a tree.
fn push_tree(
    section: Option<SectionCode>,
    trees: &mut Vec<Section>,
    start: &Start,
    text: &[u8],
    texts: &mut SourceTexts,
) -> Result<(), AllocError>
    ensures trees { OnOk result (map declarations_of trees.new.items ≡ map declarations_of trees.old.items ++ trees_in section) }
    ensures texts { (texts.new.texts.items ≡ texts.old.texts.items) ⊎ IsAdded start.now text.now texts.old.texts.items texts.new.texts.items }
{
    match section {
        Some(section) => {
            texts.push(start, text, &section.tree)?;
            trees.push(section.tree)?;
            Ok(())
        }
        None => Ok(()),
    }
}

/// The trees of all sections of a source that have symbols, and the texts of these.
fn read_trees<C: ByteIn>(
    alloc: Global,
    source: &mut C,
    texts: &mut SourceTexts,
) -> Result<Vec<Section>, Refusal>
    ensures trees { IfOk result (λ list. HasTheseTrees (map declarations_of list.items) (C.left source.old) (C.left source.new) (C.ended source.new)) }
    ensures refused { IfErr result (λ refusal. NotAssembled refusal.fault (C.left source.old) (C.left source.new) (C.ended source.new)) }
    ensures delivered { ReadsSource (fails_reading result) (C.left source.old) (C.left source.new) }
    ensures failures { C.faults source.new ≡ (if fails_reading result then 1 else 0) }
    ensures hints { IfErr result (λ refusal. HintsIn refusal (C.left source.old) (C.left source.new)) }
    ensures texts { OnOk result (texts.old.texts.items ≡ [] → AllInSource (C.left source.old) (C.left source.new) texts.new.texts.items) }
{
    let mut trees = Vec::new(alloc);
    let mut taken = 0;
    let mut line = Line::first();
    let mut start = Start::of_source();
    loop {
        let lexer = match read_source_section(alloc, source, &mut taken, line) {
            Ok(lexer) => lexer,
            Err(fault) => return Err(no_hint(alloc, fault)),
        };
        let section = match compile_section(alloc, &lexer) {
            Ok(section) => section,
            Err(fault) => return Err(refused(alloc, lexer.bytes(), &start, fault)),
        };
        let next = section.next;
        let Ok(()) = push_tree(section.code, &mut trees, &start, lexer.bytes(), texts) else {
            return Err(no_hint(alloc, KitFault::Memory));
        };
        start = start.after(lexer.bytes());
        match next {
            Some(next) => line = next,
            None => return Ok(trees),
        }
    }
}

/// A report beside the texts of its source, in which it has its places.
fn placed(texts: &SourceTexts, report: Report) -> Report
    ensures verdict { result.verdict ≡ report.verdict }
    ensures at { result.stop.at ≡ report.stop.at }
    ensures placed { (old new : Option (List ℕ)) → AllInSource old new texts.now.texts.items → IsPlacedIn old new result.stop }
{
    texts.shown(report)
}

/// The same of a check that was given up.
fn placed_given_up(texts: &SourceTexts, given: GivenUp) -> GivenUp
    ensures fault { result.fault ≡ given.fault }
    ensures placed { (old new : Option (List ℕ)) → AllInSource old new texts.now.texts.items → IfSome result.stop (IsPlacedIn old new) }
{
    texts.shown_given_up(given)
}

/// Does what a source means, in so many turns, with this input and output: the verdict of its meaning, and what a person is reported of
/// it. A source that is refused is refused as `run_source` refuses it, and nothing is done of it.
pub fn check_source<C: ByteIn, I: ByteIn, O: ByteOut>(
    alloc: Global,
    source: &mut C,
    turns: u64,
    input: &mut I,
    out: &mut O,
) -> Result<Report, NotChecked>
    ensures checks { ChecksSource result turns (C.left source.old) (C.left source.new) (C.ended source.new)
        (streams I.ByteIn O.ByteOut input.old out.old) (streams I.ByteIn O.ByteOut input.new out.new) }
    ensures untouched { IfErr result (λ stopped. Untouched stopped input.old input.new out.old out.new) }
    ensures passes { Begins (O.passed out.old) (O.passed out.new) }
    ensures delivered { ReadsSource (fails_check result) (C.left source.old) (C.left source.new) }
    ensures read_fails { C.faults source.new ≡ (if fails_check result then 1 else 0) }
{
    let mut texts = SourceTexts::new(alloc);
    let trees = match read_trees(alloc, source, &mut texts) {
        Ok(trees) => trees,
        Err(refusal) => return Err(NotChecked::Text(refusal)),
    };
    match check(alloc, trees.as_slice(), turns, input, out) {
        Ok(report) => Ok(placed(&texts, report)),
        Err(given) => Err(NotChecked::Run(placed_given_up(&texts, given))),
    }
}
