//! The text of the source, beside what is reported of it.
ghost use Rattle.std.specs.Prelude.{◌≡◌, ◌+◌, [], Contains, IfOk, IfSome, OnOk, OnErr};
ghost use Rattle.bk_tree.specs.Position.{bytes_in};
ghost use Rattle.bk_checker.specs.Reports.{IsBefore, IsAdded, IsPlaceIn, IsPlaced};

use crate::report::{GivenUp, Report};
use bk_lasting::{GLOBALS_OBJECT, count_decls};
use bk_lines::{Start, put_line, put_place};
use bk_reports::{Notice, Remark, Within};
use bk_tree::{Position, Section};
use std::alloc::{AllocError, Global};

/// The text of a section.
#[derive(Drop)]
pub struct SourceText {
    /// Where it begins in the source.
    pub start: Start,
    pub bytes: Vec<u8>,
    /// How many objects that last there are up to its end.
    objects: u64,
}

/// The texts of the sections of a source that have symbols, in order.
#[derive(Drop)]
pub struct SourceTexts {
    alloc: Global,
    pub texts: Vec<SourceText>,
}

/// The bytes of a text before a position, if the text has it on its line.
fn before(text: &SourceText, at: Position) -> Option<&[u8]>
    ensures { IfSome result (λ bytes. IsBefore text.now.start text.now.bytes.items at bytes.now) }
{
    let place = place_of(at)?;
    let before = text.bytes.get(..place)?;
    if place < text.bytes.len() && text.start.after(before).line == at.line() {
        Some(before)
    } else {
        None
    }
}

impl SourceTexts {
    /// No text.
    pub fn new(alloc: Global) -> SourceTexts
        ensures { result.texts.items ≡ [] }
    {
        SourceTexts {
            alloc,
            texts: Vec::new(alloc),
        }
    }

    /// How many objects that last there are up to the end of these texts.
    fn objects(&self) -> u64 {
        match self.texts.last() {
            Some(text) => text.objects,
            None => GLOBALS_OBJECT + 1,
        }
    }

    /// Keeps the text of a section that begins here, after those before it.
    pub fn push(&mut self, start: &Start, bytes: &[u8], section: &Section) -> Result<(), AllocError>
        ensures added { OnOk result (IsAdded start.now bytes.now self.old.texts.items self.new.texts.items) }
        ensures kept { OnErr result (self.new.texts.items ≡ self.old.texts.items) }
    {
        let objects = self.objects().saturating_add(count_decls(section.decls())?);
        let mut copy = Vec::with_capacity(self.alloc, bytes.len())?;
        copy.extend_from_slice(bytes)?;
        self.texts.push(SourceText {
            start: *start,
            bytes: copy,
            objects,
        })?;
        Ok(())
    }

    /// The text of the section in which a place is.
    fn text(&self, within: Within) -> Option<&SourceText>
        ensures { IfSome result (λ text. Contains self.now.texts.items text.now) }
    {
        match within {
            Within::Section(number) => self.texts.get(number),
            Within::Procedure(number) => self.texts.iter().find(|text| number < text.objects),
        }
    }

    /// The place of a position, as `4:36`, and its line with a caret and these lines, if the text of its section has it.
    fn show(
        &self,
        at: Position,
        within: Within,
        further: &[u8],
    ) -> Result<Option<(Vec<u8>, Vec<u8>)>, AllocError>
        ensures { IfOk result (λ shown. IfSome shown (λ parts. IsPlaceIn self.now.texts.items at parts.0.items)) }
    {
        let Some(text) = self.text(within) else {
            return Ok(None);
        };
        let Some(before) = before(text, at) else {
            return Ok(None);
        };
        let mut name = Vec::new(self.alloc);
        put_place(&mut name, &text.start, before)?;
        let mut lines = Vec::new(self.alloc);
        put_line(
            &mut lines,
            &text.bytes,
            at.line().number(),
            before.len(),
            None,
        )?;
        lines.extend_from_slice(further)?;
        Ok(Some((name, lines)))
    }

    /// A notice with its place and the line of the source. Where memory is refused, it is without.
    fn placed(&self, notice: Notice) -> Notice
        ensures at { result.at ≡ notice.at }
        ensures placed { IsPlaced self.now.texts.items result }
    {
        let Notice {
            at,
            within,
            what,
            further,
            ..
        } = notice;
        if what.is_empty() {
            return Notice::new(self.alloc, at, within, what, further);
        }
        match self.show(at, within, &further) {
            Ok(Some((place, further))) => Notice {
                at,
                within,
                place,
                what,
                further,
            },
            Ok(None) | Err(_) => Notice::new(self.alloc, at, within, what, further),
        }
    }

    /// Whether a comment is in the text of a section from one position up to another.
    fn has_comment(&self, within: Within, from: Position, to: Position) -> bool {
        let Some(text) = self.text(within) else {
            return false;
        };
        let Some(first) = before(text, from) else {
            return false;
        };
        let Some(all) = before(text, to) else {
            return false;
        };
        begins_comment(all.get(first.len()..).unwrap_or(&[]))
    }

    /// Whether a comment in the source answers a remark.
    fn is_answered(&self, remark: &Remark) -> bool {
        match remark.unless_noted_from {
            Some(from) => self.has_comment(remark.notice.within, from, remark.notice.at),
            None => false,
        }
    }

    /// The remarks that no comment answers, each with its place and the line of the source.
    fn shown_remarks(&self, remarks: Vec<Remark>) -> Vec<Remark> {
        let mut remarks = remarks;
        remarks.retain(|remark| !self.is_answered(remark));
        for remark in &mut remarks {
            if let Ok(Some((place, further))) = self.show(
                remark.notice.at,
                remark.notice.within,
                &[],
            ) {
                remark.notice.place = place;
                remark.notice.further = further;
            }
        }
        remarks
    }

    /// A report beside its source: where the run stopped and what is suspicious, with the lines there, but for what a comment answers.
    pub fn shown(&self, report: Report) -> Report
        ensures verdict { result.verdict ≡ report.verdict }
        ensures at { result.stop.at ≡ report.stop.at }
        ensures placed { IsPlaced self.now.texts.items result.stop }
    {
        Report {
            verdict: report.verdict,
            stop: self.placed(report.stop),
            remarks: self.shown_remarks(report.remarks),
        }
    }

    /// Why a check was given up, with the place and the line of the source.
    pub fn shown_given_up(&self, given: GivenUp) -> GivenUp
        ensures fault { result.fault ≡ given.fault }
        ensures placed { IfSome result.stop (λ stop. IsPlaced self.now.texts.items stop) }
    {
        let GivenUp { fault, stop } = given;
        let stop = match stop {
            Some(stop) => Some(self.placed(stop)),
            None => None,
        };
        GivenUp { fault, stop }
    }
}

/// Where in the text of its section a position is, if it says that.
fn place_of(at: Position) -> Option<usize>
    ensures { IfSome result (λ place. bytes_in at ≡ place + 1) }
{
    (at.bytes() as usize).checked_sub(1)
}

/// Whether a comment begins in these bytes.
fn begins_comment(bytes: &[u8]) -> bool {
    bytes.windows(2).any(|pair| matches!(pair, b"//"))
}
