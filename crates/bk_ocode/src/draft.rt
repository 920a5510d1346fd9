//! A section that is being read.
ghost use Rattle.std.specs.Prelude.{◌≡◌, ◌≢◌, nat_lt, false, IsTrue, ℕ, ◌+◌, ◌<◌, ◌≤◌, ◌^◌, [], ◌∷◌, ◌++◌, List, length, drop, Option, None, OnOk, not, ◌||◌, ◌&&◌, is_some, map};
ghost use Rattle.std.specs.List.{list_all, list_any};
ghost use Rattle.bk_base.specs.declared.limit.TheConstants.{FRAME_WORDS, OCODE_STATEMENTS, OCODE_WORDS};
ghost use Rattle.bk_ocode.specs.StmtText.{stmt_words};
ghost use Rattle.bk_ocode.specs.Depth.{next_depth};
ghost use Rattle.bk_ocode.specs.StmtRange.{InRange, AreTyped};
ghost use Rattle.bk_ocode.specs.Context.{start_from};
ghost use Rattle.bk_ocode.specs.KnownUses.{uses_of};
ghost use Rattle.bk_ocode.specs.Faults.{misplaced, is_lab_from, is_data, is_entry, is_set, jumps_set, data_set, label_not_set, label_set_twice, is_other_lab, are_other_jumps, result_named, follows_badly, left_after, is_badly_followed, not_followed, result_disagrees, own_disagrees, depths_disagree, slot_above, too_long, stmt_fault};
ghost use Rattle.bk_ocode.specs.Labels.{static_label};
ghost use Rattle.bk_ocode.specs.Places.{may_stand};
ghost use Rattle.bk_ocode.specs.Section.{IsSection};
ghost use Rattle.bk_ocode.specs.SectionStmts.{stmts_of};
ghost use Rattle.bk_ocode.specs.Drafts.{IsDraft, context_in};

use crate::depth::depth_after;
use crate::label_uses::LabelUses;
use crate::places::{depth_needed, fits, following, role_of, set_label};
use crate::section::Ocode;
use crate::standing::{Following, JumpDepths, LabelUse, Position, Setting, StmtPlace};
use crate::stmt::{Case, GlobalEntry, Stmt, Variable};
use bk_base::OcodeKind;
use bk_base::limit::{FRAME_WORDS, OCODE_STATEMENTS, OCODE_WORDS};
use std::alloc::{AllocError, Global};

/// The statements so far, and what they leave for those after them.
#[derive(Drop)]
pub(crate) struct Draft {
    stmts: Vec<Stmt>,
    words: u32,
    position: Position,
    depth: u32,
    start: usize,
    uses: LabelUses,
}

/// Whether a LAB of the procedure that begins after so many statements set the label.
fn is_lab_after(start: usize, setting: Setting) -> bool
    ensures { result ≡ is_lab_from start setting }
{
    match setting {
        Setting::Lab { place, .. } => start <= place,
        _ => false,
    }
}

/// Whether a LAB with another depth set the label.
fn is_lab_elsewhere(depth: u32, setting: Setting) -> bool
    ensures { result ≡ is_other_lab depth setting }
{
    match setting {
        Setting::Lab { depth: other, .. } => other != depth,
        _ => false,
    }
}

/// Whether a jump with another depth went to the label.
fn is_jumped_elsewhere(depth: u32, jumps: JumpDepths) -> bool
    ensures { result ≡ are_other_jumps depth jumps }
{
    match jumps {
        JumpDepths::Unused => false,
        JumpDepths::One(other) => other != depth,
        JumpDepths::Several => true,
    }
}

/// Whether the LAB of a label is followed by no RSTACK for a RES with this depth after it.
fn is_followed_badly(depth: u32, following: Following) -> bool
    ensures { result ≡ is_badly_followed depth following }
{
    match following {
        Following::Takes(least) => depth < least,
        _ => true,
    }
}

/// Whether a RES with this depth after it disagrees with what is known of its label.
fn is_result_misplaced(depth: u32, known: LabelUse) -> bool
    ensures { result ≡ result_disagrees depth known }
{
    if known.named {
        return true;
    }
    match known.setting {
        Setting::Lab { .. } => is_followed_badly(depth, known.following),
        _ => false,
    }
}

/// Whether a statement after the LAB of a label of RES does not take the result up.
fn is_left(least: Option<u32>, stmt: &Stmt) -> bool
    ensures { result ≡ left_after least stmt.now }
{
    match (least, stmt) {
        (None, _) => false,
        (Some(depth), Stmt::TakeResult { depth: taken }) => depth < *taken,
        (Some(_), _) => true,
    }
}

/// How many statements come before the procedure.
fn start_with(count: usize, start: usize, stmt: &Stmt) -> usize
    ensures { result ≡ start_from count start stmt.now }
{
    match stmt {
        Stmt::Entry { .. } => count,
        _ => start,
    }
}

impl Draft {
    /// No statements.
    pub(crate) fn new(alloc: Global) -> Draft
        ensures none { result.stmts.items ≡ [] }
        ensures draft { IsDraft result }
    {
        Draft {
            stmts: Vec::new(alloc),
            words: 0,
            position: Position::Outside,
            depth: 0,
            start: 0,
            uses: LabelUses::new(alloc),
        }
    }

    /// Whether a statement with this role may follow these.
    pub(crate) fn is_place_of(&self, role: StmtPlace) -> bool
        ensures { result ≡ may_stand self.now.position role }
    {
        fits(self.position, role)
    }

    /// Whether a LAB of this procedure set the label.
    fn is_lab(&self, label: u32) -> bool
        ensures { result ≡ is_lab_from self.now.start (uses_of self.now.uses label).setting }
    {
        is_lab_after(self.start, self.uses.of(label).setting)
    }

    /// Whether they set the labels of all cases.
    fn are_labs(&self, cases: &[Case]) -> bool
        ensures { result ≡ list_all (λ c. is_lab_from self.now.start (uses_of self.now.uses c.label).setting) cases.now }
    {
        for case in cases {
            if !self.is_lab(case.label) {
                return false;
            }
        }
        true
    }

    /// Whether they set the labels to which a statement jumps.
    fn are_jumps_set(&self, stmt: &Stmt) -> bool
        ensures { result ≡ jumps_set (context_in self.now) stmt.now }
    {
        match stmt {
            Stmt::Jump { label } => self.is_lab(*label),
            Stmt::JumpIf { label, .. } => self.is_lab(*label),
            Stmt::GiveResult { label } => self.is_lab(*label),
            Stmt::Switch { default, cases } => {
                self.is_lab(*default) && self.are_labs(cases.as_slice())
            }
            _ => true,
        }
    }

    /// Whether they set the labels of all jumps of the procedure.
    fn is_procedure_set(&self) -> bool
        requires { self.now.start ≤ length self.now.stmts.items }
        ensures { result ≡ list_all (jumps_set (context_in self.now)) (drop self.now.start self.now.stmts.items) }
    {
        for stmt in &self.stmts[self.start..] {
            if !self.are_jumps_set(stmt) {
                return false;
            }
        }
        true
    }

    /// Whether a DATALAB set the label.
    fn is_datum(&self, label: u32) -> bool
        ensures { result ≡ is_data (uses_of self.now.uses label).setting }
    {
        self.uses.of(label).setting == Setting::Data
    }

    /// Whether an ENTRY set the label.
    fn is_procedure(&self, label: u32) -> bool
        ensures { result ≡ is_entry (uses_of self.now.uses label).setting }
    {
        self.uses.of(label).setting == Setting::Entry
    }

    /// Whether a DATALAB set the label of a variable.
    fn is_static_set(&self, variable: Variable) -> bool
        ensures { result ≡ list_all (λ label. is_data (uses_of self.now.uses label).setting) (static_label variable) }
    {
        match variable {
            Variable::Static(label) => self.is_datum(label),
            _ => true,
        }
    }

    /// Whether the labels of data that a statement names are set.
    fn is_data_set(&self, stmt: &Stmt) -> bool
        ensures { result ≡ data_set (context_in self.now) stmt.now }
    {
        match stmt {
            Stmt::Load { from } => self.is_static_set(*from),
            Stmt::Address { of } => self.is_static_set(*of),
            Stmt::Assign { to } => self.is_static_set(*to),
            Stmt::DataAddress { label } => self.is_datum(*label) || self.is_procedure(*label),
            _ => true,
        }
    }

    /// Whether all labels of data are set.
    fn is_all_data_set(&self) -> bool
        ensures { result ≡ list_all (data_set (context_in self.now)) self.now.stmts.items }
    {
        for stmt in &self.stmts {
            if !self.is_data_set(stmt) {
                return false;
            }
        }
        true
    }

    /// Whether the labels of all globals are those of entries.
    fn are_procedures(&self, entries: &[GlobalEntry]) -> bool
        ensures { result ≡ list_all (λ e. is_entry (uses_of self.now.uses e.label).setting) entries.now }
    {
        for entry in entries {
            if !self.is_procedure(entry.label) {
                return false;
            }
        }
        true
    }

    /// Whether all labels of data and of these globals are set.
    fn is_section_set(&self, entries: &[GlobalEntry]) -> bool
        ensures { result ≡ (list_all (data_set (context_in self.now)) self.now.stmts.items
            && list_all (λ e. is_entry (uses_of self.now.uses e.label).setting) entries.now) }
    {
        self.is_all_data_set() && self.are_procedures(entries)
    }

    /// Whether a label is not set where it must be by now.
    fn lacks_label(&self, stmt: &Stmt) -> bool
        requires { self.now.start ≤ length self.now.stmts.items }
        ensures { result ≡ label_not_set self.now.stmts.items (context_in self.now) stmt.now }
    {
        match stmt {
            Stmt::EndProcedure => !self.is_procedure_set(),
            Stmt::Globals { entries } => !self.is_section_set(entries.as_slice()),
            _ => false,
        }
    }

    /// Whether the statement sets a label that is set.
    fn sets_again(&self, stmt: &Stmt) -> bool
        ensures { result ≡ label_set_twice (context_in self.now) stmt.now }
    {
        match set_label(stmt) {
            Some(label) => self.uses.of(label).setting != Setting::Unset,
            None => false,
        }
    }

    /// Whether a LAB with another depth set the label.
    fn is_elsewhere(&self, depth: u32, label: u32) -> bool
        ensures { result ≡ is_other_lab depth (uses_of self.now.uses label).setting }
    {
        is_lab_elsewhere(depth, self.uses.of(label).setting)
    }

    /// Whether a LAB with another depth set the label of a case.
    fn is_case_elsewhere(&self, depth: u32, cases: &[Case]) -> bool
        ensures { result ≡ list_any (λ c. is_other_lab depth (uses_of self.now.uses c.label).setting) cases.now }
    {
        for case in cases {
            if self.is_elsewhere(depth, case.label) {
                return true;
            }
        }
        false
    }

    /// Whether a RES named the label.
    fn is_result(&self, label: u32) -> bool
        ensures { result ≡ is_some (uses_of self.now.uses label).result }
    {
        self.uses.of(label).result.is_some()
    }

    /// Whether a RES named the label of a case.
    fn is_case_result(&self, cases: &[Case]) -> bool
        ensures { result ≡ list_any (λ c. is_some (uses_of self.now.uses c.label).result) cases.now }
    {
        for case in cases {
            if self.is_result(case.label) {
                return true;
            }
        }
        false
    }

    /// Whether a RES named the label of a global.
    fn is_entry_result(&self, entries: &[GlobalEntry]) -> bool
        ensures { result ≡ list_any (λ e. is_some (uses_of self.now.uses e.label).result) entries.now }
    {
        for entry in entries {
            if self.is_result(entry.label) {
                return true;
            }
        }
        false
    }

    /// Whether a RES named the label of a variable.
    fn is_static_result(&self, variable: Variable) -> bool
        ensures { result ≡ list_any (λ label. is_some (uses_of self.now.uses label).result) (static_label variable) }
    {
        match variable {
            Variable::Static(label) => self.is_result(label),
            _ => false,
        }
    }

    /// Whether a RES named a label that the statement names.
    fn names_result(&self, stmt: &Stmt) -> bool
        ensures { result ≡ result_named (context_in self.now) stmt.now }
    {
        match stmt {
            Stmt::Jump { label } => self.is_result(*label),
            Stmt::JumpIf { label, .. } => self.is_result(*label),
            Stmt::Switch { default, cases } => {
                self.is_result(*default) || self.is_case_result(cases.as_slice())
            }
            Stmt::Load { from } => self.is_static_result(*from),
            Stmt::Address { of } => self.is_static_result(*of),
            Stmt::Assign { to } => self.is_static_result(*to),
            Stmt::DataAddress { label } => self.is_result(*label),
            Stmt::Globals { entries } => self.is_entry_result(entries.as_slice()),
            Stmt::Entry { label, .. } => self.is_result(*label),
            Stmt::DataLabel { label } => self.is_result(*label),
            _ => false,
        }
    }

    /// Whether the statement follows the LAB of a label of RES and does not take the result up.
    fn leaves_result(&self, stmt: &Stmt) -> bool
        ensures { result ≡ follows_badly (context_in self.now) self.now.position stmt.now }
    {
        match self.position {
            Position::AfterLabel(label) => is_left(self.uses.of(label).result, stmt),
            _ => false,
        }
    }

    /// Whether the statement by itself disagrees on a depth.
    fn is_deep_elsewhere(&self, stmt: &Stmt) -> bool
        ensures { result ≡ own_disagrees (context_in self.now) stmt.now }
    {
        let less = self.depth.saturating_sub(1);
        match stmt {
            Stmt::Jump { label } => self.is_elsewhere(self.depth, *label),
            Stmt::JumpIf { label, .. } => self.is_elsewhere(less, *label),
            Stmt::Switch { default, cases } => {
                self.is_elsewhere(less, *default) || self.is_case_elsewhere(less, cases.as_slice())
            }
            Stmt::Label { label } => is_jumped_elsewhere(self.depth, self.uses.of(*label).jumps),
            Stmt::GiveResult { label } => is_result_misplaced(less, self.uses.of(*label)),
            Stmt::TakeResult { depth } => self.depth < *depth,
            _ => false,
        }
    }

    /// Whether the statement disagrees on a depth.
    fn disagrees(&self, stmt: &Stmt) -> bool
        ensures { result ≡ depths_disagree (context_in self.now) stmt.now }
    {
        self.leaves_result(stmt) || self.names_result(stmt) || self.is_deep_elsewhere(stmt)
    }

    /// Whether a count or a depth passes its limit with a statement of so many words.
    fn passes_limit(&self, stmt: &Stmt, words: u32) -> bool
        requires in_range { InRange stmt.now }
        requires words { words ≡ length (stmt_words stmt.now) }
        requires few { words ≤ OCODE_WORDS + 1 }
        requires draft { IsDraft self.now }
        ensures { result ≡ too_long (context_in self.now) stmt.now }
    {
        self.stmts.len() >= OCODE_STATEMENTS as usize
            || self.words + words > OCODE_WORDS
            || depth_after(self.depth, stmt) > FRAME_WORDS
    }

    /// The fault that is reported of a statement of so many words after these.
    pub(crate) fn fault_of(&self, stmt: &Stmt, words: u32) -> Option<OcodeKind>
        requires in_range { InRange stmt.now }
        requires words { words ≡ length (stmt_words stmt.now) }
        requires few { words ≤ OCODE_WORDS + 1 }
        requires draft { IsDraft self.now }
        ensures { result ≡ stmt_fault self.now.stmts.items stmt.now }
    {
        if !self.is_place_of(role_of(stmt)) {
            Some(OcodeKind::BadWord)
        } else if self.lacks_label(stmt) {
            Some(OcodeKind::LabelNotSet)
        } else if self.sets_again(stmt) {
            Some(OcodeKind::LabelSetTwice)
        } else if self.disagrees(stmt) {
            Some(OcodeKind::DepthsDisagree)
        } else if self.depth < depth_needed(stmt) {
            Some(OcodeKind::SlotAboveDepth)
        } else if self.passes_limit(stmt, words) {
            Some(OcodeKind::TooLong)
        } else {
            None
        }
    }

    /// How many statements there are.
    pub(crate) fn len(&self) -> usize
        ensures { result ≡ length self.now.stmts.items }
    {
        self.stmts.len()
    }

    /// Whether so many words more pass the limit of words.
    pub(crate) fn is_filled_by(&self, words: u32) -> bool
        requires few { words ≤ OCODE_WORDS + 1 }
        requires draft { IsDraft self.now }
        ensures { result ≡ nat_lt OCODE_WORDS (self.now.words + words) }
    {
        self.words + words > OCODE_WORDS
    }

    /// Whether GLOBAL ended the section.
    pub(crate) fn is_whole(&self) -> bool
        ensures whole { IsTrue result → self.now.position ≡ Position.Ended }
        ensures goes_on { result ≡ false → self.now.position ≢ Position.Ended }
    {
        self.position == Position::Ended
    }

    /// The section of these statements, if they are one.
    pub(crate) fn into_section(self) -> Ocode
        requires section { IsSection self.stmts.items }
        requires typed { AreTyped self.stmts.items }
        ensures { stmts_of result ≡ self.stmts.items }
    {
        let Draft {
            stmts,
            words: _,
            position: _,
            depth: _,
            start: _,
            uses: _,
        } = self;
        Ocode::new(stmts)
    }

    /// Adds a statement of so many words, which has no fault after these.
    pub(crate) fn add(&mut self, stmt: Stmt, words: u32) -> Result<(), AllocError>
        requires in_range { InRange stmt }
        requires words { words ≡ length (stmt_words stmt) }
        requires few { words ≤ OCODE_WORDS + 1 }
        requires draft { IsDraft self.old }
        requires faultless { stmt_fault self.old.stmts.items stmt ≡ None }
        ensures added { OnOk result (self.new.stmts.items ≡ self.old.stmts.items ++ stmt ∷ []) }
        ensures draft { OnOk result (IsDraft self.new) }
    {
        let count = self.len();
        self.uses.stand(self.position, &stmt)?;
        self.uses.name(self.depth, count, &stmt)?;
        self.words += words;
        self.position = following(&stmt);
        self.depth = depth_after(self.depth, &stmt);
        self.start = start_with(count, self.start, &stmt);
        self.stmts.push(stmt)?;
        Ok(())
    }
}
