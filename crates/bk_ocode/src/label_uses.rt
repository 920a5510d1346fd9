//! What is known of the labels of a section that is being read.
ghost use Rattle.std.specs.Prelude.{◌≡◌, ◌+◌, ◌<◌, ◌^◌, length, map, OnOk};
ghost use Rattle.std.specs.BTreeMap.{get};
ghost use Rattle.std.specs.Ordering.{nat_cmp};
ghost use Rattle.bk_ocode.specs.Labels.{static_label};
ghost use Rattle.bk_ocode.specs.KnownUses.{use_or, uses_of};
ghost use Rattle.bk_ocode.specs.Context.{fresh, changed, all_changed, what_follows, label_followed, labels_named, with_depth, least_result, set_by, followed, jumped, given, mentioned};

use crate::standing::{Following, JumpDepths, LabelUse, Position, Setting};
use crate::stmt::{Case, Stmt, Variable};
use std::alloc::{AllocError, Global};
use std::collections::BTreeMap;

/// A table of labels. Of one that it lacks nothing is known.
#[derive(Drop)]
pub(crate) struct LabelUses {
    /// What is known of the low labels. Most texts number theirs in turn, and have no others.
    low: Vec<LabelUse>,
    /// What is known of the others.
    high: BTreeMap<u32, LabelUse>,
    /// How often something became known.
    changes: usize,
}

/// How many changes the list of low labels may run ahead, with two labels for each.
const AHEAD: usize = 32;

/// What a statement is to the LAB right before it.
fn after_label(stmt: &Stmt) -> Following
    ensures { result ≡ what_follows stmt.now }
{
    match stmt {
        Stmt::TakeResult { depth } => Following::Takes(*depth),
        _ => Following::Other,
    }
}

/// Nothing is known of a label.
fn unknown() -> LabelUse
    ensures { result ≡ fresh }
{
    LabelUse {
        setting: Setting::Unset,
        following: Following::Nothing,
        jumps: JumpDepths::Unused,
        result: None,
        named: false,
    }
}

/// The depths of jumps, one more.
fn depths_with(depth: u32, jumps: JumpDepths) -> JumpDepths
    ensures { result ≡ with_depth depth jumps }
{
    match jumps {
        JumpDepths::Unused => JumpDepths::One(depth),
        JumpDepths::One(other) if other == depth => jumps,
        _ => JumpDepths::Several,
    }
}

/// The least depth after a RES, with one more.
fn least_with(depth: u32, least: Option<u32>) -> Option<u32>
    ensures { result ≡ least_result depth least }
{
    match least {
        None => Some(depth),
        Some(other) if other <= depth => least,
        Some(_) => Some(depth),
    }
}

impl LabelUses {
    /// Nothing is known of any label.
    #[tactic(auto, unfolding(crate::specs::KnownUses::uses_of))]
    pub(crate) fn new(alloc: Global) -> LabelUses
        ensures { uses_of result ≡ (λ label. fresh) }
    {
        LabelUses {
            low: Vec::new(alloc),
            high: BTreeMap::new(alloc),
            changes: 0,
        }
    }

    /// What is known of a label, if it is a high one.
    fn of_high(&self, label: u32) -> LabelUse
        ensures { result ≡ use_or fresh (get nat_cmp self.now.high label) }
    {
        match self.high.get(&label) {
            Some(known) => *known,
            None => unknown(),
        }
    }

    /// What is known of a label.
    #[tactic(auto, unfolding(crate::specs::KnownUses::uses_of))]
    pub(crate) fn of(&self, label: u32) -> LabelUse
        ensures { result ≡ uses_of self.now label }
    {
        match self.low.get(label as usize) {
            Some(known) => *known,
            None => self.of_high(label),
        }
    }

    /// One more label is a low one.
    fn lower(&mut self) -> Result<(), AllocError>
        requires { length self.old.low.items < 2 ^ 32 }
        ensures uses { OnOk result (uses_of self.new ≡ uses_of self.old) }
        ensures one { OnOk result (length self.new.low.items ≡ length self.old.low.items + 1) }
    {
        let known = self.of_high(self.low.len() as u32);
        self.low.push(known)?;
        Ok(())
    }

    /// Makes a label a low one, unless the list would then be long for what is known.
    fn reach(&mut self, label: u32) -> Result<(), AllocError>
        ensures { OnOk result (uses_of self.new ≡ uses_of self.old) }
    {
        let label = label as usize;
        if label / 2 > self.changes.saturating_add(AHEAD) {
            return Ok(());
        }
        while self.low.len() <= label {
            self.lower()?;
        }
        Ok(())
    }

    /// From now on this is known of a label.
    #[tactic(auto, unfolding(crate::specs::KnownUses::uses_of))]
    fn put(&mut self, label: u32, known: LabelUse) -> Result<(), AllocError>
        ensures { OnOk result (uses_of self.new ≡ changed label (λ before. known) (uses_of self.old)) }
    {
        self.changes = self.changes.saturating_add(1);
        self.reach(label)?;
        if (label as usize) < self.low.len() {
            self.low[label as usize] = known;
            return Ok(());
        }
        self.high.insert(label, known)?;
        Ok(())
    }

    /// A statement sets the label.
    pub(crate) fn set(&mut self, label: u32, setting: Setting) -> Result<(), AllocError>
        ensures { OnOk result (uses_of self.new ≡ changed label (set_by setting) (uses_of self.old)) }
    {
        let known = self.of(label);
        self.put(label, LabelUse { setting, ..known })
    }

    /// A statement follows the label's LAB.
    pub(crate) fn follow(&mut self, label: u32, following: Following) -> Result<(), AllocError>
        ensures { OnOk result (uses_of self.new ≡ changed label (followed following) (uses_of self.old)) }
    {
        let known = self.of(label);
        self.put(label, LabelUse { following, ..known })
    }

    /// A jump goes to the label with this depth.
    pub(crate) fn jump(&mut self, label: u32, depth: u32) -> Result<(), AllocError>
        ensures { OnOk result (uses_of self.new ≡ changed label (jumped depth) (uses_of self.old)) }
    {
        let known = self.of(label);
        let jumps = depths_with(depth, known.jumps);
        self.put(
            label,
            LabelUse {
                jumps,
                named: true,
                ..known
            },
        )
    }

    /// A RES goes to the label, with this depth after it.
    pub(crate) fn give(&mut self, label: u32, depth: u32) -> Result<(), AllocError>
        ensures { OnOk result (uses_of self.new ≡ changed label (given depth) (uses_of self.old)) }
    {
        let known = self.of(label);
        let result = least_with(depth, known.result);
        self.put(label, LabelUse { result, ..known })
    }

    /// A statement names the label.
    pub(crate) fn mention(&mut self, label: u32) -> Result<(), AllocError>
        ensures { OnOk result (uses_of self.new ≡ changed label mentioned (uses_of self.old)) }
    {
        let known = self.of(label);
        self.put(
            label,
            LabelUse {
                named: true,
                ..known
            },
        )
    }

    /// A statement names the label of a variable.
    fn mention_static(&mut self, variable: Variable) -> Result<(), AllocError>
        ensures { OnOk result (uses_of self.new ≡ all_changed (static_label variable) mentioned (uses_of self.old)) }
    {
        match variable {
            Variable::Static(label) => self.mention(label),
            _ => Ok(()),
        }
    }

    /// Jumps go to the labels of cases with this depth.
    fn jump_cases(&mut self, cases: &[Case], depth: u32) -> Result<(), AllocError>
        ensures { OnOk result (uses_of self.new ≡ all_changed (map (λ c. c.label) cases.now) (jumped depth) (uses_of self.old)) }
    {
        for case in cases {
            self.jump(case.label, depth)?;
        }
        Ok(())
    }

    /// A statement is here.
    pub(crate) fn stand(&mut self, position: Position, stmt: &Stmt) -> Result<(), AllocError>
        ensures { OnOk result (uses_of self.new ≡ label_followed position stmt.now (uses_of self.old)) }
    {
        match position {
            Position::AfterLabel(label) => self.follow(label, after_label(stmt)),
            _ => Ok(()),
        }
    }

    /// A statement with this depth before it, and so many statements, names and sets labels.
    pub(crate) fn name(&mut self, depth: u32, count: usize, stmt: &Stmt) -> Result<(), AllocError>
        ensures { OnOk result (uses_of self.new ≡ labels_named depth count stmt.now (uses_of self.old)) }
    {
        let less = depth.saturating_sub(1);
        match stmt {
            Stmt::Label { label } => self.set(
                *label,
                Setting::Lab {
                    depth,
                    place: count,
                },
            ),
            Stmt::Entry { label, .. } => {
                self.mention(*label)?;
                self.set(*label, Setting::Entry)
            }
            Stmt::DataLabel { label } => {
                self.mention(*label)?;
                self.set(*label, Setting::Data)
            }
            Stmt::GiveResult { label } => self.give(*label, less),
            Stmt::Jump { label } => self.jump(*label, depth),
            Stmt::JumpIf { label, .. } => self.jump(*label, less),
            Stmt::Switch { default, cases } => {
                self.jump(*default, less)?;
                self.jump_cases(cases.as_slice(), less)
            }
            Stmt::Load { from } => self.mention_static(*from),
            Stmt::Address { of } => self.mention_static(*of),
            Stmt::Assign { to } => self.mention_static(*to),
            Stmt::DataAddress { label } => self.mention(*label),
            _ => Ok(()),
        }
    }
}
