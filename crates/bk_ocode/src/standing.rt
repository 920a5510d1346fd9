//! Where a statement is in a section, and what is known of labels there.

/// The position of a statement in a section.
#[derive(Clone, Copy, Debug, PartialEq, Eq)]
pub(crate) enum Position {
    /// Outside of procedures, and not in data.
    Outside,
    /// In a stretch of data, after a DATALAB.
    InData,
    /// Right after an ENTRY.
    Opened,
    /// In a procedure, right after the LAB of a label.
    AfterLabel(u32),
    /// In a procedure, right after RTRN or FNRN.
    AfterReturn,
    /// Elsewhere in a procedure.
    Inside,
    /// After the end of the section.
    Ended,
}

/// The places that statements may have.
#[derive(Clone, Copy, Debug, PartialEq, Eq)]
pub(crate) enum StmtPlace {
    /// Outside of procedures: ENTRY, DATALAB and GLOBAL.
    Outer,
    /// Right after an ENTRY: SAVE.
    First,
    /// In a procedure.
    Body,
    /// In a procedure, right after a LAB: RSTACK.
    Taker,
    /// In a procedure, right after RTRN or FNRN: ENDPROC.
    Last,
    /// In data: ITEMN and ITEML.
    Datum,
}

/// What set a label.
#[derive(Clone, Copy, Debug, PartialEq, Eq)]
pub(crate) enum Setting {
    /// Nothing so far.
    Unset,
    /// A LAB at this depth, after so many statements of the section.
    Lab { depth: u32, place: usize },
    /// An ENTRY.
    Entry,
    /// A DATALAB.
    Data,
}

/// What comes right after the LAB of a label.
#[derive(Clone, Copy, Debug, PartialEq, Eq)]
pub(crate) enum Following {
    /// Nothing so far.
    Nothing,
    /// RSTACK of this depth.
    Takes(u32),
    /// Another statement.
    Other,
}

/// The depths with which jumps came to a label so far.
#[derive(Clone, Copy, Debug, PartialEq, Eq)]
pub(crate) enum JumpDepths {
    /// None did.
    Unused,
    /// All had this depth.
    One(u32),
    /// They had different depths.
    Several,
}

/// What is known of a label.
#[derive(Clone, Copy, Debug, PartialEq, Eq)]
pub(crate) struct LabelUse {
    /// What set it.
    pub(crate) setting: Setting,
    /// What follows its LAB.
    pub(crate) following: Following,
    /// The depths of jumps to it.
    pub(crate) jumps: JumpDepths,
    /// The least depth after a RES of it, if there was one.
    pub(crate) result: Option<u32>,
    /// Whether a statement other than RES and LAB named it.
    pub(crate) named: bool,
}
