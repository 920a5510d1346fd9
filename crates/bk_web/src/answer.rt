//! What the calls answer to their host.

/// What a command line comes to.
#[repr(C)]
#[derive(Drop)]
pub struct Answer {
    /// The bytes of the output that were written.
    pub output: usize,
    /// The bytes of the error stream that were written.
    pub lines: usize,
    /// The exit status.
    pub status: u8,
}

/// The machine after some steps.
#[repr(C)]
#[derive(Drop)]
pub struct Standing {
    /// The bytes of the output that were written.
    pub output: usize,
    /// The bytes of the line of the next step that were written.
    pub line: usize,
    /// The words of the store that were given.
    pub words: usize,
    /// The register C, the address of the next word.
    pub c: u32,
    /// The register P, the frame.
    pub p: u32,
    /// The register A.
    pub a: u32,
    /// The register B.
    pub b: u32,
    /// The first word of the stack.
    pub stack: u32,
    /// The exit status: 106 where the run goes on.
    pub status: u8,
}

impl Standing {
    ghost use Rattle.std.specs.Prelude.{◌≡◌};
    ghost use Rattle.bk_web.specs.Page.{IsEmpty};

    /// Where nothing was run, for a reason that the status gives.
    pub fn not_loaded(status: u8) -> Standing
        ensures empty { IsEmpty result }
        ensures status { result.status ≡ status }
    {
        Standing {
            output: 0,
            line: 0,
            words: 0,
            c: 0,
            p: 0,
            a: 0,
            b: 0,
            stack: 0,
            status,
        }
    }
}
