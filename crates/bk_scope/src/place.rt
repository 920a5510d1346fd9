//! Places in a tree: what is around a node.
ghost use Rattle.std.specs.Prelude.{◌≡◌};
ghost use Rattle.bk_scope.specs.Places.{kept, at_depth, deeper, looping, switching, labelled, valued, called, outermost};

use bk_base::limit::FRAME_WORDS;

/// What is around a node, besides the declarations in scope.
#[derive(Clone, Copy)]
pub struct Enclosing {
    /// The number of the procedure around it, 0 where there is none.
    pub procedure: u32,
    /// How many words of the frame are below it; `FRAME_WORDS` and one for all past the limit.
    pub depth: u32,
    /// The number of the labels that are there.
    pub labels: u32,
    /// Whether its procedure is a routine, where RETURN may be.
    pub in_routine: bool,
    /// Whether a VALOF is around it in its procedure.
    pub in_valof: bool,
    /// Whether a loop is around it in its procedure and its VALOF.
    pub in_loop: bool,
    /// Whether a SWITCHON is around it in its procedure and its VALOF.
    pub in_switch: bool,
    /// The number of the SWITCHON that a CASE there belongs to.
    pub switch: Option<u32>,
}

/// A depth as it is kept: the first past the limit of frames means all past it.
pub fn kept_depth(depth: usize) -> u32
    ensures { result ≡ kept depth }
{
    if depth <= FRAME_WORDS as usize {
        depth as u32
    } else {
        FRAME_WORDS + 1
    }
}

impl Enclosing {
    /// Where a section begins.
    pub fn outermost() -> Enclosing
        ensures { result ≡ outermost }
    {
        Enclosing {
            procedure: 0,
            depth: 2,
            labels: 0,
            in_routine: false,
            in_valof: false,
            in_loop: false,
            in_switch: false,
            switch: None,
        }
    }

    /// So many words deeper.
    pub fn deeper(self, words: usize) -> Enclosing
        ensures { result ≡ deeper words self }
    {
        self.at_depth((self.depth as usize).saturating_add(words))
    }

    /// At this depth.
    pub fn at_depth(self, depth: usize) -> Enclosing
        ensures { result ≡ at_depth depth self }
    {
        Enclosing {
            depth: kept_depth(depth),
            ..self
        }
    }

    /// In a loop.
    pub fn looping(self) -> Enclosing
        ensures { result ≡ looping self }
    {
        Enclosing {
            in_loop: true,
            ..self
        }
    }

    /// In the SWITCHON of this number.
    pub fn switching(self, number: u32) -> Enclosing
        ensures { result ≡ switching number self }
    {
        Enclosing {
            in_switch: true,
            switch: Some(number),
            ..self
        }
    }

    /// Where the labels have this number; no CASE there belongs to a SWITCHON around it.
    pub fn labelled(self, number: u32) -> Enclosing
        ensures { result ≡ labelled number self }
    {
        Enclosing {
            labels: number,
            switch: None,
            ..self
        }
    }

    /// In a VALOF.
    pub fn valued(self) -> Enclosing
        ensures { result ≡ valued self }
    {
        Enclosing {
            in_valof: true,
            in_loop: false,
            in_switch: false,
            switch: None,
            ..self
        }
    }

    /// In the procedure of this number, a routine or not, with so many formals.
    pub fn called(in_routine: bool, number: u32, formals: usize) -> Enclosing
        ensures { result ≡ called in_routine number formals }
    {
        Enclosing {
            procedure: number,
            depth: kept_depth(formals.saturating_add(2)),
            labels: 0,
            in_routine,
            in_valof: false,
            in_loop: false,
            in_switch: false,
            switch: None,
        }
    }
}
