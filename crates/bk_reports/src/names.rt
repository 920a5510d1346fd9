//! What the names mean where an act is done, as far as the frames tell.

use bk_check::{Call, Continuation, Evaluator, OnDone, OnTarget, OnTruth, OnValue};
use bk_lasting::{Env, Lasting, Procedure, Sense};
use bk_objects::Worth;

/// What names mean in a call that is active.
#[derive(Clone, Copy)]
pub struct Names<'m, 'a> {
    /// What they mean, other than the formals where `formals` has an object.
    pub env: &'m Env<'a>,
    /// The procedure that is called.
    pub procedure: &'m Procedure<'a>,
    /// The object of its formals, and the number of arguments.
    pub formals: Option<(u64, usize)>,
    /// The number of the frame of its call.
    pub call: usize,
    /// Whether `env` has no formals.
    pub is_outside: bool,
}

/// What goes on with a value has these names.
fn env_of_value<'m, 'a>(frame: &'m OnValue<'a>) -> Option<&'m Env<'a>> {
    match frame {
        OnValue::Left(_, _, _, env)
        | OnValue::Vector(_, _, env)
        | OnValue::String(_, env)
        | OnValue::Argument(_, _, _, _, _, env)
        | OnValue::Assigned(_, _, _, env)
        | OnValue::Switch(_, _, env)
        | OnValue::ForStart(_, _, env, _, _)
        | OnValue::ForLimit(_, env, _, _, _)
        | OnValue::Starts(_, env, _, _) => Some(env),
        _ => None,
    }
}

/// What goes on with a truth has these names.
fn env_of_truth<'m, 'a>(frame: &'m OnTruth<'a>) -> Option<&'m Env<'a>> {
    match frame {
        OnTruth::Choice(_, _, env)
        | OnTruth::And(_, env)
        | OnTruth::Or(_, env)
        | OnTruth::When(_, _, env)
        | OnTruth::Test(_, _, env)
        | OnTruth::First(_, _, env)
        | OnTruth::Further(_, _, env) => Some(env),
        OnTruth::Not => None,
    }
}

/// What goes on after a command has these names.
fn env_of_done<'m, 'a>(frame: &'m OnDone<'a>) -> Option<&'m Env<'a>> {
    match frame {
        OnDone::After(_, env)
        | OnDone::Scope(_, env)
        | OnDone::Alone(_, env)
        | OnDone::Round(_, env) => Some(env),
        OnDone::Landed(scope) | OnDone::LandedInBlock(_, scope) => Some(scope.env()),
        OnDone::ForRound(run) => Some(&run.env),
        OnDone::Body | OnDone::Valof(_) | OnDone::Cases => None,
    }
}

/// A frame has these names.
pub fn env_of<'m, 'a>(frame: &'m Continuation<'a>) -> Option<&'m Env<'a>> {
    match frame {
        Continuation::Value(frame) => env_of_value(frame),
        Continuation::Truth(frame) => env_of_truth(frame),
        Continuation::Target(OnTarget::Put(_, _, _, env, _, _)) => Some(env),
        Continuation::Target(OnTarget::Address(_)) => None,
        Continuation::Done(frame) => env_of_done(frame),
        Continuation::Returned(_) | Continuation::Closing(_) => None,
    }
}

/// The procedure with this number.
fn procedure_of<'m, 'a>(program: &'m [Lasting<'a>], number: u64) -> Option<&'m Procedure<'a>> {
    match program.get(number as usize) {
        Some(Lasting::Code(procedure)) => Some(procedure),
        _ => None,
    }
}

/// The innermost call of a procedure, with the number of its frame.
fn innermost(frames: &[Continuation]) -> Option<(usize, Call, u64)> {
    for (i, frame) in frames.iter().enumerate().rev() {
        if let Continuation::Returned(call) = frame
            && let Worth::Procedure(number) = call.callee
        {
            return Some((i, *call, number));
        }
    }
    None
}

/// The name of a cell among these names.
pub fn name_in<'a>(env: &Env<'a>, object: u64, offset: u32) -> Option<&'a [u8]> {
    let mut names = &env.names;
    while let Some(node) = names {
        if let Sense::Cell(i, o) = node.sense
            && o == object
            && i == offset
        {
            return Some(node.name);
        }
        names = &node.outer;
    }
    None
}

/// What names mean outside the body of the procedure whose call is the innermost of these frames.
fn names_outside<'m, 'a>(
    program: &'m [Lasting<'a>],
    frames: &'m [Continuation<'a>],
) -> Option<Names<'m, 'a>> {
    let (at, call, number) = innermost(frames)?;
    let procedure = procedure_of(program, number)?;
    let formals = match frames.get(at.saturating_add(1)) {
        Some(Continuation::Closing(object)) => Some((*object, call.arguments)),
        _ => None,
    };
    Some(Names {
        env: &procedure.env,
        procedure,
        formals,
        call: at,
        is_outside: true,
    })
}

/// What names mean in the innermost call of a procedure.
pub fn names_in<'m, 'a>(m: &'m Evaluator<'a>, program: &'m [Lasting<'a>]) -> Option<Names<'m, 'a>> {
    names_of(program, &m.frames)
}

/// What names mean in the innermost call of a procedure among these frames.
pub fn names_of<'m, 'a>(
    program: &'m [Lasting<'a>],
    frames: &'m [Continuation<'a>],
) -> Option<Names<'m, 'a>> {
    let mut names = names_outside(program, frames)?;
    for frame in frames.iter().skip(names.call.saturating_add(1)).rev() {
        if let Some(env) = env_of(frame) {
            names.env = env;
            names.is_outside = false;
            return Some(names);
        }
    }
    Some(names)
}

/// What names mean for the last of these frames, which has names of its own.
pub fn names_at<'m, 'a>(
    program: &'m [Lasting<'a>],
    frames: &'m [Continuation<'a>],
    env: &'m Env<'a>,
) -> Option<Names<'m, 'a>> {
    let names = names_outside(program, frames)?;
    Some(Names {
        env,
        procedure: names.procedure,
        formals: names.formals,
        call: names.call,
        is_outside: false,
    })
}

impl<'m, 'a> Names<'m, 'a> {
    /// What a name means.
    pub fn sense(&self, name: &[u8]) -> Option<Sense> {
        if self.is_outside
            && let Some((object, _)) = self.formals
        {
            for (i, formal) in self.procedure.formals.iter().enumerate() {
                if formal.letters.as_slice() == name {
                    return Some(Sense::Cell(u32::try_from(i).ok()?, object));
                }
            }
        }
        self.env.sense(name)
    }

    /// A name as the program has it, if it means something here.
    pub fn spelled(&self, name: &[u8]) -> Option<&'a [u8]> {
        if self.is_outside {
            for formal in self.procedure.formals {
                if formal.letters.as_slice() == name {
                    return Some(&formal.letters);
                }
            }
        }
        let mut names = &self.env.names;
        while let Some(node) = names {
            if node.name == name {
                return Some(node.name);
            }
            names = &node.outer;
        }
        None
    }

    /// The constant that a name would mean if no variable here had it.
    pub fn hidden_constant(&self, name: &[u8]) -> Option<u32> {
        let mut is_hidden = self.is_outside
            && self
                .procedure
                .formals
                .iter()
                .any(|formal| formal.letters.as_slice() == name);
        let mut names = &self.env.names;
        while let Some(node) = names {
            if node.name == name {
                match node.sense {
                    Sense::Constant(word) if is_hidden => return Some(word),
                    Sense::Constant(_) => return None,
                    _ => is_hidden = true,
                }
            }
            names = &node.outer;
        }
        None
    }

    /// The name of a cell, if one is visible.
    pub fn name_of(&self, object: u64, offset: u32) -> Option<&'a [u8]> {
        name_in(self.env, object, offset)
    }
}
