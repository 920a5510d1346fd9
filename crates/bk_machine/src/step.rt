//! One step of the machine.
ghost use Rattle.std.specs.Prelude.{◌≡◌, ◌<◌, ◌/◌, ◌^◌, ℕ, List, slice_get, if◌then◌else◌};
ghost use Rattle.std.specs.Bool.{OnFalse};
ghost use Rattle.bk_base.specs.declared.run_end.End.TheVariants.{StoreLimit};
ghost use Rattle.bk_base.specs.Word.{word_sum};
ghost use Rattle.bk_machine.specs.Decoding.{form as form_of, form_function};
ghost use Rattle.bk_machine.specs.Step.{Turn, Goes, Ends, addressed, with_local, with_global, pointed, operand, matched, switched, byte_stored, called, operated, executed, step_on, step as step_of};
ghost use Rattle.bk_machine.specs.Inner.Effects.{turn_of, OwnEnd, Stays};

use crate::extent::LONG_ADDRESS;
use crate::item::Function;
use crate::operation::{Operation, Routine, apply, operation_of};
use crate::output::{Output, Piece, byte_at};
use crate::registers::Registers;
use crate::store::{set_word, word_at};
use bk_base::{End, word};

/// What a step leaves to its caller.
#[derive(Clone, Copy, Debug, PartialEq, Eq)]
pub enum Effect {
    /// Nothing.
    Goes,
    /// To write this, and to go on if all was written.
    Outputs(Output),
    /// To ask for a byte, which goes to A.
    Asks,
    /// To end.
    Ends(End),
}

/// The address of a word of this form, and the place after it.
#[inline(always)]
fn address_at(store: &[u32], c: u32, form: u32, word: u32) -> Option<(u32, u32)>
    ensures { result ≡ addressed store.now c form word }
{
    if form % 2 == 1 {
        let d = word_at(store, c)?;
        Some((d, word::sum(c, 1)))
    } else {
        Some((word % LONG_ADDRESS, c))
    }
}

/// An address with P, if the form is marked so.
#[inline(always)]
fn add_local(form: u32, p: u32, d: u32) -> u32
    ensures { result ≡ with_local form p d }
{
    if form / 4 % 2 == 1 {
        word::sum(d, p)
    } else {
        d
    }
}

/// An address with G, if the form is marked so.
#[inline(always)]
fn add_global(form: u32, d: u32) -> u32
    ensures { result ≡ with_global form d }
{
    if form / 2 % 2 == 1 {
        word::sum(d, 16)
    } else {
        d
    }
}

/// The operand at an address.
#[inline(always)]
fn pointed_at(store: &[u32], form: u32, d: u32) -> Option<u32>
    ensures { result ≡ pointed store.now form d }
{
    if form / 8 % 2 == 1 {
        word_at(store, d)
    } else {
        Some(d)
    }
}

/// The operand of a word of this form, and the place after it.
#[inline(always)]
fn operand_of(store: &[u32], c: u32, p: u32, form: u32, word: u32) -> Option<(u32, u32)>
    ensures { result ≡ operand store.now c p form word }
{
    let (d, c) = address_at(store, c, form, word)?;
    let d = pointed_at(store, form, add_global(form, add_local(form, p, d)))?;
    Some((d, c))
}

/// The first of these pairs with this case, or the default.
fn match_pairs(store: &[u32], count: u32, start: u32, a: u32, otherwise: u32) -> Option<u32>
    ensures { result ≡ matched count store.now start a otherwise }
{
    let mut at = start;
    for i in 0..count {
        let Some(case) = word_at(store, at) else {
            return None;
        };
        let Some(to) = word_at(store, word::sum(at, 1)) else {
            return None;
        };
        if case == a {
            return Some(to);
        }
        at = word::sum(at, 2);
    }
    Some(otherwise)
}

/// Where the table of a switch at C leads.
#[inline(never)]
fn switch(store: &[u32], c: u32, a: u32) -> Option<u32>
    ensures { result ≡ switched store.now c a }
{
    let count = word_at(store, c)?;
    let otherwise = word_at(store, word::sum(c, 1))?;
    let count = if count < 0x8000_0000 { count } else { 0 };
    match_pairs(store, count, word::sum(c, 2), a, otherwise)
}

/// Sets byte `i` of the words from an address on, if the store has its word.
#[inline(always)]
fn set_byte(store: &mut [u32], address: u32, i: u32, byte: u32) -> bool
    ensures turn { (go : List ℕ → Turn) → byte_stored store.old address i byte go ≡ (if result then go store.new else Ends StoreLimit) }
    ensures kept { OnFalse result (store.new ≡ store.old) }
{
    let at = word::sum(address, word::distance_of_byte(i));
    let Some(old) = word_at(store, at) else {
        return false;
    };
    let new = word::with_byte(old, word::place_of_byte(i), (byte % 0x100) as u8);
    set_word(store, at, new)
}

/// An argument of a library routine.
#[inline(always)]
fn argument(store: &[u32], r: &Registers, n: u32) -> Option<u32>
    ensures { result ≡ slice_get store.now (word_sum r.now.p n) }
{
    word_at(store, word::sum(r.p, n))
}

/// Calls a routine of the library.
#[inline(always)]
fn call_routine(store: &mut [u32], r: &mut Registers, routine: Routine) -> Option<Effect>
    ensures turn { called store.old r.old routine ≡ turn_of result store.new r.new }
    ensures own { OwnEnd result }
    ensures kept { Stays result store.old r.old store.new r.new }
{
    Some(match routine {
        Routine::Stop => Effect::Ends(End::Status(argument(store, r, 2)?.cast_signed())),
        Routine::Rdch => Effect::Asks,
        Routine::Wrch => {
            let word = argument(store, r, 2)?;
            Effect::Outputs(Output::Piece(Piece::Byte((word % 0x100) as u8)))
        }
        Routine::Newline => Effect::Outputs(Output::Piece(Piece::Byte(10))),
        Routine::Writes => Effect::Outputs(Output::Piece(Piece::String(argument(store, r, 2)?))),
        Routine::Writen => Effect::Outputs(Output::Piece(Piece::Number(argument(store, r, 2)?))),
        Routine::Writed => {
            let number = argument(store, r, 2)?;
            let width = argument(store, r, 3)?;
            Effect::Outputs(Output::Piece(Piece::Aligned { number, width }))
        }
        Routine::Getbyte => {
            let address = argument(store, r, 2)?;
            let i = argument(store, r, 3)?;
            r.a = u32::from(byte_at(store, address, i)?);
            Effect::Goes
        }
        Routine::Putbyte => {
            let address = argument(store, r, 2)?;
            let i = argument(store, r, 3)?;
            let byte = argument(store, r, 4)?;
            if !set_byte(store, address, i, byte) {
                return None;
            }
            Effect::Goes
        }
        Routine::Writef => {
            let format = argument(store, r, 2)?;
            let arguments = word::sum(r.p, 3);
            Effect::Outputs(Output::Format { format, arguments })
        }
    })
}

/// Does an operation.
#[inline(always)]
fn operate(store: &mut [u32], r: &mut Registers, operation: Operation) -> Option<Effect>
    ensures turn { operated store.old r.old operation ≡ turn_of result store.new r.new }
    ensures own { OwnEnd result }
    ensures kept { Stays result store.old r.old store.new r.new }
{
    match operation {
        Operation::Contents => r.a = word_at(store, r.a)?,
        Operation::Negate => r.a = word::negation(r.a),
        Operation::Not => r.a = word::bitwise_not(r.a),
        Operation::Return => {
            let c = word_at(store, word::sum(r.p, 1))?;
            r.p = word_at(store, r.p)?;
            r.c = c;
        }
        Operation::Operator(operator) => match apply(operator, r.b, r.a) {
            Some(word) => r.a = word,
            None => return Some(Effect::Ends(End::DivideByZero)),
        },
        Operation::Finish => return Some(Effect::Ends(End::Status(0))),
        Operation::Switch => r.c = switch(store, r.c, r.a)?,
        Operation::Routine(routine) => return call_routine(store, r, routine),
        Operation::ByteAt => r.a = u32::from(byte_at(store, r.b, r.a)?),
        Operation::SetByteAt => {
            let n = word_at(store, r.c)?;
            let word = word_at(store, word::sum(r.p, n))?;
            if !set_byte(store, r.b, r.a, word) {
                return None;
            }
            r.c = word::sum(r.c, 1);
        }
        Operation::Unknown => return Some(Effect::Ends(End::BadOperation)),
    }
    Some(Effect::Goes)
}

/// Calls A, with a frame d words above P.
#[inline(always)]
fn call(store: &mut [u32], r: &mut Registers, d: u32) -> Option<Effect>
    ensures turn { executed store.old r.old Function.Call d ≡ turn_of result store.new r.new }
    ensures own { OwnEnd result }
    ensures kept { Stays result store.old r.old store.new r.new }
{
    let frame = word::sum(r.p, d);
    let next = word::sum(frame, 1);
    let is_kept = (frame as usize) < store.len() && (next as usize) < store.len();
    if !is_kept || !set_word(store, frame, r.p) || !set_word(store, next, r.c) {
        return None;
    }
    r.p = frame;
    r.c = r.a;
    Some(Effect::Goes)
}

/// The function of a form.
#[inline(always)]
fn function_of(form: u32) -> Function
    ensures { result ≡ form_function form }
{
    match form / 16 {
        0 => Function::Load,
        1 => Function::Store,
        2 => Function::Add,
        3 => Function::Jump,
        4 => Function::JumpTrue,
        5 => Function::JumpFalse,
        6 => Function::Call,
        _ => Function::Operate,
    }
}

/// Does a function with its operand.
#[inline(always)]
fn execute(store: &mut [u32], r: &mut Registers, function: Function, d: u32) -> Option<Effect>
    ensures turn { executed store.old r.old function d ≡ turn_of result store.new r.new }
    ensures own { OwnEnd result }
    ensures kept { Stays result store.old r.old store.new r.new }
{
    match function {
        Function::Load => {
            r.b = r.a;
            r.a = d;
        }
        Function::Store => {
            if !set_word(store, d, r.a) {
                return None;
            }
        }
        Function::Add => r.a = word::sum(r.a, d),
        Function::Jump => r.c = d,
        Function::JumpTrue => {
            if r.a != 0 {
                r.c = d;
            }
        }
        Function::JumpFalse => {
            if r.a == 0 {
                r.c = d;
            }
        }
        Function::Call => return call(store, r, d),
        Function::Operate => return operate(store, r, operation_of(d)),
    }
    Some(Effect::Goes)
}

/// A step on a word of this form, with C after it.
#[inline(always)]
fn step_as(store: &mut [u32], r: &mut Registers, form: u32, word: u32) -> Option<Effect>
    ensures turn { step_on store.old r.old form word ≡ turn_of result store.new r.new }
    ensures own { OwnEnd result }
    ensures kept { Stays result store.old r.old store.new r.new }
{
    let before = r.c;
    let (d, c) = operand_of(store, before, r.p, form, word)?;
    r.c = c;
    let effect = execute(store, r, function_of(form), d);
    if effect.is_none() {
        r.c = before;
    }
    effect
}

// One dispatch a step: an arm for each form of a word, so that the form is not compared with a limit first. In the first arms
// the form is a constant. The other forms are operations whose operand is more than the address field: they are rare, and share
// the code after the match.
macro_rules! step_by_form {
    ($store:ident, $r:ident, $word:ident; $($form:literal)*; $($other:literal)*) => {
        match $word / LONG_ADDRESS {
            $($form => return step_as($store, $r, $form, $word),)*
            $($other => {})*
            _ => unreachable!(),
        }
    };
}

/// One step: None where it leads outside the store. Then the store stays, and of the registers C alone is another, the place after
/// the word.
#[inline(always)]
fn step(store: &mut [u32], r: &mut Registers) -> Option<Effect>
    ensures turn { step_of store.old r.old ≡ turn_of result store.new r.new }
    ensures own { OwnEnd result }
    ensures kept { Stays result store.old (record r.old { c = word_sum r.old.c 1 }) store.new r.new }
{
    let c = r.c;
    r.c = word::sum(c, 1);
    let word = word_at(store, c)?;
    step_by_form!(store, r, word;
        0 1 2 3 4 5 6 7 8 9 10 11 12 13 14 15
        16 17 18 19 20 21 22 23 24 25 26 27 28 29 30 31
        32 33 34 35 36 37 38 39 40 41 42 43 44 45 46 47
        48 49 50 51 52 53 54 55 56 57 58 59 60 61 62 63
        64 65 66 67 68 69 70 71 72 73 74 75 76 77 78 79
        80 81 82 83 84 85 86 87 88 89 90 91 92 93 94 95
        96 97 98 99 100 101 102 103 104 105 106 107 108 109 110 111 112;
        113 114 115 116 117 118 119 120 121 122 123 124 125 126 127);
    step_as(store, r, word / LONG_ADDRESS, word)
}

/// One step: None where it leads outside the store. Then the store and the registers are as before.
#[inline(always)]
pub fn step_or_stay(store: &mut [u32], r: &mut Registers) -> Option<Effect>
    ensures turn { step_of store.old r.old ≡ turn_of result store.new r.new }
    ensures own { OwnEnd result }
    ensures kept { Stays result store.old r.old store.new r.new }
{
    let c = r.c;
    let effect = step(store, r);
    if effect.is_none() {
        r.c = word::difference(r.c, 1);
        prove!(r.c == c);
    }
    effect
}
