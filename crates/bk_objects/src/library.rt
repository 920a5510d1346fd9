//! What the routines of the library do.
ghost use Rattle.std.specs.Prelude.{◌≡◌, ℕ, IfOk, OnErr, map};
ghost use Rattle.bk_meaning.specs.Values as v;
ghost use Rattle.bk_meaning.specs.Causes;
ghost use Rattle.bk_meaning.specs.World.{World, remembering, undefined};
ghost use Rattle.bk_meaning.specs.Library.{library};
ghost use Rattle.bk_objects.specs.Views.{routine_in, value_in, cause_in};
ghost use Rattle.bk_objects.specs.Texts.{outcome_in};

use crate::bytes::{read_byte, write_byte};
use crate::computed::{Misuse, Reason};
use crate::store::Store;
use crate::text::{add_aligned, add_digits, add_format, add_string};
use crate::worth::{Origin, Routine, Worth};
use std::alloc::{AllocError, Global};

/// What a routine does.
#[derive(Debug, Drop)]
pub enum Effect {
    /// It ends the program with this status.
    Stops(u32),
    /// It takes a byte of the input, and gives it, or -1 at the end.
    TakesByte,
    /// It writes these bytes, and gives nothing that is set.
    Writes(Vec<u8>),
    /// It gives this value.
    Gives(Worth),
    /// It is undefined.
    Undefined(Misuse),
}

/// An argument, by its number from 1, with which a call is undefined.
fn misuse(argument: usize, reason: Reason) -> Effect
    ensures { (l : ℕ) (w : World) → outcome_in l result w ≡ undefined l (Causes.argument argument (cause_in reason)) w }
{
    Effect::Undefined(Misuse {
        argument,
        directive: None,
        reason,
    })
}

/// The number of the argument with which a routine for bytes is undefined, from 1.
fn byte_argument(reason: Reason) -> usize
    ensures { Causes.argument result (cause_in reason) ≡ Causes.of_arguments (cause_in reason) }
{
    match reason {
        Reason::NoNumber(_) => 2,
        Reason::NoByte(_) => 3,
        _ => 1,
    }
}

/// STOP ends the program with a status.
fn stop(arguments: &[Worth]) -> Effect
    ensures { (l : ℕ) (w : World) → outcome_in l result w ≡ library l v.stop (map value_in arguments.now) w }
{
    match arguments {
        [] => misuse(1, Reason::Argument),
        [Worth::Number(status), ..] => Effect::Stops(*status),
        [x, ..] => misuse(1, Reason::NoNumber(*x)),
    }
}

/// WRCH writes the lowest byte of a number.
fn wrch(alloc: Global, arguments: &[Worth]) -> Result<Effect, AllocError>
    ensures { IfOk result (λ effect. (l : ℕ) (w : World) → outcome_in l effect w ≡ library l v.wrch (map value_in arguments.now) w) }
{
    match arguments {
        [] => Ok(misuse(1, Reason::Argument)),
        [Worth::Number(number), ..] => {
            let mut text = Vec::new(alloc);
            text.push((*number % 256) as u8)?;
            Ok(Effect::Writes(text))
        }
        [x, ..] => Ok(misuse(1, Reason::NoNumber(*x))),
    }
}

/// WRITES writes a string.
fn writes(alloc: Global, store: &Store, arguments: &[Worth]) -> Result<Effect, AllocError>
    ensures { IfOk result (λ effect. (l : ℕ) (w : World) → w.memory ≡ store.now → outcome_in l effect w ≡ library l v.writes (map value_in arguments.now) w) }
{
    let Some(at) = arguments.first() else {
        return Ok(misuse(1, Reason::Argument));
    };
    let mut text = Vec::new(alloc);
    match add_string(store, *at, &mut text)? {
        Ok(()) => Ok(Effect::Writes(text)),
        Err(reason) => Ok(misuse(1, reason)),
    }
}

/// WRITEN writes a signed number.
fn writen(alloc: Global, arguments: &[Worth]) -> Result<Effect, AllocError>
    ensures { IfOk result (λ effect. (l : ℕ) (w : World) → outcome_in l effect w ≡ library l v.writen (map value_in arguments.now) w) }
{
    match arguments {
        [] => Ok(misuse(1, Reason::Argument)),
        [Worth::Number(number), ..] => {
            let mut text = Vec::new(alloc);
            add_digits(*number, &mut text)?;
            Ok(Effect::Writes(text))
        }
        [x, ..] => Ok(misuse(1, Reason::NoNumber(*x))),
    }
}

/// WRITED writes a signed number, with blanks before it up to a width.
fn writed(alloc: Global, arguments: &[Worth]) -> Result<Effect, AllocError>
    ensures { IfOk result (λ effect. (l : ℕ) (w : World) → outcome_in l effect w ≡ library l v.writed (map value_in arguments.now) w) }
{
    match arguments {
        [] | [_] => Ok(misuse(arguments.len().saturating_add(1), Reason::Argument)),
        [Worth::Number(number), Worth::Number(width), ..] => {
            let mut text = Vec::new(alloc);
            add_aligned(*number, *width, &mut text)?;
            Ok(Effect::Writes(text))
        }
        [Worth::Number(_), x, ..] => Ok(misuse(2, Reason::NoNumber(*x))),
        [x, _, ..] => Ok(misuse(1, Reason::NoNumber(*x))),
    }
}

/// GETBYTE gives a byte of a string, by its number.
fn getbyte(store: &Store, arguments: &[Worth]) -> Effect
    ensures { (l : ℕ) (w : World) → w.memory ≡ store.now → outcome_in l result w ≡ library l v.getbyte (map value_in arguments.now) w }
{
    match arguments {
        [at, i, ..] => match read_byte(store, *at, *i) {
            Ok(byte) => Effect::Gives(Worth::Number(u32::from(byte))),
            Err(reason) => misuse(byte_argument(reason), reason),
        },
        _ => misuse(arguments.len().saturating_add(1), Reason::Argument),
    }
}

/// PUTBYTE sets a byte of a string, by its number.
fn putbyte(store: &mut Store, arguments: &[Worth]) -> Effect
    ensures { (l : ℕ) (w : World) → w.memory ≡ store.old → outcome_in l result (remembering store.new w) ≡ library l v.putbyte (map value_in arguments.now) w }
{
    match arguments {
        [at, i, byte, ..] => match write_byte(store, *at, *i, *byte) {
            Ok(()) => Effect::Gives(Worth::Unset(Origin::Library(Routine::Putbyte))),
            Err(reason) => misuse(byte_argument(reason), reason),
        },
        _ => misuse(arguments.len().saturating_add(1), Reason::Argument),
    }
}

/// WRITEF writes a format with its arguments.
fn writef(alloc: Global, store: &Store, arguments: &[Worth]) -> Result<Effect, AllocError>
    ensures { IfOk result (λ effect. (l : ℕ) (w : World) → w.memory ≡ store.now → outcome_in l effect w ≡ library l v.writef (map value_in arguments.now) w) }
{
    let Some((at, others)) = arguments.split_first() else {
        return Ok(misuse(1, Reason::Argument));
    };
    let mut format = Vec::new(alloc);
    if let Err(reason) = add_string(store, *at, &mut format)? {
        return Ok(misuse(1, reason));
    }
    let mut text = Vec::new(alloc);
    match add_format(store, &format, others, &mut text)? {
        Ok(()) => Ok(Effect::Writes(text)),
        Err(misuse) => Ok(Effect::Undefined(misuse)),
    }
}

/// What a routine of the library does with these arguments. Input and output are left to the caller: an effect says what to
/// take or to write. Only PUTBYTE changes the store. Memory may be refused for a text.
pub fn perform(
    alloc: Global,
    store: &mut Store,
    routine: Routine,
    arguments: &[Worth],
) -> Result<Effect, AllocError>
    ensures { IfOk result (λ effect. (l : ℕ) (w : World) → w.memory ≡ store.old →
        outcome_in l effect (remembering store.new w) ≡ library l (routine_in routine) (map value_in arguments.now) w) }
{
    match routine {
        Routine::Stop => Ok(stop(arguments)),
        Routine::Rdch => Ok(Effect::TakesByte),
        Routine::Wrch => wrch(alloc, arguments),
        Routine::Newline => {
            let mut text = Vec::new(alloc);
            text.push(b'\n')?;
            Ok(Effect::Writes(text))
        }
        Routine::Writes => writes(alloc, store, arguments),
        Routine::Writen => writen(alloc, arguments),
        Routine::Writed => writed(alloc, arguments),
        Routine::Getbyte => Ok(getbyte(store, arguments)),
        Routine::Putbyte => Ok(putbyte(store, arguments)),
        Routine::Writef => writef(alloc, store, arguments),
    }
}
