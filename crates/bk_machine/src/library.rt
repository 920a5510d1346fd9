//! What is in the store below the segments.
ghost use Rattle.std.specs.Prelude.{◌≡◌, ◌+◌, ◌<◌, ◌≤◌, [], ◌++◌, OnOk, fold, length, replicate, vec_len};
ghost use Rattle.bk_machine.specs.Placement.{operation_word, start_words, library_words, library_settings, routine_words, with_setting};

use crate::item::Function;
use crate::packing::fields;
use std::alloc::AllocError;

/// Where global 0 is.
pub(crate) const GLOBAL_0: u32 = 16;
/// Where the first routine of the library is.
const FIRST_ROUTINE: u32 = 1016;
/// The first word of the segments.
pub(crate) const FIRST_SEGMENT: u32 = 1034;
/// The operation that returns from a routine.
const RETURN: u32 = 4;

/// The instruction that does an operation.
fn operation_word(operation: u32) -> u32
    requires { operation < 64 }
    ensures { result ≡ operation_word operation }
{
    fields(Function::Operate, false, false, false, false) + operation
}

/// Puts words 0 to 15 after the others: the start at word 1, and the routine of global 11 at word 4.
fn push_start(words: &mut Vec<u32>) -> Result<(), AllocError>
    ensures { OnOk result (words.new.items ≡ words.old.items ++ start_words) }
{
    let start = [
        0,
        fields(Function::Load, true, false, true, false) + 1,
        fields(Function::Call, false, false, false, false),
        operation_word(22),
        operation_word(33),
        operation_word(RETURN),
    ];
    words.extend_from_slice(&start)?;
    words.resize(words.len() + 10, 0)?;
    Ok(())
}

/// Puts the routines of the globals 2 to 10 after the words.
fn push_routines(words: &mut Vec<u32>) -> Result<(), AllocError>
    ensures { OnOk result (words.new.items ≡ words.old.items ++ library_words) }
{
    for global in 2..11 {
        words.push(operation_word(global + 22))?;
        words.push(operation_word(RETURN))?;
    }
    Ok(())
}

/// Sets the globals 2 to 11 to their routines.
fn set_globals(words: &mut Vec<u32>)
    requires { 27 < vec_len words.old }
    ensures { words.new.items ≡ fold with_setting words.old.items library_settings }
{
    for global in 2..11 {
        words[(GLOBAL_0 + global) as usize] = FIRST_ROUTINE + 2 * (global - 2);
    }
    words[(GLOBAL_0 + 11) as usize] = 4;
}

/// Puts the words below the segments after none, with the library's globals set.
pub(crate) fn push_library(words: &mut Vec<u32>) -> Result<(), AllocError>
    requires { words.old.items ≡ [] }
    ensures { OnOk result (words.new.items
        ≡ fold with_setting (start_words ++ replicate 1000 0 ++ library_words) library_settings) }
{
    push_start(words)?;
    words.resize(FIRST_ROUTINE as usize, 0)?;
    push_routines(words)?;
    set_globals(words);
    Ok(())
}
