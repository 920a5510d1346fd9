//! The machine after some steps.
ghost use Rattle.std.specs.Prelude.{◌≡◌, ◌≤◌, ◌⊎◌, IfOk, IfErr, length, take, min};
ghost use Rattle.bk_base.specs.declared.limit.TheConstants.{STORE_LEAST, STORE_MOST};
ghost use Rattle.bk_machine.specs.State.{store_of, words_of};
ghost use Rattle.bk_machine.specs.Runs.{HeldBy};
ghost use Rattle.bk_web.specs.Page.{LoadsText, RefusesText, Steps, RunsNothing};

use crate::answer::Standing;
use crate::kept::{Kept, copy_front};
use bk_base::limit::{STORE_LEAST, STORE_MOST};
use bk_base::{ByteIn, End, Reader512};
use bk_filters::{KitFault, load_code};
use bk_kit::{status_of_end, status_of_fault};
use bk_machine::Machine;
use bk_show::{Step, put_step};
use std::alloc::Global;

/// The status where no store has so many words.
const BAD_WORDS: u8 = 112;

/// Reads all segments of a text and loads them into a store of so many words.
fn load_text(alloc: Global, code: &[u8], words: u32) -> Result<Machine, KitFault>
    requires least { STORE_LEAST ≤ words }
    requires most { words ≤ STORE_MOST }
    ensures loaded { IfOk result (λ machine. LoadsText machine words code.now) }
    ensures refused { IfErr result (λ fault. RefusesText fault words code.now) }
{
    load_code(alloc, &mut Reader512::new(code), words)
}

/// Copies the front of the store, as many of its words as fit, and answers how many.
fn copy_words(machine: &Machine, words: u32, to: &mut [u32]) -> usize
    requires { words_of machine.now ≡ words }
    ensures count { result ≡ min (length (store_of machine.now)) (length to.old) }
    ensures front { take result to.new ≡ take result (store_of machine.now) }
    ensures len { length to.new ≡ length to.old }
{
    let mut at = 0;
    while (at as usize) < to.len() {
        let Some(word) = machine.word(at) else {
            break;
        };
        to[at as usize] = word;
        at += 1;
    }
    at as usize
}

/// The step of this number, before it is done.
fn next_step(machine: &Machine, number: u64) -> Step {
    let at = machine.registers().c;
    Step {
        number,
        at,
        word: machine.word(at),
        next: machine.word(at.wrapping_add(1)),
        after: None,
    }
}

/// Writes the line of the next step where there is one, and answers how many bytes it has.
fn report_next(alloc: Global, machine: &Machine, end: End, steps: u64, line: &mut [u8]) -> usize
    ensures len { length line.new ≡ length line.old }
{
    let mut text = Kept::new(alloc, line.len());
    if end == End::StepLimit {
        let _put = put_step(
            alloc,
            &next_step(machine, steps.saturating_add(1)),
            &mut text,
        );
    }
    copy_front(text.bytes(), line)
}

/// Loads a text of INTCODE into a store of so many words, and does so many steps. `out` is given the front of the output, `line` the
/// line of the next step (as `bcpl interpret --trace` has it, without the registers), and `store` the front of the store.
#[unsafe(no_mangle)]
pub extern "C" fn bk_step<'a>(
    alloc: Global,
    code: &[u8],
    input: &'a [u8],
    steps: u64,
    words: u32,
    out: &mut [u8],
    line: &mut [u8],
    store: &mut [u32],
    standing: &mut Standing,
)
    ensures stepped { Steps (HeldBy ⟦<Reader512<&'a [u8]> as ByteIn>⟧.held) code.now input.now steps words standing.new out.new
        store.new ⊎ RunsNothing code.now words standing.new }
    ensures rooms { (length out.new ≡ length out.old) × (length line.new ≡ length line.old) × (length store.new ≡ length store.old) }
{
    if words < STORE_LEAST || words > STORE_MOST {
        *standing = Standing::not_loaded(BAD_WORDS);
        return;
    }
    let mut machine = match load_text(alloc, code, words) {
        Ok(machine) => machine,
        Err(fault) => {
            *standing = Standing::not_loaded(status_of_fault(&fault));
            return;
        }
    };
    let mut output = Kept::new(alloc, out.len());
    let end = machine.run(steps, &mut Reader512::new(input), &mut output);
    let registers = machine.registers();
    *standing = Standing {
        output: copy_front(output.bytes(), out),
        line: report_next(alloc, &machine, end, steps, line),
        words: copy_words(&machine, words, store),
        c: registers.c,
        p: registers.p,
        a: registers.a,
        b: registers.b,
        stack: machine.sizes().image,
        status: status_of_end(end),
    };
}
