//! A command line over bytes.
ghost use Rattle.std.specs.Prelude.{◌≡◌, ◌⊎◌, IfOk, IfErr, length, map};
ghost use Rattle.clap.specs.Words.{subcommand_of};
ghost use Rattle.bk_machine.specs.Runs.{HeldBy};
ghost use Rattle.bk_filters.specs.Telling.{Tells};
ghost use Rattle.bk_kit.specs.CommandLine.{kit_command, Reads};
ghost use Rattle.bk_kit.specs.Statuses.{refusal_status, refusal_line};
ghost use Rattle.bk_web.specs.Kept.{kept_of, report_of, IsFresh};
ghost use Rattle.bk_web.specs.Page.{texts_of, RefusesBytes, IsHelp, Commands, Answers};

use crate::answer::Answer;
use crate::kept::{Kept, copy_front};
use bk_base::{ByteIn, Reader512, put_all};
use bk_kit::{Files, LineFault, Order, order, refuse, serve_named};
use std::alloc::{AllocError, Global};

/// The words of a text, which line feeds separate.
fn words_of<'a>(alloc: Global, text: &'a str) -> Result<Vec<&'a str>, AllocError>
    ensures { IfOk result (λ words. map (λ word. word.now) words.items ≡ texts_of text.now) }
{
    let mut words = Vec::new(alloc);
    let mut rest = text;
    while let Some((word, others)) = rest.split_once('\n') {
        words.push(word)?;
        rest = others;
    }
    words.push(rest)?;
    Ok(words)
}

/// The order of the words in these bytes.
fn order_of(alloc: Global, bytes: &[u8]) -> Result<Order, LineFault>
    ensures reads { IfOk result (Reads (subcommand_of kit_command (texts_of bytes.now))) }
    ensures refuses { IfErr result (RefusesBytes bytes.now) }
{
    let Ok(text) = str::from_utf8(bytes) else {
        return Err(LineFault::Bad);
    };
    let Ok(words) = words_of(alloc, text) else {
        return Err(LineFault::Memory);
    };
    order(alloc, words.as_slice())
}

/// Puts the text of help, as far as there is room for it.
fn put_help(alloc: Global, help: &clap::Error, out: &mut Kept) {
    let Ok(text) = format!(in alloc; "{help}") else {
        return;
    };
    let _put = put_all(out, text.as_bytes());
}

/// Writes the line of words that give no order, or the help that they ask for, and answers the status.
fn refuse_words(alloc: Global, fault: &LineFault, out: &mut Kept, err: &mut Kept) -> u8
    ensures status { result ≡ refusal_status fault.now }
    ensures line { Tells (refusal_line fault.now) (report_of err.old) (report_of err.new) }
    ensures nothing { IsHelp fault.now ⊎ (out.new ≡ out.old) }
{
    if let LineFault::Help(help) = fault {
        put_help(alloc, help, out);
    }
    refuse(fault, err)
}

/// Serves the words over these bytes, and answers the status.
fn serve_words<'a>(
    alloc: Global,
    words: &[u8],
    file: &[u8],
    ocode: &[u8],
    input: &'a [u8],
    out: &mut Kept,
    err: &mut Kept,
) -> u8
    requires fresh { IsFresh out.old × IsFresh err.old }
    ensures served { Commands (HeldBy ⟦<Reader512<&'a [u8]> as ByteIn>⟧.held) words.now file.now ocode.now input.now result
        (kept_of out.new) (kept_of err.new) }
{
    match order_of(alloc, words) {
        Ok(order) => {
            let mut files = Files {
                file: Reader512::new(file),
                ocode: Reader512::new(ocode),
            };
            let mut input = Reader512::new(input);
            serve_named(alloc, &order, &mut files, &mut input, out, err)
        }
        Err(fault) => refuse_words(alloc, &fault, out, err),
    }
}

/// Does what a command line of the kit asks for: its words, which line feeds separate (the first is the name of the
/// program), the bytes of FILE, those of the file of `--ocode`, and those of the input. `out` and `err` are given the fronts of
/// the output and of the lines on the error stream. A write past the end of either fails, as on a full disk.
#[unsafe(no_mangle)]
pub extern "C" fn bk_serve<'a>(
    alloc: Global,
    words: &[u8],
    file: &[u8],
    ocode: &[u8],
    input: &'a [u8],
    out: &mut [u8],
    err: &mut [u8],
    answer: &mut Answer,
)
    ensures answers { Answers (HeldBy ⟦<Reader512<&'a [u8]> as ByteIn>⟧.held) words.now file.now ocode.now input.now answer.new.status
        answer.new.output answer.new.lines out.new err.new }
    ensures rooms { (length out.new ≡ length out.old) × (length err.new ≡ length err.old) }
{
    let mut output = Kept::new(alloc, out.len());
    let mut lines = Kept::new(alloc, err.len());
    answer.status = serve_words(alloc, words, file, ocode, input, &mut output, &mut lines);
    answer.output = copy_front(output.bytes(), out);
    answer.lines = copy_front(lines.bytes(), err);
}
