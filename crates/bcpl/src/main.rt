//! The program: it makes the devices, opens FILE, prints help, and leaves the rest to the library.
#![tactic(auto)]

mod by_lines;
mod opened;
mod painted;

use bk_base::{ByteOut, Reader512, Writer512};
use bk_kit::{Files, LineFault, Order, further_hints, order, refuse, report_hints, serve_named};
use by_lines::ByLines;
use opened::{Named, Opened, Source, open};
use painted::Painted;
use std::cell::Cell;
use std::fs::File;
use std::io::{ErrorKind, IsTerminal};
use std::process::ExitCode;
use std::{env, fs, io};

/// A file that is named, or one that could not be opened, and why.
fn opened_at(rt: &HostRuntime, name: Option<&str>) -> (Opened<File>, Option<ErrorKind>) {
    let Some(name) = name else {
        return (Opened::new(None), None);
    };
    match open(rt, name) {
        Ok(file) => (Opened::new(Some(file)), None),
        Err(error) => (Opened::new(None), Some(error.kind())),
    }
}

/// FILE, where `-` is the standard input, and why it could not be opened.
fn source_at(rt: &HostRuntime, name: Option<&str>) -> (Source, Option<ErrorKind>) {
    match name {
        Some(name) if name == "-" => (Source::Input(rt.stdin()), None),
        _ => {
            let (file, cause) = opened_at(rt, name);
            (Source::File(file), cause)
        }
    }
}

/// Does what is ordered, with these streams for output and lines, and answers the status.
fn done<O: ByteOut, E: ByteOut>(rt: &HostRuntime, order: &Order, out: &mut O, err: &mut E) -> u8 {
    let (file, cause) = source_at(rt, order.file());
    let (ocode, _) = opened_at(rt, order.ocode());
    let mut files = Files {
        file: Reader512::new(Named::new(file)),
        ocode: Reader512::new(Source::File(ocode)),
    };
    let mut input = Reader512::new(Source::Input(rt.stdin()));
    let status = serve_named(rt.alloc(), order, &mut files, &mut input, out, err);
    report_cause(order, cause, err);
    if status == REFUSED {
        report_further(rt, order, err);
    }
    status
}

/// The status of a source that is refused.
const REFUSED: u8 = 101;

/// Reports the faults of later sections of a source that `check` refused. FILE is read again from its beginning, where it is a plain file.
#[cold]
#[inline(never)]
fn report_further<E: ByteOut>(rt: &HostRuntime, order: &Order, err: &mut E) {
    let Order::Check(_, name) = order else {
        return;
    };
    let is_plain = match fs::metadata(rt, name.as_str()) {
        Ok(found) => found.is_file(),
        Err(_) => false,
    };
    if name.as_str() == "-" || !is_plain {
        return;
    }
    let (source, _) = source_at(rt, Some(name.as_str()));
    let hints = further_hints(rt.alloc(), &mut Reader512::new(Named::new(source)));
    report_hints(&hints, name.as_str(), err);
}

/// What is below the line of a command line without words.
const USAGE: &str = "\
Usage: bcpl [COMMAND]
  bcpl check FILE  does what the BCPL source in FILE means, and tells what goes wrong
  bcpl run FILE    runs it
  bcpl help        shows all commands
";

/// Writes a text on the error stream and passes it on. A failure of that stream changes nothing.
fn report<E: ByteOut>(text: &[u8], err: &mut E) {
    for byte in text {
        if err.put(*byte).is_err() {
            return;
        }
    }
    let _passed = err.flush();
}

/// Why a file could not be opened, as a line ends that begins with its name.
fn cause_text(cause: ErrorKind) -> &'static str {
    match cause {
        ErrorKind::NotFound => ": no such file\n",
        ErrorKind::PermissionDenied => ": permission denied\n",
        _ => ": this can't be opened\n",
    }
}

/// Writes why FILE could not be opened, where it is to be checked.
fn report_cause<E: ByteOut>(order: &Order, cause: Option<ErrorKind>, err: &mut E) {
    let Some(cause) = cause else {
        return;
    };
    if let Order::Check(_, name) = order {
        report(name.as_bytes(), err);
        report(cause_text(cause).as_bytes(), err);
    }
}

/// What is reported where the words of the command line can't be had: memory was refused, or one of them is not UTF-8.
fn unread(error: &io::Error) -> LineFault {
    match error.kind() {
        ErrorKind::OutOfMemory => LineFault::Memory,
        _ => LineFault::Bad,
    }
}

/// Whether a terminal is to show colours: neither is NO_COLOR set, nor is TERM `dumb`.
fn has_colours(rt: &HostRuntime) -> bool {
    let is_plain = match env::var(rt, "NO_COLOR") {
        Ok(given) => !given.is_empty(),
        Err(_) => false,
    };
    let is_dumb = match env::var(rt, "TERM") {
        Ok(name) => name.as_str() == "dumb",
        Err(_) => true,
    };
    !is_plain && !is_dumb
}

fn main(rt: HostRuntime) -> ExitCode {
    let is_within_line = Cell::new(false);
    let stderr = rt.stderr();
    let is_seen = stderr.is_terminal();
    let mut err = Painted::new(
        rt.alloc(),
        Writer512::new(stderr),
        is_seen,
        is_seen && has_colours(&rt),
        &is_within_line,
    );
    let args = match env::args(&rt) {
        Ok(args) => args,
        Err(error) => return ExitCode::from(refuse(&unread(&error), &mut err)),
    };
    let Ok(words) = args.collect::<Vec<String>>(rt.alloc()) else {
        return ExitCode::from(refuse(&LineFault::Memory, &mut err));
    };
    let order = match order(rt.alloc(), words.as_slice()) {
        Ok(order) => order,
        Err(fault) => {
            if let LineFault::Help(help) = &fault {
                let _printed = help.print(&rt);
            }
            let status = refuse(&fault, &mut err);
            if words.len() <= 1 {
                report(USAGE.as_bytes(), &mut err);
            }
            return ExitCode::from(status);
        }
    };
    let stdout = rt.stdout();
    let is_shown = stdout.is_terminal();
    let mut out = ByLines::new(Writer512::new(stdout), is_shown, &is_within_line);
    ExitCode::from(done(&rt, &order, &mut out, &mut err))
}
