//! Exit statuses, and the lines that report them.
ghost use Rattle.std.specs.Prelude.{◌≡◌, map, decimal};
ghost use Rattle.bk_filters.specs.FaultLine.{fault_text, line_of};
ghost use Rattle.bk_filters.specs.Telling.{ReportsLine, Tells, output};
ghost use Rattle.bk_filters.specs.Pieces.{joined};
ghost use Rattle.bk_kit.specs.Statuses.{stop_status, end_status, end_line, fault_status, run_status, run_line, done_status, done_line};
ghost use Rattle.bk_kit.specs.Checking.{verdict_status, check_fault_status, check_fault_text, check_status, placed_text, notice_text, remark_text, hint_text, verdict_text, limit_text, ReportsEach, ReportsCheck};

use crate::checker::NotChecked;
use bk_base::{ByteOut, End, Line};
use bk_checker::{CheckFault, Notice, Remark, Report, Verdict};
use bk_filters::{KitFault, put_pieces, put_text};
use itoa::Buffer;

/// The status for STOP of a number.
fn status_of_stop(number: i32) -> u8
    ensures { result ≡ stop_status number }
{
    if number >= 0 && number < 100 {
        number as u8
    } else {
        100
    }
}

/// The exit status for the end of a run: for STOP(n) it is n from 0 to 99, and 100 for another n; the other ends have numbers from
/// 104. The numbers are this project's own; `docs/FAULTS.md` lists them.
pub fn status_of_end(end: End) -> u8
    ensures { result ≡ end_status end }
{
    match end {
        End::Status(number) => status_of_stop(number),
        End::DivideByZero => 104,
        End::StoreLimit => 105,
        End::StepLimit => 106,
        End::BadOperation => 107,
        End::ReadFault => 109,
        End::WriteFault => 110,
    }
}

/// The exit status for a fault, from 101 to 111, as `docs/FAULTS.md` lists them.
pub fn status_of_fault(fault: &KitFault) -> u8
    ensures { result ≡ fault_status fault.now }
{
    match fault {
        KitFault::Source(_) => 101,
        KitFault::Ocode(_, _) => 102,
        KitFault::Intcode(_, _) => 103,
        KitFault::TooSmall => 105,
        KitFault::NoStart => 108,
        KitFault::Read => 109,
        KitFault::Write => 110,
        KitFault::Memory => 111,
    }
}

/// Writes a line on the error stream and passes it on. A failure of that stream changes nothing.
fn report_line<E: ByteOut>(text: &str, err: &mut E)
    ensures { ReportsLine (line_of text.now) (output E.ByteOut err.old) (output E.ByteOut err.new) }
{
    if put_text(text, err).is_ok() {
        let _passed = err.flush();
    }
}

/// Writes a line on the error stream, and answers the status.
pub fn report_text<E: ByteOut>(text: &str, status: u8, err: &mut E) -> u8
    ensures status { result ≡ status }
    ensures line { ReportsLine (line_of text.now) (output E.ByteOut err.old) (output E.ByteOut err.new) }
{
    report_line(text, err);
    status
}

/// Writes the line of a fault on the error stream and passes it on.
fn report_fault_line<E: ByteOut>(fault: &KitFault, err: &mut E)
    ensures { ReportsLine (line_of (fault_text fault.now)) (output E.ByteOut err.old) (output E.ByteOut err.new) }
{
    if fault.put_line(err).is_ok() {
        let _passed = err.flush();
    }
}

/// Writes the line of a fault on the error stream, and answers the status.
fn report_fault<E: ByteOut>(fault: &KitFault, err: &mut E) -> u8
    ensures status { result ≡ fault_status fault.now }
    ensures line { ReportsLine (line_of (fault_text fault.now)) (output E.ByteOut err.old) (output E.ByteOut err.new) }
{
    report_fault_line(fault, err);
    status_of_fault(fault)
}

/// Writes the line of an end on the error stream if it has one, and answers the status.
fn report_end<E: ByteOut>(end: End, err: &mut E) -> u8
    ensures status { result ≡ end_status end }
    ensures line { Tells (end_line end) (output E.ByteOut err.old) (output E.ByteOut err.new) }
{
    let status = status_of_end(end);
    match end {
        End::Status(_) => status,
        End::DivideByZero => report_text("division by zero", status, err),
        End::StoreLimit => report_text("store limit", status, err),
        End::StepLimit => report_text("step limit", status, err),
        End::BadOperation => report_text("bad operation", status, err),
        End::ReadFault => report_text("read fault", status, err),
        End::WriteFault => report_text("write fault", status, err),
    }
}

/// Writes the line for the answer of a run on the error stream if it has one, and answers the status.
pub fn report_run<E: ByteOut>(answer: &Result<End, KitFault>, err: &mut E) -> u8
    ensures status { result ≡ run_status answer.now }
    ensures line { Tells (run_line answer.now) (output E.ByteOut err.old) (output E.ByteOut err.new) }
{
    match answer {
        Ok(end) => report_end(*end, err),
        Err(fault) => report_fault(fault, err),
    }
}

/// Writes the line for the answer of a call that only writes on the error stream if it has one, and answers the status.
pub fn report_done<E: ByteOut>(answer: &Result<(), KitFault>, err: &mut E) -> u8
    ensures status { result ≡ done_status answer.now }
    ensures line { Tells (done_line answer.now) (output E.ByteOut err.old) (output E.ByteOut err.new) }
{
    match answer {
        Ok(()) => 0,
        Err(fault) => report_fault(fault, err),
    }
}

/// Writes pieces of text on the error stream and passes them on. A failure of that stream changes nothing.
fn report_pieces<E: ByteOut>(pieces: &[&[u8]], err: &mut E)
    ensures { ReportsLine (joined pieces.now) (output E.ByteOut err.old) (output E.ByteOut err.new) }
{
    if put_pieces(err, pieces).is_ok() {
        let _passed = err.flush();
    }
}

/// Writes what went wrong in a check: the name of FILE, the number of the line, what kind of thing it is, what it is, and the calls that
/// were active.
fn report_parts<'a, E: ByteOut>(
    file: &'a [u8],
    line: &'a [u8],
    kind: &'a [u8],
    what: &'a [u8],
    calls: &'a [u8],
    err: &mut E,
)
    ensures { ReportsLine (placed_text file.now line.now kind.now what.now calls.now) (output E.ByteOut err.old) (output E.ByteOut err.new) }
{
    report_pieces(&[file, b":", line, b": ", kind, what, b"\n", calls], err)
}

/// Writes what there is to say of a line of FILE, and further lines.
fn report_at<E: ByteOut>(
    line: Line,
    kind: &str,
    what: &[u8],
    further: &[u8],
    file: &str,
    err: &mut E,
)
    ensures { ReportsLine (placed_text file.now (decimal line) kind.now what.now further.now) (output E.ByteOut err.old) (output E.ByteOut err.new) }
{
    let mut number = Buffer::new();
    report_parts(
        file.as_bytes(),
        number.format(line.number()).as_bytes(),
        kind.as_bytes(),
        what,
        further,
        err,
    )
}

/// Writes a notice of this kind.
fn report_notice<E: ByteOut>(notice: &Notice, kind: &str, file: &str, err: &mut E)
    ensures { ReportsLine (notice_text file.now kind.now notice.now) (output E.ByteOut err.old) (output E.ByteOut err.new) }
{
    if notice.place.is_empty() {
        return report_at(
            notice.at.line(),
            kind,
            &notice.what,
            &notice.further,
            file,
            err,
        );
    }
    report_parts(
        file.as_bytes(),
        &notice.place,
        kind.as_bytes(),
        &notice.what,
        &notice.further,
        err,
    )
}

/// Writes what is suspicious in the source, a line for each thing.
fn report_remarks<E: ByteOut>(remarks: &[Remark], file: &str, err: &mut E)
    ensures { ReportsEach (map (remark_text file.now) remarks.now) (output E.ByteOut err.old) (output E.ByteOut err.new) }
{
    match remarks.split_first() {
        None => {}
        Some((first, rest)) => {
            report_notice(&first.notice, "suspicious: ", file, err);
            report_remarks(rest, file, err)
        }
    }
}

/// The status for a verdict.
fn status_of_verdict(verdict: Verdict) -> u8
    ensures { result ≡ verdict_status verdict }
{
    match verdict {
        Verdict::Status(word) => if word < 100 { word as u8 } else { 100 },
        Verdict::DivideByZero => 104,
        Verdict::NoStart => 108,
        Verdict::Undefined { .. } => 113,
        Verdict::Turns => 106,
    }
}

/// Writes what is reported of a verdict on the error stream.
fn report_verdict<E: ByteOut>(report: &Report, file: &str, err: &mut E)
    ensures { Tells (verdict_text report.now.verdict file.now report.now) (output E.ByteOut err.old) (output E.ByteOut err.new) }
{
    match report.verdict {
        Verdict::Status(_) => {}
        Verdict::NoStart => report_line("no START", err),
        Verdict::DivideByZero | Verdict::Turns => report_notice(&report.stop, "", file, err),
        Verdict::Undefined { .. } => report_notice(&report.stop, "undefined: ", file, err),
    }
}

/// Writes the line for a check that was given up, and answers the status.
fn report_check_fault<E: ByteOut>(fault: CheckFault, err: &mut E) -> u8
    ensures status { result ≡ check_fault_status fault }
    ensures line { ReportsLine (line_of (check_fault_text fault)) (output E.ByteOut err.old) (output E.ByteOut err.new) }
{
    match fault {
        CheckFault::Memory => report_text("no memory", 111, err),
        CheckFault::TooDeep => report_text("too deep", 105, err),
        CheckFault::Read => report_text("read fault", 109, err),
        CheckFault::Write => report_text("write fault", 110, err),
    }
}

/// Writes where a check was given up, if that is known.
fn report_limit<E: ByteOut>(stop: &Option<Notice>, file: &str, err: &mut E)
    ensures { Tells (limit_text file.now stop.now) (output E.ByteOut err.old) (output E.ByteOut err.new) }
{
    if let Some(stop) = stop {
        report_notice(stop, "", file, err);
    }
}

/// Writes where a source is refused and what is meant, after the name of FILE, of each fault that is reported.
pub fn report_hints<E: ByteOut>(hints: &[Vec<u8>], file: &str, err: &mut E)
    ensures { ReportsEach (map (hint_text file.now) hints.now) (output E.ByteOut err.old) (output E.ByteOut err.new) }
{
    match hints.split_first() {
        None => {}
        Some((first, rest)) => {
            report_pieces(&[file.as_bytes(), first], err);
            report_hints(rest, file, err)
        }
    }
}

/// Writes what is reported of the answer of a check on the error stream, and answers the status. `file` is the name of FILE.
pub fn report_check<E: ByteOut>(answer: &Result<Report, NotChecked>, file: &str, err: &mut E) -> u8
    ensures status { result ≡ check_status answer.now }
    ensures reported { ReportsCheck file.now answer.now (output E.ByteOut err.old) (output E.ByteOut err.new) }
{
    match answer {
        Ok(report) => {
            report_verdict(report, file, err);
            report_remarks(&report.remarks, file, err);
            status_of_verdict(report.verdict)
        }
        Err(NotChecked::Text(refusal)) => {
            let status = report_fault(&refusal.fault, err);
            report_hints(&refusal.hints, file, err);
            status
        }
        Err(NotChecked::Run(given)) => {
            let status = report_check_fault(given.fault, err);
            report_limit(&given.stop, file, err);
            status
        }
    }
}
