//! Serving an order.
ghost use Rattle.std.specs.Prelude.{◌≡◌};
ghost use Rattle.bk_machine.specs.Runs.{HeldBy};
ghost use Rattle.bk_filters.specs.Telling.{Tells, output};
ghost use Rattle.bk_filters.specs.Interpreting.{streams};
ghost use Rattle.bk_kit.specs.declared.orders.Order.TheVariants.{TraceSource, Check};
ghost use Rattle.bk_kit.specs.Serving.{Serves, ServesNamed, LeavesFile, LeavesNames, LeavesInput};
ghost use Rattle.bk_kit.specs.Statuses.{refusal_status, refusal_line};
ghost use Rattle.bk_kit.specs.Tracing.{file_read};

use crate::checker::check_source;
use crate::command_line::LineFault;
use crate::cut::with_whole_line;
use crate::orders::{Files, Order};
use crate::showing::show_source;
use crate::source_trace::trace_source;
use crate::status::{report_check, report_done, report_run, report_text};
use crate::tracing::{trace, trace_named};
use bk_base::{ByteIn, ByteOut, Limits};
use bk_filters::{compile, generate_all, interpret, run_source, sizes};
use bk_show::Extent;
use std::alloc::Global;

/// Runs FILE with lines for its steps, and reports how it ends. `name` is the name of FILE.
fn serve_trace<F: ByteIn, I: ByteIn, O: ByteOut, E: ByteOut>(
    alloc: Global,
    limits: Limits,
    extent: &Extent,
    name: &String,
    file: &mut F,
    input: &mut I,
    out: &mut O,
    err: &mut E,
) -> u8
    ensures { Serves (HeldBy I.held) (TraceSource limits extent.now name.now) result
        (file_read F.ByteIn file.old file.new)
        (streams I.ByteIn O.ByteOut input.old out.old) (streams I.ByteIn O.ByteOut input.new out.new)
        (output E.ByteOut err.old) (output E.ByteOut err.new) }
{
    let answer = trace_source(alloc, file, limits, extent, input, out, err);
    report_run(&answer, err)
}

/// Checks FILE, and reports what goes wrong. `name` is the name of FILE.
fn serve_check<F: ByteIn, I: ByteIn, O: ByteOut, E: ByteOut>(
    alloc: Global,
    turns: u64,
    name: &String,
    file: &mut F,
    input: &mut I,
    out: &mut O,
    err: &mut E,
) -> u8
    ensures { Serves (HeldBy I.held) (Check turns name.now) result
        (file_read F.ByteIn file.old file.new)
        (streams I.ByteIn O.ByteOut input.old out.old) (streams I.ByteIn O.ByteOut input.new out.new)
        (output E.ByteOut err.old) (output E.ByteOut err.new) }
{
    let answer = check_source(alloc, file, turns, input, out);
    let answer = with_whole_line(alloc, file, answer);
    report_check(&answer, name.as_str(), err)
}

/// Does what an order asks for, and answers the exit status. `file` gives the bytes of FILE if the order has one. A trace writes no
/// names of procedures: `serve_named` does.
///
/// A fault or an abnormal end writes one line on the error stream, which is passed on; a failure of that stream changes
/// nothing.
pub fn serve<F: ByteIn, I: ByteIn, O: ByteOut, E: ByteOut>(
    alloc: Global,
    order: &Order,
    file: &mut F,
    input: &mut I,
    out: &mut O,
    err: &mut E,
) -> u8
    ensures serves { Serves (HeldBy I.held) order.now result
        (file_read F.ByteIn file.old file.new)
        (streams I.ByteIn O.ByteOut input.old out.old) (streams I.ByteIn O.ByteOut input.new out.new)
        (output E.ByteOut err.old) (output E.ByteOut err.new) }
    ensures leaves_file { LeavesFile order.now file.old file.new }
    ensures leaves_input { LeavesInput order.now input.old input.new }
{
    match order {
        Order::Compile => report_done(&compile(alloc, input, out), err),
        Order::Generate => report_done(&generate_all(alloc, input, out), err),
        Order::Run(limits, _) => {
            let answer = run_source(alloc, file, *limits, input, out);
            report_run(&answer, err)
        }
        Order::TraceSource(limits, extent, name) => {
            serve_trace(alloc, *limits, extent, name, file, input, out, err)
        }
        Order::Check(turns, name) => serve_check(alloc, *turns, name, file, input, out, err),
        Order::Show(part, _) => {
            let answer = show_source(alloc, file, *part, out);
            report_done(&answer, err)
        }
        Order::ShowInput(part) => {
            let answer = show_source(alloc, input, *part, out);
            report_done(&answer, err)
        }
        Order::Interpret(limits, _) => {
            let answer = interpret(alloc, file, *limits, input, out);
            report_run(&answer, err)
        }
        Order::Trace(limits, _, _) => {
            let answer = trace(alloc, file, *limits, input, out, err);
            report_run(&answer, err)
        }
        Order::Sizes(words, _) => {
            let answer = sizes(alloc, file, *words, out);
            report_done(&answer, err)
        }
    }
}

/// Does the same, with the OCODE that the order names if it has one: a trace reads it first, and takes the names of procedures from it. Its
/// fault is reported as one of FILE, of which nothing is read then.
pub fn serve_named<F: ByteIn, N: ByteIn, I: ByteIn, O: ByteOut, E: ByteOut>(
    alloc: Global,
    order: &Order,
    files: &mut Files<F, N>,
    input: &mut I,
    out: &mut O,
    err: &mut E,
) -> u8
    ensures serves { ServesNamed (HeldBy I.held) order.now result
        (file_read F.ByteIn files.old.file files.new.file)
        (file_read N.ByteIn files.old.ocode files.new.ocode)
        (streams I.ByteIn O.ByteOut input.old out.old) (streams I.ByteIn O.ByteOut input.new out.new)
        (output E.ByteOut err.old) (output E.ByteOut err.new) }
    ensures leaves_file { LeavesFile order.now files.old.file files.new.file }
    ensures leaves_names { LeavesNames order.now files.old.ocode files.new.ocode }
    ensures leaves_input { LeavesInput order.now input.old input.new }
{
    match order {
        Order::Trace(limits, _, Some(_)) => {
            let answer = trace_named(alloc, files, *limits, input, out, err);
            report_run(&answer, err)
        }
        _ => serve(alloc, order, &mut files.file, input, out, err),
    }
}

/// Writes the line for a command line that gives no order, and answers the exit status. For help it writes nothing, since
/// that goes to the output.
pub fn refuse<E: ByteOut>(fault: &LineFault, err: &mut E) -> u8
    ensures status { result ≡ refusal_status fault.now }
    ensures line { Tells (refusal_line fault.now) (output E.ByteOut err.old) (output E.ByteOut err.new) }
{
    match fault {
        LineFault::Help(_) => 0,
        LineFault::Bad => report_text("bad command line", 112, err),
        LineFault::Memory => report_text("no memory", 111, err),
    }
}
