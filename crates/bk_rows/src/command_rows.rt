//! Rows of the command line, and of the lines of faults.
use crate::checks::{asked, check};
use crate::devices::Short;
use crate::outcome::INTERPRET;
use bk_base::{
    IntcodeFault, IntcodeKind, Limits, Line, OcodeFault, OcodeKind, Reader512, SourceFault,
    SourceKind, Writer512,
};
use bk_filters::KitFault;
use bk_kit::{LineFault, Order, order, serve};
use std::alloc::Global;
use std::test::Fail;

const HI: &[u8] = b"1 LL2 SP4 LIG6 K2 X4 2 C3 C72 C73 C33 G1L1 Z";

#[test]
fn command_lines_refused(rt: HostRuntime) -> Result<(), Fail> {
    let rows: [&[&str]; 28] = [
        &["bcpl"],
        &["bcpl", "run"],
        &["bcpl", "run", "f", "g"],
        &["bcpl", "run", "--sizes", "f"],
        &[],
        &["bcpl", "interpret"],
        &["bcpl", "interpret", "f", "g"],
        &["bcpl", "interpret", "-s", "4294967296", "f"],
        &["bcpl", "interpret", "-s", "-4096", "f"],
        &["bcpl", "interpret", "-s", "", "f"],
        &["bcpl", "interpret", "-s", "x", "f"],
        &["bcpl", "interpret", "-t", "18446744073709551616", "f"],
        &["bcpl", "interpret", "-t", "5", "-t", "6", "f"],
        &["bcpl", "interpret", "-s", "5000", "-s", "5000", "f"],
        &["bcpl", "interpret", "--sizes", "--sizes", "f"],
        &["bcpl", "interpret", "-x", "f"],
        &["bcpl", "interpret", "f", "-t"],
        &["bcpl", "compile", "f"],
        &["bcpl", "generate", "-s", "5000"],
        &["bcpl", "Interpret", "f"],
        &["bcpl", "-s", "5000", "interpret", "f"],
        &["bcpl", "check", "--trace", "f"],
        &["bcpl", "run", "--trace", "--from", "0", "f"],
        &["bcpl", "run", "--trace", "--to", "1000000000001", "f"],
        &["bcpl", "interpret", "--from", "2", "f"],
        &["bcpl", "show"],
        &["bcpl", "show", "--only", "x", "f"],
        &["bcpl", "show", "--only", "tree", "--only", "tree", "f"],
    ];
    for words in rows {
        check(
            &rt,
            rt.alloc(),
            words,
            HI,
            b"",
            112,
            b"",
            b"bad command line\n",
        )?;
    }
    Ok(())
}

const SIX: &[u8] = b"1 L6 X4 G1L1 Q16 Z";

/// The lines of the steps of that program, worked out by hand.
const STEPS: &[u8] =
    b"    step       at  word                     A           B        P        C  what it does
       1        1  LIG1                  1034           0     1036        2  B := A; A := G!1
       2        2  K0                    1034           0     1036     1034  calls A with a frame at P + 0
       3     1034  L6                       6        1034     1036     1035  B := A; A := 6
       4     1035  X4                       6        1034     1036        3  C := P!1; P := P!0
       5        3  X22                                                       ends with 0
";

#[test]
fn steps_are_traced(rt: HostRuntime) -> Result<(), Fail> {
    let words = ["bcpl", "interpret", "--trace", "f"];
    check(&rt, rt.alloc(), &words, SIX, b"", 0, b"", STEPS)?;
    let words = ["bcpl", "interpret", "--sizes", "--trace", "f"];
    let sizes = b"image 1036, frame 16\n";
    check(&rt, rt.alloc(), &words, SIX, b"", 0, sizes, b"")
}

const SIX_SOURCE: &[u8] = b"GET \"LIBHDR\"
LET START() BE WRITEN(6 * 7)
";

/// The lines of the steps of that source from step 6 on, worked out by hand from docs/TOUR.md.
const SOURCE_STEPS: &[u8] = b"    step  line  word                 A  what it does
                  in START
       6     2  SP4                 42  P!4 := A
       7     2  LIG7              1026  B := A; A := G!7, WRITEN
       8     2  K2                1026  calls A with a frame at P + 2
                  -> WRITEN(42)
                  <- WRITEN, A = 1026
      11     2  X4                1026  C := P!1; P := P!0
                <- START, A = 1026
the end: status 0
";

#[test]
fn sources_are_traced(rt: HostRuntime) -> Result<(), Fail> {
    let words = [
        "bcpl", "run", "--trace", "--from", "6", "--only", "start", "f",
    ];
    check(
        &rt,
        rt.alloc(),
        &words,
        SIX_SOURCE,
        b"",
        0,
        b"42",
        SOURCE_STEPS,
    )
}

#[test]
fn the_input_is_shown(rt: HostRuntime) -> Result<(), Fail> {
    let words = ["bcpl", "show", "--only", "names", "-"];
    let names = b"\
section 1, from line 1

names
  line  name            meaning
     1  A               function, static word, never used
";
    check(&rt, rt.alloc(), &words, b"", b"LET A() = 1", 0, names, b"")
}

#[test]
fn command_lines_taken(rt: HostRuntime) -> Result<(), Fail> {
    let rows: [(&[&str], u64, u32); 6] = [
        (&["bcpl", "interpret", "f"], 1_000_000_000, 262_144),
        (&["bcpl", "interpret", "-t", "1", "f"], 1, 262_144),
        (
            &["x", "interpret", "-t1000000000000", "f", "-s4096"],
            1_000_000_000_000,
            4096,
        ),
        (
            &["bcpl", "interpret", "f", "-s", "4194304"],
            1_000_000_000,
            4_194_304,
        ),
        (
            &["bcpl", "interpret", "-s", "+5000", "f"],
            1_000_000_000,
            5000,
        ),
        (
            &["bcpl", "interpret", "-s=5000", "--", "f"],
            1_000_000_000,
            5000,
        ),
    ];
    for (words, steps, store) in rows {
        let file = String::from_str(rt.alloc(), "f")?;
        let Some(limits) = Limits::new(steps, store) else {
            return Err(Fail::from("no limits"));
        };
        match order(rt.alloc(), words) {
            Ok(given) => assert_eq!(rt; given, Order::Interpret(limits, file)),
            Err(_) => return Err(Fail::from("refused")),
        }
    }
    Ok(())
}

#[test]
fn help(rt: HostRuntime) -> Result<(), Fail> {
    let rows: [&[&str]; 8] = [
        &["bcpl", "-V"],
        &["x", "--version"],
        &["bcpl", "-h"],
        &["bcpl", "--help"],
        &["bcpl", "help"],
        &["bcpl", "help", "interpret"],
        &["bcpl", "interpret", "-h"],
        &["bcpl", "interpret", "--help", "f"],
    ];
    for words in rows {
        assert!(rt; matches!(order(rt.alloc(), words), Err(LineFault::Help(_))));
        check(&rt, rt.alloc(), words, HI, b"", 0, b"", b"")?;
    }
    Ok(())
}

/// Serves an order over no bytes whose error stream fails after so many, and answers the status.
fn serve_nothing(
    alloc: Global,
    asked: &Order,
    output: &mut Vec<u8>,
    line: &mut Vec<u8>,
    room: usize,
) -> u8 {
    let mut nothing = Reader512::new(b"".as_slice());
    let mut input = Reader512::new(b"".as_slice());
    let mut out = Writer512::new(output);
    let mut err = Writer512::new(Short { bytes: line, room });
    serve(alloc, asked, &mut nothing, &mut input, &mut out, &mut err)
}

#[test]
fn an_error_stream_that_fails(rt: HostRuntime) -> Result<(), Fail> {
    let asked = asked(rt.alloc(), &INTERPRET)?;
    for room in 0..9 {
        let mut output = Vec::new(rt.alloc());
        let mut line = Vec::new(rt.alloc());
        let status = serve_nothing(rt.alloc(), &asked, &mut output, &mut line, room);
        assert_eq!(rt; status, 108);
        assert_eq!(rt; Some(line.as_slice()), b"no START\n".get(..room));
    }
    Ok(())
}

#[test]
fn lines_of_faults(rt: HostRuntime) -> Result<(), Fail> {
    let name = String::from_str(rt.alloc(), "FOO")?;
    let rows: [(KitFault, &[u8]); 8] = [
        (
            KitFault::Source(SourceFault {
                line: Line::new(3),
                kind: SourceKind::NotDeclared(name),
            }),
            b"line 3: not declared: FOO\n",
        ),
        (
            KitFault::Ocode(
                2,
                OcodeFault {
                    statement: 1,
                    kind: OcodeKind::Truncated,
                },
            ),
            b"section 2, statement 1: truncated\n",
        ),
        (
            KitFault::Intcode(
                4_294_967_295,
                IntcodeFault {
                    item: 4_294_967_295,
                    kind: IntcodeKind::FrameGivenTwice,
                },
            ),
            b"segment 4294967295, item 4294967295: frame given twice\n",
        ),
        (KitFault::TooSmall, b"store too small\n"),
        (KitFault::NoStart, b"no START\n"),
        (KitFault::Read, b"read fault\n"),
        (KitFault::Write, b"write fault\n"),
        (KitFault::Memory, b"no memory\n"),
    ];
    for (fault, line) in &rows {
        let mut written = Vec::new(rt.alloc());
        let mut out = Writer512::new(&mut written);
        assert!(rt; fault.put_line(&mut out).is_ok());
        assert!(rt; bk_base::ByteOut::flush(&mut out).is_ok());
        drop(out);
        assert_eq!(rt; written.as_slice(), *line);
    }
    Ok(())
}
