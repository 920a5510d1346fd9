//! Rows of devices that fail at each call: four programs through each way, read and written byte by byte.
use crate::checks::{asked, check_fault, check_outcome, served_short};
use crate::devices::Slow;
use crate::outcome::{COMPILE, GENERATE, INTERPRET, Outcome, RUN, outcome_of};
use bk_base::Reader512;
use bk_kit::Order;
use std::alloc::Global;
use std::process::Abort;
use std::test::Fail;

/// Four programs: the code of the sections before their last, the source, its code, their input, and what they write. One writes,
/// one copies, one calls from an expression, and one has two sections. The code is worked out by hand from the scheme.
static PROGRAMS: [(&[u8], &[u8], &[u8], &[u8], &[u8]); 4] = [
    (
        b"",
        b"GET \"LIBHDR\" LET START() BE WRITES(\"HELLO*N\")",
        b"ENTRY L1 5 83 84 65 82 84\nSAVE 2\nSTACK 4\nLSTR 6 72 69 76 76 79 10\nLG 6\nRTAP 2\nRTRN\nENDPROC\nGLOBAL 1 1 L1\n",
        b"",
        b"HELLO\n",
    ),
    (
        b"",
        b"GET \"LIBHDR\"\nLET START() BE\n$( LET C = RDCH()\n   UNTIL C = ENDSTREAMCH DO $( WRCH(C); C := RDCH() $)\n   WRITEN(RDCH())\n$)\n",
        b"ENTRY L1 5 83 84 65 82 84\nSAVE 2\nSTACK 4\nLG 3\nFNAP 2\nSTORE\nJUMP L2\nLAB L3\nSTACK 5\nLP 2\nLG 4\nRTAP 3\nSTACK 5\nLG 3\nFNAP 3\nSP 2\nLAB L2\nLP 2\nLN -1\nEQ\nJF L3\nLAB L4\nSTACK 5\nSTACK 7\nLG 3\nFNAP 5\nLG 7\nRTAP 3\nSTACK 2\nRTRN\nENDPROC\nGLOBAL 1 1 L1\n",
        b"ABC",
        b"ABC-1",
    ),
    (
        b"",
        b"GET \"LIBHDR\"\nLET F(P) = VALOF $( !P := 10; RESULTIS 1 $)\nLET START() BE\n$( LET X = 5\n   WRITEN(X + F(@X)); WRCH('*S'); WRITEN(X)\n$)\n",
        b"ENTRY L1 1 70\nSAVE 3\nLN 10\nLP 2\nSTIND\nLN 1\nRES L3\nLAB L3\nRSTACK 3\nFNRN\nENDPROC\nENTRY L4 5 83 84 65 82 84\nSAVE 2\nLN 5\nSTORE\nSTACK 5\nLP 2\nSTACK 8\nLLP 2\nLL L2\nFNAP 6\nPLUS\nLG 7\nRTAP 3\nSTACK 5\nLN 32\nLG 4\nRTAP 3\nSTACK 5\nLP 2\nLG 7\nRTAP 3\nSTACK 2\nRTRN\nENDPROC\nDATALAB L2\nITEML L1\nGLOBAL 1 1 L4\n",
        b"",
        b"6 10",
    ),
    (
        b"ENTRY L1 6 68 79 85 66 76 69\nSAVE 3\nLP 2\nLP 2\nPLUS\nFNRN\nENDPROC\nGLOBAL 1 100 L1\n",
        b"GET \"LIBHDR\"\nGLOBAL $( DOUBLE:100 $)\nLET DOUBLE(N) = N + N\n.\nGET \"LIBHDR\"\nGLOBAL $( DOUBLE:100 $)\nLET START() BE WRITEN(DOUBLE(21))\n",
        b"ENTRY L1 6 68 79 85 66 76 69\nSAVE 3\nLP 2\nLP 2\nPLUS\nFNRN\nENDPROC\nGLOBAL 1 100 L1\nENTRY L1 5 83 84 65 82 84\nSAVE 2\nSTACK 4\nSTACK 6\nLN 21\nLG 100\nFNAP 4\nLG 7\nRTAP 2\nRTRN\nENDPROC\nGLOBAL 1 1 L1\n",
        b"",
        b"42",
    ),
];

/// What results from an order where FILE fails after so many reads, the input after so many, and the output after so many bytes.
fn broken_order(
    alloc: Global,
    asked: &Order,
    file: (&[u8], usize),
    input: (&[u8], usize),
    room: usize,
) -> Outcome {
    let mut file = Reader512::new(Slow {
        bytes: file.0,
        reads: file.1,
    });
    let mut input = Reader512::new(Slow {
        bytes: input.0,
        reads: input.1,
    });
    served_short(alloc, asked, &mut file, &mut input, room)
}

/// The same of words.
fn broken(
    alloc: Global,
    words: &[&str],
    file: (&[u8], usize),
    input: (&[u8], usize),
    room: usize,
) -> Result<Outcome, Fail> {
    let asked = asked(alloc, words)?;
    Ok(broken_order(alloc, &asked, file, input, room))
}

/// Checks what results from words whose output fails before all bytes are written: just the bytes before are.
fn check_failed_writes(
    rt: &impl Abort,
    alloc: Global,
    words: &[&str],
    file: &[u8],
    input: &[u8],
    whole: &[u8],
) -> Result<(), Fail> {
    let (read, given) = (file.len() + 1, input.len() + 1);
    for room in 0..whole.len() {
        let got = broken(alloc, words, (file, read), (input, given), room)?;
        check_fault(rt, &got, 110, b"write fault\n");
        assert_eq!(rt; Some(got.output.as_slice()), whole.get(..room));
    }
    Ok(())
}

/// And what results from them where it takes just as many bytes as are written.
fn check_all_written(
    rt: &impl Abort,
    alloc: Global,
    words: &[&str],
    file: &[u8],
    input: &[u8],
    whole: &[u8],
) -> Result<(), Fail> {
    let (read, given) = (file.len() + 1, input.len() + 1);
    let got = broken(alloc, words, (file, read), (input, given), whole.len())?;
    assert_eq!(rt; got.status, 0);
    assert_eq!(rt; got.output.as_slice(), whole);
    Ok(())
}

/// Checks what results from words whose output fails after so many bytes.
fn check_writes(
    rt: &impl Abort,
    alloc: Global,
    words: &[&str],
    file: &[u8],
    input: &[u8],
    whole: &[u8],
) -> Result<(), Fail> {
    check_failed_writes(rt, alloc, words, file, input, whole)?;
    check_all_written(rt, alloc, words, file, input, whole)
}

/// Checks a filter on a text whose reads fail: the sections before the last are written, or none.
fn check_filter_reads(
    rt: &impl Abort,
    alloc: Global,
    words: &[&str],
    first: &[u8],
    text: &[u8],
    whole: &[u8],
) -> Result<(), Fail> {
    for reads in 0..text.len() + 1 {
        let got = broken(alloc, words, (b"", 0), (text, reads), 10_000)?;
        check_fault(rt, &got, 109, b"read fault\n");
        let output = got.output.as_slice();
        let last = reads == text.len() && output == whole;
        assert!(rt; output.is_empty() || output == first || last);
    }
    Ok(())
}

/// Checks a filter on a text whose reads or writes fail. The text before its last section gives `first`, and all of it `whole`.
fn check_filter(
    rt: &impl Abort,
    alloc: Global,
    words: &[&str],
    first: &[u8],
    text: &[u8],
    whole: &[u8],
) -> Result<(), Fail> {
    check_filter_reads(rt, alloc, words, first, text, whole)?;
    check_writes(rt, alloc, words, b"", text, whole)
}

/// Checks a program that runs where a read of FILE fails: nothing is written.
fn check_file_reads(
    rt: &impl Abort,
    alloc: Global,
    words: &[&str],
    file: &[u8],
    input: &[u8],
) -> Result<(), Fail> {
    for reads in 0..file.len() + 1 {
        let got = broken(alloc, words, (file, reads), (input, 0), 10_000)?;
        check_outcome(rt, &got, 109, b"", b"read fault\n");
    }
    Ok(())
}

/// And where a read of the input fails: what was read is written before the fault.
fn check_input_reads(
    rt: &impl Abort,
    alloc: Global,
    words: &[&str],
    file: &[u8],
    input: &[u8],
) -> Result<(), Fail> {
    for reads in 0..input.len() + 1 {
        let got = broken(alloc, words, (file, file.len() + 1), (input, reads), 10_000)?;
        check_fault(rt, &got, 109, b"read fault\n");
        assert_eq!(rt; Some(got.output.as_slice()), input.get(..reads));
    }
    Ok(())
}

/// Checks a program that runs where a read of FILE or of the input, or a write, fails.
fn check_run(
    rt: &impl Abort,
    alloc: Global,
    words: &[&str],
    file: &[u8],
    input: &[u8],
    whole: &[u8],
) -> Result<(), Fail> {
    check_file_reads(rt, alloc, words, file, input)?;
    if !input.is_empty() {
        check_input_reads(rt, alloc, words, file, input)?;
    }
    check_writes(rt, alloc, words, file, input, whole)
}

/// Checks the first filter and `bcpl run` on a source.
fn check_source(
    rt: &impl Abort,
    alloc: Global,
    before: &[u8],
    source: &[u8],
    code: &[u8],
    input: &[u8],
    whole: &[u8],
) -> Result<(), Fail> {
    check_filter(rt, alloc, &COMPILE, before, source, code)?;
    check_run(rt, alloc, &RUN, source, input, whole)
}

/// Checks the second filter and the interpreter on the code of a source. The text of segments is the generator's own choice: what is
/// written where a device fails is compared with what is written where none does.
fn check_code(
    rt: &impl Abort,
    alloc: Global,
    before: &[u8],
    code: &[u8],
    input: &[u8],
    whole: &[u8],
) -> Result<(), Fail> {
    let earlier = outcome_of(alloc, &GENERATE, b"", before)?;
    let segments = outcome_of(alloc, &GENERATE, b"", code)?;
    let (earlier, text) = (earlier.output.as_slice(), segments.output.as_slice());
    check_filter(rt, alloc, &GENERATE, earlier, code, text)?;
    check_run(rt, alloc, &INTERPRET, text, input, whole)
}

#[test]
fn devices_that_fail(rt: HostRuntime) -> Result<(), Fail> {
    let alloc = rt.alloc();
    for (before, source, code, input, whole) in &PROGRAMS {
        check_source(&rt, alloc, before, source, code, input, whole)?;
        check_code(&rt, alloc, before, code, input, whole)?;
    }
    Ok(())
}
