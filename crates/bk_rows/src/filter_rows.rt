//! How much the filters read before they are refused the output, and how much `bcpl run` reads of its input.
use crate::checks::{Refusing, asked};
use crate::devices::Slow;
use crate::outcome::RUN;
use bk_base::{ByteIn, Reader512, Writer512};
use bk_filters::{KitFault, compile, generate_all};
use bk_kit::serve;
use std::alloc::Global;
use std::test::Fail;

const FINISHED: &[u8] =
    b"ENTRY L1 5 83 84 65 82 84\nSAVE 2\nFINISH\nRTRN\nENDPROC\nGLOBAL 1 1 L1\n";

/// Two sections, the second with a name that is not declared.
const WRONG_SECOND: &[u8] =
    b"GET \"LIBHDR\"\nGLOBAL $( DOUBLE:100 $)\nLET DOUBLE(N) = N + N\n.\nGET \"LIBHDR\"\nGLOBAL $( DOUBLE:100 $)\nLET START() BE WRITEN(DUBLE(21))\n";

/// Two sections that are accepted.
const GOOD_SECOND: &[u8] =
    b"GET \"LIBHDR\"\nGLOBAL $( DOUBLE:100 $)\nLET DOUBLE(N) = N + N\n.\nGET \"LIBHDR\"\nGLOBAL $( DOUBLE:100 $)\nLET START() BE WRITEN(DOUBLE(21))\n";

const FIRST_CODE: &[u8] =
    b"ENTRY L1 6 68 79 85 66 76 69\nSAVE 3\nLP 2\nLP 2\nPLUS\nFNRN\nENDPROC\nGLOBAL 1 100 L1\n";

/// Whether the first filter says that nothing can be written where the output refuses each byte.
fn refuses_code(alloc: Global, source: &mut Slow<'_>) -> bool {
    let mut out = Refusing { failed: false };
    let answer = compile(alloc, &mut Reader512::new(source), &mut out);
    matches!(answer, Err(KitFault::Write))
}

#[test]
fn one_section_is_read_before_the_code_is_refused(rt: HostRuntime) {
    for bytes in [WRONG_SECOND, GOOD_SECOND] {
        let mut source = Slow { bytes, reads: 1000 };
        assert!(&rt; refuses_code(rt.alloc(), &mut source));
        assert!(&rt; source.bytes.starts_with(b"\nGET"));
    }
}

/// The same of the second filter.
fn refuses_segments(alloc: Global, code: &mut Slow<'_>) -> bool {
    let mut out = Refusing { failed: false };
    let answer = generate_all(alloc, &mut Reader512::new(code), &mut out);
    matches!(answer, Err(KitFault::Write))
}

#[test]
fn one_section_is_read_before_the_segments_are_refused(rt: HostRuntime) -> Result<(), Fail> {
    let mut text = Vec::new(rt.alloc());
    text.extend_from_slice(FINISHED)?;
    text.extend_from_slice(FIRST_CODE)?;
    let mut code = Slow {
        bytes: text.as_slice(),
        reads: 1000,
    };
    assert!(&rt; refuses_segments(rt.alloc(), &mut code));
    assert!(&rt; code.bytes.starts_with(FIRST_CODE));
    Ok(())
}

#[test]
fn no_more_is_read_than_the_program_asks_for(rt: HostRuntime) -> Result<(), Fail> {
    let asked = asked(rt.alloc(), &RUN)?;
    let mut output = [0; 4];
    let mut line = [0; 16];
    let mut out = Writer512::new(output.as_mut_slice());
    let mut err = Writer512::new(line.as_mut_slice());
    let source: &[u8] = b"GET \"LIBHDR\" LET START() BE $( WRCH(RDCH()); STOP(0) $)";
    let mut input = Reader512::new(Slow {
        bytes: b"A",
        reads: 1,
    });
    let status = serve(
        rt.alloc(),
        &asked,
        &mut Reader512::new(source),
        &mut input,
        &mut out,
        &mut err,
    );
    drop(out);
    drop(err);
    assert_eq!(&rt; status, 0);
    assert!(&rt; output.starts_with(b"A\0"));
    assert!(&rt; line.starts_with(b"\0"));
    assert_eq!(&rt; input.failures(), 0);
    Ok(())
}
