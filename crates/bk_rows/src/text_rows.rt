//! Texts of OCODE and INTCODE on devices that fail: reading and printing.
use crate::devices::{Short, Slow};
use bk_base::{ByteOut, Reader512, Refused, Writer512};
use bk_intcode::read_segment;
use bk_machine::Intcode;
use bk_ocode::{Ocode, read_section};
use std::test::Fail;

/// A small section of six statements.
const SMALL: &[u8] = b"ENTRY L1 5 83 84 65 82 84\nSAVE 2\nFINISH\nRTRN\nENDPROC\nGLOBAL 1 1 L1\n";

/// A small segment.
const SEGMENT: &[u8] = b"1\nL2\nLIG4\nSP-2\nLL1\nK2\nC72\nD7\nDL1\nG1L1\nQ16\nZ\n";

/// The first section of a text.
fn section_of(rt: &HostRuntime, text: &[u8]) -> Result<Ocode, Fail> {
    let mut input = Reader512::new(text);
    match read_section(rt.alloc(), &mut input) {
        Ok(Some(section)) => Ok(section),
        _ => Err(Fail::from("no section")),
    }
}

/// The first segment of a text.
fn segment_of(rt: &HostRuntime, text: &[u8]) -> Result<Intcode, Fail> {
    let mut input = Reader512::new(text);
    match read_segment(rt.alloc(), &mut input) {
        Ok(Some(segment)) => Ok(segment),
        _ => Err(Fail::from("no segment")),
    }
}

#[test]
fn a_section_that_cannot_be_read(rt: HostRuntime) -> Result<(), Fail> {
    for reads in 0..SMALL.len() {
        let mut input = Reader512::new(Slow {
            bytes: SMALL,
            reads,
        });
        assert_eq!(rt;
            read_section(rt.alloc(), &mut input).map(|_| ()),
            Err(Refused::Device)
        );
    }
    // one byte past the last word is enough
    let mut input = Reader512::new(Slow {
        bytes: SMALL,
        reads: SMALL.len(),
    });
    assert_eq!(rt;
        read_section(rt.alloc(), &mut input).map(|section| section.is_some()),
        Ok(true)
    );
    assert_eq!(rt;
        read_section(rt.alloc(), &mut input).map(|_| ()),
        Err(Refused::Device)
    );
    Ok(())
}

#[test]
fn a_segment_that_cannot_be_read(rt: HostRuntime) -> Result<(), Fail> {
    let text: &[u8] = b"1 L2 Z 2";
    for reads in 0..7 {
        let mut input = Reader512::new(Slow { bytes: text, reads });
        assert_eq!(rt;
            read_segment(rt.alloc(), &mut input).map(|_| ()),
            Err(Refused::Device)
        );
    }
    // one byte past the last word is enough
    let mut input = Reader512::new(Slow {
        bytes: text,
        reads: 7,
    });
    assert_eq!(rt;
        read_segment(rt.alloc(), &mut input).map(|segment| segment.is_some()),
        Ok(true)
    );
    assert_eq!(rt;
        read_segment(rt.alloc(), &mut input).map(|_| ()),
        Err(Refused::Device)
    );
    Ok(())
}

/// Whether a section is printed, at once or at a second try, on a device that fails after so many bytes.
fn prints_section(section: &Ocode, passed: &mut Vec<u8>, room: usize) -> bool {
    let mut out = Writer512::new(Short {
        bytes: passed,
        room,
    });
    (bk_ocode::print(section, &mut out).is_ok() && out.flush().is_ok())
        || bk_ocode::print(section, &mut out).is_ok()
}

#[test]
fn a_section_that_cannot_be_written(rt: HostRuntime) -> Result<(), Fail> {
    let section = section_of(&rt, SMALL)?;
    for room in 0..SMALL.len() {
        let mut passed = Vec::new(rt.alloc());
        assert!(rt; !prints_section(&section, &mut passed, room));
        assert_eq!(rt; Some(passed.as_slice()), SMALL.get(..room));
    }
    Ok(())
}

/// Whether a segment is printed, at once or at a second try, on a device that fails after so many bytes.
fn prints_segment(segment: &Intcode, passed: &mut Vec<u8>, room: usize) -> bool {
    let mut out = Writer512::new(Short {
        bytes: passed,
        room,
    });
    (bk_intcode::print(segment, &mut out).is_ok() && out.flush().is_ok())
        || bk_intcode::print(segment, &mut out).is_ok()
}

#[test]
fn a_segment_that_cannot_be_written(rt: HostRuntime) -> Result<(), Fail> {
    let segment = segment_of(&rt, SEGMENT)?;
    for room in 0..SEGMENT.len() {
        let mut passed = Vec::new(rt.alloc());
        assert!(rt; !prints_segment(&segment, &mut passed, room));
        assert_eq!(rt; Some(passed.as_slice()), SEGMENT.get(..room));
    }
    Ok(())
}
