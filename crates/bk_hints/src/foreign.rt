//! Words that mean something elsewhere: in other dialects and languages, in the headers and in the library.

use crate::scene::Scene;
use crate::sentence::{Reported, Sentence};
use bk_lex::Kind;
use std::alloc::AllocError;

/// Words, and what is reported of each of them.
type Row = (&'static [&'static [u8]], &'static str);

/// Words of other compilers of BCPL, which are names here.
static OLD: [Row; 26] = [
    (&[b"LV"], "`LV E` is `@E` here"),
    (&[b"RV"], "`RV E` is `!E` here"),
    (&[b"LOGAND"], "`LOGAND` is `&` here"),
    (&[b"LOGOR"], "`LOGOR` is `|` here"),
    (&[b"LS"], "`LS` is `<` here"),
    (&[b"LT"], "`LT` is `<` here"),
    (&[b"GR"], "`GR` is `>` here"),
    (&[b"GT"], "`GT` is `>` here"),
    (&[b"LE"], "`LE` is `<=` here"),
    (&[b"GE"], "`GE` is `>=` here"),
    (&[b"LSHIFT"], "`LSHIFT` is `<<` here"),
    (&[b"RSHIFT"], "`RSHIFT` is `>>` here"),
    (&[b"MOD"], "`MOD` is `REM` here"),
    (&[b"XOR"], "`XOR` is `NEQV` here"),
    (&[b"ABS"], "`ABS` is left out; `N < 0 -> -N, N` serves"),
    (&[b"SECTION"], "`SECTION` is left out; a `.` ends a section"),
    (
        &[b"NEEDS"],
        "`NEEDS` is left out; `tools/join` puts files together",
    ),
    (
        &[b"SLCT", b"OF"],
        "`SLCT` and `OF` are left out; a shift and a mask take a part of a word",
    ),
    (&[b"FLOAT", b"FIX", b"FLT"], "there is no floating point"),
    (&[b"IFSO"], "`IFSO` is `THEN` here"),
    (&[b"IFNOT"], "`IFNOT` is `ELSE` here"),
    (
        &[b"MATCH"],
        "`MATCH` is left out; `SWITCHON` and `TEST` serve",
    ),
    (
        &[b"EVERY"],
        "`EVERY` is left out; `SWITCHON` and `TEST` serve",
    ),
    (&[b"NIL"], "there is no `NIL`; `0` serves"),
    (
        &[b"LEVEL", b"LONGJUMP"],
        "`LEVEL` and `LONGJUMP` are left out; a result that each caller tests serves",
    ),
    (
        &[b"CREATECO", b"CALLCO", b"COWAIT"],
        "coroutines are left out",
    ),
];

/// Words of other languages, which are names here.
static FOREIGN: [Row; 22] = [
    (&[b"STEP"], "the step of FOR is `BY` and a constant"),
    (
        &[b"DOWNTO"],
        "a FOR that counts down is `FOR I = A TO B BY -1 DO`",
    ),
    (&[b"BEGIN"], "`BEGIN` is `$(` here"),
    (&[b"END"], "`END` is `$)` here"),
    (
        &[b"ENDIF"],
        "`ENDIF` is left out; `$(` and `$)` enclose commands",
    ),
    (&[b"ELSEIF"], "`ELSEIF` is left out; write `ELSE TEST`"),
    (&[b"ELSIF"], "`ELSIF` is left out; write `ELSE TEST`"),
    (&[b"ELIF"], "`ELIF` is left out; write `ELSE TEST`"),
    (&[b"VAR"], "a variable is declared by `LET X = E`"),
    (
        &[b"INT", b"CHAR", b"LONG", b"UNSIGNED"],
        "there are no types: each variable is a word, declared by `LET X = E`, and a formal is a name alone",
    ),
    (&[b"AUTO"], "a variable is declared by `LET X = E`"),
    (&[b"VOID"], "a routine is `LET F() BE ..`"),
    (
        &[b"DEF"],
        "a procedure is `LET F() BE ..` or `LET F() = ..`",
    ),
    (&[b"FUNCTION"], "a function is `LET F() = E`"),
    (&[b"PROCEDURE"], "a routine is `LET F() BE ..`"),
    (&[b"CONST"], "a constant is `MANIFEST $( N = E $)`"),
    (&[b"SWITCH"], "`SWITCH` is `SWITCHON E INTO` here"),
    (&[b"CONTINUE"], "`CONTINUE` is `LOOP` here"),
    (
        &[b"EXIT"],
        "`FINISH` ends the program, and `STOP(N)` with a status",
    ),
    (&[b"NULL"], "there is no `NULL`; `0` serves"),
    (
        &[b"PRINTF"],
        "`WRITEF`, of `GET \"LIBHDR2\"`, writes with a format",
    ),
    (
        &[b"PRINT"],
        "`WRITES` writes a string, and `WRITEN` a number",
    ),
];

/// Names of the headers and of the files of the library in BCPL.
static LIBRARY: [Row; 13] = [
    (
        &[
            b"START",
            b"STOP",
            b"RDCH",
            b"WRCH",
            b"NEWLINE",
            b"WRITES",
            b"WRITEN",
            b"WRITED",
            b"GETBYTE",
            b"PUTBYTE",
            b"ENDSTREAMCH",
            b"BYTESPERWORD",
        ],
        "`GET \"LIBHDR\"` at the head of its section declares it",
    ),
    (
        &[b"WRITEF"],
        "`GET \"LIBHDR2\"` declares it, and what LIBHDR does",
    ),
    (
        &[
            b"READCH",
            b"UNRDCH",
            b"READN",
            b"TERMINATOR",
            b"RESULT2",
            b"READNUMBER",
        ],
        "`library/input.b` has it, and `library/header` its number; `tools/join` puts files together",
    ),
    (
        &[
            b"WRITEHEX",
            b"WRITEOCT",
            b"WRITEDEC",
            b"NEWPAGE",
            b"WRITEBIN",
            b"WRITEU",
            b"WRITET",
            b"WRITEZ",
            b"ABORT",
        ],
        "`library/output.b` has it, and `library/header` its number; `tools/join` puts files together",
    ),
    (
        &[b"CAPITALCH", b"COMPCH", b"COMPSTRING", b"STR2NUMB"],
        "`library/characters.b` has it, and `library/header` its number; `tools/join` puts files together",
    ),
    (
        &[
            b"PACKSTRING",
            b"UNPACKSTRING",
            b"COPYSTRING",
            b"CONCAT",
            b"APPEND",
        ],
        "`library/strings.b` has it, and `library/header` its number; `tools/join` puts files together",
    ),
    (
        &[b"INITHEAP", b"GETVEC", b"FREEVEC", b"WITHHEAP"],
        "`library/heap.b` has it, and `library/header` its number; `tools/join` puts files together",
    ),
    (
        &[b"APTOVEC", b"MOVE", b"MOVEBACK", b"FILL", b"QUICKSORT"],
        "`library/vectors.b` has it, and `library/header` its number; `tools/join` puts files together",
    ),
    (
        &[b"RANDOM", b"MULDIV", b"RANDNO", b"SETSEED", b"ABS"],
        "`library/arithmetic.b` has it, and `library/header` its number; `tools/join` puts files together",
    ),
    (
        &[b"WRITEFX"],
        "`library/format.b` has it, and `library/header` its number; `tools/join` puts files together",
    ),
    (
        &[b"GETFIELD", b"PUTFIELD"],
        "`library/fields.b` has it, and `library/header` its number; `tools/join` puts files together",
    ),
    (
        &[b"TESTFLAGS", b"SPLIT", b"RDITEM", b"RDARGS", b"FINDARG"],
        "`library/arguments.b` has it, and `library/header` its number; `tools/join` puts files together",
    ),
    (
        &[
            b"FINDINPUT",
            b"FINDOUTPUT",
            b"SELECTINPUT",
            b"SELECTOUTPUT",
            b"INPUT",
            b"OUTPUT",
            b"ENDREAD",
            b"ENDWRITE",
            b"REWIND",
        ],
        "`library/streams.b` has it, and `library/header` its number; `tools/join` puts files together",
    ),
];

/// What a table says of a word, in any letter case.
fn look_up(rows: &'static [Row], spelling: &[u8]) -> Option<&'static str> {
    for (words, says) in rows {
        for word in *words {
            if word.eq_ignore_ascii_case(spelling) {
                return Some(*says);
            }
        }
    }
    None
}

/// What is reported of a word of another compiler or language.
pub fn put_foreign(sentence: Sentence, spelling: &[u8]) -> Result<Option<Sentence>, AllocError> {
    if let Some(says) = look_up(&OLD, spelling) {
        let sentence = sentence
            .say(says)?
            .say("; `tools/old` brings old programs over")?;
        return Ok(Some(sentence));
    }
    match look_up(&FOREIGN, spelling) {
        Some(says) => Ok(Some(sentence.say(says)?)),
        None => Ok(None),
    }
}

/// Where a name of the library is declared.
pub fn library(spelling: &[u8]) -> Option<&'static str> {
    look_up(&LIBRARY, spelling)
}

/// Whether the section declares the name that a symbol is.
fn is_declared(scene: &Scene, index: usize) -> bool {
    let name = scene.spelling(index);
    for (i, token) in scene.tokens.iter().enumerate() {
        if i != index && token.text.eq_ignore_ascii_case(name) {
            let before = scene.before_at(i);
            let after = scene.kind(i.saturating_add(1));
            if matches!(before, Some(Kind::Let | Kind::And | Kind::For))
                || matches!(before, Some(Kind::SectionOpen | Kind::Semicolon))
                    && matches!(after, Some(Kind::Equal | Kind::Colon))
            {
                return true;
            }
        }
    }
    false
}

/// What is reported of a name with this index, where it is a word of another dialect or language.
fn hint_word(scene: &Scene, index: usize) -> Result<Option<Reported>, AllocError> {
    if scene.kind(index) != Some(Kind::Name) || scene.before_at(index) == Some(Kind::Goto) {
        return Ok(None);
    }
    if is_declared(scene, index) {
        return Ok(None);
    }
    match put_foreign(scene.sentence(), scene.spelling(index))? {
        Some(sentence) => Ok(Some(scene.reported(index, sentence))),
        None => Ok(None),
    }
}

/// What is reported of words of other dialects and languages, at the refused symbol or before it.
pub fn hint_foreign(scene: &Scene) -> Result<Option<Reported>, AllocError> {
    if let Some(reported) = hint_word(scene, scene.at)? {
        return Ok(Some(reported));
    }
    match scene.back(1) {
        Some(before) => hint_word(scene, before),
        None => Ok(None),
    }
}
