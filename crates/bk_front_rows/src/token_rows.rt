//! Rows of texts with their tokens: spelling, line, place and value of each, and where a section ends.
use bk_base::{Line, Refused};
use bk_lex::{Cut, Cutter, Kind, Lexed, Token, character_byte, lex, number_word, string_bytes};
use std::alloc::{AllocError, Global};
use std::test::Fail;

/// Texts with their tokens, as `listed` writes them.
static TEXTS: [(&[u8], &[u8]); 53] = [
    (
        b"4294967295 #37777777777 #Xffffffff",
        b"4294967295 #37777777777 #Xffffffff 34",
    ),
    (b"A := B\n!C := 1 .", b"A := B @2 ^; ! C := 1 .16"),
    (b"IF A GOTO L", b"IF A ^DO GOTO L 11"),
    (b"A.B .", b"A.B .5"),
    (b"", b"0"),
    (b" \t\r\x0c", b"4"),
    (b".", b".1"),
    (b"\n\n", b"2@3"),
    (b"\n.A", b".2@2"),
    (b"A.", b"A. 2"),
    (b"FINISH.", b"FINISH. 7"),
    (b"GET.", b"GET. 4"),
    (b"$)1.", b"$)1. 4"),
    (b"1.", b"1 .2"),
    (b"(A).B", b"( A ) .4"),
    (b"$(.", b"$( .3"),
    (b"$(WRCH(1)", b"$(WRCH ( 1 ) 9"),
    (b"$)REPEAT", b"$)REPEAT 8"),
    (b"$) REPEAT", b"$) REPEAT 9"),
    (b"$(1A.2-", b"$(1A.2 - 7"),
    (b"A//B\nC", b"A @2 ^; C 6"),
    (b"A/B", b"A / B 3"),
    (b"A / /B", b"A / / B 6"),
    (b"//.\n.", b".5@2"),
    (b"A<=B<<C<D", b"A <= B << C < D 9"),
    (b"A>=B>>C>D", b"A >= B >> C > D 9"),
    (b"A->B-C-", b"A -> B - C - 7"),
    (b"A~=~B", b"A ~= ~ B 5"),
    (b"A:=B:C", b"A := B : C 6"),
    (b"A=<=B", b"A = <= B 5"),
    (b"A%B", b"A % B 3"),
    (b"+*/!@&|,;?()=", b"+ * / ! @ & | , ; ? ( ) = 13"),
    (b"#178", b"#17 8 4"),
    (b"1A", b"1 A 2"),
    (b"#xFfG", b"#xFf G 5"),
    (b"\"A*N*\"//.'\"", b"\"A*N*\"//.'\" 11"),
    (b"'*'''\"'", b"'*'' '\"' 7"),
    (b"\"\"", b"\"\" 2"),
    (b"A\nB", b"A @2 ^; B 3"),
    (b"A\r\n\nB C", b"A @3 ^; B C 7"),
    (b"A\nBE B", b"A @2 BE B 6"),
    (b"A\n+B", b"A @2 + B 4"),
    (b"REPEAT\n1", b"REPEAT @2 ^; 1 8"),
    (b"REPEAT GOTO", b"REPEAT GOTO 11"),
    (b"$)\nCASE 1 IF", b"$) @2 ^; CASE 1 ^DO IF 12"),
    (
        b"TRUE $( ? if false Break",
        b"TRUE ^DO $( ? ^DO if false ^DO Break 24",
    ),
    (b"A\n$(\nB", b"A @2 ^; $( @3 B 6"),
    (b"A ~\nB", b"A ~ @2 B 5"),
    (b". _", b".1"),
    (b"1.\"", b"1 .2"),
    (b") .GET", b") .3"),
    (b"\"A\".'*Q'", b"\"A\" .4"),
    (b"#1.$", b"#1 .3"),
];

/// Words that are one symbol, with its kind.
static WORDS: [(&[u8], Kind); 60] = [
    (b"AND", Kind::And),
    (b"BE", Kind::Be),
    (b"BREAK", Kind::Break),
    (b"BY", Kind::By),
    (b"CASE", Kind::Case),
    (b"DEFAULT", Kind::Default),
    (b"DO", Kind::Do),
    (b"ELSE", Kind::Or),
    (b"ENDCASE", Kind::EndCase),
    (b"EQ", Kind::Equal),
    (b"EQV", Kind::Eqv),
    (b"FALSE", Kind::False),
    (b"FINISH", Kind::Finish),
    (b"FOR", Kind::For),
    (b"GLOBAL", Kind::Global),
    (b"GOTO", Kind::Goto),
    (b"IF", Kind::If),
    (b"INTO", Kind::Into),
    (b"LET", Kind::Let),
    (b"LOOP", Kind::Loop),
    (b"MANIFEST", Kind::Manifest),
    (b"NE", Kind::NotEqual),
    (b"NEQV", Kind::Neqv),
    (b"NOT", Kind::Not),
    (b"OR", Kind::Or),
    (b"REM", Kind::Rem),
    (b"REPEAT", Kind::Repeat),
    (b"REPEATUNTIL", Kind::RepeatUntil),
    (b"REPEATWHILE", Kind::RepeatWhile),
    (b"RESULTIS", Kind::ResultIs),
    (b"RETURN", Kind::Return),
    (b"STATIC", Kind::Static),
    (b"SWITCHON", Kind::SwitchOn),
    (b"TABLE", Kind::Table),
    (b"TEST", Kind::Test),
    (b"THEN", Kind::Do),
    (b"TO", Kind::To),
    (b"TRUE", Kind::True),
    (b"UNLESS", Kind::Unless),
    (b"UNTIL", Kind::Until),
    (b"VALOF", Kind::Valof),
    (b"VEC", Kind::Vec),
    (b"WHILE", Kind::While),
    (b"while", Kind::While),
    (b"wHiLe", Kind::While),
    (b"AN", Kind::Name),
    (b"ANDY", Kind::Name),
    (b"AND1", Kind::Name),
    (b"AND.", Kind::Name),
    (b"A.ND", Kind::Name),
    (b"REPEATUNTILL", Kind::Name),
    (b"REPEATWHILEE", Kind::Name),
    (b"GETS", Kind::Name),
    (b"1", Kind::Number),
    (b"\"\"", Kind::Text),
    (b"'A'", Kind::Character),
    (b"$(", Kind::SectionOpen),
    (b"$)A", Kind::SectionClose),
    (b"~", Kind::Not),
    (b"~=", Kind::NotEqual),
];

static PLAIN: &[u8] =
    b"GLOBAL $( START : 1 ; STOP : 2 ; RDCH : 3 ; WRCH : 4 ; NEWLINE : 5 ; WRITES : 6 ; WRITEN : 7 ; WRITED : 8 ; GETBYTE : 9 ; PUTBYTE : 10 $) MANIFEST $( ENDSTREAMCH = - 1 ; BYTESPERWORD = 4 $) ";

static FORMATTED: &[u8] =
    b"GLOBAL $( START : 1 ; STOP : 2 ; RDCH : 3 ; WRCH : 4 ; NEWLINE : 5 ; WRITES : 6 ; WRITEN : 7 ; WRITED : 8 ; GETBYTE : 9 ; PUTBYTE : 10 ; WRITEF : 11 $) MANIFEST $( ENDSTREAMCH = - 1 ; BYTESPERWORD = 4 $) ";

/// Texts with a header: their tokens before it, whether it has WRITEF, and those after it.
static HEADERS: [(&[u8], &[u8], bool, &[u8]); 8] = [
    (b"GET \"LIBHDR\"", b"", false, b"12"),
    (b"get\"libhdr\"", b"", false, b"11"),
    (b"Get // \"X\"\n\"LibHdr\"", b"", false, b"19@2"),
    (b"GET \"LIBHDR2\" .", b"", true, b".15"),
    (b"GET \"libhdr2\"\nA", b"", true, b"@2 ^; A 15"),
    (b"GET \"LIBHDR\" A", b"", false, b"A 14"),
    (b"GET\n\"LIBHDR\" A", b"", false, b"@2 ^; A 14"),
    (b"$)\nGET \"LIBHDR\"IF", b"$) @2 ", false, b"IF 17"),
];

/// Appends a number.
fn put_number(out: &mut String, alloc: Global, number: usize) -> Result<(), AllocError> {
    let digits = format!(in alloc; "{}", number)?;
    out.push_str(digits.as_str())
}

/// Appends `@` and a line.
fn put_line(out: &mut String, alloc: Global, line: Line) -> Result<(), AllocError> {
    let digits = format!(in alloc; "@{}", line)?;
    out.push_str(digits.as_str())
}

/// Appends the spelling of a token, with `^` before an inserted one.
fn put_token(out: &mut String, token: &Token<'_>) -> Result<(), AllocError> {
    if token.text.is_empty() {
        out.push_str(if token.kind == Kind::Do { "^DO" } else { "^;" })?;
    }
    for byte in token.text {
        out.push(char::from(*byte))?;
    }
    out.push(' ')
}

/// Appends tokens, each with its line where that is not the line of the token before, and answers the last line.
fn put_tokens(
    out: &mut String,
    alloc: Global,
    tokens: &[Token<'_>],
    from: Line,
) -> Result<Line, AllocError> {
    let mut line = from;
    for token in tokens {
        if token.line != line {
            line = token.line;
            put_line(out, alloc, line)?;
            out.push(' ')?;
        }
        put_token(out, token)?;
    }
    Ok(line)
}

/// Appends the end of a section after this line: a `.` if one ended it, the bytes used, and its line if that is another.
fn put_end(
    out: &mut String,
    alloc: Global,
    lexed: &Lexed<'_>,
    line: Line,
) -> Result<(), AllocError> {
    if lexed.ended {
        out.push('.')?;
    }
    put_number(out, alloc, lexed.used)?;
    if lexed.line != line {
        put_line(out, alloc, lexed.line)?;
    }
    Ok(())
}

/// Tokens as text: the spelling of each, with `^` before an inserted one, and the line where it is not that of the token
/// before; after them a `.` if one ended the section, and the bytes used.
fn listed(alloc: Global, lexed: &Lexed<'_>, from: Line) -> Result<String, AllocError> {
    let mut out = String::new(alloc);
    let line = put_tokens(&mut out, alloc, lexed.tokens.as_slice(), from)?;
    put_end(&mut out, alloc, lexed, line)?;
    Ok(out)
}

/// What is reported of a text: its tokens, or how many if `counted`, or its fault.
fn reported(alloc: Global, text: &[u8], from: u32, counted: bool) -> Result<String, AllocError> {
    let from = Line::new(from.max(1));
    match lex(alloc, text, from) {
        Ok(lexed) if counted => format!(in alloc; "{} tokens", lexed.tokens.len()),
        Ok(lexed) => listed(alloc, &lexed, from),
        Err(Refused::Fault(fault)) => format!(in alloc; "{}", fault),
        Err(_) => Err(AllocError),
    }
}

/// Whether this is reported of a text.
fn tells(
    alloc: Global,
    text: &[u8],
    from: u32,
    counted: bool,
    expected: &[u8],
) -> Result<bool, AllocError> {
    let answer = reported(alloc, text, from, counted)?;
    Ok(answer.as_bytes() == expected)
}

/// Texts with the places of their tokens: the first ones, how many then are nowhere in the text, and the last ones.
static PLACES: [(&[u8], &[u8], usize, &[u8]); 3] = [
    (
        b"A\nGET \"LIBHDR\" // x\n  B := 1 .",
        b"0 ",
        54,
        b"22 24 27 ",
    ),
    (b"A\n\tB", b"0 ", 1, b"3 "),
    (b"\tIF A GOTO L", b"1 4 ", 1, b"6 11 "),
];

/// The places of tokens, with `-` for one that is nowhere in the text.
fn places_listed(alloc: Global, tokens: &[Token<'_>]) -> Result<String, AllocError> {
    let mut out = String::new(alloc);
    for token in tokens {
        match token.place {
            Some(place) => {
                put_number(&mut out, alloc, place as usize)?;
                out.push(' ')?;
            }
            None => out.push('-')?,
        }
    }
    Ok(out)
}

/// The number of a short text's tokens, or 100 and the number of its fault.
fn outcome(rt: &HostRuntime, text: &[u8]) -> Result<usize, Fail> {
    match lex(rt.alloc(), text, Line::first()) {
        Ok(lexed) => Ok(lexed.tokens.len()),
        Err(Refused::Fault(fault)) => Ok(100 + usize::from(fault.kind.number())),
        Err(_) => Err(Fail::from("refused")),
    }
}

/// The first row of a table whose text gives something else. The tables are large, so what loops over one takes it as an
/// argument.
fn wrong_text(
    alloc: Global,
    rows: &[(&'static [u8], &'static [u8])],
) -> Result<Option<usize>, AllocError> {
    for (i, (text, expected)) in rows.iter().enumerate() {
        if !tells(alloc, text, 1, false, expected)? {
            return Ok(Some(i));
        }
    }
    Ok(None)
}

#[test]
fn texts(rt: HostRuntime) -> Result<(), Fail> {
    assert_eq!(rt; wrong_text(rt.alloc(), &TEXTS)?, None);
    Ok(())
}

#[test]
fn the_last_line(rt: HostRuntime) -> Result<(), Fail> {
    let expected = b"A @4294967295 ^; B ^; C .7";
    assert!(rt; tells(rt.alloc(), b"A\nB\nC .", 4_294_967_294, false, expected)?);
    Ok(())
}

/// The tokens of a header, between others.
fn with_header(
    alloc: Global,
    before: &[u8],
    formatted: bool,
    following: &[u8],
) -> Result<Vec<u8>, AllocError> {
    let mut tokens = Vec::new(alloc);
    tokens.extend_from_slice(before)?;
    tokens.extend_from_slice(if formatted { FORMATTED } else { PLAIN })?;
    tokens.extend_from_slice(following)?;
    Ok(tokens)
}

#[test]
fn headers(rt: HostRuntime) -> Result<(), Fail> {
    for (text, before, formatted, following) in &HEADERS {
        let expected = with_header(rt.alloc(), before, *formatted, following)?;
        assert!(rt; tells(rt.alloc(), text, 1, false, expected.as_slice())?);
    }
    Ok(())
}

/// A text of one byte so many times, with bytes before and after.
fn long_text(
    alloc: Global,
    before: &[u8],
    byte: u8,
    times: usize,
    following: &[u8],
) -> Result<Vec<u8>, AllocError> {
    let mut text = Vec::new(alloc);
    text.extend_from_slice(before)?;
    for _ in 0..times {
        text.push(byte)?;
    }
    text.extend_from_slice(following)?;
    Ok(text)
}

#[test]
fn places(rt: HostRuntime) -> Result<(), Fail> {
    for (text, before, nowhere, following) in &PLACES {
        let expected = long_text(rt.alloc(), before, b'-', *nowhere, following)?;
        let Ok(lexed) = lex(rt.alloc(), text, Line::first()) else {
            return Err(Fail::from("refused"));
        };
        let places = places_listed(rt.alloc(), lexed.tokens.as_slice())?;
        assert_eq!(rt; places.as_bytes(), expected.as_slice());
    }
    Ok(())
}

/// What a byte is, as a text of its own, in a string, in a character constant and after a `*`: 1 token, none, or 100 and
/// the number of the fault.
fn expected_of(byte: u8) -> [usize; 4] {
    let alone = match byte {
        b'.' | b' ' | 9 | 10 | 12 | 13 => 0,
        b'"' | b'\'' => 102,
        b'('
        | b')'
        | b'+'
        | b'-'
        | b'*'
        | b'/'
        | b'!'
        | b'%'
        | b'@'
        | b'='
        | b'<'
        | b'>'
        | b'~'
        | b'&'
        | b'|'
        | b','
        | b';'
        | b':'
        | b'?' => 1,
        _ if byte.is_ascii_alphanumeric() => 1,
        _ => 101,
    };
    let inside = |quote: u8| match byte {
        b'\n' | b'\r' | b'*' => 102,
        _ if byte == quote => 102,
        _ => 1,
    };
    let escape = match byte {
        b'\n' | b'\r' => 102,
        b'N'
        | b'T'
        | b'S'
        | b'B'
        | b'P'
        | b'C'
        | b'n'
        | b't'
        | b's'
        | b'b'
        | b'p'
        | b'c'
        | b'*'
        | b'"'
        | b'\'' => 1,
        _ => 103,
    };
    [alone, inside(b'"'), inside(b'\''), escape]
}

#[test]
fn each_byte(rt: HostRuntime) -> Result<(), Fail> {
    for byte in 0..=255u8 {
        let answers = [
            outcome(&rt, &[byte])?,
            outcome(&rt, &[b'"', byte, b'"'])?,
            outcome(&rt, &[b'\'', byte, b'\''])?,
            outcome(&rt, &[b'"', b'*', byte, b'"'])?,
        ];
        assert!(rt; answers == expected_of(byte));
        let following = outcome(&rt, &[b'/', b'/', byte, b'A', b'B'])?;
        assert!(rt; following == usize::from(byte == b'\n'));
    }
    Ok(())
}

/// The same of words that are one symbol.
fn wrong_word(rt: &HostRuntime, rows: &[(&'static [u8], Kind)]) -> Result<Option<usize>, Fail> {
    for (i, (text, kind)) in rows.iter().enumerate() {
        let Ok(lexed) = lex(rt.alloc(), text, Line::first()) else {
            return Ok(Some(i));
        };
        if lexed.tokens.len() != 1 || lexed.tokens.iter().any(|token| token.kind != *kind) {
            return Ok(Some(i));
        }
    }
    Ok(None)
}

#[test]
fn reserved_words(rt: HostRuntime) -> Result<(), Fail> {
    assert_eq!(rt; wrong_word(&rt, &WORDS)?, None);
    Ok(())
}

/// Texts, and how many bytes of them a section takes, 0 where it does not end.
static CUTS: [(&[u8], usize); 12] = [
    (b"A := 1 . B", 8),
    (b".", 1),
    (b"1.", 2),
    (b"A.B .", 5),
    (b"\".\" // .\n.", 10),
    (b"_ .", 1),
    (b"'*Q'.", 3),
    (b"#8", 2),
    (b"GET A .", 5),
    (b"GET \"LIBHDR\" .", 14),
    (b"A B", 0),
    (b"\"A", 0),
];

/// How many bytes of a text a section takes, 0 where it does not end.
fn cut(text: &[u8]) -> usize {
    let mut cutter = Cutter::new();
    let mut ended = 0;
    for (i, byte) in text.iter().enumerate() {
        if cutter.step(*byte) == Cut::End && ended == 0 {
            ended = i + 1;
        }
    }
    ended
}

#[test]
fn cuts(rt: HostRuntime) {
    for (text, at) in &CUTS {
        assert_eq!(rt; cut(text), *at);
    }
}

#[test]
fn the_longest_section(rt: HostRuntime) {
    let mut cutter = Cutter::new();
    let mut more = 0;
    for i in 0..1_048_580u32 {
        if cutter.step(b' ') == Cut::More {
            more = i + 1;
        }
    }
    assert_eq!(rt; more, 1_048_576);
}

static NUMBERS: [(&[u8], u32); 9] = [
    (b"0", 0),
    (b"72", 72),
    (b"4294967295", 4_294_967_295),
    (b"#17", 15),
    (b"#37777777777", 4_294_967_295),
    (b"#X1f", 31),
    (b"#xFFFFFFFF", 4_294_967_295),
    (b"#X0aA", 170),
    (b"007", 7),
];

#[test]
fn number_values(rt: HostRuntime) {
    for (text, word) in &NUMBERS {
        assert_eq!(rt; number_word(text), *word);
    }
}

static CHARACTERS: [(&[u8], u8); 11] = [
    (b"'A'", b'A'),
    (b"'a'", b'a'),
    (b"'\"'", b'"'),
    (b"'*N'", 10),
    (b"'*t'", 9),
    (b"'*S'", 32),
    (b"'*b'", 8),
    (b"'*P'", 12),
    (b"'*C'", 13),
    (b"'**'", b'*'),
    (b"'*''", b'\''),
];

#[test]
fn character_values(rt: HostRuntime) {
    for (text, byte) in &CHARACTERS {
        assert_eq!(rt; character_byte(text), *byte);
    }
}

static STRINGS: [(&[u8], &[u8]); 5] = [
    (b"\"\"", b""),
    (b"\"HI\"", b"HI"),
    (b"\"A*NB*\"C'\"", b"A\nB\"C'"),
    (b"\"***S*\"\"", b"* \""),
    (b"\"//.\"", b"//."),
];

#[test]
fn string_values(rt: HostRuntime) -> Result<(), Fail> {
    for (text, bytes) in &STRINGS {
        let value = string_bytes(rt.alloc(), text)?;
        assert_eq!(rt; value.as_slice(), *bytes);
    }
    Ok(())
}
