//! Expressions, routines and numbers as they are written.

use crate::text::Text;
use bk_base::word_text;
use bk_objects::{FormatPart, Routine};
use bk_tree::{Expr, Operator, Prefix};
use itoa::Buffer;

/// How many bytes of an expression or a string are written at most.
const LONGEST: usize = 40;

/// Adds pieces of text.
pub fn add(text: &mut Text, pieces: &[&[u8]]) {
    for piece in pieces {
        text.add(piece);
    }
}

/// The name of a routine of the library.
pub fn routine_name(routine: Routine) -> &'static [u8] {
    match routine {
        Routine::Stop => b"STOP",
        Routine::Rdch => b"RDCH",
        Routine::Wrch => b"WRCH",
        Routine::Newline => b"NEWLINE",
        Routine::Writes => b"WRITES",
        Routine::Writen => b"WRITEN",
        Routine::Writed => b"WRITED",
        Routine::Getbyte => b"GETBYTE",
        Routine::Putbyte => b"PUTBYTE",
        Routine::Writef => b"WRITEF",
    }
}

/// What a routine of the library is called: a function where it gives a value.
pub fn routine_kind(routine: Routine) -> &'static [u8] {
    match routine {
        Routine::Rdch | Routine::Getbyte => b"function",
        _ => b"routine",
    }
}

/// The symbol of an operator.
pub fn operator_symbol(operator: Operator) -> &'static [u8] {
    match operator {
        Operator::Subscript => b"!",
        Operator::Byte => b"%",
        Operator::Times => b"*",
        Operator::Over => b"/",
        Operator::Rem => b"REM",
        Operator::Add => b"+",
        Operator::Subtract => b"-",
        Operator::Equal => b"=",
        Operator::Unequal => b"~=",
        Operator::Less => b"<",
        Operator::Greater => b">",
        Operator::AtMost => b"<=",
        Operator::AtLeast => b">=",
        Operator::ShiftLeft => b"<<",
        Operator::ShiftRight => b">>",
        Operator::Both => b"&",
        Operator::Either => b"|",
        Operator::Same => b"EQV",
        Operator::Differ => b"NEQV",
    }
}

/// The symbol of a prefix.
pub fn prefix_symbol(prefix: Prefix) -> &'static [u8] {
    match prefix {
        Prefix::Contents => b"!",
        Prefix::Address => b"@",
        Prefix::Plus => b"+",
        Prefix::Minus => b"-",
        Prefix::Not => b"NOT ",
    }
}

/// Whether a piece is in a text.
pub fn has_piece(text: &[u8], piece: &[u8]) -> bool {
    for i in 0..text.len() {
        if let Some(rest) = text.get(i..)
            && rest.starts_with(piece)
        {
            return true;
        }
    }
    false
}

/// Adds a number.
pub fn add_number(text: &mut Text, number: usize) {
    let mut buffer = Buffer::new();
    add(text, &[buffer.format(number).as_bytes()]);
}

/// Adds a word as a signed number.
pub fn add_word(text: &mut Text, word: u32) {
    let spelling = word_text(word.cast_signed());
    add(text, &[spelling.as_bytes()]);
}

/// How the place of a number in an order ends, as in 2nd.
fn ordinal_ending(number: usize) -> &'static [u8] {
    if number % 100 > 10 && number % 100 < 14 {
        return b"th";
    }
    match number % 10 {
        1 => b"st",
        2 => b"nd",
        3 => b"rd",
        _ => b"th",
    }
}

/// Adds the place of a number in an order, as 2nd.
pub fn add_ordinal(text: &mut Text, number: usize) {
    add_number(text, number);
    add(text, &[ordinal_ending(number)]);
}

/// Adds a byte of a string.
fn add_string_byte(text: &mut Text, byte: u8) {
    match byte {
        b'\n' => add(text, &[b"*N"]),
        b'\t' => add(text, &[b"*T"]),
        8 => add(text, &[b"*B"]),
        12 => add(text, &[b"*P"]),
        b'\r' => add(text, &[b"*C"]),
        b'"' => add(text, &[b"*\""]),
        b'*' => add(text, &[b"**"]),
        0..=31 | 127..=255 => add(text, &[b"?"]),
        _ => add(text, &[&[byte]]),
    }
}

/// Adds a byte as a character constant.
pub fn add_character(text: &mut Text, byte: u8) {
    add(text, &[b"'"]);
    match byte {
        b'\'' => add(text, &[b"*'"]),
        _ => add_string_byte(text, byte),
    }
    add(text, &[b"'"]);
}

/// Adds a string between quotes: its beginning where it is long.
pub fn add_string(text: &mut Text, bytes: &[u8]) {
    add(text, &[b"\""]);
    for byte in bytes.iter().take(LONGEST) {
        add_string_byte(text, *byte);
    }
    if bytes.len() > LONGEST {
        add(text, &[b".."]);
    }
    add(text, &[b"\""]);
}

/// Adds a directive of a format.
pub fn add_directive(text: &mut Text, part: FormatPart) {
    match part {
        FormatPart::String => add(text, &[b"%S"]),
        FormatPart::Number => add(text, &[b"%N"]),
        FormatPart::Character => add(text, &[b"%C"]),
        FormatPart::Column(width) => {
            add(text, &[b"%I"]);
            add_number(text, usize::from(width));
        }
        FormatPart::Byte(_) | FormatPart::Percent => add(text, &[b"%%"]),
    }
}

/// Adds an expression as it is written, but for blanks. What is long is cut.
pub fn add_expr(text: &mut Text, expr: &Expr) {
    let start = text.bytes().len();
    put_expr(text, expr);
    if text.bytes().len().saturating_sub(start) > LONGEST {
        text.truncate(start.saturating_add(LONGEST));
        add(text, &[b".."]);
    }
}

/// Adds an expression.
#[cycle(spelling)]
fn put_expr(text: &mut Text, expr: &Expr) {
    match expr {
        Expr::Name { letters, .. } => add(text, &[letters]),
        Expr::Number { word, .. } => add_word(text, *word),
        Expr::Text { bytes, .. } => add_string(text, bytes),
        Expr::Truth { truth, .. } => if *truth {
            add(text, &[b"TRUE"]);
        } else {
            add(text, &[b"FALSE"]);
        },
        Expr::Query { .. } => add(text, &[b"?"]),
        Expr::Parens { inside, .. } => {
            add(text, &[b"("]);
            put_expr(text, inside);
            add(text, &[b")"]);
        }
        Expr::Unary {
            prefix,
            operand,
            ..
        } => {
            add(text, &[prefix_symbol(*prefix)]);
            put_expr(text, operand);
        }
        Expr::Binary {
            operator: Operator::Both,
            left,
            right,
            ..
        } if is_chain(left, right) => {
            put_expr(text, left);
            if let Expr::Binary {
                operator,
                right: last,
                ..
            } = &**right
            {
                add(text, &[b" ", operator_symbol(*operator), b" "]);
                put_expr(text, last);
            }
        }
        Expr::Binary {
            operator,
            left,
            right,
            ..
        } => {
            let blank: &[u8] = if matches!(operator, Operator::Subscript | Operator::Byte) {
                b""
            } else {
                b" "
            };
            put_expr(text, left);
            add(text, &[blank, operator_symbol(*operator), blank]);
            put_expr(text, right);
        }
        Expr::Choice {
            condition,
            yes,
            no,
            ..
        } => {
            put_expr(text, condition);
            add(text, &[b" -> "]);
            put_expr(text, yes);
            add(text, &[b", "]);
            put_expr(text, no);
        }
        Expr::Apply {
            callee,
            arguments,
            ..
        } => {
            put_expr(text, callee);
            add(text, &[b"("]);
            put_exprs(text, arguments);
            add(text, &[b")"]);
        }
        Expr::Valof { .. } => add(text, &[b"VALOF .."]),
        Expr::Table { items, .. } => {
            add(text, &[b"TABLE "]);
            put_exprs(text, items);
        }
    }
}

/// Whether the operands of an `&` are the relations of a chain: they share an operand of the text.
fn is_chain(left: &Expr, right: &Expr) -> bool {
    let last = match left {
        Expr::Binary {
            operator: Operator::Both,
            right: last,
            ..
        } => &**last,
        _ => left,
    };
    match (last, right) {
        (Expr::Binary { right: shared, .. }, Expr::Binary { left: copy, .. }) => shared.at()
            == copy.at(),
        _ => false,
    }
}

/// Adds expressions, with commas between them.
#[cycle(spelling)]
fn put_exprs(text: &mut Text, exprs: &[Expr]) {
    for (i, expr) in exprs.iter().enumerate() {
        if i > 0 {
            add(text, &[b", "]);
        }
        put_expr(text, expr);
    }
}
