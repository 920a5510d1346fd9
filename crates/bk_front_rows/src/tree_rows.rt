//! Which tree symbols are: each operator beside each other, prefixes, choices.
use crate::sections::section_of;
use bk_tree::{Command, Decl, Def, Expr, Operator, Prefix, Section};
use std::alloc::{AllocError, Global};
use std::process::Abort;
use std::test::Fail;

/// The row of the relations, which chain.
const RELATIONS: usize = 6;

/// The operators between operands, with their rows from the tightest.
static OPERATORS: [(&str, Operator, usize); 19] = [
    ("!", Operator::Subscript, 2),
    ("%", Operator::Byte, 2),
    ("*", Operator::Times, 4),
    ("/", Operator::Over, 4),
    (" REM ", Operator::Rem, 4),
    ("+", Operator::Add, 5),
    ("-", Operator::Subtract, 5),
    ("=", Operator::Equal, RELATIONS),
    ("~=", Operator::Unequal, RELATIONS),
    ("<", Operator::Less, RELATIONS),
    (">", Operator::Greater, RELATIONS),
    ("<=", Operator::AtMost, RELATIONS),
    (">=", Operator::AtLeast, RELATIONS),
    ("<<", Operator::ShiftLeft, 7),
    (">>", Operator::ShiftRight, 7),
    ("&", Operator::Both, 9),
    ("|", Operator::Either, 10),
    (" EQV ", Operator::Same, 11),
    (" NEQV ", Operator::Differ, 11),
];

/// The prefixes, with their rows.
static PREFIXES: [(&str, Prefix, usize); 5] = [
    ("!", Prefix::Contents, 3),
    ("@", Prefix::Address, 3),
    ("+", Prefix::Plus, 5),
    ("-", Prefix::Minus, 5),
    (" NOT ", Prefix::Not, 8),
];

/// The sign of an operator.
fn sign_of(operator: Operator) -> &'static str {
    for (sign, other, _) in &OPERATORS {
        if *other == operator {
            return sign;
        }
    }
    "?"
}

/// The sign of a prefix.
fn sign_before(prefix: Prefix) -> &'static str {
    for (sign, other, _) in &PREFIXES {
        if *other == prefix {
            return sign;
        }
    }
    "?"
}

/// An expression of names and operators as text, each operator with its operands in square brackets.
#[cycle(show)]
fn show(out: &mut String, expr: &Expr) -> Result<(), Fail> {
    match expr {
        Expr::Name { letters, .. } => {
            let Some(letter) = letters.first() else {
                return Err(Fail::from("no letter"));
            };
            out.push(char::from(*letter))?;
        }
        Expr::Unary {
            prefix,
            operand,
            ..
        } => {
            out.push('[')?;
            out.push_str(sign_before(*prefix))?;
            show(out, operand)?;
            out.push(']')?;
        }
        Expr::Binary {
            operator,
            left,
            right,
            ..
        } => {
            out.push('[')?;
            show(out, left)?;
            out.push_str(sign_of(*operator))?;
            show(out, right)?;
            out.push(']')?;
        }
        Expr::Choice {
            condition,
            yes,
            no,
            ..
        } => {
            out.push('[')?;
            show(out, condition)?;
            out.push_str("->")?;
            show(out, yes)?;
            out.push(',')?;
            show(out, no)?;
            out.push(']')?;
        }
        _ => out.push('.')?,
    }
    Ok(())
}

/// Texts one after the other.
fn joined(alloc: Global, parts: &[&str]) -> Result<String, AllocError> {
    let mut out = String::new(alloc);
    for part in parts {
        out.push_str(part)?;
    }
    Ok(out)
}

/// The tree of what the first procedure of a section gives, as text.
fn first_body(alloc: Global, section: &Section) -> Result<String, Fail> {
    let mut out = String::new(alloc);
    if let Some(Decl::Let { defs, .. }) = section.decls().first() {
        if let Some(Def::Function { body, .. }) = defs.first() {
            show(&mut out, body)?;
        }
    }
    Ok(out)
}

/// The tree of an expression, as text.
fn tree(alloc: Global, text: &str) -> Result<String, Fail> {
    let source = joined(alloc, &["LET F() = ", text])?;
    match section_of(alloc, source.as_bytes()) {
        Ok(section) => first_body(alloc, &section),
        Err(_) => Err(Fail::from("refused")),
    }
}

/// Checks the tree of an expression.
fn check_tree(rt: &impl Abort, alloc: Global, text: &str, expected: &str) -> Result<(), Fail> {
    let shown = tree(alloc, text)?;
    assert_eq!(rt; shown.as_str(), expected);
    Ok(())
}

/// The tree of two operators beside each other, by their rows.
fn pair(alloc: Global, first: usize, second: usize) -> Result<String, AllocError> {
    let (a, _, tighter) = OPERATORS[first % 19];
    let (b, _, looser) = OPERATORS[second % 19];
    if tighter == RELATIONS && looser == RELATIONS {
        return joined(alloc, &["[[A", a, "B]&[B", b, "C]]"]);
    }
    if tighter <= looser {
        return joined(alloc, &["[[A", a, "B]", b, "C]"]);
    }
    joined(alloc, &["[A", a, "[B", b, "C]]"])
}

/// Checks two operators beside each other.
fn check_pair(rt: &impl Abort, alloc: Global, first: usize, second: usize) -> Result<(), Fail> {
    let (a, b) = (OPERATORS[first % 19].0, OPERATORS[second % 19].0);
    let text = joined(alloc, &["A", a, "B", b, "C"])?;
    let expected = pair(alloc, first, second)?;
    check_tree(rt, alloc, text.as_str(), expected.as_str())
}

#[test]
fn pairs_of_operators(rt: HostRuntime) -> Result<(), Fail> {
    for i in 0..19 {
        for j in 0..19 {
            check_pair(&rt, rt.alloc(), i, j)?;
        }
    }
    Ok(())
}

/// The tree of an operator, a prefix and another operator, by their rows.
fn around(alloc: Global, first: usize, prefix: usize, second: usize) -> Result<String, AllocError> {
    let (a, _, tighter) = OPERATORS[first % 19];
    let (p, _, row) = PREFIXES[prefix % 5];
    let (b, _, looser) = OPERATORS[second % 19];
    if looser < row {
        return joined(alloc, &["[A", a, "[", p, "[B", b, "C]]]"]);
    }
    if tighter == RELATIONS && looser == RELATIONS {
        return joined(alloc, &["[[A", a, "[", p, "B]]&[[", p, "B]", b, "C]]"]);
    }
    if tighter <= looser {
        return joined(alloc, &["[[A", a, "[", p, "B]]", b, "C]"]);
    }
    joined(alloc, &["[A", a, "[[", p, "B]", b, "C]]"])
}

/// Checks a prefix between two operators.
fn check_around(
    rt: &impl Abort,
    alloc: Global,
    first: usize,
    prefix: usize,
    second: usize,
) -> Result<(), Fail> {
    let (a, b) = (OPERATORS[first % 19].0, OPERATORS[second % 19].0);
    let text = joined(alloc, &["A", a, " ", PREFIXES[prefix % 5].0, "B", b, "C"])?;
    let expected = around(alloc, first, prefix, second)?;
    check_tree(rt, alloc, text.as_str(), expected.as_str())
}

#[test]
fn prefixes_between_operators(rt: HostRuntime) -> Result<(), Fail> {
    for i in 0..19 {
        for k in 0..5 {
            for j in 0..19 {
                check_around(&rt, rt.alloc(), i, k, j)?;
            }
        }
    }
    Ok(())
}

/// Expressions with their trees.
static EXPRESSIONS: [(&str, &str); 10] = [
    ("-A!B", "[-[A!B]]"),
    ("!A!B", "[![A!B]]"),
    ("@V!A", "[@[V!A]]"),
    ("NOT A = B", "[ NOT [A=B]]"),
    ("A + -B * C", "[A+[-[B*C]]]"),
    ("A < B < C", "[[A<B]&[B<C]]"),
    ("A < B < C < D", "[[[A<B]&[B<C]]&[C<D]]"),
    ("A -> B, C -> D, E", "[A->B,[C->D,E]]"),
    ("A | B -> C, D", "[[A|B]->C,D]"),
    ("A -> B -> C, D, E", "[A->[B->C,D],E]"),
];

#[test]
fn rows_of_expressions(rt: HostRuntime) -> Result<(), Fail> {
    for (text, expected) in &EXPRESSIONS {
        check_tree(&rt, rt.alloc(), text, expected)?;
    }
    Ok(())
}

#[test]
fn repeat_belongs_to_the_command_before(rt: HostRuntime) -> Result<(), Fail> {
    let Ok(section) = section_of(rt.alloc(), b"LET F() BE IF A DO B() REPEAT") else {
        return Err(Fail::from("refused"));
    };
    let Some(Decl::Let { defs, .. }) = section.decls().first() else {
        return Err(Fail::from("no LET"));
    };
    let Some(Def::Routine { body, .. }) = defs.first() else {
        return Err(Fail::from("no routine"));
    };
    let Command::If {
        truth: true,
        body: inner,
        ..
    } = &**body
    else {
        return Err(Fail::from("no IF"));
    };
    let Command::Repeat { body: repeated, .. } = &**inner else {
        return Err(Fail::from("no REPEAT"));
    };
    assert!(rt; matches!(&**repeated, Command::Call { .. }));
    Ok(())
}
