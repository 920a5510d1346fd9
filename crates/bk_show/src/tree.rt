//! The tree of a section: a line for each node, below the line of the node that it belongs to.

use crate::spelling::{
    operator_spelling, prefix_spelling, put_string, simple_spelling, sort_spelling,
};
use crate::text::Text;
use bk_tree::{Command, ConstItem, Decl, Def, Expr, Init, Name, Position, Section, Sort};
use std::alloc::{AllocError, Global};

/// A line of a tree.
#[derive(Clone, Copy)]
pub struct Node {
    /// How many nodes it is below, up to one that is below none.
    pub level: usize,
    /// Its position; an empty command has none.
    pub at: Option<Position>,
    /// Where its words begin in the text, and where they end.
    pub from: usize,
    pub to: usize,
}

/// A tree as text, a line for each node.
#[derive(Drop)]
pub struct Tree {
    /// The text, after one line that names the columns.
    pub text: Text,
    /// Its nodes, in the order of their lines.
    pub nodes: Vec<Node>,
}

/// A tree that is put.
#[derive(Drop)]
struct Walk<'a> {
    text: Text,
    nodes: Vec<Node>,
    /// Which declarations with constants are of a header, in the source's order.
    headers: &'a [bool],
    /// How many of these were met.
    met: usize,
}

impl Walk<'_> {
    /// Begins the line of a node.
    fn begin(&mut self, at: Option<Position>, level: usize) -> Result<(), AllocError> {
        match at {
            Some(at) => self.text.begin(at.line())?,
            None => self.text.begin_without()?,
        }
        self.text.indent(level)?;
        let from = self.text.len();
        self.nodes.push(Node {
            level,
            at,
            from,
            to: from,
        })?;
        Ok(())
    }

    /// Ends the line of a node.
    fn end(&mut self) -> Result<(), AllocError> {
        let to = self.text.len();
        if let Some(node) = self.nodes.last_mut() {
            node.to = to;
        }
        self.text.end()
    }

    /// Adds a node that words describe.
    fn node(&mut self, at: Position, level: usize, words: &str) -> Result<(), AllocError> {
        self.begin(Some(at), level)?;
        self.text.say(words)?;
        self.end()
    }

    /// Adds a node that words and a name describe.
    fn named(
        &mut self,
        at: Position,
        level: usize,
        words: &str,
        name: &[u8],
    ) -> Result<(), AllocError> {
        self.begin(Some(at), level)?;
        self.text.say(words)?;
        self.text.spell(name)?;
        self.end()
    }

    /// Adds a number.
    fn number(&mut self, at: Position, level: usize, word: u32) -> Result<(), AllocError> {
        self.begin(Some(at), level)?;
        self.text.say("number ")?;
        self.text.integer(word.cast_signed())?;
        self.end()
    }

    /// Adds a string.
    fn string(&mut self, at: Position, level: usize, bytes: &[u8]) -> Result<(), AllocError> {
        self.begin(Some(at), level)?;
        self.text.say("string ")?;
        put_string(&mut self.text, bytes)?;
        self.end()
    }

    /// Adds an empty command, which has no line.
    fn empty(&mut self, level: usize) -> Result<(), AllocError> {
        self.begin(None, level)?;
        self.text.say("no command")?;
        self.end()
    }

    /// Adds names with commas between them.
    fn names(&mut self, names: &[Name]) -> Result<(), AllocError> {
        for (i, name) in names.iter().enumerate() {
            if i > 0 {
                self.text.say(", ")?;
            }
            self.text.spell(&name.letters)?;
        }
        Ok(())
    }

    /// Adds the head of a procedure.
    fn head(
        &mut self,
        at: Position,
        level: usize,
        words: &str,
        name: &[u8],
        formals: &[Name],
    ) -> Result<(), AllocError> {
        self.begin(Some(at), level)?;
        self.text.say(words)?;
        self.text.spell(name)?;
        self.text.say("(")?;
        self.names(formals)?;
        self.text.say(")")?;
        self.end()
    }

    /// Adds the head of variables.
    fn variables(&mut self, at: Position, level: usize, names: &[Name]) -> Result<(), AllocError> {
        self.begin(Some(at), level)?;
        self.text.say("variables ")?;
        self.names(names)?;
        self.end()
    }

    /// Adds a declaration of a header.
    fn header(
        &mut self,
        at: Position,
        level: usize,
        sort: Sort,
        items: usize,
    ) -> Result<(), AllocError> {
        self.begin(Some(at), level)?;
        self.text.say(sort_spelling(sort))?;
        self.text.say(" of the header, with ")?;
        self.text.natural((items % 0x1_0000_0000) as u32)?;
        self.text.say(" names")?;
        self.end()
    }

    /// Whether the next declaration with constants is of a header.
    fn takes_header(&mut self) -> bool {
        let is = matches!(self.headers.get(self.met), Some(true));
        self.met = self.met.saturating_add(1);
        is
    }
}

/// The level below a level.
fn below(level: usize) -> usize {
    level.saturating_add(1)
}

/// Adds an expression.
#[cycle(nodes)]
fn put_expr(walk: &mut Walk<'_>, level: usize, expr: &Expr) -> Result<(), AllocError> {
    match expr {
        Expr::Name { at, letters } => walk.named(*at, level, "name ", letters),
        Expr::Number { at, word } => walk.number(*at, level, *word),
        Expr::Text { at, bytes } => walk.string(*at, level, bytes),
        Expr::Truth { at, truth } => walk.node(*at, level, if *truth { "TRUE" } else { "FALSE" }),
        Expr::Query { at } => walk.node(*at, level, "?"),
        Expr::Parens { at, inside } => {
            walk.node(*at, level, "( )")?;
            put_expr(walk, below(level), inside)
        }
        Expr::Unary {
            at,
            prefix,
            operand,
        } => {
            walk.named(*at, level, "prefix ", prefix_spelling(*prefix).as_bytes())?;
            put_expr(walk, below(level), operand)
        }
        Expr::Binary {
            operator,
            sign,
            left,
            right,
            ..
        } => {
            walk.named(
                *sign,
                level,
                "operator ",
                operator_spelling(*operator).as_bytes(),
            )?;
            put_expr(walk, below(level), left)?;
            put_expr(walk, below(level), right)
        }
        Expr::Choice {
            sign,
            condition,
            yes,
            no,
            ..
        } => {
            walk.node(*sign, level, "choice ->")?;
            put_expr(walk, below(level), condition)?;
            put_expr(walk, below(level), yes)?;
            put_expr(walk, below(level), no)
        }
        Expr::Apply {
            at,
            callee,
            arguments,
            ..
        } => {
            walk.node(*at, level, "call of a function")?;
            put_expr(walk, below(level), callee)?;
            put_exprs(walk, below(level), arguments)
        }
        Expr::Valof { at, command } => {
            walk.node(*at, level, "VALOF")?;
            put_command(walk, below(level), command)
        }
        Expr::Table { at, items } => {
            walk.node(*at, level, "TABLE")?;
            put_exprs(walk, below(level), items)
        }
    }
}

/// Adds expressions one after another.
#[cycle(nodes)]
fn put_exprs(walk: &mut Walk<'_>, level: usize, exprs: &[Expr]) -> Result<(), AllocError> {
    for expr in exprs {
        put_expr(walk, level, expr)?;
    }
    Ok(())
}

/// Adds a command.
#[cycle(nodes)]
fn put_command(walk: &mut Walk<'_>, level: usize, command: &Command) -> Result<(), AllocError> {
    match command {
        Command::Empty => walk.empty(level),
        Command::Assign {
            at,
            destinations,
            values,
        } => {
            walk.node(*at, level, ":=")?;
            put_exprs(walk, below(level), destinations)?;
            put_exprs(walk, below(level), values)
        }
        Command::Call {
            at,
            callee,
            arguments,
        } => {
            walk.node(*at, level, "call of a routine")?;
            put_expr(walk, below(level), callee)?;
            put_exprs(walk, below(level), arguments)
        }
        Command::Goto { at, name } => walk.named(*at, level, "GOTO ", &name.letters),
        Command::Label { at, letters, body } => {
            walk.named(*at, level, "label ", letters)?;
            put_command(walk, below(level), body)
        }
        Command::Case {
            at,
            value: expr,
            body,
        } => {
            walk.node(*at, level, "CASE")?;
            put_expr(walk, below(level), expr)?;
            put_command(walk, below(level), body)
        }
        Command::Default { at, body } => {
            walk.node(*at, level, "DEFAULT")?;
            put_command(walk, below(level), body)
        }
        Command::If {
            at,
            truth,
            condition,
            body,
        } => {
            walk.node(*at, level, if *truth { "IF" } else { "UNLESS" })?;
            put_expr(walk, below(level), condition)?;
            put_command(walk, below(level), body)
        }
        Command::Test {
            at,
            condition,
            yes: body,
            no: other,
        } => {
            walk.node(*at, level, "TEST")?;
            put_expr(walk, below(level), condition)?;
            put_command(walk, below(level), body)?;
            put_command(walk, below(level), other)
        }
        Command::While {
            at,
            truth,
            condition,
            body,
        } => {
            walk.node(*at, level, if *truth { "WHILE" } else { "UNTIL" })?;
            put_expr(walk, below(level), condition)?;
            put_command(walk, below(level), body)
        }
        Command::For {
            at,
            name,
            from,
            to,
            by,
            body,
        } => {
            walk.named(*at, level, "FOR ", &name.letters)?;
            put_expr(walk, below(level), from)?;
            put_expr(walk, below(level), to)?;
            if let Some(step) = by {
                put_expr(walk, below(level), step)?;
            }
            put_command(walk, below(level), body)
        }
        Command::SwitchOn {
            at,
            value: expr,
            body,
        } => {
            walk.node(*at, level, "SWITCHON")?;
            put_expr(walk, below(level), expr)?;
            put_command(walk, below(level), body)
        }
        Command::ResultIs { at, value: expr } => {
            walk.node(*at, level, "RESULTIS")?;
            put_expr(walk, below(level), expr)
        }
        Command::Simple { at, word: simple } => walk.node(*at, level, simple_spelling(*simple)),
        Command::Block {
            at,
            decls,
            commands,
        } => {
            walk.node(*at, level, "$( $)")?;
            put_decls(walk, below(level), decls)?;
            put_commands(walk, below(level), commands)
        }
        Command::Repeat { at, body } => {
            walk.node(*at, level, "REPEAT")?;
            put_command(walk, below(level), body)
        }
        Command::RepeatWhile {
            at,
            truth,
            body,
            condition,
        } => {
            walk.node(
                *at,
                level,
                if *truth { "REPEATWHILE" } else { "REPEATUNTIL" },
            )?;
            put_command(walk, below(level), body)?;
            put_expr(walk, below(level), condition)
        }
    }
}

/// Adds commands one after another.
#[cycle(nodes)]
fn put_commands(walk: &mut Walk<'_>, level: usize, commands: &[Command]) -> Result<(), AllocError> {
    for command in commands {
        put_command(walk, level, command)?;
    }
    Ok(())
}

/// Adds declarations one after another.
#[cycle(nodes)]
fn put_decls(walk: &mut Walk<'_>, level: usize, decls: &[Decl]) -> Result<(), AllocError> {
    for decl in decls {
        put_decl(walk, level, decl)?;
    }
    Ok(())
}

/// Adds a declaration. One of a header is a single line.
#[cycle(nodes)]
fn put_decl(walk: &mut Walk<'_>, level: usize, decl: &Decl) -> Result<(), AllocError> {
    match decl {
        Decl::Constants { at, sort, items } => {
            if walk.takes_header() {
                return walk.header(*at, level, *sort, items.len());
            }
            walk.node(*at, level, sort_spelling(*sort))?;
            put_items(walk, below(level), items)
        }
        Decl::Let { at, defs } => {
            walk.node(*at, level, "LET")?;
            put_defs(walk, below(level), defs)
        }
    }
}

/// Adds the items of a declaration, each with its constant.
#[cycle(nodes)]
fn put_items(walk: &mut Walk<'_>, level: usize, items: &[ConstItem]) -> Result<(), AllocError> {
    for ConstItem::Item {
        at,
        letters: name,
        expr,
    } in items {
        walk.named(*at, level, "item ", name)?;
        put_expr(walk, below(level), expr)?;
    }
    Ok(())
}

/// Adds definitions one after another.
#[cycle(nodes)]
fn put_defs(walk: &mut Walk<'_>, level: usize, defs: &[Def]) -> Result<(), AllocError> {
    for def in defs {
        put_def(walk, level, def)?;
    }
    Ok(())
}

/// Adds a definition.
#[cycle(nodes)]
fn put_def(walk: &mut Walk<'_>, level: usize, def: &Def) -> Result<(), AllocError> {
    match def {
        Def::Routine {
            at,
            letters: name,
            formals,
            body,
        } => {
            walk.head(*at, level, "routine ", name, formals)?;
            put_command(walk, below(level), body)
        }
        Def::Function {
            at,
            letters: name,
            formals,
            body,
        } => {
            walk.head(*at, level, "function ", name, formals)?;
            put_expr(walk, below(level), body)
        }
        Def::Variables {
            at,
            names,
            inits: starts,
        } => {
            walk.variables(*at, level, names)?;
            put_starts(walk, below(level), starts)
        }
    }
}

/// Adds what variables begin with.
#[cycle(nodes)]
fn put_starts(walk: &mut Walk<'_>, level: usize, starts: &[Init]) -> Result<(), AllocError> {
    for start in starts {
        put_start(walk, level, start)?;
    }
    Ok(())
}

/// Adds what a variable begins with.
#[cycle(nodes)]
fn put_start(walk: &mut Walk<'_>, level: usize, start: &Init) -> Result<(), AllocError> {
    match start {
        Init::Value(expr) => put_expr(walk, level, expr),
        Init::Vector { at, size: expr } => {
            walk.node(*at, level, "VEC")?;
            put_expr(walk, below(level), expr)
        }
    }
}

/// A line for each node. `headers` says which declarations with constants are of a header.
pub fn tree_of(alloc: Global, section: &Section, headers: &[bool]) -> Result<Tree, AllocError> {
    let mut walk = Walk {
        text: Text::new(alloc),
        nodes: Vec::new(alloc),
        headers,
        met: 0,
    };
    walk.text.say("  line  node")?;
    walk.text.end()?;
    put_decls(&mut walk, 0, section.decls())?;
    let Walk { text, nodes, .. } = walk;
    Ok(Tree { text, nodes })
}
