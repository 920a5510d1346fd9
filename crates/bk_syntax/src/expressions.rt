//! Reading expressions.
ghost use Rattle.bk_grammar.specs.Placed.{position_at};
ghost use Rattle.std.specs.Prelude.{◌≡◌, ◌+◌, IfOk, Some, None, Option, MatchOption, option_map, unwrap_or, nat_lt, IfSome, cond, true, false, ℕ, OnOk};
ghost use Rattle.bk_tree.specs.declared.tree.Operator.TheVariants.{Both};
ghost use Rattle.bk_frames.specs.declared.frame.Unfinished.TheVariants as Unfinished;
ghost use Rattle.bk_frames.specs.declared.frame.OpenExpression.TheVariants as o;
ghost use Rattle.bk_frames.specs.Sizes.{IsLeaf, size_of, size_if, both_of, node_of};
ghost use Rattle.bk_frames.specs.Unfinished.{held_in};
ghost use Rattle.bk_tree.specs.Tree.{Expression, expression, expressions_in, binary};
ghost use Rattle.bk_grammar.specs.Rows.{leaf, goes};
ghost use Rattle.bk_frames.specs.Frames.{related};
ghost use Rattle.bk_frames.specs.Sizes.{are_none};
ghost use Rattle.bk_grammar.specs.Grammar.{last};
ghost use Rattle.bk_tree.specs.Parts.{at_expression};
ghost use Rattle.bk_grammar.specs.Machine.{Stack, limit, push, infixed, in_chain, in_args, in_table, bars, no_args, take_operand, give, want, begin, due, have};
ghost use Rattle.bk_frames.specs.Unfinished.{unfinished_on, operand_on, phrase_on, member_on, clause_on, place_on, point_on};
ghost use Rattle.bk_frames.specs.Stacked.{stack};
ghost use Rattle.bk_syntax.specs.Parsing.{reached};
ghost use Rattle.bk_frames.specs.Frames.{stack_of, HasBudgetsFor, state, given, Steps, Answers, Lowers, Falls};

use crate::error::refuse;
use crate::parser::Parser;
use bk_frames::frame::{
    Clause, Flow, Frame, Member, OpenExpression, ParserState, Phrase, Place, Point, Size, Sized,
    Stop, Unfinished,
};
use bk_frames::frames::Frames;
use bk_frames::size::{LEAF, NOTHING, are_none, both, of_node};
use bk_frames::top::{pop, push, push_in_place};
use bk_grammar::placed::position_of;
use bk_grammar::spelling::name;
use bk_grammar::symbols::{
    Opening, goes_on, infix, inner_row, is_arrow, is_both, is_close, is_comma, is_open, opens_with,
    prefix, relates, row_after,
};
use bk_lex::{Kind, Token, character_byte, number_word, string_bytes};
use bk_tree::make::{apply, table};
use bk_tree::{Expr, Operator, Position, Prefix, copy};
use std::alloc::{AllocError, Global};

/// A relation that a further one shares an operand with: the operator and the position of the further one, all that is before it, and the copy
/// of the operand.
#[derive(Drop)]
struct Chain {
    operator: Operator,
    sign: Position,
    before: Box<Expr>,
    shared: Box<Expr>,
}

/// The rows of operators that an operand of this construct may have.
fn rows_above(unfinished: &Unfinished) -> u8
    ensures { (st : Stack) → result ≡ limit (unfinished_on unfinished.now st) }
{
    match unfinished {
        Unfinished::OpenExpression(OpenExpression::Unary(_, prefix)) => row_after(*prefix),
        Unfinished::OpenExpression(OpenExpression::Binary(operator, _, _)) => inner_row(*operator),
        Unfinished::OpenExpression(OpenExpression::Chain(_, _, _, _)) => 5,
        _ => 12,
    }
}

/// Whether the symbol goes on with an expression that is a part of this construct.
pub fn extends(unfinished: &Unfinished, kind: Kind) -> bool
    ensures { (st : Stack) → result ≡ goes (limit (unfinished_on unfinished.now st)) kind }
{
    goes_on(rows_above(unfinished), kind)
}

/// The right operand of a relation.
fn related(expr: &Expr) -> Option<&Expr>
    ensures { MatchOption result (related (expression expr.now) ≡ None) (λ right. related (expression expr.now) ≡ Some (expression right.now)) }
{
    match expr {
        Expr::Binary {
            operator,
            right,
            ..
        } => {
            if relates(*operator) {
                Some(right)
            } else {
                None
            }
        }
        _ => None,
    }
}

/// The operand that a further relation shares, if the expression is a relation.
#[tactic(auto, using(bk_frames::proofs::Lemmas::last_cases))]
fn shared(expr: &Expr) -> Option<&Expr>
    ensures { MatchOption result (last (expression expr.now) ≡ None) (λ right. last (expression expr.now) ≡ Some (expression right.now)) }
{
    match expr {
        Expr::Binary {
            operator,
            right,
            ..
        } => {
            if is_both(*operator) {
                related(right)
            } else {
                related(expr)
            }
        }
        _ => None,
    }
}

/// A leaf of the tree.
fn leaf(expr: Expr) -> ParserState
    requires { IsLeaf (expression expr) }
    ensures { (st : Stack) → state st result ≡ have st (expression expr) }
{
    ParserState::Have(Sized {
        expr,
        size: LEAF,
        right: NOTHING,
    })
}

/// A node that no relation is.
pub fn whole(expr: Expr, parts: Size) -> Sized
    requires size { size_of (expression expr) ≡ node_of parts }
    requires shares { last (expression expr) ≡ None }
    ensures { expression result.expr ≡ expression expr }
{
    Sized {
        expr,
        size: of_node(parts),
        right: NOTHING,
    }
}

/// An operand that is one symbol.
fn leaf_of(alloc: Global, token: &Token) -> Result<Option<Expr>, AllocError>
    ensures small { IfOk result (λ expr. IfSome expr (λ e. IsLeaf (expression e))) }
    ensures leaf { IfOk result (λ expr. leaf token.now.kind (position_at token.now) token.now.text.now ≡ option_map expression expr) }
{
    let at = position_of(token);
    Ok(match token.kind {
        Kind::Name => Some(Expr::Name {
            at,
            letters: name(alloc, token.text)?,
        }),
        Kind::Number => Some(Expr::Number {
            at,
            word: number_word(token.text),
        }),
        Kind::Text => Some(Expr::Text {
            at,
            bytes: string_bytes(alloc, token.text)?,
        }),
        Kind::Character => Some(Expr::Number {
            at,
            word: u32::from(character_byte(token.text)),
        }),
        Kind::True => Some(Expr::Truth { at, truth: true }),
        Kind::False => Some(Expr::Truth { at, truth: false }),
        Kind::Query => Some(Expr::Query { at }),
        _ => None,
    })
}

/// Whether of as many names or destinations as these, with as many items, more than one is still owed.
fn owes(whole: usize, done: usize) -> bool
    ensures { result ≡ nat_lt (done + 1) whole }
{
    whole > done && whole - done > 1
}

/// Whether a comma has to follow the construct on top of this one, where this one decides it.
#[tactic(auto, using(bk_tree::proofs::Lemmas::counts))]
fn barring(unfinished: &Unfinished) -> Option<bool>
    ensures { (st : Stack) → bars (unfinished_on unfinished.now st) ≡ unwrap_or result (bars st) }
{
    match unfinished {
        Unfinished::OpenExpression(OpenExpression::Then(_, _)) => Some(true),
        Unfinished::OpenExpression(
            OpenExpression::Unary(_, _)
            | OpenExpression::Binary(_, _, _)
            | OpenExpression::Chain(_, _, _, _)
            | OpenExpression::Else(_, _, _),
        ) => None,
        Unfinished::Phrase(Phrase::Values(dests, values)) => Some(owes(dests.len(), values.len())),
        Unfinished::Member(Member::Value(names, inits) | Member::Vector(_, names, inits)) => {
            Some(owes(names.len(), inits.len()))
        }
        _ => Some(false),
    }
}

/// Whether a comma has to follow the expression that is read now, so that no TABLE may end it.
#[tactic(auto, using(bk_frames::proofs::Lemmas::stack_none))]
fn is_barred(frames: &Frames) -> bool
    ensures { result ≡ bars (stack_of frames.now) }
{
    let mut i = frames.above.len();
    while i > 0 {
        i -= 1;
        match barring(&frames.above[i].unfinished) {
            Some(answer) => return answer,
            None => {}
        }
    }
    false
}

/// The size of the operand that a further relation would share with this right operand.
#[tactic(auto, using(bk_frames::proofs::Lemmas::last_cases, bk_frames::proofs::Lemmas::related_last))]
fn shared_size(operator: Operator, right: &Sized) -> Size
    ensures { (l m : ℕ) (a : Expression) → result ≡ size_if (last (binary l operator m a (expression right.now.expr))) }
{
    if is_both(operator) {
        return match related(&right.expr) {
            Some(_) => right.right,
            None => NOTHING,
        };
    }
    if relates(operator) {
        right.size
    } else {
        NOTHING
    }
}

/// The `&` of a chain of relations.
#[inline(never)]
fn chained(alloc: Global, chain: Chain, parts: Size, right: Sized) -> Result<Sized, AllocError>
    requires { parts ≡ held_in (Unfinished.OpenExpression (o.Chain chain.operator chain.sign chain.before chain.shared)) }
    ensures { IfOk result (λ whole. expression whole.expr ≡ binary (at_expression (expression chain.before.value)) Both chain.sign (expression chain.before.value)
        (binary (at_expression (expression chain.shared.value)) chain.operator chain.sign (expression chain.shared.value) (expression right.expr))) }
{
    let Chain {
        operator,
        sign,
        before,
        shared,
    } = chain;
    let at = before.at();
    let part = right.size;
    let last = Box::new(alloc, right.expr)?;
    let further = Expr::Binary {
        at: shared.at(),
        operator,
        sign,
        left: shared,
        right: last,
    };
    let further = Box::new(alloc, further)?;
    let expr = Expr::Binary {
        at,
        operator: Operator::Both,
        sign,
        left: before,
        right: further,
    };
    Ok(Sized {
        expr,
        size: of_node(Size {
            depth: both(parts, of_node(part)).depth,
            nodes: both(parts, part).nodes,
        }),
        right: if relates(operator) { part } else { NOTHING },
    })
}

impl Parser {
    /// Puts an unfinished expression on top. Its operand is due.
    #[inline(always)]
    pub fn want(&mut self, operand: OpenExpression, held: Size) -> Result<(), AllocError>
        requires { held ≡ held_in (Unfinished.OpenExpression operand) }
        ensures { OnOk result (state (stack_of self.new.frames) self.new.now ≡ want (operand_on operand (stack_of self.old.frames))) }
    {
        push(&mut self.frames, Unfinished::OpenExpression(operand), held)?;
        self.now.set(ParserState::Want);
        Ok(())
    }

    /// Puts an unfinished command or definition on top. An expression of it is due.
    #[inline(always)]
    pub fn want_in(&mut self, phrase: Phrase, held: Size) -> Result<(), AllocError>
        requires { held ≡ held_in (Unfinished.Phrase phrase) }
        ensures { OnOk result (state (stack_of self.new.frames) self.new.now ≡ want (phrase_on phrase (stack_of self.old.frames))) }
    {
        push(&mut self.frames, Unfinished::Phrase(phrase), held)?;
        self.now.set(ParserState::Want);
        Ok(())
    }

    /// Puts an unfinished item or definition on top. An expression of it is due.
    #[inline(always)]
    pub fn want_for(&mut self, member: Member, held: Size) -> Result<(), AllocError>
        requires { held ≡ held_in (Unfinished.Member member) }
        ensures { OnOk result (state (stack_of self.new.frames) self.new.now ≡ want (member_on member (stack_of self.old.frames))) }
    {
        push(&mut self.frames, Unfinished::Member(member), held)?;
        self.now.set(ParserState::Want);
        Ok(())
    }

    /// Puts an unfinished construct on top. A command of it is due.
    #[inline(always)]
    pub fn wants_command(&mut self, clause: Clause, held: Size) -> Result<(), AllocError>
        requires { held ≡ held_in (Unfinished.Clause clause) }
        ensures { OnOk result (state (stack_of self.new.frames) self.new.now ≡ begin (clause_on clause (stack_of self.old.frames))) }
    {
        push(&mut self.frames, Unfinished::Clause(clause), held)?;
        self.now.set(ParserState::Begin);
        Ok(())
    }

    /// Puts on top a place of an item or a command, where a symbol is due.
    #[inline(always)]
    pub fn due_at(&mut self, point: Point, held: Size) -> Result<(), AllocError>
        requires { held ≡ held_in (Unfinished.Point point) }
        ensures { OnOk result (state (stack_of self.new.frames) self.new.now ≡ due (point_on point (stack_of self.old.frames))) }
    {
        push(&mut self.frames, Unfinished::Point(point), held)?;
        self.now.set(ParserState::Due);
        Ok(())
    }

    /// Puts on top a place of a block or a definition, where a symbol is due.
    #[inline(always)]
    pub fn due(&mut self, place: Place, held: Size) -> Result<(), AllocError>
        requires { held ≡ held_in (Unfinished.Place place) }
        ensures { OnOk result (state (stack_of self.new.frames) self.new.now ≡ due (place_on place (stack_of self.old.frames))) }
    {
        push(&mut self.frames, Unfinished::Place(place), held)?;
        self.now.set(ParserState::Due);
        Ok(())
    }

    /// Puts a place of a block or a definition on top, where a symbol is due, in place of a construct that had the same budgets.
    #[inline(always)]
    pub fn due_still(&mut self, place: Place, held: Size) -> Result<(), AllocError>
        requires held { held ≡ held_in (Unfinished.Place place) }
        requires budgets { HasBudgetsFor self.old.frames (place_on place (stack_of self.old.frames)) }
        ensures { OnOk result (state (stack_of self.new.frames) self.new.now ≡ due (place_on place (stack_of self.old.frames))) }
    {
        push_in_place(&mut self.frames, Unfinished::Place(place), held)?;
        self.now.set(ParserState::Due);
        Ok(())
    }

    /// A relation goes on with a further one: its right operand is copied.
    fn go_on_chain(
        &mut self,
        sized: Sized,
        copy: Box<Expr>,
        operator: Operator,
        sign: Position,
    ) -> Result<(), AllocError>
        requires { last (expression sized.expr) ≡ Some (expression copy.value) }
        ensures { OnOk result (state (stack_of self.new.frames) self.new.now ≡ want (in_chain operator sign (expression sized.expr) (expression copy.value)
            (stack_of self.old.frames))) }
    {
        let held = both(sized.size, of_node(sized.right));
        let whole = Box::new(self.frames.alloc, sized.expr)?;
        self.want(OpenExpression::Chain(operator, sign, whole, copy), held)
    }

    /// The expression goes on with an operator.
    fn go_on_infix(
        &mut self,
        sized: Sized,
        operator: Operator,
        sign: Position,
    ) -> Result<(), AllocError>
        ensures { OnOk result (Some (state (stack_of self.new.frames) self.new.now) ≡ infixed (stack_of self.old.frames) (expression sized.expr) sign (Some operator)) }
    {
        if relates(operator) {
            if let Some(right) = shared(&sized.expr) {
                let copy = copy(self.frames.alloc, right)?;
                let copy = Box::new(self.frames.alloc, copy)?;
                return self.go_on_chain(sized, copy, operator, sign);
            }
        }
        let left = Box::new(self.frames.alloc, sized.expr)?;
        self.want(OpenExpression::Binary(operator, sign, left), sized.size)
    }

    /// The expression goes on with the symbol.
    #[tactic(auto, using(bk_frames::proofs::Lemmas::push_cases))]
    pub fn go_on(&mut self, sized: Sized, token: &Token) -> Result<Flow, Stop>
        ensures answers { Answers self.new.frames self.new.now result token.now (λ l x kind. push (stack_of self.old.frames) (expression sized.expr) kind l) }
        ensures falls { Falls self.old.frames self.new.frames result }
    {
        if let Some(operator) = infix(token.kind) {
            self.go_on_infix(sized, operator, position_of(token))?;
            return Ok(Flow::Taken);
        }
        if is_open(token.kind) {
            let callee = Box::new(self.frames.alloc, sized.expr)?;
            let args = OpenExpression::Args(
                position_of(token),
                callee,
                Vec::new(self.frames.alloc),
            );
            self.want(args, sized.size)?;
            return Ok(Flow::Taken);
        }
        if is_arrow(token.kind) {
            let condition = Box::new(self.frames.alloc, sized.expr)?;
            self.want(
                OpenExpression::Then(position_of(token), condition),
                sized.size,
            )?;
            return Ok(Flow::Taken);
        }
        Err(Stop::Unexpected)
    }

    /// A `)` where an argument is due.
    #[tactic(auto, using(bk_frames::proofs::Lemmas::frames_laws, bk_frames::proofs::Lemmas::no_args_cases))]
    fn no_arguments(&mut self) -> Result<(), Stop>
        ensures { Steps (stack_of self.new.frames) (reached result self.new.now) (no_args (stack_of self.old.frames)) }
    {
        let Some(top) = pop(&mut self.frames) else {
            return Err(Stop::Unexpected);
        };
        let Frame {
            unfinished,
            held,
            spare: _,
        } = top;
        let Unfinished::OpenExpression(operand) = unfinished else {
            return Err(Stop::Unexpected);
        };
        match operand {
            OpenExpression::Args(sign, callee, items) => {
                if !are_none(&items) {
                    return Err(Stop::Unexpected);
                }
                let apply = apply(callee.at(), sign, callee, items);
                self.now.set(ParserState::Have(whole(apply, held)));
                Ok(())
            }
            _ => Err(Stop::Unexpected),
        }
    }

    /// An operand is due, and this symbol comes, which is no name and no number.
    #[inline(never)]
    #[tactic(auto, using(bk_frames::proofs::Lemmas::operand_cases))]
    fn other_operand(&mut self, token: &Token) -> Result<(), Stop>
        ensures { Steps (stack_of self.new.frames) (reached result self.new.now) (take_operand (stack_of self.old.frames) (position_at token.now) token.now.text.now token.now.kind) }
    {
        if let Some(expr) = leaf_of(self.frames.alloc, token)? {
            self.now.set(leaf(expr));
            return Ok(());
        }
        if let Some(prefix) = prefix(token.kind) {
            self.want(OpenExpression::Unary(position_of(token), prefix), NOTHING)?;
            return Ok(());
        }
        match opens_with(token.kind) {
            Some(Opening::Parens) => self.want(
                OpenExpression::Parens(position_of(token)),
                NOTHING,
            )?,
            Some(Opening::Close) => return self.no_arguments(),
            Some(Opening::Valof) => self.wants_command(Clause::Valof(position_of(token)), NOTHING)?,
            Some(Opening::Table) => {
                if is_barred(&self.frames) {
                    return Err(Stop::Unexpected);
                }
                self.want(
                    OpenExpression::Table(position_of(token), Vec::new(self.frames.alloc)),
                    NOTHING,
                )?;
            }
            None => return Err(Stop::Unexpected),
        }
        Ok(())
    }

    /// An operand is due, and this symbol comes.
    pub fn operand(&mut self, token: &Token) -> Result<(), Stop>
        ensures { Steps (stack_of self.new.frames) (reached result self.new.now) (take_operand (stack_of self.old.frames) (position_at token.now) token.now.text.now token.now.kind) }
    {
        match token.kind {
            Kind::Name => self.now.set(leaf(Expr::Name {
                at: position_of(token),
                letters: name(self.frames.alloc, token.text)?,
            })),
            Kind::Number => self.now.set(leaf(Expr::Number {
                at: position_of(token),
                word: number_word(token.text),
            })),
            _ => return self.other_operand(token),
        }
        Ok(())
    }

    /// An expression in parentheses is complete.
    #[inline(never)]
    fn complete_parens(&mut self, at: Position, held: Size, token: &Token) -> Result<Flow, Stop>
        requires stops { goes (limit (operand_on (o.Parens at) (stack_of self.old.frames))) token.now.kind ≡ false }
        requires held { held ≡ held_in (Unfinished.OpenExpression (o.Parens at)) }
        ensures flows { Answers self.new.frames self.new.now result token.now (given (operand_on (o.Parens at) (stack_of self.old.frames)) self.old.now) }
        ensures lowers { Lowers self.old.frames self.new.frames result }
    {
        let ParserState::Have(sized) = self.now.take() else {
            return Err(Stop::Unexpected);
        };
        if !is_close(token.kind) {
            return Err(refuse(sized));
        }
        let parts = both(held, sized.size);
        let inner = Box::new(self.frames.alloc, sized.expr)?;
        self.now.set(ParserState::Have(whole(Expr::Parens { at, inside: inner }, parts)));
        Ok(Flow::Taken)
    }

    /// The operand of a prefix is complete.
    #[inline(never)]
    fn complete_unary(
        &mut self,
        at: Position,
        prefix: Prefix,
        held: Size,
        token: &Token,
    ) -> Result<Flow, Stop>
        requires stops { goes (limit (operand_on (o.Unary at prefix) (stack_of self.old.frames))) token.now.kind ≡ false }
        requires held { held ≡ held_in (Unfinished.OpenExpression (o.Unary at prefix)) }
        ensures flows { Answers self.new.frames self.new.now result token.now (given (operand_on (o.Unary at prefix) (stack_of self.old.frames)) self.old.now) }
        ensures lowers { Lowers self.old.frames self.new.frames result }
    {
        let ParserState::Have(sized) = self.now.take() else {
            return Err(Stop::Unexpected);
        };
        let parts = both(held, sized.size);
        let operand = Box::new(self.frames.alloc, sized.expr)?;
        self.now.set(ParserState::Have(whole(
            Expr::Unary {
                at,
                prefix,
                operand,
            },
            parts,
        )));
        Ok(Flow::Comes)
    }

    /// The right operand of an operator is complete.
    #[inline(never)]
    fn complete_binary(
        &mut self,
        operator: Operator,
        sign: Position,
        left: Box<Expr>,
        held: Size,
        token: &Token,
    ) -> Result<Flow, Stop>
        requires stops { goes (limit (operand_on (o.Binary operator sign left) (stack_of self.old.frames))) token.now.kind ≡ false }
        requires held { held ≡ held_in (Unfinished.OpenExpression (o.Binary operator sign left)) }
        ensures flows { Answers self.new.frames self.new.now result token.now (given (operand_on (o.Binary operator sign left) (stack_of self.old.frames)) self.old.now) }
        ensures lowers { Lowers self.old.frames self.new.frames result }
    {
        let ParserState::Have(sized) = self.now.take() else {
            return Err(refuse(left));
        };
        let parts = both(held, sized.size);
        let shared = shared_size(operator, &sized);
        let at = left.at();
        let right = Box::new(self.frames.alloc, sized.expr)?;
        let pair = Sized {
            expr: Expr::Binary {
                at,
                operator,
                sign,
                left,
                right,
            },
            size: of_node(parts),
            right: shared,
        };
        self.now.set(ParserState::Have(pair));
        Ok(Flow::Comes)
    }

    /// The right operand of a further relation is complete.
    #[inline(never)]
    fn complete_chain(&mut self, chain: Chain, held: Size, token: &Token) -> Result<Flow, Stop>
        requires stops { goes (limit (operand_on (o.Chain chain.operator chain.sign chain.before chain.shared) (stack_of self.old.frames))) token.now.kind ≡ false }
        requires held { held ≡ held_in (Unfinished.OpenExpression (o.Chain chain.operator chain.sign chain.before chain.shared)) }
        ensures flows { Answers self.new.frames self.new.now result token.now (given (operand_on (o.Chain chain.operator chain.sign chain.before chain.shared)
            (stack_of self.old.frames)) self.old.now) }
        ensures lowers { Lowers self.old.frames self.new.frames result }
    {
        let ParserState::Have(sized) = self.now.take() else {
            return Err(refuse(chain));
        };
        self.now.set(ParserState::Have(chained(self.frames.alloc, chain, held, sized)?));
        Ok(Flow::Comes)
    }

    /// The expression between `->` and the comma is complete.
    #[inline(never)]
    fn complete_then(
        &mut self,
        sign: Position,
        condition: Box<Expr>,
        held: Size,
        token: &Token,
    ) -> Result<Flow, Stop>
        requires stops { goes (limit (operand_on (o.Then sign condition) (stack_of self.old.frames))) token.now.kind ≡ false }
        requires held { held ≡ held_in (Unfinished.OpenExpression (o.Then sign condition)) }
        ensures flows { Answers self.new.frames self.new.now result token.now (given (operand_on (o.Then sign condition) (stack_of self.old.frames)) self.old.now) }
        ensures lowers { Lowers self.old.frames self.new.frames result }
    {
        let ParserState::Have(sized) = self.now.take() else {
            return Err(refuse(condition));
        };
        if !is_comma(token.kind) {
            return Err(refuse((condition, sized)));
        }
        let parts = both(held, sized.size);
        let yes = Box::new(self.frames.alloc, sized.expr)?;
        self.want(OpenExpression::Else(sign, condition, yes), parts)?;
        Ok(Flow::Taken)
    }

    /// The expression after the comma of a conditional is complete.
    #[inline(never)]
    fn complete_else(
        &mut self,
        sign: Position,
        condition: Box<Expr>,
        yes: Box<Expr>,
        held: Size,
        token: &Token,
    ) -> Result<Flow, Stop>
        requires stops { goes (limit (operand_on (o.Else sign condition yes) (stack_of self.old.frames))) token.now.kind ≡ false }
        requires held { held ≡ held_in (Unfinished.OpenExpression (o.Else sign condition yes)) }
        ensures flows { Answers self.new.frames self.new.now result token.now (given (operand_on (o.Else sign condition yes) (stack_of self.old.frames)) self.old.now) }
        ensures lowers { Lowers self.old.frames self.new.frames result }
    {
        let ParserState::Have(sized) = self.now.take() else {
            return Err(refuse((condition, yes)));
        };
        let parts = both(held, sized.size);
        let at = condition.at();
        let no = Box::new(self.frames.alloc, sized.expr)?;
        self.now.set(ParserState::Have(whole(
            Expr::Choice {
                at,
                sign,
                condition,
                yes,
                no,
            },
            parts,
        )));
        Ok(Flow::Comes)
    }

    /// An argument is complete.
    #[inline(never)]
    #[tactic(auto, using(bk_tree::proofs::Lemmas::one_more, bk_tree::proofs::Lemmas::more_sizes))]
    fn complete_argument(
        &mut self,
        sign: Position,
        callee: Box<Expr>,
        items: Vec<Expr>,
        held: Size,
        token: &Token,
    ) -> Result<Flow, Stop>
        requires stops { goes (limit (operand_on (o.Args sign callee items) (stack_of self.old.frames))) token.now.kind ≡ false }
        requires held { held ≡ held_in (Unfinished.OpenExpression (o.Args sign callee items)) }
        ensures flows { Answers self.new.frames self.new.now result token.now (given (operand_on (o.Args sign callee items) (stack_of self.old.frames)) self.old.now) }
        ensures lowers { Lowers self.old.frames self.new.frames result }
    {
        let ParserState::Have(sized) = self.now.take() else {
            return Err(refuse(OpenExpression::Args(sign, callee, items)));
        };
        let parts = both(held, sized.size);
        let mut items = items;
        items.push(sized.expr)?;
        if is_comma(token.kind) {
            self.want(OpenExpression::Args(sign, callee, items), parts)?;
            return Ok(Flow::Taken);
        }
        if is_close(token.kind) {
            let apply = apply(callee.at(), sign, callee, items);
            self.now.set(ParserState::Have(whole(apply, parts)));
            return Ok(Flow::Taken);
        }
        Err(Stop::Unexpected)
    }

    /// A number of a TABLE is complete.
    #[inline(never)]
    #[tactic(auto, using(bk_tree::proofs::Lemmas::one_more, bk_tree::proofs::Lemmas::more_sizes))]
    fn complete_entry(
        &mut self,
        at: Position,
        items: Vec<Expr>,
        held: Size,
        token: &Token,
    ) -> Result<Flow, Stop>
        requires stops { goes (limit (operand_on (o.Table at items) (stack_of self.old.frames))) token.now.kind ≡ false }
        requires held { held ≡ held_in (Unfinished.OpenExpression (o.Table at items)) }
        ensures flows { Answers self.new.frames self.new.now result token.now (given (operand_on (o.Table at items) (stack_of self.old.frames)) self.old.now) }
        ensures lowers { Lowers self.old.frames self.new.frames result }
    {
        let ParserState::Have(sized) = self.now.take() else {
            return Err(refuse(items));
        };
        let parts = both(held, sized.size);
        let mut items = items;
        items.push(sized.expr)?;
        if is_comma(token.kind) {
            self.want(OpenExpression::Table(at, items), parts)?;
            return Ok(Flow::Taken);
        }
        self.now
            .set(ParserState::Have(whole(table(at, items), parts)));
        Ok(Flow::Comes)
    }

    /// An operand is complete: the symbol after it does not continue it.
    #[inline(always)]
    pub fn complete(
        &mut self,
        unfinished: OpenExpression,
        held: Size,
        token: &Token,
    ) -> Result<Flow, Stop>
        requires stops { goes (limit (operand_on unfinished (stack_of self.old.frames))) token.now.kind ≡ false }
        requires held { held ≡ held_in (Unfinished.OpenExpression unfinished) }
        ensures flows { Answers self.new.frames self.new.now result token.now (given (operand_on unfinished (stack_of self.old.frames)) self.old.now) }
        ensures lowers { Lowers self.old.frames self.new.frames result }
    {
        match unfinished {
            OpenExpression::Parens(at) => self.complete_parens(at, held, token),
            OpenExpression::Unary(at, prefix) => { self.complete_unary(at, prefix, held, token) }
            OpenExpression::Binary(operator, sign, left) => {
                self.complete_binary(operator, sign, left, held, token)
            }
            OpenExpression::Chain(operator, sign, before, shared) => {
                let chain = Chain {
                    operator,
                    sign,
                    before,
                    shared,
                };
                self.complete_chain(chain, held, token)
            }
            OpenExpression::Then(sign, condition) => {
                self.complete_then(sign, condition, held, token)
            }
            OpenExpression::Else(sign, condition, yes) => {
                self.complete_else(sign, condition, yes, held, token)
            }
            OpenExpression::Args(sign, callee, items) => {
                self.complete_argument(sign, callee, items, held, token)
            }
            OpenExpression::Table(at, items) => { self.complete_entry(at, items, held, token) }
        }
    }
}
