//! Reading commands.
ghost use Rattle.bk_grammar.specs.Placed.{position_at};
ghost use Rattle.std.specs.Prelude.{◌≡◌, ◌+◌, ◌==◌, IfOk, Some, None, Option, false, true, ℕ, OnOk};
ghost use Rattle.bk_tree.specs.Tree.{expression, expressions_in, command_in, mention, more, none};
ghost use Rattle.bk_grammar.specs.Rows.{repeats};
ghost use Rattle.bk_frames.specs.declared.frame.Unfinished.TheVariants as Unfinished;
ghost use Rattle.bk_frames.specs.declared.frame.Phrase.TheVariants as p;
ghost use Rattle.bk_frames.specs.Sizes.{size_of, size_of_command, both_of, node_of};
ghost use Rattle.bk_frames.specs.Unfinished.{held_in};
ghost use Rattle.bk_tree.specs.Parts.{size};
ghost use Rattle.bk_grammar.specs.Machine.{Stack, limit, give, finish, again, dests, guarded, after_sign, take_command, in_start, in_values, in_guard, in_to};
ghost use Rattle.bk_tree.specs.Parts.{each_then};
ghost use Rattle.bk_frames.specs.Unfinished.{phrase_on, clause_on};
ghost use Rattle.bk_frames.specs.Frames.{stack_of, state, given, finished, heads, Steps, Answers, Lowers, Falls};
ghost use Rattle.bk_syntax.specs.Parsing.{reached, EndsExpression};

use crate::error::refuse;
use crate::expressions::whole;
use crate::parser::Parser;
use bk_frames::frame::{
    Clause, Defined, Done, Flow, ParserState, Phrase, Place, Point, Size, Sized, Stop, Unfinished,
};
use bk_frames::frames::Frames;
use bk_frames::size::{LEAF, NOTHING, both, of_node};
use bk_frames::top::push;
use bk_grammar::placed::position_of;
use bk_grammar::symbols::{
    Guard, Heading, Repetition, assigns, guard_begun, heads_with, is_assign, is_by, is_colon,
    is_comma, is_do, is_or, is_sign, is_to, repetition_begun, simple,
};
use bk_lex::Token;
use bk_tree::make::{assign, call, for_loop};
use bk_tree::{Command, Def, Expr, Name, Position, at_expressions};
use std::alloc::{AllocError, Global};

/// A FOR whose start is complete: its position, its variable and the start.
#[derive(Drop)]
struct OpenFor {
    at: Position,
    name: Name,
    from: Box<Expr>,
}

/// A command that is a node with these parts.
pub fn did(command: Command, parts: Size) -> Done
    requires { size_of_command (command_in command) ≡ node_of parts }
    ensures { command_in result.command ≡ command_in command }
{
    Done {
        command,
        size: of_node(parts),
    }
}

/// The command that a guard makes.
pub fn guarded(guard: Guard, at: Position, condition: Box<Expr>, command: Box<Command>) -> Command
    ensures { command_in result ≡ guarded guard at (expression condition.value) (command_in command.value) }
{
    match guard {
        Guard::If => Command::If {
            at,
            truth: true,
            condition,
            body: command,
        },
        Guard::Unless => Command::If {
            at,
            truth: false,
            condition,
            body: command,
        },
        Guard::While => Command::While {
            at,
            truth: true,
            condition,
            body: command,
        },
        Guard::Until => Command::While {
            at,
            truth: false,
            condition,
            body: command,
        },
        Guard::SwitchOn => Command::SwitchOn {
            at,
            value: condition,
            body: command,
        },
        Guard::Case => Command::Case {
            at,
            value: condition,
            body: command,
        },
    }
}

/// Whether one value more makes as many as the destinations are.
#[tactic(auto, using(bk_tree::proofs::Lemmas::expressions_count))]
fn is_last(dests: &[Expr], values: &[Expr]) -> bool
    ensures { result ≡ (size (expressions_in dests.now) == size (expressions_in values.now) + 1) }
{
    dests.len() > 0 && dests.len() - 1 == values.len()
}

/// What is read after the sign of a guard: after that of CASE the command may be missing.
fn after_sign(guard: Guard) -> ParserState
    ensures { (st : Stack) → state st result ≡ after_sign guard st }
{
    match guard {
        Guard::Case => ParserState::Maybe,
        _ => ParserState::Begin,
    }
}

impl Parser {
    /// A command begins with a word of its own.
    fn open_heading(&mut self, heading: Heading, at: Position) -> Result<(), AllocError>
        ensures { OnOk result (state (stack_of self.new.frames) self.new.now ≡ heads (stack_of self.old.frames) at heading) }
    {
        match heading {
            Heading::Goto => self.due_at(Point::Goto(at), NOTHING),
            Heading::Test => self.want_in(Phrase::Test(at), NOTHING),
            Heading::For => self.due_at(Point::For(at), NOTHING),
            Heading::ResultIs => self.want_in(Phrase::ResultIs(at), NOTHING),
            Heading::Default => self.due_at(Point::Default(at), NOTHING),
            Heading::Block => {
                let block = Place::Block(
                    at,
                    true,
                    Vec::new(self.frames.alloc),
                    Vec::new(self.frames.alloc),
                );
                self.due(block, NOTHING)
            }
        }
    }

    /// A command is due, and this symbol comes.
    #[tactic(auto, using(bk_frames::proofs::Lemmas::command_cases))]
    pub fn command(&mut self, token: &Token) -> Result<(), Stop>
        ensures { Steps (stack_of self.new.frames) (reached result self.new.now) (take_command (stack_of self.old.frames) (position_at token.now) token.now.text.now token.now.kind) }
    {
        if let Some(word) = simple(token.kind) {
            self.now.set(ParserState::Did(did(
                Command::Simple {
                    at: position_of(token),
                    word,
                },
                NOTHING,
            )));
            return Ok(());
        }
        if let Some(guard) = guard_begun(token.kind) {
            self.want_in(Phrase::Guard(guard, position_of(token)), NOTHING)?;
            return Ok(());
        }
        match heads_with(token.kind) {
            Some(heading) => {
                self.open_heading(heading, position_of(token))?;
                Ok(())
            }
            None => {
                push(&mut self.frames, Unfinished::Phrase(Phrase::Start), NOTHING)?;
                self.operand(token)
            }
        }
    }

    /// A destination is complete.
    #[tactic(auto, using(bk_frames::proofs::Lemmas::dests_cases, bk_tree::proofs::Lemmas::one_more, bk_tree::proofs::Lemmas::more_sizes))]
    fn further(
        &mut self,
        before: Vec<Expr>,
        parts: Size,
        last: Expr,
        token: &Token,
    ) -> Result<Flow, Stop>
        requires { parts ≡ both_of (held_in (Unfinished.Phrase (p.Dests before))) (size_of (expression last)) }
        ensures answers { Answers self.new.frames self.new.now result token.now (λ l x. dests
            (each_then (expressions_in before.items) (more (expression last) none)) (stack_of self.old.frames)) }
        ensures lowers { Lowers self.old.frames self.new.frames result }
    {
        let mut dests = before;
        dests.push(last)?;
        if is_comma(token.kind) {
            self.want_in(Phrase::Dests(dests), parts)?;
            return Ok(Flow::Taken);
        }
        if is_assign(token.kind) {
            let values = Phrase::Values(dests, Vec::new(self.frames.alloc));
            self.want_in(values, parts)?;
            return Ok(Flow::Taken);
        }
        Err(Stop::Unexpected)
    }

    /// A destination after the first is complete.
    #[inline(never)]
    fn complete_dest(&mut self, before: Vec<Expr>, held: Size, token: &Token) -> Result<Flow, Stop>
        requires stops { EndsExpression token.now.kind }
        requires held { held ≡ held_in (Unfinished.Phrase (p.Dests before)) }
        ensures answers { Answers self.new.frames self.new.now result token.now (given (phrase_on (p.Dests before) (stack_of self.old.frames)) self.old.now) }
        ensures lowers { Lowers self.old.frames self.new.frames result }
    {
        let ParserState::Have(sized) = self.now.take() else {
            return Err(refuse(before));
        };
        let parts = both(held, sized.size);
        self.further(before, parts, sized.expr, token)
    }

    /// The first expression of a command is complete.
    #[inline(never)]
    fn complete_start(&mut self, token: &Token) -> Result<Flow, Stop>
        requires stops { EndsExpression token.now.kind }
        ensures answers { Answers self.new.frames self.new.now result token.now (given (phrase_on p.Start (stack_of self.old.frames)) self.old.now) }
        ensures lowers { Lowers self.old.frames self.new.frames result }
    {
        let ParserState::Have(sized) = self.now.take() else {
            return Err(Stop::Unexpected);
        };
        let Sized {
            expr,
            size,
            right: _,
        } = sized;
        if assigns(token.kind) {
            return self.further(
                Vec::new(self.frames.alloc),
                both(NOTHING, size),
                expr,
                token,
            );
        }
        match expr {
            Expr::Apply {
                at,
                callee,
                arguments: items,
                ..
            } => {
                let done = Done {
                    command: call(at, callee, items),
                    size,
                };
                self.now.set(ParserState::Did(done));
                Ok(Flow::Comes)
            }
            Expr::Name { at, letters } => {
                if !is_colon(token.kind) {
                    return Err(Stop::Unexpected);
                }
                push(
                    &mut self.frames,
                    Unfinished::Clause(Clause::Label(at, letters)),
                    NOTHING,
                )?;
                self.now.set(ParserState::Maybe);
                Ok(Flow::Taken)
            }
            _ => Err(Stop::Unexpected),
        }
    }

    /// A value is complete.
    #[inline(never)]
    #[tactic(auto, using(bk_tree::proofs::Lemmas::one_more, bk_tree::proofs::Lemmas::more_sizes))]
    fn complete_value(
        &mut self,
        dests: Vec<Expr>,
        values: Vec<Expr>,
        held: Size,
        token: &Token,
    ) -> Result<Flow, Stop>
        requires stops { EndsExpression token.now.kind }
        requires held { held ≡ held_in (Unfinished.Phrase (p.Values dests values)) }
        ensures answers { Answers self.new.frames self.new.now result token.now (given (phrase_on (p.Values dests values) (stack_of self.old.frames)) self.old.now) }
        ensures lowers { Lowers self.old.frames self.new.frames result }
    {
        let ParserState::Have(sized) = self.now.take() else {
            return Err(refuse((dests, values)));
        };
        let parts = both(held, sized.size);
        let complete = is_last(&dests, &values);
        let mut values = values;
        values.push(sized.expr)?;
        if complete {
            let at = at_expressions(&dests);
            self.now
                .set(ParserState::Did(did(assign(at, dests, values), parts)));
            return Ok(Flow::Comes);
        }
        if !is_comma(token.kind) {
            return Err(Stop::Unexpected);
        }
        self.want_in(Phrase::Values(dests, values), parts)?;
        Ok(Flow::Taken)
    }

    /// The expression after a guard is complete.
    #[inline(never)]
    fn complete_guard(&mut self, guard: Guard, at: Position, token: &Token) -> Result<Flow, Stop>
        requires stops { EndsExpression token.now.kind }
        ensures answers { Answers self.new.frames self.new.now result token.now (given (phrase_on (p.Guard guard at) (stack_of self.old.frames)) self.old.now) }
        ensures lowers { Lowers self.old.frames self.new.frames result }
    {
        let ParserState::Have(sized) = self.now.take() else {
            return Err(Stop::Unexpected);
        };
        if !is_sign(guard, token.kind) {
            return Err(refuse(sized));
        }
        let parts = sized.size;
        let condition = Box::new(self.frames.alloc, sized.expr)?;
        push(
            &mut self.frames,
            Unfinished::Clause(Clause::Guarded(guard, at, condition)),
            parts,
        )?;
        self.now.set(after_sign(guard));
        Ok(Flow::Taken)
    }

    /// The condition of a TEST is complete.
    #[inline(never)]
    fn complete_test(&mut self, at: Position, held: Size, token: &Token) -> Result<Flow, Stop>
        requires stops { EndsExpression token.now.kind }
        requires held { held ≡ held_in (Unfinished.Phrase (p.Test at)) }
        ensures answers { Answers self.new.frames self.new.now result token.now (given (phrase_on (p.Test at) (stack_of self.old.frames)) self.old.now) }
        ensures lowers { Lowers self.old.frames self.new.frames result }
    {
        let ParserState::Have(sized) = self.now.take() else {
            return Err(Stop::Unexpected);
        };
        if !is_do(token.kind) {
            return Err(refuse(sized));
        }
        let parts = both(held, sized.size);
        let condition = Box::new(self.frames.alloc, sized.expr)?;
        self.wants_command(Clause::Then(at, condition), parts)?;
        Ok(Flow::Taken)
    }

    /// The expression of a RESULTIS is complete.
    #[inline(never)]
    fn complete_result(&mut self, at: Position, held: Size, token: &Token) -> Result<Flow, Stop>
        requires stops { EndsExpression token.now.kind }
        requires held { held ≡ held_in (Unfinished.Phrase (p.ResultIs at)) }
        ensures answers { Answers self.new.frames self.new.now result token.now (given (phrase_on (p.ResultIs at) (stack_of self.old.frames)) self.old.now) }
        ensures lowers { Lowers self.old.frames self.new.frames result }
    {
        let ParserState::Have(sized) = self.now.take() else {
            return Err(Stop::Unexpected);
        };
        let parts = both(held, sized.size);
        let result = Box::new(self.frames.alloc, sized.expr)?;
        self.now.set(ParserState::Did(did(Command::ResultIs { at, value: result }, parts)));
        Ok(Flow::Comes)
    }

    /// The condition of a REPEATWHILE or REPEATUNTIL is complete.
    #[inline(never)]
    fn complete_repeat(
        &mut self,
        truth: bool,
        body: Box<Command>,
        held: Size,
        token: &Token,
    ) -> Result<Flow, Stop>
        requires stops { EndsExpression token.now.kind }
        requires held { held ≡ held_in (Unfinished.Phrase (p.RepeatWhile truth body)) }
        ensures answers { Answers self.new.frames self.new.now result token.now (given (phrase_on (p.RepeatWhile truth body) (stack_of self.old.frames)) self.old.now) }
        ensures lowers { Lowers self.old.frames self.new.frames result }
    {
        let ParserState::Have(sized) = self.now.take() else {
            return Err(refuse(body));
        };
        let parts = both(held, sized.size);
        let at = body.at();
        let condition = Box::new(self.frames.alloc, sized.expr)?;
        let repeat = Command::RepeatWhile {
            at,
            truth,
            body,
            condition,
        };
        self.now.set(ParserState::Did(did(repeat, parts)));
        Ok(Flow::Comes)
    }

    /// The start of a FOR is complete.
    #[inline(never)]
    fn complete_from(
        &mut self,
        at: Position,
        name: Name,
        held: Size,
        token: &Token,
    ) -> Result<Flow, Stop>
        requires stops { EndsExpression token.now.kind }
        requires held { held ≡ held_in (Unfinished.Phrase (p.From at name)) }
        ensures answers { Answers self.new.frames self.new.now result token.now (given (phrase_on (p.From at name) (stack_of self.old.frames)) self.old.now) }
        ensures lowers { Lowers self.old.frames self.new.frames result }
    {
        let ParserState::Have(sized) = self.now.take() else {
            return Err(refuse(name));
        };
        if !is_to(token.kind) {
            return Err(refuse((name, sized)));
        }
        let parts = both(held, sized.size);
        let from = Box::new(self.frames.alloc, sized.expr)?;
        self.want_in(Phrase::To(at, name, from), parts)?;
        Ok(Flow::Taken)
    }

    /// The limit of a FOR is complete.
    #[inline(never)]
    #[tactic(auto, using(bk_frames::proofs::Lemmas::limit_cases))]
    fn complete_to(&mut self, begun: OpenFor, held: Size, token: &Token) -> Result<Flow, Stop>
        requires stops { EndsExpression token.now.kind }
        requires held { held ≡ held_in (Unfinished.Phrase (p.To begun.at begun.name begun.from)) }
        ensures answers { Answers self.new.frames self.new.now result token.now (given (phrase_on (p.To begun.at begun.name begun.from) (stack_of self.old.frames)) self.old.now) }
        ensures lowers { Lowers self.old.frames self.new.frames result }
    {
        let OpenFor { at, name, from } = begun;
        let ParserState::Have(sized) = self.now.take() else {
            return Err(refuse((name, from)));
        };
        let parts = both(held, sized.size);
        let limit = Box::new(self.frames.alloc, sized.expr)?;
        if is_by(token.kind) {
            let by = Phrase::By(at, name, from, limit);
            self.want_in(by, parts)?;
            return Ok(Flow::Taken);
        }
        if is_do(token.kind) {
            let body = Clause::For(at, name, from, limit, None);
            self.wants_command(body, parts)?;
            return Ok(Flow::Taken);
        }
        Err(refuse((name, from, limit)))
    }

    /// The step of a FOR is complete.
    #[inline(never)]
    fn complete_by(
        &mut self,
        begun: OpenFor,
        to: Box<Expr>,
        held: Size,
        token: &Token,
    ) -> Result<Flow, Stop>
        requires stops { EndsExpression token.now.kind }
        requires held { held ≡ held_in (Unfinished.Phrase (p.By begun.at begun.name begun.from to)) }
        ensures answers { Answers self.new.frames self.new.now result token.now (given (phrase_on (p.By begun.at begun.name begun.from to) (stack_of self.old.frames)) self.old.now) }
        ensures lowers { Lowers self.old.frames self.new.frames result }
    {
        let OpenFor { at, name, from } = begun;
        let ParserState::Have(sized) = self.now.take() else {
            return Err(refuse((name, from, to)));
        };
        if !is_do(token.kind) {
            return Err(refuse((name, from, to, sized)));
        }
        let parts = both(held, sized.size);
        let by = Box::new(self.frames.alloc, sized.expr)?;
        let body = Clause::For(at, name, from, to, Some(by));
        self.wants_command(body, parts)?;
        Ok(Flow::Taken)
    }

    /// An expression of a command is complete, with which the symbol after it does not go on.
    #[inline(always)]
    pub fn complete_phrase(
        &mut self,
        unfinished: Phrase,
        held: Size,
        token: &Token,
    ) -> Result<Flow, Stop>
        requires stops { EndsExpression token.now.kind }
        requires held { held ≡ held_in (Unfinished.Phrase unfinished) }
        ensures answers { Answers self.new.frames self.new.now result token.now (given (phrase_on unfinished (stack_of self.old.frames)) self.old.now) }
        ensures lowers { Lowers self.old.frames self.new.frames result }
    {
        match unfinished {
            Phrase::Start => self.complete_start(token),
            Phrase::Dests(before) => self.complete_dest(before, held, token),
            Phrase::Values(dests, values) => self.complete_value(dests, values, held, token),
            Phrase::Guard(guard, at) => self.complete_guard(guard, at, token),
            Phrase::Test(at) => self.complete_test(at, held, token),
            Phrase::ResultIs(at) => self.complete_result(at, held, token),
            Phrase::RepeatWhile(truth, body) => { self.complete_repeat(truth, body, held, token) }
            Phrase::From(at, name) => self.complete_from(at, name, held, token),
            Phrase::To(at, name, from) => {
                self.complete_to(OpenFor { at, name, from }, held, token)
            }
            Phrase::By(at, name, from, to) => {
                self.complete_by(OpenFor { at, name, from }, to, held, token)
            }
        }
    }

    /// The command goes on with REPEAT, REPEATWHILE or REPEATUNTIL.
    #[inline(never)]
    #[tactic(auto, using(bk_frames::proofs::Lemmas::again_cases))]
    pub fn again(&mut self, token: &Token) -> Result<Flow, Stop>
        requires { repeats token.now.kind ≡ true }
        ensures answers { Answers self.new.frames self.new.now result token.now (finished (stack_of self.old.frames) self.old.now) }
        ensures falls { Falls self.old.frames self.new.frames result }
    {
        let ParserState::Did(done) = self.now.take() else {
            return Err(Stop::Unexpected);
        };
        let Done { command, size } = done;
        let at = command.at();
        let body = Box::new(self.frames.alloc, command)?;
        match repetition_begun(token.kind) {
            Some(Repetition::Always) => self
                .now
                .set(ParserState::Did(did(Command::Repeat { at, body }, size))),
            Some(Repetition::While) => self.want_in(Phrase::RepeatWhile(true, body), size)?,
            Some(Repetition::Until) => self.want_in(Phrase::RepeatWhile(false, body), size)?,
            None => return Err(Stop::Unexpected),
        }
        Ok(Flow::Taken)
    }

    /// A command is complete, which the symbol after it does not repeat.
    #[inline(never)]
    #[tactic(auto, using(bk_frames::proofs::Lemmas::guarded_sizes))]
    pub fn complete_clause(
        &mut self,
        unfinished: Clause,
        held: Size,
        token: &Token,
    ) -> Result<Flow, Stop>
        requires stops { repeats token.now.kind ≡ false }
        requires held { held ≡ held_in (Unfinished.Clause unfinished) }
        ensures answers { Answers self.new.frames self.new.now result token.now (finished (clause_on unfinished (stack_of self.old.frames)) self.old.now) }
        ensures lowers { Lowers self.old.frames self.new.frames result }
    {
        let ParserState::Did(done) = self.now.take() else {
            return Err(refuse(unfinished));
        };
        let parts = both(held, done.size);
        let body = Box::new(self.frames.alloc, done.command)?;
        let next = match unfinished {
            Clause::Valof(at) => ParserState::Have(whole(Expr::Valof { at, command: body }, parts)),
            Clause::Label(at, letters) => ParserState::Did(did(
                Command::Label { at, letters, body },
                parts,
            )),
            Clause::Guarded(guard, at, condition) => {
                ParserState::Did(did(guarded(guard, at, condition, body), parts))
            }
            Clause::Default(at) => ParserState::Did(did(Command::Default { at, body }, parts)),
            Clause::Then(at, condition) => {
                if !is_or(token.kind) {
                    return Err(Stop::Unexpected);
                }
                self.wants_command(Clause::Else(at, condition, body), parts)?;
                return Ok(Flow::Taken);
            }
            Clause::Else(at, condition, yes) => {
                ParserState::Did(did(
                    Command::Test {
                        at,
                        condition,
                        yes,
                        no: body,
                    },
                    parts,
                ))
            }
            Clause::For(at, name, from, to, by) => {
                ParserState::Did(did(for_loop(at, name, from, to, by, body), parts))
            }
            Clause::Routine(name, formals) => {
                let Name { at, letters } = name;
                let routine = Defined {
                    def: Def::Routine {
                        at,
                        letters,
                        formals,
                        body,
                    },
                    size: of_node(parts),
                };
                return match self.complete_definition(routine, token) {
                    Ok(()) => Ok(Flow::Taken),
                    Err(Stop::Memory) => Err(Stop::Memory),
                    Err(Stop::Unexpected) => Err(Stop::Unexpected),
                };
            }
        };
        self.now.set(next);
        Ok(Flow::Comes)
    }
}
