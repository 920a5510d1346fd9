//! Expressions: what a machine does for a value, a truth or a place.
ghost use Rattle.std.specs.Prelude.{◌≡◌, IfOk, IfSome, ◌<◌, ◌-◌, ◌+◌, ◌≤◌};
ghost use Rattle.std.specs.Option.{option_map};
ghost use Rattle.bk_tree.specs.Tree.{expression, expressions_in, command_in};
ghost use Rattle.bk_meaning.specs.World.{gives, given, with};
ghost use Rattle.bk_meaning.specs.Lasting.{Program};
ghost use Rattle.bk_meaning.specs.Parts;
ghost use Rattle.bk_meaning.specs.Parts.{acts_at as acting};
ghost use Rattle.bk_meaning.specs.Seeking.{forwards};
ghost use Rattle.bk_meaning.specs.Scopes.{in_order, scope_of, alone};
ghost use Rattle.bk_meaning.specs.Calls.{applied};
ghost use Rattle.bk_meaning.specs.Environment.{objects, past};
ghost use Rattle.bk_meaning.specs.Operators.{sum as sum_of, sum_cause};
ghost use Rattle.bk_meaning.specs.Expressions.{value_of, truth_of, target_of, result_of, judged, combined as combination};
ghost use Rattle.bk_meaning.specs.Full.{full};
ghost use Rattle.bk_check.specs.Views.{mode_in};
ghost use Rattle.bk_objects.specs.Views.{value_in};
ghost use Rattle.bk_lasting.specs.Views.{env_in, sense_in};
ghost use Rattle.bk_check.specs.Worlds.{Bytes, world};
ghost use Rattle.bk_check.specs.Resume.{tag, done_tag, a_value, a_truth, a_target, Comes, resumed, value_goes, truth_goes, target_goes, done_goes, list_value, applied_after};
ghost use Rattle.bk_objects.specs.Views.{outcome_of};
ghost use Rattle.bk_check.specs.Progress.{Within, Adds, arguments_cost, value_cost, truth_cost, target_cost, done_cost};

use crate::commands::act;
use crate::frame::{
    Continuation, Next, OnDone, OnTarget, OnTruth, OnValue, Operands, Sought, Subject, Thing,
    subject_of,
};
use crate::going_on::with_truth;
use crate::known::{DEPTH, known, known_arguments, known_truth};
use crate::seeking::has_place;
use bk_base::word;
use bk_lasting::{Env, Sense, count, in_scope};
use bk_objects::{Computed, Location, Origin, Reason, Store, Worth, combine, read, sum, truth_of};
use bk_tree::{Command, Expr, Operator, Position, Prefix};
use std::alloc::{AllocError, Global};

/// What is to be done, and the world.
#[derive(Drop)]
pub struct Evaluator<'a> {
    pub alloc: Global,
    /// The innermost last.
    pub frames: Vec<Continuation<'a>>,
    pub store: Store,
    pub calls: u64,
    pub most_calls: u64,
    /// The most cells that lived where a procedure was called or a VEC was made.
    pub most_cells: usize,
    pub turns: u64,
}

/// What an operation gave, as what comes next.
pub fn came<'a>(expr: &'a Expr, operands: Operands, came: Computed) -> Next<'a>
    ensures comes { (p : Program) (m : Evaluator) (b : Bytes) → Comes p m.frames.items result (world m b)
        (resumed p m.frames.items (tag a_value (outcome_of (acting (expression expr.now)) came (world m b)))) }
    ensures falls { Adds 0 (Ok result) }
{
    match came {
        Computed::Value(worth) => Next::Gives(Thing::Value(worth)),
        Computed::DivideByZero => Next::DivideByZero(subject_of(expr, operands)),
        Computed::Undefined(reason) => Next::Undefined(subject_of(expr, operands), reason),
    }
}

impl<'a> Evaluator<'a> {
    /// The value of an expression that is known at once, and the turns that are left after it.
    pub fn at_once(&self, expr: &Expr, env: &Env) -> Option<(Worth, u64)>
        ensures value { IfSome result (λ k. (p : Program) (b : Bytes)
            → (full p).value (expression expr.now) (env_in env.now) (world self.now b)
            ≡ gives (value_in k.0) (record (world self.now b) { turns = k.1 })) }
        ensures fewer { IfSome result (λ k. k.1 < self.now.turns) }
        ensures lasting { IfSome result (λ _. objects (expression expr.now) ≡ 0) }
    {
        known(&self.store, self.turns, DEPTH, expr, env)
    }

    /// The operands of an operator, and what it gives.
    fn operands(
        &mut self,
        expr: &'a Expr,
        operator: Operator,
        a: &'a Expr,
        b: &'a Expr,
        env: Env<'a>,
    ) -> Result<Next<'a>, AllocError>
        ensures comes { IfOk result (λ next. (p : Program) (bytes : Bytes) →
            Comes p self.new.frames.items next (world self.new bytes)
            (resumed p self.old.frames.items (tag a_value (with ((full p).value (expression a.now) (env_in env.entry) (world self.old bytes))
            (λ x w. with ((full p).value (expression b.now) (past (expression a.now) (env_in env.entry)) w)
            (combination (acting (expression expr.now)) operator x)))))) }
        ensures turns { self.new.turns ≤ self.old.turns }
    {
        match self.at_once(a, &env) {
            Some(k) => {
                self.turns = k.1;
                self.second(expr, operator, k.0, b, env)
            }
            None => self.first(expr, operator, a, b, env),
        }
    }

    /// The first operand of an operator, by a frame.
    fn first(
        &mut self,
        expr: &'a Expr,
        operator: Operator,
        a: &'a Expr,
        b: &'a Expr,
        env: Env<'a>,
    ) -> Result<Next<'a>, AllocError>
        ensures comes { IfOk result (λ next. (p : Program) (bytes : Bytes) →
            Comes p self.new.frames.items next (world self.new bytes)
            (resumed p self.old.frames.items (tag a_value (with ((full p).value (expression a.now) (env_in env.entry) (world self.old bytes))
            (λ x w. with ((full p).value (expression b.now) (past (expression a.now) (env_in env.entry)) w)
            (combination (acting (expression expr.now)) operator x)))))) }
        ensures turns { self.new.turns ≤ self.old.turns }
    {
        let following = env.again()?.following(count(a)?)?;
        self.asked(OnValue::Left(expr, operator, b, following), a, env)
    }

    /// The second operand of an operator, and what it gives.
    pub fn second(
        &mut self,
        expr: &'a Expr,
        operator: Operator,
        x: Worth,
        b: &'a Expr,
        env: Env<'a>,
    ) -> Result<Next<'a>, AllocError>
        ensures comes { IfOk result (λ next. (p : Program) (bytes : Bytes) →
            Comes p self.new.frames.items next (world self.new bytes)
            (resumed p self.old.frames.items (tag a_value (with
            ((full p).value (expression b.now) (env_in env.entry) (world self.old bytes))
            (combination (acting (expression expr.now)) operator (value_in x)))))) }
        ensures falls { Within 2 self.old self.new result }
    {
        match self.at_once(b, &env) {
            Some(k) => {
                self.turns = k.1;
                Ok(self.combined(expr, operator, x, k.0))
            }
            None => self.asked(OnValue::Right(expr, operator, x), b, env),
        }
    }

    /// A value that is not known at once is asked for, and this frame goes on with it.
    pub fn asked(
        &mut self,
        frame: OnValue<'a>,
        expr: &'a Expr,
        env: Env<'a>,
    ) -> Result<Next<'a>, AllocError>
        ensures comes { IfOk result (λ next. (p : Program) (b : Bytes) →
            Comes p self.new.frames.items next (world self.new b)
            (resumed p self.old.frames.items (value_goes p frame.entry ((full p).value (expression expr.now) (env_in env.entry) (world self.old b))))) }
        ensures falls { Within (value_cost frame.entry + 2) self.old self.new result }
    {
        self.frames.push(Continuation::Value(frame))?;
        Ok(Next::Value(expr, env))
    }

    /// A value is asked for, and this frame goes on with it.
    pub fn first_value(
        &mut self,
        frame: OnValue<'a>,
        expr: &'a Expr,
        env: Env<'a>,
    ) -> Result<Next<'a>, AllocError>
        ensures comes { IfOk result (λ next. (p : Program) (b : Bytes) →
            Comes p self.new.frames.items next (world self.new b)
            (resumed p self.old.frames.items (value_goes p frame.entry ((full p).value (expression expr.now) (env_in env.entry) (world self.old b))))) }
        ensures falls { Within (value_cost frame.entry + 2) self.old self.new result }
    {
        self.frames.push(Continuation::Value(frame))?;
        Ok(self.value_next(expr, env))
    }

    /// What comes next where a value is asked for: the value itself, if it is known at once.
    pub fn value_next(&mut self, expr: &'a Expr, env: Env<'a>) -> Next<'a>
        ensures comes { (p : Program) (b : Bytes) → Comes p self.new.frames.items result (world self.new b)
            (resumed p self.old.frames.items (tag a_value ((full p).value (expression expr.now) (env_in env.entry) (world self.old b)))) }
        ensures falls { Within 1 self.old self.new (Ok result) }
    {
        match self.at_once(expr, &env) {
            Some(k) => {
                self.turns = k.1;
                Next::Gives(Thing::Value(k.0))
            }
            None => Next::Value(expr, env),
        }
    }

    /// A truth is asked for.
    pub fn first_truth(
        &mut self,
        frame: OnTruth<'a>,
        expr: &'a Expr,
        env: Env<'a>,
    ) -> Result<Next<'a>, AllocError>
        ensures comes { IfOk result (λ next. (p : Program) (b : Bytes) →
            Comes p self.new.frames.items next (world self.new b)
            (resumed p self.old.frames.items (truth_goes p frame.entry ((full p).truth (expression expr.now) (env_in env.entry) (world self.old b))))) }
        ensures falls { Within (truth_cost frame.entry + 2) self.old self.new result }
    {
        match known_truth(&self.store, self.turns, DEPTH, expr, &env) {
            Some(k) => {
                self.turns = k.1;
                with_truth(self, frame, k.0)
            }
            None => {
                self.frames.push(Continuation::Truth(frame))?;
                Ok(Next::Truth(expr, env))
            }
        }
    }

    /// A place is asked for.
    pub fn first_target(
        &mut self,
        frame: OnTarget<'a>,
        expr: &'a Expr,
        env: Env<'a>,
    ) -> Result<Next<'a>, AllocError>
        ensures comes { IfOk result (λ next. (p : Program) (b : Bytes) →
            Comes p self.new.frames.items next (world self.new b)
            (resumed p self.old.frames.items (target_goes p frame.entry ((full p).target (expression expr.now) (env_in env.entry) (world self.old b))))) }
        ensures falls { Within (target_cost frame.entry + 2) self.old self.new result }
    {
        self.frames.push(Continuation::Target(frame))?;
        Ok(Next::Target(expr, env))
    }

    /// A command is done first.
    pub fn first_act(
        &mut self,
        frame: OnDone<'a>,
        command: &'a Command,
        mode: Option<Sought<'a>>,
        env: Env<'a>,
    ) -> Result<Next<'a>, AllocError>
        ensures comes { IfOk result (λ next. (p : Program) (b : Bytes) →
            Comes p self.new.frames.items next (world self.new b)
            (resumed p self.old.frames.items (done_goes p frame.entry
            ((full p).act (command_in command.now) (mode_in mode.entry) (env_in env.entry) (world self.old b))))) }
        ensures falls { Within (done_cost frame.entry + 2) self.old self.new result }
    {
        self.frames.push(Continuation::Done(frame))?;
        Ok(Next::Act(command, mode, env))
    }

    /// An expression whose value is asked for, its turn taken.
    fn value_inside(&mut self, expr: &'a Expr, env: Env<'a>) -> Result<Next<'a>, AllocError>
        ensures comes { IfOk result (λ next. (p : Program) (b : Bytes) →
            Comes p self.new.frames.items next (world self.new b)
            (resumed p self.old.frames.items (tag a_value (value_of p (full p) (expression expr.now) (env_in env.entry) (world self.old b))))) }
        ensures turns { self.new.turns ≤ self.old.turns }
    {
        match expr {
            Expr::Name { letters: name, .. } => Ok(self.named(expr, env.sense(name))),
            Expr::Number { word: number, .. } => Ok(Next::Gives(Thing::Value(Worth::Number(
                *number,
            )))),
            Expr::Truth { truth, .. } => Ok(Next::Gives(Thing::Value(Worth::Number(word::truth_of(
                *truth,
            ))))),
            Expr::Query { at } => Ok(Next::Gives(Thing::Value(Worth::Unset(Origin::Query(
                at.line().number(),
            ))))),
            Expr::Text { .. } | Expr::Table { .. } => Ok(Next::Gives(Thing::Value(Worth::Address(
                0, env.next,
            )))),
            Expr::Parens { inside, .. } => Ok(Next::Value(inside, env)),
            Expr::Unary {
                prefix,
                operand,
                ..
            } => match prefix {
                Prefix::Contents => self.first_value(OnValue::Contents(expr), operand, env),
                Prefix::Address => self.first_target(OnTarget::Address(expr), operand, env),
                Prefix::Plus => self.first_value(OnValue::Prefix(expr, Prefix::Plus), operand, env),
                Prefix::Minus => self.first_value(
                    OnValue::Prefix(expr, Prefix::Minus),
                    operand,
                    env,
                ),
                Prefix::Not => self.first_value(OnValue::Prefix(expr, Prefix::Not), operand, env),
            },
            Expr::Binary {
                operator,
                left: a,
                right: b,
                ..
            } => self.operands(expr, *operator, a, b, env),
            Expr::Choice {
                condition: c,
                yes: a,
                no: b,
                ..
            } => {
                let following = env.again()?.following(count(c)?)?;
                self.first_truth(OnTruth::Choice(a, b, following), c, env)
            }
            Expr::Apply {
                sign,
                callee,
                arguments: items,
                ..
            } => self.apply(*sign, callee, items, env),
            Expr::Valof { at, command } => self.valof(*at, command, env),
        }
    }

    /// What is at an address.
    pub fn fetched(&self, expr: &'a Expr, operands: Operands, at: Worth) -> Next<'a>
        ensures comes { (p : Program) (b : Bytes) → Comes p self.now.frames.items result (world self.now b)
            (resumed p self.now.frames.items (tag a_value (Parts.fetch (acting (expression expr.now)) (value_in at) (world self.now b)))) }
        ensures falls { Adds 0 (Ok result) }
    {
        came(expr, operands, read(&self.store, at))
    }

    /// An operator between two values.
    #[inline(never)]
    pub fn combined(&self, expr: &'a Expr, operator: Operator, x: Worth, y: Worth) -> Next<'a>
        ensures comes { (p : Program) (b : Bytes) → Comes p self.now.frames.items result (world self.now b)
            (resumed p self.now.frames.items (tag a_value
            (combination (acting (expression expr.now)) operator (value_in x) (value_in y) (world self.now b)))) }
        ensures falls { Adds 0 (Ok result) }
    {
        came(
            expr,
            Operands::Two(x, y),
            combine(&self.store, operator, x, y),
        )
    }

    /// The truth of a value.
    pub fn truth_given(&self, expr: &'a Expr, x: Worth) -> Next<'a>
        ensures comes { (p : Program) (b : Bytes) → Comes p self.now.frames.items result (world self.now b)
            (resumed p self.now.frames.items (tag a_truth (judged (acting (expression expr.now)) (value_in x) (world self.now b)))) }
        ensures falls { Adds 0 (Ok result) }
    {
        match truth_of(&self.store, x) {
            Ok(truth) => Next::Gives(Thing::Truth(truth)),
            Err(reason) => Next::Undefined(Subject::Condition(expr), reason),
        }
    }

    /// The place that a vector and an offset are.
    pub fn place_given(&self, expr: &'a Expr, x: Worth, y: Worth) -> Next<'a>
        ensures comes { (p : Program) (b : Bytes) → Comes p self.now.frames.items result (world self.now b)
            (resumed p self.now.frames.items (tag a_target (with
            (given (acting (expression expr.now)) (sum_cause (value_in x) (value_in y)) (sum_of (world self.now b).memory (value_in x) (value_in y)) (world self.now b))
            (λ a w. gives (Parts.at a) w)))) }
        ensures falls { Adds 0 (Ok result) }
    {
        match sum(&self.store, x, y) {
            Ok(at) => Next::Gives(Thing::Target(Location::Cell(at))),
            Err(reason) => Next::Undefined(Subject::Operation(expr, x, y), reason),
        }
    }

    /// A name whose value is asked for.
    fn named(&self, expr: &'a Expr, sense: Option<Sense>) -> Next<'a>
        ensures { (p : Program) (b : Bytes) → Comes p self.now.frames.items result (world self.now b)
            (resumed p self.now.frames.items (tag a_value
            (Parts.named (acting (expression expr.now)) (option_map sense_in sense) (world self.now b)))) }
    {
        match sense {
            Some(Sense::Constant(word)) => Next::Gives(Thing::Value(Worth::Number(word))),
            Some(Sense::Cell(offset, object)) => self.fetched(
                expr,
                Operands::None,
                Worth::Address(offset, object),
            ),
            Some(Sense::Label) | Some(Sense::Foreign) | None => Next::Undefined(
                Subject::Expr(expr),
                Reason::NoPlace,
            ),
        }
    }

    /// The arguments, and then the procedure.
    #[inline(never)]
    pub fn apply(
        &mut self,
        at: Position,
        callee: &'a Expr,
        items: &'a [Expr],
        env: Env<'a>,
    ) -> Result<Next<'a>, AllocError>
        ensures comes { IfOk result (λ next. (p : Program) (b : Bytes) →
            Comes p self.new.frames.items next (world self.new b)
            (resumed p self.old.frames.items (tag a_value (applied p (full p) at (expression callee.now) (expressions_in items.now)
            (env_in env.entry) (world self.old b))))) }
        ensures turns { self.new.turns ≤ self.old.turns }
    {
        let here = env.again()?.following(count(callee)?)?;
        self.arguments(at, items, here, Vec::new(self.alloc), callee, env)
    }

    /// The arguments that are left, after those before.
    #[inline(never)]
    pub fn arguments(
        &mut self,
        at: Position,
        items: &'a [Expr],
        here: Env<'a>,
        before: Vec<Worth>,
        callee: &'a Expr,
        env: Env<'a>,
    ) -> Result<Next<'a>, AllocError>
        ensures comes { IfOk result (λ next. (p : Program) (b : Bytes) →
            Comes p self.new.frames.items next (world self.new b)
            (resumed p self.old.frames.items (tag a_value (applied_after p at (list_value before.items) (expressions_in items.now)
            (env_in here.entry) (expression callee.now) (env_in env.entry) (world self.old b))))) }
        ensures falls { Within (arguments_cost items.now) self.old self.new result }
    {
        let k = known_arguments(&self.store, self.turns, items, before, &here)?;
        self.turns = k.turns;
        self.first_argument(at, k.items, here, k.before, callee, env)
    }

    /// The first of the arguments that are left.
    fn first_argument(
        &mut self,
        at: Position,
        items: &'a [Expr],
        here: Env<'a>,
        before: Vec<Worth>,
        callee: &'a Expr,
        env: Env<'a>,
    ) -> Result<Next<'a>, AllocError>
        ensures comes { IfOk result (λ next. (p : Program) (b : Bytes) →
            Comes p self.new.frames.items next (world self.new b)
            (resumed p self.old.frames.items (tag a_value (applied_after p at (list_value before.items) (expressions_in items.now)
            (env_in here.entry) (expression callee.now) (env_in env.entry) (world self.old b))))) }
        ensures falls { Within (arguments_cost items.now) self.old self.new result }
    {
        match items.split_first() {
            Some((first, rest)) => {
                let following = here.again()?.following(count(first)?)?;
                self.asked(
                    OnValue::Argument(at, rest, following, before, callee, env),
                    first,
                    here,
                )
            }
            None => self.first_value(OnValue::Callee(at, callee, before), callee, env),
        }
    }

    /// The command of a VALOF.
    #[inline(never)]
    fn valof(
        &mut self,
        at: Position,
        command: &'a Command,
        env: Env<'a>,
    ) -> Result<Next<'a>, AllocError>
        ensures comes { IfOk result (λ next. (p : Program) (b : Bytes) →
            Comes p self.new.frames.items next (world self.new b)
            (resumed p self.old.frames.items (tag a_value (result_of
            (scope_of (full p) (alone (command_in command.now)) forwards (env_in env.entry) (world self.old b)))))) }
        ensures turns { self.new.turns ≤ self.old.turns }
    {
        self.frames
            .push(Continuation::Done(OnDone::Valof(at.line().number())))?;
        self.alone(command, None, env)
    }

    /// One command as a scope of its own, from its beginning or from a place in it that is sought.
    #[inline(never)]
    pub fn alone(
        &mut self,
        command: &'a Command,
        mode: Option<Sought<'a>>,
        env: Env<'a>,
    ) -> Result<Next<'a>, AllocError>
        ensures comes { IfOk result (λ next. (p : Program) (b : Bytes) →
            Comes p self.new.frames.items next (world self.new b)
            (resumed p self.old.frames.items (tag done_tag (scope_of (full p) (alone (command_in command.now)) (mode_in mode.entry)
            (env_in env.entry) (world self.old b))))) }
        ensures falls { Within 4 self.old self.new result }
    {
        self.frames
            .push(Continuation::Done(OnDone::Alone(command, env.again()?)))?;
        let inside = in_scope(self.alloc, command, env)?;
        from_place(self, command, mode, inside)
    }

    /// An expression that is judged by its value.
    #[inline(never)]
    fn judged(&mut self, expr: &'a Expr, env: Env<'a>) -> Result<Next<'a>, AllocError>
        ensures comes { IfOk result (λ next. (p : Program) (b : Bytes) →
            Comes p self.new.frames.items next (world self.new b)
            (resumed p self.old.frames.items (tag a_truth (with (value_of p (full p) (expression expr.now) (env_in env.entry) (world self.old b))
            (judged (acting (expression expr.now))))))) }
        ensures turns { self.new.turns ≤ self.old.turns }
    {
        self.frames.push(Continuation::Value(OnValue::Judge(expr)))?;
        self.value_inside(expr, env)
    }

    /// An expression whose value is asked for.
    #[inline(never)]
    pub fn value(&mut self, expr: &'a Expr, env: Env<'a>) -> Result<Next<'a>, AllocError>
        ensures comes { IfOk result (λ next. (p : Program) (b : Bytes) →
            Comes p self.new.frames.items next (world self.new b)
            (resumed p self.old.frames.items (tag a_value ((full p).value (expression expr.now) (env_in env.entry) (world self.old b))))) }
        ensures falls { Within 0 self.old self.new result }
    {
        if self.turns == 0 {
            return Ok(Next::Going(acts_at(expr)));
        }
        self.turns -= 1;
        self.value_inside(expr, env)
    }

    /// An expression whose truth is asked for.
    #[inline(never)]
    pub fn truth(&mut self, expr: &'a Expr, env: Env<'a>) -> Result<Next<'a>, AllocError>
        ensures comes { IfOk result (λ next. (p : Program) (b : Bytes) →
            Comes p self.new.frames.items next (world self.new b)
            (resumed p self.old.frames.items (tag a_truth ((full p).truth (expression expr.now) (env_in env.entry) (world self.old b))))) }
        ensures falls { Within 0 self.old self.new result }
    {
        if self.turns == 0 {
            return Ok(Next::Going(acts_at(expr)));
        }
        self.turns -= 1;
        self.truth_inside(expr, env)
    }

    /// A destination.
    #[inline(never)]
    pub fn target(&mut self, expr: &'a Expr, env: Env<'a>) -> Result<Next<'a>, AllocError>
        ensures comes { IfOk result (λ next. (p : Program) (b : Bytes) →
            Comes p self.new.frames.items next (world self.new b)
            (resumed p self.old.frames.items (tag a_target ((full p).target (expression expr.now) (env_in env.entry) (world self.old b))))) }
        ensures falls { Within 0 self.old self.new result }
    {
        if self.turns == 0 {
            return Ok(Next::Going(acts_at(expr)));
        }
        self.turns -= 1;
        self.target_inside(expr, env)
    }

    /// An expression whose truth is asked for, its turn taken.
    fn truth_inside(&mut self, expr: &'a Expr, env: Env<'a>) -> Result<Next<'a>, AllocError>
        ensures comes { IfOk result (λ next. (p : Program) (b : Bytes) →
            Comes p self.new.frames.items next (world self.new b)
            (resumed p self.old.frames.items (tag a_truth (truth_of p (full p) (expression expr.now) (env_in env.entry) (world self.old b))))) }
        ensures turns { self.new.turns ≤ self.old.turns }
    {
        match expr {
            Expr::Parens { inside, .. } => Ok(Next::Truth(inside, env)),
            Expr::Unary {
                prefix,
                operand,
                ..
            } => match prefix {
                Prefix::Not => self.first_truth(OnTruth::Not, operand, env),
                Prefix::Contents | Prefix::Address | Prefix::Plus | Prefix::Minus => self.judged(
                    expr, env,
                ),
            },
            Expr::Binary {
                operator,
                left: a,
                right: b,
                ..
            } => match operator {
                Operator::Both => {
                    let following = env.again()?.following(count(a)?)?;
                    self.first_truth(OnTruth::And(b, following), a, env)
                }
                Operator::Either => {
                    let following = env.again()?.following(count(a)?)?;
                    self.first_truth(OnTruth::Or(b, following), a, env)
                }
                _ => self.judged(expr, env),
            },
            _ => self.judged(expr, env),
        }
    }

    /// A destination, its turn taken.
    fn target_inside(&mut self, expr: &'a Expr, env: Env<'a>) -> Result<Next<'a>, AllocError>
        ensures comes { IfOk result (λ next. (p : Program) (b : Bytes) →
            Comes p self.new.frames.items next (world self.new b)
            (resumed p self.old.frames.items (tag a_target (target_of (full p) (expression expr.now) (env_in env.entry) (world self.old b))))) }
        ensures turns { self.new.turns ≤ self.old.turns }
    {
        match expr {
            Expr::Name { letters: name, .. } => match env.sense(name) {
                Some(Sense::Cell(offset, object)) => Ok(Next::Gives(Thing::Target(Location::Cell(
                    Worth::Address(offset, object),
                )))),
                _ => Ok(Next::Undefined(Subject::Expr(expr), Reason::NoPlace)),
            },
            Expr::Parens { inside, .. } => Ok(Next::Target(inside, env)),
            Expr::Unary {
                prefix: Prefix::Contents,
                operand,
                ..
            } => self.first_value(OnValue::At, operand, env),
            Expr::Binary {
                operator: Operator::Subscript,
                left: a,
                right: b,
                ..
            } => {
                let following = env.again()?.following(count(a)?)?;
                self.first_value(OnValue::Vector(expr, b, following), a, env)
            }
            Expr::Binary {
                operator: Operator::Byte,
                left: a,
                right: b,
                ..
            } => {
                let following = env.again()?.following(count(a)?)?;
                self.first_value(OnValue::String(b, following), a, env)
            }
            _ => Ok(Next::Undefined(Subject::Expr(expr), Reason::NoPlace)),
        }
    }
}

/// A command in its scope, or nothing where the place that is sought is not in it.
fn from_place<'a>(
    m: &mut Evaluator<'a>,
    command: &'a Command,
    mode: Option<Sought<'a>>,
    env: Env<'a>,
) -> Result<Next<'a>, AllocError>
    ensures comes { IfOk result (λ next. (p : Program) (b : Bytes) →
        Comes p m.new.frames.items next (world m.new b)
        (resumed p m.old.frames.items (tag done_tag (in_order (full p) (alone (command_in command.now)) (mode_in mode.entry)
        (env_in env.entry) (world m.old b))))) }
    ensures falls { Within 1 m.old m.new result }
{
    match mode {
        None => act(m, command, None, env),
        Some(sought) => {
            if has_place(sought, &env, command) {
                act(m, command, mode, env)
            } else {
                Ok(Next::Gives(Thing::Done))
            }
        }
    }
}

/// Where an expression acts on its operands: at its operator, or where it begins.
pub fn acts_at(expr: &Expr) -> Position
    ensures { result ≡ acting (expression expr.now) }
{
    match expr {
        Expr::Binary { sign, .. } => *sign,
        other => other.at(),
    }
}
