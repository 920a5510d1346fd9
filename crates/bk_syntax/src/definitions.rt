//! Reading the definitions of a LET.
ghost use Rattle.bk_grammar.specs.Placed.{position_at};
ghost use Rattle.std.specs.Prelude.{◌≡◌, ◌+◌, ◌==◌, [], ◌∷◌, IfOk, cond, false, map, length};
ghost use Rattle.bk_tree.specs.Tree.{definition, definitions_in, starts_in, mention, variables};
ghost use Rattle.bk_frames.specs.declared.frame.Unfinished.TheVariants as Unfinished;
ghost use Rattle.bk_frames.specs.declared.frame.Place.TheVariants as p;
ghost use Rattle.bk_frames.specs.declared.frame.Member.TheVariants as m;
ghost use Rattle.bk_frames.specs.Unfinished.{held_in};
ghost use Rattle.bk_frames.specs.Sizes.{both_of, kept_size};
ghost use Rattle.bk_tree.specs.Limits.{depth_of_starts, nodes_of_starts};
ghost use Rattle.bk_tree.specs.Parts.{at_names, start_count};
ghost use Rattle.bk_grammar.specs.Machine.{defined_by, in_names, in_formals, headed, in_let, inside, counted, take_due, at_name, at_formals, at_formal, at_variable, at_starts, due};
ghost use Rattle.bk_tree.specs.Parts.{starts_then};
ghost use Rattle.bk_frames.specs.Unfinished.{member_on, place_on};
ghost use Rattle.bk_frames.specs.Frames.{stack_of, HasBudgetsFor, given, Steps, Answers, Lowers, NamedBy, is_let_unfinished, is_block_unfinished};
ghost use Rattle.bk_syntax.specs.Parsing.{reached, EndsExpression};

use crate::declarations::{OpenItems, declare};
use crate::error::refuse;
use crate::parser::Parser;
use bk_frames::frame::{
    Clause, Defined, Flow, Frame, Member, ParserState, Phrase, Place, Size, Stop, Unfinished,
};
use bk_frames::frames::Frames;
use bk_frames::size::{NOTHING, both, of_node};
use bk_frames::top::{pop, push, push_in_place};
use bk_grammar::placed::position_of;
use bk_grammar::spelling::name;
use bk_grammar::symbols::{is_and, is_be, is_close, is_comma, is_equal, is_name, is_open, is_vec};
use bk_lex::Token;
use bk_tree::make::{self, let_of};
use bk_tree::{ConstItem, Def, Init, Name, Position, at_names};
use std::alloc::{AllocError, Global};

/// The name that a symbol is, if it is one.
pub fn name_of(alloc: Global, token: &Token) -> Result<Option<Name>, AllocError>
    ensures { IfOk result (λ found. NamedBy found token.now) }
{
    if !is_name(token.kind) {
        return Ok(None);
    }
    let letters = name(alloc, token.text)?;
    Ok(Some(Name {
        at: position_of(token),
        letters,
    }))
}

/// Whether one item more makes as many as the names are.
#[tactic(auto, using(bk_tree::proofs::Lemmas::counts))]
fn is_last(names: &[Name], inits: &[Init]) -> bool
    ensures { result ≡ (length (map mention names.now) == start_count (starts_in inits.now) + 1) }
{
    names.len() > 0 && names.len() - 1 == inits.len()
}

/// Whether it is a LET.
fn is_let(unfinished: &Unfinished) -> bool
    ensures { result ≡ is_let_unfinished unfinished.now }
{
    match unfinished {
        Unfinished::Place(Place::Let(_, _)) => true,
        _ => false,
    }
}

/// Whether it is a block.
fn is_block(unfinished: &Unfinished) -> bool
    ensures { result ≡ is_block_unfinished unfinished.now }
{
    match unfinished {
        Unfinished::Place(Place::Block(_, _, _, _)) => true,
        _ => false,
    }
}

/// Whether the LET on top is in a block.
fn in_a_block(frames: &Frames) -> bool
    ensures { result ≡ inside (stack_of frames.now) }
{
    let count = frames.above.len();
    if count < 2 {
        return false;
    }
    let top = &frames.above[count - 1];
    let below = &frames.above[count - 2];
    both_of(is_let(&top.unfinished), is_block(&below.unfinished))
}

/// Whether both hold.
fn both_of(a: bool, b: bool) -> bool
    ensures { result ≡ cond a b false }
{
    a && b
}

impl Parser {
    /// The items of a LET, one more.
    #[inline(never)]
    #[tactic(auto, using(bk_tree::proofs::Lemmas::one_more, bk_tree::proofs::Lemmas::more_sizes))]
    pub fn initialised(
        &mut self,
        names: Vec<Name>,
        inits: Vec<Init>,
        parts: Size,
        last: Init,
        token: &Token,
    ) -> Result<Flow, Stop>
        requires { parts ≡ both_of (kept_size (depth_of_starts (starts_in inits.items)) (nodes_of_starts (starts_in inits.items)))
            (kept_size (depth_of_starts (starts_in (last ∷ []))) (nodes_of_starts (starts_in (last ∷ [])))) }
        ensures answers { Answers self.new.frames self.new.now result token.now (λ l x t. counted
            (length (map mention names.items) == start_count (starts_in inits.items) + 1)
            (defined_by (stack_of self.old.frames) (variables (at_names (map mention names.items)) (map mention names.items)
            (starts_then (starts_in inits.items) (starts_in (last ∷ [])))) l x t) t
            (due (at_starts (map mention names.items) (starts_then (starts_in inits.items) (starts_in (last ∷ []))) (stack_of self.old.frames)))) }
        ensures lowers { Lowers self.old.frames self.new.frames result }
    {
        let complete = is_last(&names, &inits);
        let mut inits = inits;
        inits.push(last)?;
        if complete {
            let at = at_names(&names);
            let variables = Defined {
                def: make::variables(at, names, inits),
                size: of_node(parts),
            };
            return match self.complete_definition(variables, token) {
                Ok(()) => Ok(Flow::Taken),
                Err(Stop::Memory) => Err(Stop::Memory),
                Err(Stop::Unexpected) => Err(Stop::Unexpected),
            };
        }
        if !is_comma(token.kind) {
            return Err(Stop::Unexpected);
        }
        self.due(Place::Inits(names, inits), parts)?;
        Ok(Flow::Taken)
    }

    /// The constant of an item is complete.
    #[inline(never)]
    #[tactic(auto, using(bk_tree::proofs::Lemmas::more_sizes))]
    fn complete_item(
        &mut self,
        begun: OpenItems,
        name: Name,
        held: Size,
        token: &Token,
    ) -> Result<Flow, Stop>
        requires stops { EndsExpression token.now.kind }
        requires held { held ≡ held_in (Unfinished.Member (m.Item begun.at begun.sort begun.items name)) }
        ensures answers { Answers self.new.frames self.new.now result token.now (given (member_on (m.Item begun.at begun.sort begun.items name) (stack_of self.old.frames)) self.old.now) }
        ensures lowers { Lowers self.old.frames self.new.frames result }
    {
        let ParserState::Have(sized) = self.now.take() else {
            return Err(refuse((begun, name)));
        };
        let held = both(held, of_node(sized.size));
        self.constant(
            begun,
            held,
            ConstItem::Item {
                at: name.at,
                letters: name.letters,
                expr: sized.expr,
            },
            token,
        )
    }

    /// The body of a function is complete.
    #[inline(never)]
    #[tactic(auto, using(bk_tree::proofs::Lemmas::more_sizes))]
    fn complete_function(
        &mut self,
        name: Name,
        formals: Vec<Name>,
        held: Size,
        token: &Token,
    ) -> Result<Flow, Stop>
        requires stops { EndsExpression token.now.kind }
        requires held { held ≡ held_in (Unfinished.Member (m.Function name formals)) }
        ensures answers { Answers self.new.frames self.new.now result token.now (given (member_on (m.Function name formals) (stack_of self.old.frames)) self.old.now) }
        ensures lowers { Lowers self.old.frames self.new.frames result }
    {
        let ParserState::Have(sized) = self.now.take() else {
            return Err(refuse((name, formals)));
        };
        let parts = both(held, sized.size);
        let body = Box::new(self.frames.alloc, sized.expr)?;
        let Name { at, letters } = name;
        let function = Defined {
            def: Def::Function {
                at,
                letters,
                formals,
                body,
            },
            size: of_node(parts),
        };
        match self.complete_definition(function, token) {
            Ok(()) => Ok(Flow::Taken),
            Err(Stop::Memory) => Err(Stop::Memory),
            Err(Stop::Unexpected) => Err(Stop::Unexpected),
        }
    }

    /// An item of a LET is complete.
    #[inline(never)]
    #[tactic(auto, using(bk_tree::proofs::Lemmas::more_sizes))]
    fn complete_init(
        &mut self,
        names: Vec<Name>,
        inits: Vec<Init>,
        held: Size,
        token: &Token,
    ) -> Result<Flow, Stop>
        requires stops { EndsExpression token.now.kind }
        requires held { held ≡ held_in (Unfinished.Member (m.Value names inits)) }
        ensures answers { Answers self.new.frames self.new.now result token.now (given (member_on (m.Value names inits) (stack_of self.old.frames)) self.old.now) }
        ensures lowers { Lowers self.old.frames self.new.frames result }
    {
        let ParserState::Have(sized) = self.now.take() else {
            return Err(refuse((names, inits)));
        };
        let parts = both(held, sized.size);
        let value = Init::Value(sized.expr);
        self.initialised(names, inits, parts, value, token)
    }

    /// The length of a VEC is complete.
    #[inline(never)]
    #[tactic(auto, using(bk_tree::proofs::Lemmas::more_sizes))]
    fn complete_vector(
        &mut self,
        at: Position,
        names: Vec<Name>,
        inits: Vec<Init>,
        held: Size,
        token: &Token,
    ) -> Result<Flow, Stop>
        requires stops { EndsExpression token.now.kind }
        requires held { held ≡ held_in (Unfinished.Member (m.Vector at names inits)) }
        ensures answers { Answers self.new.frames self.new.now result token.now (given (member_on (m.Vector at names inits) (stack_of self.old.frames)) self.old.now) }
        ensures lowers { Lowers self.old.frames self.new.frames result }
    {
        let ParserState::Have(sized) = self.now.take() else {
            return Err(refuse((names, inits)));
        };
        let parts = both(held, sized.size);
        let vector = Init::Vector {
            at,
            size: sized.expr,
        };
        self.initialised(names, inits, parts, vector, token)
    }

    /// An expression of a definition or an item is complete, and the symbol after it does not go on with it.
    #[inline(always)]
    pub fn complete_member(
        &mut self,
        unfinished: Member,
        held: Size,
        token: &Token,
    ) -> Result<Flow, Stop>
        requires stops { EndsExpression token.now.kind }
        requires held { held ≡ held_in (Unfinished.Member unfinished) }
        ensures answers { Answers self.new.frames self.new.now result token.now (given (member_on unfinished (stack_of self.old.frames)) self.old.now) }
        ensures lowers { Lowers self.old.frames self.new.frames result }
    {
        match unfinished {
            Member::Item(at, sort, items, name) => {
                let begun = OpenItems { at, sort, items };
                self.complete_item(begun, name, held, token)
            }
            Member::Function(name, formals) => {
                self.complete_function(name, formals, held, token)
            }
            Member::Value(names, inits) => { self.complete_init(names, inits, held, token) }
            Member::Vector(at, names, inits) => {
                self.complete_vector(at, names, inits, held, token)
            }
        }
    }

    /// A definition is complete in the construct that was on top, and a symbol comes after it.
    #[tactic(auto, using(bk_tree::proofs::Lemmas::one_more, bk_frames::proofs::Lemmas::declared_then, bk_tree::proofs::Lemmas::more_sizes))]
    fn define_in(
        &mut self,
        place: Place,
        held: Size,
        done: Defined,
        token: &Token,
    ) -> Result<(), Stop>
        requires { held ≡ held_in (Unfinished.Place place) }
        ensures { Steps (stack_of self.new.frames) (reached result self.new.now) (defined_by (place_on place (stack_of self.old.frames))
            (definition done.def) (position_at token.now) token.now.text.now token.now.kind) }
    {
        match place {
            Place::Let(at, defs) => {
                let held = both(held, done.size);
                let mut defs = defs;
                defs.push(done.def)?;
                if is_and(token.kind) {
                    self.due(Place::Let(at, defs), held)?;
                    return Ok(());
                }
                match declare(&mut self.frames, let_of(at, defs), held) {
                    Ok(()) => self.at_place(token),
                    Err(Stop::Memory) => Err(Stop::Memory),
                    Err(Stop::Unexpected) => Err(Stop::Unexpected),
                }
            }
            _ => Err(Stop::Unexpected),
        }
    }

    /// A definition is complete, and a symbol comes after it: AND, or what follows the LET.
    #[tactic(auto, using(bk_frames::proofs::Lemmas::frames_laws))]
    pub fn complete_definition(&mut self, done: Defined, token: &Token) -> Result<(), Stop>
        ensures { Steps (stack_of self.new.frames) (reached result self.new.now) (defined_by (stack_of self.old.frames)
            (definition done.def) (position_at token.now) token.now.text.now token.now.kind) }
    {
        let Some(top) = pop(&mut self.frames) else {
            return Err(Stop::Unexpected);
        };
        let Frame {
            unfinished,
            held,
            spare: _,
        } = top;
        match unfinished {
            Unfinished::Place(place) => self.define_in(place, held, done, token),
            Unfinished::OpenExpression(_) => Err(Stop::Unexpected),
            Unfinished::Phrase(_) => Err(Stop::Unexpected),
            Unfinished::Clause(_) => Err(Stop::Unexpected),
            _ => Err(Stop::Unexpected),
        }
    }

    /// After a name of variables.
    #[tactic(auto, using(bk_frames::proofs::Lemmas::names_cases))]
    pub fn variables(&mut self, names: Vec<Name>, token: &Token) -> Result<(), Stop>
        ensures { Steps (stack_of self.new.frames) (reached result self.new.now) (in_names (map mention names.items) (stack_of self.old.frames) token.now.kind) }
    {
        if is_comma(token.kind) {
            self.due(Place::Variable(names), NOTHING)?;
            return Ok(());
        }
        if is_equal(token.kind) {
            self.due(Place::Inits(names, Vec::new(self.frames.alloc)), NOTHING)?;
            return Ok(());
        }
        Err(Stop::Unexpected)
    }

    /// After the name of a definition. Only blocks have variables.
    pub fn named(&mut self, name: Name, token: &Token) -> Result<(), Stop>
        requires { HasBudgetsFor self.old.frames (place_on (p.Named name) (stack_of self.old.frames)) }
        ensures { Steps (stack_of self.new.frames) (reached result self.new.now) (take_due
            (at_name (mention name) (stack_of self.old.frames)) (position_at token.now) token.now.text.now token.now.kind) }
    {
        if is_open(token.kind) {
            self.due_still(Place::Formals(name), NOTHING)?;
            return Ok(());
        }
        if !in_a_block(&self.frames) {
            return Err(Stop::Unexpected);
        }
        let mut names = Vec::new(self.frames.alloc);
        names.push(name)?;
        self.variables(names, token)
    }

    /// After the parenthesis of a procedure.
    #[tactic(auto, using(bk_frames::proofs::Lemmas::named_cases))]
    pub fn formals(&mut self, name: Name, token: &Token) -> Result<(), Stop>
        requires { HasBudgetsFor self.old.frames (place_on (p.Formals name) (stack_of self.old.frames)) }
        ensures { Steps (stack_of self.new.frames) (reached result self.new.now) (take_due
            (at_formals (mention name) (stack_of self.old.frames)) (position_at token.now) token.now.text.now token.now.kind) }
    {
        if is_close(token.kind) {
            let headed = Place::Headed(name, Vec::new(self.frames.alloc));
            self.due_still(headed, NOTHING)?;
            return Ok(());
        }
        let Some(formal) = name_of(self.frames.alloc, token)? else {
            return Err(Stop::Unexpected);
        };
        let mut formals = Vec::new(self.frames.alloc);
        formals.push(formal)?;
        let end = Place::FormalEnd(name, formals);
        self.due_still(end, NOTHING)?;
        Ok(())
    }

    /// A formal is due.
    #[tactic(auto, using(bk_frames::proofs::Lemmas::named_cases, bk_tree::proofs::Lemmas::one_more))]
    pub fn formal(&mut self, name: Name, formals: Vec<Name>, token: &Token) -> Result<(), Stop>
        requires { HasBudgetsFor self.old.frames (place_on (p.Formal name formals) (stack_of self.old.frames)) }
        ensures { Steps (stack_of self.new.frames) (reached result self.new.now) (take_due
            (at_formal (mention name) (map mention formals.items) (stack_of self.old.frames)) (position_at token.now) token.now.text.now token.now.kind) }
    {
        let Some(formal) = name_of(self.frames.alloc, token)? else {
            return Err(Stop::Unexpected);
        };
        let mut formals = formals;
        formals.push(formal)?;
        let end = Place::FormalEnd(name, formals);
        self.due_still(end, NOTHING)?;
        Ok(())
    }

    /// After a formal.
    #[tactic(auto, using(bk_frames::proofs::Lemmas::formals_cases))]
    pub fn formal_end(&mut self, name: Name, formals: Vec<Name>, token: &Token) -> Result<(), Stop>
        requires { HasBudgetsFor self.old.frames (place_on (p.FormalEnd name formals) (stack_of self.old.frames)) }
        ensures { Steps (stack_of self.new.frames) (reached result self.new.now) (in_formals (mention name) (map mention formals.items)
            (stack_of self.old.frames) token.now.kind) }
    {
        if is_comma(token.kind) {
            let next = Place::Formal(name, formals);
            self.due_still(next, NOTHING)?;
            return Ok(());
        }
        if is_close(token.kind) {
            let headed = Place::Headed(name, formals);
            self.due_still(headed, NOTHING)?;
            return Ok(());
        }
        Err(Stop::Unexpected)
    }

    /// After the formals.
    #[tactic(auto, using(bk_frames::proofs::Lemmas::headed_cases))]
    pub fn headed(&mut self, name: Name, formals: Vec<Name>, token: &Token) -> Result<(), Stop>
        ensures { Steps (stack_of self.new.frames) (reached result self.new.now) (headed (mention name) (map mention formals.items) (stack_of self.old.frames) token.now.kind) }
    {
        if is_be(token.kind) {
            self.wants_command(Clause::Routine(name, formals), NOTHING)?;
            return Ok(());
        }
        if is_equal(token.kind) {
            self.want_for(Member::Function(name, formals), NOTHING)?;
            return Ok(());
        }
        Err(Stop::Unexpected)
    }

    /// A name of a further variable is due.
    #[tactic(auto, using(bk_frames::proofs::Lemmas::named_cases, bk_tree::proofs::Lemmas::one_more))]
    pub fn variable(&mut self, names: Vec<Name>, token: &Token) -> Result<(), Stop>
        ensures { Steps (stack_of self.new.frames) (reached result self.new.now) (take_due
            (at_variable (map mention names.items) (stack_of self.old.frames)) (position_at token.now) token.now.text.now token.now.kind) }
    {
        let Some(name) = name_of(self.frames.alloc, token)? else {
            return Err(Stop::Unexpected);
        };
        let mut names = names;
        names.push(name)?;
        self.due(Place::VariableEnd(names), NOTHING)?;
        Ok(())
    }

    /// An item of a LET is due.
    pub fn init(
        &mut self,
        names: Vec<Name>,
        inits: Vec<Init>,
        held: Size,
        token: &Token,
    ) -> Result<(), Stop>
        requires { held ≡ held_in (Unfinished.Place (p.Inits names inits)) }
        ensures { Steps (stack_of self.new.frames) (reached result self.new.now) (take_due
            (at_starts (map mention names.items) (starts_in inits.items) (stack_of self.old.frames)) (position_at token.now) token.now.text.now token.now.kind) }
    {
        if is_vec(token.kind) {
            self.want_for(Member::Vector(position_of(token), names, inits), held)?;
            return Ok(());
        }
        push(
            &mut self.frames,
            Unfinished::Member(Member::Value(names, inits)),
            held,
        )?;
        self.operand(token)
    }

    /// The name of a definition is due.
    #[tactic(auto, using(bk_frames::proofs::Lemmas::named_cases))]
    pub fn in_let(
        &mut self,
        at: Position,
        defs: Vec<Def>,
        held: Size,
        token: &Token,
    ) -> Result<(), Stop>
        requires held { held ≡ held_in (Unfinished.Place (p.Let at defs)) }
        requires budgets { HasBudgetsFor self.old.frames (place_on (p.Let at defs) (stack_of self.old.frames)) }
        ensures { Steps (stack_of self.new.frames) (reached result self.new.now) (take_due
            (in_let at (definitions_in defs.items) (stack_of self.old.frames)) (position_at token.now) token.now.text.now token.now.kind) }
    {
        let Some(name) = name_of(self.frames.alloc, token)? else {
            return Err(Stop::Unexpected);
        };
        push_in_place(
            &mut self.frames,
            Unfinished::Place(Place::Let(at, defs)),
            held,
        )?;
        self.due(Place::Named(name), NOTHING)?;
        Ok(())
    }
}
