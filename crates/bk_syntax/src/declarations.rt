//! Reading declarations and blocks, and the symbols that are due in them.
ghost use Rattle.bk_grammar.specs.Placed.{position_at};
ghost use Rattle.std.specs.Prelude.{◌≡◌, [], ◌∷◌, IfOk, false, true, List, ℕ, OnOk};
ghost use Rattle.bk_tree.specs.Tree.{command_in, commands_in, declaration, declarations_in, items_in, also, no_commands};
ghost use Rattle.bk_grammar.specs.Rows.{repeats};
ghost use Rattle.bk_frames.specs.declared.frame.Unfinished.TheVariants as Unfinished;
ghost use Rattle.bk_frames.specs.declared.frame.Place.TheVariants as p;
ghost use Rattle.bk_frames.specs.declared.frame.Point.TheVariants as t;
ghost use Rattle.bk_frames.specs.Unfinished.{held_in};
ghost use Rattle.bk_frames.specs.Sizes.{size_of_command, size_of_declaration, both_of, kept_size};
ghost use Rattle.bk_tree.specs.Limits.{depth_of_items, nodes_of_items};
ghost use Rattle.bk_grammar.specs.Machine.{declared, in_constants, in_commands, in_head, in_section, take_in_block, take_in_section, take_item, take_due, take_command, Stack};
ghost use Rattle.bk_tree.specs.Parts.{commands_then, items_then};
ghost use Rattle.bk_frames.specs.Unfinished.{unfinished_on, place_on, point_on};
ghost use Rattle.bk_frames.specs.Frames.{stack_of, HasBudgetsFor, state, finished, Steps, Answers, Lowers, Declares, declaring};
ghost use Rattle.bk_syntax.specs.Parsing.{reached};

use crate::commands::did;
use crate::definitions::name_of;
use crate::error::refuse;
use crate::parser::Parser;
use bk_frames::frame::{
    Clause, Flow, Frame, Member, ParserState, Phrase, Place, Point, Size, Stop, Unfinished,
};
use bk_frames::frames::Frames;
use bk_frames::size::{NOTHING, are_no_items, both};
use bk_frames::top::{pop, push, push_in_place};
use bk_grammar::placed::position_of;
use bk_grammar::spelling::name;
use bk_grammar::symbols::{
    Declaring, closes, declares_with, is_colon, is_equal, is_semicolon, opens,
};
use bk_lex::{Kind, Token};
use bk_tree::make::{block, constants};
use bk_tree::{Command, ConstItem, Decl, Position, Sort};
use std::alloc::{AllocError, Global};

/// A declaration with constants that is begun: its position, its sort and the items so far.
#[derive(Drop)]
pub struct OpenItems {
    pub at: Position,
    pub sort: Sort,
    pub items: Vec<ConstItem>,
}

/// A block that is begun: its position, and the declarations and the commands so far.
#[derive(Drop)]
struct OpenBlock {
    at: Position,
    decls: Vec<Decl>,
    commands: Vec<Command>,
}

/// Whether no command of a block came yet.
fn in_head(commands: &[Command]) -> bool
    ensures { result ≡ in_head (commands_in commands.now) }
{
    match commands {
        [] => true,
        _ => false,
    }
}

/// Whether this symbol, which is due in this construct, begins a command.
fn begins_command(unfinished: &Unfinished, kind: Kind) -> bool
    ensures { result ≡ true → (st : Stack) (l : ℕ) (x : List ℕ)
        → take_due (unfinished_on unfinished.now st) l x kind ≡ take_command (unfinished_on unfinished.now st) l x kind }
{
    match unfinished {
        Unfinished::Place(Place::Block(_, true, _, commands)) => {
            if is_semicolon(kind) || closes(kind) {
                return false;
            }
            !in_head(commands) || declares_with(kind).is_none()
        }
        _ => false,
    }
}

/// Whether this symbol, which is due, begins a command of the block on top.
fn begins_command_of_block(frames: &Frames, kind: Kind) -> bool
    ensures { result ≡ true → (l : ℕ) (x : List ℕ) → take_due (stack_of frames.now) l x kind ≡ take_command (stack_of frames.now) l x kind }
{
    match frames.above.last() {
        Some(top) => begins_command(&top.unfinished, kind),
        None => false,
    }
}

/// Puts a declaration after those of the block that was on top.
#[tactic(auto, using(bk_tree::proofs::Lemmas::one_more, bk_tree::proofs::Lemmas::more_sizes))]
fn declare_in(
    frames: &mut Frames,
    place: Place,
    held: Size,
    decl: Decl,
    size: Size,
) -> Result<(), Stop>
    requires held { held ≡ held_in (Unfinished.Place place) }
    requires size { size ≡ size_of_declaration (declaration decl) }
    ensures { Declares (stack_of frames.new) result (declared (place_on place (stack_of frames.old)) (declaration decl)) }
{
    match place {
        Place::Block(at, _, decls, commands) => {
            let mut decls = decls;
            decls.push(decl)?;
            let block = Place::Block(at, false, decls, commands);
            push(frames, Unfinished::Place(block), both(held, size))?;
            Ok(())
        }
        _ => Err(Stop::Unexpected),
    }
}

/// Puts a declaration after those of the section or the block on top.
#[tactic(auto, using(bk_frames::proofs::Lemmas::frames_laws, bk_tree::proofs::Lemmas::one_more, bk_tree::proofs::Lemmas::more_sizes))]
pub fn declare(frames: &mut Frames, decl: Decl, size: Size) -> Result<(), Stop>
    requires { size ≡ size_of_declaration (declaration decl) }
    ensures { Declares (stack_of frames.new) result (declared (stack_of frames.old) (declaration decl)) }
{
    let Some(top) = pop(frames) else {
        frames.decls.push(decl)?;
        frames.held = both(frames.held, size);
        return Ok(());
    };
    let Frame {
        unfinished,
        held,
        spare: _,
    } = top;
    match unfinished {
        Unfinished::Place(place) => declare_in(frames, place, held, decl, size),
        Unfinished::OpenExpression(_) => Err(Stop::Unexpected),
        Unfinished::Phrase(_) => Err(Stop::Unexpected),
        Unfinished::Clause(_) => Err(Stop::Unexpected),
        _ => Err(Stop::Unexpected),
    }
}

impl Parser {
    /// The constant of an item is complete.
    #[tactic(auto, using(bk_frames::proofs::Lemmas::constants_cases, bk_tree::proofs::Lemmas::one_more, bk_tree::proofs::Lemmas::more_sizes))]
    pub fn constant(
        &mut self,
        begun: OpenItems,
        held: Size,
        item: ConstItem,
        token: &Token,
    ) -> Result<Flow, Stop>
        requires { held ≡ kept_size (depth_of_items (items_then (items_in begun.items.items) (items_in (item ∷ []))))
            (nodes_of_items (items_then (items_in begun.items.items) (items_in (item ∷ [])))) }
        ensures answers { Answers self.new.frames self.new.now result token.now (λ l x t. in_constants begun.at begun.sort
            (items_then (items_in begun.items.items) (items_in (item ∷ []))) (stack_of self.old.frames) t) }
        ensures lowers { Lowers self.old.frames self.new.frames result }
    {
        let OpenItems { at, sort, items } = begun;
        let mut items = items;
        items.push(item)?;
        if is_semicolon(token.kind) {
            self.due_at(Point::Items(at, sort, items), held)?;
            return Ok(Flow::Taken);
        }
        if !closes(token.kind) {
            return Err(Stop::Unexpected);
        }
        match declare(&mut self.frames, constants(at, sort, items), held) {
            Ok(()) => {
                self.now.set(ParserState::Due);
                Ok(Flow::Taken)
            }
            Err(Stop::Memory) => Err(Stop::Memory),
            Err(Stop::Unexpected) => Err(Stop::Unexpected),
        }
    }

    /// A declaration begins.
    #[inline(always)]
    fn declaration(&mut self, what: Declaring, at: Position) -> Result<(), AllocError>
        ensures { OnOk result (state (stack_of self.new.frames) self.new.now ≡ declaring (stack_of self.old.frames) at what) }
    {
        match what {
            Declaring::Let => self.due(Place::Let(at, Vec::new(self.frames.alloc)), NOTHING),
            Declaring::Constants(sort) => self.due_at(Point::Opening(at, sort), NOTHING),
        }
    }

    /// A symbol between the declarations of a section.
    #[tactic(auto, using(bk_frames::proofs::Lemmas::declaration_cases))]
    fn in_section(&mut self, token: &Token) -> Result<(), Stop>
        requires { stack_of self.old.frames ≡ in_section (declarations_in self.old.frames.decls.items) }
        ensures { Steps (stack_of self.new.frames) (reached result self.new.now) (take_in_section (declarations_in self.old.frames.decls.items) (position_at token.now) token.now.kind) }
    {
        if is_semicolon(token.kind) {
            self.now.set(ParserState::Due);
            return Ok(());
        }
        match declares_with(token.kind) {
            Some(what) => {
                self.declaration(what, position_of(token))?;
                Ok(())
            }
            None => Err(Stop::Unexpected),
        }
    }

    /// A symbol in a block, where no command goes on.
    #[tactic(auto, using(bk_frames::proofs::Lemmas::declaration_cases))]
    fn in_block(
        &mut self,
        begun: OpenBlock,
        free: bool,
        held: Size,
        token: &Token,
    ) -> Result<(), Stop>
        requires held { held ≡ held_in (Unfinished.Place (p.Block begun.at free begun.decls begun.commands)) }
        requires budgets { HasBudgetsFor self.old.frames (place_on (p.Block begun.at free begun.decls begun.commands) (stack_of self.old.frames)) }
        ensures { Steps (stack_of self.new.frames) (reached result self.new.now) (take_in_block begun.at free (declarations_in begun.decls.items)
            (commands_in begun.commands.items) (stack_of self.old.frames) (position_at token.now) token.now.text.now token.now.kind) }
    {
        let OpenBlock {
            at,
            decls,
            commands,
        } = begun;
        if is_semicolon(token.kind) {
            let block = Place::Block(at, true, decls, commands);
            self.due_still(block, held)?;
            return Ok(());
        }
        if closes(token.kind) {
            self.now
                .set(ParserState::Did(did(block(at, decls, commands), held)));
            return Ok(());
        }
        let head = in_head(&commands);
        let block = Place::Block(at, free, decls, commands);
        push_in_place(&mut self.frames, Unfinished::Place(block), held)?;
        if head {
            if let Some(what) = declares_with(token.kind) {
                self.declaration(what, position_of(token))?;
                return Ok(());
            }
        }
        if !free {
            return Err(Stop::Unexpected);
        }
        self.command(token)
    }

    /// A command of a block is complete, and the symbol after it does not repeat it.
    #[tactic(auto, using(bk_tree::proofs::Lemmas::one_more, bk_tree::proofs::Lemmas::more_sizes))]
    fn in_commands(
        &mut self,
        begun: OpenBlock,
        held: Size,
        command: Command,
        token: &Token,
    ) -> Result<Flow, Stop>
        requires { held ≡ both_of (held_in (Unfinished.Place (p.Block begun.at true begun.decls begun.commands))) (size_of_command (command_in command)) }
        ensures answers { Answers self.new.frames self.new.now result token.now (λ l x t. in_commands begun.at (declarations_in begun.decls.items)
            (commands_then (commands_in begun.commands.items) (also (command_in command) no_commands)) (stack_of self.old.frames) t) }
        ensures lowers { Lowers self.old.frames self.new.frames result }
    {
        let OpenBlock {
            at,
            decls,
            commands,
        } = begun;
        let mut commands = commands;
        commands.push(command)?;
        if is_semicolon(token.kind) {
            let block = Place::Block(at, true, decls, commands);
            self.due(block, held)?;
            return Ok(Flow::Taken);
        }
        if closes(token.kind) {
            let whole = block(at, decls, commands);
            self.now.set(ParserState::Did(did(whole, held)));
            return Ok(Flow::Taken);
        }
        Err(Stop::Unexpected)
    }

    /// A command is complete at a place, which is in a block, and the symbol after it does not repeat it.
    pub fn complete_command(
        &mut self,
        unfinished: Place,
        held: Size,
        token: &Token,
    ) -> Result<Flow, Stop>
        requires stops { repeats token.now.kind ≡ false }
        requires held { held ≡ held_in (Unfinished.Place unfinished) }
        ensures answers { Answers self.new.frames self.new.now result token.now (finished (place_on unfinished (stack_of self.old.frames)) self.old.now) }
        ensures lowers { Lowers self.old.frames self.new.frames result }
    {
        let ParserState::Did(done) = self.now.take() else {
            return Err(refuse(unfinished));
        };
        match unfinished {
            Place::Block(at, _, decls, commands) => {
                let begun = OpenBlock {
                    at,
                    decls,
                    commands,
                };
                self.in_commands(begun, both(held, done.size), done.command, token)
            }
            other => Err(refuse(other)),
        }
    }

    /// A place of a block or a definition, where this symbol comes.
    fn due_in(&mut self, place: Place, held: Size, token: &Token) -> Result<(), Stop>
        requires held { held ≡ held_in (Unfinished.Place place) }
        requires budgets { HasBudgetsFor self.old.frames (place_on place (stack_of self.old.frames)) }
        ensures { Steps (stack_of self.new.frames) (reached result self.new.now) (take_due
            (place_on place (stack_of self.old.frames)) (position_at token.now) token.now.text.now token.now.kind) }
    {
        match place {
            Place::Block(at, free, decls, commands) => {
                let begun = OpenBlock {
                    at,
                    decls,
                    commands,
                };
                self.in_block(begun, free, held, token)
            }
            Place::Let(at, defs) => self.in_let(at, defs, held, token),
            Place::Named(name) => self.named(name, token),
            Place::Formals(name) => self.formals(name, token),
            Place::Formal(name, formals) => self.formal(name, formals, token),
            Place::FormalEnd(name, formals) => self.formal_end(name, formals, token),
            Place::Headed(name, formals) => self.headed(name, formals, token),
            Place::Variable(names) => self.variable(names, token),
            Place::VariableEnd(names) => self.variables(names, token),
            Place::Inits(names, inits) => self.init(names, inits, held, token),
        }
    }

    /// Between the items of a declaration.
    #[tactic(auto, using(bk_frames::proofs::Lemmas::named_cases, bk_frames::proofs::Lemmas::items_cases))]
    fn between_items(&mut self, begun: OpenItems, held: Size, token: &Token) -> Result<(), Stop>
        requires { held ≡ held_in (Unfinished.Point (t.Items begun.at begun.sort begun.items)) }
        ensures { Steps (stack_of self.new.frames) (reached result self.new.now) (take_item begun.at begun.sort (items_in begun.items.items)
            (stack_of self.old.frames) (position_at token.now) token.now.text.now token.now.kind) }
    {
        let OpenItems { at, sort, items } = begun;
        if !are_no_items(&items) {
            if is_semicolon(token.kind) {
                self.due_at(Point::Items(at, sort, items), held)?;
                return Ok(());
            }
            if closes(token.kind) {
                return match declare(&mut self.frames, constants(at, sort, items), held) {
                    Ok(()) => {
                        self.now.set(ParserState::Due);
                        Ok(())
                    }
                    Err(Stop::Memory) => Err(Stop::Memory),
                    Err(Stop::Unexpected) => Err(Stop::Unexpected),
                };
            }
        }
        let Some(name) = name_of(self.frames.alloc, token)? else {
            return Err(Stop::Unexpected);
        };
        self.due_at(Point::Signed(at, sort, items, name), held)?;
        Ok(())
    }

    /// A place of a declaration with constants or of a command, where this symbol comes.
    #[tactic(auto, using(bk_frames::proofs::Lemmas::named_cases))]
    fn due_within(&mut self, point: Point, held: Size, token: &Token) -> Result<(), Stop>
        requires { held ≡ held_in (Unfinished.Point point) }
        ensures { Steps (stack_of self.new.frames) (reached result self.new.now) (take_due
            (point_on point (stack_of self.old.frames)) (position_at token.now) token.now.text.now token.now.kind) }
    {
        match point {
            Point::Opening(at, sort) => {
                if !opens(token.kind) {
                    return Err(Stop::Unexpected);
                }
                self.due_at(Point::Items(at, sort, Vec::new(self.frames.alloc)), held)?;
                Ok(())
            }
            Point::Items(at, sort, items) => {
                self.between_items(OpenItems { at, sort, items }, held, token)
            }
            Point::Signed(at, sort, items, name) => {
                if is_equal(token.kind) || is_colon(token.kind) {
                    self.want_for(Member::Item(at, sort, items, name), held)?;
                    return Ok(());
                }
                Err(Stop::Unexpected)
            }
            Point::Goto(at) => {
                let Some(name) = name_of(self.frames.alloc, token)? else {
                    return Err(Stop::Unexpected);
                };
                self.now
                    .set(ParserState::Did(did(Command::Goto { at, name }, NOTHING)));
                Ok(())
            }
            Point::For(at) => {
                let Some(name) = name_of(self.frames.alloc, token)? else {
                    return Err(Stop::Unexpected);
                };
                self.due_at(Point::Forward(at, name), NOTHING)?;
                Ok(())
            }
            Point::Forward(at, name) => {
                if !is_equal(token.kind) {
                    return Err(Stop::Unexpected);
                }
                self.want_in(Phrase::From(at, name), NOTHING)?;
                Ok(())
            }
            Point::Default(at) => {
                if !is_colon(token.kind) {
                    return Err(Stop::Unexpected);
                }
                push(
                    &mut self.frames,
                    Unfinished::Clause(Clause::Default(at)),
                    NOTHING,
                )?;
                self.now.set(ParserState::Maybe);
                Ok(())
            }
        }
    }

    /// A symbol is due, and this one comes. Where it begins a command of a block, the block stays on top.
    #[tactic(auto, using(bk_frames::proofs::Lemmas::frames_laws))]
    pub fn at_place(&mut self, token: &Token) -> Result<(), Stop>
        ensures { Steps (stack_of self.new.frames) (reached result self.new.now) (take_due (stack_of self.old.frames) (position_at token.now) token.now.text.now token.now.kind) }
    {
        if begins_command_of_block(&self.frames, token.kind) {
            return self.command(token);
        }
        let Some(top) = pop(&mut self.frames) else {
            return self.in_section(token);
        };
        let Frame {
            unfinished,
            held,
            spare: _,
        } = top;
        match unfinished {
            Unfinished::Place(place) => self.due_in(place, held, token),
            Unfinished::Point(point) => self.due_within(point, held, token),
            other => Err(refuse(other)),
        }
    }
}
