//! What is surely spare of the limits: a lower bound of the budgets, which costs little.
ghost use Rattle.std.specs.Prelude.{◌≡◌, ℕ, true};
ghost use Rattle.bk_grammar.specs.Machine.{Stack};
ghost use Rattle.bk_frames.specs.declared.frame.Unfinished.TheVariants as b;
ghost use Rattle.bk_frames.specs.Sizes.{kept};
ghost use Rattle.bk_frames.specs.Unfinished.{phrase_on, member_on, place_on, unfinished_on, held_in};
ghost use Rattle.bk_frames.specs.Bounds.{Always};
ghost use Rattle.bk_frames.specs.Budgets.{Limit};
ghost use Rattle.bk_frames.specs.Completing.{Completes};
ghost use Rattle.bk_frames.specs.Spares.{owes, spare_of_section, Leaves, IsSmall};
ghost use Rattle.bk_frames.specs.Stacked.{spare_under};
ghost use Rattle.bk_frames.specs.Frames.{stack_of, state, part_of};

use crate::frame::{Member, ParserState, Phrase, Place, Size, Unfinished};
use crate::frames::Frames;
use crate::size::{NOTHING, plus, rest};
use bk_base::limit::{TREE_DEPTH, TREE_NODES};

/// The most levels that a frame adds: its own, and that of a call or a REPEAT around it.
const LEVELS: u32 = 2;

/// How many nodes it adds at most, beside the parts that it holds and those that it owes.
const NODES: u32 = 6;

/// How many parts it owes at most.
#[tactic(auto, using(bk_tree::proofs::Lemmas::counts))]
fn owes_of_phrase(phrase: &Phrase) -> u32
    ensures { (st : Stack) → result ≡ kept (owes (phrase_on phrase.now st)) }
{
    match phrase {
        Phrase::Dests(xs) | Phrase::Values(xs, _) => rest(xs.len(), 0),
        _ => 0,
    }
}

/// How many parts it owes at most.
#[tactic(auto, using(bk_tree::proofs::Lemmas::counts))]
fn owes_of_member(member: &Member) -> u32
    ensures { (st : Stack) → result ≡ kept (owes (member_on member.now st)) }
{
    match member {
        Member::Value(names, _) | Member::Vector(_, names, _) => rest(names.len(), 0),
        _ => 0,
    }
}

/// How many parts it owes at most.
#[tactic(auto, using(bk_tree::proofs::Lemmas::counts))]
fn owes_of_place(place: &Place) -> u32
    ensures { (st : Stack) → result ≡ kept (owes (place_on place.now st)) }
{
    match place {
        Place::Variable(names) | Place::VariableEnd(names) | Place::Inits(names, _) => {
            rest(names.len(), 0)
        }
        _ => 0,
    }
}

/// How many parts it owes at most.
fn owes(unfinished: &Unfinished) -> u32
    ensures { (st : Stack) → result ≡ kept (owes (unfinished_on unfinished.now st)) }
{
    match unfinished {
        Unfinished::Phrase(phrase) => owes_of_phrase(phrase),
        Unfinished::Member(member) => owes_of_member(member),
        Unfinished::Place(place) => owes_of_place(place),
        _ => 0,
    }
}

/// What is spare above an unfinished construct that has these parts, where this is spare below it.
pub fn spare_above(below: Size, unfinished: &Unfinished, held: Size) -> Size
    requires held { held ≡ held_in unfinished.now }
    requires below { IsSmall below }
    ensures leaves { Leaves below unfinished.now result }
    ensures small { IsSmall result }
{
    let levels = plus(held.depth, LEVELS);
    let nodes = plus(plus(held.nodes, owes(unfinished)), NODES);
    if levels > below.depth {
        return NOTHING;
    }
    if nodes > below.nodes {
        return NOTHING;
    }
    Size {
        depth: below.depth - LEVELS,
        nodes: below.nodes - nodes,
    }
}

/// What is spare in a section with declarations of this size.
fn spare_of_section(held: Size) -> Size
    ensures { result ≡ spare_of_section held }
{
    Size {
        depth: if held.depth <= TREE_DEPTH {
            TREE_DEPTH
        } else {
            0
        },
        nodes: TREE_NODES.saturating_sub(held.nodes),
    }
}

/// What is spare above these frames.
pub fn spare_of(frames: &Frames) -> Size
    ensures spare { result ≡ spare_under (spare_of_section frames.now.held) frames.now.above.items }
    ensures small { IsSmall result }
{
    match frames.above.last() {
        Some(top) => top.spare,
        None => spare_of_section(frames.held),
    }
}

/// The size of the part that is complete so far, if there is one.
fn part_of(now: &ParserState) -> Size
    ensures { result ≡ part_of now.now }
{
    match now {
        ParserState::Have(sized) => sized.size,
        ParserState::Did(done) => done.size,
        _ => NOTHING,
    }
}

/// Whether what is spare shows that a section within the limits goes on, in a state from which a section goes on.
pub fn is_surely_bounded(frames: &Frames, now: &ParserState) -> bool
    ensures { result ≡ true → Completes Always (state (stack_of frames.now) now.now) → Completes (Limit true) (state (stack_of frames.now) now.now) }
{
    let spare = spare_of(frames);
    let part = part_of(now);
    part.depth < spare.depth && part.nodes < spare.nodes
}
