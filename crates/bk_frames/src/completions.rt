//! The completions of each unfinished construct.
ghost use Rattle.std.specs.Prelude.{◌≡◌, ◌+◌, ◌==◌, ℕ, max, not, nat_lt};
ghost use Rattle.bk_frames.specs.declared.frame.Unfinished.TheVariants as b;
ghost use Rattle.bk_grammar.specs.Rows.{inner};
ghost use Rattle.bk_grammar.specs.Machine.{Stack};
ghost use Rattle.bk_frames.specs.Sizes.{kept, kept_size};
ghost use Rattle.bk_frames.specs.Unfinished.{operand_on, phrase_on, member_on, clause_on, place_on, point_on, unfinished_on, held_in};
ghost use Rattle.bk_frames.specs.Budgets.{is_tight, completions, AreKept, completions_of_binary, completions_of_args, completions_of_closed, completions_of_values, completions_of_starts, completions_of_guard, completions_of_start, completions_of_labelled, completions_of_valof, awaiting, completions_of_dests};

use crate::budget::{Category, Lookahead};
use crate::completion::{Completion, Completions, Link, beside, deep, node};
use crate::frame::{Clause, Member, OpenExpression, Phrase, Place, Point, Size, Unfinished};
use crate::size::{LEAF, NOTHING, are_none, due_items, max, owed, plus, rest};
use bk_grammar::symbols::{Guard, inner_row};
use bk_tree::Operator;

/// A node with a leaf in it.
const PAIR: Size = Size { depth: 2, nodes: 2 };

const CLOSING: Link = Link::Then(Lookahead::Closing);

const LISTING: Link = Link::Then(Lookahead::Listing);

/// Whether the part that is read is the last of a list, after so many.
fn is_last(all: usize, done: usize) -> bool
    ensures { result ≡ (all == done + 1) }
{
    all > 0 && all - 1 == done
}

/// Whether an operator after a VALOF that is the right operand of this one goes on the whole.
fn is_tight_after(operator: Operator) -> bool
    ensures { result ≡ not (nat_lt 1 (inner operator)) }
{
    inner_row(operator) <= 1
}

/// Whether an operator after a VALOF on this goes on more than the operand that the VALOF is.
pub fn is_tight(unfinished: &Unfinished) -> bool
    ensures { (st : Stack) → result ≡ is_tight (unfinished_on unfinished.now st) }
{
    match unfinished {
        Unfinished::OpenExpression(OpenExpression::Binary(operator, _, _)) => is_tight_after(
            *operator,
        ),
        _ => false,
    }
}

/// These parts, with one leaf beside them.
fn with_leaf(held: Size) -> Size
    ensures { (d n : ℕ) → held ≡ kept_size d n → result ≡ kept_size (max d 1) n }
{
    Size {
        depth: max(held.depth, 1),
        nodes: held.nodes,
    }
}

/// These parts, as deep as a node around them.
fn level_more(held: Size) -> Size
    ensures { (d n : ℕ) → held ≡ kept_size d n → result ≡ kept_size (d + 1) 1 }
{
    Size {
        depth: plus(held.depth, 1),
        nodes: 1,
    }
}

fn completions_of_binary(tight: bool, tight_below: bool, held: Size) -> Completions
    ensures { (d n : ℕ) → held ≡ kept_size d n → AreKept result (completions_of_binary tight tight_below d n) }
{
    let through = node(
        Category::Expression,
        Link::Each,
        Category::Expression,
        held,
        0,
    );
    match (tight, tight_below) {
        (false, _) => Completions::One(through),
        (true, false) => Completions::Two(
            through,
            deep(
                Category::Operated,
                CLOSING,
                Category::Expression,
                held,
                2,
                3,
            ),
        ),
        (true, true) => Completions::Two(
            through,
            node(Category::Operated, CLOSING, Category::Operated, held, 0),
        ),
    }
}

fn completions_of_args(none: bool, held: Size) -> Completions
    ensures { (d n : ℕ) → held ≡ kept_size d n → AreKept result (completions_of_args none d n) }
{
    let last = node(Category::Expression, CLOSING, Category::Call, held, 0);
    let more = node(Category::Expression, LISTING, Category::Call, held, 1);
    if none {
        let closed = beside(
            Category::Closed,
            CLOSING,
            Category::Call,
            held,
            level_more(held),
        );
        return Completions::Three(last, more, closed);
    }
    Completions::Two(last, more)
}

/// Those of a command that an expression ends.
fn completions_of_closed(held: Size) -> Completions
    ensures { (d n : ℕ) → held ≡ kept_size d n → AreKept result (completions_of_closed d n) }
{
    let repeated = Link::Then(Lookahead::Repeating);
    Completions::Two(
        node(
            Category::Expression,
            Link::Ended,
            Category::Command,
            held,
            0,
        ),
        deep(
            Category::Expression,
            repeated,
            Category::Command,
            held,
            2,
            2,
        ),
    )
}

fn completions_of_values(last: bool, held: Size, owed: u32) -> Completions
    ensures { (d n o : ℕ) → held ≡ kept_size d n → owed ≡ kept o → AreKept result (completions_of_values last d n o) }
{
    if last {
        return completions_of_closed(held);
    }
    let more = Link::ThenClosed(Lookahead::Listing);
    Completions::One(node(
        Category::Expression,
        more,
        Category::Command,
        with_leaf(held),
        owed,
    ))
}

fn completions_of_starts(last: bool, held: Size, owed: u32) -> Completions
    ensures { (d n o : ℕ) → held ≡ kept_size d n → owed ≡ kept o → AreKept result (completions_of_starts last d n o) }
{
    if last {
        return Completions::One(node(Category::Expression, CLOSING, Category::Definition, held, 0));
    }
    Completions::One(node(
        Category::Expression,
        LISTING,
        Category::Definition,
        with_leaf(held),
        owed,
    ))
}

fn completions_of_guard(guard: Guard) -> Completions
    ensures { AreKept result (completions_of_guard guard) }
{
    let with_command = node(Category::Expression, CLOSING, Category::Command, NOTHING, 1);
    let without = Link::ThenMissing(Lookahead::Closing);
    match guard {
        Guard::Case => Completions::Two(
            node(Category::Expression, without, Category::Command, NOTHING, 0),
            with_command,
        ),
        _ => Completions::One(with_command),
    }
}

/// Those of the start of a command: an expression there is a destination, a name also a label, and a call a command.
fn completions_of_start() -> Completions
    ensures { AreKept result completions_of_start }
{
    let assigned = Link::ThenClosed(Lookahead::Assigning);
    let listed = Link::ThenClosed(Lookahead::Listing);
    let labelled = Link::ThenMissing(Lookahead::Closing);
    let repeated = Link::Then(Lookahead::Repeating);
    Completions::Five(
        node(
            Category::Expression,
            assigned,
            Category::Command,
            NOTHING,
            1,
        ),
        node(Category::Expression, listed, Category::Command, NOTHING, 3),
        beside(
            Category::Label,
            labelled,
            Category::Command,
            NOTHING,
            Size { depth: 1, nodes: 0 },
        ),
        beside(
            Category::Call,
            Link::Closing,
            Category::Command,
            NOTHING,
            NOTHING,
        ),
        node(Category::Call, repeated, Category::Command, NOTHING, 0),
    )
}

/// Those after a colon.
fn completions_of_labelled(held: Size) -> Completions
    ensures { (d n : ℕ) → held ≡ kept_size d n → AreKept result (completions_of_labelled d n) }
{
    let without = Link::ThenMissing(Lookahead::Closing);
    Completions::Two(
        node(Category::Command, Link::Each, Category::Command, held, 0),
        beside(
            Category::Missing,
            without,
            Category::Command,
            held,
            level_more(held),
        ),
    )
}

fn completions_of_valof(tight_below: bool) -> Completions
    ensures { AreKept result (completions_of_valof tight_below) }
{
    let ended = node(
        Category::Command,
        Link::Ended,
        Category::Expression,
        NOTHING,
        0,
    );
    let called = Link::Then(Lookahead::Going);
    let called = deep(Category::Command, called, Category::Call, NOTHING, 2, 2);
    let operated = Link::Then(Lookahead::Operating);
    if tight_below {
        let operated = node(Category::Command, operated, Category::Operated, NOTHING, 0);
        return Completions::Three(ended, called, operated);
    }
    let operated = deep(
        Category::Command,
        operated,
        Category::Expression,
        NOTHING,
        2,
        3,
    );
    Completions::Three(ended, called, operated)
}

/// A symbol is due before a part of this size.
fn awaiting(onto: Category, held: Size, part: Size) -> Completions
    ensures { (d n e m : ℕ) → held ≡ kept_size d n → part ≡ kept_size e m → AreKept result (awaiting onto d n e m) }
{
    Completions::One(beside(Category::Due, CLOSING, onto, held, part))
}

fn completions_of_operand(operand: &OpenExpression, held: Size, tight_below: bool) -> Completions
    requires { held ≡ held_in (b.OpenExpression operand.now) }
    ensures { (st : Stack) → tight_below ≡ is_tight st → AreKept result (completions (operand_on operand.now st)) }
{
    match operand {
        OpenExpression::Parens(_) => Completions::Two(
            node(Category::Expression, CLOSING, Category::Expression, held, 0),
            deep(Category::Expression, CLOSING, Category::Call, held, 2, 2),
        ),
        OpenExpression::Unary(_, _) | OpenExpression::Else(_, _, _) => Completions::One(node(
            Category::Expression,
            Link::Each,
            Category::Expression,
            held,
            0,
        )),
        OpenExpression::Binary(operator, _, _) => {
            completions_of_binary(is_tight_after(*operator), tight_below, held)
        }
        OpenExpression::Chain(_, _, _, _) => Completions::One(deep(
            Category::Expression,
            Link::Each,
            Category::Expression,
            held,
            1,
            1,
        )),
        OpenExpression::Then(_, _) => {
            Completions::One(node(Category::Expression, LISTING, Category::Expression, held, 1))
        }
        OpenExpression::Args(_, _, items) => completions_of_args(are_none(items), held),
        OpenExpression::Table(_, _) => Completions::Two(
            node(
                Category::Expression,
                Link::Unlisted,
                Category::Expression,
                held,
                0,
            ),
            node(
                Category::Expression,
                Link::ThenUnlisted(Lookahead::Listing),
                Category::Expression,
                held,
                1,
            ),
        ),
    }
}

fn completions_of_dests(held: Size, size: u32) -> Completions
    ensures { (d n o : ℕ) → held ≡ kept_size d n → size ≡ kept o → AreKept result (completions_of_dests d n o) }
{
    let assigned = Link::ThenClosed(Lookahead::Assigning);
    let listed = Link::ThenClosed(Lookahead::Listing);
    Completions::Two(
        node(
            Category::Expression,
            assigned,
            Category::Command,
            held,
            plus(size, 1),
        ),
        node(
            Category::Expression,
            listed,
            Category::Command,
            held,
            plus(size, 3),
        ),
    )
}

#[tactic(auto, using(bk_tree::proofs::Lemmas::counts))]
fn completions_of_phrase(phrase: &Phrase, held: Size) -> Completions
    requires { held ≡ held_in (b.Phrase phrase.now) }
    ensures { (st : Stack) → AreKept result (completions (phrase_on phrase.now st)) }
{
    match phrase {
        Phrase::Start => completions_of_start(),
        Phrase::Dests(xs) => completions_of_dests(held, rest(xs.len(), 0)),
        Phrase::Values(xs, ys) => completions_of_values(
            is_last(xs.len(), ys.len()),
            held,
            owed(xs.len(), ys.len()),
        ),
        Phrase::Guard(guard, _) => completions_of_guard(*guard),
        Phrase::ResultIs(_) | Phrase::RepeatWhile(_, _) => completions_of_closed(held),
        Phrase::To(_, _, _) | Phrase::By(_, _, _, _) => {
            Completions::One(node(Category::Expression, CLOSING, Category::Command, held, 1))
        }
        Phrase::Test(_) | Phrase::From(_, _) => {
            Completions::One(node(Category::Expression, CLOSING, Category::Command, held, 2))
        }
    }
}

#[tactic(auto, using(bk_tree::proofs::Lemmas::counts))]
fn completions_of_member(member: &Member, held: Size) -> Completions
    requires { held ≡ held_in (b.Member member.now) }
    ensures { (st : Stack) → AreKept result (completions (member_on member.now st)) }
{
    match member {
        Member::Item(_, _, _, _) => Completions::One(Completion {
            category: Category::Expression,
            link: CLOSING,
            onto: Category::Declaration,
            floor: held.depth,
            rise: 1,
            nodes: plus(held.nodes, 1),
        }),
        Member::Function(_, _) => {
            Completions::One(node(Category::Expression, CLOSING, Category::Definition, held, 0))
        }
        Member::Value(names, inits) | Member::Vector(_, names, inits) => completions_of_starts(
            is_last(names.len(), inits.len()),
            held,
            owed(names.len(), inits.len()),
        ),
    }
}

fn completions_of_clause(clause: &Clause, held: Size, tight_below: bool) -> Completions
    requires { held ≡ held_in (b.Clause clause.now) }
    ensures { (st : Stack) → tight_below ≡ is_tight st → AreKept result (completions (clause_on clause.now st)) }
{
    match clause {
        Clause::Valof(_) => completions_of_valof(tight_below),
        Clause::Label(_, _) | Clause::Guarded(_, _, _) | Clause::Default(_) => {
            completions_of_labelled(held)
        }
        Clause::Then(_, _) => Completions::One(node(
            Category::Command,
            CLOSING,
            Category::Command,
            held,
            1,
        )),
        Clause::Else(_, _, _) | Clause::For(_, _, _, _, _) => {
            Completions::One(node(Category::Command, Link::Each, Category::Command, held, 0))
        }
        Clause::Routine(_, _) => {
            Completions::One(node(Category::Command, CLOSING, Category::Definition, held, 0))
        }
    }
}

#[tactic(auto, using(bk_tree::proofs::Lemmas::counts))]
fn completions_of_place(place: &Place, held: Size) -> Completions
    requires { held ≡ held_in (b.Place place.now) }
    ensures { (st : Stack) → AreKept result (completions (place_on place.now st)) }
{
    match place {
        Place::Block(_, _, _, _) => Completions::Three(
            node(Category::Command, CLOSING, Category::Command, held, 0),
            node(Category::Declaration, CLOSING, Category::Command, held, 0),
            node(Category::Due, CLOSING, Category::Command, held, 0),
        ),
        Place::Let(_, _) => Completions::Two(
            beside(
                Category::Definition,
                CLOSING,
                Category::Declaration,
                held,
                NOTHING,
            ),
            beside(Category::Due, CLOSING, Category::Declaration, held, PAIR),
        ),
        Place::Named(_)
        | Place::Formals(_)
        | Place::Formal(_, _)
        | Place::FormalEnd(_, _)
        | Place::Headed(_, _) => awaiting(Category::Definition, held, PAIR),
        Place::Variable(names) => awaiting(
            Category::Definition,
            held,
            Size {
                depth: 2,
                nodes: plus(rest(names.len(), 0), 2),
            },
        ),
        Place::VariableEnd(names) => awaiting(
            Category::Definition,
            held,
            Size {
                depth: 2,
                nodes: plus(rest(names.len(), 0), 1),
            },
        ),
        Place::Inits(names, inits) => awaiting(
            Category::Definition,
            held,
            Size {
                depth: plus(max(held.depth, 1), 1),
                nodes: plus(owed(names.len(), inits.len()), 2),
            },
        ),
    }
}

fn completions_of_point(point: &Point, held: Size) -> Completions
    requires { held ≡ held_in (b.Point point.now) }
    ensures { (st : Stack) → AreKept result (completions (point_on point.now st)) }
{
    match point {
        Point::Opening(_, _) | Point::Signed(_, _, _, _) => {
            awaiting(Category::Declaration, held, PAIR)
        }
        Point::Items(_, _, items) => {
            let least = due_items(items);
            awaiting(
                Category::Declaration,
                held,
                Size {
                    depth: least,
                    nodes: least,
                },
            )
        }
        Point::Goto(_) => awaiting(Category::Command, held, LEAF),
        Point::For(_) | Point::Forward(_, _) => {
            awaiting(Category::Command, held, Size { depth: 2, nodes: 4 })
        }
        Point::Default(_) => {
            let without = Link::ThenMissing(Lookahead::Closing);
            Completions::One(beside(Category::Due, without, Category::Command, held, LEAF))
        }
    }
}

/// The completions of an unfinished construct that has these parts. `tight_below` says whether, in the construct below it, an operator
/// after a VALOF continues more than that operand.
pub fn completions(unfinished: &Unfinished, held: Size, tight_below: bool) -> Completions
    requires { held ≡ held_in unfinished.now }
    ensures { (st : Stack) → tight_below ≡ is_tight st → AreKept result (completions (unfinished_on unfinished.now st)) }
{
    match unfinished {
        Unfinished::OpenExpression(operand) => completions_of_operand(operand, held, tight_below),
        Unfinished::Phrase(phrase) => completions_of_phrase(phrase, held),
        Unfinished::Clause(clause) => completions_of_clause(clause, held, tight_below),
        Unfinished::Member(member) => completions_of_member(member, held),
        Unfinished::Place(place) => completions_of_place(place, held),
        Unfinished::Point(point) => completions_of_point(point, held),
    }
}
