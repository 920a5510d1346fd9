//! Completions: how a part completes the unfinished construct around it.
ghost use Rattle.std.specs.Prelude.{◌≡◌, ◌+◌, ◌-◌, ℕ, max, min};
ghost use Rattle.bk_frames.specs.Sizes.{kept, kept_size};
ghost use Rattle.bk_frames.specs.Budgets.{IsKept, node, deep, beside, AreKept, is_ended, is_listing, is_closing, is_operating, reached};

use crate::budget::{Category, Lookahead};
use crate::frame::Size;
use crate::size::{max, plus};

/// Which symbol comes after a part, and which then after the whole that it completes.
#[derive(Clone, Copy)]
pub enum Link {
    /// Any, and the same after the whole.
    Each,
    /// Any but a comma, and the same after the whole.
    Unlisted,
    /// One that no expression takes and no REPEAT, and the same after the whole.
    Ended,
    /// One that nothing takes, and the same after the whole.
    Closing,
    /// This one, and any after the whole.
    Then(Lookahead),
    /// This one, and after the whole any but a comma.
    ThenUnlisted(Lookahead),
    /// This one, and after the whole, which an expression ends, any; one more command is around it before what an
    /// expression or a command takes.
    ThenClosed(Lookahead),
    /// This one, and after the whole, which a missing command ends, any; one more command is around it before what
    /// begins a command or repeats one.
    ThenMissing(Lookahead),
}

/// A completion: a part of this category makes a whole `onto` that is at least `floor` deep, at least `rise` deeper than the part, and has
/// `nodes` nodes more.
#[derive(Clone, Copy)]
pub struct Completion {
    pub category: Category,
    pub link: Link,
    pub onto: Category,
    pub floor: u32,
    pub rise: u32,
    pub nodes: u32,
}

/// All completions of an unfinished construct.
#[derive(Clone, Copy)]
pub enum Completions {
    One(Completion),
    Two(Completion, Completion),
    Three(Completion, Completion, Completion),
    /// Those of a command that begins with an expression.
    Five(Completion, Completion, Completion, Completion, Completion),
}

/// The symbol after a part, and whether there is one command more around it.
#[derive(Clone, Copy)]
pub struct Following {
    pub next: Lookahead,
    pub more: bool,
}

/// A completion by one node with these parts beside the one that is read, and with `owed` parts of one node that are still missing.
pub fn node(category: Category, link: Link, onto: Category, held: Size, owed: u32) -> Completion
    ensures { (d n o : ℕ) → held ≡ kept_size d n → owed ≡ kept o → IsKept result (node category link onto d n o) }
{
    let least = if owed > 0 { 1 } else { 0 };
    Completion {
        category,
        link,
        onto,
        floor: plus(max(held.depth, least), 1),
        rise: 1,
        nodes: plus(plus(held.nodes, 1), owed),
    }
}

/// A completion by two nodes, the inner one with these parts, and `nodes` nodes more.
pub fn deep(
    category: Category,
    link: Link,
    onto: Category,
    held: Size,
    deeper: u32,
    nodes: u32,
) -> Completion
    ensures { (d n : ℕ) → held ≡ kept_size d n → IsKept result (deep category link onto d n deeper nodes) }
{
    Completion {
        category,
        link,
        onto,
        floor: plus(held.depth, deeper),
        rise: 2,
        nodes: plus(held.nodes, nodes),
    }
}

/// A completion beside these parts, where a part of this size is still missing.
pub fn beside(category: Category, link: Link, onto: Category, held: Size, part: Size) -> Completion
    ensures { (d n e m : ℕ) → held ≡ kept_size d n → part ≡ kept_size e m → IsKept result (beside category link onto d n e m) }
{
    Completion {
        category,
        link,
        onto,
        floor: max(held.depth, part.depth),
        rise: 0,
        nodes: plus(held.nodes, part.nodes),
    }
}

fn is_ended(next: Lookahead) -> bool
    ensures { result ≡ is_ended next }
{
    match next {
        Lookahead::Closing | Lookahead::Assigning | Lookahead::Listing => true,
        _ => false,
    }
}

fn is_listing(next: Lookahead) -> bool
    ensures { result ≡ is_listing next }
{
    match next {
        Lookahead::Listing => true,
        _ => false,
    }
}

fn is_closing(next: Lookahead) -> bool
    ensures { result ≡ is_closing next }
{
    match next {
        Lookahead::Closing => true,
        _ => false,
    }
}

fn is_operating(next: Lookahead) -> bool
    ensures { result ≡ is_operating next }
{
    match next {
        Lookahead::Operating => true,
        _ => false,
    }
}

/// The symbol after a part where this one comes after the whole; None where it cannot come there.
pub fn reached(link: Link, next: Lookahead) -> Option<Following>
    ensures { result ≡ reached link next }
{
    match link {
        Link::Each => Some(Following { next, more: false }),
        Link::Unlisted => if is_listing(next) {
            None
        } else {
            Some(Following { next, more: false })
        },
        Link::Ended => if is_ended(next) {
            Some(Following { next, more: false })
        } else {
            None
        },
        Link::Closing => if is_closing(next) {
            Some(Following { next, more: false })
        } else {
            None
        },
        Link::Then(first) => Some(Following {
            next: first,
            more: false,
        }),
        Link::ThenUnlisted(first) => {
            if is_listing(next) {
                None
            } else {
                Some(Following {
                    next: first,
                    more: false,
                })
            }
        }
        Link::ThenClosed(first) => {
            Some(Following {
                next: first,
                more: !is_ended(next),
            })
        }
        Link::ThenMissing(first) => {
            Some(Following {
                next: first,
                more: !(is_ended(next) || is_operating(next)),
            })
        }
    }
}
