//! What lasts, of a program of sections.
ghost use Rattle.std.specs.Prelude.{◌≡◌, map, IfOk};
ghost use Rattle.bk_tree.specs.Section.{declarations_of};
ghost use Rattle.bk_meaning.specs.Lasting.{program_of};
ghost use Rattle.bk_lasting.specs.Views.{lasting_in};

use crate::counting::{add, count_decls};
use crate::env::Env;
use crate::program::Lasting;
use crate::walk::{list_decls, list_one};
use bk_tree::Section;
use std::alloc::{AllocError, Global};

/// What a program of these sections has that lasts: the global vector, and then each string, table, static word and
/// procedure, in the order of the source. The nth of them, from 0, is object n.
#[tactic(auto, using(crate::proofs::Listed::sections_next))]
pub fn program_of<'a>(
    alloc: Global,
    sections: &'a [Section],
) -> Result<Vec<Lasting<'a>>, AllocError>
    ensures { IfOk result (λ list. map lasting_in list.items ≡ program_of (map declarations_of sections.now)) }
{
    let mut list = Vec::new(alloc);
    list_one(&mut list, Lasting::Globals)?;
    let mut next = 1;
    for section in sections {
        let decls = section.decls();
        let outside = Env::new(next);
        list_decls(&mut list, alloc, &outside, decls)?;
        next = add(next, count_decls(decls)?)?;
    }
    Ok(list)
}
