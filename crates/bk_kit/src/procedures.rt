//! The procedures that a text of OCODE names.
ghost use Rattle.std.specs.Prelude.{◌≡◌, IfErr, IfOk, map, if◌then◌else◌};
ghost use Rattle.bk_ocode.specs.SectionStmts.{stmts_of};
ghost use Rattle.bk_filters.specs.Generating.{ocode};
ghost use Rattle.bk_filters.specs.Interpreting.{is_read};
ghost use Rattle.bk_filters.specs.Texts.{parts, Applies};
ghost use Rattle.bk_kit.specs.Tracing.{OcodeRefused};

use bk_base::ByteIn;
use bk_filters::{KitFault, section_refused};
use bk_gen::generate;
use bk_ocode::{Ocode, read_section};
use bk_show::Procedures;
use std::alloc::{AllocError, Global};

/// Reads all sections of a text.
pub fn read_sections<N: ByteIn>(alloc: Global, code: &mut N) -> Result<Vec<Ocode>, KitFault>
    ensures read { IfOk result (λ list. Applies ocode (parts (map stmts_of list.items)) (N.left code.old) (N.left code.new) (N.ended code.new)) }
    ensures refused { IfErr result (λ fault. OcodeRefused fault (N.left code.old) (N.left code.new) (N.ended code.new)) }
    ensures failures { N.faults code.new ≡ (if is_read result then 1 else 0) }
{
    let mut list = Vec::new(alloc);
    loop {
        match read_section(alloc, code) {
            Ok(Some(section)) => {
                let Ok(()) = list.push(section) else {
                    return Err(KitFault::Memory);
                };
            }
            Ok(None) => return Ok(list),
            Err(refused) => return Err(section_refused(list.len(), refused)),
        }
    }
}

/// The procedures of sections, where the segments that are generated from them have their code.
pub fn procedures_of(alloc: Global, sections: &[Ocode]) -> Result<Procedures, AllocError> {
    let mut procedures = Procedures::new(alloc);
    for section in sections {
        let segment = generate(alloc, section)?;
        procedures.add(alloc, &segment, section)?;
    }
    Ok(procedures)
}
