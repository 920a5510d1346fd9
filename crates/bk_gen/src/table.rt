//! The table of a switch.
ghost use Rattle.std.specs.Prelude.{◌≡◌, ◌<◌, ◌^◌, ◌++◌, ◌∷◌, [], OnOk, length, take};
ghost use Rattle.bk_gen.specs.PlainCode.{pairs, table};

use bk_machine::Item;
use bk_ocode::Case;
use std::alloc::AllocError;

/// A value, and its label.
fn push_pair(items: &mut Vec<Item>, case: Case) -> Result<(), AllocError>
    ensures { OnOk result (items.new.items ≡ items.old.items ++ pairs (case ∷ [])) }
{
    items.push(Item::Word(case.value))?;
    items.push(Item::LabelWord(case.label))?;
    Ok(())
}

fn push_pairs(items: &mut Vec<Item>, cases: &[Case]) -> Result<(), AllocError>
    ensures { OnOk result (items.new.items ≡ items.old.items ++ pairs cases.now) }
{
    for case in cases {
        push_pair(items, *case)?;
    }
    Ok(())
}

/// How many pairs there are, the default, and each pair.
pub(crate) fn push_table(
    items: &mut Vec<Item>,
    default: u32,
    cases: &[Case],
) -> Result<(), AllocError>
    requires { length cases.now < 2 ^ 31 }
    ensures { OnOk result (items.new.items ≡ items.old.items ++ table default cases.now) }
{
    items.push(Item::Word(cases.len() as i32))?;
    items.push(Item::LabelWord(default))?;
    push_pairs(items, cases)
}
