//! Statements of OCODE, sections, and their texts.
#![tactic(auto)]

mod arguments;
mod byte_string;
mod case_list;
mod depth;
mod draft;
mod global_list;
mod keyword;
mod label_uses;
mod laws;
mod partial;
mod places;
mod printing;
mod reading;
mod section;
mod standing;
mod stmt;

pub use byte_string::ByteString;
pub use case_list::CaseList;
pub use depth::depth_after;
pub use global_list::GlobalList;
pub use laws::{
    data_finds_its_label, depths_suffice, ends_keep_bytes, first_state_is_sound,
    global_finds_its_entry, global_is_last, goes_on_after_label, item_finds_its_label,
    jump_finds_its_label, jump_has_its_labels_depth, label_has_one_place, labels_are_set_once,
    no_section_passed, one_saying, printed_again, printed_are_parted, printed_is_parted,
    read_again, result_finds_its_label, resuming_is_sound, section_is_short, step_keeps_below,
    steps_are_sound, steps_come_nearer, steps_grow, text_is_short, typed_is_section,
};
pub use printing::print;
pub use reading::read_section;
pub use section::Ocode;
pub use stmt::{Case, Dyadic, GlobalEntry, Monadic, Stmt, Variable};
