//! The grammar of BCPL: which trees symbols have, and the machine that reads them a symbol at a time.
#![tactic(auto)]

pub mod placed;
pub mod spelling;
pub mod symbols;
