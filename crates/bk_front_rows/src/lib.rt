//! Rows of sources through the front end: their symbols, trees and names, each with what has to result from it. Tests alone, of what no
//! text shows, so that the crates below are proved once.
#![tactic(auto)]

#[cfg(test)]
mod name_rows;
#[cfg(test)]
mod sections;
#[cfg(test)]
mod token_rows;
#[cfg(test)]
mod tree_rows;
