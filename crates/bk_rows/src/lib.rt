//! Rows of command lines, and of devices that fail: buffers, texts, the machine, the filters and whole programs over them. Tests
//! alone, but for what runs a command over memory.
#![tactic(auto)]

#[cfg(test)]
mod buffer_rows;
#[cfg(test)]
mod checks;
#[cfg(test)]
mod command_rows;
#[cfg(test)]
mod device_rows;
#[cfg(test)]
mod devices;
#[cfg(test)]
mod filter_rows;
#[cfg(test)]
mod generator_rows;
#[cfg(test)]
mod machine_rows;
pub mod outcome;
#[cfg(test)]
mod text_rows;
