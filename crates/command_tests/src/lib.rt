//! Runs of single commands over folders and sinks in memory.
#![tactic(auto)]

#[cfg(test)]
mod equals;
#[cfg(test)]
mod folders;
#[cfg(test)]
mod of_at_command;
#[cfg(test)]
mod of_batch_command;
#[cfg(test)]
mod of_fix_command;
#[cfg(test)]
mod of_trim_command;
