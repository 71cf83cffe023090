//! Runs of the program over folders and sinks in memory.
#![tactic(auto)]

#[cfg(test)]
mod answers;
#[cfg(test)]
mod asked;
#[cfg(test)]
mod cases;
#[cfg(test)]
mod checks;
#[cfg(test)]
mod engine;
#[cfg(test)]
mod equals;
#[cfg(test)]
mod faults;
#[cfg(test)]
mod limits;
#[cfg(test)]
mod literals;
#[cfg(test)]
mod long_files;
#[cfg(test)]
mod made;
#[cfg(test)]
mod made_files;
#[cfg(test)]
mod read_only;
#[cfg(test)]
mod refusals;
#[cfg(test)]
mod runs;
#[cfg(test)]
mod second_version;
#[cfg(test)]
mod shared;
#[cfg(test)]
mod words;
#[cfg(test)]
mod written;
