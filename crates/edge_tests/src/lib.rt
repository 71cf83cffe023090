//! The outside of the prover, its lanes and workers, and the words and lists that it is asked by.
#![tactic(auto)]

#[cfg(test)]
mod equals;
#[cfg(test)]
mod of_box_deques;
#[cfg(test)]
mod of_command_line;
#[cfg(test)]
mod of_fact_board;
#[cfg(test)]
mod of_fx_edge;
#[cfg(test)]
mod of_job_workers;
#[cfg(test)]
mod of_made_script;
#[cfg(test)]
mod of_name_list;
#[cfg(test)]
mod paths;
#[cfg(test)]
mod shared_lanes;
#[cfg(test)]
mod stolen_jobs;
