//! Plans, trees, workers and universes: what no clause can tell of a run.
#![tactic(auto)]

#[cfg(test)]
mod answers;
#[cfg(test)]
mod boxes;
#[cfg(test)]
mod equals;
#[cfg(test)]
mod events;
#[cfg(test)]
mod of_accounts;
#[cfg(test)]
mod of_bisect;
#[cfg(test)]
mod of_box_tree;
#[cfg(test)]
mod of_box_workers;
#[cfg(test)]
mod of_case_trees;
#[cfg(test)]
mod of_saturate;
#[cfg(test)]
mod of_universe;
#[cfg(test)]
mod records;
#[cfg(test)]
mod tree;
