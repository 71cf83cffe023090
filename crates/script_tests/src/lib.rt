//! Texts of scripts, programs and points, with what each reader finds in them.
#![tactic(auto)]

#[cfg(test)]
mod equals;
#[cfg(test)]
mod of_fixprog;
#[cfg(test)]
mod of_goal_spans;
#[cfg(test)]
mod of_point_text;
#[cfg(test)]
mod of_script_claims;
#[cfg(test)]
mod of_script_grammar;
#[cfg(test)]
mod of_script_hints;
#[cfg(test)]
mod of_script_judge;
#[cfg(test)]
mod of_script_nodes;
#[cfg(test)]
mod of_script_shape;
#[cfg(test)]
mod of_script_words;
