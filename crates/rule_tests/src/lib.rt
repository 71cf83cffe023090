//! Each rule, the list of rules, and normal forms, at values worked out by hand.
#![tactic(auto)]

#[cfg(test)]
mod conclusions;
#[cfg(test)]
mod of_poly_normal;
#[cfg(test)]
mod of_rewrite_rules;
#[cfg(test)]
mod of_roundings;
#[cfg(test)]
mod of_theorem_arith;
#[cfg(test)]
mod of_theorem_fix;
#[cfg(test)]
mod of_theorem_list;
#[cfg(test)]
mod of_theorem_rel;
