//! Numbers, intervals, literals, expressions, facts, bounds and goals at values worked out by hand.
#![tactic(auto)]

#[cfg(test)]
mod equals;
#[cfg(test)]
mod of_dyadic;
#[cfg(test)]
mod of_exact_fractions;
#[cfg(test)]
mod of_expr_dag;
#[cfg(test)]
mod of_facts;
#[cfg(test)]
mod of_goals;
#[cfg(test)]
mod of_interval;
#[cfg(test)]
mod of_literal;
#[cfg(test)]
mod of_literal_order;
#[cfg(test)]
mod of_rounding;
#[cfg(test)]
mod of_script_bounds;
