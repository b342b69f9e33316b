//! The tables of a store, each against a plain one or by hand: the tree of what is due, the waiting
//! graph, the rows of contacts, the levels.
#![tactic(auto)]

#[cfg(test)]
mod checks;
#[cfg(test)]
mod graphs;
#[cfg(test)]
mod levels;
#[cfg(test)]
mod rows;
#[cfg(test)]
mod trees;
