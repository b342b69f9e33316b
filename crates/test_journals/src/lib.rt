//! Entries and journals: the rules, a plain view of a journal, and the bytes of entries and batches.
#![tactic(auto)]

#[cfg(test)]
mod batches;
#[cfg(test)]
mod checks;
#[cfg(test)]
mod entries;
#[cfg(test)]
mod fixtures;
#[cfg(test)]
mod plain;
#[cfg(test)]
mod rules;
#[cfg(test)]
mod short_entries;
#[cfg(test)]
mod two_names;
