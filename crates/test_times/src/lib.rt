//! Worlds that must be played within the 60 seconds that a test has.
#![tactic(auto)]

#[cfg(test)]
mod worlds;
