//! Runs over channels that take turns, as tests. What each answers was worked out from the rules.
#![tactic(auto)]

#[cfg(test)]
mod collisions;
#[cfg(test)]
mod numbers;
