//! Examples of both kinds of pool, run as tests.
#![tactic(auto)]

#[cfg(test)]
mod link;
#[cfg(test)]
mod play;
#[cfg(test)]
mod turn;
