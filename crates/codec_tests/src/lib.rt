//! Reading and writing by tables of cases. What each case expects was worked out from the layout.
#![tactic(auto)]

#[cfg(test)]
mod reading;
#[cfg(test)]
mod writing;
