//! Examples of the queue at two kinds of messages: numbers, and texts, which are moved and never copied.
#![tactic(auto)]

#[cfg(test)]
mod numbers;
#[cfg(test)]
mod texts;
