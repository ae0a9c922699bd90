//! Tests of time-stamp tokens.
#![tactic(auto)]

#[cfg(test)]
mod data;
#[cfg(test)]
mod tokens;
#[cfg(test)]
mod types;
#[cfg(test)]
mod words;
