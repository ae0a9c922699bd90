//! Tests of certificate paths.
#![tactic(auto)]

#[cfg(test)]
mod certificates;
#[cfg(test)]
mod counting;
#[cfg(test)]
mod paths;
#[cfg(test)]
mod signatures;
#[cfg(test)]
mod words;
