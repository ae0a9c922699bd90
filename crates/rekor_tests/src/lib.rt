//! Tests of bodies of log entries, of what is compared of an entry, and of what is asked of logs and answered by them.
#![tactic(auto)]

#[cfg(test)]
mod answers;
#[cfg(test)]
mod bodies;
#[cfg(test)]
mod bodies_data;
#[cfg(test)]
mod certified;
#[cfg(test)]
mod data;
#[cfg(test)]
mod entries;
#[cfg(test)]
mod ids;
#[cfg(test)]
mod requests;
#[cfg(test)]
mod words;
