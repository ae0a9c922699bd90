//! Tests of the questions of a run, and of runs over stored worlds with real signatures.
#![tactic(auto)]

#[cfg(test)]
mod answered;
#[cfg(test)]
mod choices;
#[cfg(test)]
mod downloaded;
#[cfg(test)]
mod gated;
#[cfg(test)]
mod notes;
#[cfg(test)]
mod rounds;
#[cfg(test)]
mod runs;
#[cfg(test)]
mod tables;
#[cfg(test)]
mod world;
