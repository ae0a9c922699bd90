//! Tests of trust files, of the verifier, of signing certificates, and of the parts of the program.
#![tactic(auto)]

#[cfg(test)]
mod certificates;
#[cfg(test)]
mod data;
#[cfg(test)]
mod files;
#[cfg(test)]
mod inputs;
#[cfg(test)]
mod keyless_data;
#[cfg(test)]
mod policies;
#[cfg(test)]
mod tables;
#[cfg(test)]
mod verification;
