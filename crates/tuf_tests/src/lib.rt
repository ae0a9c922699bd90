//! Tests of the documents and of the client of The Update Framework, and the repository that some of them go by.
#![tactic(auto)]

#[cfg(test)]
mod archives;
#[cfg(test)]
mod calls;
#[cfg(test)]
mod client;
#[cfg(test)]
mod documents;
#[cfg(test)]
mod floors;
mod lying_repository;
#[cfg(test)]
mod names;
#[cfg(test)]
mod patterns;
#[cfg(test)]
mod places;
#[cfg(test)]
mod provider;
#[cfg(test)]
mod refusals;
#[cfg(test)]
mod requests;
#[cfg(test)]
mod searches;
#[cfg(test)]
mod sets;
#[cfg(test)]
mod sigstore;
#[cfg(test)]
mod thresholds;
#[cfg(test)]
mod trees;
#[cfg(test)]
mod words;

pub use lying_repository::{LyingRepository, Reply};
