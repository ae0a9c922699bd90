//! Tests of the values that bundles and trust files are made of, of keys and certificates as texts, of entries
//! of logs and their checkpoints, of inclusion in Merkle trees and their growth, of envelopes and statements, and of bundles, which are
//! read and written.
#![tactic(auto)]

#[cfg(test)]
mod bundles;
#[cfg(test)]
mod checkpoints;
#[cfg(test)]
mod entries;
#[cfg(test)]
mod envelopes;
#[cfg(test)]
mod grown;
#[cfg(test)]
mod inclusion_data;
#[cfg(test)]
mod inclusions;
#[cfg(test)]
mod pem;
#[cfg(test)]
mod tables;
#[cfg(test)]
mod texts;
#[cfg(test)]
mod tiles;
#[cfg(test)]
mod trees;
#[cfg(test)]
mod written;
