//! Tests of keys, signatures, certificates and pairs of keys, of entries of logs with their promises, and of witnesses.
#![tactic(auto)]

#[cfg(test)]
mod claim_data;
#[cfg(test)]
mod claims;
#[cfg(test)]
mod key_forms;
#[cfg(test)]
mod keys;
#[cfg(test)]
mod log_data;
#[cfg(test)]
mod log_words;
#[cfg(test)]
mod logs;
#[cfg(test)]
mod pairs;
#[cfg(test)]
mod rings;
#[cfg(test)]
mod sources;
#[cfg(test)]
mod tables;
#[cfg(test)]
mod witness_data;
#[cfg(test)]
mod witnesses;
