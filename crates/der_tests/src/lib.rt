//! Tests of the crates of DER, of certificates and of the Cryptographic Message Syntax.
#![tactic(auto)]

#[cfg(test)]
mod builders;
#[cfg(test)]
mod certificate_data;
#[cfg(test)]
mod certificates;
#[cfg(test)]
mod contents;
#[cfg(test)]
mod encodings;
#[cfg(test)]
mod leaves;
#[cfg(test)]
mod lists;
#[cfg(test)]
mod messages;
#[cfg(test)]
mod tables;
