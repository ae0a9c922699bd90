//! Tests of the program's runs.
#![tactic(auto)]

#[cfg(test)]
mod archives;
#[cfg(test)]
mod audits;
#[cfg(test)]
mod bundles;
#[cfg(test)]
mod delegated;
#[cfg(test)]
mod downloads;
#[cfg(test)]
mod fixture;
#[cfg(test)]
mod gate_runs;
#[cfg(test)]
mod gate_ways;
#[cfg(test)]
mod gates;
#[cfg(test)]
mod hostile;
#[cfg(test)]
mod keyless;
#[cfg(test)]
mod keyless_data;
#[cfg(test)]
mod logged;
#[cfg(test)]
mod outputs;
#[cfg(test)]
mod runs;
#[cfg(test)]
mod tables;
#[cfg(test)]
mod told;
