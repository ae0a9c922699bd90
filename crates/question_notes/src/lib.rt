//! Questions that are noted: the lines of a provider file, and a provider and an armour that note what
//! they are asked.
#![tactic(auto)]

mod add;
mod armor;
mod lines;
mod noted;
mod notes;
mod provider;

pub use armor::NotingArmor;
pub use noted::Noted;
pub use notes::Notes;
pub use provider::NotingProvider;
