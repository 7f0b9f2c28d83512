//! Why a module is refused whose contract lines are right: for its definitions, for how its names are used, or for the types of
//! its parameters.
//!
//! [`check_profile`] answers the refusal that is told, if there is one.
#![tactic(auto)]

mod definitions;
mod doubles;
mod errors;
mod headers;
mod names;
mod parameters;
mod profile;
mod statements;
#[cfg(test)]
mod tests;
mod uses;

pub use errors::ProfileError;
pub use profile::check_profile;
