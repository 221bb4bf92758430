//! Calls on files of the system: each runs once while memory is left, and each generic one at a type.
#![tactic(auto)]

#[cfg(test)]
mod failing;
#[cfg(test)]
mod files;
#[cfg(test)]
mod paths;
