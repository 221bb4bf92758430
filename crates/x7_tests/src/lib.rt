//! Calls of the crates below that no worked case makes: each runs once while memory is left, and each generic one at a
//! type.
#![tactic(auto)]

#[cfg(test)]
mod boots;
#[cfg(test)]
mod faults;
#[cfg(test)]
mod frames;
#[cfg(test)]
mod parts;
#[cfg(test)]
mod port;
#[cfg(test)]
mod reports;
#[cfg(test)]
mod resets;
#[cfg(test)]
mod sessions;
#[cfg(test)]
mod streams;
#[cfg(test)]
mod texts;
#[cfg(test)]
mod tiny;
