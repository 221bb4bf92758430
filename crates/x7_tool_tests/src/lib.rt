//! Calls of x7_tool that no worked case makes: updates of a flash that forgets and of real files, and the text of a
//! boot.
#![tactic(auto)]

#[cfg(test)]
mod boot_texts;
#[cfg(test)]
mod forgetful;
#[cfg(test)]
mod updates;
