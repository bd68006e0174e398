//! Tests of labels, of the names and records of files, and of writing them, by public calls.
#![tactic(auto)]

#[cfg(test)]
mod files;
#[cfg(test)]
mod labels;
#[cfg(test)]
mod records;
#[cfg(test)]
mod writing;
