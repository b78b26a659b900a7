//! Policies, the trees that they mount, and the words of a command line, by rows: what a text says, or its first fault.
#![tactic(auto)]

#[cfg(test)]
mod holding;
#[cfg(test)]
mod outside_files;
#[cfg(test)]
mod policies;
#[cfg(test)]
mod rows;
#[cfg(test)]
mod shown;
#[cfg(test)]
mod sizes;
#[cfg(test)]
mod texts;
#[cfg(test)]
mod trees;
#[cfg(test)]
mod words;
