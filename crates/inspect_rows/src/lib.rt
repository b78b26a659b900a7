//! Inspections over files in memory, by rows: the words of a call and its files, and what comes of it.
#![tactic(auto)]

#[cfg(test)]
mod inspecting;
#[cfg(test)]
mod rows;
#[cfg(test)]
mod texts;
