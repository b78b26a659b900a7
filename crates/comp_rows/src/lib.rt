//! Rows of components: read, written, validated, linked, and what a run's tests say of them.
#![tactic(auto)]

#[cfg(test)]
mod joining;
#[cfg(test)]
mod matching;
#[cfg(test)]
mod parts;
#[cfg(test)]
mod pieces;
#[cfg(test)]
mod plans;
#[cfg(test)]
mod reading;
#[cfg(test)]
mod rows;
#[cfg(test)]
mod running;
#[cfg(test)]
mod spelling;
#[cfg(test)]
mod validity;
#[cfg(test)]
mod words;
#[cfg(test)]
mod writing;
