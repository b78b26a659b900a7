//! Rows of core modules: read, written, validated, their stores, instances and runs.
#![tactic(auto)]

#[cfg(test)]
mod bodies;
#[cfg(test)]
mod instances;
#[cfg(test)]
mod integers;
#[cfg(test)]
mod memories;
#[cfg(test)]
mod pieces;
#[cfg(test)]
mod reading;
#[cfg(test)]
mod rows;
#[cfg(test)]
mod running;
#[cfg(test)]
mod runs;
#[cfg(test)]
mod slots;
#[cfg(test)]
mod stores;
#[cfg(test)]
mod validity;
#[cfg(test)]
mod writing;
