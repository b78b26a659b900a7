//! Rows for what every crate stands on: numbers, texts, files and sinks, in memory and the machine's, formats, and counted steps.
#![tactic(auto)]

#[cfg(test)]
mod files_and_sinks;
#[cfg(test)]
mod formats;
#[cfg(test)]
mod kept_types;
#[cfg(test)]
mod numbers;
#[cfg(test)]
mod real_files;
#[cfg(test)]
mod rows;
#[cfg(test)]
mod steps;
#[cfg(test)]
mod texts;
