//! Rows of typed values: laid out and read in memory by the Canonical ABI, in scripts and lines, and with handles that an instance
//! gives and takes.
#![tactic(auto)]

#[cfg(test)]
mod answers;
#[cfg(test)]
mod faults;
#[cfg(test)]
mod headings;
#[cfg(test)]
mod lifting;
#[cfg(test)]
mod loading;
#[cfg(test)]
mod memories;
#[cfg(test)]
mod plans;
#[cfg(test)]
mod rows;
#[cfg(test)]
mod scripts;
#[cfg(test)]
mod storing;
#[cfg(test)]
mod tables;
#[cfg(test)]
mod texts;
#[cfg(test)]
mod values;
