//! Rows of the adapter: its routines, how they are compiled, and the modules that are put out, run on the machine. What is
//! wanted is worked by hand.
#![tactic(auto)]

#[cfg(test)]
mod calls;
#[cfg(test)]
mod comparing;
#[cfg(test)]
mod compiled;
#[cfg(test)]
mod emitted;
#[cfg(test)]
mod evaluated;
#[cfg(test)]
mod handles;
#[cfg(test)]
mod reading;
#[cfg(test)]
mod routines;
#[cfg(test)]
mod running;
#[cfg(test)]
mod stubs;
#[cfg(test)]
mod world;
