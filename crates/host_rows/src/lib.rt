//! What the reference host does under a policy, by rows: what it answers to each call, and what of it reaches the host underneath, which
//! answers by a script.
#![tactic(auto)]

#[cfg(test)]
mod addresses;
#[cfg(test)]
mod blocks;
#[cfg(test)]
mod calls;
#[cfg(test)]
mod guards;
#[cfg(test)]
mod hosted;
#[cfg(test)]
mod hosts;
#[cfg(test)]
mod interfaces;
#[cfg(test)]
mod rooms;
#[cfg(test)]
mod scratch;
#[cfg(test)]
mod texts;
#[cfg(test)]
mod trees;
#[cfg(test)]
mod virtuals;
#[cfg(test)]
mod weights;
