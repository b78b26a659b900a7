//! What the words of a command line say: `virt`, `run`, `gen` or `plug`, each a simple command that `clap` reads; those of the program that
//! inspects; the lines that a program puts out, and those for a refused policy or application.
#![tactic(auto)]

mod apps;
mod command;
mod fault_lines;
mod lines;
mod numbers;
mod policy_fault;
mod reading;

pub use command::{Command, GenWords, InspectWords, PlugWords, RunWords, VirtWords, WordsFault};
pub use fault_lines::{app_line, policy_line};
pub use lines::put_lines;
pub use policy_fault::PolicyFault;
pub use reading::{read_inspect, read_words};
