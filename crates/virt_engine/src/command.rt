//! What a call is to do, by the command that the words name. The names of `virt` and of `plug` stand
//! here once more, borrowed.

ghost use Rattle.virt_engine.specs.Command.{ReadsTask};

use std::alloc::Global;
use virt_base::Text;
use virt_words::{Command, GenWords, PlugWords, RunWords, VirtWords, WordsFault, read_words};

/// The names that a call of `virt` works on.
#[derive(Clone, Copy)]
pub struct Names<'a> {
    pub app: &'a Text,
    pub policy: &'a Text,
    pub out: &'a Text,
}

/// The names that a call of `plug` works on.
#[derive(Clone, Copy)]
pub struct PairNames<'a> {
    pub first: &'a Text,
    pub second: &'a Text,
    pub policy: &'a Text,
    pub out: &'a Text,
}

/// What a call is to do.
#[derive(Drop)]
pub enum Task {
    Virt(VirtWords),
    Run(RunWords),
    Gen(GenWords),
    Plug(PlugWords),
}

/// What the words ask for.
pub fn task_in(alloc: Global, words: &[Text]) -> Result<Task, WordsFault>
    ensures { ReadsTask words.now result }
{
    match read_words(alloc, words) {
        Ok(Command::Virt(words)) => Ok(Task::Virt(words)),
        Ok(Command::Run(words)) => Ok(Task::Run(words)),
        Ok(Command::Gen(words)) => Ok(Task::Gen(words)),
        Ok(Command::Plug(words)) => Ok(Task::Plug(words)),
        Err(fault) => Err(fault),
    }
}
