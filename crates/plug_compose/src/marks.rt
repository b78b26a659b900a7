//! A set of numbers below a count, with a mark for each.

use std::alloc::Global;
use virt_base::NoMemory;

/// Some of the numbers below a count.
#[derive(Drop)]
pub struct Marks {
    marks: Vec<bool>,
}

impl Marks {
    /// None of the numbers.
    pub fn none(alloc: Global, count: usize) -> Result<Marks, NoMemory> {
        let mut marks = Vec::new(alloc);
        for _ in 0..count {
            marks.push(false)?;
        }
        Ok(Marks { marks })
    }

    pub fn has(&self, number: usize) -> bool {
        match self.marks.get(number) {
            Some(mark) => *mark,
            None => false,
        }
    }

    pub fn set(&mut self, number: usize) {
        if number < self.marks.len() {
            self.marks[number] = true;
        }
    }

    pub fn set_all(&mut self, numbers: &[usize]) {
        for number in numbers {
            self.set(*number);
        }
    }
}
