// What the program prints.
use crate::bytes::front;
use crate::group::Group;
use std::io;

// A name and a number, on a line. Names are bytes here and below, which no Display prints.
pub(crate) fn count(rt: &impl Print, name: &[u8], n: usize) -> io::Result<()> {
    rt.write_all(name)?;
    println!(rt; " {n}")
}

impl<R: Print> Group<'_, R> {
    // A wrong answer: its group, sweep and case, and its input's length and front.
    pub(crate) fn tell_wrong(&self, case: usize, input: &[u8]) -> io::Result<()> {
        self.tell_sweep()?;
        print!(self.rt; ", case {case}, length {}, input", input.len())?;
        for byte in front(input, 32) {
            print!(self.rt; " {byte:02x}")?;
        }
        println!(self.rt; "")
    }

    // Counts in the list that cannot be right.
    pub(crate) fn tell_damaged(&self) -> io::Result<()> {
        self.tell_sweep()?;
        println!(self.rt; ": the list is damaged")
    }

    fn tell_sweep(&self) -> io::Result<()> {
        print!(self.rt; "WRONG ")?;
        self.rt.write_all(self.name)?;
        print!(self.rt; ", sweep {}", self.tally.sweeps)
    }
}
