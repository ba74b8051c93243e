// What the vectors print: rows of numbers, and how many entries of a table are other than a value.

ghost use Rattle.std.specs.Prelude.{◌≤◌, length};

use std::fmt;

// How many entries are not `value`.
pub fn other_than<T: Copy + PartialEq>(value: T, table: &[T]) -> usize
    ensures { result ≤ length table.now }
{
    table.iter().filter(|entry| **entry != value).count()
}

// Numbers with a space before each.
#[derive(Clone, Copy)]
pub struct Row<'a, T>(pub &'a [T]);

impl<'a, T: fmt::Display> fmt::Display for Row<'a, T> {
    fn fmt<W: fmt::Write>(&self, f: &mut fmt::Formatter<W>) -> fmt::Result {
        for number in self.0 {
            write!(f, " {number}")?;
        }
        Ok(())
    }
}
