// What the programs print in a form that the standard library does not have. It is no product code, and no contract can say what is
// written.
#![tactic(auto)]

use std::fmt::{self, Display};

// Bytes in hexadecimal, a space before each.
// Stays beside `Row`: a byte's own Display is decimal, and these are printed in two hexadecimal digits.
#[derive(Clone, Copy, Debug, PartialEq, Eq)]
pub struct Bytes<'a>(pub &'a [u8]);

impl<'a> Display for Bytes<'a> {
    fn fmt<W: fmt::Write>(&self, f: &mut fmt::Formatter<W>) -> fmt::Result {
        for byte in self.0 {
            write!(f, " {byte:02x}")?;
        }
        Ok(())
    }
}

// Values in a row, a space before each.
#[derive(Clone, Copy, Debug, PartialEq, Eq)]
pub struct Row<'a, T>(pub &'a [T]);

impl<'a, T: Display> Display for Row<'a, T> {
    fn fmt<W: fmt::Write>(&self, f: &mut fmt::Formatter<W>) -> fmt::Result {
        for value in self.0 {
            write!(f, " {value}")?;
        }
        Ok(())
    }
}

// What came of a call: its value, or why there is none.
#[derive(Clone, Copy, Debug, PartialEq, Eq)]
pub struct Told<T, E>(pub Result<T, E>);

impl<T: Display, E: Display> Display for Told<T, E> {
    fn fmt<W: fmt::Write>(&self, f: &mut fmt::Formatter<W>) -> fmt::Result {
        match &self.0 {
            Ok(value) => write!(f, "{value}"),
            Err(reason) => write!(f, "{reason}"),
        }
    }
}
