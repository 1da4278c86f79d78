//! The names of partitions.

ghost use Rattle.std.specs.Prelude.{◌<◌, ◌↔◌, IsTrue, Some};
ghost use Rattle.pt_path.specs.Paths.{shown_path};

use std::fmt;

/// The name of a partition: its number, and in a BSD label also its letter, 0 for `a` to 7 for `h`.
///
/// Paths are in order by number; a slice comes before the partitions of its label.
#[derive(Clone, Copy, Debug, Default, PartialEq, Eq, PartialOrd, Ord)]
pub struct Path {
    pub number: u64,
    pub letter: Option<u8>,
}

impl fmt::Display for Path {
    ghost output = { λ path. Some (shown_path path) };

    fn fmt<W: fmt::Write>(&self, f: &mut fmt::Formatter<W>) -> fmt::Result {
        match self.letter {
            Some(letter) => write!(
                f,
                "{}.{}",
                self.number,
                char::from(b'a'.saturating_add(letter))
            ),
            None => write!(f, "{}", self.number),
        }
    }
}

impl Path {
    ghost use Rattle.pt_path.specs.Paths.{rank};

    /// Whether it comes before another in the order of paths.
    pub fn is_before(self, other: Path) -> bool
        ensures { IsTrue result ↔ (rank self < rank other) }
    {
        if self.number != other.number {
            return self.number < other.number;
        }
        match (self.letter, other.letter) {
            (None, Some(_)) => true,
            (Some(x), Some(y)) => x < y,
            _ => false,
        }
    }
}
