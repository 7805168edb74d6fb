//! What is wrong with characters or a number that make no label, in plain words.

ghost use Rattle.std.specs.Prelude.{◌++◌, Some, codes, decimal};

use crate::{NoLabel, WrongCharacter};
use std::error::Error;
use std::fmt;

impl fmt::Display for WrongCharacter {
    ghost output = { λ w. Some (codes "character " ++ (decimal w.index ++ codes " is no digit and no capital letter")) };

    fn fmt<W: fmt::Write>(&self, f: &mut fmt::Formatter<W>) -> fmt::Result {
        write!(
            f,
            "character {} is no digit and no capital letter",
            self.index
        )
    }
}

impl Error for WrongCharacter {}

impl fmt::Display for NoLabel {
    ghost output = { λ n. Some (codes "no label has the number " ++ decimal n.number) };

    fn fmt<W: fmt::Write>(&self, f: &mut fmt::Formatter<W>) -> fmt::Result {
        write!(f, "no label has the number {}", self.number)
    }
}

impl Error for NoLabel {}
