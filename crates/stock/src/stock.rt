ghost use Rattle.stock.specs.Models.{Stocked};

use crate::catalogue::Catalogue;
use robots::robot::Robot;
use std::marker::Model;

pub mod lookups;
pub mod movements;
pub mod start;

/// A robot and the catalogue of what it holds.
#[derive(Drop)]
pub struct Stock<R: Robot> {
    robot: R,
    catalogue: Catalogue,
}

/// Clauses see what the robot means, and what is filed.
impl<R: Robot> Model for Stock<R> {
    ghost Value = { Stocked };

    ghost view = { λ s. record { robot = R.Questions.meaning s.robot; filed = s.catalogue } };
}
