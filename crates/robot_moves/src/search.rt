//! Searches for a place, by questions alone.

ghost use Rattle.std.specs.Prelude.{◌≡◌, ◌+◌, ◌<◌, ◌≤◌, IfSome, count_by};
ghost use Rattle.robot_moves.specs.Search.{first_of, is_kind, lowest_free_port, next_free_cell, next_full_port, of_kind, passes, port_count, up_to};
ghost use Rattle.robot_moves.specs.declared.search.Wanted.TheVariants.{FreeCell};
ghost use Rattle.robots.specs.Meaning.{count};

use robots::kind::Kind;
use robots::robot::Questions;

/// A place to look for.
// A value and no closure: the definitions of the searches name it.
#[derive(Clone, Copy, PartialEq, Eq, Debug)]
pub enum Wanted {
    /// An empty cell in service.
    FreeCell,
    /// An empty port place in service.
    FreePort,
    /// A port place that holds a cartridge.
    FullPort,
}

/// Whether there is a place p of this kind.
pub fn is_of<Q: Questions>(robot: &Q, kind: Kind, p: u16) -> bool
    ensures { result ≡ of_kind (is_kind kind) (Q.meaning robot.now) p }
{
    robot.kind(p) == Some(kind)
}

/// Whether the place p is one that is looked for.
fn is_wanted<Q: Questions>(robot: &Q, wanted: Wanted, p: u16) -> bool
    ensures { result ≡ passes wanted (Q.meaning robot.now) p }
{
    match (
        wanted,
        robot.kind(p),
        robot.in_service(p),
        robot.cartridge(p),
    ) {
        (Wanted::FreeCell, Some(Kind::Cell), Some(true), Some(0)) => true,
        (Wanted::FreePort, Some(Kind::Port), Some(true), Some(0)) => true,
        (Wanted::FullPort, Some(Kind::Port), Some(_), Some(number)) => number != 0,
        _ => false,
    }
}

/// The first wanted place from `from` up to, and without, `to`.
fn first_between<Q: Questions>(robot: &Q, wanted: Wanted, from: u16, to: u16) -> Option<u16>
    ensures value { result ≡ first_of wanted (Q.meaning robot.now) (up_to from to) }
    ensures within { IfSome result (λ p. p < to) }
{
    (from..to).find(|p| is_wanted(robot, wanted, *p))
}

/// The lowest free cell up to p, and with it.
fn free_cell_up_to<Q: Questions>(robot: &Q, p: u16) -> Option<u16>
    requires { p < 65535 }
    ensures { result ≡ first_of FreeCell (Q.meaning robot.now) (up_to 0 (p + 1)) }
{
    first_between(robot, Wanted::FreeCell, 0, p + 1)
}

/// The first free cell after p, then up to p.
pub fn next_free_cell<Q: Questions>(robot: &Q, p: u16) -> Option<u16>
    ensures { result ≡ next_free_cell (Q.meaning robot.now) p }
{
    let n = robot.places();
    if p >= n {
        return first_between(robot, Wanted::FreeCell, 0, n);
    }
    first_between(robot, Wanted::FreeCell, p + 1, n).or_else(|| free_cell_up_to(robot, p))
}

/// The lowest free port place.
pub fn lowest_free_port<Q: Questions>(robot: &Q) -> Option<u16>
    ensures { result ≡ lowest_free_port (Q.meaning robot.now) }
{
    first_between(robot, Wanted::FreePort, 0, robot.places())
}

/// The lowest full port place from p on.
pub fn next_full_port<Q: Questions>(robot: &Q, p: u16) -> Option<u16>
    ensures value { result ≡ next_full_port (Q.meaning robot.now) p }
    ensures within { IfSome result (λ q. q < 65535) }
{
    first_between(robot, Wanted::FullPort, p, robot.places())
}

/// How many places are of this kind.
fn count_of<Q: Questions>(robot: &Q, kind: Kind) -> u16
    ensures { result ≡ count_by (of_kind (is_kind kind) (Q.meaning robot.now)) (up_to 0 (count (Q.meaning robot.now))) }
{
    (0..robot.places())
        .filter(|p| is_of(robot, kind, *p))
        .count() as u16
}

/// How many port places there are.
pub fn port_count<Q: Questions>(robot: &Q) -> u16
    ensures { result ≡ port_count (Q.meaning robot.now) }
{
    count_of(robot, Kind::Port)
}
