//! What moves a cartridge. The catalogue is changed only once the robot has granted the set.

ghost use Rattle.robot_moves.specs.Movement.{movement};
ghost use Rattle.stock.specs.Filing.{volume_of};
ghost use Rattle.stock.specs.Moves.{cell_of, dismounted, ejected, entered, entered_new, entry_for, followed, located_by, mounted, moved, why_stopped};
ghost use Rattle.std.specs.Prelude.{◌≡◌, ◌||◌, nat_eq};

use super::Stock;
use crate::catalogue::{Row, Volume};
use crate::refusal::{Refusal, in_byte};
use crate::stock::lookups::held;
use labels::UNREADABLE_NUMBER;
use responses::Entry;
use robot_moves::movement::{Stopped, Target, move_cartridge};
use robot_moves::search::is_of;
use robots::kind::Kind;
use robots::robot::Robot;
use statuses::Status;

/// The entry for a cartridge that went, or stayed.
pub fn entry_for(cartridge: u32, from: u16, to: u16, status: Status) -> Entry
    ensures { result ≡ entry_for cartridge from to status }
{
    Entry {
        cartridge,
        from: in_byte(from),
        to: in_byte(to),
        status,
    }
}

/// Why a movement to the target came to nothing.
pub(super) fn why_stopped(target: Target, why: Stopped) -> Refusal
    ensures { result ≡ why_stopped target why }
{
    match (why, target) {
        (Stopped::Refused(fault), _) => Refusal::from(fault),
        (Stopped::NoTarget, Target::LowestPort) => Refusal::NoPortPlace,
        (Stopped::NoTarget, _) => Refusal::NoFreeCell,
    }
}

/// The one row that the label is in.
pub fn located(volume: Option<Volume>) -> Result<Row, Refusal>
    ensures { result ≡ located_by volume }
{
    let Volume::One(row) = volume.ok_or(Refusal::NoVolume)? else {
        return Err(Refusal::SeveralVolumes);
    };
    Ok(row)
}

/// Whether the cartridge in a drive may be dismounted by this number.
fn may_dismount(force: bool, in_drive: u32, number: u32) -> bool
    ensures { result ≡ (force || nat_eq in_drive number) }
{
    force || in_drive == number
}

impl<R: Robot> Stock<R> {
    /// The row of the label with this number, which must be in a cell.
    fn cell_of(&self, number: u32) -> Result<Row, Refusal>
        ensures { result ≡ cell_of self.now number }
    {
        let row = located(self.catalogue.volume(number))?;
        if is_of(&self.robot, Kind::Drive, row.place) {
            return Err(Refusal::InDrive(row.place));
        }
        Ok(row)
    }

    /// What was filed in the row, if there is one, is now at `to`; what went to the port is filed no more.
    fn follow(&mut self, index: Option<usize>, target: Target, to: u16)
        ensures { self.new ≡ followed index target to self.old }
    {
        match (index, target) {
            (None, _) => {}
            (Some(index), Target::LowestPort) => self.catalogue.unfile(index),
            (Some(index), _) => self.catalogue.refile(index, to),
        }
    }

    /// Moves a filed cartridge, and then files it at its new place.
    fn move_filed(
        &mut self,
        index: Option<usize>,
        from: u16,
        target: Target,
    ) -> Result<Entry, Refusal>
        ensures answer { result ≡ (moved self.old index from target).answer }
        ensures after { self.new ≡ (moved self.old index from target).stock }
    {
        let moved = move_cartridge(&mut self.robot, from, target);
        let gone = moved.map_err(|why| why_stopped(target, why))?;
        self.follow(index, target, gone.to);
        Ok(entry_for(gone.cartridge, from, gone.to, Status::Success))
    }

    /// Mounts the label with this number on the drive.
    pub fn mount(&mut self, number: u32, drive: u16) -> Result<Entry, Refusal>
        ensures answer { result ≡ (mounted self.old number drive).answer }
        ensures after { self.new ≡ (mounted self.old number drive).stock }
    {
        let row = self.cell_of(number)?;
        if held(&self.robot, drive) != 0 {
            return Err(Refusal::DriveInUse(drive));
        }
        self.move_filed(Some(row.index), row.place, Target::At(drive))
    }

    /// Dismounts the drive; unforced, only the label with this number.
    pub fn dismount(&mut self, number: u32, force: bool, drive: u16) -> Result<Entry, Refusal>
        ensures answer { result ≡ (dismounted self.old number force drive).answer }
        ensures after { self.new ≡ (dismounted self.old number force drive).stock }
    {
        let in_drive = held(&self.robot, drive);
        if in_drive == 0 {
            return Err(Refusal::DriveEmpty(drive));
        }
        if !may_dismount(force, in_drive, number) {
            return Err(Refusal::OtherVolume(drive));
        }
        let index = self.catalogue.row_of(drive);
        self.move_filed(index, drive, Target::NextCell)
    }

    /// Ejects the label with this number to the port.
    pub fn eject(&mut self, number: u32) -> Result<Entry, Refusal>
        ensures answer { result ≡ (ejected self.old number).answer }
        ensures after { self.new ≡ (ejected self.old number).stock }
    {
        let row = self.cell_of(number)?;
        self.move_filed(Some(row.index), row.place, Target::LowestPort)
    }

    /// Enters the readable cartridge at p, unless its label is filed already.
    fn enter_readable(&mut self, number: u32, p: u16) -> Entry
        ensures answer { result ≡ (entered_new (volume_of self.old.filed number) self.old number p).entry }
        ensures after { self.new ≡ (entered_new (volume_of self.old.filed number) self.old number p).stock }
    {
        if self.catalogue.volume(number).is_some() {
            return entry_for(number, p, p, Status::SeveralVolumes);
        }
        match move_cartridge(&mut self.robot, p, Target::NextCell) {
            Ok(gone) => {
                self.catalogue.file(gone.cartridge, gone.to);
                entry_for(gone.cartridge, p, gone.to, Status::Success)
            }
            Err(why) => entry_for(
                number,
                p,
                p,
                Status::from(why_stopped(Target::NextCell, why)),
            ),
        }
    }

    /// Enters the cartridge at the port place p, or tells why it stays.
    pub fn enter(&mut self, p: u16) -> Entry
        ensures answer { result ≡ (entered self.old p).entry }
        ensures after { self.new ≡ (entered self.old p).stock }
    {
        let number = held(&self.robot, p);
        if number == UNREADABLE_NUMBER {
            return entry_for(number, p, p, Status::UnreadableLabel);
        }
        self.enter_readable(number, p)
    }
}
