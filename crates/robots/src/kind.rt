/// What a place is for.
#[derive(Clone, Copy, PartialEq, Eq, Debug)]
pub enum Kind {
    /// Where cartridges are kept.
    Cell,
    /// Where a cartridge is read and written.
    Drive,
    /// A slot of the cartridge access port, where people put cartridges in and take them out.
    Port,
}
