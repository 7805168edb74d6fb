ghost use Rattle.labels.specs.Examples.{WorkedNumbers};

/// The worked label numbers, by the definitions that the other contracts cite.
pub fn worked_numbers() -> u8
    ensures { WorkedNumbers }
{
    0
}
