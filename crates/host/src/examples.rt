ghost use Rattle.host.specs.Examples.{WorkedExamples};

use labels::worked_numbers;
use requests::worked_packets;

/// The worked labels and packets together, with the responses to those refused, by the
/// definitions that the other contracts cite.
pub fn worked_examples() -> u8
    ensures { WorkedExamples }
{
    let _ = worked_numbers();
    let _ = worked_packets();
    0
}
