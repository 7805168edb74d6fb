ghost use Rattle.responses.specs.Examples.{WorkedResponses};

/// The worked responses, by the definitions that the other contracts cite.
pub fn worked_responses() -> u8
    ensures { WorkedResponses }
{
    0
}
