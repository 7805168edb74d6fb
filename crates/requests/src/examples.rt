ghost use Rattle.requests.specs.Examples.{WorkedPackets};

/// The worked packets, by the definitions that the other contracts cite.
pub fn worked_packets() -> u8
    ensures { WorkedPackets }
{
    0
}
