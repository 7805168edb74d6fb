/// A sum, for C, over the numbers and bytes of all that a server tells; what is told in another order gives another sum.
#[derive(Clone, Copy)]
pub struct Tally {
    pub calls: u64,
    pub low: u64,
    pub high: u64,
}

/// The tally of no calls.
pub const NO_CALLS: Tally = Tally {
    calls: 0,
    low: 1,
    high: 0,
};

impl Tally {
    /// One more call: the number that it was refused by, or 0, and the bytes that it told.
    pub fn hear(&mut self, refusal: u8, bytes: &[u8]) {
        self.calls = self.calls.wrapping_add(1);
        self.high = self.high.wrapping_add(u64::from(refusal));
        for byte in bytes {
            self.low = self.low.wrapping_add(u64::from(*byte));
            self.high = self.high.wrapping_add(self.low);
        }
        self.high = self.high.rotate_left(1);
    }
}
