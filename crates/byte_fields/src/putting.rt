//! A buffer that is written from the front on.

ghost use Rattle.std.specs.Prelude.{◌≡◌, ◌+◌, ◌<◌, ◌≤◌, length};

use crate::fields::Field;

/// A buffer, and how many of its bytes are written. What does not fit behind them is left out.
#[derive(Drop)]
pub struct Writer<'a> {
    buffer: &'a mut [u8],
    at: usize,
    ghost within: { at ≤ length buffer.now },
}

impl<'a> Writer<'a> {
    ghost use Rattle.byte_fields.specs.Writers.{Put};

    /// Nothing is written yet.
    pub fn new(buffer: &'a mut [u8]) -> Writer<'a>
        ensures same { result.buffer.ghost_name ≡ buffer.entry.ghost_name }
        ensures holds { result.buffer.now ≡ buffer.old }
        ensures at { result.at ≡ 0 }
    {
        Writer { buffer, at: 0 }
    }

    /// How many bytes are written.
    pub fn len(&self) -> usize
        ensures { result ≡ self.now.at }
    {
        self.at
    }

    /// The bytes as they are.
    pub fn put(&mut self, bytes: &[u8])
        ensures put { Put bytes.now self.old self.new }
        ensures bound { self.new.at ≤ self.old.at + length bytes.now }
    {
        if bytes.len() > self.buffer.len() - self.at {
            return;
        }
        let end = self.at + bytes.len();
        let part = &mut self.buffer[self.at..end];
        part.copy_from_slice(bytes);
        self.at = end;
    }

    /// A field, if it is there.
    pub fn put_field<F: Field>(&mut self, field: Option<F>)
        ensures put { Put (F.bytes field) self.old self.new }
        ensures bound { self.new.at ≤ self.old.at + F.width }
        ensures width { length (F.bytes field) ≤ F.width }
    {
        if let Some(value) = field {
            value.put(self);
        }
    }
}
