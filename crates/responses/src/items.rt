//! Items of a list, put one behind the other.

ghost use Rattle.byte_fields.specs.Writers.{Added};
ghost use Rattle.std.specs.Prelude.{◌≡◌, ◌+◌, ◌*◌, ◌≤◌, ℕ, List, [], ◌∷◌, ◌++◌, length};

use byte_fields::Writer;

/// An item of a list in a response.
pub(crate) trait Item: Copy {
    /// Its bytes.
    ghost bytes: { Self → List ℕ };

    /// The bytes of a list.
    ghost all: { List Self → List ℕ };

    /// The most bytes that an item has.
    ghost most: { ℕ };

    fn put(self, writer: &mut Writer)
        requires { writer.old.at + most ≤ length writer.old.buffer.now }
        ensures added { Added (bytes self) writer.old writer.new }
        ensures bound { writer.new.at ≤ writer.old.at + most };

    ghost none: { all [] ≡ [] };

    ghost more: { (x : Self) (xs : List Self) → all (x ∷ xs) ≡ bytes x ++ all xs };
}

/// One item behind the other.
pub(crate) fn put_all<T: Item>(writer: &mut Writer, items: &[T])
    requires { writer.old.at + T.most * length items.now ≤ length writer.old.buffer.now }
    ensures added { Added (T.all items.now) writer.old writer.new }
    ensures bound { writer.new.at ≤ writer.old.at + T.most * length items.now }
{
    for item in items {
        item.put(writer);
    }
}
