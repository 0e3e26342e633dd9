//! Values that keep a book.

ghost use Rattle.std.specs.Prelude.{List};

/// A value that keeps a book, a list of entries of plain data, and that has an origin, plain data
/// that no turn changes: what the book began from.
pub trait Booked {
    /// What one turn adds to the book.
    type Entry;

    /// What the book began from.
    type Origin;

    ghost book: { Self → List Self.Entry };

    ghost origin: { Self → Self.Origin };
}

/// What is large lies in a box, so that a turn moves no more than a pointer. The book is that of what is in it.
impl<T: Booked> Booked for Box<T> {
    type Entry = T::Entry;

    type Origin = T::Origin;

    ghost book = { λ boxed. T.book boxed.value };

    ghost origin = { λ boxed. T.origin boxed.value };
}
