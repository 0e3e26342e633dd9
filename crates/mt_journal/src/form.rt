//! Which bytes are an image, and which may follow a list as a change.

ghost use Rattle.std.specs.Prelude.{◌≡◌, ◌++◌, [], ◌∷◌, Bool, List, ℕ, IfOk, IsTrue};

use std::alloc::{AllocError, Global};

/// What a journal holds: images, each of which gives the whole, and changes of it. A form is told a list
/// piece by piece, and judges each change by what stands before it.
pub trait Form: Drop + Sized {
    /// Whether bytes are an image.
    ghost image: { List ℕ → Bool };

    /// Whether bytes are a change that may follow a list.
    ghost change: { List (List ℕ) → List ℕ → Bool };

    /// It was told this list.
    ghost was_told: { Self → List (List ℕ) → Type 0 };

    /// A form that was told nothing. It takes no memory.
    fn start(alloc: Global) -> Self
        ensures { was_told result [] };

    /// Whether bytes are an image. If so, it stands for all that was told. The test may take memory.
    fn is_image(&mut self, alloc: Global, bytes: &[u8]) -> Result<bool, AllocError>
        ensures answer { IfOk result (λ is. is ≡ image bytes.now) }
        ensures told { IfOk result (λ is. IsTrue is → was_told self.new (bytes.now ∷ [])) };

    /// Whether bytes are a change that may follow what was told. If so, it was told too. The test may take
    /// memory.
    fn is_change(&mut self, alloc: Global, bytes: &[u8]) -> Result<bool, AllocError>
        ensures answer { (list : List (List ℕ)) → was_told self.old list → IfOk result (λ is. is ≡ change list bytes.now) }
        ensures told { (list : List (List ℕ)) → was_told self.old list → IfOk result (λ is. IsTrue is → was_told self.new (list ++ bytes.now ∷ [])) };
}
