//! Images and changes that are made up for the cases.

ghost use Rattle.std.specs.Prelude.{◌≡◌, Bool, false, ◌==◌, ◌&&◌, ◌||◌, List, ℕ, [], ◌∷◌, length, min};
ghost use Rattle.cases_store.specs.Form.{is_image, is_change, is_second, may_follow};

use mt_journal::Form;
use std::alloc::{AllocError, Global};

/// Images begin with 16, changes with 16 or 17, and with 19 behind a list of one piece.
#[derive(Drop)]
pub struct TestForm {
    // How many pieces the list has, up to two.
    pieces: u8,
}

impl Form for TestForm {
    ghost image = { is_image };

    ghost change = { may_follow };

    ghost was_told = { λ form list. form.pieces ≡ min (length list) 2 };

    fn start(_alloc: Global) -> Self {
        TestForm { pieces: 0 }
    }

    fn is_image(&mut self, _alloc: Global, bytes: &[u8]) -> Result<bool, AllocError> {
        self.pieces = 1;
        Ok(is_image(bytes))
    }

    fn is_change(&mut self, _alloc: Global, bytes: &[u8]) -> Result<bool, AllocError> {
        let is_alone = self.pieces == 1;
        self.pieces = if self.pieces == 0 { 1 } else { 2 };
        Ok(is_change(bytes) || is_second(bytes) && is_alone)
    }
}

/// Whether bytes are an image.
pub(crate) fn is_image(bytes: &[u8]) -> bool
    ensures { result ≡ is_image bytes.now }
{
    match bytes {
        [first, ..] => *first == 0x16,
        [] => false,
    }
}

/// Whether bytes are a change that may follow each list.
pub(crate) fn is_change(bytes: &[u8]) -> bool
    ensures { result ≡ is_change bytes.now }
{
    match bytes {
        [first, ..] => *first == 0x16 || *first == 0x17,
        [] => false,
    }
}

// Whether bytes are a change that may follow a list of one piece alone.
fn is_second(bytes: &[u8]) -> bool
    ensures { result ≡ is_second bytes.now }
{
    match bytes {
        [first, ..] => *first == 0x19,
        [] => false,
    }
}
