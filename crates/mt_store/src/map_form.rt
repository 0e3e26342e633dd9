//! How images and changes are told and merged.

ghost use Rattle.std.specs.Prelude.{◌≡◌, ◌≤◌, ◌&&◌, List, ℕ, Some, length, take};
ghost use Rattle.mt_durable.specs.Images.{IsImage, image_after};
ghost use Rattle.mt_durable.specs.Keeping.{IsChange};
ghost use Rattle.mt_durable.specs.Reading.{is_change, is_image, said};
ghost use Rattle.mt_durable.specs.Setting.{with_all};
ghost use Rattle.mt_durable.specs.declared.durable.Entry.{Entry};
ghost use Rattle.mt_store.specs.Leading.{map_of};

use mt_durable::Rule;
use mt_journal::Form;

/// A form whose images and changes are those of mt_durable that lead to maps that may stand, and that merges a
/// change into an image as bytes, in the memory that is there.
pub trait MapForm: Form + Rule {
    /// Leaves in the front of `into` the image after a change, and answers how many bytes that is.
    fn merge(from: &[u8], change: &[u8], into: &mut [u8]) -> usize
        requires from { IsImage from.now }
        requires change { IsChange change.now }
        requires room { length (image_after change.now from.now) ≤ length into.old }
        ensures merged { take result into.new ≡ image_after change.now from.now }
        ensures count { result ≡ length (image_after change.now from.now) };

    /// Its images are those of maps that may stand.
    ghost images: { (bytes : List ℕ) → Self.Form.image bytes ≡ (Self.Rule.admits (said bytes) && is_image bytes) };

    /// Its changes are those of maps, to maps that may stand.
    ghost changes: { (list : List (List ℕ)) (map : List Entry) (bytes : List ℕ) → map_of list ≡ Some map
        → Self.Form.change list bytes ≡ (Self.Rule.admits (with_all (said bytes) map) && is_change bytes) };
}
