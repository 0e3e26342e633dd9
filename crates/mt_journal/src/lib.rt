//! The journal: what is kept over a loss of power, as an image of the whole and the changes since, in a
//! file of two slots on a disk that may stop at any moment. A file of the earlier layout, a log, is read
//! and moved.
//!
//! - `form`: which bytes are an image and which a change;
//! - `journal`: adding a change, putting an image in the place of all before it;
//! - `position`: where the next record goes, `planning`: what a commit writes there;
//! - `recovering`: what a file holds, `reading`: its pieces;
//! - `writing`: writes that are safe when they are done.
#![tactic(auto)]

mod form;
mod journal;
mod planning;
mod position;
mod reading;
mod recovering;
mod writing;

pub use form::Form;
pub use journal::Journal;
pub use position::Position;
pub use reading::JournalFault;
