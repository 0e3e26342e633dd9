//! AES-CCM as Matter seals its messages: the block cipher AES-128 (FIPS 197), and counter mode with
//! CBC-MAC (NIST SP 800-38C) with a nonce of 13 bytes and a tag of 16.
#![tactic(auto)]

mod block;
mod chaining;
mod laws;
mod masking;
mod passing;
mod sealing;
mod tables;

pub use block::aes_block;
pub use laws::{bytes_have_one_plaintext, inverse_is_inverse, opens_what_is_sealed};
pub use sealing::{Cipher, seal, unseal};
