//! What is told of the cipher.

use cases_page::Page;
use mt_ccm::{aes_block, seal, unseal};
use std::alloc::{AllocError, Global};

/// A block under a key.
pub(crate) fn tell_block(page: &mut Page, key: &[u8], block: &[u8]) {
    let (Ok(key), Ok(block)) = (<&[u8; 16]>::try_from(key), <[u8; 16]>::try_from(block)) else {
        return;
    };
    page.add("  ");
    page.add_hex(&aes_block(key, block));
    page.end_line();
}

/// What a plaintext is sealed to, what that is opened to, and how many of the changed ones are refused and left as they
/// are: one bit of each byte turned, of the associated data too, and fewer bytes than a tag has.
pub(crate) fn tell_sealed(
    alloc: Global,
    page: &mut Page,
    key: &[u8],
    nonce: &[u8],
    aad: &[u8],
    plain: &[u8],
) -> Result<(), AllocError> {
    let (Ok(key), Ok(nonce)) = (<&[u8; 16]>::try_from(key), <&[u8; 13]>::try_from(nonce)) else {
        return Ok(());
    };
    let sealed = sealed(alloc, key, nonce, aad, plain)?;
    page.add("  ");
    page.add_hex(&sealed);
    page.end_line();
    tell_opened(alloc, page, key, nonce, aad, &sealed)?;
    page.add("  ");
    page.add_number(refusals(alloc, key, nonce, aad, &sealed)? as u64);
    page.line(" refused");
    Ok(())
}

fn tell_opened(
    alloc: Global,
    page: &mut Page,
    key: &[u8; 16],
    nonce: &[u8; 13],
    aad: &[u8],
    sealed: &[u8],
) -> Result<(), AllocError> {
    let mut opened = sealed.to_vec(alloc)?;
    let length = opened_in(key, nonce, aad, opened.as_mut_slice());
    page.add("  ");
    page.add_debug(&length);
    page.add(" ");
    page.add_hex(&opened[..length.unwrap_or(0).min(opened.len())]);
    page.end_line();
    Ok(())
}

fn sealed(
    alloc: Global,
    key: &[u8; 16],
    nonce: &[u8; 13],
    aad: &[u8],
    plain: &[u8],
) -> Result<Vec<u8>, AllocError> {
    let mut bytes = plain.to_vec(alloc)?;
    bytes.extend_from_slice(&[0_u8; 16])?;
    let room = bytes.as_mut_slice();
    if aad.len() < 65_280 && room.len() >= 16 && room.len() < 65_536 {
        seal(key, nonce, aad, room);
    }
    Ok(bytes)
}

fn opened_in(key: &[u8; 16], nonce: &[u8; 13], aad: &[u8], room: &mut [u8]) -> Option<usize> {
    if aad.len() >= 65_280 || room.len() >= 65_536 {
        return None;
    }
    unseal(key, nonce, aad, room)
}

fn refusals(
    alloc: Global,
    key: &[u8; 16],
    nonce: &[u8; 13],
    aad: &[u8],
    sealed: &[u8],
) -> Result<usize, AllocError> {
    let mut refused = 0_usize;
    for at in 0..sealed.len() {
        let bytes = turned(alloc, sealed, at)?;
        refused = refused.saturating_add(refusal(alloc, key, nonce, aad, &bytes)?);
    }
    for at in 0..aad.len() {
        let other = turned(alloc, aad, at)?;
        refused = refused.saturating_add(refusal(alloc, key, nonce, &other, sealed)?);
    }
    let short = refusal(alloc, key, nonce, aad, b"fifteen bytes..")?;
    Ok(refused.saturating_add(short))
}

// 1 where the bytes are refused and left as they are, else 0.
fn refusal(
    alloc: Global,
    key: &[u8; 16],
    nonce: &[u8; 13],
    aad: &[u8],
    bytes: &[u8],
) -> Result<usize, AllocError> {
    let mut copy = bytes.to_vec(alloc)?;
    let answer = opened_in(key, nonce, aad, copy.as_mut_slice());
    Ok(usize::from(answer.is_none() && copy.as_slice() == bytes))
}

// The bytes with one bit of the byte at a place turned.
fn turned(alloc: Global, bytes: &[u8], at: usize) -> Result<Vec<u8>, AllocError> {
    let mut copy = bytes.to_vec(alloc)?;
    if let Some(byte) = copy.as_mut_slice().get_mut(at) {
        *byte ^= 0x10;
    }
    Ok(copy)
}
