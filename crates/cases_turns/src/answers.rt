//! Answers as bytes, so that they can be compared.

use cases_page::no_case;
use mt_files::write_event;
use mt_im_out::chunks;
use mt_model::Event;
use mt_shared::Stamped;
use std::alloc::{AllocError, Global};
use std::io;

/// What a call answered but for its place: the time in eight bytes, whether a session was live and of which fabric, the sessions that
/// end in two bytes each, and the payloads, each behind its opcode.
pub(crate) fn bytes_of(alloc: Global, stamped: &Stamped) -> Result<Vec<u8>, AllocError> {
    let mut bytes = Vec::from_slice(alloc, &stamped.ms.to_be_bytes())?;
    let answer = &stamped.answer;
    bytes.push(u8::from(answer.fabric.is_some()))?;
    bytes.push(answer.fabric.unwrap_or(0))?;
    for session in answer.closed.as_slice() {
        bytes.extend_from_slice(&session.to_be_bytes())?;
    }
    for payload in chunks(alloc, &answer.reply)?.as_slice() {
        bytes.push(payload.opcode)?;
        bytes.extend_from_slice(payload.bytes.as_slice())?;
    }
    Ok(bytes)
}

/// The line of what was asked.
pub(crate) fn line_of(alloc: Global, event: &Event) -> io::Result<String> {
    let mut line = Vec::new(alloc);
    write_event(event, &mut line)?;
    line.pop();
    let Ok(text) = String::from_utf8(line) else {
        return Err(no_case());
    };
    Ok(text)
}
