//! The text of a frame.

ghost use Rattle.std.specs.Prelude.{◌≡◌, ◌≤◌, length, IfOk};
ghost use Rattle.feed_model.specs.Frames.{frame_text};

use dn_model::OutOfMemory;
use std::alloc::Global;

/// The text of the frame of this kind (0 none, 1 netlink, 2 protobuf) and payload, which has at most 65,531 bytes.
///
/// Source: FRR's `fpm/fpm.h`, FPM message header, version 1.
///
/// # Errors
///
/// `OutOfMemory` where there is no memory for the text.
pub fn write_frame(alloc: Global, kind: u8, payload: &[u8]) -> Result<Vec<u8>, OutOfMemory>
    requires short { length payload.now ≤ 65531 }
    ensures text { IfOk result (λ text. text.items ≡ frame_text (record { kind = kind; payload = payload.now })) }
{
    let length = 4 + payload.len() as u16;
    let mut text = Vec::with_capacity(alloc, 4 + payload.len())?;
    text.push(1)?;
    text.push(kind)?;
    text.extend_from_slice(&length.to_be_bytes())?;
    text.extend_from_slice(payload)?;
    Ok(text)
}
