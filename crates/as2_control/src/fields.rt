//! Lengths and fields.
ghost use Rattle.std.specs.Prelude.{◌≡◌, ℕ, ◌+◌, ◌^◌, ◌<◌, ◌++◌, List, length, IfSome, IfNone, OnOk};
ghost use Rattle.as2_control.specs.Frames.{framed_field, length_text};

use std::alloc::AllocError;

/// The length that four bytes spell.
pub(crate) fn length_of(bytes: &[u8; 4]) -> u32
    ensures { length_text result ≡ bytes.now }
{
    u32::from_be_bytes(*bytes)
}

/// The first field of a text, and what stands behind it. None: the text begins with no field.
pub(crate) fn first_field(text: &[u8]) -> Option<(&[u8], &[u8])>
    ensures found { IfSome result (λ cut. text.now ≡ framed_field cut.0.now ++ cut.1.now) }
    ensures short { IfSome result (λ cut. length cut.0.now < 2 ^ 32) }
    ensures none { IfNone result ((field rest : List ℕ) → length field < 2 ^ 32
        → ¬ (text.now ≡ framed_field field ++ rest)) }
{
    let (bytes, rest) = text.split_first_chunk::<4>()?;
    rest.split_at_checked(length_of(bytes) as usize)
}

/// What is left of a room behind a field. None: the field doesn't fit into it.
pub(crate) fn room_behind(room: u32, field: &[u8]) -> Option<u32>
    ensures left { IfSome result (λ left. left + length (framed_field field.now) ≡ room) }
    ensures none { IfNone result (room < length (framed_field field.now)) }
{
    let length = u32::try_from(field.len()).ok()?;
    room.checked_sub(4)?.checked_sub(length)
}

/// Appends a field to a text.
pub(crate) fn put_field(text: &mut Vec<u8>, field: &[u8]) -> Result<(), AllocError>
    requires { length field.now < 2 ^ 32 }
    ensures { OnOk result (text.new.items ≡ text.old.items ++ framed_field field.now) }
{
    text.extend_from_slice(&(field.len() as u32).to_be_bytes())?;
    text.extend_from_slice(field)
}
