//! What a command asks of a station.
ghost use Rattle.std.specs.Prelude.{◌≡◌, ℕ, ◌<◌, ◌≤◌, ◌++◌, List, Err, IfNone, IfOk, IfSome, length};
ghost use Rattle.as2_control.specs.Demands.{AreWords, DemandValue, FitsDemand, IsDemandFrame, demand_body, demand_value};
ghost use Rattle.as2_control.specs.Frames.{IsFrameOf, framed_field};
ghost use Rattle.as2_control.specs.declared.fault.FrameFault.TheVariants as frame_fault;
ghost use Rattle.as2_control.specs.declared.fault.ReadFault.TheVariants as read_fault;

use crate::fault::{FrameFault, ReadFault};
use crate::fields::{first_field, put_field, room_behind};
use crate::heads::{begun, body_of};
use crate::words::{MOST_WORDS, is_words, put_words, read_words, room_behind_words};
use std::alloc::Global;

/// How many bytes a demand's frame may have behind its head: 2 MiB.
pub const MOST_BYTES: u32 = 2_097_152;

/// What a command asks of a station.
#[derive(Drop)]
pub struct Demand {
    /// The SHA-256 of the file of agreements that the command was given.
    pub agreements: [u8; 32],
    /// The bytes of the document that a submission names; of any other command, none.
    pub content: Vec<u8>,
    /// The command line, with the program's name first.
    pub words: Vec<String>,
}

/// How long the body of a demand's frame is. None: longer than it may be.
fn demand_len(demand: &Demand) -> Option<u32>
    ensures fits { IfSome result (λ len. len ≡ length (demand_body (demand_value demand.now))) }
    ensures within { IfSome result (λ len. len ≤ MOST_BYTES) }
    ensures none { IfNone result (MOST_BYTES < length (demand_body (demand_value demand.now))) }
{
    let left = room_behind(MOST_BYTES, &demand.agreements)?;
    let left = room_behind(left, &demand.content)?;
    let left = room_behind_words(left, &demand.words)?;
    Some(MOST_BYTES - left)
}

/// The frame of a demand. `TooLong`: it has more than `MOST_WORDS` words, or its frame has more than `MOST_BYTES` bytes
/// behind its head.
pub fn demand_frame(alloc: Global, demand: &Demand) -> Result<Vec<u8>, FrameFault>
    ensures framed { IfOk result (λ frame. IsDemandFrame frame.items (demand_value demand.now)) }
    ensures too_long { result ≡ Err frame_fault.TooLong → ¬ FitsDemand (demand_value demand.now) }
    ensures memory { result ≡ Err frame_fault.Memory → FitsDemand (demand_value demand.now) }
{
    if demand.words.len() > MOST_WORDS {
        return Err(FrameFault::TooLong);
    }
    let Some(len) = demand_len(demand) else {
        return Err(FrameFault::TooLong);
    };
    let mut frame = begun(alloc, len)?;
    put_field(&mut frame, &demand.agreements)?;
    put_field(&mut frame, &demand.content)?;
    put_words(&mut frame, &demand.words)?;
    Ok(frame)
}

/// A demand as it stands in its frame.
#[derive(Clone, Copy)]
pub(crate) struct DemandPart<'a> {
    agreements: [u8; 32],
    content: &'a [u8],
    words: &'a [u8],
}

/// The parts of a demand's frame. None: the bytes are the frame of no demand.
fn demand_part(frame: &[u8]) -> Option<DemandPart<'_>>
    ensures found { IfSome result (λ part. IsFrameOf MOST_BYTES frame.now
        (framed_field part.agreements ++ (framed_field part.content.now ++ part.words.now))) }
    ensures words { IfSome result (λ part. (words : List (List ℕ)) × AreWords part.words.now words) }
    ensures none { IfNone result ((demand : DemandValue) → ¬ IsDemandFrame frame.now demand) }
{
    let body = body_of(frame, MOST_BYTES)?;
    let (agreements, rest) = first_field(body)?;
    let (content, words) = first_field(rest)?;
    let Ok(agreements) = <[u8; 32]>::try_from(agreements) else {
        return None;
    };
    if !is_words(words) {
        return None;
    }
    Some(DemandPart {
        agreements,
        content,
        words,
    })
}

/// The demand whose frame these bytes are. `Malformed`: they are the frame of none.
pub fn read_demand(alloc: Global, frame: &[u8]) -> Result<Demand, ReadFault>
    ensures read { IfOk result (λ demand. IsDemandFrame frame.now (demand_value demand)) }
    ensures malformed { result ≡ Err read_fault.Malformed → (demand : DemandValue) → ¬ IsDemandFrame frame.now demand }
    ensures memory { result ≡ Err read_fault.Memory → (demand : DemandValue) × IsDemandFrame frame.now demand }
{
    let Some(part) = demand_part(frame) else {
        return Err(ReadFault::Malformed);
    };
    let content = Vec::from_slice(alloc, part.content)?;
    let words = read_words(alloc, part.words)?;
    Ok(Demand {
        agreements: part.agreements,
        content,
        words,
    })
}
