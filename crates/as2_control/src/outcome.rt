//! What came of a demand.
ghost use Rattle.std.specs.Prelude.{◌≡◌, ℕ, ◌-◌, ◌<◌, ◌≤◌, ◌^◌, [], ◌∷◌, ◌++◌, List, Err, IfNone, IfOk, IfSome, length};
ghost use Rattle.as2_control.specs.Outcomes.{AreFiles, FileValue, FitsOutcome, IsOutcomeFrame, OutcomeValue, outcome_body, outcome_value};
ghost use Rattle.as2_control.specs.Frames.{IsFrameOf, framed_field};
ghost use Rattle.as2_control.specs.declared.fault.FrameFault.TheVariants as frame_fault;
ghost use Rattle.as2_control.specs.declared.fault.ReadFault.TheVariants as read_fault;

use crate::fault::{FrameFault, ReadFault};
use crate::fields::{first_field, put_field, room_behind};
use crate::files::{MadeFile, is_files, put_files, read_files, room_behind_files};
use crate::heads::{begun, body_of};
use std::alloc::Global;

/// What came of a demand.
#[derive(Drop)]
pub struct Outcome {
    /// The status that the command ends with.
    pub status: u8,
    /// What it writes to its standard output.
    pub output: Vec<u8>,
    /// What it writes to its standard error.
    pub errors: Vec<u8>,
    /// The files that it makes, in a folder of whoever typed it.
    pub files: Vec<MadeFile>,
}

/// How long the body of an outcome's frame is. None: longer than four bytes count.
fn outcome_len(outcome: &Outcome) -> Option<u32>
    ensures fits { IfSome result (λ len. len ≡ length (outcome_body (outcome_value outcome.now))) }
    ensures none { IfNone result (2 ^ 32 ≤ length (outcome_body (outcome_value outcome.now))) }
{
    let left = room_behind(u32::MAX, &[outcome.status])?;
    let left = room_behind(left, &outcome.output)?;
    let left = room_behind(left, &outcome.errors)?;
    let left = room_behind_files(left, &outcome.files)?;
    Some(u32::MAX - left)
}

/// The frame of an outcome. `TooLong`: it has 4 GiB or more behind its head.
pub fn outcome_frame(alloc: Global, outcome: &Outcome) -> Result<Vec<u8>, FrameFault>
    ensures framed { IfOk result (λ frame. IsOutcomeFrame frame.items (outcome_value outcome.now)) }
    ensures too_long { result ≡ Err frame_fault.TooLong → ¬ FitsOutcome (outcome_value outcome.now) }
    ensures memory { result ≡ Err frame_fault.Memory → FitsOutcome (outcome_value outcome.now) }
{
    let Some(len) = outcome_len(outcome) else {
        return Err(FrameFault::TooLong);
    };
    let mut frame = begun(alloc, len)?;
    put_field(&mut frame, &[outcome.status])?;
    put_field(&mut frame, &outcome.output)?;
    put_field(&mut frame, &outcome.errors)?;
    put_files(&mut frame, &outcome.files)?;
    Ok(frame)
}

/// An outcome as it stands in its frame.
#[derive(Clone, Copy)]
pub(crate) struct OutcomePart<'a> {
    status: u8,
    output: &'a [u8],
    errors: &'a [u8],
    files: &'a [u8],
}

/// The parts of an outcome's frame. None: the bytes are the frame of no outcome.
fn outcome_part(frame: &[u8]) -> Option<OutcomePart<'_>>
    ensures found { IfSome result (λ part. IsFrameOf (2 ^ 32 - 1) frame.now (framed_field (part.status ∷ [])
        ++ (framed_field part.output.now ++ (framed_field part.errors.now ++ part.files.now)))) }
    ensures files { IfSome result (λ part. (files : List FileValue) × AreFiles part.files.now files) }
    ensures none { IfNone result ((outcome : OutcomeValue) → ¬ IsOutcomeFrame frame.now outcome) }
{
    let body = body_of(frame, u32::MAX)?;
    let (status, rest) = first_field(body)?;
    let (output, rest) = first_field(rest)?;
    let (errors, files) = first_field(rest)?;
    let Ok(status) = <[u8; 1]>::try_from(status) else {
        return None;
    };
    let [status] = status;
    if !is_files(files) {
        return None;
    }
    Some(OutcomePart {
        status,
        output,
        errors,
        files,
    })
}

/// The outcome whose frame these bytes are. `Malformed`: they are the frame of none.
pub fn read_outcome(alloc: Global, frame: &[u8]) -> Result<Outcome, ReadFault>
    ensures read { IfOk result (λ outcome. IsOutcomeFrame frame.now (outcome_value outcome)) }
    ensures malformed { result ≡ Err read_fault.Malformed → (outcome : OutcomeValue)
        → ¬ IsOutcomeFrame frame.now outcome }
    ensures memory { result ≡ Err read_fault.Memory → (outcome : OutcomeValue) × IsOutcomeFrame frame.now outcome }
{
    let Some(part) = outcome_part(frame) else {
        return Err(ReadFault::Malformed);
    };
    let output = Vec::from_slice(alloc, part.output)?;
    let errors = Vec::from_slice(alloc, part.errors)?;
    let files = read_files(alloc, part.files)?;
    Ok(Outcome {
        status: part.status,
        output,
        errors,
        files,
    })
}
