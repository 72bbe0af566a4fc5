//! The agreements of a file.
ghost use Rattle.std.specs.Prelude.{◌≡◌, Err, IfErr, IfOk, Ok};
ghost use Rattle.as2_desk.specs.Endings.{EndsRefused};
ghost use Rattle.as2_desk.specs.FileAgreements.{AreReadAs, AreReadAsOrMemory, HasAgreements, unread_fault};
ghost use Rattle.as2_desk.specs.Observed.{errors_of};
ghost use Rattle.as2_desk.specs.declared.refusal.CommandFault.{CommandFault as TheFault};

use crate::console::Console;
use crate::hints::is_named;
use crate::places::is_told;
use crate::refusal::{CommandFault, refuse};
use crate::status::Ran;
use as2_agreement::{AgreementFault, Agreements, Place, Unknown};
use as2_host::{FileFault, ReadFiles};
use as2_http::Sink;
use std::alloc::Global;
use std::io::Write;

/// The agreements of a file's bytes.
fn agreements_of(alloc: Global, bytes: &[u8]) -> Result<Agreements, CommandFault>
    ensures { AreReadAsOrMemory bytes.now result }
{
    let Ok(text) = std::str::from_utf8(bytes) else {
        return Err(CommandFault::Agreements(AgreementFault::NotToml));
    };
    Agreements::read(alloc, text).map_err(CommandFault::Agreements)
}

/// What was noticed in a file of agreements.
#[derive(Drop)]
pub(crate) enum Noticed {
    /// Nothing.
    Nothing,
    /// The first fault stands there.
    Fault(Place),
    /// This key isn't known.
    Unknown(Unknown),
}

/// What is to be noticed in a text: where its fault stands, where it has one; else a key that isn't known, where that is asked for.
fn noticed_in(alloc: Global, text: &str, is_faulty: bool, is_checked: bool) -> Noticed {
    if is_faulty {
        return match Agreements::place(alloc, text) {
            Some(place) => Noticed::Fault(place),
            None => Noticed::Nothing,
        };
    }
    if !is_checked {
        return Noticed::Nothing;
    }
    match Agreements::unknown_key(alloc, text) {
        Some(unknown) => Noticed::Unknown(unknown),
        None => Noticed::Nothing,
    }
}

/// The same of bytes. Of those that are no text nothing is noticed.
fn noticed_in_bytes(alloc: Global, bytes: &[u8], is_faulty: bool, is_checked: bool) -> Noticed {
    match std::str::from_utf8(bytes) {
        Ok(text) => noticed_in(alloc, text, is_faulty, is_checked),
        Err(_) => Noticed::Nothing,
    }
}

/// The agreements of a file's bytes, and what was noticed in them.
fn agreed_in(
    alloc: Global,
    bytes: &[u8],
    is_checked: bool,
) -> (Result<Agreements, CommandFault>, Noticed)
    ensures { AreReadAsOrMemory bytes.now result.0 }
{
    let agreed = agreements_of(alloc, bytes);
    let noticed = noticed_in_bytes(alloc, bytes, agreed.is_err(), is_checked);
    (agreed, noticed)
}

/// How it is told that a file gave no agreements.
fn unread(fault: FileFault) -> CommandFault
    ensures { result ≡ unread_fault fault }
{
    match fault {
        FileFault::CannotRead => CommandFault::CannotRead,
        FileFault::Memory => CommandFault::Agreements(AgreementFault::Memory),
    }
}

/// The agreements of the file of that path, and what was noticed in it; keys that aren't known where they are to be checked.
pub(crate) fn agreements_in<F: ReadFiles>(
    alloc: Global,
    files: &F,
    path: &str,
    is_checked: bool,
) -> (Result<Agreements, CommandFault>, Noticed)
    ensures { HasAgreements (F.content files.now path.now) result.0 }
{
    match files.read_file(alloc, path) {
        Ok(bytes) => agreed_in(alloc, &bytes, is_checked),
        Err(fault) => (Err(unread(fault)), Noticed::Nothing),
    }
}

/// The agreements of a station that is to run.
#[derive(Drop)]
pub struct AgreedText {
    /// What is agreed.
    pub agreements: Agreements,
    /// The bytes of its file.
    pub text: Vec<u8>,
}

/// The agreements of the file of that path, with its bytes. Where it has none, why is told, as `run` tells it.
pub fn agreed_text<F: ReadFiles, R, W, H: Write, E: Sink>(
    alloc: Global,
    files: &F,
    path: &str,
    console: &mut Console<R, W, H, E>,
) -> Result<AgreedText, Ran>
    ensures agreed { IfOk result (λ it. HasAgreements (F.content files.now path.now) (Ok it.agreements)) }
    ensures text { IfOk result (λ it. AreReadAs it.text.items (Ok it.agreements)) }
    ensures refused { IfErr result (λ ran. (fault : TheFault) × HasAgreements (F.content files.now path.now) (Err fault)
        × EndsRefused fault (errors_of E.Sink console.old console.new) ran) }
{
    let text = match files.read_file(alloc, path) {
        Ok(text) => text,
        Err(fault) => {
            let ran = refuse(unread(fault), &mut console.errors);
            let _ = is_named(fault == FileFault::CannotRead, path, &mut console.hints);
            return Err(ran);
        }
    };
    let (agreed, noticed) = agreed_in(alloc, &text, false);
    let agreed = match agreed {
        Ok(agreements) => Ok(AgreedText { agreements, text }),
        Err(fault) => Err(refuse(fault, &mut console.errors)),
    };
    let _ = is_told(&noticed, &mut console.hints);
    agreed
}
