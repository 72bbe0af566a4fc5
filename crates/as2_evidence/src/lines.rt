//! Lines that all pages have.
ghost use Rattle.std.specs.Prelude.{◌≡◌, ◌++◌, IfOk, OnOk, string_bytes};
ghost use Rattle.as2_evidence.specs.Pages.{check_command, check_commands, checks_heading, check_line, check_lines, found_line, stem};

use as2_audit::{Fault, Mailbox};
use as2_mic::{Alg, Pieces, mic_of_pieces};
use as2_views::add_text_line;
use std::alloc::{AllocError, Global};

/// What the names of the files begin with.
pub fn stem(alloc: Global, mailbox: Mailbox, number: u64) -> Result<String, AllocError>
    ensures { IfOk result (λ text. string_bytes text ≡ stem mailbox number) }
{
    let word = mailbox.word();
    format!(in alloc; "{word}-{number}")
}

/// Appends the integrity check of a content under a digest.
fn add_check(text: &mut Vec<u8>, digest: Alg, content: &Pieces) -> Result<(), AllocError>
    ensures { OnOk result (text.new.items ≡ text.old.items ++ check_line digest content.now) }
{
    text.extend_from_slice(b"MIC by ")?;
    add_text_line(
        text,
        digest.name().as_bytes(),
        mic_of_pieces(digest, content).bytes(),
    )
}

/// Appends the integrity checks of a content.
#[tactic(auto, unfolding(crate::specs::Pages::check_lines))]
pub fn add_checks(text: &mut Vec<u8>, content: &Pieces) -> Result<(), AllocError>
    ensures { OnOk result (text.new.items ≡ text.old.items ++ check_lines content.now) }
{
    add_check(text, Alg::Md5, content)?;
    add_check(text, Alg::Sha1, content)?;
    add_check(text, Alg::Sha256, content)
}

/// Appends what is found.
pub fn add_found(text: &mut Vec<u8>, fault: Option<Fault>) -> Result<(), AllocError>
    ensures { OnOk result (text.new.items ≡ text.old.items ++ found_line fault) }
{
    match fault {
        None => add_text_line(text, b"found", b"nothing that is kept contradicts itself"),
        Some(fault) => add_text_line(text, b"found", fault.text().as_bytes()),
    }
}

/// The command that makes the integrity check under a digest anew.
#[tactic(auto, unfolding(crate::specs::Pages::check_command))]
fn check_command(alloc: Global, digest: &str, stem: &str) -> Result<String, AllocError>
    ensures { IfOk result (λ line. string_bytes line ≡ check_command digest.now stem.now) }
{
    format!(in alloc; "    openssl dgst -{digest} -binary {stem}.content | base64\n")
}

/// What stands before the commands.
#[tactic(auto, unfolding(crate::specs::Pages::checks_heading))]
fn checks_heading() -> &'static str
    ensures { result.now ≡ checks_heading }
{
    "\nTo make the checks again, in the folder of these files:\n"
}

/// Appends how the integrity checks are made anew.
#[tactic(auto, unfolding(crate::specs::Pages::check_commands))]
pub fn add_check_commands(alloc: Global, text: &mut Vec<u8>, stem: &str) -> Result<(), AllocError>
    ensures { OnOk result (text.new.items ≡ text.old.items ++ check_commands stem.now) }
{
    let by_md5 = check_command(alloc, "md5", stem)?;
    let by_sha1 = check_command(alloc, "sha1", stem)?;
    let by_sha256 = check_command(alloc, "sha256", stem)?;
    text.extend_from_slice(checks_heading().as_bytes())?;
    text.extend_from_slice(by_md5.as_bytes())?;
    text.extend_from_slice(by_sha1.as_bytes())?;
    text.extend_from_slice(by_sha256.as_bytes())
}
