//! Plays scripts: lines of events, commands and texts, each with what is answered to it. `docs/SCRIPTS.md` tells how they are
//! written.
#![tactic(auto)]

mod desk;
mod verbs;

use script_player::Player;
use std::process::ExitCode;
use std::{env, fs, io};
use verbs::Verbs;

/// Plays the scripts of a word: files, joined by commas, whose texts the later ones know. How many lines were answered otherwise.
fn play(rt: &HostRuntime, word: &str) -> io::Result<u64> {
    let mut player = Player::new(rt, Verbs::new(rt.alloc()));
    for path in word.split(",") {
        let text = fs::read_to_string(rt, path)?;
        player.play(path, text.as_str())?;
    }
    player.tell_counts(word)
}

fn main(rt: HostRuntime) -> io::Result<ExitCode> {
    let mut differ = 0u64;
    for word in env::args(&rt)?.skip(1) {
        differ = differ.saturating_add(play(&rt, word.as_str())?);
    }
    Ok(ExitCode::from(if differ == 0 { 0 } else { 1 }))
}
