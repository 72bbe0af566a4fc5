//! All verbs of scripts, over a station and a desk.
use crate::desk::Desk;
use script_lines::{Answer, Settings};
use script_player::{Asked, Scene};
use script_station::{Played, Stage};
use std::alloc::Global;

/// A station and a desk, with the texts that lines name.
#[derive(Drop)]
pub struct Verbs {
    stage: Stage,
    desk: Desk,
}

/// Answers to the verbs of texts, values and HTTP, which leave nothing; whether it is one.
fn answer_to_values(verb: &str, rest: &str, answer: &mut Answer) -> bool {
    script_texts::answer(verb, rest, answer)
        || script_values::answer(verb, rest, answer)
        || script_http::answer(verb, rest, answer)
}

impl Verbs {
    pub fn new(alloc: Global) -> Verbs {
        Verbs {
            stage: Stage::new(alloc),
            desk: Desk::new(),
        }
    }

    /// Names a text, or does what the verbs of the station or of command lines ask for; whether it is one.
    fn act(&mut self, verb: &str, words: &str, answer: &mut Answer) -> bool {
        let settings = &mut self.stage.settings;
        let named = match verb {
            "text" => settings.name_text(answer.alloc(), words),
            "change" => settings.change_text(answer.alloc(), words),
            _ => return self.answer(verb, words, answer),
        };
        if let Err(trouble) = named {
            answer.fail(trouble);
        }
        true
    }

    /// Answers to the verbs of the station and of command lines; whether it is one.
    fn answer(&mut self, verb: &str, words: &str, answer: &mut Answer) -> bool {
        if script_station::answer(&mut self.stage, verb, words, answer) {
            return true;
        }
        let asked = Asked {
            settings: &self.stage.settings,
            verb,
            words,
        };
        script_player::answer(&asked, &mut self.desk, answer)
    }
}

impl Scene for Verbs {
    fn settings(&self) -> &Settings {
        &self.stage.settings
    }

    fn play(&mut self, verb: &str, rest: &str, answer: &mut Answer) -> bool {
        answer_to_values(verb, rest, answer) || self.act(verb, rest, answer)
    }

    fn end_list(&mut self, known: usize) {
        self.stage.settings.keep(known);
        self.stage.played = Played::new();
        self.desk = Desk::new();
    }
}
