//! Plays the lines of scripts.
use crate::scene::Scene;
use script_lines::{Answer, Line, before_other, before_title, behind_or, lines_of, spelled};
use std::alloc::Global;
use std::{io, slice};

/// A scene that scripts are played over, and how many lines were.
#[derive(Drop)]
pub struct Player<'a, S> {
    rt: &'a HostRuntime,
    alloc: Global,
    scene: S,
    rows: u64,
    differ: u64,
}

impl<'a, S: Scene> Player<'a, S> {
    pub fn new(rt: &'a HostRuntime, scene: S) -> Player<'a, S> {
        Player {
            rt,
            alloc: rt.alloc(),
            scene,
            rows: 0,
            differ: 0,
        }
    }

    /// Tells how many lines were played, and how many of these were answered otherwise, which it gives back.
    pub fn tell_counts(&self, word: &str) -> io::Result<u64> {
        let (rows, differ) = (self.rows, self.differ);
        if differ == 0 {
            println!(self.rt; "{word}: {rows} rows")?;
        } else {
            println!(self.rt; "{word}: {rows} rows, {differ} differ")?;
        }
        Ok(differ)
    }

    /// Tells of a line that it was answered otherwise, or why it can't be played.
    fn tell(&mut self, path: &str, line: usize, what: &str) -> io::Result<()> {
        self.differ = self.differ.saturating_add(1);
        println!(self.rt; "{path}:{line}: {what}")
    }

    /// What is answered to the line `text`.
    fn answer(&mut self, text: &str) -> Answer {
        let mut answer = Answer::new(self.alloc);
        let text = answer.expanded(text, self.scene.settings());
        let (verb, rest) = text.as_str().split_once(" ").unwrap_or((text.as_str(), ""));
        if !self.scene.play(verb, rest, &mut answer) {
            answer.lack("no such verb");
        }
        answer
    }

    /// The answer that a line says.
    fn wanted(&self, text: &str) -> Answer {
        let mut wanted = Answer::new(self.alloc);
        let text = wanted.expanded(text, self.scene.settings());
        let bytes = wanted.bytes_of(text.as_str());
        wanted.say_bytes(bytes.as_slice());
        wanted
    }

    /// Tells of a line that it was answered otherwise, and how.
    fn tell_difference(
        &mut self,
        path: &str,
        line: usize,
        wanted: &[u8],
        answered: &[u8],
    ) -> io::Result<()> {
        let wanted = spelled(self.alloc, wanted)?;
        let answered = spelled(self.alloc, answered)?;
        self.differ = self.differ.saturating_add(1);
        println!(self.rt; "{path}:{line}: wanted {wanted}, answered {answered}")
    }

    /// Compares what was answered with what the line says.
    fn compare(
        &mut self,
        path: &str,
        line: usize,
        wanted: &Answer,
        answer: &Answer,
    ) -> io::Result<()> {
        match (answer.whole(), wanted.whole()) {
            (Err(trouble), _) | (_, Err(trouble)) => self.tell(path, line, trouble.text()),
            (Ok(answered), Ok(wanted)) if answered == wanted => Ok(()),
            (Ok(answered), Ok(wanted)) => self.tell_difference(path, line, wanted, answered),
        }
    }

    /// Plays the line `text`.
    fn play_line(&mut self, path: &str, number: usize, text: &str) -> io::Result<()> {
        let (asked, wanted) = match text.split_once(" => ") {
            Some((asked, wanted)) => (asked, wanted),
            None => (text.strip_suffix(" =>").unwrap_or(text), ""),
        };
        if text.contains(" =>") {
            self.rows = self.rows.saturating_add(1);
        }
        let answer = self.answer(asked);
        let wanted = self.wanted(wanted);
        self.compare(path, number, &wanted, &answer)
    }

    /// Plays lines in turn, each without the `or` that it may begin with.
    fn play_lines(&mut self, path: &str, lines: &[Line]) -> io::Result<()> {
        for line in lines {
            let text = line.text.as_str();
            let text = behind_or(text).unwrap_or(text);
            if !text.is_empty() {
                self.play_line(path, line.number, text)?;
            }
        }
        Ok(())
    }

    /// Plays a list anew: the lines, and the others.
    fn play_list(
        &mut self,
        path: &str,
        lines: &[Line],
        other: &[Line],
        more: &[Line],
    ) -> io::Result<()> {
        let known = self.scene.settings().count();
        self.play_lines(path, lines)?;
        self.play_lines(path, other)?;
        self.play_lines(path, more)?;
        self.scene.end_list(known);
        Ok(())
    }

    /// Plays the lists that begin with the same lines.
    fn play_lists(&mut self, path: &str, lines: &[Line]) -> io::Result<()> {
        let (first, mut rest) = before_other(lines);
        if rest.is_empty() {
            return self.play_list(path, first, rest, rest);
        }
        for _ in 0..lines.len() {
            let Some((other, behind)) = rest.split_first() else {
                break;
            };
            let (others, more) = before_other(behind);
            self.play_list(path, first, slice::from_ref(other), others)?;
            rest = more;
        }
        Ok(())
    }

    /// Plays a script: the lines before its first list, which hold for all of it, and then its lists.
    pub fn play(&mut self, path: &str, text: &str) -> io::Result<()> {
        let lines = lines_of(self.alloc, text)?;
        let (first, mut rest) = before_title(lines.as_slice());
        self.play_lines(path, first)?;
        for _ in 0..lines.len() {
            let Some((_, behind)) = rest.split_first() else {
                break;
            };
            let (list, more) = before_title(behind);
            self.play_lists(path, list)?;
            rest = more;
        }
        Ok(())
    }
}
