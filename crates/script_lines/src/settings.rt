//! Texts that a script gives a name to.
use crate::trouble::Trouble;
use std::alloc::{AllocError, Global};

/// A text and its name.
#[derive(Drop)]
struct Setting {
    name: String,
    text: String,
}

/// The text with changes in it, each spelled `OLD -> NEW`, with ` | ` between them.
fn changed(alloc: Global, text: &str, changes: &str) -> Result<String, Trouble> {
    let mut text = String::from_str(alloc, text)?;
    for change in changes.split(" | ") {
        let Some((old, new)) = change.split_once(" -> ") else {
            return Err(Trouble::Unreadable("no change"));
        };
        text = text.replace(alloc, old, new)?;
    }
    Ok(text)
}

/// Texts by their names, as they are spelled in a script. The last one of a name counts.
#[derive(Drop)]
pub struct Settings {
    texts: Vec<Setting>,
}

impl Settings {
    pub fn new(alloc: Global) -> Settings {
        Settings {
            texts: Vec::new(alloc),
        }
    }

    /// Gives a text a name. Nothing is given where memory runs out.
    pub fn set(&mut self, alloc: Global, name: &str, text: &str) -> Result<(), AllocError> {
        let setting = Setting {
            name: String::from_str(alloc, name)?,
            text: String::from_str(alloc, text)?,
        };
        self.texts.push(setting)?;
        Ok(())
    }

    /// `NAME TEXT` gives a text a name.
    pub fn name_text(&mut self, alloc: Global, rest: &str) -> Result<(), Trouble> {
        let (name, text) = rest.split_once(" ").unwrap_or((rest, ""));
        self.set(alloc, name, text)?;
        Ok(())
    }

    /// `NAME OTHER | OLD -> NEW ..` gives the text of the other name, so changed, a name.
    pub fn change_text(&mut self, alloc: Global, rest: &str) -> Result<(), Trouble> {
        let (names, changes) = rest.split_once(" | ").unwrap_or((rest, ""));
        let Some((name, other)) = names.split_once(" ") else {
            return Err(Trouble::Unreadable("no two names"));
        };
        let Some(text) = self.text(other) else {
            return Err(Trouble::Unreadable("no text of that name"));
        };
        let text = changed(alloc, text, changes)?;
        self.set(alloc, name, text.as_str())?;
        Ok(())
    }

    /// The text of that name.
    pub fn text(&self, name: &str) -> Option<&str> {
        for setting in self.texts.iter().rev() {
            if setting.name.as_str() == name {
                return Some(setting.text.as_str());
            }
        }
        None
    }

    /// How many names were given.
    pub fn count(&self) -> usize {
        self.texts.len()
    }

    /// Takes back all names but the first so many.
    pub fn keep(&mut self, count: usize) {
        self.texts.truncate(count);
    }
}
