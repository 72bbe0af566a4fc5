//! What the lines of a list are played on.
use crate::played::Played;
use script_lines::Settings;
use std::alloc::Global;

/// Texts by their names, and a station.
#[derive(Drop)]
pub struct Stage {
    pub alloc: Global,
    pub settings: Settings,
    pub played: Played,
}

impl Stage {
    pub fn new(alloc: Global) -> Stage {
        Stage {
            alloc,
            settings: Settings::new(alloc),
            played: Played::new(),
        }
    }
}
