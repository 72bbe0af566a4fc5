//! Which places are looked at in a turn.

use std::alloc::{AllocError, Global};
use std::mem;

/// The places that are looked at in the next turn, each once, in the order in which they came.
#[derive(Drop)]
pub(crate) struct Turns {
    alloc: Global,
    places: Vec<usize>,
    is_listed: Vec<bool>,
}

impl Turns {
    /// So many places, and none to be looked at.
    pub(crate) fn new(alloc: Global, count: usize) -> Result<Turns, AllocError> {
        Ok(Turns {
            alloc,
            places: Vec::with_capacity(alloc, count)?,
            is_listed: Vec::from_elem(alloc, false, count)?,
        })
    }

    /// None is.
    pub(crate) fn is_empty(&self) -> bool {
        self.places.is_empty()
    }

    /// This one is.
    pub(crate) fn add(&mut self, at: usize) -> Result<(), AllocError> {
        let Some(listed) = self.is_listed.get_mut(at) else {
            return Ok(());
        };
        if *listed {
            return Ok(());
        }
        *listed = true;
        self.places.push(at)?;
        Ok(())
    }

    /// Those of this turn. None is to be looked at in the next.
    pub(crate) fn begin(&mut self) -> Vec<usize> {
        let places = mem::replace(&mut self.places, Vec::new(self.alloc));
        for at in &places {
            if let Some(listed) = self.is_listed.get_mut(*at) {
                *listed = false;
            }
        }
        places
    }
}
