//! How far the numbers that are due were gone through.
ghost use Rattle.as2_live.specs.Living.{LivesOn};

use crate::bounds::SWEEP_SHARE;
use crate::walk::Walk;
use as2_exchange::Next;
use as2_live::Live;
use as2_records::Records;
use as2_text::Moment;

/// Two walks through what is due. What is new has the greatest numbers, so the walk behind the last of them finds it at once, however much
/// else is due. What falls due again is found by a walk from the least numbers, now and then.
#[derive(Drop)]
pub(crate) struct Sweep {
    fresh: Walk,
    /// The walk from the least numbers, if one is under way.
    anew: Option<Walk>,
    /// Whether all was gone through once.
    is_seen: bool,
    /// When the last walk from the least numbers began, and when it ended, in milliseconds.
    began: u64,
    ended: u64,
}

impl Sweep {
    /// Nothing was looked at.
    pub(crate) fn new() -> Sweep {
        Sweep {
            fresh: Walk::new(),
            anew: None,
            is_seen: false,
            began: 0,
            ended: 0,
        }
    }

    /// Something new may be due.
    pub(crate) fn wake(&mut self) {
        self.fresh.wake();
    }

    /// Whether nothing is left to be looked at.
    pub(crate) fn is_through(&self) -> bool {
        self.fresh.is_through() && self.anew.is_none()
    }

    /// What is to be looked at next, what is new before all else; None at the end.
    pub(crate) fn next_due<K: Records>(
        &mut self,
        live: &mut Live<'_, K>,
        moment: Moment,
        now: u64,
    ) -> Option<Next>
        ensures lives { LivesOn K.shows live.old live.new }
    {
        if self.fresh.is_through() {
            return self.next_anew(live, moment, now);
        }
        let next = self.fresh.next(live, moment);
        self.is_seen = self.is_seen || next.is_none();
        next
    }

    /// What is to be looked at next by the walk from the least numbers; None if there is none, or at its end.
    fn next_anew<K: Records>(
        &mut self,
        live: &mut Live<'_, K>,
        moment: Moment,
        now: u64,
    ) -> Option<Next>
        ensures lives { LivesOn K.shows live.old live.new }
    {
        let Some(walk) = &mut self.anew else {
            return None;
        };
        let next = walk.next(live, moment);
        if next.is_none() {
            self.anew = None;
            self.ended = now;
        }
        next
    }

    /// Begins a walk from the least numbers, unless one is under way, or the last one took so long that the time since is too short: these
    /// walks have a tenth of the time at most.
    pub(crate) fn begin_anew(&mut self, now: u64) {
        let took = self.ended.saturating_sub(self.began);
        let rest = took.saturating_mul(SWEEP_SHARE);
        if !self.is_seen || self.anew.is_some() || now < self.ended.saturating_add(rest) {
            return;
        }
        self.anew = Some(Walk::new());
        self.began = now;
    }
}
