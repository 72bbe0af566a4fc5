//! Many connections, each at its place.
ghost use Rattle.std.specs.Prelude.{◌≡◌, ◌-◌, ◌^◌, ◌<◌, ◌≤◌, ℕ, List, [], ◌∷◌, ◌++◌, length, min, take, replicate, position, is_none, slice_get, slice_set, None, false, IfOk, IsTrue};
ghost use Rattle.as2_hub.specs.Bounded.{HoldsNoMore, IsWithinBounds, KeepsBounds, unanswered_in};
ghost use Rattle.as2_hub.specs.Calls.{DeskCall};
ghost use Rattle.as2_hub.specs.Happenings.{Happenings, Opens, Comes, Keeps, Goes, Closes};
ghost use Rattle.as2_hub.specs.Inputs.{ChangesPlaces, StopsBefore, comes_if, fits_in, piece_fits};
ghost use Rattle.as2_hub.specs.Places.{OpensTalk, PlaceStands, SetsOutput, SetsTalk, StandAmid, StandAfter, ChangesOnlyIfKept, is_done_in, is_reading_in, is_ready_in, is_occupied, is_vacant, output_at, place_unanswered, places, room_in, room_left};
ghost use Rattle.as2_hub.specs.Promises.{KeepsPromises, Takes};
ghost use Rattle.as2_hub.specs.Rounds.{AsksPlace, AsksPlaces, SettlesRound, scene};

use crate::bounds::Bounds;
use crate::desk::Desk;
use crate::input::Input;
use crate::talk::Talk;
use as2_text::Memory;
use std::alloc::Global;

/// The connections, each at its place.
#[derive(Drop)]
pub struct Hub {
    alloc: Global,
    bounds: Bounds,
    talks: Vec<Option<Talk>>,
}

impl Hub {
    /// As many places as there may be connections, and nobody at them.
    pub fn new(alloc: Global, bounds: Bounds) -> Result<Hub, Memory>
        ensures vacant { IfOk result (λ hub. places hub ≡ replicate bounds.connections None) }
        ensures bounds { IfOk result (λ hub. hub.bounds ≡ bounds) }
        ensures stands { IfOk result (λ hub. StandAfter (places hub) []) }
        ensures within { IfOk result IsWithinBounds }
    {
        let mut talks = Vec::new(alloc);
        for _ in 0..bounds.connections {
            talks.push(None)?;
        }
        Ok(Hub {
            alloc,
            bounds,
            talks,
        })
    }

    /// The first place at which nobody is.
    pub fn free_place(&self) -> Option<usize>
        ensures { result ≡ position is_none (places self.now) }
    {
        self.talks.iter().position(|talk| talk.is_none())
    }

    /// A connection has this place.
    pub fn is_open(&self, at: usize) -> bool
        ensures { result ≡ is_occupied (slice_get (places self.now) at) }
    {
        match self.talks.get(at) {
            Some(Some(_)) => true,
            _ => false,
        }
    }

    /// A connection is opened at this place. False: there is no such place, or somebody has it, and nothing changes.
    #[tactic(auto, using(crate::proofs::Within::bounded_same))]
    pub fn open(&mut self, at: usize) -> bool
        ensures vacant { result ≡ is_vacant (slice_get (places self.old) at) }
        ensures stands { IsTrue result → (h : Happenings) → StandAfter (places self.old) h
            → StandAfter (places self.new) (Opens at ∷ h) }
        ensures opens { IsTrue result → OpensTalk at (places self.old) (places self.new) }
        ensures bounded { KeepsBounds self.old self.new }
        ensures refused { result ≡ false → self.new ≡ self.old }
    {
        if at >= self.talks.len() || self.talks[at].is_some() {
            return false;
        }
        self.talks[at] = Some(Talk::new(self.alloc));
        true
    }

    /// It is closed.
    #[tactic(auto, using(crate::proofs::Within::bounded_same))]
    pub fn close(&mut self, at: usize)
        ensures stands { (h : Happenings) → StandAfter (places self.old) h
            → StandAfter (places self.new) (Closes at ∷ h) }
        ensures empties { places self.new ≡ slice_set (places self.old) at None }
        ensures bounded { KeepsBounds self.old self.new }
    {
        if at < self.talks.len() {
            self.talks[at] = None;
        }
    }

    /// How many bytes of it came that aren't answered.
    pub fn unanswered(&self, at: usize) -> usize
        ensures { result ≡ min (unanswered_in (slice_get (places self.now) at)) (2 ^ 64 - 1) }
    {
        match self.talks.get(at) {
            Some(talk) => unanswered(talk),
            None => 0,
        }
    }

    /// How many bytes more may be read of all.
    fn left(&self) -> usize
        ensures { result ≡ room_left self.now }
    {
        let mut left = self.bounds.bytes_of_all;
        for talk in &self.talks {
            left = left.saturating_sub(unanswered(talk));
        }
        left
    }

    /// How many bytes may be read next of the connection at this place.
    pub fn room(&self, at: usize) -> usize
        ensures { result ≡ room_in self.now (slice_get (places self.now) at) }
    {
        match self.talks.get(at) {
            Some(Some(talk)) => talk.room(self.bounds.bytes_of_one).min(self.left()),
            _ => 0,
        }
    }

    /// Takes bytes that came from it, as many of the first as may be read, and answers how many.
    #[tactic(auto, using(crate::proofs::Within::bounded_same))]
    pub fn hear(&mut self, at: usize, piece: &[u8]) -> usize
        ensures count { result ≡ min (room_in self.old (slice_get (places self.old) at)) (length piece.now) }
        ensures stands { 0 < result → (h : Happenings) → StandAfter (places self.old) h
            → StandAfter (places self.new) (Comes at (take result piece.now) ∷ h) }
        ensures sets { 0 < result → SetsTalk at (places self.old) (places self.new) }
        ensures bounded { KeepsBounds self.old self.new }
        ensures none { result ≡ 0 → self.new ≡ self.old }
    {
        // (a read of the bound shows the check that it is a `usize`)
        let _most = self.bounds.bytes_of_one;
        let room = self.room(at).min(piece.len());
        if room == 0 {
            return 0;
        }
        let Some(talk) = &mut self.talks[at] else {
            return 0;
        };
        talk.hear(&piece[..room]);
        room
    }

    /// More is read of it.
    pub fn is_reading(&self, at: usize) -> bool
        ensures { result ≡ is_reading_in (slice_get (places self.now) at) }
    {
        match self.talks.get(at) {
            Some(Some(talk)) => talk.is_reading(),
            _ => false,
        }
    }

    /// Takes all of a piece that came. False: there is no room for all of it, and nothing changes.
    fn hear_all(&mut self, at: usize, piece: &[u8]) -> bool
        ensures fits { result ≡ piece_fits self.old at piece.now }
        ensures stands { IsTrue result → (h : Happenings) → StandAfter (places self.old) h
            → StandAfter (places self.new) (comes_if (is_reading_in (slice_get (places self.old) at)) at piece.now ++ h) }
        ensures changes { IsTrue result
            → ChangesPlaces (comes_if (is_reading_in (slice_get (places self.old) at)) at piece.now)
            (places self.old) (places self.new) }
        ensures bounded { KeepsBounds self.old self.new }
        ensures none { result ≡ false → self.new ≡ self.old }
    {
        if !self.is_reading(at) {
            return true;
        }
        if self.room(at) < piece.len() {
            return false;
        }
        self.hear(at, piece);
        true
    }

    /// A round that asks for it would have a request of it answered.
    pub fn is_ready(&self, at: usize) -> bool
        ensures { result ≡ is_ready_in (slice_get (places self.now) at) }
    {
        match self.talks.get(at) {
            Some(Some(talk)) => talk.is_ready(),
            _ => false,
        }
    }

    /// Has the desk answer what waits at this place. Answers whether it did.
    #[tactic(auto, using(crate::proofs::Within::less_same))]
    fn ask<D: Desk>(&mut self, desk: &mut D, at: usize) -> bool
        ensures asks { AsksPlace D.conduct at (scene desk.old self.old) (scene desk.new self.new) result }
        ensures unread { HoldsNoMore (places self.old) (places self.new) }
        ensures bounds { self.new.bounds ≡ self.old.bounds }
    {
        if at >= self.talks.len() {
            return false;
        }
        let Some(talk) = &mut self.talks[at] else {
            return false;
        };
        talk.ask(desk)
    }

    /// Has the desk answer what waits at each of these places, up to the bound.
    fn ask_all<D: Desk>(&mut self, desk: &mut D, ready: &[usize])
        ensures asks { AsksPlaces D.conduct ready.now (scene desk.old self.old) (scene desk.new self.new) }
        ensures unread { HoldsNoMore (places self.old) (places self.new) }
        ensures bounds { self.new.bounds ≡ self.old.bounds }
    {
        let mut left = self.bounds.requests;
        for at in ready {
            if left == 0 {
                return;
            }
            left -= usize::from(self.ask(desk, *at));
        }
    }

    /// The round has ended at this place.
    #[tactic(auto, using(crate::proofs::Within::less_same))]
    fn settle(&mut self, at: usize, is_kept: bool)
        requires within { at < length (places self.old) }
        ensures kept { IsTrue is_kept → (h : Happenings) (round : List DeskCall)
            → PlaceStands at h round (slice_get (places self.old) at)
            → PlaceStands at (Keeps round ∷ h) [] (slice_get (places self.new) at) }
        ensures waits { ChangesOnlyIfKept is_kept (slice_get (places self.old) at) (slice_get (places self.new) at) }
        ensures others { (c : ℕ) → ¬ (c ≡ at) → slice_get (places self.new) c ≡ slice_get (places self.old) c }
        ensures unread { HoldsNoMore (places self.old) (places self.new) }
        ensures bounds { self.new.bounds ≡ self.old.bounds }
    {
        let Some(talk) = &mut self.talks[at] else {
            return;
        };
        talk.settle(is_kept);
    }

    /// The round has ended at each place.
    fn settle_all(&mut self, is_kept: bool)
        ensures kept { IsTrue is_kept → (h : Happenings) (round : List DeskCall) → StandAmid (places self.old) h round
            → StandAfter (places self.new) (Keeps round ∷ h) }
        ensures waits { (c : ℕ) → ChangesOnlyIfKept is_kept (slice_get (places self.old) c)
            (slice_get (places self.new) c) }
        ensures unread { HoldsNoMore (places self.old) (places self.new) }
        ensures bounds { self.new.bounds ≡ self.old.bounds }
    {
        for at in 0..self.talks.len() {
            self.settle(at, is_kept);
        }
    }

    /// A round: the desk answers what waits at each of these places, a request of each and up to the bound, and gives
    /// one verdict for all of it. True: it is kept, and each reply may go. False: it is lost, and all waits on.
    pub fn round<D: Desk>(&mut self, desk: &mut D, ready: &[usize]) -> bool
        ensures settles { SettlesRound D.conduct ready.now (scene desk.old self.old) (scene desk.new self.new) result }
        ensures bounded { KeepsBounds self.old self.new }
    {
        self.ask_all(desk, ready);
        let is_kept = desk.settle();
        self.settle_all(is_kept);
        is_kept
    }

    /// What is to be written to it.
    pub fn output(&self, at: usize) -> &[u8]
        ensures { result.now ≡ output_at (slice_get (places self.now) at) }
    {
        match self.talks.get(at) {
            Some(Some(talk)) => talk.output(),
            _ => &[],
        }
    }

    /// As many as this of those bytes went, or all. Answers how many.
    #[tactic(auto, using(crate::proofs::Within::bounded_same))]
    pub fn sent(&mut self, at: usize, most: usize) -> usize
        ensures count { result ≡ min most (length (output_at (slice_get (places self.old) at))) }
        ensures stands { 0 < result → (h : Happenings) → StandAfter (places self.old) h
            → StandAfter (places self.new) (Goes at (take result (output_at (slice_get (places self.old) at))) ∷ h) }
        ensures sets { 0 < result → SetsOutput at result (places self.old) (places self.new) }
        ensures bounded { KeepsBounds self.old self.new }
        ensures none { result ≡ 0 → self.new ≡ self.old }
    {
        let count = self.output(at).len().min(most);
        if count == 0 {
            return 0;
        }
        let Some(talk) = &mut self.talks[at] else {
            return 0;
        };
        talk.sent(count);
        count
    }

    /// Nothing more is read of it, and nothing is to be written: it may be closed.
    pub fn is_done(&self, at: usize) -> bool
        ensures { result ≡ is_done_in (slice_get (places self.now) at) }
    {
        match self.talks.get(at) {
            Some(Some(talk)) => talk.is_done(),
            _ => false,
        }
    }

    /// Takes what happens. Bytes of a connection of which nothing more is read are passed over. False: there is no room
    /// for all the bytes that came, and nothing changes.
    pub fn take<D: Desk>(&mut self, desk: &mut D, input: &Input) -> bool
        ensures fits { result ≡ fits_in self.old input.now }
        ensures takes { IsTrue result → (more : Happenings)
            × Takes D.conduct input.now (scene desk.old self.old) more (scene desk.new self.new) }
        ensures none { result ≡ false → (desk.new ≡ desk.old) × (self.new ≡ self.old) }
    {
        match input {
            Input::Opens(at) => {
                self.open(*at);
            }
            Input::Comes(at, piece) => return self.hear_all(*at, piece),
            Input::Turns(ready) => {
                self.round(desk, ready);
            }
            Input::Goes(at, most) => {
                self.sent(*at, *most);
            }
            Input::Closes(at) => self.close(*at),
        }
        true
    }

    /// Takes what happens, one after the other, up to the first piece for which there is no room. Answers how many.
    pub fn play<D: Desk>(&mut self, desk: &mut D, inputs: &[Input]) -> usize
        ensures count { result ≤ length inputs.now }
        ensures stops { StopsBefore self.new (slice_get inputs.now result) }
        // Each connection is told what the rounds say that were kept; they led the desk, in this order, and a round
        // that was lost left what it keeps as it was.
        ensures promised { KeepsPromises D.conduct (take result inputs.now) (scene desk.old self.old)
            (scene desk.new self.new) }
    {
        let mut taken = 0;
        for input in inputs {
            if !self.take(desk, input) {
                return taken;
            }
            taken += 1;
        }
        taken
    }
}

/// How many bytes of a connection came that aren't answered.
fn unanswered(talk: &Option<Talk>) -> usize
    ensures { result ≡ min (place_unanswered talk.now) (2 ^ 64 - 1) }
{
    match talk {
        Some(talk) => talk.unanswered(),
        None => 0,
    }
}
