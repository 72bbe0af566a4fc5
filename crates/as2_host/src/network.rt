//! The network, as far as the program uses it.
ghost use Rattle.std.specs.Prelude.{◌≡◌, ℕ, List, Option, IfErr, IfOk, string_bytes};
ghost use Rattle.as2_exchange.specs.Run.{Trace};
ghost use Rattle.as2_exchange.specs.State.{State};
ghost use Rattle.as2_commands.specs.declared.tasks.ServingWaits.{ServingWaits as TheServingWaits};
ghost use Rattle.as2_commands.specs.declared.tasks.Waits.{Waits as TheWaits};
ghost use Rattle.as2_host.specs.Serving.{ServesOne};
ghost use Rattle.as2_http.specs.declared.stream.Served.{Served as TheEnd};

use as2_agreement::Agreements;
use as2_commands::{ServingWaits, Waits};
use as2_http::{Journal, Served};
use as2_records::Records;
use as2_sending::Links;
use as2_station::Station;
use as2_text::{Memory, Moment};
use std::alloc::Global;

/// The address can't be listened on.
#[derive(Clone, Copy, Debug, PartialEq, Eq)]
pub struct CannotListen;

/// What listens at an address.
pub trait Listens {
    // where it listens, as text
    ghost bound: { Self → List ℕ };

    // asked for that moment, where one was given, a connection that it accepted brought these posts, with what was said to each,
    // and ended so; it is as that then
    ghost ended: { Self → Option ℕ → Trace → TheEnd → Self → Type 0 };

    /// Where it listens, as text.
    fn address(&self, alloc: Global) -> Result<String, Memory>
        ensures { IfOk result (λ text. string_bytes text ≡ bound self.now) };

    /// Accepts one connection and has the station answer its requests, at this moment, or where none is given at the one
    /// that the clock tells then. Each reply is noted in the journal. An accept that fails is a `ReadFault`.
    fn serve<K: Records, J: Journal>(
        &mut self,
        alloc: Global,
        agreements: &Agreements,
        moment: Option<Moment>,
        station: &mut Station<K>,
        journal: &mut J,
    ) -> Served
        ensures ended { (trace : Trace) × ended self.old moment trace result self.new }
        ensures clean { (K.shows station.new).IsClean → (K.shows station.old).IsClean }
        // What led the records on is what the connection brought.
        ensures serves { (K.shows station.new).IsClean → (s : State) → (K.shows station.old).Rests s
            → (t : State) × (K.shows station.new).Rests t
            × ServesOne agreements.now moment (λ trace. ended self.old moment trace result self.new) s t };
}

/// Addresses to listen at, and links to partners.
pub trait Network {
    type Listener: Listens + Drop;

    type Links: Links + Drop;

    // asked to listen at that address, with these waits, it gave that listener; it is as that then
    ghost listens: { Self → List ℕ → TheServingWaits → Self.Listener → Self → Type 0 };

    // nothing can listen at that address, with these waits; it is as that then
    ghost refuses: { Self → List ℕ → TheServingWaits → Self → Type 0 };

    // asked for links that are opened with these waits, it gave those; it is as that then
    ghost opens: { Self → TheWaits → Self.Links → Self → Type 0 };

    // given those links back, as they are by then, it ended them; it is as that then
    ghost closes: { Self → Self.Links → Self → Type 0 };

    // given that listener back, as it is by then, it ended it; it is as that then
    ghost stops: { Self → Self.Listener → Self → Type 0 };

    /// Listens at that address.
    fn listen(
        &mut self,
        alloc: Global,
        address: &str,
        waits: ServingWaits,
    ) -> Result<Self::Listener, CannotListen>
        ensures listener { IfOk result (λ listener. listens self.old address.now waits listener self.new) }
        ensures none { IfErr result (λ _. refuses self.old address.now waits self.new) };

    /// What opens links to partners.
    fn links(&mut self, waits: Waits) -> Self::Links
        ensures { opens self.old waits result self.new };

    /// Takes back links, and ends them.
    fn close(&mut self, links: Self::Links)
        ensures { closes self.old links self.new };

    /// Takes back a listener, which listens no more.
    fn stop(&mut self, listener: Self::Listener)
        ensures { stops self.old listener self.new };
}
