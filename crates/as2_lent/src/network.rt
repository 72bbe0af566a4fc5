//! No network: a command that is run over a station's records asks nothing of one.
ghost use Rattle.std.specs.Prelude.{◌≡◌, ⊤};

use as2_agreement::Agreements;
use as2_commands::{ServingWaits, Waits};
use as2_exchange::{Job, TryAnswer};
use as2_host::{CannotListen, Listens, Network};
use as2_http::{Journal, Served};
use as2_records::Records;
use as2_sending::{LinkFault, Links};
use as2_station::Station;
use as2_text::{Memory, Moment};
use std::alloc::Global;

/// No network.
#[derive(Clone, Copy, Debug)]
pub(crate) struct NoNetwork;

impl Listens for NoNetwork {
    ghost use Rattle.std.specs.Prelude.{[]};

    ghost bound = { λ _. [] };

    ghost ended = { λ _ _ _ _ _. ⊤ };

    fn address(&self, alloc: Global) -> Result<String, Memory> {
        Ok(String::new(alloc))
    }

    fn serve<K: Records, J: Journal>(
        &mut self,
        _alloc: Global,
        _agreements: &Agreements,
        _moment: Option<Moment>,
        _station: &mut Station<K>,
        _journal: &mut J,
    ) -> Served {
        Served::ReadFault
    }
}

impl Links for NoNetwork {
    ghost answers = { λ _ _ _ _. ⊤ };

    fn exchange(&mut self, _alloc: Global, _job: &Job) -> TryAnswer {
        TryAnswer::NoAnswer
    }

    fn fault(&self) -> LinkFault {
        LinkFault::NoConnection
    }
}

impl Network for NoNetwork {
    type Listener = NoNetwork;

    type Links = NoNetwork;

    ghost listens = { λ _ _ _ _ _. ⊤ };

    ghost refuses = { λ old _ _ new. new ≡ old };

    ghost opens = { λ old _ _ new. new ≡ old };

    ghost closes = { λ old _ new. new ≡ old };

    ghost stops = { λ old _ new. new ≡ old };

    fn listen(
        &mut self,
        _alloc: Global,
        _address: &str,
        _waits: ServingWaits,
    ) -> Result<NoNetwork, CannotListen> {
        Err(CannotListen)
    }

    fn links(&mut self, _waits: Waits) -> NoNetwork {
        NoNetwork
    }

    fn close(&mut self, _links: NoNetwork) {}

    fn stop(&mut self, _listener: NoNetwork) {}
}
