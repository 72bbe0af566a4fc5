//! What a command line can ask for.
use crate::first_number::FirstNumber;
use as2_audit::Mailbox;
use as2_text::{AsName, Moment};
use as2_views::Filter;
use std::marker::Model;

/// What a command over the records is given besides them.
#[derive(Clone, Copy)]
pub struct RunOptions {
    /// The first number of a store that is made.
    pub first: FirstNumber,
    /// The moment of `--moment`, or else the clock's.
    pub moment: Moment,
    /// The most MiB that the store's files may have with a content more: 1 to 1,048,576.
    pub limit: u64,
}

/// A document that is to be handed in.
#[derive(Drop)]
pub struct Submission<'a> {
    /// The organization that sends it.
    pub from: AsName,
    /// The partner that it is for.
    pub to: AsName,
    /// The path of its file.
    pub path: &'a str,
}

impl<'a> Model for Submission<'a> {
    ghost use Rattle.as2_commands.specs.Requests.{GivenSubmission};

    ghost Value = { GivenSubmission };

    ghost view = { λ s. record { from = s.from; to = s.to; path = s.path.now } };
}

/// How long a peer is waited for.
#[derive(Clone, Copy, Debug, PartialEq, Eq)]
pub struct Waits {
    /// The longest wait for a peer's next byte, for a connection to be made, and for a write: 1 to 3600 seconds.
    pub seconds: u64,
}

/// How long the peer of a connection that is served is waited for.
#[derive(Clone, Copy, Debug, PartialEq, Eq)]
pub struct ServingWaits {
    /// The longest wait for a peer's next byte, and for a write: 1 to 3600 seconds.
    pub seconds: u64,
    /// The longest wait for another request, behind a reply: 1 to 3600 seconds.
    pub idle: u64,
}

/// What is to be served.
#[derive(Drop)]
pub struct Serving<'a> {
    /// The address that is listened on, as `127.0.0.1:8080`.
    pub address: &'a str,
    /// How many connections are served, one after the other: 1 to 1,000,000.
    pub count: u64,
    /// How long a peer is waited for.
    pub waits: ServingWaits,
    /// The moment of each connection, where `--moment` gives it.
    pub moment: Option<Moment>,
}

impl<'a> Model for Serving<'a> {
    ghost use Rattle.as2_commands.specs.Requests.{GivenServing};

    ghost Value = { GivenServing };

    ghost view = { λ s. record { address = s.address.now; count = s.count; waits = s.waits; moment = s.moment } };
}

/// A station that is to run.
#[derive(Drop)]
pub struct Operating<'a> {
    /// The address that is listened on, as `127.0.0.1:8080`.
    pub address: &'a str,
    /// The path of the socket at which it can be asked, where it isn't the store's with `.ctl` behind it.
    pub control: Option<&'a str>,
    /// How long a peer is waited for.
    pub waits: ServingWaits,
    /// The hosts that receipts may be sent to, with or without a port, and commas between them; anywhere where it isn't given.
    pub receipts_to: Option<&'a str>,
    /// The moment of all that it answers, where `--moment` gives it.
    pub moment: Option<Moment>,
}

impl<'a> Model for Operating<'a> {
    ghost use Rattle.std.specs.Prelude.{option_map};
    ghost use Rattle.as2_commands.specs.Requests.{GivenOperating};

    ghost Value = { GivenOperating };

    ghost view = { λ s. record {
      address = s.address.now;
      control = option_map (λ path. path.now) s.control;
      waits = s.waits;
      receipts_to = option_map (λ hosts. hosts.now) s.receipts_to;
      moment = s.moment;
    } };
}

/// Which document is to be proved, and where the files go that show how it stands.
#[derive(Drop)]
pub struct EvidenceRequest<'a> {
    /// The box that it stands in.
    pub mailbox: Mailbox,
    /// Its number: 1 to 999,999,999,999.
    pub number: u64,
    /// The folder that the files are made in.
    pub folder: &'a str,
}

impl<'a> Model for EvidenceRequest<'a> {
    ghost use Rattle.as2_commands.specs.Requests.{GivenEvidence};

    ghost Value = { GivenEvidence };

    ghost view = { λ w. record { mailbox = w.mailbox; number = w.number; folder = w.folder.now } };
}

/// How what is told of the records is printed.
#[derive(Clone, Copy, Debug, PartialEq, Eq)]
pub enum Format {
    /// In lines for people.
    Text,
    /// In objects for programs, each in a line (JSON Lines).
    Json,
}

/// What is asked of the records once, and answered by a text. `D` is a document that is handed in: a `Submission`, until its file
/// is read.
#[derive(Drop)]
pub enum Question<D> {
    /// To take the document in.
    Submit(D),
    /// To give up what has waited until the moment.
    Tick,
    /// To send the document of that number of the outbox anew: 1 to 999,999,999,999.
    Resend(u64),
    /// For the lines of entries; and whether a state was given that isn't looked at, since what was received has none.
    List(Filter, bool, Format),
    /// For what is outstanding.
    Outstanding(Format),
    /// For the document of that number of the outbox: 1 to 999,999,999,999.
    Show(u64, Format),
    /// For the content of the document of that number of the inbox: 1 to 999,999,999,999.
    Fetch(u64),
}

/// What is to be done over the records.
#[derive(Drop)]
pub enum Command<'a, D> {
    /// The requests on standard input are answered; and whether each reply is noted.
    Post(bool),
    /// The records are asked once.
    Ask(Question<D>),
    /// What is due is sent.
    Send(Waits),
    /// Connections of partners are served.
    Serve(Serving<'a>),
}

/// What is to be done with the agreements.
#[derive(Drop)]
pub enum Task<'a> {
    /// Their members are counted.
    Check,
    /// The store, which an earlier version made, becomes one of the version that is read.
    Migrate,
    /// The entries of the records are looked through.
    Verify(RunOptions, Format),
    /// The files are made that show how a document stands.
    GatherEvidence(RunOptions, EvidenceRequest<'a>),
    /// A command is carried out over the records.
    Run(RunOptions, Command<'a, Submission<'a>>),
    /// A station runs over the records, until it is stopped.
    Operate(RunOptions, Operating<'a>),
    /// The station that runs over the store ends.
    Stop,
}

/// What a command line says.
#[derive(Drop)]
pub struct Options<'a> {
    /// The path of the file of agreements.
    pub agreements: &'a str,
    /// The path of the store, or `:memory:`.
    pub store: &'a str,
    /// What is to be done.
    pub task: Task<'a>,
}
