//! What help says of the program and of each command.

pub(crate) const PROGRAM: &str = "\
Options stand before the command. '--agreements' and '--store' must be given, and have no default.

Exit status: 0 done; 1 refused, and one line on standard error says why; 2 a faulty command line;
3 the store failed, and one line on standard error says how.

A document that would take the store's files past '--store-limit' gets what a full disk gives: a post is
answered by 503, and 'submit' is 'store: Disk'. How many there were is told on standard error:
'hint: documents refused by --store-limit 2048: 3'.

Examples:
  as2desk --agreements agreements.toml --store station.db check
  as2desk --agreements agreements.toml --store station.db post < plain-post.http
  as2desk --agreements agreements.toml --store station.db submit --from Supplier --to Buyer order.edi
  as2desk --agreements agreements.toml --store station.db send
  as2desk --agreements agreements.toml --store station.db serve --listen 127.0.0.1:8080 --count 100
  as2desk --agreements agreements.toml --store station.db list out";

pub(crate) const CHECK: &str = "\
Prints one line, 'organizations A, partners B', and reads nothing but the file of agreements: the
store stays closed, and isn't made where it is absent.
Where that has a fault, the first one is said on standard error, and the key where it has one:
'agreements: WrongKind receipt'. A second line says in which line or entry it stands. The exit status is
then 1.

Example:
  as2desk --agreements agreements.toml --store station.db check";

pub(crate) const MIGRATE: &str = "\
A store that an earlier version of as2desk made, of version 1 or 2, becomes one of version 3, and
'version 3' is printed. Copy the file first, and the one with '-wal' behind its name where it is there:
the earlier as2desk can't open the store any more. All entries stay. How many there were and are is told
on standard error, as 'hint: entries before: inbox 12, outbox 7' and 'hint: entries after: ..'.

A fault of the store is 'store: NAME' on standard error, exit status 3, and the store is as it was:
NotAStore where nothing stands under the path, and for ':memory:'; OtherVersion where it is of another
version than 1 and 2. A line that can't be written is 'refused: CannotWrite', exit status 1, and the
store is one of version 3.

Example:
  as2desk --agreements agreements.toml --store station.db migrate";

pub(crate) const VERIFY: &str = "\
Each entry is read again, and held against itself. Of a received document: a MIC is kept exactly where it
was processed, and is that of its content. Of a document that is sent: one that was tried was begun; a
receipt is kept exactly where its detail is one that a receipt gives; that receipt can be read, names the
document, and says of its content what the detail says; and nothing is waited for any more. Then what is
kept beside the entries is held against them: the counters, and what waits; the first that differs is told.

A line is printed for each that isn't so, as 'received 12: MIC differs', and at the end one for all:
'verified: 27 received, 24 sent, 0 findings'. Nothing is changed. The exit status is 0 where there is no
finding, and 1 where there is one. A line that can't be written is 'refused: CannotWrite' on standard
error, exit status 1. A fault of the store is 'store: NAME', exit status 3, and nothing is printed. Where
standard error is a terminal, a long look says there how far it has come, once a second.

With '--format json' each line is an object: 'box', 'fault' and 'number' of a finding; at the end
'findings', 'received' and 'sent'.

Example:
  as2desk --agreements agreements.toml --store station.db verify";

pub(crate) const EVIDENCE: &str = "\
Makes three files that show how document N stands, to hand to somebody else: 'sent-N.content', the content
as it was handed in; 'sent-N.receipt', the body of the receipt that settled it, as it came; and
'sent-N.txt', a page for people. It says from whom and to whom the document goes, under which identifier,
when it was submitted, when the receipt came and what it says, the integrity checks (MIC) of the content,
and the commands by which anybody can make those anew. Without a receipt there are two, and the page says
how the document stands. The name of each file is printed.

With '--received' it is a document that was received: 'received-N.content', 'received-N.receipt', the
receipt that was given, and 'received-N.txt'.

Nothing is written over: where something stands under one of the names, or a file can't be made, none is,
and 'refused: CannotWrite' is said on standard error, exit status 1. A number that no document has is
'refused: NoSuchNumber'. A fault of the store is 'store: NAME', exit status 3. The records aren't changed.

Example:
  as2desk --agreements agreements.toml --store station.db evidence 1 --out dispute";

pub(crate) const POST: &str = "\
Standard input is HTTP requests, as a partner sends them, one behind the other: documents and receipts.
Each is answered in turn. The reply on standard output has the receipt in it where the document asks
for one. A reply that says no, such as 403, is a reply too: the exit status is 0. It is 1, and
'refused: NAME' is said on standard error, where the input ends within a request, or can't be read, or
a reply can't be written.

The documents are recorded in the store, and answered the same when they are posted again. A store that
can't be opened is told before anything is read: 'store: NAME' on standard error, exit status 3. Where
replies were 503, how many is told at the end: 'hint: replies with status 503: 3'.

With '--log' a line is said on standard error for each reply: 'reply: MOMENT FROM TO IDENTIFIER STATUS',
with a dash for each of the three that the request's head doesn't tell.

Example:
  as2desk --agreements agreements.toml --store station.db --moment 1000 post < plain-post.http";

pub(crate) const SUBMIT: &str = "\
The document gets the next number of the outbox, and waits there to be sent. That number is printed,
in decimal digits on a line of its own. Standard input isn't read.

NAME is spelled as in a head field: a name with a blank, a quote or a backslash stands between quotes,
with a backslash before each quote and backslash: '\"A \\\"B\\\" C\"'. The options of the command have no
default. FILE has at most 1048576 bytes; no more than one byte beyond is read.

Refused, with 'refused: NAME' on standard error and exit status 1, are a file that can't be read
(CannotRead), a sender that is no organization of the agreements (UnknownOrganization), a receiver
that is no partner (UnknownPartner) and a larger document (TooLarge); nothing is recorded then. A
number that can't be written is CannotWrite, and the document is recorded. A fault of the store, as
'store: Full' where no number is left, is exit status 3.

Example:
  as2desk --agreements agreements.toml --store station.db submit --from Supplier --to Buyer order.edi";

pub(crate) const SEND: &str = "\
Each document and receipt that is due at the moment is sent to its partner, in turn. The moment is
that of '--moment', in seconds since 1970, or else the clock's when the command begins. A line is
printed for each try when it happens: 'document N: settled S processed', where the receipt came with
the answer; 'document N: delivered', where it is to come later; 'document N: try failed', where neither
did; 'receipt N: delivered' or 'receipt N: try failed'. A try that failed is no refusal; why it did is
told on standard error: 'hint: document N: connection refused'.

SECONDS is the longest wait for a peer's next byte, for a connection to be made, and for a write. A
connection as a whole ends after ten times that. Looking a name up has no limit.

It stops at the first refusal: 'refused: NAME' on standard error, exit status 1, as CannotWrite where a
line can't be written. A fault of the store is 'store: NAME', exit status 3. What was done stays.

Example:
  as2desk --agreements agreements.toml --store station.db send --timeout 10";

pub(crate) const TICK: &str = "\
Documents whose receipt was awaited until the moment become overdue; those whose last try was to end
by then have used up their tries. How many there are of both is printed, in decimal digits on a line
of its own. The moment is that of '--moment', in seconds since 1970, or else the clock's.

A count that can't be written is 'refused: CannotWrite' on standard error, exit status 1, and the
documents are changed. A fault of the store is 'store: NAME', exit status 3, and nothing is changed.

Example:
  as2desk --agreements agreements.toml --store station.db --moment 1060 tick";

pub(crate) const RESEND: &str = "\
A document in error (state E) that no receipt has settled is queued again: it is due from the moment on,
has all its tries before it, and keeps its identifier and its content. 'resent N' is printed. The next
'send' sends it; a receipt for an earlier try still settles it. The moment is that of '--moment', in
seconds since 1970, or else the clock's.

Refused, with 'refused: NAME' on standard error and exit status 1, are a number that no document has
(NoSuchNumber), a sender that is no organization of the agreements (UnknownOrganization), a receiver
that is no partner (UnknownPartner), a document that a receipt has settled (AllSettled) and one that isn't
in error (NotDue); nothing is changed then. A line that can't be written is CannotWrite, and the document
is queued. A fault of the store is 'store: NAME', exit status 3, and nothing is changed.

Example:
  as2desk --agreements agreements.toml --store station.db resend 1";

pub(crate) const LIST: &str = "\
A line of 'out' has the number, the state, how many tries were begun, 'R' where a receipt is kept, the
detail, and 'ORGANIZATION -> PARTNER'. The states are P (not sent yet, or the receipt is awaited), R (a
try is open, or another is due), S (success), W (delivered, with something left open) and E (error).
Without '--state' all are listed.

A line of 'in' has the number, 'S' where the document was processed, else 'E', the receipt that it asks
for ('-' none, 'P' not sent yet, 'S' sent), 'SENDER -> RECEIVER' and the identifier. '--state' isn't
looked at there.

With '--format json' each line is an object: 'box', 'number', 'from', 'to' and 'identifier', of 'out' also
'state', 'detail', 'tries' and 'settled', of 'in' also 'processed' and 'receipt'.

A listing that can't be written is 'refused: CannotWrite' on standard error, exit status 1. A fault of
the store is 'store: NAME', exit status 3. Nothing is changed.

Example:
  as2desk --agreements agreements.toml --store station.db list out --state E";

pub(crate) const OUTSTANDING: &str = "\
Prints a line for each count: 'documents not sent: A', 'documents in retry: B', 'receipts awaited: C',
'documents in error: D', 'receipts to send: F'. Behind them stands the line of 'list out' of each
document that is still to be sent, or whose receipt is awaited, and that is due at the moment. The
moment is that of '--moment', in seconds since 1970, or else the clock's.

With '--format json' the counts are one object: 'documents_not_sent', 'documents_in_retry',
'receipts_awaited', 'documents_in_error' and 'receipts_to_send'. The others are those of 'list out'.

A text that can't be written is 'refused: CannotWrite' on standard error, exit status 1. A fault of
the store is 'store: NAME', exit status 3. Nothing is changed.

Example:
  as2desk --agreements agreements.toml --store station.db --moment 1060 outstanding";

pub(crate) const SHOW: &str = "\
Prints the number, the state and the detail, how many tries were begun, the moment when it is due in
seconds since 1970, from whom and to whom it goes, its identifier, the length of its content and of its
receipt in bytes, and the moment of the receipt; '-' stands for what there isn't.

With '--format json' it is one object in a line: 'box', 'number', 'state', 'detail', 'tries', 'due',
'from', 'to', 'identifier', 'length', and 'receipt', an object of 'length' and 'moment', or null.

A number that no document has is 'refused: NoSuchNumber' on standard error, exit status 1, and a text
that can't be written 'refused: CannotWrite'. A fault of the store is 'store: NAME', exit status 3.
Nothing is changed.

Example:
  as2desk --agreements agreements.toml --store station.db show 1";

pub(crate) const FETCH: &str = "\
Writes the bytes of the content as they were received, and nothing else.

A number that no document has is 'refused: NoSuchNumber' on standard error, exit status 1, and a
content that can't be written 'refused: CannotWrite'. A fault of the store is 'store: NAME', exit
status 3. Nothing is changed.

Example:
  as2desk --agreements agreements.toml --store station.db fetch 1 > order.edi";

pub(crate) const SERVE: &str = "\
Writes 'listening: ADDRESS' on standard error once it does; the line tells the port that the system
chose. Each connection is answered as 'post' answers its input, and when it has ended, 'connection: END'
is printed: Closed in good order, else Truncated, BadFraming, ReadFault, WriteFault, Memory or TooLong.
The next is taken then. The moment is that of '--moment', in seconds since 1970, or else the clock's at
each connection. The exit status is 0 once all were served, however they ended. For each reply a line is
said on standard error, as 'post --log' says it: 'reply: MOMENT FROM TO IDENTIFIER STATUS'.

The SECONDS of '--timeout' are the longest wait for a peer's next byte, and for a write. A connection as a
whole ends after ten times that. A wait that is over is a ReadFault or a WriteFault. Behind a reply another
request is waited for as long as '--idle' says; where none comes the connection is Closed. Where replies
of a connection were 503, how many is told behind it: 'hint: replies with status 503: 3'.

An address that can't be listened on is 'refused: CannotListen' on standard error, exit status 1, and a
line that can't be written 'refused: CannotWrite'. A store that can't be opened is 'store: NAME', exit
status 3, and nothing is listened on then. So is one that can't be read behind a connection: no more are
served.

Example:
  as2desk --agreements agreements.toml --store station.db serve --listen 127.0.0.1:8080 --count 100";

pub(crate) const RUN: &str = "\
Writes 'listening: ADDRESS' on standard error once it does; the line tells the port that the system
chose. Up to 1000 connections are answered side by side, as 'post' answers its input. What is due is sent
as soon as it is, as 'send' sends it, by up to 64 requests side by side. A line is said on standard error
for each thing that happens. It runs until 'stop', or until it is killed: what it had answered is
recorded by then.

While it runs, 'submit', 'list', 'show', 'outstanding', 'fetch', 'tick', 'verify', 'evidence' and
'resend' over the same store are done by it, and print what they print without it. So is 'stop', which
lets what is under way end for up to 10 seconds. They reach it at a socket, the store's path with '.ctl'
behind it, which is its owner's alone. With '--control' the socket is made under that path, and links
lead from the one to the other: beside the socket to the store's file, with '.store' behind its name. A
command with other agreements than the station's is 'refused: OtherAgreements'; 'post', 'send', 'serve',
'run' and 'migrate' are 'refused: StationRuns'.

The SECONDS of '--timeout' are the longest wait for a peer's next byte within a request or an answer, and
for a write; as a whole it has ten times that. Behind a reply another request is waited for as long as
'--idle' says.

Who posts a document may ask for its receipt at any address. With '--receipts-to' such receipts are sent
to these hosts alone, to any of their ports where none is named; for another address the try has failed
before it connects, and a line says so.

An address that can't be listened on, and a socket that can't be made, are 'refused: CannotListen' on
standard error, exit status 1. A store that can't be opened is 'store: NAME', exit status 3.

Example:
  as2desk --agreements agreements.toml --store station.db run --listen 127.0.0.1:8080

Receipts go to one host alone:
  as2desk --agreements agreements.toml --store station.db run --listen 127.0.0.1:8080 --receipts-to as2.buyer.example";

pub(crate) const STOP: &str = "\
The station that runs over the store takes no more connections, lets what is under way end for up to 10
seconds, and closes the store. Nothing is printed, and the exit status is 0.

Where no station runs it is 'refused: NoStation' on standard error, exit status 1.

Example:
  as2desk --agreements agreements.toml --store station.db stop";
