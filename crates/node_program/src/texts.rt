//! The texts of help of `bsp`, made from docs/bsp.1 by oracle/help_texts.py.

/// What commands there are.
pub const OVERVIEW: &str = "bsp - keep groups of messages and exchange them with other nodes

  bsp init
  bsp contact
  bsp group NAME MAJOR DESCRIPTOR
  bsp share CONTACT GROUP LEVEL
  bsp post GROUP TIME <BODY
  bsp show
  bsp inbox [FROM COUNT]
  bsp body ID
  bsp tree GROUP FROM COUNT
  bsp audit
  bsp status
  bsp say GROUP TIME STANCE NAME MAJOR DESCRIPTOR
  bsp agree CONTACT GROUP
  bsp compact
  bsp mailbox in CONTACT <FILE
  bsp mailbox out CONTACT LATENCY COUNT >FILE
  bsp sync TURNS QUIET CONTACT MODE LATENCY SPEC [CONTACT MODE LATENCY SPEC ...]
  bsp serve WAY [CONTACT MODE LATENCY SPEC ...]
  bsp watch FROM
  bsp quit
  bsp records <STREAM
  bsp try NAME DESCRIPTOR <STREAM
  bsp help [COMMAND]
  bsp --version

`bsp help COMMAND` tells of a command; the manual page bsp(1) has the rest.
";

/// What `init` does.
pub const INIT: &str = "bsp init

Makes a store. Prints `ready`.
";

/// What `contact` does.
pub const CONTACT: &str = "bsp contact

Adds the next contact; they are numbered from 0. Prints `contact N`.
";

/// What `group` does.
pub const GROUP: &str = "bsp group NAME MAJOR DESCRIPTOR

Adds the group of the client NAME, a major version and a descriptor. The
clients are `note`, `thread`, `feed` and `sharing`, of version 0. Prints
`group GROUP`, its id.
";

/// What `share` does.
pub const SHARE: &str = "bsp share CONTACT GROUP LEVEL

Sets what a contact may see of a group: `invisible` (nothing goes out or comes
in), `visible` (what comes in is taken) or `shared` (what is delivered and
meant to be shared goes out too).
";

/// What `post` does.
pub const POST: &str = "bsp post GROUP TIME <BODY

Writes a message, whose body is the standard input, 1 to 32,768 bytes. TIME is
in milliseconds since 1970. Prints `posted ID`.
";

/// What `show` does.
pub const SHOW: &str = "bsp show

Lists contacts, groups, levels, messages with their states, and the number of
sessions.
";

/// What `inbox` does.
pub const INBOX: &str = "bsp inbox [FROM COUNT]

Lists the delivered messages in the order of delivery: id, group, time, where
it came from (`self` or a contact's number), and the length of its body. With
two numbers only those at the places from FROM on, counted from 0, at most
COUNT of them. A line keeps its place for ever, so who keeps the number of the
lines that it had finds what is new behind them.
";

/// What `body` does.
pub const BODY: &str = "bsp body ID

Writes a message's body.
";

/// What `tree` does.
pub const TREE: &str = "bsp tree GROUP FROM COUNT

Lists COUNT of the delivered messages of a group, from the place FROM on, each
behind what it replies to: how many messages stand above it, how many there
are below it and itself, and its id.
";

/// What `audit` does.
pub const AUDIT: &str = "bsp audit

Reads both files once more, by a reader of frames and a state of its own; with
the other commands it shares the reader of a batch's entries and the test
whether a batch may follow. It writes nothing. Prints `legal BATCHES ENTRIES
GOOD BAD WORD`: how many batches and entries the store has, how many of its
messages are good and how many bad by what their clients say of them, and
`settled`, or `open` where something is still to be judged or delivered, which
the next command that writes does. Where it is settled, the good messages are
the delivered ones and the bad ones the invalid ones. Where the store is not
legal, the status and the line are those that other commands end with. One
runs it on a backup, after a crash, or before trusting a store that somebody
handed over.
";

/// What `status` does.
pub const STATUS: &str = "bsp status

Prints how many messages are held and delivered, and how many sessions have
begun; where the journal ends, in bytes, and how many a batch may still take
behind it, with its frame, when the room that settling may need is kept; and
the version of the program. The journal is told of as it stands, so one sees a
full store coming. Of a node with links a line for each comes behind these,
`link I CONTACT STATE SESSION`: it is `up`, it is just being dialled
(`dials`), it `waits` for a peer or its next dial, or it is `off` until the
store was compacted; and the number of its last session.
";

/// What `say` does.
pub const SAY: &str = "bsp say GROUP TIME STANCE NAME MAJOR DESCRIPTOR

Says in a group of the client `sharing` that its author joins (`join`) or
leaves (`leave`) the group of a client, a major version and a descriptor.
Prints `posted ID`.
";

/// What `agree` does.
pub const AGREE: &str = "bsp agree CONTACT GROUP

Sets the levels for a contact that follow from what both said in a group of
the client `sharing`: `shared` where both join, `visible` where only this side
does, and else `invisible`. A group that is not known is added, unless its
level is invisible. Prints the line of `share` for each group, or `skipped
GROUP` for one that can't be added.
";

/// What `compact` does.
pub const COMPACT: &str = "bsp compact

Writes the journal anew without the history of its sessions; contacts, groups,
levels, messages and what is known of each contact stay. Prints `compacted OLD
NEW`, where the journal ended before and where it ends now, in bytes. It may
also be longer. The old journal's file stays as it was; its room on the disk
comes back with the next `compact`.
";

/// What `mailbox in` does.
pub const MAILBOX_IN: &str = "bsp mailbox in CONTACT <FILE

Reads the standard input, a file of records from a contact, and takes them.
The file may come late, again, or before an earlier one. Prints `taken N`, the
number of its records.
";

/// What `mailbox out` does.
pub const MAILBOX_OUT: &str = "bsp mailbox out CONTACT LATENCY COUNT >FILE

Writes a file of what is due to a contact to the standard output, with at most
COUNT records behind its first one. LATENCY is how long, in milliseconds, a
file may take to the contact; what had no answer in twice that time is written
again.
";

/// What `sync` does.
pub const SYNC: &str =
    "bsp sync TURNS QUIET CONTACT MODE LATENCY SPEC [CONTACT MODE LATENCY SPEC ...]

Runs a session over each of one to eight links, in turns, until nothing was
heard or sent for QUIET turns, or TURNS turns were made. MODE is `interactive`
(offers, requests and messages) or `batch` (messages are sent unasked; nothing
needs an answer). LATENCY is how long, in milliseconds, a record may take to
the other end; what had no answer in twice that time is sent or offered again.
SPEC is `std` (the standard streams), `tcp:HOST:PORT`, `listen:HOST:PORT`,
`unix:PATH` or `unixlisten:PATH`. A line for each link tells on the error
output how it ended.
";

/// What `serve` does.
pub const SERVE: &str = "bsp serve WAY [CONTACT MODE LATENCY SPEC ...]

Holds the store for as long as it runs, does what other commands in its folder
ask for, which find it by themselves, and keeps up the zero to eight links
that stand behind WAY, each CONTACT MODE LATENCY SPEC as for `sync`, but never
`std`. It ends when `quit` is asked. A link that ended is dialled again behind
a pause of 1 to 64 seconds; where peers come, the next one is let in behind
such a pause, and takes the place of one that is still there. A line on the
error output tells how each link ended, `status` how they stand. All sessions
end before `compact` and `mailbox`, and begin again. WAY is `socket` or `std`;
with `std` it also answers requests of the standard input on the standard
output, in their order, and ends with the input. It prints `node 1` there when
it is ready. A request is a line with two numbers, how many bytes its words
and its input have, then the words, a zero byte behind each, and the input. An
answer is a line with three numbers, the status and how many bytes the output
and the error output get, and then these. A request does and prints what the
command of the same words does, over the store as it stands. While an answer
to a request of the standard input is being written nothing is read there: ask
for one thing at a time, or read the answers in a thread. What is no request
is answered with status 1, and the node ends.
";

/// What `watch` does.
pub const WATCH: &str = "bsp watch FROM

Asked of a node that serves: prints the lines of `inbox` from the place FROM
on, counted from 0, and then each further one as soon as its message is
delivered, until the node ends. Without such a node the command is refused.
";

/// What `quit` does.
pub const QUIT: &str = "bsp quit

Asked of a node that serves: ends it, once all that was asked before is
answered. Without such a node the command is refused.
";

/// What `records` does.
pub const RECORDS: &str = "bsp records <STREAM

Lists the records of a stream.
";

/// What `try` does.
pub const TRY: &str = "bsp try NAME DESCRIPTOR <STREAM

Tells of each message of a stream whether it would be delivered, without a
store.
";

/// What `mailbox` does.
pub const MAILBOX: &str = "bsp mailbox in CONTACT <FILE

Reads the standard input, a file of records from a contact, and takes them.
The file may come late, again, or before an earlier one. Prints `taken N`, the
number of its records.

bsp mailbox out CONTACT LATENCY COUNT >FILE

Writes a file of what is due to a contact to the standard output, with at most
COUNT records behind its first one. LATENCY is how long, in milliseconds, a
file may take to the contact; what had no answer in twice that time is written
again.
";
