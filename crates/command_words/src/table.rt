//! The table of the program's commands: their words and options, and what the help says of each. The builder of a parse, the
//! help texts, the man page and the completions are made of it.
ghost use Rattle.std.specs.Prelude.{◌≡◌, map};
ghost use Rattle.command_words.specs.Meanings.{commands, helps as help_rows};
ghost use Rattle.command_words.specs.Rows.{help_in, row_in};

/// An option: its name, the word for its value, which a flag doesn't have, and whether the command needs it.
pub type Choice = (&'static str, &'static str, bool);

/// A command: its word, its options, and what it is for in a phrase.
///
/// It is a tuple, since a definition reads a constant that holds texts so and not in a struct.
pub type Row = (&'static str, &'static [Choice], &'static str);

/// What the help on a command says below its usage line: what goes in and out, the exit statuses, a line each, and an example.
pub type Help = (&'static str, &'static str, &'static str);

/// The commands of the program.
pub static COMMANDS: [Row; 13] = [
    (
        "day",
        &[("journal", "FILE", false)],
        "answers the lines of a day's script: asks, notices, ticks and budgets",
    ),
    (
        "conn",
        &[("journal", "FILE", false)],
        "serves a day on one HTTP connection, on standard input and output",
    ),
    (
        "notices",
        &[("journal", "FILE", true)],
        "prints the notices that the day of a journal owes its bidders",
    ),
    (
        "bidder",
        &[],
        "serves a bidder's HTTP connection, on standard input and output",
    ),
    (
        "gen",
        &[("seed", "N", true), ("asks", "M", true)],
        "generates a day of M asks by the words of the seed N, and prints its closing table",
    ),
    (
        "close",
        &[("journal", "FILE", true), ("ratio", "", false)],
        "prints the record and the certificate of the day of a journal",
    ),
    (
        "check",
        &[],
        "checks the certificate of a closed day against its record",
    ),
    (
        "archive-put",
        &[("archive", "FILE", true)],
        "keeps a closed day in an archive",
    ),
    (
        "archive-list",
        &[
            ("archive", "FILE", true),
            ("seat", "S", true),
            ("cid", "C", true),
            ("from", "DAY", true),
            ("to", "DAY", true),
        ],
        "lists the days of a campaign that an archive keeps",
    ),
    (
        "reconcile",
        &[("journal", "FILE", true), ("bidder", "NAME", true)],
        "compares the bills of the day of a journal with a bidder's ledger",
    ),
    (
        "serve",
        &[
            ("roster", "FILE", true),
            ("journal", "FILE", true),
            ("port", "P", true),
            ("workers", "W", true),
        ],
        "serves a day over the network: asks its bidders, and sends them notices",
    ),
    (
        "post",
        &[("roster", "FILE", true), ("journal", "FILE", true)],
        "sends the notices that the day of a journal owes its bidders",
    ),
    (
        "bid",
        &[("prices", "FILE", true), ("port", "P", true)],
        "serves connections over the network as a bidder",
    ),
];

/// The helps on them, in the same order.
pub static HELPS: [Help; 13] = [
    // day
    (
        "in:  a roster line, and after it script lines, on standard input
out: an answer to each script line, and at the end the closing table, on standard output
--journal FILE: the day goes on from the history in FILE, and FILE keeps what is added; FILE is made if it doesn't exist, and
is this process's own until it ends",
        "  0  done
  3  the first line isn't a roster, or the input is too long
  4  standard input can't be read
  5  standard output can't be written
  6  the journal can't be read or written, or another process has it open
  7  the journal isn't one of this roster's day
  12  out of memory
",
        "echo '{\"day\":\"2025-03-01\",\"bidders\":[{\"name\":\"b1\"}],\"campaigns\":[{\"bidder\":\"b1\",\"seat\":\"s1\",\"cid\":\"c1\",\"budget\":0.01}]}' | ./adx day",
    ),
    // conn
    (
        "in:  a roster line, and after it the bytes of an HTTP connection, on standard input; the roster's `replies` are what its
bidders answer, one after the other
out: the connection's replies, on standard output: the answers to auctions, what was counted of notices, and the books
--journal FILE: the day goes on from the history in FILE, and FILE keeps what is added; FILE is made if it doesn't exist, and
is this process's own until it ends",
        "  0  the connection was read to its end
  3  the first line isn't a roster, or is too long
  4  standard input can't be read
  5  standard output can't be written
  6  the journal can't be read or written, or another process has it open
  7  the journal isn't one of this roster's day
  12  out of memory
",
        "printf '{\"day\":\"2025-03-01\",\"bidders\":[{\"name\":\"b1\"}],\"campaigns\":[{\"bidder\":\"b1\",\"seat\":\"s1\",\"cid\":\"c1\",\"budget\":0.01}]}\\nGET /books HTTP/1.1\\r\\nHost: x\\r\\n\\r\\n' | ./adx conn",
    ),
    // notices
    (
        "in:  a roster line, on standard input; everything after it is read and ignored
out: a line for each notice that the day in FILE owes its bidders, its kind and its URL, on standard output; none is sent, and
FILE keeps the same history; a FILE that doesn't exist isn't made",
        "  0  done
  3  the first line isn't a roster, or the input is too long
  4  standard input can't be read
  5  standard output can't be written
  6  the journal can't be read or written, or another process has it open
  7  the journal isn't one of this roster's day
  12  out of memory
",
        "./adx day --journal a.journal < examples/notices.day; ./adx notices --journal a.journal < examples/notices.day",
    ),
    // bidder
    (
        "in:  a price line, and after it the bytes of an HTTP connection, on standard input
out: the connection's replies, on standard output: bids, counted notices, books and ledger",
        "  0  the connection was read to its end
  3  the first line isn't a price line, or is too long
  4  standard input can't be read
  5  standard output can't be written
  12  out of memory
",
        "printf '{\"seat\":\"s1\",\"prices\":[{\"cid\":\"c1\",\"price\":2.5}]}\\nGET /books HTTP/1.1\\r\\nHost: x\\r\\n\\r\\n' | ./adx bidder",
    ),
    // gen
    (
        "in:  nothing; N is a number below 2^64, M is at most 1000000, both decimal and without a leading zero
out: the closing table of a generated day, of M asks by the words of the seed N, on standard output",
        "  0  the table was written
  5  standard output can't be written
  12  out of memory
",
        "./adx gen --seed 7 --asks 250",
    ),
    // close
    (
        "in:  a roster line, on standard input; everything after it is read and ignored
out: the record of the day in FILE, and after it the certificate whose bound no assignment of the day's impressions passes, on
standard output; FILE keeps the same history; a FILE that doesn't exist isn't made
--ratio: in place of that one line with the numbers of the day's revenue guarantee",
        "  0  done
  3  the first line isn't a roster, or the input is too long
  4  standard input can't be read
  5  standard output can't be written
  6  the journal can't be read or written, or another process has it open
  7  the journal isn't one of this roster's day
  12  out of memory
",
        "./adx day --journal a.journal < examples/notices.day; ./adx close --journal a.journal < examples/notices.day",
    ),
    // check
    (
        "in:  the record of a closed day, and its certificate after it, on standard input; at most 2^31 bytes
out: one line on standard output: the bound that the day's impressions couldn't have earned more than, where the certificate
is accepted; or the first rule that it breaks; or the first line that isn't of its form",
        "  0  the certificate is accepted
  3  the input isn't a record with a certificate after it, or is too long
  4  standard input can't be read
  5  standard output can't be written
  8  the certificate isn't accepted
  12  out of memory
",
        "./adx check < examples/closed.document",
    ),
    // archive-put
    (
        "in:  the record of a closed day, and its certificate after it, on standard input; at most 2^31 bytes
out: one line on standard output: that the day is kept, or why not; where the certificate isn't accepted, or the input isn't
of its form, the line of the command check, and nothing is kept
--archive FILE: a database of SQLite that keeps the day's rows, one for each campaign; FILE is made if it doesn't exist, and is
this process's own until it ends",
        "  0  the day is kept
  3  the input isn't a record with a certificate after it, or is too long
  4  standard input can't be read
  5  standard output can't be written
  8  the certificate isn't accepted
  9  the archive can't be read or written, or another process has it open
  10  the day is kept already or isn't a date
  12  out of memory
",
        "./adx archive-put --archive a.db < examples/closed.document",
    ),
    // archive-list
    (
        "in:  nothing
out: a line for each kept day of the campaign C of the seat S, from the first DAY to the last, both included, in order of day,
on standard output: its budget, its committed and billed money, the day's bound and its number of impressions
--archive FILE: a database of SQLite in which days are kept; FILE is made if it doesn't exist",
        "  0  the days were listed
  5  standard output can't be written
  9  the archive can't be read or written, or another process has it open
  10  a DAY isn't a date, or the first is after the last
  12  out of memory
",
        "./adx archive-list --archive a.db --seat s1 --cid c1 --from 2025-01-01 --to 2025-12-31",
    ),
    // reconcile
    (
        "in:  the roster of the journal's day, one line, and after it the lines of the ledger of a bidder, as the command bidder answers
them at /ledger, on standard input; at most 2^36 bytes
out: a line on standard output for each auction and price of which the journal and the ledger have different numbers of bills,
and after these the two sums
--journal FILE: the journal of the day; FILE has to exist, and nothing is added to its history
--bidder NAME: the bidder's name in the roster",
        "  0  the bills were compared
  3  the first line isn't a roster, the roster has no such bidder, or a later line isn't a ledger's, or the input is too long
  4  standard input can't be read
  5  standard output can't be written
  6  the journal can't be read, or another process has it open
  7  the journal isn't one of this roster's day
  12  out of memory
",
        "./adx day --journal r.journal < examples/first.day; head -n 1 examples/first.day | ./adx reconcile --journal r.journal --bidder b1",
    ),
    // serve
    (
        "in:  the roster of the day, the first line of its FILE; everything after the line is ignored
out: nothing on standard output; connections to the port P of this machine's own address 127.0.0.1 are served, W at the same
time: requests for bids, which go on to the roster's bidders, notices, budgets, books and meters. After each connection the
notices that the day owes its bidders, and that weren't taken yet, are sent once
--journal FILE: the day goes on from the history in FILE, and FILE keeps what is added before it is answered; FILE is made if it
doesn't exist, and is this process's own until it ends
--port P: a number of at most 65535; 0 takes a free port, which standard error names
--workers W: a number of 1 to 64

It ends by a signal; all that it answered is in FILE.",
        "  3  the first line isn't a roster
  4  the roster's file or the port can't be had, or no connection can be taken
  6  the journal can't be read or written, or another process has it open
  7  the journal isn't one of this roster's day
  11  a host wasn't reached, or answered by another status than 200 to 299
  12  out of memory
",
        "./adx serve --roster examples/exchange.roster --journal a.journal --port 28080 --workers 4",
    ),
    // post
    (
        "in:  the roster of the journal's day, the first line of its FILE; everything after the line is ignored
out: nothing on standard output; each notice that the day owes its bidders is sent once to the host of its URL, in order, over
a connection of its own, and nothing is kept of it: a second run sends them all again
--journal FILE: the journal of the day; FILE has to exist, and nothing is added to its history",
        "  0  each notice that can be sent was answered by 200 to 299
  3  the first line isn't a roster
  4  the roster's file can't be read
  6  the journal can't be read or written, or another process has it open
  7  the journal isn't one of this roster's day
  11  a host wasn't reached, or answered by another status
  12  out of memory
",
        "./adx post --roster a.roster --journal a.journal",
    ),
    // bid
    (
        "in:  a price line, the first line of FILE; everything after the line is ignored
out: nothing on standard output; connections to the port P of this machine's own address 127.0.0.1 are served one after
another, on one ledger: bids, counted notices, books and ledger
--port P: a number of at most 65535; 0 takes a free port, which standard error names

It ends by a signal, and its ledger with it: ask for /ledger before.",
        "  3  the first line isn't a price line
  4  the file or the port can't be had, or no connection can be taken
  12  out of memory
",
        "./adx bid --prices examples/bidder.prices --port 28081",
    ),
];

/// The rows of the table.
pub(crate) fn rows<'a>() -> &'a [Row]
    ensures { map row_in result.now ≡ commands }
{
    &COMMANDS
}

/// The helps of the table.
pub(crate) fn helps<'a>() -> &'a [Help]
    ensures { map help_in result.now ≡ help_rows }
{
    &HELPS
}
