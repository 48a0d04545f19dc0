//! The top call, from the words of a command to its exit status.
ghost use Rattle.std.specs.Prelude.{◌≡◌, ◌≢◌, ◌⊎◌, ◌≤◌, ℕ, List, Some};
ghost use Rattle.adx_io.specs.Streams.{Rises};
ghost use Rattle.command_archive.specs.Keeps.{KeepsAs};
ghost use Rattle.command_archive.specs.Lists.{ListsAs};
ghost use Rattle.command_archive.specs.declared.list.Query.{Query as Asked};
ghost use Rattle.command_check.specs.Checks.{HasOneAnswer};
ghost use Rattle.command_check.specs.Runs.{AcceptsInput, ChecksInput};
ghost use Rattle.command_close.specs.ClosedDays.{HasOneDocument, IsClosedDay};
ghost use Rattle.command_close.specs.Guarantees.{HasOneGuarantee, IsGuarantee};
ghost use Rattle.command_bidder.specs.Bidders.{bidder_command};
ghost use Rattle.adx_commands.specs.Exchanges.{LeavesDay as LeavesExchange, conn_command};
ghost use Rattle.adx_commands.specs.ConnLaws.{HasOneOutput as HasOneExchange};
ghost use Rattle.command_day.specs.Days.{HasOneOutput, HasOutputs, HasPrefixes, day_command};
ghost use Rattle.command_notices.specs.PostLines.{AreNotices};
ghost use Rattle.command_reconcile.specs.Reconciling.{LeavesDisk as LeavesLedgerDay};
ghost use Rattle.command_reconcile.specs.Runs.{reconcile_command};
ghost use Rattle.command_runs.specs.Runs.{RunsAs};
ghost use Rattle.history_runs.specs.Histories.{LeavesDay};
ghost use Rattle.history_runs.specs.Runs.{history_command};
ghost use Rattle.command_words.specs.Helps.{help_text, version_text};
ghost use Rattle.command_words.specs.Meanings.{HasFewAsks, IsPlain};
ghost use Rattle.command_words.specs.declared.command.Command.{Command as Meaning};
ghost use Rattle.command_words.specs.declared.command.Topic.{Topic as HelpTopic};
ghost use Rattle.adx_commands.specs.Statuses.{HasCauses, HasDiskCauses};
ghost use Rattle.adx_commands.specs.Words.{DoesWords};
ghost use Rattle.adx_commands.specs.Commands.{AsksNothing, Does, DoesAsRead, IsArchive, IsArchiveList, IsArchivePut, IsBidder, IsCheck, IsClose, IsCommand, IsConnection, IsDay, IsGenerated, IsHelp, IsNotices, IsRatio, IsReconcile, IsVersion, EndsExchange, KeepsDay, KeepsRoster, LeavesDisk, LeavesKeeper, EndsBidder, EndsDay, Runs, RunsGenerated, Tells};

use crate::connection::run_conn;
use crate::status::{DONE, NO_COMMAND, OUT_OF_MEMORY, WRITE_FAULT, status_of_outcome};
use adx_io::{Sink, Source, put_all};
use adx_units::Text;
use command_archive::{Query, keep_day, list_days_of};
use command_bidder::run_bidder;
use command_check::check_input;
use command_close::{close_journal, measure_journal};
use command_day::run_day;
use command_gen::{Generator, run_generated};
use command_notices::print_notices;
use command_reconcile::reconcile_ledger;
use command_words::{Command, Topic, VERSION, command_of, help_of};
use day_archive::Keeper;
use day_journal::Disk;
use std::alloc::Global;

/// What is written to the sink where the words aren't a command.
const USAGE: &str = "usage: adx COMMAND\n";

/// Writes a text, and gives the exit status, which is this one where the sink takes the text.
fn tell<K: Sink>(sink: &mut K, text: &str, done: u8) -> u8
    requires { (done ≡ 0) ⊎ (done ≡ 2) }
    ensures tells { Tells text.now done (K.held sink.old) (K.held sink.new) result }
    ensures fault { result ≡ 5 → Rises (K.faults sink.old) (K.faults sink.new) }
    ensures passed { result ≢ 5 → K.faults sink.new ≡ K.faults sink.old }
    ensures later { K.faults sink.old ≤ K.faults sink.new }
    ensures other { (result ≢ 4) × (result ≢ 6) }
    ensures same { K.place sink.new ≡ K.place sink.old }
{
    match put_all(sink, text.as_bytes()) {
        Ok(()) => done,
        Err(_) => WRITE_FAULT,
    }
}

/// Writes the help on a topic, and gives the exit status.
fn show_help<K: Sink>(alloc: Global, topic: Topic, sink: &mut K) -> u8
    ensures tells { Tells (help_text topic) 0 (K.held sink.old) (K.held sink.new) result }
    ensures fault { result ≡ 5 → Rises (K.faults sink.old) (K.faults sink.new) }
    ensures passed { result ≢ 5 → K.faults sink.new ≡ K.faults sink.old }
    ensures later { K.faults sink.old ≤ K.faults sink.new }
    ensures other { (result ≢ 4) × (result ≢ 6) }
    ensures same { K.place sink.new ≡ K.place sink.old }
{
    match help_of(alloc, topic) {
        Ok(text) => tell(sink, text.as_str(), DONE),
        Err(_) => OUT_OF_MEMORY,
    }
}

/// Runs what was read of the words.
fn run<S: Source, K: Sink, D: Disk, P: Keeper>(
    alloc: Global,
    read: Option<Command>,
    source: &mut S,
    sink: &mut K,
    disk: &mut D,
    keeper: &mut P,
) -> u8
    requires { HasFewAsks read }
    ensures does { Does S.Source K.Sink D.Disk P.Keeper (record {
      source = source.old;
      source_now = source.new;
      sink = sink.old;
      sink_now = sink.new;
      disk = disk.old;
      disk_now = disk.new;
      keeper = keeper.old;
      keeper_now = keeper.new;
    }) result read }
    ensures causes { HasCauses (S.faults source.old) (S.faults source.new) (K.faults sink.old) (K.faults sink.new) result }
    ensures disk_causes { HasDiskCauses (D.faults disk.old) (D.faults disk.new) result }
    ensures source_same { S.place source.new ≡ S.place source.old }
    ensures sink_same { K.place sink.new ≡ K.place sink.old }
    ensures disk_lasts { D.lasts disk.old disk.new }
{
    match read {
        Some(Command::Day { .. }) => {
            let ended = run_day(alloc, source, sink, disk);
            status_of_outcome(ended)
        }
        Some(Command::Connection { .. }) => {
            let ended = run_conn(alloc, source, sink, disk);
            status_of_outcome(ended)
        }
        Some(Command::Notices { .. }) => {
            let ended = print_notices(alloc, source, sink, disk);
            status_of_outcome(ended)
        }
        Some(Command::Bidder) => {
            let ended = run_bidder(alloc, source, sink);
            status_of_outcome(ended)
        }
        Some(Command::Close { ratio: false, .. }) => {
            let ended = close_journal(alloc, source, sink, disk);
            status_of_outcome(ended)
        }
        Some(Command::Close { ratio: true, .. }) => {
            let ended = measure_journal(alloc, source, sink, disk);
            status_of_outcome(ended)
        }
        Some(Command::Generate { seed, asks }) => {
            let ended = run_generated(alloc, Generator { seed, asks }, sink, disk);
            status_of_outcome(ended)
        }
        Some(Command::Check) => check_input(alloc, source, sink),
        Some(Command::ArchivePut { .. }) => keep_day(alloc, keeper, source, sink),
        Some(
            Command::ArchiveList {
                seat,
                cid,
                first,
                last,
                ..
            },
        ) => {
            let query = Query {
                seat,
                cid,
                first,
                last,
            };
            list_days_of(alloc, keeper, &query, sink)
        }
        Some(Command::Reconcile { bidder, .. }) => {
            let ended = reconcile_ledger(alloc, bidder.as_str(), source, sink, disk);
            status_of_outcome(ended)
        }
        Some(Command::Help(topic)) => show_help(alloc, topic, sink),
        Some(Command::Version) => tell(sink, VERSION, DONE),
        None => tell(sink, USAGE, NO_COMMAND),
    }
}

/// Runs what the words are read as.
fn run_words<S: Source, K: Sink, D: Disk, P: Keeper>(
    alloc: Global,
    words: &[Text],
    source: &mut S,
    sink: &mut K,
    disk: &mut D,
    keeper: &mut P,
) -> u8
    ensures does { DoesAsRead S.Source K.Sink D.Disk P.Keeper (record {
      source = source.old;
      source_now = source.new;
      sink = sink.old;
      sink_now = sink.new;
      disk = disk.old;
      disk_now = disk.new;
      keeper = keeper.old;
      keeper_now = keeper.new;
    }) result words.now }
    ensures causes { HasCauses (S.faults source.old) (S.faults source.new) (K.faults sink.old) (K.faults sink.new) result }
    ensures disk_causes { HasDiskCauses (D.faults disk.old) (D.faults disk.new) result }
    ensures source_same { S.place source.new ≡ S.place source.old }
    ensures sink_same { K.place sink.new ≡ K.place sink.old }
    ensures disk_lasts { D.lasts disk.old disk.new }
{
    match command_of(alloc, words) {
        Ok(read) => run(alloc, read, source, sink, disk, keeper),
        Err(_) => OUT_OF_MEMORY,
    }
}

/// Runs the command that the words name, which are those after the program's name, from the source to
/// the sink on a disk, and gives the exit status.
///
/// The command `day` reads a roster line, opens the roster's day on the disk with the history that is there, and then reads
/// the lines of a script. It answers each line of the script with a line, and ends with a table of the campaigns' books. A
/// call's entry is in the journal before its answer is written, and its answer is put into the sink before more is asked of
/// the source. A call that a fault of the disk stops, or that the journal has no room for, is answered so, and the run goes on.
///
/// The command `conn` reads a roster line, opens the roster's day on the disk, and serves the HTTP connection that comes
/// after the line: requests for bids, which bidders answer that give the roster's `replies` one after the other, notices,
/// and the books. An entry is in the journal before its reply is put. A call that a fault of the disk stops is replied
/// so, and the connection goes on.
///
/// The command `notices` reads a roster line and ignores what comes after it. It opens the roster's day on the disk, and
/// writes a line for each post that the day's history owes its bidders: its kind, a space and its URL. Nothing is added to
/// the history. After 2^36 bytes of input it writes the line of a roster that is too long.
///
/// The command `bidder` reads a price line, and serves the HTTP connection that comes after it: it answers requests for
/// bids, counts the notices that it gets, and shows its books and its ledger. The disk isn't touched.
///
/// The command `close` reads a roster line and ignores what comes after it. It opens the roster's day on the disk, and writes
/// the document of the day's history: its record, and the certificate whose bound no assignment of the day's impressions
/// passes, and which a checker accepts. With `--ratio` it writes one line instead, the numbers of the day's revenue
/// guarantee, which holds where the day is small. Nothing is added to the history. Past 2^36 bytes of input it writes the line
/// of a roster that is too long.
///
/// The command `gen` reads nothing. It takes the calls of a generated day on the disk, of so many asks by the words of a
/// seed, and writes the closing table. It ends at once where the disk fails, with status 6, and then the sink takes nothing.
///
/// The command `check` reads a document of at most 2^31 bytes, the record of a closed day and its certificate after it, and
/// writes one line: the bound that no assignment of the record's impressions earns more than, where the certificate is
/// accepted; or the first rule that fails; or why the input is no document. The disk isn't touched.
///
/// The command `archive-put` reads a document as `check` does, and keeps the day's rows in the keeper where the certificate is
/// accepted; it writes one line. The command `archive-list` reads nothing, and writes the kept days of a campaign, in order of
/// day. Either upgrades the keeper before it asks anything else of it, `archive-put` only after an accepted certificate. All
/// other commands leave the keeper as it is.
///
/// The command `reconcile` reads a roster line and then the lines of a bidder's ledger, as `bidder` answers them at `/ledger`.
/// It opens the roster's day on the disk, and writes a line for each auction and price of which the day's bills that the
/// bidder's campaigns owe and the ledger's bills have different numbers, and the two sums. Nothing is added to the history.
///
/// The words `--help`, alone or after a command's word, `help`, alone or before it, and `--version` ask for a text, which
/// the sink takes.
///
/// Words in plain spelling are taken: the command's word comes first, and after it each of its options once, as two words,
/// in any order, its value not beginning with `-`. Other spellings do what `clap` reads of them.
///
/// The status is 0 where the command came to its end, and the disk met no fault: `day`, `notices`, `close`, `conn` and
/// `bidder` read the source to its end, the latter two to that of the connection, and `check` accepted the certificate; 2
/// where the words aren't a command, and then the sink takes a usage line; 3 where the first line isn't a roster, for
/// `bidder` a price line, or where the input of `day`, `notices` or `close` passes 2^36 bytes, of which one more is taken,
/// or where that of `check` is no document or passes 2^31 bytes; 4 where the source failed, and then the sink took the
/// answers to all whole lines, or the replies to all whole messages, that the source gave, where it gave the first line; 5
/// where the sink failed, and 12 out of memory, and then the sink took a prefix of the output, for `day` the answers to
/// all lines that were taken up but at most one, and for `conn` all replies but those to at most the last 32 messages;
/// 6 where the disk failed while the day was opened or, for `gen`, at any time, and then the sink took nothing, or
/// where the source was read to its end and the disk met a fault in a call that was given up by it, or, for `conn`, in
/// the record of notices that waited, which were then taken one by one; 7 where the disk's file isn't a journal of the
/// roster's day, and then the sink took a line that says why; 8 where `check` or `archive-put` doesn't accept the
/// certificate; 9 where the keeper failed, and then the sink took nothing; 10 where the day is kept already, or a day
/// isn't a date, or the first is after the last, and then the sink took a line that says which. The count of faults of
/// the source rises exactly at 4 and that of the sink exactly at 5, except where a count is at its last value; that of
/// the disk rises in just the calls that are answered so, and for `conn` in such records. Each input has one output for
/// each history at the start and each choice of calls that are given up.
pub fn adx<S: Source, K: Sink, D: Disk, P: Keeper>(
    alloc: Global,
    words: &[Text],
    source: &mut S,
    sink: &mut K,
    disk: &mut D,
    keeper: &mut P,
) -> u8
    ensures day_output { IsDay words.now →
        RunsAs S.Source K.Sink EndsDay day_command source.old source.new sink.old sink.new tt tt result }
    ensures day_kept { IsDay words.now →
        RunsAs S.Source K.Sink (KeepsDay D.Disk) day_command source.old source.new sink.old sink.new disk.old disk.new result }
    ensures connection_output { IsConnection words.now →
        RunsAs S.Source K.Sink (KeepsRoster EndsExchange) conn_command source.old source.new sink.old sink.new tt tt result }
    ensures connection_kept { IsConnection words.now →
        RunsAs S.Source K.Sink (KeepsRoster (LeavesExchange D.Disk)) conn_command source.old source.new sink.old sink.new disk.old disk.new result }
    ensures bidder { IsBidder words.now →
        RunsAs S.Source K.Sink EndsBidder bidder_command source.old source.new sink.old sink.new tt tt result }
    ensures generated { (seed asks : ℕ) → IsGenerated words.now seed asks →
        RunsGenerated D.Disk seed asks (K.held sink.old) (K.held sink.new) disk.old disk.new result }
    ensures notices { IsNotices words.now →
        RunsAs S.Source K.Sink (KeepsRoster (LeavesDay D.Disk)) (history_command AreNotices)
        source.old source.new sink.old sink.new disk.old disk.new result }
    ensures close { IsClose words.now →
        RunsAs S.Source K.Sink (KeepsRoster (LeavesDay D.Disk)) (history_command IsClosedDay)
        source.old source.new sink.old sink.new disk.old disk.new result }
    ensures ratio { IsRatio words.now →
        RunsAs S.Source K.Sink (KeepsRoster (LeavesDay D.Disk)) (history_command IsGuarantee)
        source.old source.new sink.old sink.new disk.old disk.new result }
    ensures check { IsCheck words.now →
        ChecksInput (S.tape source.old) (S.tape source.new) (K.held sink.old) (K.held sink.new) result }
    ensures accepted { IsCheck words.now → result ≡ 0 →
        AcceptsInput (S.tape source.old) (S.tape source.new) (K.held sink.old) (K.held sink.new) }
    ensures archive_put { IsArchivePut words.now →
        KeepsAs S.Source K.Sink P.Keeper source.old source.new sink.old sink.new keeper.old keeper.new result }
    ensures archive_list { (q : Asked) → IsArchiveList words.now q →
        ListsAs P.Keeper q keeper.old keeper.new (K.held sink.old) (K.held sink.new) result }
    ensures reconcile { (name : List ℕ) → IsReconcile words.now name →
        RunsAs S.Source K.Sink (KeepsRoster (LeavesLedgerDay D.Disk)) (reconcile_command name)
        source.old source.new sink.old sink.new disk.old disk.new result }
    ensures words { DoesWords S.Source K.Sink D.Disk P.Keeper (record {
      source = source.old;
      source_now = source.new;
      sink = sink.old;
      sink_now = sink.new;
      disk = disk.old;
      disk_now = disk.new;
      keeper = keeper.old;
      keeper_now = keeper.new;
    }) result words.now }
    ensures read_fault { result ≡ 4 → Rises (S.faults source.old) (S.faults source.new) }
    ensures read_passed { result ≢ 4 → S.faults source.new ≡ S.faults source.old }
    ensures write_fault { result ≡ 5 → Rises (K.faults sink.old) (K.faults sink.new) }
    ensures write_passed { result ≢ 5 → K.faults sink.new ≡ K.faults sink.old }
    ensures disk_fault { result ≡ 6 → Rises (D.faults disk.old) (D.faults disk.new) }
    ensures disk_passed { (result ≡ 0) ⊎ (result ≡ 7) → D.faults disk.new ≡ D.faults disk.old }
    ensures keeper_fault { IsArchive words.now → result ≡ 9 → Rises (P.faults keeper.old) (P.faults keeper.new) }
    ensures keeper_passed { IsArchive words.now → result ≢ 9 → result ≢ 5 →
        P.faults keeper.new ≡ P.faults keeper.old }
    ensures source_later { S.faults source.old ≤ S.faults source.new }
    ensures sink_later { K.faults sink.old ≤ K.faults sink.new }
    ensures disk_later { D.faults disk.old ≤ D.faults disk.new }
    ensures outputs { HasOutputs }
    ensures one_output { HasOneOutput }
    ensures prefixes { HasPrefixes }
    ensures one_exchange { HasOneExchange }
    ensures one_document { HasOneDocument }
    ensures one_answer { HasOneAnswer }
    ensures one_guarantee { HasOneGuarantee }
    ensures source_same { S.place source.new ≡ S.place source.old }
    ensures sink_same { K.place sink.new ≡ K.place sink.old }
    ensures disk_lasts { D.lasts disk.old disk.new }
{
    run_words(alloc, words, source, sink, disk, keeper)
}
