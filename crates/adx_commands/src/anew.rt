//! The top call without a journal: the day begins with no history, and is kept in memory alone.
ghost use Rattle.std.specs.Prelude.{◌≡◌, ◌≢◌, ◌≤◌, ℕ};
ghost use Rattle.adx_io.specs.Streams.{Rises};
ghost use Rattle.command_archive.specs.Keeps.{KeepsAs};
ghost use Rattle.command_archive.specs.Lists.{ListsAs};
ghost use Rattle.command_archive.specs.declared.list.Query.{Query as Asked};
ghost use Rattle.command_bidder.specs.Bidders.{bidder_command};
ghost use Rattle.command_check.specs.Runs.{AcceptsInput, ChecksInput};
ghost use Rattle.adx_commands.specs.Exchanges.{LeavesDay as LeavesExchange, conn_command};
ghost use Rattle.command_day.specs.Days.{day_command};
ghost use Rattle.command_runs.specs.Runs.{RunsAs};
ghost use Rattle.adx_commands.specs.Anew.{NothingStandsForNothing, RunsAnew, RunsGeneratedAnew, TookGenerated, byte_disk};
ghost use Rattle.adx_commands.specs.Words.{DoesWordsAnew};
ghost use Rattle.adx_commands.specs.Commands.{EndsBidder, EndsDay, EndsExchange, IsArchive, IsArchiveList, IsArchivePut, IsBidder, IsCheck, IsConnection, IsDay, IsGenerated, KeepsDay, KeepsRoster};

use crate::command::adx;
use adx_io::{Sink, Source};
use adx_units::Text;
use day_archive::Keeper;
use day_journal::WriteOnlyDisk;
use std::alloc::Global;

/// Runs the command that the words name as `adx` does, on a new disk in memory, and gives the exit status. A day begins with
/// no history; the table of a generated day that is done is that of the run over its calls, from no history. The status is 6
/// only where the disk fails, as it does where memory is refused to it.
pub fn adx_in_memory<S: Source, K: Sink, P: Keeper>(
    alloc: Global,
    words: &[Text],
    source: &mut S,
    sink: &mut K,
    keeper: &mut P,
) -> u8
    ensures day_output { IsDay words.now →
        RunsAs S.Source K.Sink EndsDay day_command source.old source.new sink.old sink.new tt tt result }
    ensures day_kept { IsDay words.now →
        RunsAnew S.Source K.Sink (KeepsDay byte_disk) day_command source.old source.new sink.old sink.new result }
    ensures connection_output { IsConnection words.now →
        RunsAs S.Source K.Sink (KeepsRoster EndsExchange) conn_command source.old source.new sink.old sink.new tt tt result }
    ensures connection_kept { IsConnection words.now →
        RunsAnew S.Source K.Sink (KeepsRoster (LeavesExchange byte_disk)) conn_command source.old source.new sink.old sink.new result }
    ensures bidder { IsBidder words.now →
        RunsAs S.Source K.Sink EndsBidder bidder_command source.old source.new sink.old sink.new tt tt result }
    ensures generated { (seed asks : ℕ) → IsGenerated words.now seed asks →
        RunsGeneratedAnew seed asks (K.held sink.old) (K.held sink.new) result }
    ensures generated_table { (seed asks : ℕ) → IsGenerated words.now seed asks → result ≡ 0 →
        TookGenerated seed asks (K.held sink.old) (K.held sink.new) }
    ensures check { IsCheck words.now →
        ChecksInput (S.tape source.old) (S.tape source.new) (K.held sink.old) (K.held sink.new) result }
    ensures accepted { IsCheck words.now → result ≡ 0 →
        AcceptsInput (S.tape source.old) (S.tape source.new) (K.held sink.old) (K.held sink.new) }
    ensures archive_put { IsArchivePut words.now →
        KeepsAs S.Source K.Sink P.Keeper source.old source.new sink.old sink.new keeper.old keeper.new result }
    ensures archive_list { (q : Asked) → IsArchiveList words.now q →
        ListsAs P.Keeper q keeper.old keeper.new (K.held sink.old) (K.held sink.new) result }
    ensures empty { NothingStandsForNothing }
    ensures words { DoesWordsAnew S.Source K.Sink P.Keeper source.old source.new sink.old sink.new keeper.old keeper.new result words.now }
    ensures read_fault { result ≡ 4 → Rises (S.faults source.old) (S.faults source.new) }
    ensures read_passed { result ≢ 4 → S.faults source.new ≡ S.faults source.old }
    ensures write_fault { result ≡ 5 → Rises (K.faults sink.old) (K.faults sink.new) }
    ensures write_passed { result ≢ 5 → K.faults sink.new ≡ K.faults sink.old }
    ensures keeper_fault { IsArchive words.now → result ≡ 9 → Rises (P.faults keeper.old) (P.faults keeper.new) }
    ensures keeper_passed { IsArchive words.now → result ≢ 9 → result ≢ 5 →
        P.faults keeper.new ≡ P.faults keeper.old }
    ensures source_later { S.faults source.old ≤ S.faults source.new }
    ensures sink_later { K.faults sink.old ≤ K.faults sink.new }
    ensures source_same { S.place source.new ≡ S.place source.old }
    ensures sink_same { K.place sink.new ≡ K.place sink.old }
{
    let mut disk = WriteOnlyDisk::new(alloc);
    adx(alloc, words, source, sink, &mut disk, keeper)
}
