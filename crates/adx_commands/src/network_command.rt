//! The top call, from the words of a command to its exit status.
ghost use Rattle.std.specs.Prelude.{◌≡◌, ◌≢◌, ◌⊎◌, ◌<◌, ℕ, length, IfSome, IsSome, Some};
ghost use Rattle.adx_links.specs.Told.{told_by};
ghost use Rattle.adx_desk.specs.Endings.{IsWithinRise};
ghost use Rattle.adx_io.specs.Streams.{Rises};
ghost use Rattle.command_bidder.specs.Bidding.{IsUnused};
ghost use Rattle.command_words.specs.Network.{HasFewWorkers};
ghost use Rattle.exchange_messages.specs.Floors.{IsMomentOf};
ghost use Rattle.adx_commands.specs.Causes.{HasCausesAs};
ghost use Rattle.adx_commands.specs.NetworkCommands.{IsBid, IsNetworkCommand, IsNoServe, IsPost, IsServe, Runs, RunsAsRead, RunsBid, RunsPost};
ghost use Rattle.adx_commands.specs.Documents.{HasNoPrices, HasNoRoster};
ghost use Rattle.adx_commands.specs.Lanes.{links_in};
ghost use Rattle.adx_commands.specs.Served.{ComesExactly, IsGivenBack, KeepsObjects};
ghost use Rattle.adx_commands.specs.Serving.{FitsServing, RunsServing};

use crate::objects::{Objects, give_back};
use crate::runs::{run_bid, run_post};
use crate::served::Served;
use crate::serving::run_serve;
use adx_links::{Acceptor, Link};
use adx_units::Text;
use command_words::{NetworkCommand, network_command_of};
use day_journal::Disk;
use exchange_messages::Clock;
use std::alloc::Global;
use std::marker::{Send, Sync};
use std::sync::Wait;
use std::thread::Threads;

/// The status where the words aren't a command that talks over the network.
const NO_COMMAND: u8 = 2;

/// The status where notices are pending.
pub const PENDING: u8 = 11;

/// The status where memory was refused.
const OUT_OF_MEMORY: u8 = 12;

/// Runs a command over the objects that it is given.
fn run_command<
    R: Threads + Wait + Sync,
    A: Acceptor + Drop + Send,
    D: Disk + Drop + Send,
    L: Link + Drop + Send,
    C: Clock + Sync,
>(
    rt: &R,
    alloc: Global,
    command: NetworkCommand,
    document: &[u8],
    objects: Objects<A, D, L>,
    clock: &C,
) -> Served<A, D, L>
    requires few { HasFewWorkers (Some command) }
    requires unused { IsUnused (told_by A.Acceptor A.In.Source A.Out.Sink objects.acceptor) }
    ensures runs { Runs A.Acceptor A.In.Source A.Out.Sink D.Disk L.Link (IsMomentOf (C.moment clock.entry.now)) document.now objects result (Some command) }
    ensures causes { HasCausesAs A.Acceptor D.Disk objects result (Some command) }
{
    match command {
        NetworkCommand::Serve { workers, .. } => {
            run_serve(rt, alloc, workers, document, objects, clock)
        }
        NetworkCommand::Post { .. } => run_post(alloc, document, objects),
        NetworkCommand::Bid { .. } => run_bid(rt, alloc, document, objects),
    }
}

/// Runs what was read of the words.
fn run<
    R: Threads + Wait + Sync,
    A: Acceptor + Drop + Send,
    D: Disk + Drop + Send,
    L: Link + Drop + Send,
    C: Clock + Sync,
>(
    rt: &R,
    alloc: Global,
    read: Option<NetworkCommand>,
    document: &[u8],
    objects: Objects<A, D, L>,
    clock: &C,
) -> Served<A, D, L>
    requires few { HasFewWorkers read }
    requires unused { IsUnused (told_by A.Acceptor A.In.Source A.Out.Sink objects.acceptor) }
    ensures runs { Runs A.Acceptor A.In.Source A.Out.Sink D.Disk L.Link (IsMomentOf (C.moment clock.entry.now)) document.now objects result read }
    ensures causes { HasCausesAs A.Acceptor D.Disk objects result read }
{
    match read {
        Some(command) => run_command(rt, alloc, command, document, objects, clock),
        None => give_back(objects, NO_COMMAND, None),
    }
}

/// Runs the command that the words name, which are those after the program's name, over an acceptor, a disk, links and a
/// document, and gives these objects back with the exit status.
///
/// The command `serve` takes the document's first line as a roster, opens the roster's day on the disk, and serves the
/// acceptor's connections on it, until no more come or the acceptor fails: as many at the same time as there are lists of
/// links, each over a list of its own, which has a link for each of the roster's bidders. After each connection, and once
/// after the last, each notice that the day owes and that wasn't taken yet is tried once over the post link.
///
/// The command `post` takes the document's first line as a roster, opens the roster's day on the disk, and tries each notice
/// that the day's history owes its bidders once over the post link, in the order of the entries that ask for them. Nothing
/// is added to the history.
///
/// The command `bid` takes the document's first line as a price line, and serves the acceptor's connections one after
/// another on one ledger, until no more come or the acceptor fails. The disk isn't touched.
///
/// What comes after the document's first line isn't looked at. `post` and `bid` have no use for lists of links.
///
/// Words in plain spelling are taken: the command's word comes first, and after it each of its options once, as two words,
/// in any order, its value not beginning with `-`. Other spellings do what `clap` reads of them. The options name what the
/// objects are made of; the call looks at the command alone.
///
/// The status is 0 where no more connections come and no notice is pending, as far as the command has to do with them; 2
/// where the words aren't a command that talks over the network; 3 where the document's first line isn't of its form, or the
/// lists of links don't fit the number of workers or the roster's bidders, or links were given to `post` or `bid`; 4 where
/// the acceptor failed; 6 where the disk failed, while the day was opened or in a call of a connection; 7 where the disk's
/// file isn't a journal of the roster's day; 11 where notices are pending, of which the last try met a fault of the link or
/// an answer outside 200 to 299; 12 where memory was refused, also within a connection: of a `serve` that ends so the
/// post link alone need be given back. Of several that hold after the last connection 12 is answered, and else the least. At 2 and 3 all
/// objects are as they were.
///
/// It waits for connections, and need not return.
pub fn adx_serve<
    R: Threads + Wait + Sync,
    A: Acceptor + Drop + Send,
    D: Disk + Drop + Send,
    L: Link + Drop + Send,
    C: Clock + Sync,
>(
    rt: &R,
    alloc: Global,
    words: &[Text],
    document: &[u8],
    acceptor: A,
    disk: D,
    links: Vec<Vec<L>>,
    post: L,
    clock: &C,
) -> Served<A, D, L>
    requires unused { IsUnused (told_by A.Acceptor A.In.Source A.Out.Sink acceptor) }
    ensures serve { (workers : ℕ) → IsServe words.now workers →
        RunsServing A.Acceptor A.In.Source A.Out.Sink D.Disk L.Link (IsMomentOf (C.moment clock.entry.now))
        (record { acceptor = acceptor; disk = disk; links = links; post = post }) result document.now workers }
    ensures post { IsPost words.now →
        RunsPost L.Link D.Disk document.now (record { acceptor = acceptor; disk = disk; links = links; post = post }) result }
    ensures bid { IsBid words.now →
        RunsBid A.Acceptor A.In.Source A.Out.Sink document.now (record { acceptor = acceptor; disk = disk; links = links; post = post }) result }
    ensures usage { result.status ≡ 2 → IsNetworkCommand words.now → ⊥ }
    ensures other { RunsAsRead A.Acceptor A.In.Source A.Out.Sink D.Disk L.Link (IsMomentOf (C.moment clock.entry.now)) document.now
        (record { acceptor = acceptor; disk = disk; links = links; post = post }) result words.now }
    ensures serve_refused { (workers : ℕ) → IsServe words.now workers →
        ComesExactly result.status 3 (FitsServing document.now workers (links_in links.items) → ⊥) }
    ensures post_refused { IsPost words.now →
        ComesExactly result.status 3 ((0 < length links.items) ⊎ HasNoRoster document.now) }
    ensures bid_refused { IsBid words.now →
        ComesExactly result.status 3 ((0 < length links.items) ⊎ HasNoPrices document.now) }
    ensures acceptor_fault { result.status ≡ 4 → IfSome result.acceptor (λ now. Rises (A.faults acceptor) (A.faults now)) }
    ensures acceptor_passed { result.status ≢ 4 → result.status ≢ 12 →
        IfSome result.acceptor (λ now. A.faults now ≡ A.faults acceptor) }
    ensures disk_fault { result.status ≡ 6 → IfSome result.disk (λ now. IsWithinRise (D.faults disk) 1 (D.faults now)) }
    ensures disk_passed { result.status ≢ 4 → result.status ≢ 6 → result.status ≢ 12 →
        IfSome result.disk (λ now. D.faults now ≡ D.faults disk) }
    ensures kept { IsNoServe words.now →
        KeepsObjects D.Disk (record { acceptor = acceptor; disk = disk; links = links; post = post }) result }
    ensures given_back { result.status ≢ 12 → IsGivenBack result }
    ensures post_back { IsSome result.post }
{
    let objects = Objects {
        acceptor,
        disk,
        links,
        post,
    };
    match network_command_of(alloc, words) {
        Ok(read) => run(rt, alloc, read, document, objects, clock),
        Err(_) => give_back(objects, OUT_OF_MEMORY, None),
    }
}
