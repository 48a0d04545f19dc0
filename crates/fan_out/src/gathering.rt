//! All lanes asked: at the same time, or one after the other.
ghost use Rattle.std.specs.Prelude.{◌≡◌, [], ◌∷◌, ◌++◌, map, Some, Ok, None, IfOk};
ghost use Rattle.std.specs.List.{All};
ghost use Rattle.fan_out.specs.Lanes.{works};
ghost use Rattle.fan_out.specs.Gathering.{AreWorked, WereWorked, outcomes_of};
ghost use Rattle.fan_out.specs.Lasts.{AreTaken, EachLeaves, emptied};

use crate::answer::BidderAnswer;
use crate::lane::{Lane, work};
use adx_links::Link;
use adx_units::{Id, OutOfMemory};
use std::alloc::Global;
use std::marker::{Send, Sync};
use std::thread;
use std::thread::Threads;

/// Puts a lane's answer after those of the lanes before.
fn put_behind(
    answers: Result<Vec<BidderAnswer>, OutOfMemory>,
    last: Option<Result<BidderAnswer, OutOfMemory>>,
) -> Result<Vec<BidderAnswer>, OutOfMemory>
    ensures { IfOk result (λ v. (w : _) × (a : BidderAnswer) × (answers ≡ Ok w) × (last ≡ Some (Ok a)) × (v.items ≡ w.items ++ a ∷ [])) }
{
    match answers {
        Ok(mut answers) => match last {
            Some(Ok(answer)) => match answers.push(answer) {
                Ok(_) => Ok(answers),
                Err(_) => Err(OutOfMemory),
            },
            Some(Err(wanting)) => Err(wanting),
            None => Err(OutOfMemory),
        },
        Err(wanting) => Err(wanting),
    }
}

/// Takes the answers out of the lanes, in their order.
fn collected<L>(alloc: Global, lanes: &mut [Lane<L>]) -> Result<Vec<BidderAnswer>, OutOfMemory>
    ensures taken { IfOk result (λ v. AreTaken lanes.old v.items) }
    ensures emptied { lanes.new ≡ map emptied lanes.old }
{
    let mut answers = Ok(Vec::new(alloc));
    for lane in lanes.iter_mut() {
        answers = put_behind(answers, lane.last.take());
    }
    answers
}

/// Works every lane, each in a thread of its own where one can be started.
fn work_all<R: Threads + Sync, L: Link + Send>(
    rt: &R,
    alloc: Global,
    lanes: &mut [Lane<L>],
    body: &[u8],
    id: &Id,
)
    ensures { EachLeaves (works L.Link body.now id.now) lanes.old lanes.new }
{
    let count = lanes.len();
    if count > 0 {
        thread::for_each_mut(rt, lanes, count, &|_, lane| work(alloc, lane, body, id));
    }
}

/// Works every lane, one after the other.
fn work_in_turn<L: Link>(alloc: Global, lanes: &mut [Lane<L>], body: &[u8], id: &Id)
    ensures { EachLeaves (works L.Link body.now id.now) lanes.old lanes.new }
{
    for lane in lanes.iter_mut() {
        work(alloc, lane, body, id);
    }
}

/// Works all lanes at the same time, and takes their answers.
fn gather_lanes<R: Threads + Sync, L: Link + Send>(
    rt: &R,
    alloc: Global,
    lanes: &mut [Lane<L>],
    body: &[u8],
    id: &Id,
) -> Result<Vec<BidderAnswer>, OutOfMemory>
    ensures answers { IfOk result (λ v. AreWorked (works L.Link body.now id.now) lanes.old lanes.new (outcomes_of v.items)) }
    ensures worked { WereWorked (works L.Link body.now id.now) lanes.old lanes.new }
    ensures taken { All (λ l. l.last ≡ None) lanes.new }
{
    work_all(rt, alloc, lanes, body, id);
    collected(alloc, lanes)
}

/// Works the lanes one after the other, and takes their answers.
fn gather_lanes_in_turn<L: Link>(
    alloc: Global,
    lanes: &mut [Lane<L>],
    body: &[u8],
    id: &Id,
) -> Result<Vec<BidderAnswer>, OutOfMemory>
    ensures answers { IfOk result (λ v. AreWorked (works L.Link body.now id.now) lanes.old lanes.new (outcomes_of v.items)) }
    ensures worked { WereWorked (works L.Link body.now id.now) lanes.old lanes.new }
    ensures taken { All (λ l. l.last ≡ None) lanes.new }
{
    work_in_turn(alloc, lanes, body, id);
    collected(alloc, lanes)
}

/// Asks every lane's bidder at the same time, each in a thread of its own where one can be started, and gives the
/// answers in the order of the lanes. After lack of memory the lanes keep their places, and their links and conns are
/// as the work left them.
pub fn gather<R: Threads + Sync, L: Link + Send>(
    rt: &R,
    alloc: Global,
    lanes: &mut Vec<Lane<L>>,
    body: &[u8],
    id: &Id,
) -> Result<Vec<BidderAnswer>, OutOfMemory>
    ensures answers { IfOk result (λ v. AreWorked (works L.Link body.now id.now) lanes.old.items lanes.new.items (outcomes_of v.items)) }
    ensures worked { WereWorked (works L.Link body.now id.now) lanes.old.items lanes.new.items }
    ensures taken { All (λ l. l.last ≡ None) lanes.new.items }
{
    gather_lanes(rt, alloc, lanes.as_mut_slice(), body, id)
}

/// Asks every lane's bidder, one after the other and without threads, and gives the answers in the order of the lanes.
/// After lack of memory the lanes keep their places, and their links and conns are as the work left them.
pub fn gather_in_turn<L: Link>(
    alloc: Global,
    lanes: &mut Vec<Lane<L>>,
    body: &[u8],
    id: &Id,
) -> Result<Vec<BidderAnswer>, OutOfMemory>
    ensures answers { IfOk result (λ v. AreWorked (works L.Link body.now id.now) lanes.old.items lanes.new.items (outcomes_of v.items)) }
    ensures worked { WereWorked (works L.Link body.now id.now) lanes.old.items lanes.new.items }
    ensures taken { All (λ l. l.last ≡ None) lanes.new.items }
{
    gather_lanes_in_turn(alloc, lanes.as_mut_slice(), body, id)
}
