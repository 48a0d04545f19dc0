//! What an answer's tree says, or its first fault.
ghost use Rattle.std.specs.Prelude.{◌≡◌, ◌+◌, [], min, None, Some, IfOk, IfSome, IfNone, true, false};
ghost use Rattle.std.specs.List.{AllZip};
ghost use Rattle.adx_json.specs.View.{tree_of, trees_of};
ghost use Rattle.adx_json.specs.Rows.{Reads, Says, first_among};
ghost use Rattle.rtb_response.specs.Bids.{bid_rows};
ghost use Rattle.rtb_response.specs.Answers.{answer_rows, bid_count, seat_rows};
ghost use Rattle.rtb_response.specs.Faults.{lacks_memory};
ghost use Rattle.rtb_response.specs.Seats.{bids_in, has_bids};
ghost use Rattle.rtb_response.specs.declared.bid.TheConstants.{MOST_BIDS};
ghost use Rattle.rtb_response.specs.declared.fault.AnswerFault.TheVariants.{BadField};
ghost use Rattle.rtb_response.specs.declared.fault.Field.TheVariants.{SeatbidBid};

use crate::bid::{Bid, MOST_BIDS};
use crate::bid_answer::{BidAnswer, SeatBid};
use crate::bid_reader::{bid_of, text_or_empty};
use crate::fault::{AnswerFault, Field};
use adx_json::{
    Json, find_given, is_absent_or, is_list_if_given, is_number_text, items_in, text_in,
};
use adx_units::{Id, OutOfMemory, Sequence};
use std::alloc::Global;

/// The room with which the bodies of an answer's bids begin, in bytes: that of a short body.
const SCRATCH_ROOM: usize = 1_024;

/// The list of bids of a seat. None exactly where it isn't an object with a list of bids.
fn bid_list(seat: &Json) -> Option<&[Json]>
    ensures some { IfSome result (λ _. has_bids (tree_of seat.now) ≡ true) }
    ensures items { IfSome result (λ bids. trees_of bids.now ≡ bids_in (tree_of seat.now)) }
    ensures none { IfNone result (has_bids (tree_of seat.now) ≡ false) }
{
    let mut found = [None; 1];
    find_given(Some(seat), &["bid"], &mut found);
    let [bids] = found;
    if bids.is_some() && is_list_if_given(bids) {
        Some(items_in(bids))
    } else {
        None
    }
}

/// How many bids some seats have together, counted no further than one past the most. None exactly where one of
/// them isn't an object with a list of bids.
fn count_bids(seats: &[Json]) -> Option<usize>
    ensures count { IfSome result (λ n. n ≡ min (bid_count (trees_of seats.now)) (MOST_BIDS + 1)) }
    ensures each { IfSome result (λ _. first_among (λ others. seat_rows) [] (trees_of seats.now) ≡ None) }
    ensures none { IfNone result (first_among (λ others. seat_rows) [] (trees_of seats.now) ≡ Some (BadField SeatbidBid)) }
{
    let mut count = 0;
    for seat in seats {
        let Some(bids) = bid_list(seat) else {
            return None;
        };
        count = (count + bids.len().min(MOST_BIDS + 1)).min(MOST_BIDS + 1);
    }
    Some(count)
}

fn bids_of(alloc: Global, scratch: &mut String, trees: &[Json]) -> Result<Vec<Bid>, OutOfMemory>
    ensures { IfOk result (λ bs. AllZip (λ t b. Says bid_rows (Some t) b) (trees_of trees.now) bs.items) }
{
    let mut bids = Vec::with_capacity(alloc, trees.len())?;
    for tree in trees {
        bids.push(bid_of(alloc, scratch, tree)?)?;
    }
    Ok(bids)
}

fn seat_of(alloc: Global, scratch: &mut String, tree: &Json) -> Result<SeatBid, OutOfMemory>
    ensures { IfOk result (λ s. Says seat_rows (Some (tree_of tree.now)) s) }
{
    let mut found = [None; 3];
    find_given(Some(tree), &["seat", "group", "bid"], &mut found);
    let [seat, group, bids] = found;
    Ok(SeatBid {
        seat: text_or_empty(alloc, seat)?,
        all_or_none: is_number_text(group, "1"),
        bids: Sequence::from(bids_of(alloc, scratch, items_in(bids))?),
    })
}

fn seats_of(alloc: Global, trees: &[Json]) -> Result<Vec<SeatBid>, OutOfMemory>
    ensures { IfOk result (λ ss. AllZip (λ t s. Says seat_rows (Some t) s) (trees_of trees.now) ss.items) }
{
    let mut scratch = String::with_capacity(alloc, SCRATCH_ROOM)?;
    let mut seats = Vec::with_capacity(alloc, trees.len())?;
    for tree in trees {
        seats.push(seat_of(alloc, &mut scratch, tree)?)?;
    }
    Ok(seats)
}

impl BidAnswer {
    /// The bids of an answer to the request with that id (OpenRTB 2.6, section 4.2.1, BidResponse), or the first test
    /// that fails: `NoId`, `OtherId`, `OtherCurrency`, `BadField` of `seatbid` and then of its elements,
    /// `TooManyBids`. A member that is null counts as absent. Memory is asked for once every test holds.
    pub fn of(alloc: Global, tree: &Json, id: &Id) -> Result<BidAnswer, AnswerFault>
        ensures { Reads lacks_memory (answer_rows id.now) (tree_of tree.now) result }
    {
        let mut found = [None; 4];
        find_given(Some(tree), &["id", "bidid", "cur", "seatbid"], &mut found);
        let [named, bidid, cur, seatbid] = found;
        let Some(named) = text_in(named) else {
            return Err(AnswerFault::NoId);
        };
        if named.as_bytes() != id.as_bytes() {
            return Err(AnswerFault::OtherId);
        }
        if !is_absent_or(cur, "USD") {
            return Err(AnswerFault::OtherCurrency);
        }
        if !is_list_if_given(seatbid) {
            return Err(AnswerFault::BadField {
                field: Field::Seatbid,
            });
        }
        let seats = items_in(seatbid);
        let Some(count) = count_bids(seats) else {
            return Err(AnswerFault::BadField {
                field: Field::SeatbidBid,
            });
        };
        if count > MOST_BIDS {
            return Err(AnswerFault::TooManyBids);
        }
        let bidid = text_or_empty(alloc, bidid)?;
        let seats = Sequence::from(seats_of(alloc, seats)?);
        Ok(BidAnswer { bidid, seats })
    }
}
