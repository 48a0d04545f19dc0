//! The exchange's side of a connection: its day, the lanes to its bidders, and its clock.
ghost use Rattle.std.specs.Prelude.{◌≡◌, [], IfOk, OnOk, OnErr, string_bytes};
ghost use Rattle.adx_desk.specs.Rosters.{desk_terms};
ghost use Rattle.adx_json.specs.View.{tree_of};
ghost use Rattle.answer_lines.specs.Table.{closing_table};
ghost use Rattle.adx_desk.specs.DayDesks.{Looks};
ghost use Rattle.exchange_messages.specs.Asking.{ShowsMeters};
ghost use Rattle.exchange_messages.specs.Meters.{meters_text};
ghost use Rattle.http_connection.specs.Messages.{Request};
ghost use Rattle.exchange_messages.specs.Floors.{AnswersHere, Gave, GivesUpHere, IsFloor, IsKept};
ghost use Rattle.exchange_messages.specs.Courses.{reply_of};
ghost use Rattle.exchange_messages.specs.Meanings.{BodyMeans, Meaning, Means, TreeMeans, asks};
ghost use Rattle.exchange_messages.specs.Replies.{with_status as replied_with};
ghost use Rattle.exchange_messages.specs.Turns.{terms_by};
ghost use Rattle.exchange_messages.specs.Wants.{WantsOther, change_meant};

use crate::asking::{ask_now, gather_new};
use crate::changing::take_change;
use crate::clock::Clock;
use crate::gathering::{Given, Round};
use crate::meters::push_meters;
use crate::refusal::Refusal;
use crate::replies::refuse;
use crate::wanted::{ChangeTexts, Other};
use adx_desk::DayDesk;
use adx_json::{Json, JsonFault, read};
use adx_links::Link;
use adx_units::OutOfMemory;
use deal_floor::Roster;
use fan_out::Lane;
use http_service::{Answer as HttpAnswer, plain};
use rtb_request::{BidRequest, RequestFault};
use script_lines::read_change;
use std::alloc::Global;

/// The exchange's side of a connection: the roster, its day's desk, the lanes to its bidders and how they are asked, and its
/// clock.
#[derive(Drop)]
pub struct Floor<'a, Y, L, C, F> {
    /// The roster that the desk was opened with.
    pub roster: &'a Roster,
    /// The desk, owned or shared.
    pub desk: Y,
    /// A lane for each bidder of the roster.
    pub lanes: &'a mut Vec<Lane<L>>,
    /// What gives the moment of each request.
    pub clock: &'a C,
    /// How the lanes are asked.
    pub gatherer: F,
}

impl<Y: DayDesk, L: Link + Drop, C: Clock, F: Fn(Round<'_, L>) -> Given<L>> Floor<'_, Y, L, C, F> {
    /// Takes a request for bids: asks the bidders where it is new, ticks, and asks it at the same moment.
    fn take_request(
        &mut self,
        alloc: Global,
        tree: &Json,
        request: &BidRequest,
        out: &mut String,
    ) -> Result<HttpAnswer, OutOfMemory>
        requires floor { IsFloor Y.DayDesk self.old }
        requires always { F.IsAlwaysCallable self.old.gatherer }
        requires gives { (x y : _) → F.post self.old.gatherer x y → Gave L.Link x y }
        requires empty { string_bytes out.old ≡ [] }
        ensures answered { IfOk result (λ a.
            (m : Request) → Means m (asks (tree_of tree.now) request.now)
            → AnswersHere Y.DayDesk L.Link C.Clock self.old self.new m (reply_of a (string_bytes out.new))) }
        ensures gave_up { OnErr result (
            (m : Request) → Means m (asks (tree_of tree.now) request.now)
            → GivesUpHere Y.DayDesk L.Link C.Clock self.old self.new m) }
        ensures floor { IsFloor Y.DayDesk self.new }
        ensures kept { IsKept Y.DayDesk self.old self.new }
    {
        let answers = gather_new(
            alloc,
            &mut self.desk,
            &self.gatherer,
            self.lanes,
            tree,
            request,
        )?;
        ask_now(
            alloc,
            self.roster,
            &mut self.desk,
            self.clock,
            request,
            answers,
            out,
        )
    }

    /// Takes the tree of a body: a request for bids, or none.
    fn take_tree(
        &mut self,
        alloc: Global,
        tree: &Json,
        out: &mut String,
    ) -> Result<HttpAnswer, OutOfMemory>
        requires floor { IsFloor Y.DayDesk self.old }
        requires always { F.IsAlwaysCallable self.old.gatherer }
        requires gives { (x y : _) → F.post self.old.gatherer x y → Gave L.Link x y }
        requires empty { string_bytes out.old ≡ [] }
        ensures answered { IfOk result (λ a.
            (m : Request) → ((meaning : Meaning) → TreeMeans (tree_of tree.now) meaning → Means m meaning)
            → AnswersHere Y.DayDesk L.Link C.Clock self.old self.new m (reply_of a (string_bytes out.new))) }
        ensures gave_up { OnErr result (
            (m : Request) → ((meaning : Meaning) → TreeMeans (tree_of tree.now) meaning → Means m meaning)
            → GivesUpHere Y.DayDesk L.Link C.Clock self.old self.new m) }
        ensures floor { IsFloor Y.DayDesk self.new }
        ensures kept { IsKept Y.DayDesk self.old self.new }
    {
        match BidRequest::of(alloc, tree) {
            Ok(request) => self.take_request(alloc, tree, &request, out),
            Err(RequestFault::OutOfMemory) => Err(OutOfMemory),
            Err(fault) => refuse(alloc, out, Refusal::Request(fault)),
        }
    }

    /// Takes the body of a message that asks for bids.
    fn take_body(
        &mut self,
        alloc: Global,
        body: &[u8],
        out: &mut String,
    ) -> Result<HttpAnswer, OutOfMemory>
        requires floor { IsFloor Y.DayDesk self.old }
        requires always { F.IsAlwaysCallable self.old.gatherer }
        requires gives { (x y : _) → F.post self.old.gatherer x y → Gave L.Link x y }
        requires empty { string_bytes out.old ≡ [] }
        ensures answered { IfOk result (λ a.
            (m : Request) → ((meaning : Meaning) → BodyMeans body.now meaning → Means m meaning)
            → AnswersHere Y.DayDesk L.Link C.Clock self.old self.new m (reply_of a (string_bytes out.new))) }
        ensures gave_up { OnErr result (
            (m : Request) → ((meaning : Meaning) → BodyMeans body.now meaning → Means m meaning)
            → GivesUpHere Y.DayDesk L.Link C.Clock self.old self.new m) }
        ensures floor { IsFloor Y.DayDesk self.new }
        ensures kept { IsKept Y.DayDesk self.old self.new }
    {
        match read(alloc, body) {
            Ok(tree) => self.take_tree(alloc, &tree, out),
            Err(JsonFault::OutOfMemory) => Err(OutOfMemory),
            Err(fault) => refuse(alloc, out, Refusal::Json(fault)),
        }
    }

    /// Writes the books of the day.
    fn show_books(&mut self, out: &mut String) -> Result<HttpAnswer, OutOfMemory>
        requires floor { IsFloor Y.DayDesk self.old }
        requires empty { string_bytes out.old ≡ [] }
        ensures looks { Looks Y.runs self.old.desk self.new.desk (λ at. IfOk result (λ a.
            reply_of a (string_bytes out.new) ≡ replied_with 200 (closing_table self.old.roster.now.campaigns (terms_by self.old.roster.now) at))) }
        ensures lanes { self.new.lanes ≡ self.old.lanes }
        ensures floor { IsFloor Y.DayDesk self.new }
        ensures kept { IsKept Y.DayDesk self.old self.new }
    {
        self.desk.push_books(out, self.roster)?;
        Ok(plain(200))
    }

    /// Writes the meters of the day.
    fn show_meters(&mut self, out: &mut String) -> Result<HttpAnswer, OutOfMemory>
        requires floor { IsFloor Y.DayDesk self.old }
        requires empty { string_bytes out.old ≡ [] }
        ensures reads { ShowsMeters Y.runs self.old.desk self.new.desk (λ m. IfOk result (λ a.
            reply_of a (string_bytes out.new) ≡ replied_with 200 (meters_text m))) }
        ensures lanes { self.new.lanes ≡ self.old.lanes }
        ensures floor { IsFloor Y.DayDesk self.new }
        ensures kept { IsKept Y.DayDesk self.old self.new }
    {
        let meters = self.desk.meters();
        push_meters(out, &meters)?;
        Ok(plain(200))
    }

    /// Takes the change of a budget that four texts name, where they are of their form.
    fn change_budget(
        &mut self,
        alloc: Global,
        texts: &ChangeTexts<'_>,
        out: &mut String,
    ) -> Result<HttpAnswer, OutOfMemory>
        requires floor { IsFloor Y.DayDesk self.old }
        requires empty { string_bytes out.old ≡ [] }
        ensures answered { IfOk result (λ a.
            (m : Request) → Means m (change_meant texts.now)
            → AnswersHere Y.DayDesk L.Link C.Clock self.old self.new m (reply_of a (string_bytes out.new))) }
        ensures gave_up { OnErr result ((m : Request) → Means m (change_meant texts.now) → GivesUpHere Y.DayDesk L.Link C.Clock self.old self.new m) }
        ensures floor { IsFloor Y.DayDesk self.new }
        ensures kept { IsKept Y.DayDesk self.old self.new }
    {
        match read_change(
            self.roster,
            texts.seat.as_str(),
            texts.cid.as_str(),
            texts.number.as_str().as_bytes(),
            texts.budget.as_str().as_bytes(),
        ) {
            Some(change) => take_change(alloc, self.roster, &mut self.desk, change, out),
            None => refuse(alloc, out, Refusal::Call),
        }
    }

    /// Answers a message with that body which is no notice; the reply's body is put into `out`.
    pub fn answer(
        &mut self,
        alloc: Global,
        other: Other<'_>,
        body: &[u8],
        out: &mut String,
    ) -> Result<HttpAnswer, OutOfMemory>
        requires floor { IsFloor Y.DayDesk self.old }
        requires always { F.IsAlwaysCallable self.old.gatherer }
        requires gives { (x y : _) → F.post self.old.gatherer x y → Gave L.Link x y }
        ensures answered { IfOk result (λ a.
            (m : Request) → m.body ≡ body.now → WantsOther m other.entry
            → AnswersHere Y.DayDesk L.Link C.Clock self.old self.new m (reply_of a (string_bytes out.new))) }
        ensures gave_up { OnErr result (
            (m : Request) → m.body ≡ body.now → WantsOther m other.entry
            → GivesUpHere Y.DayDesk L.Link C.Clock self.old self.new m) }
        ensures floor { IsFloor Y.DayDesk self.new }
        ensures kept { IsKept Y.DayDesk self.old self.new }
    {
        out.clear();
        match other {
            Other::Bids => self.take_body(alloc, body, out),
            Other::Books => self.show_books(out),
            Other::Meters => self.show_meters(out),
            Other::Budget(texts) => self.change_budget(alloc, &texts, out),
            Other::Nothing(why) => refuse(alloc, out, why),
        }
    }
}
