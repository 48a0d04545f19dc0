//! Laws of the definition of what messages are answered: each is a function without a body, whose contract is the law.
ghost use Rattle.fan_out.specs.Lanes.{works};
ghost use Rattle.exchange_http.specs.Laws.{HasMeaning, HasOneMeaning, HasOneReply};

use adx_links::Link;

/// There is no message without a meaning, and none with two: each is a request for bids, a notice, a change of a budget, a
/// look at the books or the meters, or refused. Two requests for bids are one meaning where the trees of their bodies are equal.
pub fn has_meaning()
    ensures some { HasMeaning }
    ensures one { HasOneMeaning }
{}

/// Messages that made the same steps have the same replies, whatever their lanes and clocks were.
pub fn one_reply<L: Link>()
    ensures { HasOneReply (works L.Link) }
{}
