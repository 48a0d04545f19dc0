//! Messages that are no call of the day.
use crate::path::Path;
use adx_json::JsonFault;
use rtb_request::RequestFault;

/// Why a message is no call of the day.
#[derive(Debug, Drop)]
pub enum Refusal {
    /// No such path is served.
    Path,
    /// The path isn't served by this method.
    Method(Path),
    /// The notice names no auction, or no number of an award; or the change of a budget isn't of its form.
    Call,
    /// The body is no JSON text, or memory for its tree was refused, which `refuse` answers by an error.
    Json(JsonFault),
    /// The request for bids is none, or memory for it was refused, which `refuse` answers by an error.
    Request(RequestFault),
}
