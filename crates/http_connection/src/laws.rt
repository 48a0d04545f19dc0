//! Laws of the definition of messages: each is a function without a body, whose contract is the law.
ghost use Rattle.http_connection.specs.Laws.{HasOneRequest, HasOneResponse, RequestFaultStays, RequestStays, ResponseFaultStays, ResponseStays};

/// A list of bytes gives one answer and no two: a request with what comes after it, a fault, or the
/// end; or a response with what comes after it, or a fault.
pub fn one_answer()
    ensures request { HasOneRequest }
    ensures response { HasOneResponse }
{}

/// What a front of the bytes gives, all of them give, whatever follows; but for an end within a
/// message, and for a response whose body goes to the end.
pub fn fronts_stay()
    ensures request { RequestStays }
    ensures request_fault { RequestFaultStays }
    ensures response { ResponseStays }
    ensures response_fault { ResponseFaultStays }
{}
