//! What a message is answered.
ghost use Rattle.std.specs.Prelude.{◌≡◌};
ghost use Rattle.http_service.specs.Replies.{methods_text};

/// The methods that a reply says are allowed (RFC 9110, section 10.2.1, Allow).
#[derive(Clone, Copy, Debug, PartialEq, Eq)]
pub enum Methods {
    /// The reply says none.
    Unsaid,
    /// POST alone.
    Post,
    /// GET alone.
    Get,
    /// GET and POST.
    GetAndPost,
}

impl Methods {
    /// How a reply spells them; empty where it says none.
    pub(crate) fn text(self) -> &'static [u8]
        ensures { result.now ≡ methods_text self }
    {
        match self {
            Methods::Unsaid => b"",
            Methods::Post => b"POST",
            Methods::Get => b"GET",
            Methods::GetAndPost => b"GET, POST",
        }
    }
}

/// What a message is answered, but for the body. The body is JSON.
#[derive(Clone, Copy, Debug, PartialEq, Eq)]
pub struct Answer {
    /// The status (RFC 9110, section 15).
    pub status: u16,
    /// Whether the reply says the version of OpenRTB, 2.6.
    pub openrtb: bool,
    /// The methods that it says are allowed.
    pub allow: Methods,
}
