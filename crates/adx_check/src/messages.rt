//! What a run that failed says on standard error: one line.
use crate::status::{ACCEPTED, NO_DOCUMENT, NOT_ACCEPTED, OUT_OF_MEMORY, READ_FAULT, WRITE_FAULT};
use noted_streams::{Reason, Told};

/// What the system said of standard input and standard output.
#[derive(Drop)]
pub(crate) struct Heard {
    pub(crate) input: Told,
    pub(crate) output: Told,
}

impl Heard {
    /// Nothing so far.
    pub(crate) fn new() -> Heard {
        Heard {
            input: Told::new(),
            output: Told::new(),
        }
    }
}

/// Says that memory was refused.
pub(crate) fn say_memory(rt: &HostRuntime) {
    let _ = eprintln!(rt; "adx_check: out of memory");
}

/// Says that the program takes no words.
pub(crate) fn say_words(rt: &HostRuntime) {
    let _ = eprintln!(rt;
        "adx_check: usage: adx_check < DOCUMENT, a record with its certificate behind it"
    );
}

/// Says why a run ended with a status other than 0.
pub(crate) fn say(rt: &HostRuntime, heard: &Heard, status: u8) {
    let written = match status {
        ACCEPTED => Ok(()),
        NO_DOCUMENT => {
            eprintln!(rt;
                "adx_check: standard input: isn't a record with a certificate behind it, or is too long (standard output says which line)"
            )
        }
        READ_FAULT => eprintln!(rt; "adx_check: standard input: {}", Reason(&heard.input)),
        WRITE_FAULT => eprintln!(rt; "adx_check: standard output: {}", Reason(&heard.output)),
        NOT_ACCEPTED => {
            eprintln!(rt;
                "adx_check: the certificate isn't accepted (standard output says the first rule that fails)"
            )
        }
        OUT_OF_MEMORY => eprintln!(rt; "adx_check: out of memory"),
        _ => Ok(()),
    };
    let _ = written;
}
