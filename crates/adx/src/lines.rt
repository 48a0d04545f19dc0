//! Standard error a line at a time: what stands in a line, a path or a name of whoever sent it, makes no second one.

use std::fmt::Display;
use std::io;
use std::io::Eprint;

/// A value's text without control characters: each is escaped as `char::escape_default` does it (`\n`, `\u{1b}`).
pub(crate) fn one_line<D: Display + Drop>(rt: &HostRuntime, value: D) -> io::Result<String> {
    let text = format!(in rt.alloc(); "{value}")?;
    let mut line = String::new(rt.alloc());
    for c in text.as_str().chars() {
        if c.is_control() {
            for escaped in c.escape_default() {
                line.push(escaped)?;
            }
        } else {
            line.push(c)?;
        }
    }
    Ok(line)
}

/// Standard error, to which each call writes one line.
#[derive(Clone, Copy)]
pub(crate) struct Lines<'a> {
    rt: &'a HostRuntime,
}

impl<'a> Lines<'a> {
    /// Of this process.
    pub(crate) fn of(rt: &'a HostRuntime) -> Lines<'a> {
        Lines { rt }
    }
}

impl<'a> Eprint for Lines<'a> {
    fn eprint<D: Display + Drop>(&self, value: D) -> io::Result<()> {
        self.rt.eprint(value)
    }

    fn eprintln<D: Display + Drop>(&self, value: D) -> io::Result<()> {
        match one_line(self.rt, value) {
            Ok(line) => self.rt.eprintln(line.as_str()),
            Err(_) => self.rt.eprintln("adx: out of memory"),
        }
    }
}
