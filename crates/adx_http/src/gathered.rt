//! Pieces of a reply that are gathered before a sink takes them.
ghost use Rattle.std.specs.Prelude.{◌≡◌, ◌≤◌, ◌+◌, ◌++◌, ℕ, List, [], length, take, Option, true, false};
ghost use Rattle.adx_io.specs.Streams.{HasCause};

use adx_io::{Sink, put_all};

/// How many bytes are gathered before they are put.
const ROOM: usize = 1024;

/// The bytes of a reply that were not put yet, and whether the sink failed.
#[derive(Drop)]
pub(crate) struct Gathered {
    bytes: [u8; ROOM],
    len: usize,
    failed: bool,
    ghost within: { len ≤ 1024 },
}

impl Gathered {
    ghost use Rattle.adx_http.specs.Gathering.{Holds};

    /// Nothing is gathered.
    pub(crate) fn new() -> Gathered
        ensures len { result.len ≡ 0 }
        ensures failed { result.failed ≡ false }
    {
        Gathered {
            bytes: [0; ROOM],
            len: 0,
            failed: false,
        }
    }

    /// Adds a piece that fits.
    fn add(&mut self, piece: &[u8])
        requires { self.old.len + length piece.now ≤ 1024 }
        ensures bytes { take self.new.len self.new.bytes ≡ take self.old.len self.old.bytes ++ piece.now }
        ensures failed { self.new.failed ≡ self.old.failed }
    {
        let end = self.len + piece.len();
        self.bytes[self.len..end].copy_from_slice(piece);
        self.len = end;
    }

    /// Puts what is gathered.
    fn flush<K: Sink>(&mut self, sink: &mut K)
        requires { self.old.failed ≡ false }
        ensures len { self.new.len ≡ 0 }
        ensures same { K.place sink.new ≡ K.place sink.old }
        ensures holds { (old : Option (List ℕ)) (before : ℕ) (bytes : List ℕ) → Holds old before (K.held sink.old) (K.faults sink.old) self.old bytes
            → Holds old before (K.held sink.new) (K.faults sink.new) self.new bytes }
    {
        match put_all(sink, &self.bytes[..self.len]) {
            Ok(_) => self.len = 0,
            Err(_) => {
                self.len = 0;
                self.failed = true;
            }
        }
    }

    /// Puts a piece where nothing is gathered.
    fn pass<K: Sink>(&mut self, sink: &mut K, piece: &[u8])
        requires sound { self.old.failed ≡ false }
        requires none { self.old.len ≡ 0 }
        ensures same { K.place sink.new ≡ K.place sink.old }
        ensures holds { (old : Option (List ℕ)) (before : ℕ) (bytes : List ℕ) → Holds old before (K.held sink.old) (K.faults sink.old) self.old bytes
            → Holds old before (K.held sink.new) (K.faults sink.new) self.new (bytes ++ piece.now) }
    {
        match put_all(sink, piece) {
            Ok(_) => self.len = 0,
            Err(_) => self.failed = true,
        }
    }

    /// Gathers a piece; where it doesn't fit, what is gathered is put first. After a fault nothing
    /// more is put.
    pub(crate) fn push<K: Sink>(&mut self, sink: &mut K, piece: &[u8])
        ensures same { K.place sink.new ≡ K.place sink.old }
        ensures holds { (old : Option (List ℕ)) (before : ℕ) (bytes : List ℕ) → Holds old before (K.held sink.old) (K.faults sink.old) self.old bytes
            → Holds old before (K.held sink.new) (K.faults sink.new) self.new (bytes ++ piece.now) }
    {
        if self.failed {
            return;
        }
        if piece.len() <= ROOM - self.len {
            self.add(piece);
            return;
        }
        self.flush(sink);
        if self.failed {
            return;
        }
        if piece.len() <= ROOM {
            self.add(piece);
        } else {
            self.pass(sink, piece);
        }
    }

    /// Puts what is left, and says whether the sink took all.
    pub(crate) fn finish<K: Sink>(&mut self, sink: &mut K) -> bool
        ensures same { K.place sink.new ≡ K.place sink.old }
        ensures result { result ≡ self.new.failed }
        ensures len { self.new.failed ≡ false → self.new.len ≡ 0 }
        ensures holds { (old : Option (List ℕ)) (before : ℕ) (bytes : List ℕ) → Holds old before (K.held sink.old) (K.faults sink.old) self.old bytes
            → Holds old before (K.held sink.new) (K.faults sink.new) self.new bytes }
    {
        if self.failed {
            return true;
        }
        self.flush(sink);
        self.failed
    }
}
