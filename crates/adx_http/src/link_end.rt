//! An open link as a source.
ghost use Rattle.std.specs.Prelude.{◌≡◌};
ghost use Rattle.adx_http.specs.Exchanging.{Hears};

use adx_io::{Failed, Source};
use adx_links::Link;
use std::marker::{Brand, Model, PhantomData};

/// What a link reported when it was lent. Each lending picks it.
pub(crate) trait Lent {
    ghost use Rattle.std.specs.Prelude.{Option};
    ghost use Rattle.adx_links.specs.Links.{Course, Exchanges};

    ghost talk: { Option Exchanges };

    ghost plan: { Option Course };
}

impl Lent for Brand {
    ghost use Rattle.std.specs.Prelude.{None};

    ghost talk = { None };

    ghost plan = { None };
}

/// An open link as a source of what is answered over its connection. Since it was lent, bytes were
/// taken from it, and nothing else was done to it: a source reports nothing of what else it uses, so
/// the type keeps that.
#[derive(Drop)]
pub(crate) struct LinkEnd<L: Link, B: Lent> {
    link: L,
    lent: PhantomData<B>,
}

impl<L: Link, B: Lent> Model for LinkEnd<L, B> {
    ghost use Rattle.adx_http.specs.Exchanging.{Hears};

    ghost Value = { L };

    ghost view = { λ e. e.link };

    ghost invariant = { λ e. Hears B.talk (L.exchanges e.link) B.plan (L.course e.link) };
}

impl<L: Link, B: Lent> LinkEnd<L, B> {
    /// Lends the link.
    pub(crate) fn new(link: L) -> LinkEnd<L, B>
        requires { Hears B.talk (L.exchanges link) B.plan (L.course link) }
        ensures { result ≡ link }
    {
        LinkEnd {
            link,
            lent: PhantomData,
        }
    }

    /// Gives it back.
    pub(crate) fn close(self) -> L
        ensures link { result ≡ self }
        ensures hears { Hears B.talk (L.exchanges result) B.plan (L.course result) }
    {
        self.link
    }
}

impl<L: Link, B: Lent> Source for LinkEnd<L, B> {
    ghost use Rattle.adx_http.specs.Exchanging.{tape_of};

    ghost faults = { λ e. L.faults e };

    ghost tape = { λ e. tape_of (L.course e) };

    ghost place = { λ e. L.place e };

    fn take(&mut self, out: &mut [u8]) -> Result<usize, Failed> {
        self.link.take(out)
    }
}
