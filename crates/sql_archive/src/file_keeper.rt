//! A keeper over the archive in a file, which is opened at the first call.
ghost use Rattle.std.specs.Prelude.{◌≡◌, false};
ghost use Rattle.day_archive.specs.declared.refusal.KeeperRefusal.TheVariants.{KeeperFault};
ghost use Rattle.day_archive.specs.Answers.{IsCaused};
ghost use Rattle.sql_archive.specs.FileKeepers.{IsUnopened, faults_of, upgraded_of};

use crate::sql_keeper::SqlKeeper;
use crate::unopened::Unopened;
use adx_units::Text;
use day_archive::{DayRow, Keeper, KeeperRefusal};
use sqlite::{Connection, Error, File, FileStore};
use std::fs;

/// Which file of an archive is opened.
#[derive(Clone, Copy, Debug, PartialEq, Eq)]
pub enum Opening {
    /// One that is there.
    Existing,
    /// One that is there, or a new one where there is none.
    Made,
}

/// How far the file of an archive is opened.
#[derive(Drop)]
pub(crate) enum Place {
    /// No call has come yet that needs it.
    Waiting,
    /// It is open, and held by this process.
    Open(SqlKeeper<FileStore<File>>),
    /// It wasn't opened.
    Refused(Unopened),
}

/// A keeper over the archive in a file, which is opened at the first call. A file that can't be opened is a fault.
#[derive(Drop)]
pub(crate) struct FileKeeper<'a> {
    rt: &'a HostRuntime,
    path: &'a str,
    opening: Opening,
    pub(crate) place: Place,
    /// The faults that were met before the file was open.
    faults: u64,
}

/// Opens the file.
fn opened(
    rt: &HostRuntime,
    path: &str,
    opening: Opening,
) -> Result<Connection<FileStore<File>>, Unopened> {
    match opening {
        Opening::Existing => {
            if !fs::metadata(rt, path)?.is_file() {
                return Err(Unopened::NotAFile);
            }
        }
        Opening::Made => {}
    }
    match Connection::open(rt, path) {
        Ok(conn) => Ok(conn),
        Err(error) => Err(Unopened::from(error)),
    }
}

impl<'a> FileKeeper<'a> {
    /// A keeper over the file of this path, which isn't opened yet.
    pub(crate) fn new(rt: &'a HostRuntime, path: &'a str, opening: Opening) -> FileKeeper<'a>
        ensures faults { result.faults ≡ 0 }
        ensures upgraded { upgraded_of result.place ≡ false }
    {
        FileKeeper {
            rt,
            path,
            opening,
            place: Place::Waiting,
            faults: 0,
        }
    }

    /// Counts that the file isn't open.
    fn unopened(&mut self) -> KeeperRefusal
        requires { IsUnopened self.old.place }
        ensures kind { result ≡ KeeperFault }
        ensures cause { IsCaused (faults_of self.old.faults self.old.place) (faults_of self.new.faults self.new.place) result }
        ensures upgraded { upgraded_of self.new.place ≡ upgraded_of self.old.place }
    {
        self.faults = self.faults.saturating_add(1);
        KeeperRefusal::KeeperFault
    }

    /// Opens the file where no call has asked for it yet.
    fn open(&mut self)
        ensures faults { faults_of self.new.faults self.new.place ≡ faults_of self.old.faults self.old.place }
        ensures upgraded { upgraded_of self.new.place ≡ upgraded_of self.old.place }
    {
        match self.place {
            Place::Waiting => match opened(self.rt, self.path, self.opening) {
                Ok(conn) => {
                    let keeper = SqlKeeper::counting(self.rt.alloc(), conn, self.faults);
                    self.place = Place::Open(keeper);
                }
                Err(unopened) => self.place = Place::Refused(unopened),
            },
            Place::Open(_) | Place::Refused(_) => {}
        }
    }

    /// Closes the file. Gives why it wasn't opened, where it wasn't, and whether it was closed.
    pub(crate) fn close(self) -> (Option<Unopened>, Result<(), Error>) {
        match self.place {
            Place::Waiting => (None, Ok(())),
            Place::Open(keeper) => (None, keeper.into_connection().close()),
            Place::Refused(unopened) => (Some(unopened), Ok(())),
        }
    }
}

impl Keeper for FileKeeper<'_> {
    ghost use Rattle.std.specs.Prelude.{None};
    ghost use Rattle.sql_archive.specs.FileKeepers.{faults_of, upgraded_of};

    ghost faults = { λ k. faults_of k.faults k.place };

    ghost contents = { λ _. None };

    ghost is_upgraded = { λ k. upgraded_of k.place };

    fn upgrade(&mut self) -> Result<u64, KeeperRefusal> {
        self.open();
        match &mut self.place {
            Place::Open(keeper) => keeper.upgrade(),
            Place::Waiting | Place::Refused(_) => Err(self.unopened()),
        }
    }

    fn upgraded(&self) -> bool {
        match &self.place {
            Place::Open(keeper) => keeper.upgraded(),
            Place::Waiting | Place::Refused(_) => false,
        }
    }

    fn put_day(&mut self, rows: &[DayRow]) -> Result<(), KeeperRefusal> {
        match &mut self.place {
            Place::Open(keeper) => keeper.put_day(rows),
            Place::Waiting | Place::Refused(_) => Err(self.unopened()),
        }
    }

    fn days_of(
        &mut self,
        seat: &str,
        cid: &str,
        from: &str,
        to: &str,
    ) -> Result<Vec<DayRow>, KeeperRefusal> {
        match &mut self.place {
            Place::Open(keeper) => keeper.days_of(seat, cid, from, to),
            Place::Waiting | Place::Refused(_) => Err(self.unopened()),
        }
    }

    fn last_day(&mut self) -> Result<Option<Text>, KeeperRefusal> {
        match &mut self.place {
            Place::Open(keeper) => keeper.last_day(),
            Place::Waiting | Place::Refused(_) => Err(self.unopened()),
        }
    }
}
