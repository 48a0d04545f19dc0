//! Work over the archive in a file.
use crate::file_keeper::{FileKeeper, Opening};
use crate::unopened::Unopened;
use day_archive::Keeper;
use sqlite::Error;

/// What is done over an archive.
pub trait Work {
    /// Does it over this keeper, and gives the exit status.
    fn run<P: Keeper>(self, rt: &HostRuntime, keeper: &mut P) -> u8;
}

/// What came of work over an archive.
#[derive(Drop)]
pub struct Worked {
    /// The exit status of the work.
    pub status: u8,
    /// Why the file wasn't opened, where the work asked for it and it wasn't.
    pub unopened: Option<Unopened>,
    /// Whether the file was closed. Where it wasn't, what was answered is in it and in the log beside it.
    pub closed: Result<(), Error>,
}

/// Does work over the archive in the file of this path, which is opened at the keeper's first call, and closes it.
pub fn work_on<W: Work + Drop>(rt: &HostRuntime, path: &str, opening: Opening, work: W) -> Worked {
    let mut keeper = FileKeeper::new(rt, path, opening);
    let status = work.run(rt, &mut keeper);
    let (unopened, closed) = keeper.close();
    Worked {
        status,
        unopened,
        closed,
    }
}
