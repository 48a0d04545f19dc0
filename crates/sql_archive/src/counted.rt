//! A connection whose refused statements are counted.
ghost use Rattle.std.specs.Prelude.{◌≡◌, Err};
ghost use Rattle.sql_archive.specs.Counted.{HasEnded, IsCounted};

use crate::broken::Broken;
use sqlite::types::ValueRef;
use sqlite::{Alter, Connection, Row};

/// A connection to a database. A statement that is refused raises the count of faults, up to the count's last value, and
/// nothing else does but a value that is `counted`.
#[derive(Drop)]
pub(crate) struct Counted<S: Alter> {
    conn: Connection<S>,
    faults: u64,
}

impl<S: Alter> Counted<S> {
    /// A connection, which nothing else uses, after so many faults.
    pub(crate) fn new(conn: Connection<S>, faults: u64) -> Counted<S>
        ensures { result.faults ≡ faults }
    {
        Counted { conn, faults }
    }

    /// The connection, to be closed.
    pub(crate) fn into_connection(self) -> Connection<S>
        ensures { result ≡ self.conn }
    {
        self.conn
    }

    /// Counts a fault.
    pub(crate) fn fault(&mut self) -> Broken
        ensures { IsCounted {T = Unit} self.old.faults self.new.faults (Err result) }
    {
        self.faults = self.faults.saturating_add(1);
        Broken
    }

    /// What was answered, a refusal being counted.
    pub(crate) fn counted<T>(&mut self, answer: Result<T, Broken>) -> Result<T, Broken>
        ensures { IsCounted self.old.faults self.new.faults result }
    {
        match answer {
            Ok(value) => Ok(value),
            Err(_) => Err(self.fault()),
        }
    }

    /// Runs a statement.
    pub(crate) fn execute(&mut self, text: &str, params: &[ValueRef<'_>]) -> Result<(), Broken>
        ensures { IsCounted self.old.faults self.new.faults result }
    {
        match self.conn.execute(text, params) {
            Ok(_) => Ok(()),
            Err(_) => Err(self.fault()),
        }
    }

    /// Runs a query, and gives its rows.
    pub(crate) fn query(&mut self, text: &str, params: &[ValueRef<'_>]) -> Result<Vec<Row>, Broken>
        ensures { IsCounted self.old.faults self.new.faults result }
    {
        match self.conn.query_all(text, params) {
            Ok(rows) => Ok(rows),
            Err(_) => Err(self.fault()),
        }
    }

    /// Begins a transaction: what is run after it is kept where it is `ended` by an answer, or not at all.
    pub(crate) fn begin(&mut self) -> Result<(), Broken>
        ensures { IsCounted self.old.faults self.new.faults result }
    {
        self.execute("BEGIN", &[])
    }

    /// Keeps what was run since the transaction began.
    fn commit(&mut self) -> Result<(), Broken>
        ensures { IsCounted self.old.faults self.new.faults result }
    {
        self.execute("COMMIT", &[])
    }

    /// Undoes what was run since the transaction began, where a failure hasn't ended it already.
    fn roll_back(&mut self)
        ensures { self.new.faults ≡ self.old.faults }
    {
        let _ = self.conn.execute("ROLLBACK", &[]);
    }

    /// Commits, and gives this value.
    fn kept<T: Drop>(&mut self, value: T) -> Result<T, Broken>
        ensures { IsCounted self.old.faults self.new.faults result }
    {
        match self.commit() {
            Ok(()) => Ok(value),
            Err(broken) => {
                self.roll_back();
                Err(broken)
            }
        }
    }

    /// Ends a transaction in which this was answered: what was run in it is kept, or, after a refusal, which was counted,
    /// undone.
    pub(crate) fn ended<T: Drop>(&mut self, answer: Result<T, Broken>) -> Result<T, Broken>
        ensures { HasEnded answer self.old.faults self.new.faults result }
    {
        match answer {
            Ok(value) => self.kept(value),
            Err(broken) => {
                self.roll_back();
                Err(broken)
            }
        }
    }
}
