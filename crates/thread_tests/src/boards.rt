//! Two threads at one board behind a lock, and a reader that reads while the other publishes.
ghost use Rattle.std.specs.Prelude.{◌≡◌, true};
ghost use Rattle.std.specs.Thread.{IsSync};
ghost use Rattle.meter_board.specs.Words.{list_of, list_read, IsSameBoard};
ghost use Rattle.thread_tests.specs.Small.{IsSmall};

use day_rules::{MeterStep, Meters, StepKind, folded};
use meter_board::{MeterReader, StepBoard};
use std::marker::{Brand, PhantomData};
use std::sync::{Mutex, Wait};
use std::test::Fail;
use std::thread::{Threads, join};

/// How often each thread publishes.
const TURNS: u64 = 1000;

/// No number passes it before a step is taken in.
const MOST: u64 = 1 << 40;

/// Which board it is. Each call of a program picks it.
trait Naming {
    ghost use Rattle.logbook.specs.Pages.{Book};

    ghost book: { Book };
}

impl Naming for Brand {
    ghost book = { record { number = 0; log_name = 0; cells_name = 0 } };
}

/// A board that every thread knows by its name.
#[derive(Drop)]
struct Locked<R: Wait + Drop, J: Naming> {
    board: StepBoard<R>,
    of: PhantomData<J>,
    ghost named: { list_of board ≡ J.book },
}

/// A step that adds an ask with one award.
const ASKED: MeterStep = MeterStep {
    kind: StepKind::Ask,
    count: 1,
    money: 7,
};

impl<R: Wait + Drop, J: Naming> Locked<R, J> {
    /// Takes in two steps where there is room, publishes, and tells the reader.
    fn turn(&mut self, reader: &mut MeterReader) -> u64
        requires reader { list_read reader.old ≡ J.book }
        ensures reader { list_read reader.new ≡ J.book }
    {
        let _taken = take_in(&mut self.board, &[ASKED, ASKED]);
        let _shown = self.board.publish();
        self.board.tell(reader)
    }
}

/// Each number is far below the range.
fn is_small(meters: &Meters) -> bool
    ensures small { result ≡ true → IsSmall meters.now }
{
    meters.entries <= MOST
        && meters.asks <= MOST
        && meters.awards <= MOST
        && meters.wins <= MOST
        && meters.bills <= MOST
        && meters.losses <= MOST
        && meters.expired <= MOST
        && meters.reserved <= MOST
        && meters.billed <= MOST
}

/// Takes in steps; the tests stay far below the range of the meters.
fn take_in<R: Wait + Drop>(board: &mut StepBoard<R>, steps: &[MeterStep]) -> bool
    ensures same { IsSameBoard board.old board.new }
{
    let mut meters = board.meters();
    for step in steps {
        if !is_small(&meters) || step.count > MOST || step.money > MOST {
            return false;
        }
        meters = meters.after(step);
    }
    board.append(steps).is_ok()
}

/// Publishes and reads, and answers the reader and whether each read had as many entries as were told, and no fewer than
/// the one before.
fn work<R: Wait + Drop, J: Naming, W: Wait>(
    rt: &W,
    lock: &Mutex<Locked<R, J>>,
    reader: MeterReader,
) -> (MeterReader, bool)
    requires { list_read reader ≡ J.book }
    ensures { list_read result.0 ≡ J.book }
{
    let mut reader = reader;
    let mut good = true;
    let mut last = 0;
    for _turn in 0..TURNS {
        let told = lock.lock(rt).turn(&mut reader);
        let entries = reader.read().entries;
        good = good && told <= entries && last <= entries;
        last = entries;
    }
    (reader, good)
}

/// Two threads work at the board.
fn both<R: Wait + Drop + Send, J: Naming + Send, W: Wait + Threads + Sync>(
    rt: &W,
    lock: &Mutex<Locked<R, J>>,
    one: MeterReader,
    other: MeterReader,
) -> ((MeterReader, bool), (MeterReader, bool))
    requires one { list_read one ≡ J.book }
    requires other { list_read other ≡ J.book }
    ensures one { list_read result.0.0 ≡ J.book }
    ensures other { list_read result.1.0 ≡ J.book }
{
    join(
        rt,
        move || -> (MeterReader, bool)
            requires { IsSync W.row × (list_read one ≡ J.book) }
            ensures { list_read result.0 ≡ J.book }
        { work(rt, lock, one) },
        move || -> (MeterReader, bool)
            requires { IsSync W.row × (list_read other ≡ J.book) }
            ensures { list_read result.0 ≡ J.book }
        { work(rt, lock, other) },
    )
}

fn read_by_two<R: Wait + Drop + Send, J: Naming + Send, W: Wait + Threads + Sync>(
    rt: &W,
    board: StepBoard<R>,
    one: MeterReader,
    other: MeterReader,
) -> (bool, Meters, Meters)
    requires board { list_of board ≡ J.book }
    requires one { list_read one ≡ J.book }
    requires other { list_read other ≡ J.book }
{
    let lock: Mutex<Locked<R, J>> = Mutex::new(Locked {
        board,
        of: PhantomData,
    });
    let ((mut one, good), (mut other, fine)) = both::<R, J, W>(rt, &lock, one, other);
    let Locked { board, of: _ } = lock.into_inner();
    board.tell(&mut one);
    board.tell(&mut other);
    drop(board);
    (good && fine, one.read(), other.read())
}

#[test]
fn two_threads_read(rt: HostRuntime) -> Result<(), Fail> {
    let mut board = StepBoard::new(rt.alloc(), &rt, 2)?;
    let one = board.reader()?;
    let other = board.reader()?;
    let (good, mine, others) = read_by_two::<_, Brand, _>(&rt, board, one, other);
    assert!(rt; good);
    assert_eq!(rt; (mine.entries, mine.reserved), (4 * TURNS, 28 * TURNS));
    assert_eq!(rt; others, mine);
    Ok(())
}

#[test]
fn an_untold_reader_reads(rt: HostRuntime) -> Result<(), Fail> {
    let mut board = StepBoard::new(rt.alloc(), &rt, 1)?;
    let mut reader = board.reader()?;
    let taken = take_in(&mut board, &[ASKED, ASKED]);
    assert_eq!(rt; (taken, reader.read().entries), (true, 0));
    board.publish()?;
    assert_eq!(rt; reader.read().entries, 2);
    Ok(())
}

/// One row per kind of step: what it leaves of the meters after one ask with an award of 7.
#[test]
fn each_kind(rt: HostRuntime) -> Result<(), Fail> {
    let asked = folded(Meters::new(), &[ASKED]);
    for (kind, money, reserved, billed) in [
        (StepKind::Win, 0, 7, 0),
        (StepKind::Bill, 7, 0, 7),
        (StepKind::Loss, 7, 0, 0),
        (StepKind::Expire, 7, 0, 0),
        (StepKind::Budget, 0, 7, 0),
    ] {
        let step = MeterStep {
            kind,
            count: 1,
            money,
        };
        if !is_small(&asked) || money > MOST {
            return Err("the row is too large".into());
        }
        let after = asked.after(&step);
        assert_eq!(rt;
            (after.entries, after.reserved, after.billed),
            (2, reserved, billed)
        );
    }
    Ok(())
}
