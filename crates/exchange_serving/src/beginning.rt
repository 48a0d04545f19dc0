//! The beginning of a day's serving: what takes memory is made, and the desk is shared.
ghost use Rattle.std.specs.Prelude.{◌≡◌, ◌≤◌, [], All, IfErr, IfOk};
ghost use Rattle.adx_desk.specs.Shared.{opened_with};
ghost use Rattle.desk_board.specs.Rooms.{HasTended};
ghost use Rattle.meter_board.specs.Words.{published, taken, IsOf as IsReaderOf};
ghost use Rattle.exchange_serving.specs.Beginning.{IsBegun};

use adx_desk::Desk;
use adx_links::Link;
use adx_units::OutOfMemory;
use day_journal::Disk;
use desk_board::{Board, Mail};
use meter_board::{MeterReader, StepBoard};
use shared_desk::SharedDesk;
use std::alloc::Global;
use std::sync::Wait;
use turnstile::Pass;

/// A desk that was just shared, with its first pass and two that were split from it.
#[derive(Drop)]
pub(crate) struct Begun<D: Disk + Drop> {
    pub(crate) shared: SharedDesk<D>,
    pub(crate) first: Pass<Desk<D>>,
    pub(crate) board: Pass<Desk<D>>,
    pub(crate) mail: Pass<Desk<D>>,
}

/// What is made before a desk is shared: an outbox that has followed the desk's history, with its link; and a board that shows
/// nothing yet, with its readers.
#[derive(Drop)]
pub(crate) struct Prepared<R: Wait + Drop, L> {
    pub(crate) mail: Mail<L>,
    pub(crate) board: StepBoard<R>,
    pub(crate) readers: Vec<MeterReader>,
}

/// A board of steps that shows nothing yet, and its readers.
fn board_of<R: Wait + Drop>(
    alloc: Global,
    rt: R,
    readers: u32,
) -> Result<(StepBoard<R>, Vec<MeterReader>), OutOfMemory>
    requires readers { (1 ≤ readers) × (readers ≤ 64) }
    ensures taken { IfOk result (λ b. taken b.0 ≡ []) }
    ensures empty { IfOk result (λ b. published b.0 ≡ []) }
    ensures of { IfOk result (λ b. All (λ r. IsReaderOf r b.0) b.1.items) }
{
    let mut board = StepBoard::new(alloc, rt, readers)?;
    let mut all = Vec::new(alloc);
    for _reader in 0..readers {
        let reader = board.reader()?;
        all.push(reader)?;
    }
    Ok((board, all))
}

/// An outbox over this link that has followed the desk's history, without a copy of it. The link is given back where memory is
/// refused.
fn mail_of<D: Disk + Drop, L: Link + Drop>(
    alloc: Global,
    desk: &Desk<D>,
    post: L,
) -> Result<Mail<L>, L>
    ensures mail { IfOk result (HasTended L.Link desk.now.desk.history post) }
    ensures link { IfOk result (λ mail. mail.link ≡ post) }
    ensures back { IfErr result (λ back. back ≡ post) }
{
    match Mail::new(alloc, post) {
        Ok(mut mail) => {
            // A desk's history is legal.
            let _ = desk.entries();
            match mail.follow(desk.entries_since(0)) {
                Ok(()) => Ok(mail),
                Err(_) => Err(mail.link),
            }
        }
        Err(refused) => {
            let (_, post) = refused;
            Err(post)
        }
    }
}

/// Makes the outbox over this link, which follows the desk's history, and a board with so many readers. The link is given back
/// where memory is refused.
pub(crate) fn prepare<R: Wait + Drop, D: Disk + Drop, L: Link + Drop>(
    alloc: Global,
    rt: R,
    desk: &Desk<D>,
    post: L,
    readers: u32,
) -> Result<Prepared<R, L>, L>
    requires readers { (1 ≤ readers) × (readers ≤ 64) }
    ensures mail { IfOk result (λ p. HasTended L.Link desk.now.desk.history post p.mail) }
    ensures link { IfOk result (λ p. p.mail.link ≡ post) }
    ensures taken { IfOk result (λ p. taken p.board ≡ []) }
    ensures empty { IfOk result (λ p. published p.board ≡ []) }
    ensures readers { IfOk result (λ p. All (λ r. IsReaderOf r p.board) p.readers.items) }
    ensures back { IfErr result (λ back. back ≡ post) }
{
    match mail_of(alloc, desk, post) {
        Ok(mail) => match board_of(alloc, rt, readers) {
            Ok(made) => {
                let (board, readers) = made;
                Ok(Prepared {
                    mail,
                    board,
                    readers,
                })
            }
            Err(_) => Err(mail.link),
        },
        Err(post) => Err(post),
    }
}

/// The board of a desk whose meters it doesn't show yet.
pub(crate) fn board_over<R: Wait + Drop, D: Disk + Drop>(
    board: StepBoard<R>,
    pass: Pass<Desk<D>>,
) -> Board<R, D>
    requires taken { taken board ≡ [] }
    requires empty { published board ≡ [] }
    ensures board { result.board ≡ board }
    ensures pass { result.pass ≡ pass }
{
    Board { board, pass }
}

/// Shares a desk, and splits two passes from the first one. The desk is lost where memory is refused.
pub(crate) fn share<D: Disk + Drop>(alloc: Global, desk: Desk<D>) -> Result<Begun<D>, OutOfMemory>
    ensures begun { IfOk result (λ b. IsBegun b.shared desk.desk.history b.first b.board b.mail) }
    ensures opened { IfOk result (λ b. b.shared.fixed ≡ opened_with desk.desk.terms desk.since) }
{
    let sharing = SharedDesk::new(alloc, desk)?;
    let (shared, mut first) = sharing;
    let board = shared.split(&mut first)?;
    let mail = shared.split(&mut first)?;
    Ok(Begun {
        shared,
        first,
        board,
        mail,
    })
}
