//! Which desk's meters a board shows, and on which list.

/// The first pass of the desk whose meters are shown, and the list that readers read. A call picks them.
pub trait BoardNames {
    ghost use Rattle.logbook.specs.Pages.{Book};
    ghost use Rattle.shared_desk.specs.Callers.{DeskPass};

    ghost first: { DeskPass };

    ghost book: { Book };
}
