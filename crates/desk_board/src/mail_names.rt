//! Which desk's posts go over which link.

/// The first pass of the desk whose history is followed, and the link of the posts as it was at first. A call picks them.
pub trait MailNames<L> {
    ghost use Rattle.std.specs.Prelude.{Option};
    ghost use Rattle.shared_desk.specs.Callers.{DeskPass};

    ghost first: { DeskPass };

    ghost link: { Option L };
}
