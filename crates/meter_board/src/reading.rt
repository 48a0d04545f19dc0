//! The calls of a reader.
ghost use Rattle.std.specs.Prelude.{◌≡◌, Some};
ghost use Rattle.std.specs.Option.{ForSome};
ghost use mathlib.Core.List.{IsPrefix};
ghost use Rattle.logbook.specs.Pages.{Book};
ghost use Rattle.left_right.specs.Sides.{view};
ghost use Rattle.day_rules.specs.Steps.{meters_of};
ghost use Rattle.meter_board.specs.Knowing.{book_of};
ghost use Rattle.meter_board.specs.Words.{seen, list_read};

use crate::origin::Origin;
use crate::reader::{MeterReader, Sight};
use crate::shown::Shown;
use crate::views::Look;
use core::mem::replace_with;
use day_rules::{MeterView, Meters};

/// Takes a copy of what is shown, if the kit's reader finds anything.
fn look(sight: Sight) -> (Sight, Option<Shown>)
    ensures same { view result.0.place ≡ view sight.place }
    ensures book { ForSome result.1 (λ s. (b : Book) → book_of (view sight.place) ≡ Some b → s.seen.book ≡ b) }
{
    match sight.enter_as::<Look>() {
        Ok(reading) => {
            let found = reading.get().again();
            (reading.leave(), Some(found))
        }
        Err(sight) => (sight, None),
    }
}

impl MeterReader {
    /// The meters of steps that begin with all that this reader saw or heard of. It waits for nobody.
    pub fn read(&mut self) -> Meters
        ensures later { IsPrefix (seen self.old) (seen self.new) }
        ensures meters { result ≡ meters_of (seen self.new) }
        ensures of { list_read self.new ≡ list_read self.old }
    {
        let found = replace_with(
            &mut self.sight,
            (),
            |sight: Sight, _nothing: ()| -> (Sight, Option<Shown>)
                ensures { (view result.0.place ≡ view sight.place)
                    × ForSome result.1 (λ s. (b : Book) → book_of (view sight.place) ≡ Some b → s.seen.book ≡ b) }
            { look(sight) },
        );
        if let Some(found) = found {
            self.last.extend_to(&found);
        }
        self.last.meters
    }
}

impl MeterView for MeterReader {
    type Origin = Origin;

    ghost use Rattle.meter_board.specs.Words.{seen, list_read};

    ghost seen = { λ r. seen r };

    ghost origin = { λ r. list_read r };

    fn read(&mut self) -> Meters {
        MeterReader::read(self)
    }
}
