ghost use Rattle.std.specs.Prelude.{◌≡◌, true};
ghost use Rattle.bounded.specs.Held.{held};
ghost use Rattle.words.specs.Bytes.{Text};
ghost use Rattle.draft.specs.Building.{fresh};
ghost use Rattle.events.specs.Notes.{no_notes, flagged, next_number};
ghost use Rattle.notes.specs.Kinds.{current_of, owner_of};
ghost use Rattle.notes.specs.Noted.{notes_of};

use crate::faults::lowest;
use crate::kinds::{Current, Module, Owner, Span};
use crate::notes::Notes;
use crate::notes::rows::unfilled;
use bounded::inline::InlineList;
use bounded::list::BoundedList;
use meaning::faults::{Cause, Fault};

// A basic block of this owner, with no command yet.
pub(super) fn fresh_block(owner: Owner) -> Current
    ensures { current_of result ≡ fresh (owner_of owner) }
{
    Current {
        owner,
        write: None,
        movement: None,
    }
}

impl<'n, 'm> Notes<'n, 'm> {
    // Before the first word; what the lists held is taken out.
    pub fn new(
        modules: &'n mut BoundedList<'m, Module>,
        gotos: &'n mut BoundedList<'m, Span>,
    ) -> Notes<'n, 'm>
        ensures { (source : Text) → notes_of source result ≡ no_notes (held modules.old).capacity (held gotos.old).capacity }
    {
        modules.clear();
        gotos.clear();
        Notes {
            modules,
            gotos,
            letters: InlineList::new(0),
            width: 1,
            count: 0,
            rows: InlineList::new(unfilled()),
            violation: None,
            current: fresh_block(Owner::Numbered(0)),
        }
    }

    // A rule is broken at a place.
    pub(super) fn violate(&mut self, cause: Cause, place: usize)
        ensures { (source : Text) → notes_of source self.new ≡ flagged true place cause (notes_of source self.old) }
    {
        let fault = Fault { cause, place };
        self.violation = Some(lowest(self.violation, fault));
    }

    // The number that comes next.
    pub fn next_number(&self) -> u32
        ensures { (source : Text) → result ≡ next_number (notes_of source self.now) }
    {
        self.count
    }
}
