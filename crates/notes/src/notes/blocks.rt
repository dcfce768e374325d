ghost use Rattle.std.specs.Prelude.{◌≡◌};
ghost use Rattle.words.specs.Bytes.{Text};
ghost use Rattle.draft.specs.Building.{last_rank};
ghost use Rattle.events.specs.Notes.{begun, basic_begun, command_noted, turn_noted, finished};
ghost use Rattle.notes.specs.Kinds.{then_of, current_of};
ghost use Rattle.notes.specs.Noted.{notes_of, kind_of};

use crate::kinds::{Basic, Current, Owner, Span, Then};
use crate::notes::operations::fresh_block;
use crate::notes::rows::{fill, unfilled};
use crate::notes::{Block, Notes};
use meaning::faults::Cause;
use program::limits::too_many;
use tape::kinds::Direction;

// The rank of the last command of a basic block, or 0: a number, to be compared with those that `command` is given.
fn last_rank(current: &Current) -> u8
    ensures { result ≡ last_rank (current_of current.now) }
{
    if current.movement.is_some() {
        2
    } else if current.write.is_some() {
        1
    } else {
        0
    }
}

impl<'n, 'm> Notes<'n, 'm> {
    // A block takes the next number, at a place; it is kept if it is within the limits.
    pub(super) fn take_number(&mut self, row: Block<Span>, place: usize)
        ensures { (source : Text) → notes_of source self.new ≡ begun place (kind_of source row) (notes_of source self.old) }
    {
        let over = too_many(self.count, self.width);
        self.count = self.count.saturating_add(1);
        if over {
            self.violate(Cause::Limit, place);
        } else {
            let _ = self.rows.push(row);
        }
    }

    // A basic block takes the next number, at a place, and is under construction.
    pub fn begin(&mut self, place: usize)
        ensures { (source : Text) → notes_of source self.new ≡ basic_begun place (notes_of source self.old) }
    {
        let number = self.count;
        self.take_number(unfilled(), place);
        self.current = fresh_block(Owner::Numbered(number));
    }

    // The direction of a move.
    pub fn turn(&mut self, direction: Direction)
        ensures { (source : Text) → notes_of source self.new ≡ turn_noted direction (notes_of source self.old) }
    {
        self.current.movement = Some(direction);
    }

    // The basic block under construction is finished.
    pub fn finish(&mut self, then: Then)
        ensures { (source : Text) → notes_of source self.new ≡ finished (then_of source then) (notes_of source self.old) }
    {
        let basic = Basic {
            write: self.current.write,
            movement: self.current.movement,
            then,
        };
        fill(&mut self.rows, self.current.owner, basic);
    }

    // A command of this rank behind another, at a place: it begins a block, unless its rank is higher.
    // A rank is a number, as any is answered here: an enum would ask more of callers.
    pub fn command(&mut self, rank: u8, place: usize)
        ensures { (source : Text) → notes_of source self.new ≡ command_noted rank place (notes_of source self.old) }
    {
        if last_rank(&self.current) >= rank {
            self.finish(Then::Next(self.count));
            self.begin(place);
        }
    }
}
