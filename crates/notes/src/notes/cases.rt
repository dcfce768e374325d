ghost use Rattle.std.specs.Prelude.{◌≡◌};
ghost use Rattle.words.specs.Bytes.{Text};
ghost use Rattle.events.specs.Notes.{switch_begun, opened, symbol_noted, symbol_seen, case_entered, switch_ended};
ghost use Rattle.notes.specs.Noted.{notes_of};
ghost use Rattle.notes.specs.Switches.{switch_of};

use crate::kinds::{Owner, Symbol};
use crate::notes::Notes;
use crate::notes::operations::fresh_block;
use crate::notes::rows::switch;
use crate::switches::OpenSwitch;
use meaning::faults::Cause;

impl<'n, 'm> Notes<'n, 'm> {
    // A switch begins at a place.
    pub fn open_switch(&mut self, place: usize) -> OpenSwitch
        ensures noted { (source : Text) → notes_of source self.new ≡ switch_begun place (notes_of source self.old) }
        ensures opened { (source : Text) → switch_of result ≡ opened place (notes_of source self.old) }
    {
        let number = self.count;
        self.take_number(switch(), place);
        OpenSwitch::new(number, place)
    }

    // A symbol of a case of this switch, at a place.
    pub fn symbol(&mut self, symbol: Symbol, switch: &mut OpenSwitch)
        ensures noted { (source : Text) → notes_of source self.new ≡ symbol_noted symbol.code symbol.place (switch_of switch.old) (notes_of source self.old) }
        ensures seen { switch_of switch.new ≡ symbol_seen symbol.code (switch_of switch.old) }
    {
        let again = switch.has_seen(symbol.code);
        switch.see(symbol.code);
        if !self.knows(symbol.code) {
            self.violate(Cause::Letter, symbol.place);
        } else if again {
            self.violate(Cause::Repeated, symbol.place);
        }
    }

    // The body of the case at hand begins.
    pub fn enter(&mut self, switch: &OpenSwitch)
        ensures { (source : Text) → notes_of source self.new ≡ case_entered (switch_of switch.now) (notes_of source self.old) }
    {
        self.current = fresh_block(Owner::Arms(switch.number, switch.codes));
    }

    // The switch ends.
    pub fn end_switch(&mut self, switch: OpenSwitch)
        ensures { (source : Text) → notes_of source self.new ≡ switch_ended (switch_of switch) (notes_of source self.old) }
    {
        if !switch.covers(self.letters.as_slice()) {
            self.violate(Cause::Missing, switch.first);
        }
    }
}
