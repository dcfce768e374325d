ghost use Rattle.std.specs.Prelude.{◌≡◌};
ghost use Rattle.words.specs.Bytes.{Text};
ghost use Rattle.events.specs.Notes.{name_noted, jump_noted, told};
ghost use Rattle.notes.specs.Kinds.{text_in, entries_of, pending_of, violation_of};
ghost use Rattle.notes.specs.Noted.{notes_of, name_told, goto_told};

use crate::faults::{is_known_before, lowest};
use crate::kinds::{Module, Span, Then};
use crate::names::{is_module, is_taken, text};
use crate::notes::Notes;
use meaning::faults::{Cause, Fault};

// The lowest violation, after one more where a goto's name is no module's; nothing is looked up where one is known before it.
fn resolve(goto: Span, modules: &[Module], source: &[u8], violation: Option<Fault>) -> Option<Fault>
    ensures { violation_of result ≡ goto_told (entries_of source.now modules.now) (pending_of source.now goto) (violation_of violation) }
{
    if is_known_before(goto.start, violation) || is_module(text(source, goto), modules, source) {
        return violation;
    }
    let fault = Fault {
        cause: Cause::Goto,
        place: goto.start,
    };
    Some(lowest(violation, fault))
}

impl<'n, 'm> Notes<'n, 'm> {
    // A module's name, of which a violation is told unless one is known before it.
    fn check_name(&mut self, source: &[u8], name: Span)
        ensures { notes_of source.now self.new ≡ name_told (text_in source.now name) name.start (notes_of source.now self.old) }
    {
        if is_known_before(name.start, self.violation) {
            return;
        }
        if is_taken(text(source, name), self.modules.before(), source) {
            self.violate(Cause::ModuleName, name.start);
        }
    }

    // A module's name; the module's first block has the next number.
    pub fn name(&mut self, source: &[u8], name: Span)
        ensures { notes_of source.now self.new ≡ name_noted (text_in source.now name) name.start (notes_of source.now self.old) }
    {
        self.check_name(source, name);
        let module = Module {
            name,
            first: self.count,
        };
        let _ = self.modules.push(module);
    }

    // A goto's name.
    pub fn jump(&mut self, name: Span)
        ensures { (source : Text) → notes_of source self.new ≡ jump_noted (text_in source name) name.start (notes_of source self.old) }
    {
        self.finish(Then::Goto(name));
        let _ = self.gotos.push(name);
    }

    // The lowest violation after the last word: the gotos against the names of all modules.
    pub fn tell(&self, source: &[u8]) -> Option<Fault>
        ensures { violation_of result ≡ told (notes_of source.now self.now) }
    {
        let modules = self.modules.before();
        let gotos = self.gotos.before().iter();
        gotos.fold(
            self.violation,
            |violation, goto| resolve(*goto, modules, source, violation),
        )
    }
}
