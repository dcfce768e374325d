ghost use Rattle.std.specs.Prelude.{◌≡◌, false, slice_index_or};
ghost use Rattle.meaning.specs.Codes.{columns};
ghost use Rattle.events.specs.Notes.{another_case, symbol_seen, all_seen};
ghost use Rattle.notes.specs.Switches.{switch_of, empty_switch};

use crate::kinds::SYMBOLS;
use crate::switches::OpenSwitch;
use bounded::inline::InlineList;

impl OpenSwitch {
    // A switch before its first symbol.
    pub(crate) fn new(number: u32, first: usize) -> OpenSwitch
        ensures { switch_of result ≡ empty_switch number first }
    {
        OpenSwitch {
            number,
            first,
            seen: [false; SYMBOLS],
            codes: InlineList::new(0),
        }
    }

    // Another case of it begins.
    pub fn begin_case(&mut self)
        ensures { switch_of self.new ≡ another_case (switch_of self.old) }
    {
        self.codes = InlineList::new(0);
    }

    // One more symbol; the case keeps it if there is room.
    pub(crate) fn see(&mut self, code: u8)
        ensures { switch_of self.new ≡ symbol_seen code (switch_of self.old) }
    {
        let _ = self.codes.push(code);
        // by index, as the library doesn't say what an array holds after a write through `get_mut`
        if (code as usize) < self.seen.len() {
            self.seen[code as usize] = true;
        }
    }

    // Was this symbol seen?
    pub(crate) fn has_seen(&self, code: u8) -> bool
        ensures { result ≡ slice_index_or (switch_of self.now).seen code false }
    {
        self.seen.get(code as usize).copied().unwrap_or(false)
    }

    // Were these letters and blank seen?
    pub(crate) fn covers(&self, letters: &[u8]) -> bool
        ensures { result ≡ all_seen (columns letters.now) (switch_of self.now).seen }
    {
        // by index, as docs/DECISIONS.md wants this loop over an alphabet, in this form
        for i in 0..letters.len() {
            if !self.has_seen(letters[i]) {
                return false;
            }
        }
        self.has_seen(0)
    }
}
