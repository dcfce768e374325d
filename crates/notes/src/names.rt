// The names of modules and gotos, as stretches of the source. A name and modules come as two arguments, since a name is asked about
// and is no part of the modules.
ghost use Rattle.std.specs.Prelude.{◌≡◌, [], ◌∷◌};
ghost use Rattle.words.specs.Vocabulary.{ACCEPT, REJECT};
ghost use Rattle.meaning.specs.Faults.{named};
ghost use Rattle.draft.specs.Draft.{names_of, first_number};
ghost use Rattle.notes.specs.Kinds.{text_in, entries_of};

use crate::kinds::{Module, Span};

// The text of a stretch, as far as the source goes.
pub(crate) fn text(source: &[u8], span: Span) -> &[u8]
    ensures { result.now ≡ text_in source.now span }
{
    let start = span.start.min(source.len());
    let rest = &source[start..];
    let length = span.length.min(rest.len());
    &rest[..length]
}

// Is this a word that no module may have for a name?
fn is_reserved(name: &[u8]) -> bool
    ensures { result ≡ named name.now (ACCEPT ∷ REJECT ∷ []) }
{
    matches!(name, b"accept" | b"reject")
}

// Is this the name of one of these modules?
pub(crate) fn is_module(name: &[u8], modules: &[Module], source: &[u8]) -> bool
    ensures { result ≡ named name.now (names_of (entries_of source.now modules.now)) }
{
    modules
        .iter()
        .any(|module| name == text(source, module.name))
}

// May no further module have this name?
pub(crate) fn is_taken(name: &[u8], modules: &[Module], source: &[u8]) -> bool
    ensures { result ≡ named name.now (ACCEPT ∷ REJECT ∷ names_of (entries_of source.now modules.now)) }
{
    is_reserved(name) || is_module(name, modules, source)
}

// The number of the first block of the module with this name, or 0 where there is none.
pub(crate) fn first_number(name: &[u8], modules: &[Module], source: &[u8]) -> u32
    ensures { result ≡ first_number (entries_of source.now modules.now) name.now }
{
    let named = modules
        .iter()
        .find(|module| name == text(source, module.name));
    named.map_or(0, |module| module.first)
}
