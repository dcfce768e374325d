//! The theorems.

ghost use Rattle.draft.specs.Bounds.{WordsTake, Pieces, Counts, Bounds};
ghost use Rattle.draft.specs.Laws.{TellsFirst, KeepsLetters, KeepsBlocks, Finishes, Trims};
ghost use Rattle.draft.specs.Outcome.{ViolationsWithin, TellsOutcome};
ghost use Rattle.draft.specs.Places.{KeepsPlaces, PlacesRise};

// The violation that a draft tells is the first of its program.
pub fn tells_first()
    ensures { TellsFirst }
{}

// The letters of a program without violations are those of its alphabet.
pub fn keeps_letters()
    ensures { KeepsLetters }
{}

// The blocks of a program without violations are the program's.
pub fn keeps_blocks()
    ensures { KeepsBlocks }
{}

// A finished draft without violations stands for the program as it is stored.
pub fn finishes()
    ensures { Finishes }
{}

// Blocks may be dropped once a violation is known.
pub fn trims()
    ensures { Trims }
{}

// What is noted at places is what is noted at indexes, wherever places rise.
pub fn keeps_places()
    ensures { KeepsPlaces }
{}

// The places of a source's words rise.
pub fn places_rise()
    ensures { PlacesRise }
{}

// Every violation stands at a word of its program.
pub fn violations_within()
    ensures { ViolationsWithin }
{}

// The outcome of a source whose words are a program's, and what is stored after it, are told by the draft by places.
pub fn tells_outcome()
    ensures { TellsOutcome }
{}

// The words of a source take their bytes, and one more between two words of letters and digits.
pub fn words_take()
    ensures { WordsTake }
{}

// The fewest bytes that the pieces of a program take.
pub fn pieces()
    ensures { Pieces }
{}

// What a draft gets to hold with each piece of a program.
pub fn counts()
    ensures { Counts }
{}

// A source of at most 60,000 bytes has at most 3,749 modules and at most 5,000 gotos.
pub fn bounds()
    ensures { Bounds }
{}
