//! The grammar of programs: syntax trees, their words, and the automaton that reads words to trees.
//!
//! All of it is in `specs/`. A function here carries one theorem about these definitions by its contract, and does nothing.

#![tactic(auto)]

ghost use Rattle.grammar.specs.Borders.{Borders};
ghost use Rattle.grammar.specs.Laws.{FindsDepth, FindsFaults, OneAnswer, ReadsBack, ReadsPrograms, Unambiguous};
ghost use Rattle.grammar.specs.Openings.{CountsDepth, TellsCase};
ghost use Rattle.grammar.specs.Places.{TellsPlaces};

/// A program is read exactly when the words are its words and none of its cases is too deep.
pub fn reads_programs()
    ensures { ReadsPrograms }
{}

/// A fault is told exactly at the first word after which no program goes on, or at an end that comes too early.
pub fn finds_faults()
    ensures { FindsFaults }
{}

/// A case is told as too deep exactly when the grammar allows it, and neither a fault nor another such case comes before it.
pub fn finds_depth()
    ensures { FindsDepth }
{}

/// Whatever the words, exactly one of these three answers is right.
pub fn one_answer()
    ensures { OneAnswer }
{}

/// No two programs have the same words, however deep their cases.
pub fn unambiguous()
    ensures { Unambiguous }
{}

/// Every program whose cases are not too deep is read back from its words.
pub fn reads_back()
    ensures { ReadsBack }
{}

/// The depth of a program is the greatest depth of the cases that its words begin.
pub fn counts_depth()
    ensures { CountsDepth }
{}

/// A case is told as too deep exactly at the word that begins the first one of depth 17.
pub fn tells_case()
    ensures { TellsCase }
{}

/// A fault is told at the place of its word, or of the end.
pub fn tells_places()
    ensures { TellsPlaces }
{}

/// The cases at the border.
pub fn borders()
    ensures { Borders }
{}
