//! The theorems.

ghost use Rattle.meaning.specs.Borders.{Borders};
ghost use Rattle.meaning.specs.Codes.{CodesAre};
ghost use Rattle.meaning.specs.Completed.{Completion};
ghost use Rattle.meaning.specs.Equal.{AnswersEqual};
ghost use Rattle.meaning.specs.Exact.{Exact};
ghost use Rattle.meaning.specs.Examples.{Examples};
ghost use Rattle.meaning.specs.Faults.{TellsLowest};
ghost use Rattle.meaning.specs.FaultOrder.{FaultsInOrder};
ghost use Rattle.meaning.specs.Follows.{BlocksFollow, TablesFollow, ExecutesAlike};
ghost use Rattle.meaning.specs.Laws.{Agreement, Composition, KeepsTapes, NoShape};
ghost use Rattle.meaning.specs.NextBlock.{NextBlocks};
ghost use Rattle.meaning.specs.Points.{NumbersArePoints};
ghost use Rattle.meaning.specs.Print.{PrintsBack, TranslatesWithin};
ghost use Rattle.meaning.specs.RuleLaws.{RulesAre};
ghost use Rattle.meaning.specs.Sources.{AcceptedSources};
ghost use Rattle.meaning.specs.Splits.{SplitsFewest, NumbersInOrder};
ghost use Rattle.meaning.specs.Tables.{NewAndSet};
ghost use Rattle.meaning.specs.Text.{RoundTrip};

// ---- Sources.

// A source is accepted exactly when it is that of a program that keeps the rules; otherwise exactly its first fault is told.
pub fn exact_outcome()
    ensures { Exact }
{}

// What is told of a program that breaks rules is its lowest violation.
pub fn tells_lowest()
    ensures { TellsLowest }
{}

// Faults are ordered as their violations are: by their places, and there by their causes' numbers.
pub fn faults_in_order()
    ensures { FaultsInOrder }
{}

// When no violation has a cause, in the words of the subject, for each cause.
pub fn rules_are()
    ensures { RulesAre }
{}

// Symbols have the codes 0 to 36, one each.
pub fn codes_are()
    ensures { CodesAre }
{}

// What holds of every accepted source: agreement, the ranges of its table, and the round trip.
pub fn accepted_sources()
    ensures { AcceptedSources }
{}

// ---- Blocks.

// The basic blocks of a body have its commands in order, and no split by rank has fewer.
pub fn splits_fewest()
    ensures { SplitsFewest }
{}

// Numbers run in the order of the blocks' first words.
pub fn numbers_in_order()
    ensures { NumbersInOrder }
{}

// Numbers are points of the program: each does at each symbol what the language does there.
pub fn numbers_are_points()
    ensures { NumbersArePoints }
{}

// A basic block without flow leads to the block right behind it in its body.
pub fn next_blocks()
    ensures { NextBlocks }
{}

// ---- Runs.

// A program's blocks and its table give equal answers and equal configurations, for every list of calls.
pub fn agreement()
    ensures { Agreement }
{}

// Two goes, joined, are one.
pub fn composition()
    ensures { Composition }
{}

// Every call keeps the ranges of a tape.
pub fn keeps_tapes()
    ensures { KeepsTapes }
{}

// `==` tells of two answers whether they are of one kind, with the same parts, and so whether they are equal.
pub fn answers_equal()
    ensures { AnswersEqual }
{}

// No call on a tape answers `Shape`.
pub fn no_shape()
    ensures { NoShape }
{}

// ---- Tables and their texts.

// What new and set make is within the ranges, and set replaces one entry.
pub fn new_and_set()
    ensures { NewAndSet }
{}

// The table of every program that keeps the rules is within the ranges.
pub fn translates_within()
    ensures { TranslatesWithin }
{}

// Every table within the ranges, as a program, keeps the rules and translates back to the table.
pub fn prints_back()
    ensures { PrintsBack }
{}

// The text of every table within the ranges has at most 52,344 bytes, is accepted, and translates back to the table.
pub fn round_trip()
    ensures { RoundTrip }
{}

// What print gives for a program's translation is its completed program.
pub fn completion()
    ensures { Completion }
{}

// ---- Execution on tapes without ends.

// Up to the first refused step, runs by blocks are the language's execution.
pub fn blocks_follow()
    ensures { BlocksFollow }
{}

// Up to the first refused step, runs by a table are the Turing machine's execution.
pub fn tables_follow()
    ensures { TablesFollow }
{}

// A program and its Turing machine execute in the same way.
pub fn executes_alike()
    ensures { ExecutesAlike }
{}

// ---- By computation.

// Sources and tapes at the border.
pub fn borders()
    ensures { Borders }
{}

// Published examples of the language.
pub fn examples()
    ensures { Examples }
{}
