//! The theorems.

ghost use Rattle.events.specs.Laws.{Follows, MakesDrafts, KeepsAll, Descends};

// The descent reads what the grammar reads, and plays the events of the tree, each at the place of its word.
pub fn follows()
    ensures { Follows }
{}

// Events make of a draft what their tree makes, at any rising places.
pub fn makes_drafts()
    ensures { MakesDrafts }
{}

// What is kept in memory of fixed size tells what the draft tells.
pub fn keeps_all()
    ensures { KeepsAll }
{}

// What the descent comes to tells the outcome of its source.
pub fn descends()
    ensures { Descends }
{}
