// The parser: a recursive descent through the words of a source, which notes what it reads.
ghost use Rattle.std.specs.Prelude.{◌≡◌, ◌≤◌};

use notes::notes::Notes;
use words::Reader;

pub mod cases;
pub mod commands;
pub mod descent;
pub mod lexemes;
pub mod modules;
pub mod reading;

// Reads a source from word to word.
#[derive(Drop)]
pub struct Lexer<'a> {
    reader: Reader<'a>,
}

// Reads a source, and notes what it reads. Notes hold names as stretches of the source, which stands beside the lexer: no call on the lexer
// changes it, so what is noted means the same before such a call and after.
#[derive(Drop)]
pub struct Parser<'a, 'n, 'm> {
    source: &'a [u8],
    lexer: Lexer<'a>,
    notes: Notes<'n, 'm>,
    ghost same: { source.now ≡ lexer.reader.source.now },
}

// What a command does: it writes a symbol, or moves the head. Its number is its rank.
#[derive(Clone, Copy, Drop)]
pub enum Command {
    Changeto = 1,
    Move = 2,
}

// How a case begins.
#[derive(Clone, Copy, Drop)]
pub enum Head {
    If,
    While,
}

// How many cases may still stand in one another.
#[derive(Clone, Copy, Drop)]
pub struct Room {
    cases: u8,
    ghost most: { cases ≤ 16 },
}

// A case by its first word: how it begins, where, and how many cases may stand in one another there.
#[derive(Clone, Copy, Drop)]
pub struct Case {
    head: Head,
    place: usize,
    room: Room,
}
