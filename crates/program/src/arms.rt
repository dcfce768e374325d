// The arms of a switch. An alphabet and arms come as two arguments: `is_known` and `has_arm` ask about one of them alone, and each of the
// others would take a struct of both apart for them.
ghost use Rattle.std.specs.Prelude.{◌≡◌, ◌+◌, ◌≤◌, length};
ghost use Rattle.meaning.specs.Codes.{member, columns};
ghost use Rattle.alphabet.specs.Alphabets.{letters_of};
ghost use Rattle.program.specs.Store.{all_among, basic_of, basic_fits, all_fit, write_fits, then_fits, then_of};
ghost use Rattle.program.specs.Arms.{codes_of, switch_fits, codes_put, slots_put};

use crate::blocks::{Arm, Basic, Then};
use alphabet::letters::Alphabet;

// Has this code a column?
fn is_known(alphabet: &Alphabet, code: u8) -> bool
    ensures { result ≡ member code (columns (letters_of alphabet.now)) }
{
    alphabet.column(code).is_some()
}

// Is there an arm with this code?
fn has_arm(arms: &[Arm<u32>], code: u8) -> bool
    ensures { result ≡ member code (codes_of arms.now) }
{
    arms.iter().any(|arm| code == arm.code)
}

// Is there an arm for each column: each letter, and blank behind them?
fn have_arms(alphabet: &Alphabet, arms: &[Arm<u32>]) -> bool
    ensures { result ≡ all_among (columns (letters_of alphabet.now)) (codes_of arms.now) }
{
    let mut letters = alphabet.letters().iter();
    letters.all(|code| has_arm(arms, *code)) && has_arm(arms, 0)
}

// Has the code of each arm a column?
fn are_known(alphabet: &Alphabet, arms: &[Arm<u32>]) -> bool
    ensures { result ≡ all_among (codes_of arms.now) (columns (letters_of alphabet.now)) }
{
    arms.iter().all(|arm| is_known(alphabet, arm.code))
}

// Is there exactly one arm for each column?
pub(crate) fn are_whole(alphabet: &Alphabet, arms: &[Arm<u32>]) -> bool
    ensures { result ≡ switch_fits (columns (letters_of alphabet.now)) (codes_of arms.now) }
{
    arms.len() == alphabet.width() as usize
        && have_arms(alphabet, arms)
        && are_known(alphabet, arms)
}

// Writes the codes of these arms, in order, from a place on.
pub(crate) fn write_codes(order: &mut [u8], base: usize, arms: &[Arm<u32>])
    requires { base + length arms.now ≤ length order.old }
    ensures { order.new ≡ codes_put base (codes_of arms.now) order.old }
{
    // By place, since of what `iter_mut` lends through a `zip` no element is known afterwards.
    for (i, arm) in arms.iter().enumerate() {
        order[base + i] = arm.code;
    }
}

// Writes the basic block of each arm into the slot of its column, in the row from a place on.
pub(crate) fn write_slots(
    slots: &mut [Basic<u32>],
    base: usize,
    alphabet: &Alphabet,
    arms: &[Arm<u32>],
)
    requires { base + length (columns (letters_of alphabet.now)) ≤ length slots.old }
    ensures { slots.new ≡ slots_put (columns (letters_of alphabet.now)) base arms.now slots.old }
{
    for arm in arms {
        if let Some(column) = alphabet.column(arm.code) {
            slots[base + column as usize] = arm.basic;
        }
    }
}

// Is what comes after one of so many numbers, or none?
fn then_fits(count: u32, then: Then<u32>) -> bool
    ensures { result ≡ then_fits count (then_of «then») }
{
    match then {
        Then::Goto(number) | Then::Next(number) => number < count,
        _ => true,
    }
}

// Is what is written, if anything, a symbol that has a column?
fn write_fits(alphabet: &Alphabet, write: Option<u8>) -> bool
    ensures { result ≡ write_fits (columns (letters_of alphabet.now)) write }
{
    write.is_none_or(|code| is_known(alphabet, code))
}

// Does a basic block write a symbol that has a column, and lead to one of so many numbers?
fn basic_fits(alphabet: &Alphabet, count: u32, basic: Basic<u32>) -> bool
    ensures { result ≡ basic_fits (columns (letters_of alphabet.now)) count (basic_of basic) }
{
    write_fits(alphabet, basic.write) && then_fits(count, basic.then)
}

// Do all of these basic blocks?
pub(crate) fn all_fit(alphabet: &Alphabet, count: u32, slots: &[Basic<u32>]) -> bool
    ensures { result ≡ all_fit (columns (letters_of alphabet.now)) count slots.now }
{
    slots.iter().all(|slot| basic_fits(alphabet, count, *slot))
}
