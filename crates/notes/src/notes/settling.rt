// The gotos of notes, which lead to names, settled to the numbers of modules.
ghost use Rattle.std.specs.Prelude.{◌≡◌};
ghost use Rattle.bounded.specs.Inline.{items_of};
ghost use Rattle.meaning.specs.Blocks.{settled_then, settled_basic, settled_arms};
ghost use Rattle.program.specs.Store as stored;
ghost use Rattle.program.specs.Arms.{arms_in};
ghost use Rattle.notes.specs.Kinds.{text_in, then_of};
ghost use Rattle.notes.specs.Settled.{number_among};

use crate::kinds::{Arm, Basic, Module, SYMBOLS, Then};
use crate::names::{first_number, text};
use bounded::inline::InlineList;
use program::blocks::{self, UNUSED};

// What comes after a basic block.
fn settle_then(after: Then, modules: &[Module], source: &[u8]) -> blocks::Then<u32>
    ensures { stored.then_of result ≡ settled_then (number_among source.now modules.now) (then_of source.now after) }
{
    match after {
        Then::Again => blocks::Then::Again,
        Then::Accept => blocks::Then::Accept,
        Then::Reject => blocks::Then::Reject,
        Then::Goto(name) => blocks::Then::Goto(first_number(text(source, name), modules, source)),
        Then::Next(number) => blocks::Then::Next(number),
        Then::End => blocks::Then::End,
    }
}

// A basic block.
pub(super) fn settle_basic(basic: Basic, modules: &[Module], source: &[u8]) -> blocks::Basic<u32>
    ensures { stored.basic_of result ≡ settled_basic (number_among source.now modules.now) (stored.basic_as (text_in source.now) basic) }
{
    blocks::Basic {
        write: basic.write,
        movement: basic.movement,
        then: settle_then(basic.then, modules, source),
    }
}

// The arms of a switch.
pub(super) fn settle_arms(
    arms: &InlineList<Arm, SYMBOLS>,
    modules: &[Module],
    source: &[u8],
) -> InlineList<blocks::Arm<u32>, SYMBOLS>
    ensures { arms_in (items_of result) ≡ settled_arms (number_among source.now modules.now) (stored.arms_as (text_in source.now) (items_of arms.now)) }
{
    let mut settled = InlineList::new(blocks::Arm {
        code: 0,
        basic: UNUSED,
    });
    for arm in arms.as_slice() {
        let _ = settled.push(blocks::Arm {
            code: arm.code,
            basic: settle_basic(arm.basic, modules, source),
        });
    }
    settled
}
