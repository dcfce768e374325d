ghost use Rattle.std.specs.Prelude.{◌≡◌, Some};
ghost use Rattle.meaning.specs.Outcome.{outcome};
ghost use Rattle.meaning.specs.Rules.{by_blocks, basic_action};
ghost use Rattle.program.specs.Store.{basic_of};
ghost use Rattle.program.specs.Ranges.{Ranges};
ghost use Rattle.program.specs.Stored.{compiled, first_program, first_source, said};
ghost use Rattle.program.specs.Sound.{program_sound};

use crate::blocks::{Basic, Then};
use crate::builder::Builder;
use crate::program::Program;
use alphabet::letters::Alphabet;
use machine::machine::Machine;
use meaning::machines::{Action, Next};
use tape::kinds::Direction;

// The action of a basic block of the block `number`: left where no move is written, reject at the end of a body.
fn act(number: u32, basic: Basic<u32>) -> Action
    ensures { result ≡ basic_action number (basic_of basic) }
{
    let next = match basic.then {
        Then::Again => Next::To(number),
        Then::Accept => Next::Accept,
        Then::Reject | Then::End => Next::Reject,
        Then::Goto(other) | Then::Next(other) => Next::To(other),
    };
    Action {
        write: basic.write,
        direction: basic.movement.unwrap_or(Direction::Left),
        next,
    }
}

impl Program {
    // The program `alphabet={a}module m{reject}`.
    pub fn new() -> Program
        ensures program { compiled result ≡ first_program }
        ensures source { said (outcome first_source) ≡ Some (compiled result) }
    {
        let mut builder = Builder::new(Alphabet::single());
        builder
            .push_basic(Basic {
                write: None,
                movement: None,
                then: Then::Reject,
            })
            .unwrap();
        builder.finish().unwrap()
    }

    // Every program keeps the ranges.
    pub fn ranges(&self)
        ensures { Ranges (compiled self.now) }
    {}

    // The letters of the alphabet, as codes in order of writing.
    pub fn letters(&self) -> &[u8]
        ensures { result.now ≡ (compiled self.now).letters }
    {
        self.store.alphabet.letters()
    }
}

impl Machine for Program {
    ghost rules = { λ p. by_blocks (compiled p) };

    ghost sound = { program_sound };

    #[tactic(auto, using(crate::proofs::Rows::counted))]
    fn numbers(&self) -> u32 {
        self.store.count() as u32
    }

    fn action(&self, number: u32, code: u8) -> Option<Action> {
        Some(act(number, self.store.basic(number, code)?))
    }
}
