ghost use Rattle.std.specs.Prelude.{◌≡◌};
ghost use Rattle.meaning.specs.Rules.{Rules};
ghost use Rattle.machine.specs.Actions.{Sound, action_at};

use meaning::machines::Action;

// A machine by its rules: how many numbers it has, which symbols it knows, and what it does at each number and symbol.
pub trait Machine {
    ghost rules: { Self → Rules };

    // How many numbers there are.
    fn numbers(&self) -> u32
        ensures { result ≡ (rules self.now).numbers };

    // The action at a number and a symbol code, or nothing where the machine has no such number or does not know the symbol.
    // At a number below `numbers`, nothing says that the symbol is unknown.
    fn action(&self, number: u32, code: u8) -> Option<Action>
        ensures { result ≡ action_at (rules self.now) number code };

    // what each implementation proves: actions write symbol codes and lead to numbers of the machine
    ghost sound: { (m : Self) → Sound (rules m) };
}
