// The descent: a function for each rule of the grammar, which notes what it reads.
ghost use Rattle.std.specs.Prelude.{[], ◌∷◌};
ghost use Rattle.events.specs.Event.{begin_switch, next_switch};
ghost use Rattle.events.specs.Descent.{a_letter, letters_end, a_written, a_direction, a_symbol, symbols_end, once_end, move_end, body_end, acted_end, edges, flow_edges};
ghost use Rattle.compiler.specs.Reading.{around, argument_of, Reads, ReadsIn, last_move, target_end, Finishes, Continues, ends_body, EndsSwitch, Switches, Enters};

use super::lexemes::{span_of, unexpected};
use super::{Case, Command, Head, Parser, Room};
use meaning::faults::{Cause, Fault};
use notes::kinds::Then;
use notes::switches::OpenSwitch;
use words::{Keyword, Mark, Token, Word};

impl<'a, 'n, 'm> Parser<'a, 'n, 'm> {
    // The letters of the alphabet, and the brace behind them.
    pub(super) fn letters(&mut self) -> Result<(), Fault>
        ensures { Reads result (a_letter ∷ letters_end ∷ []) self.old self.new }
    {
        loop {
            let letter = self.lexer.symbol()?;
            self.notes.letter(letter);
            let word = self.lexer.take()?;
            match word.token() {
                Some(Token::Mark(Mark::Comma, _)) => {}
                Some(Token::Mark(Mark::Close, _)) => return Ok(()),
                _ => return Err(unexpected(word.place)),
            }
        }
    }

    // The symbols of a case, and the brace behind them.
    // It shares no loop with `letters`: what a symbol notes, the mark that ends them and what that notes differ; the comma is all that is alike.
    fn symbols(&mut self, switch: &mut OpenSwitch) -> Result<(), Fault>
        ensures { ReadsIn result (a_symbol ∷ symbols_end ∷ []) self.old switch.old self.new switch.new }
    {
        loop {
            let symbol = self.lexer.symbol()?;
            self.notes.symbol(symbol, switch);
            let word = self.lexer.take()?;
            match word.token() {
                Some(Token::Mark(Mark::Comma, _)) => {}
                Some(Token::Mark(Mark::Open, _)) => {
                    self.notes.enter(switch);
                    return Ok(());
                }
                _ => return Err(unexpected(word.place)),
            }
        }
    }

    // The symbol of a changeto.
    fn written(&mut self) -> Result<(), Fault>
        ensures { Reads result (a_written ∷ []) self.old self.new }
    {
        let symbol = self.lexer.symbol()?;
        self.notes.write(symbol);
        Ok(())
    }

    // The direction of a move.
    fn moved(&mut self) -> Result<(), Fault>
        ensures { Reads result (a_direction ∷ []) self.old self.new }
    {
        let direction = self.lexer.direction()?;
        self.notes.turn(direction);
        Ok(())
    }

    // What a command says behind its first word.
    fn argument(&mut self, command: Command) -> Result<(), Fault>
        ensures { Reads result (argument_of command ∷ []) self.old self.new }
    {
        match command {
            Command::Changeto => self.written(),
            Command::Move => self.moved(),
        }
    }

    // Finishes a basic block, with a verdict, and the brace behind it.
    fn verdict(&mut self, then: Then) -> Result<(), Fault>
        ensures { Finishes result then self.old self.new }
    {
        self.notes.finish(then);
        self.lexer.mark(Mark::Close)?;
        Ok(())
    }

    // The name of a goto, and the brace behind it.
    fn target(&mut self) -> Result<(), Fault>
        ensures { Reads result target_end self.old self.new }
    {
        let name = self.lexer.name()?;
        self.notes.jump(span_of(name));
        self.lexer.mark(Mark::Close)?;
        Ok(())
    }

    // A flow whose first word is taken, and the brace behind it.
    fn flow(&mut self, word: Word<'a>) -> Result<(), Fault>
        ensures { Continues result (flow_edges []) word.entry self.old self.new }
    {
        match word.token() {
            Some(Token::Keyword(Keyword::Accept, _)) => self.verdict(Then::Accept),
            Some(Token::Keyword(Keyword::Reject, _)) => self.verdict(Then::Reject),
            Some(Token::Keyword(Keyword::Goto, _)) => self.target(),
            _ => Err(unexpected(word.place)),
        }
    }

    // The end of a switch, where this word is its brace.
    fn switch_end(&mut self, switch: OpenSwitch, word: Word<'a>) -> Result<(), Fault>
        ensures { EndsSwitch result word.entry self.old switch self.new }
    {
        match word.token() {
            Some(Token::Mark(Mark::Close, _)) => {
                self.notes.end_switch(switch);
                Ok(())
            }
            _ => Err(unexpected(word.place)),
        }
    }

    // The direction of a while case's move, and the brace behind it.
    fn last_move(&mut self) -> Result<(), Fault>
        ensures { Reads result last_move self.old self.new }
    {
        self.moved()?;
        self.lexer.mark(Mark::Close)?;
        self.notes.finish(Then::Again);
        Ok(())
    }

    // What may follow a while case's changeto, and the brace behind it.
    fn move_end(&mut self) -> Result<(), Fault>
        ensures { Reads result (move_end ∷ []) self.old self.new }
    {
        let word = self.lexer.take()?;
        match word.token() {
            Some(Token::Keyword(Keyword::Move, _)) => self.last_move(),
            Some(Token::Mark(Mark::Close, _)) => {
                self.notes.finish(Then::Again);
                Ok(())
            }
            _ => Err(unexpected(word.place)),
        }
    }

    // The commands of a while case, and the brace behind them.
    fn once(&mut self) -> Result<(), Fault>
        ensures { Reads result (once_end ∷ []) self.old self.new }
    {
        let word = self.lexer.take()?;
        match Command::of(word) {
            Some(Command::Changeto) => {
                self.written()?;
                self.move_end()
            }
            Some(Command::Move) => self.last_move(),
            None => Err(unexpected(word.place)),
        }
    }

    // The body of a case, and the brace behind it.
    #[cycle(in_case)]
    fn body(&mut self, room: Room) -> Result<(), Fault>
        ensures { Reads result (body_end (around room) ∷ []) self.old self.new }
    {
        let word = self.lexer.take()?;
        self.commands(word, room)
    }

    // A body whose first word is taken, and whose first basic block is under construction.
    #[cycle(in_case)]
    pub(super) fn commands(&mut self, word: Word<'a>, room: Room) -> Result<(), Fault>
        ensures { Continues result (edges (body_end (around room))) word.entry self.old self.new }
    {
        let Some(command) = Command::of(word) else {
            return self.flow(word);
        };
        self.argument(command)?;
        self.acted(room)
    }

    // What follows a command in a body, and the brace behind it.
    #[cycle(in_case)]
    fn acted(&mut self, room: Room) -> Result<(), Fault>
        ensures { Reads result (acted_end (around room) ∷ []) self.old self.new }
    {
        loop {
            let word = self.lexer.take()?;
            let Some(command) = Command::of(word) else {
                return self.last(word, room);
            };
            self.notes.command(command.rank(), word.place);
            self.argument(command)?;
        }
    }

    // What ends a body behind commands, whose first word is taken: a switch, a flow or nothing, and the brace.
    #[cycle(in_case)]
    fn last(&mut self, word: Word<'a>, room: Room) -> Result<(), Fault>
        ensures { Continues result (ends_body (around room)) word.entry self.old self.new }
    {
        if let Some(case) = Case::of(word, room) {
            return self.next_switch(case);
        }
        match word.token() {
            Some(Token::Mark(Mark::Close, _)) => {
                self.notes.finish(Then::End);
                Ok(())
            }
            _ => self.flow(word),
        }
    }

    // A switch behind commands, whose first word is taken, and the brace behind it.
    #[cycle(in_case)]
    fn next_switch(&mut self, first: Case) -> Result<(), Fault>
        ensures { Switches result next_switch first self.old self.new }
    {
        let number = self.notes.next_number();
        self.notes.finish(Then::Next(number));
        self.switch(first)
    }

    // A switch whose first word is taken, and the brace behind it.
    #[cycle(in_case)]
    pub(super) fn switch(&mut self, first: Case) -> Result<(), Fault>
        ensures { Switches result begin_switch first self.old self.new }
    {
        let mut switch = self.notes.open_switch(first.place);
        self.case(&mut switch, first)?;
        loop {
            let word = self.lexer.take()?;
            let Some(case) = Case::of(word, first.room) else {
                return self.switch_end(switch, word);
            };
            switch.begin_case();
            self.case(&mut switch, case)?;
        }
    }

    // A case whose first word is taken.
    #[cycle(in_case)]
    fn case(&mut self, switch: &mut OpenSwitch, case: Case) -> Result<(), Fault>
        ensures { Enters result case self.old switch.old self.new switch.new }
    {
        let too_deep = Fault {
            cause: Cause::Depth,
            place: case.place,
        };
        let room = case.room.inner().ok_or(too_deep)?;
        self.symbols(switch)?;
        match case.head {
            Head::If => self.body(room),
            Head::While => self.once(),
        }
    }
}
