ghost use Rattle.std.specs.Prelude.{◌≡◌};
ghost use Rattle.meaning.specs.Numbers.{cause_number, cause_layer};

// Why a source is refused, with its number. Causes are in the order of their numbers.
#[derive(Clone, Copy, PartialEq, Eq, PartialOrd, Ord, Debug, Drop)]
pub enum Cause {
    // the source has more than 60,000 bytes
    Length = 1,
    // a byte belongs to no word and is no separator
    Byte = 2,
    // no program can go on after a word, or the source ends too early
    Word = 3,
    // a case has the depth 17
    Depth = 4,
    // the alphabet has blank, or a letter again
    Alphabet = 5,
    // a module is named accept, reject or as an earlier one
    ModuleName = 6,
    // a goto's name is no module's
    Goto = 7,
    // a letter of a case or a changeto is not in the alphabet
    Letter = 8,
    // a symbol stands again in a switch
    Repeated = 9,
    // a symbol is missing in a switch
    Missing = 10,
    // a block's number breaks the limits
    Limit = 11,
}

// What a fault is a fault of.
#[derive(Clone, Copy, PartialEq, Eq, Debug, Drop)]
pub enum Layer {
    Bytes,
    Words,
    Rules,
}

// The first fault of a source: its place, and its cause. Faults are in the order of their places, and of their causes at one place
// (`laws::faults_in_order`), so the place stands first.
#[derive(Clone, Copy, PartialEq, Eq, PartialOrd, Ord, Debug, Drop)]
pub struct Fault {
    pub place: usize,
    pub cause: Cause,
}

impl Cause {
    // The cause's number.
    pub fn number(self) -> u8
        ensures { result ≡ cause_number self }
    {
        self as u8
    }

    // The layer that the cause belongs to.
    pub fn layer(self) -> Layer
        ensures { result ≡ cause_layer self }
    {
        match self {
            Cause::Length | Cause::Byte => Layer::Bytes,
            Cause::Word | Cause::Depth => Layer::Words,
            Cause::Alphabet
            | Cause::ModuleName
            | Cause::Goto
            | Cause::Letter
            | Cause::Repeated
            | Cause::Missing
            | Cause::Limit => Layer::Rules,
        }
    }
}
