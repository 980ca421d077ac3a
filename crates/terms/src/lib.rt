// The numbers that document 01 sets, for the code: limits and refusals. specs/ has the same for the definition.
#![tactic(auto)]

ghost use Rattle.std.specs.Prelude.{◌≡◌};
ghost use Rattle.terms.specs.Refusals.{number_of, first_of, second_of, at_bit, no_of, refusal_of};

// The most bytes that an input has.
pub const MAX_INPUT: u64 = 16_777_216;

// The most open blocks; the top level isn't one.
pub const MAX_OPEN: u64 = 32;

// The most operands of one abbreviation, an array's element included.
pub const MAX_OPERANDS: u64 = 32;

// The most shared abbreviations over all block numbers.
pub const MAX_SHARED: usize = 32;

// The most local abbreviations over all open blocks and the top level.
pub const MAX_LOCAL: usize = 32;

// The numbers of an event entry.
pub const EVENT_SIZE: usize = 8;

// Why an input is refused, by the table of document 01; what stands in brackets are a refusal's details.
#[derive(Clone, Copy, Debug, PartialEq, Eq)]
pub enum Reason {
    InvalidSignature,
    BufferOverflow,
    VbrOverflow,
    Alignment,
    InvalidAbbrev,
    UnexpectedOperand,
    // A width.
    AbbrevWidthTooSmall(u64),
    // An abbreviation's number, and the block's.
    NoSuchAbbrev(u64, u64),
    // A block's number.
    MissingEndBlock(u64),
    MissingSetBid,
    NestedBlockInBlockInfo,
    // A record's code.
    InvalidBlockInfoRecord(u64),
    ValueOverflow,
    EndOfRecord,
    InputTooLong,
    // A block's number.
    TooDeep(u64),
    NoAbbreviationRoom,
    NoEventRoom,
    NoOperandRoom,
    // A block's number.
    BlockNumberTooLarge(u64),
}

// A refusal of the walk: why, and the bit of the stream where the innermost item began.
#[derive(Clone, Copy, Debug, PartialEq, Eq)]
pub struct Refused {
    pub reason: Reason,
    pub place: u64,
}

impl Reason {
    // Its number in the table.
    pub fn number(self) -> u64
        ensures { result ≡ number_of (no_of self) }
    {
        match self {
            Reason::InvalidSignature => 1,
            Reason::BufferOverflow => 2,
            Reason::VbrOverflow => 3,
            Reason::Alignment => 4,
            Reason::InvalidAbbrev => 5,
            Reason::UnexpectedOperand => 6,
            Reason::AbbrevWidthTooSmall(_) => 7,
            Reason::NoSuchAbbrev(_, _) => 8,
            Reason::MissingEndBlock(_) => 9,
            Reason::MissingSetBid => 10,
            Reason::NestedBlockInBlockInfo => 11,
            Reason::InvalidBlockInfoRecord(_) => 12,
            Reason::ValueOverflow => 13,
            Reason::EndOfRecord => 14,
            Reason::InputTooLong => 15,
            Reason::TooDeep(_) => 16,
            Reason::NoAbbreviationRoom => 17,
            Reason::NoEventRoom => 18,
            Reason::NoOperandRoom => 19,
            Reason::BlockNumberTooLarge(_) => 20,
        }
    }

    // Its two details, and 0 for one that it does not have.
    pub fn details(self) -> (u64, u64)
        ensures first { result.0 ≡ first_of (no_of self) }
        ensures second { result.1 ≡ second_of (no_of self) }
    {
        match self {
            Reason::NoSuchAbbrev(abbreviation, block) => (abbreviation, block),
            Reason::AbbrevWidthTooSmall(width) => (width, 0),
            Reason::MissingEndBlock(block) => (block, 0),
            Reason::InvalidBlockInfoRecord(code) => (code, 0),
            Reason::TooDeep(block) => (block, 0),
            Reason::BlockNumberTooLarge(block) => (block, 0),
            _ => (0, 0),
        }
    }

    // The refusal of an item that began at the bit `place`.
    pub fn at(self, place: u64) -> Refused
        ensures { refusal_of result ≡ at_bit place (no_of self) }
    {
        Refused {
            reason: self,
            place,
        }
    }
}
