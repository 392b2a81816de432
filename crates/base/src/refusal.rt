// What a refused call answers: a cause, whose number is fixed, and a place.
ghost use Rattle.base.specs.Layers.{layer_number};
ghost use Rattle.base.specs.Refusals.{assigned};
ghost use Rattle.base.specs.Shown.{shown};
ghost use Rattle.std.specs.Prelude.{◌≡◌, Some};

use std::error::Error;
use std::fmt;

// The part of the whole that refuses. Each case has the number that users see.
#[derive(Clone, Copy, PartialEq, Eq, Debug)]
pub enum Layer {
    // The layout of an image.
    Layout = 1,
    // The typing of an image.
    Typing = 2,
    Machine = 3,
    Host = 4,
    // The sheet and the report.
    Sheet = 5,
}

// Why a call was refused. Each case has the number that users see. Where a comment names no other
// place, a cause found at an instruction has the word of its opcode as its place.
#[derive(Clone, Copy, PartialEq, Eq, Debug)]
pub enum Cause {
    // The layout. Places are word numbers.
    // Under 5 or over 8,192 words, or part of a word (place 0); word 4 is not the length (place 4).
    ImageSize = 1,
    // A number outside its range (its word).
    NumberRange = 2,
    // A record is cut off (the image's length), or words are left over (the first of them).
    RecordEnd = 3,
    // A label does not rise over the one before it (its word).
    LabelOrder = 4,
    // Unknown opcode, an instruction past its block's end, or ret elsewhere than at the end.
    Opcode = 5,

    // The typing.
    // Too few values on the stack, or a 17th value or local.
    StackDepth = 6,
    // No such parameter, free value or local.
    NoSuchIndex = 7,
    // A value of another type.
    TypeMismatch = 8,
    // The label is not in the channel's type.
    UnknownLabel = 9,
    // Another arity, a block with free values where none may be, or lists of other lengths.
    Arity = 10,
    // A table's free lists differ (the pair's block word), or a table does not fit its channel.
    TableMismatch = 11,

    // The machine.
    // No image is loaded (0).
    NotLoaded = 12,
    // The policy is not empty at load (0).
    PolicyNotEmpty = 13,
    // A thread is to be added, and the policy is full (0 where the policy itself answers).
    PolicyFull = 14,
    // The policy gave the number of a cell in which no thread waits (0).
    NoWaitingThread = 15,
    // No cell is free.
    NoFreeCell = 16,
    // All 256 channels are open.
    NoFreeChannel = 17,
    // 100,000,000 steps are done (0).
    StepLimit = 18,
    // Stuck: too few values, or no room on the stack or among the locals.
    StuckStack = 19,
    // Stuck: no such parameter, free value or local.
    StuckIndex = 20,
    // Stuck: a value of another kind.
    StuckKind = 21,
    // Stuck: the method table has no such label.
    StuckLabel = 22,
    // Stuck: a block to begin gets other counts than it declares.
    StuckCounts = 23,
    // A budget over 1,000,000 (0).
    BudgetRange = 24,

    // The host.
    // No answer is left (0 where the host itself answers).
    NoAnswer = 25,
    // No place is left for a told value (0 where the host itself answers).
    NoPlace = 26,
    // A list of a tape is over its size (0).
    TapeSize = 27,

    // The sheet and the report. Places of 28 to 32 are lines, counted from 1; 1 for a
    // text that stands alone.
    // The key, the order or the end of a line.
    SheetLine = 28,
    // A text is not one, or its quoting is wrong.
    BadText = 29,
    // A number is not in its decimal form, or outside its range.
    BadNumber = 30,
    // A name that is there already.
    NameTwice = 31,
    // An asked name is not among the names.
    NameUnknown = 32,
    // The image has another number of names than the sheet, or a told name is past them (0).
    NamesDiffer = 33,
    // The buffer is too short, or the place lies past its end (0).
    BufferShort = 34,
}

impl Cause {
    // The layer that it belongs to.
    pub fn layer(self) -> Layer
        ensures { layer_number result ≡ (assigned self).layer }
    {
        match self {
            Cause::ImageSize
            | Cause::NumberRange
            | Cause::RecordEnd
            | Cause::LabelOrder
            | Cause::Opcode => Layer::Layout,
            Cause::StackDepth
            | Cause::NoSuchIndex
            | Cause::TypeMismatch
            | Cause::UnknownLabel
            | Cause::Arity
            | Cause::TableMismatch => Layer::Typing,
            Cause::NotLoaded
            | Cause::PolicyNotEmpty
            | Cause::PolicyFull
            | Cause::NoWaitingThread
            | Cause::NoFreeCell
            | Cause::NoFreeChannel
            | Cause::StepLimit
            | Cause::StuckStack
            | Cause::StuckIndex
            | Cause::StuckKind
            | Cause::StuckLabel
            | Cause::StuckCounts
            | Cause::BudgetRange => Layer::Machine,
            Cause::NoAnswer | Cause::NoPlace | Cause::TapeSize => Layer::Host,
            Cause::SheetLine
            | Cause::BadText
            | Cause::BadNumber
            | Cause::NameTwice
            | Cause::NameUnknown
            | Cause::NamesDiffer
            | Cause::BufferShort => Layer::Sheet,
        }
    }

    // The refusal that has this cause, and was found at a place.
    pub fn at(self, place: usize) -> Refusal
        ensures { result ≡ record { cause = self; place = place } }
    {
        Refusal { cause: self, place }
    }
}

// A refusal: its cause, and where it was found.
#[derive(Clone, Copy, PartialEq, Eq, Debug)]
pub struct Refusal {
    pub cause: Cause,
    pub place: usize,
}

impl Refusal {
    // The number of the cause.
    pub fn number(&self) -> u8
        ensures { result ≡ (assigned self.now.cause).number }
    {
        // The cast takes the number that stands at the case; an `impl From` would only name it again.
        self.cause as u8
    }

    // The number of the layer that the cause belongs to.
    pub fn layer(&self) -> u8
        ensures { result ≡ (assigned self.now.cause).layer }
    {
        // The cast again takes the number that stands at the case.
        self.cause.layer() as u8
    }
}

impl fmt::Display for Refusal {
    ghost output = { λ r. Some (shown r) };

    fn fmt<W: fmt::Write>(&self, f: &mut fmt::Formatter<W>) -> fmt::Result {
        let number = self.number();
        let layer = self.layer();
        let place = self.place;
        write!(f, "refused={number} layer={layer} place={place}")
    }
}

impl Error for Refusal {}
