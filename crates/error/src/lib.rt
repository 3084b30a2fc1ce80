// Refusals: a number of document 01's table and its place, the Rust's offset when the call ends; 0 for writers and where the table says so.
#![tactic(auto)]

ghost use Rattle.std.specs.Prelude.{◌≡◌};
ghost use Rattle.error.specs.Answer.{number};

use std::fmt;

// What a call answers: what it gives, or a refusal. A writer gives how many bytes it wrote at the front of the lent output; where it refuses
// it wrote none.
pub type Result<T> = std::result::Result<T, WbmpError>;

// What is refused, as document 01's table has it. The discriminant is its number there.
#[derive(Clone, Copy, Debug, PartialEq, Eq)]
pub enum Refusal {
    // An integer ends before its last byte.
    MbiTruncated = 1,
    // An integer is above 4,294,967,295.
    MbiOverflow,
    // An integer has more than 7 bytes.
    MbiTooLong,
    // Strict: an integer starts with 0x80.
    MbiNotShortest,
    // The type is not 0.
    TypeUnsupported,
    // The FixHeader byte is missing.
    FixHeaderMissing,
    // Strict: the FixHeader byte is not 0.
    FixHeaderNotZero,
    // A width or a height is 0.
    ZeroDimension,
    // Extension fields end before their last octet or pair header.
    ExtTruncated,
    // A 4,097th octet of kind 00, or a pair that starts 4,096 or more past the first.
    ExtTooLong,
    // An identifier's length is 0, or above 7 where it is to be written.
    IdentifierLength,
    // A value's length is 0, or above 15 where it is to be written.
    ValueLength,
    // An identifier or a value is cut short.
    PairTruncated,
    // Strict: an identifier has a byte outside 0x01-0x7F.
    IdentifierClass,
    // Strict: a value has a byte that is no letter or digit.
    ValueClass,
    // The width is over its limit.
    WidthLimit,
    // The height is over its limit.
    HeightLimit,
    // The pixels are over their limit.
    PixelLimit,
    // The plane's bytes are over their limit.
    ByteLimit,
    // A plane is too short.
    PlaneTooShort,
    // There are no frames, or more than 16.
    FrameCount,
    // There are too few gray samples, or making was closed early.
    GrayTooShort,
    // There are no octets or no pairs to write.
    FieldsEmpty,
    // An octet of kind 00 to write has bit 7.
    OctetBit7,
    // The lent output is too short.
    OutputTooShort,
    // A stride is below the row.
    StrideTooSmall,
    // A plane's size passes 64 bits.
    PlaneOverflow,
    // A work or extension buffer is too short.
    BufferTooShort,
    // A rule, a side or a setting is unknown.
    UnknownSetting,
    // A session is closed.
    SessionClosed,
    // The lengths of the pairs to write do not add up to their text.
    PairLengths,
}

impl Refusal {
    // The number in the table. Not `From`: a conversion would not say which number it is.
    pub fn number(self) -> u8
        ensures { result ≡ number self }
    {
        self as u8
    }
}

impl fmt::Display for Refusal {
    fn fmt<W: fmt::Write>(&self, f: &mut fmt::Formatter<W>) -> fmt::Result {
        write!(f, "{}", self.number())
    }
}

#[derive(Clone, Copy, Debug, PartialEq, Eq)]
pub struct WbmpError {
    pub kind: Refusal,
    pub offset: usize,
}

impl WbmpError {
    pub fn new(kind: Refusal, offset: usize) -> WbmpError
        ensures { result ≡ record { kind = kind; offset = offset } }
    {
        WbmpError { kind, offset }
    }
}

// Its number and its place.
impl fmt::Display for WbmpError {
    fn fmt<W: fmt::Write>(&self, f: &mut fmt::Formatter<W>) -> fmt::Result {
        write!(f, "{} {}", self.kind, self.offset)
    }
}

impl std::error::Error for WbmpError {}

// What a feeding call of a session takes of what it is lent, samples or bytes of a file, and how many bytes it writes.
#[derive(Clone, Copy)]
pub struct Fed {
    pub taken: usize,
    pub written: usize,
}
