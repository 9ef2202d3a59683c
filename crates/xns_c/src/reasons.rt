//! What is wrong with a text in Courier's notation, and what a node of a table stands for, by number.

ghost use Rattle.std.specs.Prelude.{◌≡◌};
ghost use Rattle.xns_c.specs.Reasons.{kind_number, name_number, notation_number, program_reason_number};

use courier_notation::Reason;
use courier_programs::{NameReason, ProgramReason};
use courier_types::Predefined;
use program_tables::NodeKind;

/// What is wrong with tokens, or how they follow one another.
fn notation_number(reason: Reason) -> u32
    ensures { result ≡ notation_number reason }
{
    match reason {
        Reason::TooLong => 1,
        Reason::BadByte => 2,
        Reason::HugeNumber => 3,
        Reason::LongName => 4,
        Reason::OpenString => 5,
        Reason::TooManyTokens => 6,
        Reason::NoType => 11,
        Reason::NoConstant => 12,
        Reason::NoProgram => 13,
        Reason::NoVersion => 14,
        Reason::NoBegin => 15,
        Reason::NoEnd => 16,
        Reason::NoUpon => 17,
        Reason::NoEqual => 18,
        Reason::NoSemicolon => 19,
        Reason::NoDot => 20,
        Reason::NoName => 21,
        Reason::NoNumber => 22,
        Reason::LargeNumber => 23,
        Reason::NoOf => 24,
        Reason::NoArrow => 25,
        Reason::NoColon => 26,
        Reason::NoOpenBrace => 27,
        Reason::NoCloseBrace => 28,
        Reason::NoOpenBracket => 29,
        Reason::NoCloseBracket => 30,
        Reason::NoOpenParenthesis => 31,
        Reason::NoCloseParenthesis => 32,
        Reason::TooDeep => 33,
        Reason::TooManyParts => 34,
        Reason::TooManyDeclarations => 35,
        Reason::Trailing => 36,
    }
}

/// What is wrong with a name.
fn name_number(reason: NameReason) -> u32
    ensures { result ≡ name_number reason }
{
    match reason {
        NameReason::DoubledName => 41,
        NameReason::DoubledWord => 42,
        NameReason::DoubledNumber => 43,
        NameReason::DoubledProgram => 44,
        NameReason::UnknownName => 45,
        NameReason::UnknownProgram => 46,
        NameReason::NotRead => 47,
        NameReason::NotNumber => 48,
        NameReason::NotEnumeration => 49,
        NameReason::OtherNumber => 50,
        NameReason::NoDesignator => 51,
        NameReason::Recursive => 52,
        NameReason::TooDeep => 53,
        NameReason::NoWords => 54,
        NameReason::TooLarge => 55,
    }
}

/// What is wrong with a text.
pub fn program_reason_number(reason: ProgramReason) -> u32
    ensures { result ≡ program_reason_number reason }
{
    match reason {
        ProgramReason::Notation(reason) => notation_number(reason),
        ProgramReason::Name(reason) => name_number(reason),
    }
}

/// What a node stands for.
pub fn kind_number(kind: NodeKind) -> u32
    ensures { result ≡ kind_number kind }
{
    match kind {
        NodeKind::Predefined(Predefined::Boolean) => 1,
        NodeKind::Predefined(Predefined::Cardinal) => 2,
        NodeKind::Predefined(Predefined::LongCardinal) => 3,
        NodeKind::Predefined(Predefined::Integer) => 4,
        NodeKind::Predefined(Predefined::LongInteger) => 5,
        NodeKind::Predefined(Predefined::Unspecified) => 6,
        NodeKind::Predefined(Predefined::Text) => 7,
        NodeKind::Enumeration => 8,
        NodeKind::Member => 9,
        NodeKind::Array => 10,
        NodeKind::Sequence => 11,
        NodeKind::Record => 12,
        NodeKind::Choice => 13,
        NodeKind::Candidate => 14,
        NodeKind::Constant => 15,
        NodeKind::Procedure => 16,
        NodeKind::Error => 17,
    }
}
