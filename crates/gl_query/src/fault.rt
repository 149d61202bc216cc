//! Why a text is no accepted statement.

ghost use Rattle.std.specs.Prelude.{◌≡◌};
ghost use Rattle.gl_query.specs.declared.fault.QueryFault.TheVariants as fault;

use gl_bits::Memory as NoMemory;
use thiserror::Error;

/// What is wrong with the text of a statement. Each place is a byte of the text, counted from 0.
#[derive(Debug, Drop, Error)]
pub enum QueryFault {
    /// No statement begins with the tokens up to the one at this byte.
    #[error("no statement goes on like this at byte {at}")]
    Syntax { at: u64 },
    /// A source that is neither a stream of the schema nor the variable of the body around.
    #[error("unknown stream at byte {at}")]
    UnknownStream { at: u64 },
    /// A column that the source does not have.
    #[error("unknown column at byte {at}")]
    UnknownColumn { at: u64 },
    /// Operands whose kinds do not go together.
    #[error("kinds differ at byte {at}")]
    KindsDiffer { at: u64 },
    /// A literal that does not fit its kind.
    #[error("literal too wide at byte {at}")]
    LiteralTooWide { at: u64 },
    /// A condition that is not one bit wide.
    #[error("no condition at byte {at}")]
    NotCondition { at: u64 },
    /// Items with and without aggregates in one select.
    #[error("mixed items at byte {at}")]
    MixedItems { at: u64 },
    /// Two columns of one name.
    #[error("named twice at byte {at}")]
    TwiceNamed { at: u64 },
    /// Sides of a union whose columns have other kinds.
    #[error("columns differ at byte {at}")]
    ColumnsDiffer { at: u64 },
    /// Sides of a concatenation without one common pace.
    #[error("paces differ at byte {at}")]
    PaceDiffers { at: u64 },
    /// A body that gives rows before its end.
    #[error("not closing at byte {at}")]
    NotClosing { at: u64 },
    /// A number or a count outside its limits.
    #[error("out of range at byte {at}")]
    OutOfRange { at: u64 },
    /// A bracket, an operator or a union more than may be open or stand in one text.
    #[error("too deep at byte {at}")]
    TooDeep { at: u64 },
    /// A window of time over what is no stream of the schema.
    #[error("no time at byte {at}")]
    NoTime { at: u64 },
    /// A side of UNION BY ARRIVAL or of ASOF that has a row which does not come of one row that came.
    #[error("no arrival at byte {at}")]
    NoArrival { at: u64 },
    /// A parameter that the schema does not declare.
    #[error("unknown parameter at byte {at}")]
    UnknownParameter { at: u64 },
    /// Memory ran out.
    #[error("out of memory")]
    Memory,
}

impl From<NoMemory> for QueryFault {
    ghost from_gives = { λ _ e. e ≡ fault.Memory };

    fn from(_: NoMemory) -> QueryFault {
        QueryFault::Memory
    }
}
