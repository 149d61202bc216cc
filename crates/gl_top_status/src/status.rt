//! How the program ends.

ghost use Rattle.std.specs.Prelude.{◌≡◌};
ghost use Rattle.std.specs.Process.{exit_status};
ghost use Rattle.gl_top_status.specs.Statuses.{code_of};

use std::process::ExitCode;

/// How the program ends.
#[derive(Clone, Copy, PartialEq, Eq, Debug)]
pub enum Status {
    /// The output was written whole.
    Done,
    /// The words are of no form.
    Usage,
    /// The shelf has no text of a name.
    Missing,
    /// The shelf failed.
    ReadFault,
    /// A sink failed.
    WriteFault,
    /// The schema is refused.
    Schema,
    /// The query is refused.
    Query,
    /// The tuple file is refused.
    Tuples,
    /// The Verilog text is refused.
    Verilog,
    /// A limit is passed.
    Limit,
    /// Want of memory.
    Memory,
    /// The end of the result did not come.
    NoEnd,
    /// The value change dump is refused.
    Dump,
}

impl Status {
    /// The number that the program ends with.
    pub fn code(self) -> u8
        ensures { result ≡ code_of self }
    {
        match self {
            Status::Done => 0,
            Status::Usage => 1,
            Status::Missing => 2,
            Status::ReadFault => 3,
            Status::WriteFault => 4,
            Status::Schema => 5,
            Status::Query => 6,
            Status::Tuples => 7,
            Status::Verilog => 8,
            Status::Limit => 9,
            Status::Memory => 10,
            Status::NoEnd => 11,
            Status::Dump => 12,
        }
    }
}

/// What the process ends with: the number of the status.
pub fn exit_code(status: Status) -> ExitCode
    ensures { exit_status result ≡ code_of status }
{
    ExitCode::from(status.code())
}
