//! Why the program ends before anything is written.

ghost use Rattle.std.specs.Prelude.{◌≡◌};
ghost use Rattle.gl_top_status.specs.Refusals as told;

use crate::status::Status;
use gl_figures::Limit;
use gl_query::QueryFault;
use gl_schema::SchemaFault;
use gl_top_forms::Part;
use gl_tuples::TupleFault;
use gl_vcd::VcdFault;
use gl_verilog_tokens::VerilogFault;

/// Why the program ends before anything is written.
#[derive(Drop, Debug)]
pub enum Refusal {
    /// The words are of no form.
    Usage,
    /// The shelf has no text of the name.
    Missing(Part),
    /// The shelf failed at the text.
    ReadFault(Part),
    /// The text is too long.
    TooLong(Part),
    /// The schema is refused.
    Schema(SchemaFault),
    /// The query is refused, or the text of several.
    Query(QueryFault),
    /// The plan of the query, or of several, passes a limit.
    Limit(Limit),
    /// The Verilog text is refused.
    Verilog(VerilogFault),
    /// The tuple file is refused.
    Tuples(TupleFault),
    /// The value change dump is refused.
    Dump(VcdFault),
    /// Want of memory.
    Memory,
}

impl From<SchemaFault> for Refusal {
    ghost from_gives = { λ fault r. r ≡ told.schema_refusal fault };

    fn from(fault: SchemaFault) -> Refusal {
        match fault {
            SchemaFault::Memory => Refusal::Memory,
            fault => Refusal::Schema(fault),
        }
    }
}

impl From<QueryFault> for Refusal {
    ghost from_gives = { λ fault r. r ≡ told.query_refusal fault };

    fn from(fault: QueryFault) -> Refusal {
        match fault {
            QueryFault::Memory => Refusal::Memory,
            fault => Refusal::Query(fault),
        }
    }
}

impl From<VerilogFault> for Refusal {
    ghost from_gives = { λ fault r. r ≡ told.verilog_refusal fault };

    fn from(fault: VerilogFault) -> Refusal {
        match fault {
            VerilogFault::Memory => Refusal::Memory,
            fault => Refusal::Verilog(fault),
        }
    }
}

impl From<TupleFault> for Refusal {
    ghost from_gives = { λ fault r. r ≡ told.tuples_refusal fault };

    fn from(fault: TupleFault) -> Refusal {
        match fault {
            TupleFault::Memory => Refusal::Memory,
            fault => Refusal::Tuples(fault),
        }
    }
}

impl From<VcdFault> for Refusal {
    ghost from_gives = { λ fault r. r ≡ told.dump_refusal fault };

    fn from(fault: VcdFault) -> Refusal {
        Refusal::Dump(fault)
    }
}

/// The status of a refusal.
pub(crate) fn status_of(refusal: &Refusal) -> Status
    ensures { result ≡ told.status_of refusal.now }
{
    match refusal {
        Refusal::Usage => Status::Usage,
        Refusal::Missing(_) => Status::Missing,
        Refusal::ReadFault(_) => Status::ReadFault,
        Refusal::TooLong(_) => Status::Limit,
        Refusal::Schema(_) => Status::Schema,
        Refusal::Query(_) => Status::Query,
        Refusal::Limit(_) => Status::Limit,
        Refusal::Verilog(_) => Status::Verilog,
        Refusal::Tuples(_) => Status::Tuples,
        Refusal::Dump(_) => Status::Dump,
        Refusal::Memory => Status::Memory,
    }
}
