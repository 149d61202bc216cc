//! Why texts are not compiled.

ghost use Rattle.std.specs.Prelude.{◌≡◌};
ghost use Rattle.gl_compiler.specs.Faults.{fault_of_plan, fault_of_query, fault_of_schema};

use gl_figures::Limit;
use gl_plan::PlanFault;
use gl_query::QueryFault;
use gl_schema::SchemaFault;
use thiserror::Error;

/// Why a query was not compiled.
#[derive(Debug, Drop, Error)]
pub enum CompileFault {
    /// The schema's text has no schema.
    #[error("the schema is not read")]
    Schema(SchemaFault),
    /// The query's text has no statement, or one that is not accepted.
    #[error("the query is refused")]
    Query(QueryFault),
    /// The query's plan passes a limit.
    #[error("the query passes a limit")]
    Limit(Limit),
    /// Want of memory.
    #[error("out of memory")]
    Memory,
}

impl From<SchemaFault> for CompileFault {
    ghost from_gives = { λ fault f. f ≡ fault_of_schema fault };

    fn from(fault: SchemaFault) -> CompileFault {
        match fault {
            SchemaFault::Memory => CompileFault::Memory,
            fault => CompileFault::Schema(fault),
        }
    }
}

impl From<QueryFault> for CompileFault {
    ghost from_gives = { λ fault f. f ≡ fault_of_query fault };

    fn from(fault: QueryFault) -> CompileFault {
        match fault {
            QueryFault::Memory => CompileFault::Memory,
            fault => CompileFault::Query(fault),
        }
    }
}

impl From<PlanFault> for CompileFault {
    ghost from_gives = { λ fault f. f ≡ fault_of_plan fault };

    fn from(fault: PlanFault) -> CompileFault {
        match fault {
            PlanFault::Limit(limit) => CompileFault::Limit(limit),
            PlanFault::Memory => CompileFault::Memory,
        }
    }
}
