//! The kinds of faults, and where they stand.

ghost use Rattle.std.specs.Prelude.{◌≡◌};
ghost use Rattle.gl_top_status.specs.Refusals as told;

use gl_query::QueryFault;
use gl_schema::SchemaFault;
use gl_tuples::TupleFault;
use gl_vcd::VcdFault;
use gl_verilog_tokens::VerilogFault;

/// The kind of a fault of a schema.
#[tactic(auto, unfolding(crate::specs::Refusals::schema_kind))]
pub fn schema_kind(fault: &SchemaFault) -> &'static [u8]
    ensures { result.now ≡ told.schema_kind fault.now }
{
    match fault {
        SchemaFault::Syntax { .. } => b"Syntax",
        SchemaFault::BadName { .. } => b"BadName",
        SchemaFault::BadKind { .. } => b"BadKind",
        SchemaFault::Twice { .. } => b"Twice",
        SchemaFault::TooMany { .. } => b"TooMany",
        SchemaFault::Memory => b"Memory",
    }
}

/// The place of a fault of a schema.
pub fn schema_place(fault: &SchemaFault) -> u64
    ensures { result ≡ told.schema_place fault.now }
{
    match fault {
        SchemaFault::Syntax { at }
        | SchemaFault::BadName { at }
        | SchemaFault::BadKind { at }
        | SchemaFault::Twice { at }
        | SchemaFault::TooMany { at } => *at,
        SchemaFault::Memory => 0,
    }
}

/// The kind of a fault of a query.
#[tactic(auto, unfolding(crate::specs::Refusals::query_kind))]
pub fn query_kind(fault: &QueryFault) -> &'static [u8]
    ensures { result.now ≡ told.query_kind fault.now }
{
    match fault {
        QueryFault::Syntax { .. } => b"Syntax",
        QueryFault::UnknownStream { .. } => b"UnknownStream",
        QueryFault::UnknownColumn { .. } => b"UnknownColumn",
        QueryFault::KindsDiffer { .. } => b"KindsDiffer",
        QueryFault::LiteralTooWide { .. } => b"LiteralTooWide",
        QueryFault::NotCondition { .. } => b"NotCondition",
        QueryFault::MixedItems { .. } => b"MixedItems",
        QueryFault::TwiceNamed { .. } => b"TwiceNamed",
        QueryFault::ColumnsDiffer { .. } => b"ColumnsDiffer",
        QueryFault::PaceDiffers { .. } => b"PaceDiffers",
        QueryFault::NotClosing { .. } => b"NotClosing",
        QueryFault::OutOfRange { .. } => b"OutOfRange",
        QueryFault::TooDeep { .. } => b"TooDeep",
        QueryFault::NoTime { .. } => b"NoTime",
        QueryFault::NoArrival { .. } => b"NoArrival",
        QueryFault::UnknownParameter { .. } => b"UnknownParameter",
        QueryFault::Memory => b"Memory",
    }
}

/// The place of a fault of a query.
pub fn query_place(fault: &QueryFault) -> u64
    ensures { result ≡ told.query_place fault.now }
{
    match fault {
        QueryFault::Syntax { at }
        | QueryFault::UnknownStream { at }
        | QueryFault::UnknownColumn { at }
        | QueryFault::KindsDiffer { at }
        | QueryFault::LiteralTooWide { at }
        | QueryFault::NotCondition { at }
        | QueryFault::MixedItems { at }
        | QueryFault::TwiceNamed { at }
        | QueryFault::ColumnsDiffer { at }
        | QueryFault::PaceDiffers { at }
        | QueryFault::NotClosing { at }
        | QueryFault::OutOfRange { at }
        | QueryFault::TooDeep { at }
        | QueryFault::NoTime { at }
        | QueryFault::NoArrival { at }
        | QueryFault::UnknownParameter { at } => *at,
        QueryFault::Memory => 0,
    }
}

/// The kind of a fault of a Verilog text.
#[tactic(auto, unfolding(crate::specs::Refusals::verilog_kind))]
pub fn verilog_kind(fault: &VerilogFault) -> &'static [u8]
    ensures { result.now ≡ told.verilog_kind fault.now }
{
    match fault {
        VerilogFault::Syntax { .. } => b"Syntax",
        VerilogFault::Undeclared { .. } => b"Undeclared",
        VerilogFault::TwiceDeclared { .. } => b"TwiceDeclared",
        VerilogFault::TwiceDriven { .. } => b"TwiceDriven",
        VerilogFault::NeverDriven { .. } => b"NeverDriven",
        VerilogFault::WidthsDiffer { .. } => b"WidthsDiffer",
        VerilogFault::Loop { .. } => b"Loop",
        VerilogFault::BadMemory { .. } => b"BadMemory",
        VerilogFault::ClockRead { .. } => b"ClockRead",
        VerilogFault::TooWide { .. } => b"TooWide",
        VerilogFault::BadPort { .. } => b"BadPort",
        VerilogFault::BadTarget { .. } => b"BadTarget",
        VerilogFault::TooDeep { .. } => b"TooDeep",
        VerilogFault::Memory => b"Memory",
    }
}

/// The place of a fault of a Verilog text.
pub fn verilog_place(fault: &VerilogFault) -> u64
    ensures { result ≡ told.verilog_place fault.now }
{
    match fault {
        VerilogFault::Syntax { at }
        | VerilogFault::Undeclared { at }
        | VerilogFault::TwiceDeclared { at }
        | VerilogFault::TwiceDriven { at }
        | VerilogFault::NeverDriven { at }
        | VerilogFault::WidthsDiffer { at }
        | VerilogFault::Loop { at }
        | VerilogFault::BadMemory { at }
        | VerilogFault::ClockRead { at }
        | VerilogFault::TooWide { at }
        | VerilogFault::BadPort { at }
        | VerilogFault::BadTarget { at }
        | VerilogFault::TooDeep { at } => *at,
        VerilogFault::Memory => 0,
    }
}

/// The kind of a fault of a tuple file.
#[tactic(auto, unfolding(crate::specs::Refusals::tuples_kind))]
pub fn tuples_kind(fault: &TupleFault) -> &'static [u8]
    ensures { result.now ≡ told.tuples_kind fault.now }
{
    match fault {
        TupleFault::NotUtf8 { .. } => b"NotUtf8",
        TupleFault::BadCycle { .. } => b"BadCycle",
        TupleFault::CycleFalls { .. } => b"CycleFalls",
        TupleFault::CycleTooLarge { .. } => b"CycleTooLarge",
        TupleFault::UnknownStream { .. } => b"UnknownStream",
        TupleFault::FieldCount { .. } => b"FieldCount",
        TupleFault::BadValue { .. } => b"BadValue",
        TupleFault::StreamTwice { .. } => b"StreamTwice",
        TupleFault::TickTwice { .. } => b"TickTwice",
        TupleFault::AfterEnd { .. } => b"AfterEnd",
        TupleFault::TooClose { .. } => b"TooClose",
        TupleFault::UnknownParameter { .. } => b"UnknownParameter",
        TupleFault::SetTwice { .. } => b"SetTwice",
        TupleFault::NotSet { .. } => b"NotSet",
        TupleFault::Memory => b"Memory",
    }
}

/// The record of a fault of a tuple file.
pub fn tuples_record(fault: &TupleFault) -> u64
    ensures { result ≡ told.tuples_record fault.now }
{
    match fault {
        TupleFault::NotUtf8 { number }
        | TupleFault::BadCycle { number }
        | TupleFault::CycleFalls { number }
        | TupleFault::CycleTooLarge { number }
        | TupleFault::UnknownStream { number }
        | TupleFault::FieldCount { number }
        | TupleFault::BadValue { number }
        | TupleFault::StreamTwice { number }
        | TupleFault::TickTwice { number }
        | TupleFault::AfterEnd { number }
        | TupleFault::TooClose { number }
        | TupleFault::UnknownParameter { number }
        | TupleFault::SetTwice { number }
        | TupleFault::NotSet { number } => *number,
        TupleFault::Memory => 0,
    }
}

/// The kind of a fault of a value change dump.
#[tactic(auto, unfolding(crate::specs::Refusals::dump_kind))]
pub fn dump_kind(fault: &VcdFault) -> &'static [u8]
    ensures { result.now ≡ told.dump_kind fault.now }
{
    match fault {
        VcdFault::Syntax { .. } => b"Syntax",
        VcdFault::UnknownSignal { .. } => b"UnknownSignal",
        VcdFault::TimeFalls { .. } => b"TimeFalls",
        VcdFault::TooWide { .. } => b"TooWide",
        VcdFault::NoValue { .. } => b"NoValue",
        VcdFault::Twice { .. } => b"Twice",
        VcdFault::NoPort { .. } => b"NoPort",
        VcdFault::TooLate { .. } => b"TooLate",
    }
}

/// The place of a fault of a value change dump.
pub fn dump_place(fault: &VcdFault) -> u64
    ensures { result ≡ told.dump_place fault.now }
{
    match fault {
        VcdFault::Syntax { at }
        | VcdFault::UnknownSignal { at }
        | VcdFault::TimeFalls { at }
        | VcdFault::TooWide { at }
        | VcdFault::NoValue { at }
        | VcdFault::Twice { at }
        | VcdFault::NoPort { at }
        | VcdFault::TooLate { at } => *at,
    }
}
