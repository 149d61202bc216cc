//! Counting the bits that are declared.

ghost use Rattle.std.specs.Prelude.{◌≡◌, ◌≤◌, map, sum_by};
ghost use Rattle.std.specs.List.{AllByRecursion};
ghost use Rattle.gl_verilog.specs.Cost as spec;
ghost use Rattle.gl_verilog.specs.Valid.{IsValid};
ghost use Rattle.gl_verilog.specs.View.{declaration_of, kind_of, module_of};
ghost use Rattle.gl_verilog.specs.Widths.{HasSize};

use gl_verilog::{Declaration, Kind, Module};

/// The bits that a module declares.
#[derive(Clone, Copy, PartialEq, Eq, Debug)]
pub struct Cost {
    /// Of all registers, output registers included.
    pub registers: u128,
    /// Of all words of all memories.
    pub memories: u128,
}

// The bits of a register, and 0 for any other declaration.
fn register_bits(declaration: &Declaration) -> u128
    ensures value { result
        ≡ spec.register_bits_of (kind_of declaration.now.kind) declaration.now.width }
    ensures small { result ≤ 255 }
{
    match declaration.kind {
        Kind::OutputRegister | Kind::Register => u128::from(declaration.width),
        _ => 0,
    }
}

// The bits of the words of a memory, and 0 for any other declaration.
fn memory_bits(declaration: &Declaration) -> u128
    requires { HasSize (declaration_of declaration.now) }
    ensures value { result
        ≡ spec.memory_bits_of (kind_of declaration.now.kind) declaration.now.width }
    ensures small { result ≤ 1099511627776 }
{
    match declaration.kind {
        Kind::Memory { address_bits } => (1 << address_bits) * u128::from(declaration.width),
        _ => 0,
    }
}

// The bits of all registers.
fn all_registers(declarations: &[Declaration]) -> u128
    ensures { result
        ≡ sum_by (λ d. spec.register_bits_of d.kind d.width) (map declaration_of declarations.now) }
{
    let mut total = 0;
    for declaration in declarations {
        total += register_bits(declaration);
    }
    total
}

// The bits of all memories.
fn all_memories(declarations: &[Declaration]) -> u128
    requires { AllByRecursion HasSize (map declaration_of declarations.now) }
    ensures { result
        ≡ sum_by (λ d. spec.memory_bits_of d.kind d.width) (map declaration_of declarations.now) }
{
    let mut total = 0;
    for declaration in declarations {
        total += memory_bits(declaration);
    }
    total
}

/// The bits that a valid module declares. Takes no memory.
pub fn cost_of(design: &Module) -> Cost
    requires { IsValid (module_of design.now) }
    ensures registers { result.registers ≡ spec.register_bits (module_of design.now) }
    ensures memories { result.memories ≡ spec.memory_bits (module_of design.now) }
{
    let declarations = design.declarations.as_slice();
    Cost {
        registers: all_registers(declarations),
        memories: all_memories(declarations),
    }
}
