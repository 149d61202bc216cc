//! Widths of expressions, and which names stand where their kind may.

ghost use Rattle.std.specs.Prelude.{◌≡◌, slice_get, option_map, unwrap_or, true};
ghost use Rattle.gl_verilog.specs.View.{declaration_of, expr_of, assignment_of, kind_of, op_of};
ghost use Rattle.gl_verilog.specs.Widths.{width_after};
ghost use Rattle.gl_verilog_check.specs.Kept.{scope_of, is_memory, net_width, part_width, word_width, kept, has_address, is_driven, is_register, assigned_width, clock_test, literal_width, both_width, choose_width, join_width, only_taken, put_width, write_width, memory_fits, has_size, reads};

use gl_verilog::{Assignment, BinaryOp, Declaration, Expr, Kind};

/// The declaration of this number.
pub(crate) fn declaration_at(declarations: &[Declaration], n: usize) -> Option<&Declaration>
    ensures { option_map (λ d. declaration_of d.now) result
        ≡ slice_get (scope_of declarations.now) n }
{
    declarations.get(n)
}

fn is_memory(kind: Kind) -> bool
    ensures { result ≡ is_memory (kind_of kind) }
{
    matches!(kind, Kind::Memory { .. })
}

fn is_clock(declaration: &Declaration) -> bool
    ensures { result ≡ clock_test (declaration_of declaration.now) }
{
    declaration.name.as_slice() == b"clk".as_slice()
}

// The bits of a net or register that an expression may read by its name.
fn net_width(declaration: &Declaration) -> Option<u16>
    ensures { result ≡ net_width (declaration_of declaration.now) }
{
    if is_memory(declaration.kind) || is_clock(declaration) {
        return None;
    }
    Some(u16::from(declaration.width))
}

// The bits of a part of a vector.
fn part_width(declaration: &Declaration, high: u8, low: u8) -> Option<u16>
    ensures { result ≡ part_width high low (declaration_of declaration.now) }
{
    if is_memory(declaration.kind) || is_clock(declaration) || !declaration.is_vector {
        return None;
    }
    if high < declaration.width && low <= high {
        return Some(u16::from(high) + 1 - u16::from(low));
    }
    None
}

fn has_address(kind: Kind, address: u16) -> bool
    ensures { result ≡ has_address (kind_of kind) address }
{
    match kind {
        Kind::Memory { address_bits } => u16::from(address_bits) == address,
        _ => false,
    }
}

// The bits of a memory's words, where its addresses have `address` bits.
fn word_width(declaration: &Declaration, address: u16) -> Option<u16>
    ensures { result ≡ word_width address (declaration_of declaration.now) }
{
    if has_address(declaration.kind, address) {
        Some(u16::from(declaration.width))
    } else {
        None
    }
}

fn width_after(op: BinaryOp, width: u8) -> u16
    ensures { result ≡ width_after (op_of op) width }
{
    match op {
        BinaryOp::Add
        | BinaryOp::Sub
        | BinaryOp::Mul
        | BinaryOp::And
        | BinaryOp::Xor
        | BinaryOp::Or => u16::from(width),
        BinaryOp::Eq | BinaryOp::Ne | BinaryOp::Lt | BinaryOp::Le | BinaryOp::Gt | BinaryOp::Ge =>
            1,
    }
}

// The bits of a literal whose number fits.
fn literal_width(value: u128, width: u8) -> Option<u16>
    ensures { result ≡ literal_width value width }
{
    if width < 1 || width > 128 {
        return None;
    }
    if width < 128 && value >= 1u128 << width {
        return None;
    }
    Some(u16::from(width))
}

fn both_width(op: BinaryOp, width: u8, left: u16, right: u16) -> Option<u16>
    ensures { result ≡ both_width (op_of op) width left right }
{
    if left == u16::from(width) && right == u16::from(width) {
        Some(width_after(op, width))
    } else {
        None
    }
}

fn choose_width(test: u16, yes: u16, no: u16) -> Option<u16>
    ensures { result ≡ choose_width test yes no }
{
    if test == 1 && no == yes {
        Some(yes)
    } else {
        None
    }
}

fn join_width(low_width: u8, high: u16, low: u16) -> Option<u16>
    ensures { result ≡ join_width low_width high low }
{
    if low == u16::from(low_width) && u32::from(high) + u32::from(low_width) <= 128 {
        Some(high + u16::from(low_width))
    } else {
        None
    }
}

/// The bits of an expression, where its operators keep all widths.
pub(crate) fn kept(declarations: &[Declaration], expr: &Expr) -> Option<u16>
    ensures { result ≡ kept (scope_of declarations.now) (expr_of expr.now) }
{
    match expr {
        Expr::Net(n) => net_width(declaration_at(declarations, *n)?),
        Expr::Literal { value, width } => literal_width(*value, *width),
        Expr::Invert { width, arg } => {
            if kept(declarations, arg)? == u16::from(*width) {
                Some(u16::from(*width))
            } else {
                None
            }
        }
        Expr::Binary {
            op,
            width,
            left,
            right,
        } => {
            let left = kept(declarations, left)?;
            let right = kept(declarations, right)?;
            both_width(*op, *width, left, right)
        }
        Expr::Choose { test, yes, no } => {
            let test = kept(declarations, test)?;
            let yes = kept(declarations, yes)?;
            let no = kept(declarations, no)?;
            choose_width(test, yes, no)
        }
        Expr::Join {
            low_width,
            high,
            low,
        } => {
            let high = kept(declarations, high)?;
            let low = kept(declarations, low)?;
            join_width(*low_width, high, low)
        }
        Expr::Select { high, low, net } => part_width(
            declaration_at(declarations, *net)?,
            *high,
            *low,
        ),
        Expr::Read { memory, address } => {
            let address = kept(declarations, address)?;
            word_width(declaration_at(declarations, *memory)?, address)
        }
    }
}

// The bits of a value that the declaration takes where its kind may be assigned so.
fn taken(declaration: &Declaration, may: bool, width: u16) -> Option<u16>
    ensures { result ≡ only_taken may width (declaration_of declaration.now) }
{
    if may && width == u16::from(declaration.width) {
        Some(width)
    } else {
        None
    }
}

fn is_driven(kind: Kind) -> bool
    ensures { result ≡ is_driven (kind_of kind) }
{
    matches!(kind, Kind::OutputWire | Kind::Wire)
}

fn is_register(kind: Kind) -> bool
    ensures { result ≡ is_register (kind_of kind) }
{
    matches!(kind, Kind::OutputRegister | Kind::Register)
}

/// Whether a declaration is of a net that an assignment drives.
pub(crate) fn wants_driver(declaration: &Declaration) -> bool
    ensures { result ≡ is_driven (declaration_of declaration.now).kind }
{
    is_driven(declaration.kind)
}

/// The bits of an assignment to a net that has as many.
pub(crate) fn assigned_width(declarations: &[Declaration], assignment: &Assignment) -> Option<u16>
    ensures { result ≡ assigned_width (scope_of declarations.now) (assignment_of assignment.now) }
{
    let width = kept(declarations, &assignment.value)?;
    let target = declaration_at(declarations, assignment.target)?;
    taken(target, is_driven(target.kind), width)
}

/// The bits of what a register takes.
pub(crate) fn put_width(declarations: &[Declaration], register: usize, value: &Expr) -> Option<u16>
    ensures { result ≡ put_width (scope_of declarations.now) register (expr_of value.now) }
{
    let width = kept(declarations, value)?;
    let target = declaration_at(declarations, register)?;
    taken(target, is_register(target.kind), width)
}

/// The bits of what a word of a memory takes.
pub(crate) fn write_width(
    declarations: &[Declaration],
    memory: usize,
    address: &Expr,
    value: &Expr,
) -> Option<u16>
    ensures { result ≡ write_width (scope_of declarations.now) memory (expr_of address.now)
        (expr_of value.now) }
{
    let address = kept(declarations, address)?;
    let width = kept(declarations, value)?;
    let target = declaration_at(declarations, memory)?;
    taken(target, has_address(target.kind, address), width)
}

fn memory_fits(kind: Kind) -> bool
    ensures { result ≡ memory_fits (kind_of kind) }
{
    match kind {
        Kind::Memory { address_bits } => 1 <= address_bits && address_bits <= 32,
        _ => true,
    }
}

/// Whether a declaration has 1 to 128 bits, and a memory 1 to 32 address bits.
pub(crate) fn has_size(declaration: &Declaration) -> bool
    ensures { result ≡ has_size (declaration_of declaration.now) }
{
    1 <= declaration.width && declaration.width <= 128 && memory_fits(declaration.kind)
}

// Whether the net of this number is marked, or past the marks.
fn is_marked(marks: &[bool], n: usize) -> bool
    ensures { result ≡ unwrap_or (slice_get marks.now n) true }
{
    marks.get(n).copied().unwrap_or(true)
}

/// Whether an expression reads a net that is marked.
pub(crate) fn reads(marks: &[bool], expr: &Expr) -> bool
    ensures { result ≡ reads marks.now (expr_of expr.now) }
{
    match expr {
        Expr::Net(n) => is_marked(marks, *n),
        Expr::Literal { .. } => false,
        Expr::Invert { arg, .. } => reads(marks, arg),
        Expr::Binary { left, right, .. } => reads(marks, left) || reads(marks, right),
        Expr::Choose { test, yes, no } => reads(marks, test)
            || (reads(marks, yes) || reads(marks, no)),
        Expr::Join { high, low, .. } => reads(marks, high) || reads(marks, low),
        Expr::Select { net, .. } => is_marked(marks, *net),
        Expr::Read { address, .. } => reads(marks, address),
    }
}
