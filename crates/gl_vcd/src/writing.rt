//! Writing a dump: what stands in front of the first time, and one cycle behind the other.

ghost use Rattle.std.specs.Prelude.{◌≡◌, ◌+◌, ◌<◌, ◌≤◌, ◌++◌, ◌∷◌, [], Some, not, bytes_eq, length, take, drop, map, slice_get, codes, decimal, option_map, IfSome, if◌then◌else◌};
ghost use Rattle.gl_bits.specs.Limits.{most_ports};
ghost use Rattle.gl_bits.specs.Words.{widths_of};
ghost use Rattle.gl_outside.specs.States.{Wrote};
ghost use Rattle.gl_schema.specs.Profile.{clk};
ghost use Rattle.gl_verilog.specs.View.{declaration_of, module_of};
ghost use Rattle.gl_vcd.specs.Written as spec;
ghost use Rattle.gl_vcd.specs.Written.{ports_among, ports_of};

use gl_bits::{Row, Word};
use gl_outside::{Sink, WriteFault, write_all_of};
use gl_tuples::line::put;
use gl_verilog::{Declaration, Module};
use itoa::Buffer;

// Writes the identifier of a port behind what stands there.
fn put_code(into: &mut [u8; 1024], at: usize, number: usize) -> usize
    requires room { at ≤ 150 }
    requires few { number < most_ports }
    ensures end { result ≡ at + 2 }
    ensures written { take result into.new ≡ take at into.old ++ spec.code_of number }
{
    let high = 33 + (number / 94) as u8;
    let low = 33 + (number % 94) as u8;
    put(into, at, &[high, low])
}

// ---- declarations

// Writes what stands in front of the name in a declaration.
fn declared_into(number: usize, width: u8, into: &mut [u8; 1024]) -> usize
    requires { number < most_ports }
    ensures short { result ≤ 160 }
    ensures written { take result into.new
        ≡ codes "$var wire " ++ decimal width ++ 32 ∷ (spec.code_of number ++ 32 ∷ []) }
{
    let mut buffer = Buffer::new();
    let end = put(into, 0, b"$var wire ");
    let end = put(into, end, buffer.format(width).as_bytes());
    let end = put(into, end, b" ");
    let end = put_code(into, end, number);
    put(into, end, b" ")
}

// Writes a name between two texts.
fn put_named<K: Sink>(out: &mut K, head: &[u8], name: &[u8], tail: &[u8]) -> Result<(), WriteFault>
    ensures { let bytes = head.now ++ (name.now ++ tail.now) in
        Wrote (K.state out.old) (K.state out.new) bytes result }
{
    write_all_of(out, head)?;
    write_all_of(out, name)?;
    write_all_of(out, tail)
}

// Writes the declaration of a port.
fn put_declaration<K: Sink>(
    out: &mut K,
    number: usize,
    port: &Declaration,
) -> Result<(), WriteFault>
    requires { number < most_ports }
    ensures { let p = spec.port_declared (declaration_of port.now) in
        Wrote (K.state out.old) (K.state out.new) (spec.declaration number p) result }
{
    let mut head = [0u8; 1024];
    let end = declared_into(number, port.width, &mut head);
    put_named(out, &head[..end], port.name.as_slice(), b" $end\n")
}

/// Whether a port stands in the dump: it is not the clock.
#[tactic(auto, unfolding(gl_schema::specs::Profile::clk))]
pub fn is_dumped(port: &Declaration) -> bool
    ensures { result ≡ not (bytes_eq port.now.name clk) }
{
    port.name.as_slice() != b"clk".as_slice()
}

// Writes the declarations of ports but for the clock.
fn put_declarations<K: Sink>(out: &mut K, ports: &[Declaration]) -> Result<(), WriteFault>
    requires { length (ports_among (map declaration_of ports.now)) ≤ most_ports }
    ensures { let bytes = spec.declarations 0 (ports_among (map declaration_of ports.now)) in
        Wrote (K.state out.old) (K.state out.new) bytes result }
{
    let mut number = 0;
    for port in ports {
        if is_dumped(port) {
            put_declaration(out, number, port)?;
            number += 1;
        }
    }
    Ok(())
}

// The ports of a module, the clock among them.
#[tactic(auto, using(crate::proofs::Headers::ports_are))]
fn ports_in(module: &Module) -> &[Declaration]
    requires { module.now.ports ≤ length module.now.declarations }
    ensures { ports_among (map declaration_of result.now) ≡ ports_of (module_of module.now) }
{
    &module.declarations.as_slice()[..module.ports]
}

/// Writes what stands in front of the first time: the declarations of the ports of a module, but
/// for its clock. Takes no memory.
///
/// Where the sink fails, a front of these lines was taken.
pub fn header<K: Sink>(module: &Module, out: &mut K) -> Result<(), WriteFault>
    requires ports { module.now.ports ≤ length module.now.declarations }
    requires few { length (ports_of (module_of module.now)) ≤ most_ports }
    ensures { let m = module_of module.now in
        Wrote (K.state out.old) (K.state out.new) (spec.header m.name (ports_of m)) result }
{
    let ports = ports_in(module);
    put_named(
        out,
        b"$timescale 1 ns $end\n$scope module ",
        module.name.as_slice(),
        b" $end\n",
    )?;
    put_declarations(out, ports)?;
    write_all_of(out, b"$upscope $end\n$enddefinitions $end\n")
}

// ---- cycles

// Writes the binary digits of a number at the end of the room, and answers where they begin.
fn binary_into(value: u128, into: &mut [u8; 128]) -> usize
    ensures inside { result < 128 }
    ensures written { drop result into.new ≡ spec.binary value }
{
    let mut at = 127;
    let mut rest = value;
    while rest > 1 {
        into[at] = b'0' + (rest % 2) as u8;
        rest /= 2;
        at -= 1;
    }
    into[at] = b'0' + rest as u8;
    at
}

// Writes `b`, the binary digits of a number and a space.
fn vector_into(value: u128, into: &mut [u8; 1024]) -> usize
    ensures short { result ≤ 130 }
    ensures written { take result into.new ≡ 98 ∷ (spec.binary value ++ 32 ∷ []) }
{
    let mut digits = [0u8; 128];
    let from = binary_into(value, &mut digits);
    let end = put(into, 0, b"b");
    let end = put(into, end, &digits[from..]);
    put(into, end, b" ")
}

// Writes what stands in front of the identifier in a change.
fn value_into(word: Word, into: &mut [u8; 1024]) -> usize
    ensures short { result ≤ 130 }
    ensures written { take result into.new ≡ spec.value_text word }
{
    if word.width() == 1 {
        let mut buffer = Buffer::new();
        return put(into, 0, buffer.format(word.bits()).as_bytes());
    }
    vector_into(word.bits(), into)
}

// Writes the change of a port into a line.
fn change_into(number: usize, word: Word, into: &mut [u8; 1024]) -> usize
    requires { number < most_ports }
    ensures short { result ≤ 160 }
    ensures written { take result into.new ≡ spec.change number word }
{
    let end = value_into(word, into);
    let end = put_code(into, end, number);
    put(into, end, b"\n")
}

// The word of a port in a row.
fn word_at(row: &Row, at: usize) -> Word
    requires { at < length row.now }
    ensures { slice_get row.now at ≡ Some result }
{
    match row.get(at) {
        Some(word) => word,
        // The row is longer.
        None => unreachable!(),
    }
}

// Whether a word differs from the one before, or there is none.
fn differs(old: Option<Word>, word: Word) -> bool
    ensures { result ≡ spec.differs old word }
{
    match old {
        Some(old) => old.bits() != word.bits(),
        None => true,
    }
}

// Whether a port differs from the row before, or there is none.
fn is_new(before: Option<&Row>, number: usize, word: Word) -> bool
    ensures { result ≡ spec.is_new (option_map (λ r. r.now) before.entry) number word }
{
    match before {
        Some(row) => differs(row.get(number), word),
        None => true,
    }
}

// Whether a row differs from the one before.
fn has_new(before: &Row, row: &Row) -> bool
    ensures { result ≡ spec.has_new (Some before.now) 0 row.now }
{
    for number in 0..row.len() {
        if is_new(Some(before), number, word_at(row, number)) {
            return true;
        }
    }
    false
}

// Whether a row is told: it is the first, or differs from the one before.
fn is_told(before: Option<&Row>, row: &Row) -> bool
    ensures { result ≡ spec.is_told (option_map (λ r. r.now) before.entry) row.now }
{
    match before {
        Some(before) => has_new(before, row),
        None => true,
    }
}

// Writes `#` and a time into a line.
fn time_into(at: u64, into: &mut [u8; 1024]) -> usize
    ensures short { result ≤ 160 }
    ensures written { take result into.new ≡ spec.time_line at }
{
    let mut buffer = Buffer::new();
    let end = put(into, 0, b"#");
    let end = put(into, end, buffer.format(at).as_bytes());
    put(into, end, b"\n")
}

// Writes a time, if it is due.
#[tactic(auto, using(gl_outside::proofs::Takes::took_none))]
fn put_time<K: Sink>(out: &mut K, at: u64, due: bool) -> Result<(), WriteFault>
    ensures { let bytes = if due then spec.time_line at else [] in
        Wrote (K.state out.old) (K.state out.new) bytes result }
{
    if !due {
        return Ok(());
    }
    let mut line = [0u8; 1024];
    let end = time_into(at, &mut line);
    write_all_of(out, &line[..end])
}

// Writes the change of a port, if it is due.
#[tactic(auto, using(gl_outside::proofs::Takes::took_none))]
fn put_change<K: Sink>(out: &mut K, number: usize, word: Word, due: bool) -> Result<(), WriteFault>
    requires { number < most_ports }
    ensures { let bytes = if due then spec.change number word else [] in
        Wrote (K.state out.old) (K.state out.new) bytes result }
{
    if !due {
        return Ok(());
    }
    let mut line = [0u8; 1024];
    let end = change_into(number, word, &mut line);
    write_all_of(out, &line[..end])
}

// Writes the changes of a row.
fn put_changes<K: Sink>(out: &mut K, before: Option<&Row>, row: &Row) -> Result<(), WriteFault>
    requires { length row.now ≤ most_ports }
    ensures { let bytes = spec.changes (option_map (λ r. r.now) before.entry) 0 row.now in
        Wrote (K.state out.old) (K.state out.new) bytes result }
{
    for number in 0..row.len() {
        let word = word_at(row, number);
        put_change(out, number, word, is_new(before, number, word))?;
    }
    Ok(())
}

/// Writes a cycle of the ports of a module, but for its clock: all of them where it is the first,
/// else the time and the ports that differ from the cycle before, where there are some. Takes no
/// memory.
///
/// Where the sink fails, a front of these lines was taken.
pub fn cycle<K: Sink>(
    module: &Module,
    at: u64,
    before: Option<&Row>,
    now: &Row,
    out: &mut K,
) -> Result<(), WriteFault>
    requires few { length (ports_of (module_of module.now)) ≤ most_ports }
    requires row { widths_of now.now ≡ map (λ p. p.width) (ports_of (module_of module.now)) }
    requires before { let widths = map (λ p. p.width) (ports_of (module_of module.now)) in
        IfSome before (λ r. widths_of r.now ≡ widths) }
    ensures { let bytes = spec.cycle at (option_map (λ r. r.now) before.entry) now.now in
        Wrote (K.state out.old) (K.state out.new) bytes result }
{
    // What is asked of the module is asked of the rows.
    let _ = module;
    put_time(out, at, is_told(before, now))?;
    put_changes(out, before, now)
}

/// Writes the time behind the last cycle, with which a dump ends. Takes no memory.
pub fn last_time<K: Sink>(at: u64, out: &mut K) -> Result<(), WriteFault>
    ensures { Wrote (K.state out.old) (K.state out.new) (spec.time_line at) result }
{
    put_time(out, at, true)
}
