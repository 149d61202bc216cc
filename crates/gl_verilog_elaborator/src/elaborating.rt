//! A whole module: the one that is meant, or the first rule that is broken.

ghost use Rattle.std.specs.Prelude.{◌≡◌, true, false, map, option_map, slice_get, MatchResult, Some, Ok};
ghost use Rattle.gl_verilog.specs.Written.{IsWritten};
ghost use Rattle.gl_verilog.specs.View.{declaration_of, kind_of};
ghost use Rattle.gl_verilog.specs.View as meant;
ghost use Rattle.gl_verilog_elaborator.specs.Judged.{no_drivers};
ghost use Rattle.gl_verilog_elaborator.specs.Elaborated as made;
ghost use Rattle.gl_verilog_elaborator.specs.Meant.{IsElaboration, looped_at};
ghost use Rattle.gl_verilog_elaborator.specs.View.{Gives, is_broken, broken_of, names_in, declarations_of, tokens_of, scope_of, drivers_of, elaborated_of};
ghost use Rattle.gl_verilog_tokens.specs.View.{module_of, name_of};

use crate::declarations::declare_ports;
use crate::drivers::{Drivers, has};
use crate::items::{Elaborated, take_items};
use crate::scope::{Scope, further};
use crate::stop::{Rule, Stop};
use gl_bits::Listed;
use gl_verilog::{Declaration, Kind, Module};
use gl_verilog_loops::first_looped;
use gl_verilog_tokens::{Word, WrittenModule};
use indexmap::{IndexMap, IndexSet};
use std::alloc::Global;

// Nothing is declared.
fn empty_scope<'a>(alloc: Global) -> Scope<'a>
    ensures { scope_of result ≡ made.empty_scope }
{
    Scope {
        names: IndexMap::new(alloc),
    }
}

// Nothing is driven.
fn undriven<'a>(alloc: Global) -> Drivers<'a>
    ensures { drivers_of result ≡ no_drivers }
{
    Drivers {
        done: IndexSet::new(alloc),
        all: IndexSet::new(alloc),
        beside: IndexSet::new(alloc),
        before: Vec::new(alloc),
    }
}

// The ports are declared; the first item begins at the token `end`.
fn begun<'a>(alloc: Global, scope: Scope<'a>, end: usize) -> Elaborated<'a>
    ensures { elaborated_of result ≡ made.begun (scope_of scope.entry) end }
{
    Elaborated {
        scope,
        assignments: Vec::new(alloc),
        targets: Vec::new(alloc),
        blocks: Vec::new(alloc),
        drivers: undriven(alloc),
        end,
    }
}

// Whether a declaration has a driver.
fn has_driver(done: &IndexSet<&[u8]>, name: &[u8], kind: Kind) -> bool
    ensures { result ≡ made.driven_kind (names_in done.now.keys) name.now (kind_of kind) }
{
    kind == Kind::Input || has(done, name)
}

// Whether each declaration has a driver, or the first that has none.
fn test_driven(scope: &Scope, done: &IndexSet<&[u8]>) -> Result<(), Stop>
    ensures { (e : made.Elaborated) → Gives (λ _. e) (made.all_driven (names_in done.now.keys)
        (declarations_of scope.now) (tokens_of scope.now) e) result }
{
    for i in 0..scope.names.len() {
        let Some((name, declared)) = scope.names.get_index(i) else {
            unreachable!()
        };
        if !has_driver(done, *name, declared.kind) {
            return Err(Stop::Broken {
                rule: Rule::NeverDriven,
                token: declared.token,
            });
        }
    }
    Ok(())
}

// All but the loops.
fn judge<'a>(alloc: Global, written: &WrittenModule<'a>) -> Result<Elaborated<'a>, Stop>
    ensures { Gives elaborated_of (made.elaborated (module_of written.now)) result }
{
    let mut scope = empty_scope(alloc);
    let end = declare_ports(&mut scope, 3, &written.ports)?;
    let first = further(end, 1)?;
    let mut e = begun(alloc, scope, first);
    take_items(alloc, &mut e, &written.items)?;
    test_driven(&e.scope, &e.drivers.done)?;
    Ok(e)
}

// The declarations with their names.
fn declarations_made(alloc: Global, scope: &Scope) -> Result<Vec<Declaration>, Stop>
    ensures { MatchResult result (λ v. map declaration_of v.items ≡ declarations_of scope.now)
        (λ e. is_broken e ≡ false) }
{
    let mut all = Vec::new(alloc);
    for i in 0..scope.names.len() {
        let Some((name, declared)) = scope.names.get_index(i) else {
            unreachable!()
        };
        let bytes = Vec::from_slice(alloc, *name)?;
        all.push(Declaration {
            name: Listed::from_vec(bytes),
            width: declared.width,
            is_vector: declared.is_vector,
            kind: declared.kind,
        })?;
    }
    Ok(all)
}

// The module of what was elaborated, which has no loop.
fn module_made(alloc: Global, name: Word, ports: usize, e: Elaborated) -> Result<Module, Stop>
    ensures { MatchResult result (λ m. meant.module_of m
        ≡ made.module_with (name_of name.entry) ports (elaborated_of e.entry))
        (λ e. is_broken e ≡ false) }
{
    let declarations = declarations_made(alloc, &e.scope)?;
    let bytes = Vec::from_slice(alloc, name.bytes)?;
    Ok(Module {
        name: Listed::from_vec(bytes),
        ports,
        declarations: Listed::from_vec(declarations),
        assignments: Listed::from_vec(e.assignments),
        blocks: Listed::from_vec(e.blocks),
    })
}

// What is told of a loop: the target of the assignment with this number.
fn loop_told(targets: &[usize], looped: usize) -> Stop
    ensures { is_broken result ≡ true → option_map looped_at (slice_get targets.now looped)
        ≡ Some (broken_of result) }
{
    match targets.get(looped) {
        Some(token) => Stop::Broken {
            rule: Rule::Loop,
            token: *token,
        },
        // Each assignment has its target, so this does not come.
        None => Stop::Memory,
    }
}

// The module of what was elaborated, or the first loop.
fn finish(alloc: Global, written: &WrittenModule, e: Elaborated) -> Result<Module, Stop>
    requires grammar { IsWritten (module_of written.now) }
    requires judged { made.elaborated (module_of written.now) ≡ Ok (elaborated_of e) }
    ensures { IsElaboration (module_of written.now) result }
{
    let found = first_looped(alloc, e.scope.names.len(), &e.assignments)?;
    match found {
        Some(looped) => Err(loop_told(&e.targets, looped)),
        None => module_made(alloc, written.name, written.ports.len(), e),
    }
}

/// The valid module that a written one means, where it means one; else the first rule that it
/// breaks, in the order in which it is judged, and the number of the token that shows it.
pub fn elaborate(alloc: Global, written: &WrittenModule) -> Result<Module, Stop>
    requires { IsWritten (module_of written.now) }
    ensures { IsElaboration (module_of written.now) result }
{
    let e = judge(alloc, written)?;
    finish(alloc, written, e)
}
