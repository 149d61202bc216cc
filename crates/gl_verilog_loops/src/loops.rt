//! The first assignment whose net depends on itself.

ghost use Rattle.std.specs.Prelude.{◌≡◌, [], map, option_map, IfOk, OnOk};
ghost use Rattle.gl_verilog.specs.View.{assignment_of, expr_of};
ghost use Rattle.gl_verilog_faults.specs.Demands.{IsLooped};
ghost use Rattle.gl_verilog_loops.specs.Looping as looping;
ghost use Rattle.gl_verilog_loops.specs.Looping.{with_net, with_nets, seeded, spread, levelled, Grows, IsTold, AreSuspects, IsFirstOf};

use crate::ranks::{drivers_of, ranks_of};
use gl_bits::Memory;
use gl_verilog::{Assignment, Expr};
use indexmap::IndexSet;
use std::alloc::Global;

// One net more.
fn put_net(found: &mut IndexSet<usize>, net: usize) -> Result<(), Memory>
    ensures { OnOk result (found.new.keys ≡ with_net found.old.keys net) }
{
    found.insert(net)?;
    Ok(())
}

// The nets that stand in an expression.
#[tactic(auto, using(crate::proofs::Reaching::folds))]
fn put_nets(found: &mut IndexSet<usize>, value: &Expr) -> Result<(), Memory>
    ensures { OnOk result (found.new.keys ≡ with_nets found.old.keys (expr_of value.now)) }
{
    match value {
        Expr::Net(net) => put_net(found, *net),
        Expr::Literal { .. } => Ok(()),
        Expr::Invert { arg, .. } => put_nets(found, arg),
        Expr::Binary { left, right, .. } => {
            put_nets(found, left)?;
            put_nets(found, right)
        }
        Expr::Choose { test, yes, no } => {
            put_nets(found, test)?;
            put_nets(found, yes)?;
            put_nets(found, no)
        }
        Expr::Join { high, low, .. } => {
            put_nets(found, high)?;
            put_nets(found, low)
        }
        Expr::Select { net, .. } => put_net(found, *net),
        Expr::Read { address, .. } => put_nets(found, address),
    }
}

// What the assignments to a net read, from the last one on.
fn seed(found: &mut IndexSet<usize>, assignments: &[Assignment], net: usize) -> Result<(), Memory>
    ensures { OnOk result (found.new.keys
        ≡ seeded net (map assignment_of assignments.now) found.old.keys) }
{
    for done in 0..assignments.len() {
        let assignment = &assignments[assignments.len() - 1 - done];
        if assignment.target == net {
            put_nets(found, &assignment.value)?;
        }
    }
    Ok(())
}

// What the assignments to nets that are found read, from the last one on.
fn pass(found: &mut IndexSet<usize>, assignments: &[Assignment]) -> Result<(), Memory>
    ensures { OnOk result (found.new.keys
        ≡ spread (map assignment_of assignments.now) found.old.keys) }
{
    for done in 0..assignments.len() {
        let assignment = &assignments[assignments.len() - 1 - done];
        if found.contains(&assignment.target) {
            put_nets(found, &assignment.value)?;
        }
    }
    Ok(())
}

// What the assignment with this number reads, where its net is found.
fn put_led(
    found: &mut IndexSet<usize>,
    assignments: &[Assignment],
    driver: usize,
) -> Result<(), Memory>
    ensures { OnOk result (Grows (map assignment_of assignments.now)
        found.old.keys found.new.keys) }
{
    let Some(assignment) = assignments.get(driver) else {
        return Ok(());
    };
    if found.contains(&assignment.target) {
        put_nets(found, &assignment.value)?;
    }
    Ok(())
}

// What the drivers of the nets that are found read, of one net after another.
fn explore(
    found: &mut IndexSet<usize>,
    drivers: &[Option<usize>],
    assignments: &[Assignment],
) -> Result<(), Memory>
    ensures { OnOk result (Grows (map assignment_of assignments.now)
        found.old.keys found.new.keys) }
{
    for k in 0..drivers.len() {
        let Some(net) = found.get_index(k).copied() else {
            return Ok(());
        };
        if let Some(Some(driver)) = drivers.get(net) {
            put_led(found, assignments, *driver)?;
        }
    }
    Ok(())
}

// Whether a net depends on itself. What it leads to is found by the drivers, and then by passes
// until one finds no more: the first does not, where each net has its driver.
fn is_looped(
    alloc: Global,
    drivers: &[Option<usize>],
    assignments: &[Assignment],
    net: usize,
) -> Result<bool, Memory>
    ensures { IfOk result (λ b. IsTold b (IsLooped (map assignment_of assignments.now) net)) }
{
    let mut found = IndexSet::new(alloc);
    seed(&mut found, assignments, net)?;
    explore(&mut found, drivers, assignments)?;
    'passes: loop {
        let before = found.len();
        pass(&mut found, assignments)?;
        if found.len() == before {
            return Ok(found.contains(&net));
        }
    }
}

// The rank of a net; 0 where it has none.
fn rank_of(ranks: &[usize], net: usize) -> usize
    ensures { result ≡ looping.rank_of ranks.now net }
{
    match ranks.get(net) {
        Some(rank) => *rank,
        None => 0,
    }
}

// The highest rank of the nets in an expression.
fn highest(ranks: &[usize], value: &Expr) -> usize
    ensures { result ≡ looping.highest ranks.now (expr_of value.now) }
{
    match value {
        Expr::Net(net) => rank_of(ranks, *net),
        Expr::Literal { .. } => 0,
        Expr::Invert { arg, .. } => highest(ranks, arg),
        Expr::Binary { left, right, .. } => highest(ranks, left).max(highest(ranks, right)),
        Expr::Choose { test, yes, no } => {
            highest(ranks, test).max(highest(ranks, yes).max(highest(ranks, no)))
        }
        Expr::Join { high, low, .. } => highest(ranks, high).max(highest(ranks, low)),
        Expr::Select { net, .. } => rank_of(ranks, *net),
        Expr::Read { address, .. } => highest(ranks, address),
    }
}

// The nets that read one of their own rank. None are told where a net reads one of a higher rank.
fn level(
    alloc: Global,
    ranks: &[usize],
    assignments: &[Assignment],
) -> Result<Option<IndexSet<usize>>, Memory>
    ensures { IfOk result (λ o. option_map (λ s. s.keys) o
        ≡ levelled ranks.now (map assignment_of assignments.now) []) }
{
    let mut found = IndexSet::new(alloc);
    for assignment in assignments {
        let rank = rank_of(ranks, assignment.target);
        let above = highest(ranks, &assignment.value);
        if rank < above {
            return Ok(None);
        }
        if rank <= above {
            put_net(&mut found, assignment.target)?;
        }
    }
    Ok(Some(found))
}

// Whether a net may depend on itself.
fn is_suspect(suspects: &Option<IndexSet<usize>>, net: usize) -> bool
    ensures { result ≡ looping.is_suspect (option_map (λ s. s.keys) suspects.now) net }
{
    match suspects {
        Some(found) => found.contains(&net),
        None => true,
    }
}

// Whether a net depends on itself, which is searched only where it may.
fn is_in_loop(
    alloc: Global,
    drivers: &[Option<usize>],
    suspects: &Option<IndexSet<usize>>,
    assignments: &[Assignment],
    net: usize,
) -> Result<bool, Memory>
    requires { AreSuspects (map assignment_of assignments.now)
        (option_map (λ s. s.keys) suspects.now) }
    ensures { IfOk result (λ b. IsTold b (IsLooped (map assignment_of assignments.now) net)) }
{
    if !is_suspect(suspects, net) {
        return Ok(false);
    }
    is_looped(alloc, drivers, assignments, net)
}

// The first of these assignments whose net depends on itself, one after another.
fn search(
    alloc: Global,
    drivers: &[Option<usize>],
    suspects: &Option<IndexSet<usize>>,
    assignments: &[Assignment],
) -> Result<Option<usize>, Memory>
    requires { AreSuspects (map assignment_of assignments.now)
        (option_map (λ s. s.keys) suspects.now) }
    ensures { IfOk result (λ o. IsFirstOf (map assignment_of assignments.now) o) }
{
    for (i, assignment) in assignments.iter().enumerate() {
        if is_in_loop(alloc, drivers, suspects, assignments, assignment.target)? {
            return Ok(Some(i));
        }
    }
    Ok(None)
}

/// The number of the first assignment whose net depends on itself; None where there is none. The
/// nets are numbered below `nets`. Ranks tell most nets that do not, so that one search is made, or
/// none.
#[tactic(auto, using(crate::proofs::Ranking::suspected))]
pub fn first_looped(
    alloc: Global,
    nets: usize,
    assignments: &[Assignment],
) -> Result<Option<usize>, Memory>
    ensures { IfOk result (λ o. IsFirstOf (map assignment_of assignments.now) o) }
{
    let drivers = drivers_of(alloc, nets, assignments)?;
    let ranks = ranks_of(alloc, &drivers, assignments)?;
    let suspects = level(alloc, &ranks, assignments)?;
    search(alloc, &drivers, &suspects, assignments)
}
