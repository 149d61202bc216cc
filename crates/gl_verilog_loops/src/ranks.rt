//! Ranks of nets, by which those that may depend on themselves are told from the others: proposed
//! by one walk over what the assignments read. That a rank says so is tried where it is used:
//! nothing that is proved rests on this file, but the time that a search takes.

use gl_verilog::{Assignment, Expr};
use std::alloc::{AllocError, Global};

// The number at a place; 0 where there is none.
fn at(numbers: &[usize], k: usize) -> usize {
    match numbers.get(k) {
        Some(number) => *number,
        None => 0,
    }
}

// Puts a number at a place, where there is one.
fn put(numbers: &mut Vec<usize>, k: usize, number: usize) {
    if let Some(there) = numbers.get_mut(k) {
        *there = number;
    }
}

// So many zeros.
fn zeros(alloc: Global, count: usize) -> Result<Vec<usize>, AllocError> {
    let mut all = Vec::new(alloc);
    for _zero in 0..count {
        all.push(0)?;
    }
    Ok(all)
}

/// By net: the number of the last assignment that drives it.
pub(crate) fn drivers_of(
    alloc: Global,
    nets: usize,
    assignments: &[Assignment],
) -> Result<Vec<Option<usize>>, AllocError> {
    let mut all: Vec<Option<usize>> = Vec::new(alloc);
    for _net in 0..nets {
        all.push(None)?;
    }
    for (k, assignment) in assignments.iter().enumerate() {
        if let Some(driver) = all.get_mut(assignment.target) {
            *driver = Some(k);
        }
    }
    Ok(all)
}

/// A walk over the assignments, each to those that drive what it reads; all by the numbers of
/// assignments.
#[derive(Drop)]
struct Walk {
    // What all of them read, one after another.
    reads: Vec<usize>,
    // Where the next read of each stands, and where its reads end.
    next: Vec<usize>,
    ends: Vec<usize>,
    // When each was entered, from 1; 0 where it was not.
    entered: Vec<usize>,
    // The earliest that each is known to lead to, of those that are open.
    low: Vec<usize>,
    // The rank of each, from 1; 0 where it has none.
    ranks: Vec<usize>,
    // Those that were entered and have no rank, and those that the walk is in.
    open: Vec<usize>,
    path: Vec<usize>,
    // When the last one was entered, and the last rank.
    clock: usize,
    rank: usize,
}

impl Walk {
    // Nothing is walked yet, over `count` assignments.
    fn new(alloc: Global, count: usize) -> Result<Walk, AllocError> {
        Ok(Walk {
            reads: Vec::new(alloc),
            next: zeros(alloc, count)?,
            ends: zeros(alloc, count)?,
            entered: zeros(alloc, count)?,
            low: zeros(alloc, count)?,
            ranks: zeros(alloc, count)?,
            open: Vec::new(alloc),
            path: Vec::new(alloc),
            clock: 0,
            rank: 0,
        })
    }

    // A net is read.
    fn read(&mut self, drivers: &[Option<usize>], net: usize) -> Result<(), AllocError> {
        if let Some(Some(driver)) = drivers.get(net) {
            self.reads.push(*driver)?;
        }
        Ok(())
    }

    // The nets of an expression are read.
    fn read_all(&mut self, drivers: &[Option<usize>], value: &Expr) -> Result<(), AllocError> {
        match value {
            Expr::Net(net) => self.read(drivers, *net),
            Expr::Literal { .. } => Ok(()),
            Expr::Invert { arg, .. } => self.read_all(drivers, arg),
            Expr::Binary { left, right, .. } => {
                self.read_all(drivers, left)?;
                self.read_all(drivers, right)
            }
            Expr::Choose { test, yes, no } => {
                self.read_all(drivers, test)?;
                self.read_all(drivers, yes)?;
                self.read_all(drivers, no)
            }
            Expr::Join { high, low, .. } => {
                self.read_all(drivers, high)?;
                self.read_all(drivers, low)
            }
            Expr::Select { net, .. } => self.read(drivers, *net),
            Expr::Read { address, .. } => self.read_all(drivers, address),
        }
    }

    // What each assignment reads.
    fn gather(
        &mut self,
        drivers: &[Option<usize>],
        assignments: &[Assignment],
    ) -> Result<(), AllocError> {
        for (k, assignment) in assignments.iter().enumerate() {
            put(&mut self.next, k, self.reads.len());
            self.read_all(drivers, &assignment.value)?;
            put(&mut self.ends, k, self.reads.len());
        }
        Ok(())
    }

    // An assignment is entered.
    fn enter(&mut self, k: usize) -> Result<(), AllocError> {
        self.clock = self.clock.saturating_add(1);
        put(&mut self.entered, k, self.clock);
        put(&mut self.low, k, self.clock);
        self.open.push(k)?;
        Ok(())
    }

    // An assignment is left. If it leads to none that was entered before it, all that is open from
    // it on has one rank.
    fn leave(&mut self, k: usize) {
        if at(&self.low, k) != at(&self.entered, k) {
            return;
        }
        self.rank = self.rank.saturating_add(1);
        for _open in 0..self.open.len() {
            let Some(last) = self.open.pop() else {
                return;
            };
            put(&mut self.ranks, last, self.rank);
            if last == k {
                return;
            }
        }
    }

    // A read of an assignment that was entered: it is known to lead as far as that.
    fn pass(&mut self, k: usize, read: usize) {
        if at(&self.ranks, read) == 0 && at(&self.low, read) < at(&self.low, k) {
            let low = at(&self.low, read);
            put(&mut self.low, k, low);
        }
        let next = at(&self.next, k).saturating_add(1);
        put(&mut self.next, k, next);
    }

    // A step at the last assignment of the path.
    fn step(&mut self, k: usize) -> Result<(), AllocError> {
        if at(&self.entered, k) == 0 {
            return self.enter(k);
        }
        let place = at(&self.next, k);
        if place >= at(&self.ends, k) {
            let _last = self.path.pop();
            self.leave(k);
            return Ok(());
        }
        let read = at(&self.reads, place);
        if at(&self.entered, read) == 0 {
            self.path.push(read)?;
            return Ok(());
        }
        self.pass(k, read);
        Ok(())
    }

    // As many steps as a walk can have: each assignment is entered and left once, and each read is
    // followed and passed once.
    fn most_steps(&self) -> usize {
        let all = self.ends.len().saturating_add(self.reads.len());
        all.saturating_mul(2).saturating_add(2)
    }

    // All to which an assignment leads, which was not entered.
    fn follow(&mut self, k: usize) -> Result<(), AllocError> {
        self.path.push(k)?;
        for _step in 0..self.most_steps() {
            let Some(last) = self.path.last().copied() else {
                return Ok(());
            };
            self.step(last)?;
        }
        Ok(())
    }
}

/// The ranks of all nets: each net that an assignment drives has one from 1, and none below those
/// of the nets that it reads; those of one rank depend on each other.
pub(crate) fn ranks_of(
    alloc: Global,
    drivers: &[Option<usize>],
    assignments: &[Assignment],
) -> Result<Vec<usize>, AllocError> {
    let mut walk = Walk::new(alloc, assignments.len())?;
    walk.gather(drivers, assignments)?;
    for k in 0..assignments.len() {
        if at(&walk.entered, k) == 0 {
            walk.follow(k)?;
        }
    }
    let mut all = zeros(alloc, drivers.len())?;
    for (k, assignment) in assignments.iter().enumerate() {
        put(&mut all, assignment.target, at(&walk.ranks, k));
    }
    Ok(all)
}
