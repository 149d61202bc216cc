//! An order of assignments proposed by counting what each waits for. That it is one is tried where
//! it is used: nothing that is proved rests on this file, but the time that a search takes.

use gl_verilog::{Assignment, Expr};
use std::alloc::{AllocError, Global};

/// The assignments by what they read.
#[derive(Drop)]
struct Readers {
    // By net: the assignments that read it, each as often as it does.
    of_net: Vec<Vec<usize>>,
    // By assignment: how many of its reads are of nets that wait.
    waits: Vec<usize>,
}

impl Readers {
    // No readers of `nets` nets.
    fn new(alloc: Global, nets: usize) -> Result<Readers, AllocError> {
        let mut of_net = Vec::new(alloc);
        for _net in 0..nets {
            of_net.push(Vec::new(alloc))?;
        }
        Ok(Readers {
            of_net,
            waits: Vec::new(alloc),
        })
    }

    // An assignment reads a net. Whether the net waits.
    fn add(&mut self, k: usize, net: usize, marks: &[bool]) -> Result<bool, AllocError> {
        if !marks.get(net).copied().unwrap_or(false) {
            return Ok(false);
        }
        if let Some(readers) = self.of_net.get_mut(net) {
            readers.push(k)?;
        }
        Ok(true)
    }

    // How many of the reads of this expression of an assignment are of nets that wait.
    fn add_all(&mut self, k: usize, expr: &Expr, marks: &[bool]) -> Result<usize, AllocError> {
        match expr {
            Expr::Net(net) => Ok(usize::from(self.add(k, *net, marks)?)),
            Expr::Literal { .. } => Ok(0),
            Expr::Invert { arg, .. } => self.add_all(k, arg, marks),
            Expr::Binary { left, right, .. } => {
                let first = self.add_all(k, left, marks)?;
                Ok(first.saturating_add(self.add_all(k, right, marks)?))
            }
            Expr::Choose { test, yes, no } => {
                let first = self.add_all(k, test, marks)?;
                let second = self.add_all(k, yes, marks)?;
                let third = self.add_all(k, no, marks)?;
                Ok(first.saturating_add(second).saturating_add(third))
            }
            Expr::Join { high, low, .. } => {
                let first = self.add_all(k, high, marks)?;
                Ok(first.saturating_add(self.add_all(k, low, marks)?))
            }
            Expr::Select { net, .. } => Ok(usize::from(self.add(k, *net, marks)?)),
            Expr::Read { address, .. } => self.add_all(k, address, marks),
        }
    }

    // One of the nets that an assignment waits for has its place; whether it was the last.
    fn release(&mut self, k: usize) -> bool {
        let Some(waits) = self.waits.get_mut(k) else {
            return false;
        };
        if *waits == 0 {
            return false;
        }
        *waits -= 1;
        *waits == 0
    }

    // A net has its place: the assignments that waited for it alone come next.
    fn release_all(&mut self, net: usize, order: &mut Vec<usize>) -> Result<(), AllocError> {
        let Some(readers) = self.of_net.get_mut(net) else {
            return Ok(());
        };
        let readers = std::mem::try_take(readers)?;
        for k in &readers {
            if self.release(*k) {
                order.push(*k)?;
            }
        }
        Ok(())
    }
}

/// The numbers of the assignments in an order in which each reads only what stands before it, as
/// far as there is one. The nets that they drive are marked.
pub(crate) fn proposed(
    alloc: Global,
    marks: &[bool],
    assignments: &[Assignment],
) -> Result<Vec<usize>, AllocError> {
    let mut readers = Readers::new(alloc, marks.len())?;
    let mut order = Vec::new(alloc);
    for (k, assignment) in assignments.iter().enumerate() {
        let waits = readers.add_all(k, &assignment.value, marks)?;
        readers.waits.push(waits)?;
        if waits == 0 {
            order.push(k)?;
        }
    }
    for at in 0..assignments.len() {
        let Some(k) = order.get(at).copied() else {
            break;
        };
        if let Some(assignment) = assignments.get(k) {
            readers.release_all(assignment.target, &mut order)?;
        }
    }
    Ok(order)
}
