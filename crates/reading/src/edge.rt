// EDGE: its operands, and the rows of the fault table that it is held against.
ghost use Rattle.std.specs.Prelude.{◌≡◌};
ghost use Rattle.reading.specs.Commands.{of_kind, edge, bad_edge};
ghost use Rattle.plan.specs.Record.{Fitting};

use crate::command::Command;
use crate::kinds::{EDGE_GROUP, EDGE_OPERANDS};
use crate::order::is_late;
use plan::{Fault, Plan};

// Whether an edge from u to v names no unit, joins a unit to itself, or is there already.
fn is_bad_edge(u: u8, v: u8, read: Plan) -> bool
    requires { Fitting read }
    ensures { result ≡ bad_edge read u v }
{
    let from = u as usize;
    let to = v as usize;
    if read.unit_count <= from {
        return true;
    }
    if read.unit_count <= to {
        return true;
    }
    if u == v {
        return true;
    }
    let predecessors = read.predecessors;
    atoms::is_subset(atoms::single(to), predecessors[from])
}

// The EDGE with these operands, or the fault that stops it.
pub fn read_edge(operands: &[u8], at: usize, read: Plan) -> Command
    requires { Fitting read }
    ensures { result ≡ of_kind read at edge operands.now }
{
    if is_late(EDGE_GROUP, read) {
        return Command::Fault(Fault::OutOfOrder(at));
    }
    if operands.len() < EDGE_OPERANDS {
        return Command::Fault(Fault::Truncated(at));
    }
    let u = operands[0];
    let v = operands[1];
    if is_bad_edge(u, v, read) {
        return Command::Fault(Fault::BadEdge(at));
    }
    Command::Edge(u, v)
}
