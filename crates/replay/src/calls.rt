// The session calls that the program makes. A call that does not fit says so and leaves nothing.
ghost use Rattle.std.specs.Prelude.{◌≡◌, ◌≤◌, ◌<◌, length, Result};
ghost use Rattle.std.specs.Fn.{FnOnceTakesAtMut, FnOnceReturnsAtMut};
ghost use Rattle.diagram.specs.Tensor.{masks};
ghost use Rattle.diagram.specs.Entry.{QubitsInRange};
ghost use Rattle.diagram.specs.Diagram.{IsEdge, MayLower};
ghost use Rattle.diagram.specs.declared.node.Edge as edge;
ghost use Rattle.diagram.specs.declared.diagram.Diagram as diagrams;
ghost use Rattle.diagram.specs.declared.diagram.Full as full;
ghost use Rattle.replay.specs.Replay.{IsReplay, KeepsReplay, MaySetWithLoans};

use diagram::diagram::{Diagram, Full};
use diagram::gate::{Gate, QubitCount};
use diagram::node::{Edge, Index, Mask};
use diagram::registers::{RegisterNumber, Registers};
use std::io::Stdout;

// A diagram, the registers that hold edges of it, and where their contents are printed. (`IsReplay` stands at each
// method, and in no invariant of the type: within `set` it is not true.)
#[derive(Drop)]
pub struct Replay<'a> {
    pub stdout: Stdout,
    pub diagram: Diagram<'a>,
    pub registers: Registers,
}

impl<'a> Replay<'a> {
    // No nodes, and empty registers.
    pub fn start(stdout: Stdout, store: &'a mut [u8], cache: &'a mut [u64]) -> Replay<'a>
        ensures store { result.diagram.store.ghost_name ≡ store.entry.ghost_name }
        ensures cache { result.diagram.cache.ghost_name ≡ cache.entry.ghost_name }
        ensures store_long { length result.diagram.store.now ≡ length store.old }
        ensures cache_long { length result.diagram.cache.now ≡ length cache.old }
        ensures replay { IsReplay result }
    {
        let mut diagram = Diagram::over(store, cache);
        diagram.start();
        Replay {
            stdout,
            diagram,
            registers: Registers::empty(),
        }
    }

    // Register d is set to the edge of a step; or the step did not fit, and the nodes are those before it.
    fn set<F: FnOnce(&mut Diagram<'a>) -> Result<Edge, Full>>(&mut self, d: RegisterNumber, step: F)
        requires ready { IsReplay self.old × (d < 16) }
        requires takes { FnOnceTakesAtMut F.FnOnce step self.old.diagram }
        requires gives { (m : Result edge.Edge full.Full) (t : diagrams.Diagram) →
            FnOnceReturnsAtMut F.FnOnce step self.old.diagram m t → MaySetWithLoans self.old t m }
        ensures loans { KeepsReplay self.old self.new }
        ensures replay { IsReplay self.new }
    {
        match self.diagram.attempt(step) {
            Ok(e) => self.registers.put(d, e),
            Err(_) => println!(self.stdout; "full").unwrap_or(()),
        }
    }

    // Register d is a gate.
    pub fn gate(&mut self, d: RegisterNumber, g: Gate)
        requires { IsReplay self.old × (QubitsInRange g × (d < 16)) }
        ensures loans { KeepsReplay self.old self.new }
        ensures replay { IsReplay self.new }
    {
        self.set(d, |diagram| diagram.gate(g));
    }

    // Register d is the product of two edges, added over the indices of m.
    fn multiply(&mut self, d: RegisterNumber, a: Edge, b: Edge, m: Mask)
        requires { IsReplay self.old ×
            (IsEdge self.old.diagram a × (IsEdge self.old.diagram b × ((d < 16) × (m < masks)))) }
        ensures loans { KeepsReplay self.old self.new }
        ensures replay { IsReplay self.new }
    {
        self.set(d, |diagram| diagram.contract(a, b, m));
    }

    // Register d is the product of registers 0 and 1, if they are filled.
    pub fn cont(&mut self, d: RegisterNumber, m: Mask)
        requires { IsReplay self.old × ((d < 16) × (m < masks)) }
        ensures loans { KeepsReplay self.old self.new }
        ensures replay { IsReplay self.new }
    {
        let Some(a) = self.registers.get(0) else {
            return;
        };
        let Some(b) = self.registers.get(1) else {
            return;
        };
        self.multiply(d, a, b, m);
    }

    // Of the nodes only those stay that the registers reach.
    pub fn collect(&mut self)
        requires { IsReplay self.old }
        ensures loans { KeepsReplay self.old self.new }
        ensures replay { IsReplay self.new }
    {
        self.diagram.collect(&mut self.registers);
    }

    // Register 0 is the unit on n qubits.
    pub fn unit(&mut self, n: QubitCount)
        requires { IsReplay self.old × (n ≤ 8) }
        ensures loans { KeepsReplay self.old self.new }
        ensures replay { IsReplay self.new }
    {
        self.set(0, |diagram| diagram.unit(n));
    }

    // Register 0 is an edge's tensor with index k renamed k - 1.
    fn lower(&mut self, a: Edge, k: Index)
        requires { IsReplay self.old × (IsEdge self.old.diagram a × MayLower self.old.diagram a k) }
        ensures loans { KeepsReplay self.old self.new }
        ensures replay { IsReplay self.new }
    {
        self.set(0, |diagram| diagram.lower(a, k));
    }

    // The same for what register 0 holds, where that does not depend on k - 1.
    pub fn low(&mut self, k: Index)
        requires { IsReplay self.old × ((1 ≤ k) × (k ≤ 23)) }
        ensures loans { KeepsReplay self.old self.new }
        ensures replay { IsReplay self.new }
    {
        let Some(a) = self.registers.get(0) else {
            return;
        };
        if self.diagram.depends(a, k - 1) {
            return;
        }
        self.lower(a, k);
    }
}
