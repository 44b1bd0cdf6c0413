//! Numbers of which the least is found and dropped fast.

ghost use Rattle.std.specs.Prelude.{◌≡◌, [], IfOk, IfSome, IfNone};
ghost use Rattle.clause_solver.specs.Watching.{IsWith, IsLeast, DropsLeast};

use std::alloc::{AllocError, Global};
use std::cmp::Reverse;
use std::collections::BinaryHeap;
use std::marker::Model;

/// Numbers, each perhaps more than once, in a heap with the least one on top.
#[derive(Drop)]
pub struct MinHeap {
    heap: BinaryHeap<Reverse<u32>>,
}

impl Model for MinHeap {
    ghost use Rattle.std.specs.Prelude.{List, ℕ, map};
    ghost use Rattle.std.specs.BinaryHeap.{IsHeap, heap_items};
    ghost use Rattle.std.specs.Ordering.{nat_cmp};

    ghost Value = { List ℕ };

    ghost view = { λ n. map (λ r. r.0) (heap_items n.heap) };

    ghost invariant = { λ n. IsHeap (λ x y. nat_cmp y.0 x.0) (heap_items n.heap) };
}

impl MinHeap {
    /// No number.
    pub fn new(alloc: Global) -> MinHeap
        ensures { result ≡ [] }
    {
        MinHeap {
            heap: BinaryHeap::new(alloc),
        }
    }

    /// One more number.
    pub fn push(&mut self, number: u32) -> Result<(), AllocError>
        ensures { IfOk result (λ _. IsWith number self.old self.new) }
    {
        self.heap.push(Reverse(number))?;
        Ok(())
    }

    /// The least number.
    pub fn least(&self) -> Option<u32>
        ensures least { IfSome result (IsLeast self.now) }
        ensures none { IfNone result (self.now ≡ []) }
    {
        let top = self.heap.peek()?;
        Some(top.0)
    }

    /// The least number goes, once.
    pub fn drop_least(&mut self)
        ensures { DropsLeast self.old self.new }
    {
        let _least = self.heap.pop();
    }

    /// All numbers go.
    pub fn clear(&mut self)
        ensures { self.new ≡ [] }
    {
        self.heap.clear();
    }
}
