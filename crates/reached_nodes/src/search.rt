ghost use Rattle.std.specs.Prelude.{◌≡◌, ◌<◌, ◌&&◌, ℕ, [], ◌∷◌, not, false, length, nat_lt, slice_index_or, IfOk, OnOk};
ghost use Rattle.reached_nodes.specs.Visits.{IsSearch, Visits};

use std::alloc::Global;
use xh_outside::NoMemory;

/// The nodes that a search has found.
#[derive(Drop)]
pub(crate) struct Search {
    /// Whether each node is found.
    pub(crate) marks: Vec<bool>,
    /// The nodes that are found, in the order in which they were.
    pub(crate) queue: Vec<usize>,
}

impl Search {
    /// A search that has found nothing, in a graph with so many nodes.
    pub(crate) fn new(alloc: Global, nodes: usize) -> Result<Search, NoMemory>
        ensures search { IfOk result (λ s. IsSearch nodes s.marks.items s.queue.items) }
        ensures none { IfOk result (λ s. s.queue.items ≡ []) }
    {
        let marks = vec![in alloc; false; nodes]?;
        Ok(Search {
            marks,
            queue: Vec::new(alloc),
        })
    }

    // Whether a number is a node that is not found yet.
    fn is_new(&self, node: usize) -> bool
        ensures { result ≡ (nat_lt node (length self.now.marks.items) && not (slice_index_or self.now.marks.items node false)) }
    {
        node < self.marks.len() && !self.marks[node]
    }

    // Finds a node. What is found already, or is no node, is passed over.
    fn visit(&mut self, node: usize) -> Result<(), NoMemory>
        requires { IsSearch (length self.old.marks.items) self.old.marks.items self.old.queue.items }
        ensures search { OnOk result (IsSearch (length self.old.marks.items) self.new.marks.items self.new.queue.items) }
        ensures visits { OnOk result (Visits (length self.old.marks.items) (node ∷ []) self.old.queue.items self.new.queue.items) }
    {
        if self.is_new(node) {
            self.queue.push(node)?;
            self.marks[node] = true;
        }
        Ok(())
    }

    /// Finds some nodes, one after the other.
    pub(crate) fn visit_all(&mut self, nodes: &[usize]) -> Result<(), NoMemory>
        requires { IsSearch (length self.old.marks.items) self.old.marks.items self.old.queue.items }
        ensures search { OnOk result (IsSearch (length self.old.marks.items) self.new.marks.items self.new.queue.items) }
        ensures visits { OnOk result (Visits (length self.old.marks.items) nodes.now self.old.queue.items self.new.queue.items) }
    {
        for node in nodes {
            self.visit(*node)?;
        }
        Ok(())
    }
}
