ghost use Rattle.std.specs.Prelude.{◌≡◌, ℕ, length, map, IfOk};
ghost use Rattle.std.specs.List.{range_with_len};
ghost use Rattle.spec_types.specs.Reached.{is_reached};

use crate::search::Search;
use std::alloc::Global;
use xh_outside::NoMemory;

/// Which nodes of a graph are reached from some of them, by a search in breadth (Cormen et al., "Breadth-first search").
///
/// Nodes have numbers from 0; to each belong those to which an edge leads from it. Numbers that are no nodes are passed
/// over. It takes time linear in the number of nodes and edges. The only error is that there is no memory for it.
pub fn reached(alloc: Global, edges: &[Vec<usize>], seeds: &[usize]) -> Result<Vec<bool>, NoMemory>
    ensures { IfOk result (λ v. v.items ≡ map (is_reached (map (λ e. e.items) edges.now) seeds.now) (range_with_len 0 (length edges.now))) }
{
    let mut search = Search::new(alloc, edges.len())?;
    search.visit_all(seeds)?;
    let mut next = 0;
    while next < search.queue.len() {
        let node = search.queue[next];
        search.visit_all(&edges[node])?;
        next += 1;
    }
    Ok(search.marks)
}
