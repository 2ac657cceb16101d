//! Graphs by lists of neighbors.

ghost use Rattle.std.specs.Prelude.{◌≡◌, ℕ, ◌<◌, ◌-◌, ◌^◌, List, IfOk, OnOk, IsSome, length, replicate, slice_get, slice_set};
ghost use Rattle.p21_express.specs.WellFormed.{HasNoCycle};
ghost use Rattle.p21_express.specs.Graph.{lists, neighbors, HasEdge};
ghost use Rattle.p21_express.specs.Search.{State, state_of, enter, meet, follow, finish, step, IsSearchFrom, IsAtRest, IsAtEnd, IsBlank, IsWhole};
ghost use Rattle.std.specs.Bool.{MatchBool};

use std::alloc::{AllocError, Global};

/// For each vertex those to which an edge leads.
pub(super) type Graph = Vec<Vec<usize>>;

/// The same value so many times.
fn repeated<T: Copy>(alloc: Global, value: T, count: usize) -> Result<Vec<T>, AllocError>
    ensures { IfOk result (λ list. list.items ≡ replicate count value) }
{
    let mut list = Vec::new(alloc);
    for _ in 0..count {
        list.push(value)?;
    }
    Ok(list)
}

/// Writes a value to a place, where the list has it.
fn set<T: Copy>(list: &mut Vec<T>, place: usize, value: T)
    ensures { list.new.items ≡ slice_set list.old.items place value }
{
    if let Some(one) = list.get_mut(place) {
        *one = value;
    }
}

/// The graph with each edge turned round.
fn turned(alloc: Global, graph: &Graph) -> Result<Graph, AllocError> {
    let mut turned = Vec::new(alloc);
    for _ in graph {
        turned.push(Vec::new(alloc))?;
    }
    for (from, edges) in graph.iter().enumerate() {
        for to in edges {
            if let Some(back) = turned.get_mut(*to) {
                back.push(from)?;
            }
        }
    }
    Ok(turned)
}

/// How far a search came with a vertex.
#[derive(Clone, Copy)]
enum Mark {
    New,
    OnWay,
    Finished,
}

/// A search in depth over a graph.
#[derive(Drop)]
struct Search {
    marks: Vec<Mark>,
    /// The vertices on the way, and how many edges of each were taken.
    way: Vec<(usize, usize)>,
    /// Vertices of which all edges were taken, in that order.
    finished: Vec<usize>,
    /// Whether an edge led back to a vertex on the way.
    is_cyclic: bool,
}

impl Search {
    /// A search over a graph of so many vertices.
    fn new(alloc: Global, count: usize) -> Result<Search, AllocError>
        ensures { IfOk result (λ s. (g : List (List ℕ)) → length g ≡ count → IsBlank g (state_of s)) }
    {
        Ok(Search {
            marks: repeated(alloc, Mark::New, count)?,
            way: Vec::new(alloc),
            finished: Vec::new(alloc),
            is_cyclic: false,
        })
    }

    /// A new vertex goes on the way.
    fn enter(&mut self, vertex: usize) -> Result<(), AllocError>
        ensures { OnOk result (state_of self.new ≡ enter vertex (state_of self.old)) }
    {
        set(&mut self.marks, vertex, Mark::OnWay);
        self.way.push((vertex, 0))?;
        Ok(())
    }

    /// A vertex is met, to which an edge leads from the way.
    fn meet(&mut self, vertex: usize) -> Result<(), AllocError>
        ensures { OnOk result (state_of self.new ≡ meet (slice_get self.old.marks.items vertex) vertex (state_of self.old)) }
    {
        match self.marks.get(vertex).copied() {
            Some(Mark::New) => self.enter(vertex)?,
            Some(Mark::OnWay) => self.is_cyclic = true,
            _ => {}
        }
        Ok(())
    }

    /// An edge is taken from the vertex that was the last on the way.
    fn follow(&mut self, vertex: usize, taken: usize, to: usize) -> Result<(), AllocError>
        requires { taken < 2 ^ 64 - 1 }
        ensures { OnOk result (state_of self.new ≡ follow vertex taken to (state_of self.old)) }
    {
        self.way.push((vertex, taken + 1))?;
        self.meet(to)
    }

    /// All edges were taken of the vertex that was the last on the way.
    fn finish(&mut self, vertex: usize) -> Result<(), AllocError>
        ensures { OnOk result (state_of self.new ≡ finish vertex (state_of self.old)) }
    {
        set(&mut self.marks, vertex, Mark::Finished);
        self.finished.push(vertex)?;
        Ok(())
    }

    /// One edge more of the vertex that was the last on the way, or its end.
    fn step(&mut self, graph: &Graph, vertex: usize, taken: usize) -> Result<(), AllocError>
        ensures { OnOk result (state_of self.new ≡ step (lists graph.now.items) vertex taken (state_of self.old)) }
    {
        match next(graph, vertex, taken) {
            Some(to) => self.follow(vertex, taken, to),
            None => self.finish(vertex),
        }
    }

    /// Goes on until the way is empty.
    fn go_on(&mut self, graph: &Graph) -> Result<(), AllocError>
        ensures { (start : ℕ) (first : State) → IsSearchFrom (lists graph.now.items) start first (state_of self.old) → OnOk result (IsAtEnd (lists graph.now.items) start first (state_of self.new)) }
    {
        while let Some((vertex, taken)) = self.way.pop() {
            self.step(graph, vertex, taken)?;
        }
        Ok(())
    }

    /// Finishes a vertex, and all to which it leads.
    fn from(&mut self, graph: &Graph, vertex: usize) -> Result<(), AllocError>
        ensures { IsAtRest (lists graph.now.items) (state_of self.old) → OnOk result (IsAtEnd (lists graph.now.items) vertex (state_of self.old) (state_of self.new)) }
    {
        self.meet(vertex)?;
        self.go_on(graph)
    }

    /// A search from each vertex.
    fn whole(alloc: Global, graph: &Graph) -> Result<Search, AllocError>
        ensures { IfOk result (λ s. IsWhole (lists graph.now.items) (state_of s)) }
    {
        let mut search = Search::new(alloc, graph.len())?;
        for vertex in 0..graph.len() {
            search.from(graph, vertex)?;
        }
        Ok(search)
    }
}

/// The edge of a vertex that is next to be taken.
fn next(graph: &Graph, vertex: usize, taken: usize) -> Option<usize>
    ensures edge { result ≡ slice_get (neighbors (lists graph.now.items) vertex) taken }
    ensures fits { IsSome result → taken < 2 ^ 64 - 1 }
{
    let edges = graph.get(vertex)?;
    if taken < edges.len() {
        Some(edges[taken])
    } else {
        None
    }
}

/// Whether some vertex leads to itself.
pub(super) fn is_cyclic(alloc: Global, graph: &Graph) -> Result<bool, AllocError>
    ensures { IfOk result (λ answer. MatchBool answer (¬ (HasNoCycle (HasEdge (lists graph.now.items)))) (HasNoCycle (HasEdge (lists graph.now.items)))) }
{
    Ok(Search::whole(alloc, graph)?.is_cyclic)
}

/// For each vertex whether it lies on a cycle.
pub(super) fn on_cycles(alloc: Global, graph: &Graph) -> Result<Vec<bool>, AllocError> {
    let whole = Search::whole(alloc, graph)?;
    let turned = turned(alloc, graph)?;
    let mut on = repeated(alloc, false, graph.len())?;
    let mut search = Search::new(alloc, graph.len())?;
    for vertex in whole.finished.iter().rev() {
        let before = search.finished.len();
        search.from(&turned, *vertex)?;
        if search.finished.len() > before.saturating_add(1) {
            set_from(&mut on, &search.finished, before);
        }
    }
    for (vertex, edges) in graph.iter().enumerate() {
        if edges.contains(&vertex) {
            set(&mut on, vertex, true);
        }
    }
    Ok(on)
}

/// Writes true for the vertices of a list from a place on.
fn set_from(on: &mut Vec<bool>, vertices: &[usize], from: usize) {
    for vertex in vertices.iter().skip(from) {
        set(on, *vertex, true);
    }
}
