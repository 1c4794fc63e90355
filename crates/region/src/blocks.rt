// Edges that follow each other, in blocks with a box round each.
ghost use Rattle.std.specs.Prelude.{◌≡◌, ◌<◌, ◌≤◌, ◌≤ℤ◌, ◌+◌, ◌∷◌, take, length, int_lt, ◌||◌, IfOk};
ghost use Rattle.std.specs.List.{All};
ghost use Rattle.region.specs.Blocks.{IsHeld, AreBlocksOf};
ghost use Rattle.plane_edges.specs.declared.edges.Edge.{Edge};

use plane_edges::{Edge, Rect};
use std::alloc::{AllocError, Global};

/// A block has at most so many edges.
const MOST: usize = 16;

/// So many edges of one polygon that follow each other, and a box round them, in place units.
#[derive(Clone, Copy, Debug, PartialEq, Eq)]
pub(crate) struct Block {
    pub(crate) west: i64,
    pub(crate) east: i64,
    pub(crate) south: i64,
    pub(crate) north: i64,
    pub(crate) polygon: u32,
    pub(crate) count: usize,
}

// At most each of the three.
fn least(a: i64, b: i64, c: i64) -> i64
    ensures first { result ≤ℤ a }
    ensures second { result ≤ℤ b }
    ensures third { result ≤ℤ c }
{
    a.min(b).min(c)
}

// At least each of the three.
fn greatest(a: i64, b: i64, c: i64) -> i64
    ensures first { a ≤ℤ result }
    ensures second { b ≤ℤ result }
    ensures third { c ≤ℤ result }
{
    a.max(b).max(c)
}

impl Block {
    // The block of one edge.
    fn of_one(edge: &Edge) -> Block
        ensures held { IsHeld result edge.now }
        ensures count { result.count ≡ 1 }
    {
        Block {
            west: least(edge.xa, edge.xa, edge.xb),
            east: greatest(edge.xa, edge.xa, edge.xb),
            south: least(edge.ya, edge.ya, edge.yb),
            north: greatest(edge.ya, edge.ya, edge.yb),
            polygon: edge.polygon,
            count: 1,
        }
    }

    // The block with one more edge of its polygon.
    fn with(self, edge: &Edge) -> Block
        requires few { self.count < 16 }
        requires polygon { edge.now.polygon ≡ self.polygon }
        ensures held { IsHeld result edge.now }
        ensures wider { (e : Edge) → IsHeld self e → IsHeld result e }
        ensures count { result.count ≡ self.count + 1 }
    {
        Block {
            west: least(self.west, edge.xa, edge.xb),
            east: greatest(self.east, edge.xa, edge.xb),
            south: least(self.south, edge.ya, edge.yb),
            north: greatest(self.north, edge.ya, edge.yb),
            polygon: self.polygon,
            count: self.count + 1,
        }
    }

    /// The block of the first edges, as many as are of one polygon and fit.
    pub(crate) fn of_first(first: &Edge, rest: &[Edge]) -> Block
        ensures some { 0 < result.count }
        ensures few { result.count ≤ length rest.now + 1 }
        ensures held { All (IsHeld result) (take result.count (first.now ∷ rest.now)) }
    {
        let mut block = Block::of_one(first);
        for edge in rest {
            if block.count >= MOST || edge.polygon != block.polygon {
                return block;
            }
            block = block.with(edge);
        }
        block
    }

    /// The block's latitudes are beyond the box's.
    pub(crate) fn misses_latitudes(&self, r: &Rect) -> bool
        ensures { result ≡ (int_lt self.now.north r.now.y0 || int_lt r.now.y1 self.now.south) }
    {
        self.north < r.y0 || r.y1 < self.south
    }

    /// The block's longitudes are beyond the box's.
    pub(crate) fn misses_longitudes(&self, r: &Rect) -> bool
        ensures { result ≡ (int_lt self.now.east r.now.x0 || int_lt r.now.x1 self.now.west) }
    {
        self.east < r.x0 || r.x1 < self.west
    }
}

/// The blocks of a strip's edges.
pub(crate) fn blocks_of(alloc: Global, edges: &[Edge]) -> Result<Vec<Block>, AllocError>
    ensures { IfOk result (λ blocks. AreBlocksOf blocks.items edges.now) }
{
    let mut blocks = Vec::new(alloc);
    let mut left = edges;
    'turns: while let Some((first, rest)) = left.split_first() {
        let block = Block::of_first(first, rest);
        blocks.push(block)?;
        (_, left) = left.split_at(block.count);
    }
    Ok(blocks)
}
