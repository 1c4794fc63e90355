// The edges that are kept of those near some latitudes.
ghost use Rattle.std.specs.Prelude.{◌≡◌, [], ◌∷◌, ◌++◌, map, OnOk, not, ◌||◌};
ghost use Rattle.region.specs.Strips.{reaches, numbered, kept};
ghost use Rattle.plane_edges.specs.Views.{segment_of};

use plane_edges::{Edge, are_above, are_below};
use std::alloc::AllocError;

fn neither(a: bool, b: bool) -> bool
    ensures { result ≡ not (a || b) }
{
    !(a || b)
}

// The edge's closed range of latitudes meets that from `low` to `high`.
fn reaches(edge: &Edge, low: i64, high: i64) -> bool
    ensures { result ≡ reaches low high (segment_of edge.now) }
{
    neither(
        are_below(edge.ya, edge.yb, low),
        are_above(edge.ya, edge.yb, high),
    )
}

/// Adds the edge, if it reaches the latitudes from `low` to `high`.
pub(crate) fn keep_edge(
    edges: &mut Vec<Edge>,
    edge: Edge,
    low: i64,
    high: i64,
) -> Result<(), AllocError>
    ensures { OnOk result (map numbered edges.new.items
        ≡ map numbered edges.old.items ++ kept edge.polygon low high (segment_of edge ∷ [])) }
{
    if reaches(&edge, low, high) {
        edges.push(edge)?;
    }
    Ok(())
}
