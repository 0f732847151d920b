// A tree put into the caller's buffer, if there is room.
ghost use Rattle.std.specs.Prelude.{◌≡◌, true, [], ◌∷◌, ◌+◌, ◌≤◌, take};
ghost use Rattle.instance.specs.Limits.{max_vertices, max_tries};
ghost use Rattle.enumeration.specs.Events.{listed};
ghost use Rattle.backtracking.specs.Listing.{is_complete, Walks};

use crate::Progress;
use enumeration::Ended;
use instance::limits::VERTICES;

// The tree stands behind those before it; the walk ends before the first that has no room.
pub fn store_tree(parents: &[u8; VERTICES], n: u32, progress: Progress, out: &mut [u8]) -> Progress
    requires { (n ≤ max_vertices) × (is_complete progress.ended ≡ true) × (progress.trees + progress.left ≤ max_tries) }
    ensures { Walks n (listed (take n parents.now) ∷ []) progress out.old out.new result }
{
    let size = n as usize;
    let start = (progress.trees as usize) * size;
    let end = start + size;
    if out.len() < end {
        return Progress {
            left: progress.left,
            trees: progress.trees,
            ended: Ended::NoRoom,
        };
    }
    out[start..end].copy_from_slice(&parents[..size]);
    Progress {
        left: progress.left,
        trees: progress.trees + 1,
        ended: progress.ended,
    }
}
