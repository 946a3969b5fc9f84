// The way back: how a path's score ends, the last state, and the path that leads to it.
ghost use Rattle.std.specs.Prelude.{◌≡◌, ◌-◌, ◌<◌, length};
ghost use Rattle.floats.specs.Float.{at};
ghost use Rattle.lists.specs.Lists.{over};
ghost use Rattle.best_path.specs.Best.{greatest};
ghost use Rattle.best_path.specs.Walk.{ended, path_to};
ghost use Rattle.best_path.specs.inner.Back.{from_at, Traceable};

use model::entry;

// The score of the best path that ends in state k, where `row` is the last row: its value, and with an end state its end entry, which is
// added last. The caller shows that the row and the end table have state k.
#[tactic(auto, unfolding(crate::specs::Walk::ended))]
pub fn close(ends: bool, end: &[f64], row: &[f64], k: usize) -> f64
    requires { (k < length end.now) × (k < length row.now) }
    ensures { result ≡ ended ends (at end.now k) (at row.now k) }
{
    let value = entry(row, k);
    if ends { value + entry(end, k) } else { value }
}

// The state in which the best path ends, where `row` is the last row: the highest-numbered of the greatest scores. The caller shows that
// there is a state, and an end entry for each.
#[tactic(auto, using(crate::proofs::Turn::best_none, crate::proofs::Turn::best_more), unfolding(crate::specs::Best::greatest))]
pub fn last_state(ends: bool, end: &[f64], row: &[f64]) -> usize
    requires { (0 < length row.now) × (length end.now ≡ length row.now) }
    ensures { result ≡ greatest (length row.now) (λ j. ended ends (at end.now j) (at row.now j)) }
{
    let mut best = 0;
    for k in 0..row.len() {
        if close(ends, end, row, best) <= close(ends, end, row, k) {
            best = k;
        }
    }
    best
}

// The path of n states that ends in `last`, laid from place `start` on and written from its end. The caller shows that there are n rows of
// predecessors, each a state, and room.
pub fn trace(states: usize, from: &[u8], n: usize, last: usize, start: usize, path: &mut [u8])
    requires { Traceable states n last from.now start path.old }
    ensures { path.new ≡ over start (path_to (from_at states from.now) (n - 1) last) path.old }
{
    let mut k = last;
    for t in (1..n).rev() {
        path[start + t] = k as u8;
        k = from[t * states + k] as usize;
    }
    path[start] = k as u8;
}
