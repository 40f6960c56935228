// Columns: an entry is taken out, and put back, with the length of its column. A column's length is counted on its head itself, which isn't
// below 0, so that no test stands in the loops that count.
ghost use Rattle.std.specs.Prelude.{◌≡◌, ◌+◌, ◌-◌, ◌<◌, length, set, pos};
ghost use Rattle.rules.specs.Bounds.{node_bound};
ghost use Rattle.links.specs.Head.{item_of, head, Growing};
ghost use Rattle.links.specs.Column.{at, cut_up, cut_down, tie_up, tie_down};
ghost use Rattle.links.specs.Nodes.{SameNodes};

use crate::nodes::Nodes;

impl<'a> Nodes<'a> {
    // Takes node x out of its column.
    pub fn unlink(&mut self, x: usize)
        requires { (x < length self.old.up.now) × (x < length self.old.down.now) × (at self.old.up.now x < length self.old.down.now) × (at self.old.down.now x < length self.old.up.now) }
        ensures nodes { SameNodes self.old self.new }
        ensures heads { self.new.heads.now ≡ self.old.heads.now }
        ensures up { self.new.up.now ≡ cut_up self.old.up.now self.old.down.now x }
        ensures down { self.new.down.now ≡ cut_down self.old.up.now self.old.down.now x }
    {
        let u = self.up[x];
        let d = self.down[x];
        self.down[u as usize] = d;
        self.up[d as usize] = u;
    }

    // Puts node x back between the neighbours that it had.
    pub fn relink(&mut self, x: usize)
        requires { (x < node_bound) × (x < length self.old.up.now) × (x < length self.old.down.now) × (at self.old.up.now x < length self.old.down.now) × (at self.old.down.now x < length self.old.up.now) }
        ensures nodes { SameNodes self.old self.new }
        ensures heads { self.new.heads.now ≡ self.old.heads.now }
        ensures up { self.new.up.now ≡ tie_up self.old.up.now self.old.down.now x }
        ensures down { self.new.down.now ≡ tie_down self.old.up.now self.old.down.now x }
    {
        let u = self.up[x];
        let d = self.down[x];
        self.down[u as usize] = x as u32;
        self.up[d as usize] = x as u32;
    }

    // Column c is one shorter; its new length.
    pub fn fewer(&mut self, c: usize) -> usize
        requires { (c < length self.old.heads.now) × (item_of (head self.old.heads.now c) < node_bound) × (0 < item_of (head self.old.heads.now c)) }
        ensures nodes { SameNodes self.old self.new }
        ensures heads { self.new.heads.now ≡ set self.old.heads.now c (pos (item_of (head self.old.heads.now c) - 1)) }
        ensures up { self.new.up.now ≡ self.old.up.now }
        ensures down { self.new.down.now ≡ self.old.down.now }
        ensures length { result ≡ item_of (head self.old.heads.now c) - 1 }
    {
        let t = self.heads[c] - 1;
        self.heads[c] = t;
        t as usize
    }

    // Column c is one longer.
    pub fn more(&mut self, c: usize)
        requires { Growing self.old.heads.now c }
        ensures nodes { SameNodes self.old self.new }
        ensures heads { self.new.heads.now ≡ set self.old.heads.now c (pos (item_of (head self.old.heads.now c) + 1)) }
        ensures up { self.new.up.now ≡ self.old.up.now }
        ensures down { self.new.down.now ≡ self.old.down.now }
    {
        self.heads[c] += 1;
    }
}
