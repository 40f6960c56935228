// Is an entry the first live one of its option? A walk back over shortened entries.

ghost use Rattle.links.specs.Ground.{Ground};
ghost use Rattle.links.specs.Lead.{Led, Leads};

use crate::nodes::Nodes;

impl<'a> Nodes<'a> {
    // The nearest node before r that is no shortened entry: the boundary before the option, if r is its first live entry. A shortened entry's head
    // is 0, and its way down leads to the node before it; a boundary's never does, though the very first one has head 0 too.
    pub fn lead(&self, r: usize) -> usize
        requires { (g : Ground) × Led g r self.now.heads.now self.now.down.now }
        ensures { (g : Ground) → Led g r self.now.heads.now self.now.down.now → Leads g r result }
    {
        let mut q = r - 1;
        // a walk back, whose end is known only when it is met
        while self.is_zero(q) && self.below(q) + 1 == q {
            q -= 1;
        }
        q
    }
}
