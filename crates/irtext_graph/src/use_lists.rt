//! Use lists: each use of a value or a block has links to the other uses of the same, and is in one list with them.
ghost use Rattle.std.specs.Prelude.{◌≡◌, ◌≢◌, ◌<◌, ◌↔◌, ℕ, Some, None, IsSome, IsTrue, IfOk, option_map};
ghost use Rattle.irtext_graph.specs.Chained.{Lists, Counts};
ghost use Rattle.irtext_graph.specs.Used.{IsUse, IsDefined, AreAlike, Replaces, IsUnusedBelow, replaced, bare, uses_left, CanName, used_at, user};
ghost use Rattle.irtext_graph.specs.Edits.{Redirects};
ghost use Rattle.irtext_graph.specs.Graph.{KeepsOlder, IsNew};
ghost use Rattle.irtext_graph.specs.declared.object.Object.TheVariants.{TheOperation};

use crate::graph::Graph;
use crate::near::Near;
use crate::object::{Defined, Site, Value};
use crate::objects::{Links, Objects, Use};
use irtext_memory::{OutOfMemory, vec};
use std::alloc::Global;

/// Whether two are the same value or the same block.
fn same_defined(d: Defined, e: Defined) -> bool
    ensures { IsTrue result ↔ d ≡ e }
{
    d == e
}

impl<O: Drop, B: Drop, T: Drop> Objects<O, B, T> {
    ghost use Rattle.irtext_graph.specs.Graph.{seen};
    ghost use Rattle.irtext_graph.specs.Near.{IsNear};
    ghost use Rattle.irtext_graph.specs.Uses.{use_at, head_at, val, prv, nxt, relinked, renamed, AreUsesLinked, AreAllUsed};

    /// Returns the use at a site.
    #[inline(always)]
    pub(crate) fn use_of(&self, u: Site) -> Use<Defined>
        requires { IsSome (use_at self.now u) }
        ensures { use_at self.now u ≡ Some result }
    {
        match u {
            Site::AtOperand(p, i) => {
                let o = self.operations.content(p).data.operands[i];
                Use {
                    def: Defined::OfValue(o.def),
                    links: o.links,
                }
            }
            Site::AtSuccessor(p, i) => {
                let o = self.operations.content(p).data.successors[i];
                Use {
                    def: Defined::OfBlock(o.def),
                    links: o.links,
                }
            }
        }
    }

    /// Sets the links of a use.
    #[inline(always)]
    fn set_links(&mut self, u: Site, links: Links)
        requires { IsSome (use_at self.old u) }
        ensures here { use_at self.new u ≡ option_map (relinked links) (use_at self.old u) }
        ensures others { (w : _) → w ≢ u → use_at self.new w ≡ use_at self.old w }
        ensures heads { (d : _) → head_at self.new d ≡ head_at self.old d }
        ensures seen { seen self.new ≡ seen self.old }
    {
        match u {
            Site::AtOperand(p, i) => self.operations.content_mut(p).data.operands[i].links = links,
            Site::AtSuccessor(p, i) => {
                self.operations.content_mut(p).data.successors[i].links = links;
            }
        }
    }

    /// Sets what a use refers to. Its links are unchanged.
    fn set_def(&mut self, u: Site, d: Defined)
        requires there { IsSome (use_at self.old u) }
        requires names { CanName u d }
        ensures here { use_at self.new u ≡ option_map (renamed d) (use_at self.old u) }
        ensures others { (w : _) → w ≢ u → use_at self.new w ≡ use_at self.old w }
        ensures heads { (e : _) → head_at self.new e ≡ head_at self.old e }
        ensures bare { bare self.new ≡ bare self.old }
        ensures fewer { (e : _) → option_map (λ o. o.def) (use_at self.old u) ≡ Some e → e ≢ d →
            uses_left e (seen self.new).operations < uses_left e (seen self.old).operations }
    {
        match (u, d) {
            (Site::AtOperand(p, i), Defined::OfValue(v)) => {
                self.operations.content_mut(p).data.operands[i].def = v;
            }
            (Site::AtSuccessor(p, i), Defined::OfBlock(b)) => {
                self.operations.content_mut(p).data.successors[i].def = b;
            }
            _ => unreachable!(),
        }
    }

    /// Returns the first use of a value or a block.
    #[inline(always)]
    pub(crate) fn head_of(&self, d: Defined) -> Near
        requires { IsSome (head_at self.now d) }
        ensures { head_at self.now d ≡ Some result }
    {
        match d {
            Defined::OfValue(v) => self.definition(v).first,
            Defined::OfBlock(b) => self.blocks.content(b).data.preds,
        }
    }

    /// Sets the first use of a value or a block.
    fn set_head(&mut self, d: Defined, h: Near)
        requires { IsSome (head_at self.old d) }
        ensures here { head_at self.new d ≡ Some h }
        ensures others { (e : _) → e ≢ d → head_at self.new e ≡ head_at self.old e }
        ensures uses { (u : _) → use_at self.new u ≡ use_at self.old u }
        ensures seen { seen self.new ≡ seen self.old }
    {
        match d {
            Defined::OfValue(Value::Result(p, i)) => {
                self.operations.content_mut(p).data.results[i].first = h;
            }
            Defined::OfValue(Value::Argument(b, i)) => {
                self.blocks.content_mut(b).data.arguments[i].first = h;
            }
            Defined::OfBlock(b) => self.blocks.content_mut(b).data.preds = h,
        }
    }

    /// Sets the link to the previous use, if there is a use w.
    #[inline(always)]
    fn set_prev_of(&mut self, w: Option<Site>, p: Near)
        requires { (s : _) → w ≡ Some s → IsSome (use_at self.old s) }
        ensures here { (s : _) → w ≡ Some s → prv self.new s ≡ p }
        ensures others { (s : _) → w ≢ Some s → prv self.new s ≡ prv self.old s }
        ensures values { (s : _) → val self.new s ≡ val self.old s }
        ensures nexts { (s : _) → nxt self.new s ≡ nxt self.old s }
        ensures heads { (d : _) → head_at self.new d ≡ head_at self.old d }
        ensures sites { (s : _) → IsSome (use_at self.old s) → IsSome (use_at self.new s) }
        ensures seen { seen self.new ≡ seen self.old }
    {
        if let Some(s) = w {
            let links = self.use_of(s).links;
            self.set_links(s, Links { prev: p, ..links });
        }
    }

    /// Sets the link to the next use, or the first use of d if there is no use w.
    fn set_next_of(&mut self, w: Option<Site>, d: Defined, n: Near)
        requires sites { (s : _) → w ≡ Some s → IsSome (use_at self.old s) }
        requires alive { IsSome (head_at self.old d) }
        ensures here { (s : _) → w ≡ Some s → nxt self.new s ≡ n }
        ensures others { (s : _) → w ≢ Some s → nxt self.new s ≡ nxt self.old s }
        ensures values { (s : _) → val self.new s ≡ val self.old s }
        ensures prevs { (s : _) → prv self.new s ≡ prv self.old s }
        ensures head { w ≡ None → head_at self.new d ≡ Some n }
        ensures head_kept { (s : _) → w ≡ Some s → head_at self.new d ≡ head_at self.old d }
        ensures heads { (e : _) → e ≢ d → head_at self.new e ≡ head_at self.old e }
        ensures seen { seen self.new ≡ seen self.old }
    {
        match w {
            Some(s) => {
                let links = self.use_of(s).links;
                self.set_links(s, Links { next: n, ..links });
            }
            None => self.set_head(d, n),
        }
    }

    /// Inserts a use that is in no use list at the head of the list of what it refers to.
    #[inline(always)]
    pub(crate) fn attach(&mut self, u: Site)
        requires near { IsNear u }
        requires linked { AreUsesLinked self.old }
        requires there { IsSome (use_at self.old u) }
        requires free { val self.old u ≡ None }
        requires alive { (o : _) → use_at self.old u ≡ Some o → IsSome (head_at self.old o.def) }
        ensures linked { AreUsesLinked self.new }
        ensures used { (o : _) → use_at self.old u ≡ Some o → val self.new u ≡ Some o.def }
        ensures kept { (w : _) → w ≢ u → val self.new w ≡ val self.old w }
        ensures seen { seen self.new ≡ seen self.old }
    {
        let d = self.use_of(u).def;
        let h = self.head_of(d);
        let links = Links {
            linked: true,
            prev: Near::of(None),
            next: h,
        };
        self.set_links(u, links);
        self.set_prev_of(h.site(), Near::of(Some(u)));
        self.set_head(d, Near::of(Some(u)));
    }

    /// Removes a use from its use list. What it refers to is unchanged.
    pub(crate) fn detach(&mut self, u: Site)
        requires linked { AreUsesLinked self.old }
        requires used { IsSome (val self.old u) }
        ensures linked { AreUsesLinked self.new }
        ensures gone { val self.new u ≡ None }
        ensures kept { (w : _) → w ≢ u → val self.new w ≡ val self.old w }
        ensures seen { seen self.new ≡ seen self.old }
    {
        let o = self.use_of(u);
        let links = o.links;
        let unlinked = Links {
            linked: false,
            prev: Near::of(None),
            next: Near::of(None),
        };
        self.set_links(u, unlinked);
        self.set_prev_of(links.next.site(), links.prev);
        self.set_next_of(links.prev.site(), o.def, links.next);
    }

    /// Removes a use from its use list, and makes it a use of e.
    pub(crate) fn redirect(&mut self, u: Site, e: Defined)
        requires near { IsNear u }
        requires linked { AreUsesLinked self.old }
        requires all_used { AreAllUsed self.old }
        requires used { IsSome (val self.old u) }
        requires names { CanName u e }
        requires alive { IsSome (head_at self.old e) }
        ensures linked { AreUsesLinked self.new }
        ensures all_used { AreAllUsed self.new }
        ensures here { val self.new u ≡ Some e }
        ensures others { (w : _) → w ≢ u → val self.new w ≡ val self.old w }
        ensures bare { bare self.new ≡ bare self.old }
        ensures fewer { (d : _) → val self.old u ≡ Some d → d ≢ e →
            uses_left d (seen self.new).operations < uses_left d (seen self.old).operations }
    {
        self.detach(u);
        self.set_def(u, e);
        self.attach(u);
    }

    /// Returns a site that is in a use list, as it is stored: at the use before it, or, for the first use, at what it refers to.
    fn stored(&self, u: Site) -> Option<Site>
        requires linked { AreUsesLinked self.now }
        requires used { IsSome (val self.now u) }
        ensures value { result ≡ Some u }
        ensures near { IsNear u }
    {
        let o = self.use_of(u);
        match o.links.prev.site() {
            Some(w) => self.use_of(w).links.next.site(),
            None => self.head_of(o.def).site(),
        }
    }

    /// Counts the uses in a use list, up to `usize::MAX`.
    fn count_uses(&self, d: Defined) -> usize
        requires linked { AreUsesLinked self.now }
        requires alive { IsSome (head_at self.now d) }
        ensures { Counts (λ u. val self.now u ≡ Some d) result }
    {
        let mut n = 0;
        let mut at = self.head_of(d).site();
        while let Some(u) = at {
            if n == usize::MAX {
                return n;
            }
            n += 1;
            at = self.use_of(u).links.next.site();
        }
        n
    }

    /// Returns the uses in a use list, each once.
    fn list_uses(&self, alloc: Global, d: Defined) -> Result<Vec<Site>, OutOfMemory>
        requires linked { AreUsesLinked self.now }
        requires alive { IsSome (head_at self.now d) }
        ensures { IfOk result (λ us. Lists (λ u. val self.now u ≡ Some d) us.items) }
    {
        let mut uses = Vec::new(alloc);
        let mut at = self.head_of(d).site();
        while let Some(u) = at {
            vec::push(&mut uses, u)?;
            at = self.use_of(u).links.next.site();
        }
        Ok(uses)
    }

    /// Makes each use of d a use of e. It allocates nothing.
    fn replace_uses(&mut self, d: Defined, e: Defined)
        requires linked { AreUsesLinked self.old }
        requires all_used { AreAllUsed self.old }
        requires alive { IsSome (head_at self.old d) }
        requires alive_too { IsSome (head_at self.old e) }
        requires alike { AreAlike d e }
        requires differ { d ≢ e }
        ensures linked { AreUsesLinked self.new }
        ensures all_used { AreAllUsed self.new }
        ensures uses { (u : _) → val self.new u ≡ option_map (replaced d e) (val self.old u) }
        ensures bare { bare self.new ≡ bare self.old }
    {
        while let Some(u) = self.head_of(d).site() {
            self.redirect(u, e);
        }
    }
}

impl<O: Drop, B: Drop, T: Drop> Graph<O, B, T> {
    /// Whether an operand or a successor refers to d.
    pub fn has_use(&self, d: Defined) -> bool
        requires { IsDefined self.now d }
        ensures { IsTrue result ↔ (u : Site) × IsUse self.now d u }
    {
        self.objects.head_of(d).site().is_some()
    }

    /// Returns how many operands and successors refer to d, at most `usize::MAX`. Its time grows with the number of uses.
    pub fn num_uses(&self, d: Defined) -> usize
        requires { IsDefined self.now d }
        ensures { Counts (IsUse self.now d) result }
    {
        self.objects.count_uses(d)
    }

    /// Returns the sites of all uses of d, each once: two for an operation that uses d twice. Fails only if an allocation fails.
    pub fn uses(&self, d: Defined) -> Result<Vec<Site>, OutOfMemory>
        requires { IsDefined self.now d }
        ensures { IfOk result (λ us. Lists (IsUse self.now d) us.items) }
    {
        self.objects.list_uses(self.alloc, d)
    }

    /// Makes each operand or successor that refers to d refer to e. It allocates nothing. Its time grows with the number of uses of d.
    pub fn replace_all_uses(&mut self, d: Defined, e: Defined)
        requires alive { IsDefined self.old d }
        requires alive_too { IsDefined self.old e }
        requires alike { AreAlike d e }
        ensures replaces { Replaces self.old self.new d e }
        ensures kept { (m : ℕ) → IsUnusedBelow m self.old d → KeepsOlder m self.old self.new }
    {
        if !same_defined(d, e) {
            self.objects.replace_uses(d, e);
        }
    }
    /// Makes the operand or successor at a site refer to e, which is a value for an operand and a block for a successor. All else is
    /// unchanged. It allocates nothing, and takes the same time in any graph.
    pub fn set_use(&mut self, u: Site, e: Defined)
        requires used { IsSome (used_at self.old u) }
        requires alive { IsDefined self.old e }
        requires names { CanName u e }
        ensures redirects { Redirects self.old self.new u e }
        ensures kept { (m : ℕ) → IsNew m self.old (TheOperation (user u)) → KeepsOlder m self.old self.new }
    {
        let _stored = self.objects.stored(u);
        self.objects.redirect(u, e);
    }
}
