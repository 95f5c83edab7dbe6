//! The paths of source files that a context keeps.
ghost use Rattle.std.specs.Prelude.{◌≡◌, ◌<◌, Some, length, slice_get, refl};
ghost use Rattle.irtext_base.specs.Locations.{location_view};
ghost use Rattle.irtext_base.specs.Paths.{are_known};
ghost use Rattle.irtext_context.specs.Context.{with_paths};

use crate::base::Context;
use irtext_base::location::paths::{HasPaths, Paths};
use irtext_base::location::{Location, PathKey};
use irtext_base::text::{AttrText, IrText};

impl<T, A> HasPaths<A> for Context<T, A> {
    ghost paths = { λ c. c.paths };

    ghost with_paths = { with_paths };

    ghost paths_with = { λ c all. refl };

    ghost with_own = { λ c. refl };

    fn paths(&self) -> &Paths {
        &self.paths
    }

    fn paths_mut(&mut self) -> &mut Paths {
        &mut self.paths
    }
}

impl<T: IrText<A>, A: AttrText<A>> Context<T, A> {
    /// The number of paths that the context keeps.
    pub fn num_paths(&self) -> usize
        ensures { result ≡ length self.now.paths }
    {
        self.paths.len()
    }

    /// Returns the path of a key of this context.
    pub fn path(&self, key: PathKey) -> &str
        requires { key.index < length self.now.paths }
        ensures { slice_get self.now.paths key.index ≡ Some result.now }
    {
        self.paths.path(key)
    }

    /// Whether the context keeps the paths of all files that a location refers to.
    pub fn contains_paths(&self, location: &Location<A>) -> bool
        ensures { result ≡ are_known (length self.now.paths) (location_view location.now) }
    {
        self.paths.contain(location)
    }
}
