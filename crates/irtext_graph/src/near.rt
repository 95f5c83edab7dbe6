//! The site of a use, or none, in few bytes.
ghost use Rattle.std.specs.Prelude.{◌≡◌, IfSome};
ghost use Rattle.irtext_graph.specs.Near.{IsNear};

use crate::arena::Ptr;
use crate::object::{Operation, Site};
use std::marker::{Model, PhantomData};

/// The pointer that is stored for no site.
const NOBODY: Ptr<Operation> = Ptr {
    index: 0,
    generation: 0,
    of: PhantomData,
};

/// A site, or none.
#[derive(Clone, Copy)]
pub(crate) struct Near {
    user: Ptr<Operation>,
    // 0: none; otherwise twice the index, and 1 for an operand or 2 for a successor
    place: u32,
}

impl Model for Near {
    ghost use Rattle.std.specs.Prelude.{Option};
    ghost use Rattle.irtext_graph.specs.declared.object.Site.{Site};

    ghost Value = { Option Site };

    ghost use Rattle.irtext_graph.specs.Near.{placed, IsPlain, stored, stored_is};

    ghost view = { λ n. placed n.user n.place };

    ghost invariant = { IsPlain };

    ghost inverse = { stored };

    ghost inverse_ok = { stored_is };
}

impl Near {
    /// Returns a site in this form.
    #[inline(always)]
    pub(crate) fn of(site: Option<Site>) -> Near
        requires { IfSome site IsNear }
        ensures { result ≡ site }
    {
        let (user, place) = match site {
            Some(Site::AtOperand(user, i)) => (user, i as u32 * 2 + 1),
            Some(Site::AtSuccessor(user, i)) => (user, i as u32 * 2 + 2),
            None => (NOBODY, 0),
        };
        Near { user, place }
    }

    /// Returns the site.
    #[inline(always)]
    pub(crate) fn site(self) -> Option<Site>
        ensures value { result ≡ self }
        ensures near { IfSome result IsNear }
    {
        let number = self.place.checked_sub(1)?;
        let i = (number / 2) as usize;
        if number % 2 == 0 {
            Some(Site::AtOperand(self.user, i))
        } else {
            Some(Site::AtSuccessor(self.user, i))
        }
    }
}
