//! Errors about the names in a text.
ghost use Rattle.std.specs.Prelude.{Some, codes, ◌++◌};
ghost use Rattle.irtext_base.specs.Causes.{name_tracker_text, unresolved_text};

use crate::base::Identifier;
use std::fmt::{self, Display};

/// A name or a label that its scope doesn't define.
#[derive(Debug, Drop)]
pub struct UnresolvedReference(pub Identifier);

/// Why a scope rejects a name, or why a region can't be entered.
#[derive(Debug, Drop)]
pub enum ParserNameTrackerError {
    /// The scope defines this name already.
    MultipleDefinitions(Identifier),
    /// The region is in no scope of names, and its operation is not isolated from above.
    TopLevelOpRegionNotIsolatedFromAbove,
}

impl Display for UnresolvedReference {
    ghost output = { λ reference. Some (unresolved_text reference) };

    fn fmt<W: fmt::Write>(&self, f: &mut fmt::Formatter<W>) -> fmt::Result {
        let name = &self.0;
        write!(
            f,
            "Identifier {name} was not resolved to any definition in the scope"
        )
    }
}

impl Display for ParserNameTrackerError {
    ghost output = { λ error. Some (name_tracker_text error) };

    fn fmt<W: fmt::Write>(&self, f: &mut fmt::Formatter<W>) -> fmt::Result {
        match self {
            ParserNameTrackerError::MultipleDefinitions(name) => {
                write!(f, "Identifier {name} defined more than once in the scope")
            }
            ParserNameTrackerError::TopLevelOpRegionNotIsolatedFromAbove => {
                write!(
                    f,
                    "Regions in a top-level operation must be IsolatedFromAbove"
                )
            }
        }
    }
}
