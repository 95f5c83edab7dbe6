//! The id of an operation.
ghost use Rattle.std.specs.Prelude.{◌≡◌, OnOk, OnErr, IfErr};
ghost use Rattle.irtext_base.specs.Appending.{OnlyAppends};
ghost use Rattle.irtext_base.specs.Causes.{id_text};
ghost use Rattle.irtext_print.specs.Printers.Appended.{AppendsText};
ghost use Rattle.irtext_print.specs.Refusals.{IsMemory};

use crate::printable::Refusal;
use irtext_base::base::OpId;
use irtext_memory::string;

/// Appends an id: `builtin.module`. The error is always `Memory`.
pub fn fmt_id(id: &OpId, f: &mut String) -> Result<(), Refusal>
    ensures text { OnOk result (AppendsText f.old (id_text id.now) f.new) }
    ensures refused { IfErr result (λ e. IsMemory e) }
    ensures appended { OnErr result (OnlyAppends f.old f.new) }
{
    string::push_str(f, id.dialect.as_str())?;
    string::push_str(f, ".")?;
    string::push_str(f, id.name.as_str())?;
    Ok(())
}
