//! Looking up dialects and operations by the texts of their names.
ghost use Rattle.std.specs.Prelude.{◌≡◌, IfSome, option_map};
ghost use Rattle.std.specs.Cmp.Lexicographic.{bytes_decides, nat_list_eq_equiv};
ghost use Rattle.std.specs.Hash as fed;
ghost use Rattle.std.specs.Map.{lookup};
ghost use Rattle.std.specs.Str.{bytes_eq};
ghost use Rattle.std.proofs.Common.{ap};
ghost use Rattle.irtext_context.specs.Dialects.{known_of, same_id, IsKeyed};
ghost use Rattle.irtext_context.specs.DialectTable.{dialect_of};
ghost use Rattle.irtext_base.specs.FormatViews.{format_of};
ghost use Rattle.irtext_context.specs.Named.{id_of_texts, fed_alike, tested_alike};
ghost use Rattle.irtext_base.specs.Format.{Accepted};

use crate::base::Context;
use crate::dialect::{Dialect, DialectName, OpInfo};
use indexmap::Equivalent;
use irtext_base::base::OpId;
use irtext_base::text::{AttrText, IrText};

/// The two texts of an operation's id.
#[derive(Clone, Copy, PartialEq, Eq, Hash)]
struct IdTexts<'t> {
    dialect: &'t str,
    name: &'t str,
}

impl Equivalent<OpId> for IdTexts<'_> {
    ghost equivalent = { λ q k. same_id (id_of_texts q.dialect.now q.name.now) k };

    ghost respects_hash = { λ q k. fed_alike (id_of_texts q.dialect.now q.name.now) k };

    ghost respects_eq = { λ q x y. tested_alike (id_of_texts q.dialect.now q.name.now) x y };

    fn equivalent(&self, key: &OpId) -> bool {
        self.dialect == key.dialect.as_str() && self.name == key.name.as_str()
    }
}

impl Equivalent<DialectName> for &str {
    ghost equivalent = { λ q k. bytes_eq q.now k };

    ghost respects_hash = { λ q k h. ap fed.str ((bytes_decides q.now k).0 h) };

    ghost respects_eq = { λ q x y. nat_list_eq_equiv.congr q.now x y };

    fn equivalent(&self, key: &DialectName) -> bool {
        *self == key.name.as_str()
    }
}

impl Dialect {
    /// Returns the id with these texts and what the dialect records of its operation, or `None` if it is not registered. It allocates
    /// nothing.
    pub fn op_named(&self, dialect: &str, name: &str) -> Option<(&OpId, &OpInfo)>
        ensures found { option_map (λ e. known_of e.1.now) result ≡ lookup
            (same_id (id_of_texts dialect.now name.now)) self.now.entries }
        ensures id { IfSome result (λ e. e.0.now ≡ id_of_texts dialect.now name.now) }
        ensures accepted { IfSome result (λ e. Accepted (format_of e.1.now.format)) }
        ensures keyed { IfSome result (λ e. IsKeyed e.1.now) }
    {
        self.ops.get_key_value(IdTexts { dialect, name })
    }
}

impl<T: IrText<A>, A: AttrText<A>> Context<T, A> {
    /// Returns the dialect with this name, and its name as the context stores it, or `None` if it is not registered. It allocates
    /// nothing.
    pub fn dialect_named(&self, name: &str) -> Option<(&DialectName, &Dialect)>
        ensures found { option_map (λ e. e.1.now) result ≡ dialect_of self.now.dialects name.now }
        ensures name { IfSome result (λ e. e.0.now ≡ name.now) }
    {
        self.dialects.get_key_value(name)
    }
}
