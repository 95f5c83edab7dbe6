//! The key of an attribute that was perhaps meant to be one that the operation's format prints.
ghost use Rattle.std.specs.Prelude.{◌≡◌, map, Some, IfOk, string_bytes};
ghost use Rattle.std.specs.Option.{option_map};
ghost use Rattle.irtext_base.specs.Format.{keys};
ghost use Rattle.irtext_base.specs.FormatViews.{directives_of, format_of};
ghost use Rattle.irtext_diagnostics.specs.Suggestions.{closest};
ghost use Rattle.irtext_formatter.specs.Keys.{texts_of, unwritten_keys, mistaken_key};

use irtext_base::base::Identifier;
use irtext_base::format::{Directive, OpFormat};
use irtext_base::text::AttrText;
use irtext_context::base::AttributeDict;
use irtext_diagnostics::closest;
use irtext_print::ir::print::pieces::is_key_written;
use irtext_print_ops::fits::FitFault;
use std::alloc::{AllocError, Global};

/// The key of an attribute that was perhaps mistaken for another one.
#[derive(Drop)]
pub struct MistakenKey {
    /// The key that the operation has.
    pub written: String,
    /// The key that was perhaps meant: one that the operation's format prints.
    pub meant: String,
}

/// Returns a key that an operation has, with the one that was perhaps meant.
fn mistaken(alloc: Global, written: &str, meant: &str) -> Result<Option<MistakenKey>, AllocError>
    ensures { IfOk result (λ found. option_map texts_of found ≡ Some (written.now, meant.now)) }
{
    Ok(Some(MistakenKey {
        written: String::from_str(alloc, written)?,
        meant: String::from_str(alloc, meant)?,
    }))
}

/// Returns the keys of the attributes that no directive prints by its key.
fn unwritten_keys<'c, A: AttrText<A>>(
    alloc: Global,
    directives: &[Directive],
    attributes: &'c AttributeDict<A>,
) -> Result<Vec<&'c str>, AllocError>
    ensures { IfOk result (λ found. map (λ key. key.now) found.items ≡ unwritten_keys (directives_of directives.now)
        attributes.now) }
{
    let mut found = Vec::new(alloc);
    for (key, _attr) in attributes.iter() {
        if !is_key_written(directives, key.as_str()) {
            found.push(key.as_str())?;
        }
    }
    Ok(found)
}

/// Returns the keys that directives name.
fn named_keys(alloc: Global, directives: &[Directive]) -> Result<Vec<&str>, AllocError>
    ensures { IfOk result (λ found. map (λ key. key.now) found.items ≡ keys (directives_of directives.now)) }
{
    let mut found = Vec::new(alloc);
    for directive in directives {
        if let Directive::Attr(key) = directive {
            found.push(key.as_str())?;
        }
    }
    Ok(found)
}

/// Returns the key of an attribute that was perhaps meant to be this key, of which there is no attribute.
fn written_for<A: AttrText<A>>(
    alloc: Global,
    directives: &[Directive],
    attributes: &AttributeDict<A>,
    meant: &Identifier,
) -> Result<Option<MistakenKey>, AllocError>
    ensures { IfOk result (λ found. option_map texts_of found ≡ option_map (λ written. (written, meant.now))
        (closest meant.now (unwritten_keys (directives_of directives.now) attributes.now))) }
{
    let found = unwritten_keys(alloc, directives, attributes)?;
    match closest(alloc, meant.as_str(), found.as_slice())? {
        Some(written) => mistaken(alloc, written, meant.as_str()),
        None => Ok(None),
    }
}

/// Returns the key that directives name, and that was perhaps meant by this key of an attribute.
fn meant_by(
    alloc: Global,
    directives: &[Directive],
    written: &Identifier,
) -> Result<Option<MistakenKey>, AllocError>
    ensures { IfOk result (λ found. option_map texts_of found ≡ option_map (λ meant. (written.now, meant))
        (closest written.now (keys (directives_of directives.now)))) }
{
    let found = named_keys(alloc, directives)?;
    match closest(alloc, written.as_str(), found.as_slice())? {
        Some(meant) => mistaken(alloc, written.as_str(), meant),
        None => Ok(None),
    }
}

/// Returns the key of an attribute that was perhaps meant to be one that the format prints, if that is why an operation does not fit its
/// format: of a missing attribute the nearest key that the format does not print, and of one that the format does not print the nearest
/// key that it does, as [`closest`] finds it. The only error is out of memory.
pub fn mistaken_key<A: AttrText<A>>(
    alloc: Global,
    format: &OpFormat,
    attributes: &AttributeDict<A>,
    fault: FitFault<'_>,
) -> Result<Option<MistakenKey>, AllocError>
    ensures { IfOk result (λ found. option_map texts_of found ≡ mistaken_key (format_of format.now) attributes.now
        fault.entry) }
{
    let OpFormat::Custom(directives) = format else {
        return Ok(None);
    };
    match fault {
        FitFault::MissingAttribute(key) => written_for(alloc, directives, attributes, key),
        FitFault::UnwrittenAttribute(key) => meant_by(alloc, directives, key),
        _ => Ok(None),
    }
}
