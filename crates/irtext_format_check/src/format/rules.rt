//! Rules on a directive and the directives after it.
ghost use Rattle.std.specs.Prelude.{◌≡◌, ◌==◌, not};
ghost use Rattle.std.specs.List.{list_all};
ghost use Rattle.irtext_base.specs.FormatViews.{directive_of, directives_of};
ghost use Rattle.irtext_format_check.specs.Directives.{place_of, places_of, key_of};
ghost use Rattle.irtext_format_check.specs.Directives.{again, keeps, all_keep, is_region, is_named};
ghost use Rattle.irtext_base.specs.Format.{same_text, keys, distinct, none_follows, is_regions, is_any_region, c8};

use crate::format::parts::{Part, Sole};
use crate::format::{followers, parts};
use irtext_base::format::Directive;

/// A rule on a directive and the directives after it.
#[derive(Clone, Copy)]
enum Rule {
    /// The index that the directive names is not named again.
    PlacesDiffer(Part),
    /// The key that the directive names is not named again.
    KeysDiffer,
    /// After a list of regions there is no single region.
    RegionsBefore,
    /// After regions there are no names and no type.
    NamesBefore,
    /// No character that can come after a list could continue it.
    ListsEnd,
}

fn place_again(part: Part, directive: &Directive, rest: &[Directive]) -> bool
    ensures { result ≡ again ◌==◌ (place_of part (directive_of directive.now))
        (places_of part (directives_of rest.now)) }
{
    match parts::place_of(part, directive) {
        Some(place) => parts::has_place(part, place, rest),
        None => false,
    }
}

fn key_again(directive: &Directive, rest: &[Directive]) -> bool
    ensures { result ≡ again same_text (key_of (directive_of directive.now)) (keys (directives_of rest.now)) }
{
    match parts::key_of(directive) {
        Some(key) => parts::has_key(key.as_str(), rest),
        None => false,
    }
}

fn no_region(directives: &[Directive]) -> bool
    ensures { result ≡ list_all (λ e. not (is_region e)) (directives_of directives.now) }
{
    directives.iter().all(|d| !parts::is_region(d))
}

fn no_name(directives: &[Directive]) -> bool
    ensures { result ≡ list_all (λ e. not (is_named e)) (directives_of directives.now) }
{
    directives.iter().all(|d| !parts::is_named(d))
}

fn keeps(rule: Rule, directive: &Directive, rest: &[Directive]) -> bool
    ensures { result ≡ keeps rule (directive_of directive.now) (directives_of rest.now) }
{
    match rule {
        Rule::PlacesDiffer(part) => !place_again(part, directive, rest),
        Rule::KeysDiffer => !key_again(directive, rest),
        Rule::RegionsBefore => !parts::is_sole(Sole::Regions, directive) || no_region(rest),
        Rule::NamesBefore => !parts::is_any_region(directive) || no_name(rest),
        Rule::ListsEnd => followers::list_ends(directive, rest),
    }
}

/// Whether each directive, with those after it, obeys a rule.
fn all_keep(rule: Rule, directives: &[Directive]) -> bool
    ensures { result ≡ all_keep rule (directives_of directives.now) }
{
    let mut left = directives;
    while let Some((directive, rest)) = left.split_first() {
        if !keeps(rule, directive, rest) {
            return false;
        }
        left = rest;
    }
    true
}

/// Whether no index of one kind of part is named twice.
pub(crate) fn places_differ(part: Part, directives: &[Directive]) -> bool
    ensures { result ≡ distinct ◌==◌ (places_of part (directives_of directives.now)) }
{
    all_keep(Rule::PlacesDiffer(part), directives)
}

/// Whether no key is named twice.
pub(crate) fn keys_differ(directives: &[Directive]) -> bool
    ensures { result ≡ distinct same_text (keys (directives_of directives.now)) }
{
    all_keep(Rule::KeysDiffer, directives)
}

/// Whether no single region comes after a list of regions.
pub(crate) fn regions_last(directives: &[Directive]) -> bool
    ensures { result ≡ none_follows is_regions is_region (directives_of directives.now) }
{
    all_keep(Rule::RegionsBefore, directives)
}

/// Whether no names and no type come after regions.
pub(crate) fn names_first(directives: &[Directive]) -> bool
    ensures { result ≡ none_follows is_any_region is_named (directives_of directives.now) }
{
    all_keep(Rule::NamesBefore, directives)
}

/// Whether no character that can come after a list could continue it.
pub(crate) fn lists_end(directives: &[Directive]) -> bool
    ensures { result ≡ c8 (directives_of directives.now) }
{
    all_keep(Rule::ListsEnd, directives)
}
