//! The eight conditions on directives, in the order in which they are checked.
ghost use Rattle.std.specs.Prelude.{◌≡◌, ◌&&◌, ◌||◌, not, nat_lt, length, MatchResult};
ghost use Rattle.std.specs.List.{list_all};
ghost use Rattle.irtext_base.specs.FormatViews.{directives_of};
ghost use Rattle.irtext_format_check.specs.Directives.{places_of, condition_number, free_keys, meets, first_of};
ghost use Rattle.irtext_base.specs.Format.{c1, c2, c3, c4, c5, c6, c7, c8, are_places, ascend, custom, first_fault};
ghost use Rattle.irtext_base.specs.Format.{same_text, has, keys, count, is_dictionary, is_header, sym_name_key};

use crate::format::parts::{Part, Sole};
use crate::format::{parts, rules};
use irtext_base::format::{Directive, FormatFault};

fn c1(directives: &[Directive]) -> bool
    ensures { result ≡ c1 (directives_of directives.now) }
{
    directives.iter().all(|d| parts::word_prints(d))
}

/// Whether the indices of one kind of part are below their number.
fn below_their_number(part: Part, directives: &[Directive]) -> bool
    ensures { result ≡ list_all (λ k. nat_lt k (length (places_of part (directives_of directives.now))))
        (places_of part (directives_of directives.now)) }
{
    parts::all_below(part, parts::count_places(part, directives), directives)
}

/// Whether the indices of one kind of part are 0 to one below their number, each once, in any order.
fn are_places(part: Part, directives: &[Directive]) -> bool
    ensures { result ≡ are_places (places_of part (directives_of directives.now)) }
{
    rules::places_differ(part, directives) && below_their_number(part, directives)
}

fn c2(directives: &[Directive]) -> bool
    ensures { result ≡ c2 (directives_of directives.now) }
{
    are_places(Part::Operand, directives) && parts::count_sole(Sole::Operands, directives) < 2
}

fn c3(directives: &[Directive]) -> bool
    ensures { result ≡ c3 (directives_of directives.now) }
{
    are_places(Part::Successor, directives) && parts::count_sole(Sole::Successors, directives) < 2
}

fn c4(directives: &[Directive]) -> bool
    ensures { result ≡ c4 (directives_of directives.now) }
{
    are_places(Part::ResultType, directives)
}

/// Whether the indices of regions are 0, 1 and so on, in this order.
fn regions_ascend(directives: &[Directive]) -> bool
    ensures { result ≡ ascend 0 (places_of Part.Region (directives_of directives.now)) }
{
    let mut left = directives;
    let mut next = 0;
    while let Some((directive, rest)) = left.split_first() {
        if let Some(place) = parts::place_of(Part::Region, directive) {
            if place != next {
                return false;
            }
            next += 1;
        }
        left = rest;
    }
    true
}

fn c5(directives: &[Directive]) -> bool
    ensures { result ≡ c5 (directives_of directives.now) }
{
    regions_ascend(directives)
        && parts::count_sole(Sole::Regions, directives) < 2
        && rules::regions_last(directives)
}

/// Whether no key comes twice or is the one of given names.
fn keys_are_free(directives: &[Directive]) -> bool
    ensures { result ≡ free_keys (directives_of directives.now) }
{
    rules::keys_differ(directives) && !parts::has_key("builtin_given_names", directives)
}

/// The same, and whether there are at most one dictionary and at most one header.
fn entries_occur_once(directives: &[Directive]) -> bool
    ensures { result ≡ (free_keys (directives_of directives.now)
        && nat_lt (count is_dictionary (directives_of directives.now)) 2 && nat_lt
        (count is_header (directives_of directives.now)) 2) }
{
    keys_are_free(directives)
        && parts::count_sole(Sole::Dictionary, directives) < 2
        && parts::count_sole(Sole::Header, directives) < 2
}

/// Whether there is no directive for the key of the symbol's name beside a header.
fn name_occurs_once(directives: &[Directive]) -> bool
    ensures { result ≡ (not (nat_lt 0 (count is_header (directives_of directives.now)))
        || not (has same_text sym_name_key (keys (directives_of directives.now)))) }
{
    let has_header = 0 < parts::count_sole(Sole::Header, directives);
    !has_header || !parts::has_key("builtin_sym_name", directives)
}

fn c6(directives: &[Directive]) -> bool
    ensures { result ≡ c6 (directives_of directives.now) }
{
    entries_occur_once(directives) && name_occurs_once(directives)
}

fn c7(directives: &[Directive]) -> bool
    ensures { result ≡ c7 (directives_of directives.now) }
{
    rules::names_first(directives)
}

fn c8(directives: &[Directive]) -> bool
    ensures { result ≡ c8 (directives_of directives.now) }
{
    rules::lists_end(directives)
}

/// The conditions, in the order in which they are checked.
const IN_ORDER: &[FormatFault] = &[
    FormatFault::LiteralNotPrintable,
    FormatFault::OperandIndices,
    FormatFault::SuccessorIndices,
    FormatFault::ResultTypeIndices,
    FormatFault::RegionOrder,
    FormatFault::AttributeKeys,
    FormatFault::NameAfterRegion,
    FormatFault::AmbiguousList,
];

/// Whether the directives meet a condition.
fn meets(condition: FormatFault, directives: &[Directive]) -> bool
    ensures { result ≡ meets condition (directives_of directives.now) }
{
    match condition {
        FormatFault::LiteralNotPrintable => c1(directives),
        FormatFault::OperandIndices => c2(directives),
        FormatFault::SuccessorIndices => c3(directives),
        FormatFault::ResultTypeIndices => c4(directives),
        FormatFault::RegionOrder => c5(directives),
        FormatFault::AttributeKeys => c6(directives),
        FormatFault::NameAfterRegion => c7(directives),
        FormatFault::AmbiguousList => c8(directives),
    }
}

/// Returns the first of these conditions that the directives fail as an error, if there is one.
fn check_each(conditions: &[FormatFault], directives: &[Directive]) -> Result<(), FormatFault>
    ensures { MatchResult result (λ _. first_of conditions.now (directives_of directives.now) ≡ 0)
        (λ fault. first_of conditions.now (directives_of directives.now) ≡ condition_number fault) }
{
    for condition in conditions {
        if !meets(*condition, directives) {
            return Err(*condition);
        }
    }
    Ok(())
}

/// Returns the first condition that the directives fail as an error, if there is one.
pub(crate) fn check(directives: &[Directive]) -> Result<(), FormatFault>
    ensures { MatchResult result (λ _. first_fault (custom (directives_of directives.now)) ≡ 0)
        (λ fault. first_fault (custom (directives_of directives.now)) ≡ condition_number fault) }
{
    check_each(IN_ORDER, directives)
}
