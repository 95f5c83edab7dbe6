//! The printing state: its layout, how deep regions are printed, the gathered items, and the caller's data.
ghost use Rattle.std.specs.Prelude.{◌≡◌, ◌+◌, ◌-◌, ◌<◌, ◌≤◌, ◌^◌, [], IfOk, IfSome, OnSome, IfNone, Some, None, IsOk, ◌↔◌};
ghost use Rattle.std.specs.Borrow.{sem, Lends, RestsIfErr, RestsIfNone};
ghost use Rattle.irtext_print.specs.contracts.printable.state.State.{the_row};
ghost use Rattle.irtext_print.specs.Printers.Printing.{width_of, indent_of, limit_of, data_of, with_indent, with_limit, with_data, lowered, guard_name, depth_name};

use crate::printable::guards::{IndentGuard, RegionDepthGuard};
use irtext_context::base::Item;
use std::alloc::Global;
use std::fmt;
use std::marker::Model;

/// How many levels of nested regions are printed.
#[derive(Clone, Copy, Debug, Default, PartialEq, Eq)]
pub enum RegionPrintDepthLimit {
    /// All levels.
    #[default]
    Unlimited,
    /// At most so many levels; deeper regions are elided, as `{..}`.
    Max(u32),
}

/// The state that printers share while they print.
#[derive(Drop)]
pub struct State<U> {
    pub(crate) indent_width: u16,
    pub(crate) current_indent: u16,
    pub(crate) limit: RegionPrintDepthLimit,
    pub(crate) gathered: Vec<Item>,
    pub(crate) aux_data: U,
}

impl<U> Model for State<U> {
    ghost use Rattle.irtext_print.specs.Printers.Shown.{Shown};

    ghost Value = { Shown U };

    ghost view = { λ s. record {
      width = s.indent_width;
      indent = s.current_indent;
      limit = s.limit;
      gathered = s.gathered.items;
      aux = s.aux_data;
    } };
}

impl<U> State<U> {
    /// Returns a state with two spaces per indentation step, indentation 0, no depth limit, and nothing gathered. Allocates nothing
    /// yet.
    pub fn new(alloc: Global, aux_data: U) -> State<U>
        ensures { result ≡ record {
          width = 2;
          indent = 0;
          limit = RegionPrintDepthLimit.Unlimited;
          gathered = [];
          aux = aux_data;
        } }
    {
        State {
            indent_width: 2,
            current_indent: 0,
            limit: RegionPrintDepthLimit::Unlimited,
            gathered: Vec::new(alloc),
            aux_data,
        }
    }

    /// Returns a state with this layout and nothing gathered. Width and indentation are in spaces.
    pub fn with_layout(
        alloc: Global,
        indent_width: u16,
        current_indent: u16,
        limit: RegionPrintDepthLimit,
        aux_data: U,
    ) -> State<U>
        ensures { result ≡ record {
          width = indent_width;
          indent = current_indent;
          limit = limit;
          gathered = [];
          aux = aux_data;
        } }
    {
        State {
            indent_width,
            current_indent,
            limit,
            gathered: Vec::new(alloc),
            aux_data,
        }
    }

    /// Sets the limit: from now on at most so many levels of regions are printed.
    pub fn set_region_print_depth_limit(&mut self, limit: RegionPrintDepthLimit)
        ensures { self.new ≡ with_limit self.old limit }
    {
        self.limit = limit;
    }

    /// Returns how many levels of regions are printed from here on.
    pub fn current_region_print_depth_limit(&self) -> RegionPrintDepthLimit
        ensures { result ≡ limit_of self.now }
    {
        self.limit
    }

    /// Returns the caller's data.
    pub fn aux_data_ref(&self) -> &U
        ensures { result.now ≡ data_of self.now }
    {
        &self.aux_data
    }

    /// Returns the caller's data as `&mut`.
    pub fn aux_data_mut(&mut self) -> &mut U
        ensures* writes_back { sem 𝓛 (Lends (the_row U.row) U.row self.entry result (with_data self.old)) }
        ensures value { result.now ≡ data_of self.old }
    {
        &mut self.aux_data
    }

    /// Enters a region: the limit is one level lower until the guard is dropped. `None` if the region has to be elided; then the state
    /// is unchanged.
    pub fn enter_region(&mut self) -> Option<RegionDepthGuard<'_, U>>
        ensures* unchanged_at_none { sem 𝓛 (RestsIfNone (the_row U.row) self.entry depth_name result
            (λ n. n ≡ self.old)) }
        ensures same_reference { IfSome result (λ g. g.state.ghost_name ≡ self.entry.ghost_name) }
        ensures saved { IfSome result (λ g. g.saved ≡ limit_of self.old) }
        ensures state { IfSome result (λ g. g.state.now ≡ with_limit self.old (limit_of g.state.now)) }
        ensures limit { IfSome result (λ g. lowered (limit_of self.old) ≡ Some (limit_of g.state.now)) }
        ensures none { IfNone result (lowered (limit_of self.old) ≡ None) }
    {
        let saved = self.limit;
        match saved {
            RegionPrintDepthLimit::Unlimited => {}
            RegionPrintDepthLimit::Max(n) => {
                if n == 0 {
                    return None;
                }
                self.limit = RegionPrintDepthLimit::Max(n - 1);
            }
        }
        Some(RegionDepthGuard { state: self, saved })
    }

    /// Returns the width of one indentation step, in spaces.
    pub fn indent_width(&self) -> u16
        ensures { result ≡ width_of self.now }
    {
        self.indent_width
    }

    /// Sets the width of one indentation step, in spaces. The current indentation, and those that guards restore, are unchanged.
    pub fn set_indent_width(&mut self, width: u16)
        ensures { self.new ≡ record self.old { width = width } }
    {
        self.indent_width = width;
    }

    /// Returns the current indentation: the number of spaces at the beginning of a line.
    pub fn current_indent(&self) -> u16
        ensures { result ≡ indent_of self.now }
    {
        self.current_indent
    }

    /// Indents by one step until the guard is dropped. Fails if the number of spaces does not fit 16 bits; then the state is unchanged.
    pub fn indent(&mut self) -> Result<IndentGuard<'_, U>, fmt::Error>
        ensures* unchanged_at_err { sem 𝓛 (RestsIfErr (the_row U.row) self.entry guard_name result
            (λ n. n ≡ self.old)) }
        ensures same_reference { IfOk result (λ g. g.state.ghost_name ≡ self.entry.ghost_name) }
        ensures saved { IfOk result (λ g. g.saved ≡ indent_of self.old) }
        ensures state { IfOk result (λ g. g.state.now ≡ with_indent self.old (indent_of self.old + width_of
            self.old)) }
        ensures succeeds { IsOk result ↔ (indent_of self.old + width_of self.old < 2 ^ 16) }
    {
        let saved = self.current_indent;
        match saved.checked_add(self.indent_width) {
            Some(indent) => {
                self.current_indent = indent;
                Ok(IndentGuard { state: self, saved })
            }
            None => Err(fmt::Error),
        }
    }
}
