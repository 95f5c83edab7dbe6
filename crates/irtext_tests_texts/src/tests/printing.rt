//! The printing state and its guards.
use crate::tests::must::same;
use irtext_print_ir::printable::{RegionPrintDepthLimit, State, fmt_indented_newline};

#[test]
fn a_guard_gives_back_the_indentation_of_its_entry(rt: HostRuntime) {
    let mut state = State::new(rt.alloc(), 5u8);
    let mut text = String::new(rt.alloc());
    {
        let guard = state.indent().expect(&rt, "too deep");
        fmt_indented_newline(guard.state, &mut text).expect(&rt, "refused");
        guard.state.set_indent_width(8);
    }
    fmt_indented_newline(&state, &mut text).expect(&rt, "refused");
    same(&rt, text.as_str(), "\n  \n");
    assert_eq!(rt; state.indent_width(), 8);
    assert_eq!(rt; *state.aux_data_ref(), 5);
    *state.aux_data_mut() = 6;
    assert_eq!(rt; *state.aux_data_ref(), 6);
}

#[test]
fn too_deep_an_indentation_is_refused(rt: HostRuntime) {
    let mut state = State::new(rt.alloc(), ());
    state.set_indent_width(40000);
    let guard = state.indent().expect(&rt, "too deep");
    assert!(rt; guard.state.indent().is_err());
}

/// Whether a limit of one region is restored, and no region is entered within it.
fn limited(state: &mut State<()>) -> bool {
    state.set_region_print_depth_limit(RegionPrintDepthLimit::Max(1));
    let inside = match state.enter_region() {
        Some(guard) => {
            guard.state.current_region_print_depth_limit() == RegionPrintDepthLimit::Max(0)
                && guard.state.enter_region().is_none()
        }
        None => false,
    };
    inside && state.current_region_print_depth_limit() == RegionPrintDepthLimit::Max(1)
}

#[test]
fn a_limit_elides_regions(rt: HostRuntime) {
    let mut state = State::new(rt.alloc(), ());
    assert!(rt; limited(&mut state));
}
