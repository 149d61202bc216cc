//! What is cited here of the crates below.

ghost use Rattle.gl_wiring.specs.Below.{LawsBelow};

use gl_above::laws::rows_serve_once;
use gl_algebra::laws as plans;
use gl_figures::reach_laws::once_is_less;
use gl_frames_parted::laws::key_frames_are_counted;
use gl_frames_stages::laws::frames_are_counted;
use gl_frames_wire::laws::running_serves;
use gl_wire::laws as wires;
use gl_wire_lanes::laws::begins_behind;

/// The laws of plans, of wires, and of the blocks that stand between them.
pub fn laws_below()
    ensures { LawsBelow }
{
    plans::bodies_read_their_input();
    plans::closing_nodes_wait();
    plans::columns_have_kinds();
    plans::figures_are_sound();
    plans::nodes_follow_tables();
    plans::paces_fix_figures();
    plans::results_are_untimed();
    plans::results_go_by_order();
    once_is_less();
    wires::ends_serve();
    wires::followers_keep_pace();
    wires::own_beats_fit();
    wires::steady_serves();
    wires::totals_come_with_ends();
    wires::unspaced_is_apart();
    rows_serve_once();
    begins_behind();
    running_serves();
    frames_are_counted();
    key_frames_are_counted();
    gl_windows::laws::windows_rotate();
    gl_windows::laws::costs_are_counted();
    gl_windows::laws::times_rotate();
    gl_windows::laws::times_are_counted();
    gl_spare::laws::spares_rotate();
    gl_spare::laws::costs_are_counted();
    gl_groups::laws::groups_group();
    gl_groups::laws::costs_are_counted();
    gl_groups::laws::lanes_serve();
    gl_partition::laws::partitions_partition();
    gl_partition::laws::costs_are_counted();
    gl_queue::laws::costs_are_counted();
    gl_turns::laws::turns_are_counted();
}
