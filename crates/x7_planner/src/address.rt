//! Whether a plan is one for a part.
ghost use Rattle.std.specs.Prelude.{IfNone, IfSome};
ghost use Rattle.x7_memory.specs.Plan.{AreAddressed};
ghost use Rattle.x7_planner.specs.Fault.{IsFirstForeign};

use x7_memory::Plan;
use x7_part::Part;

/// The first planned address that the part lacks, none where it lacks none.
pub(crate) fn first_foreign(part: &Part, plan: &Plan) -> Option<u32>
    ensures found { IfSome result (IsFirstForeign part.now plan.now.rows) }
    ensures addresses { IfNone result (AreAddressed part.now plan.now.rows) }
{
    for i in 0..plan.len() {
        let Some((far, _)) = plan.row(i) else {
            unreachable!()
        };
        if !part.is_address(far) {
            return Some(far);
        }
    }
    None
}
