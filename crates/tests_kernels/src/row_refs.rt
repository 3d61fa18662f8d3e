//! Row references to the rows of columns.

use sel_gather::checks::plan_in_bounds;
use sel_runs::row_refs::Listed;

#[test]
fn row_references_in_bounds(rt: HostRuntime) {
    assert!(rt;
        plan_in_bounds(
            &[],
            &Listed {
                picks: &[None, None]
            }
        )
    );
    assert!(rt;
        !plan_in_bounds(
            &[],
            &Listed {
                picks: &[None, Some((0, 0))]
            }
        )
    );
}
