//! The public call of `tfpg_evidence`: which statuses rank.

use tfpg_base::Trace;
use tfpg_evidence::Status;

#[test]
fn only_the_ranked_status_ranks(rt: HostRuntime) {
    let ranked = Status::Ranked {
        trace: Trace::new(rt.alloc()),
        cost: 0,
        alarmed: 1,
        monitored: 1,
    };
    assert!(rt; ranked.is_ranked());
    assert!(rt; !Status::Covered { by: 0 }.is_ranked());
    assert!(rt; !Status::Rejected.is_ranked());
    assert!(rt; !Status::Open.is_ranked());
}
