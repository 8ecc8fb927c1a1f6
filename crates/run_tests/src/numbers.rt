//! The number of the next call, after a step that used up one or did not.
use gateway::following;

#[test]
fn numbers_run_out(rt: HostRuntime) {
    assert_eq!(rt; following(false, Some(5)), Some(5));
    assert_eq!(rt; following(true, Some(5)), Some(6));
    assert_eq!(rt;
        following(true, Some(18_446_744_073_709_551_614)),
        Some(18_446_744_073_709_551_615)
    );
    assert_eq!(rt; following(true, Some(18_446_744_073_709_551_615)), None);
    assert_eq!(rt; following(true, None), None);
    assert_eq!(rt; following(false, None), None);
}
