// What the player says to the opening of a day.
use std::test::Fail;

#[test]
fn a_horizon_up_to_4096_is_taken_in_silence(rt: HostRuntime) -> Result<(), Fail> {
    assert_eq!(rt; day::said::lines(rt.alloc(), &[0, 0, 0, 0])?.as_str(), "");
    assert_eq!(rt;
        day::said::lines(rt.alloc(), &[2, 0, 0, 0, 9])?.as_str(),
        ""
    );
    assert_eq!(rt; day::said::lines(rt.alloc(), &[0, 16, 0, 0])?.as_str(), "");
    Ok(())
}

#[test]
fn a_horizon_above_4096_is_refused(rt: HostRuntime) -> Result<(), Fail> {
    assert_eq!(rt;
        day::said::lines(rt.alloc(), &[1, 16, 0, 0])?.as_str(),
        "refused 1 at 4097\n"
    );
    assert_eq!(rt;
        day::said::lines(rt.alloc(), &[0, 0, 1, 0])?.as_str(),
        "refused 1 at 65536\n"
    );
    assert_eq!(rt;
        day::said::lines(rt.alloc(), &[255, 255, 255, 255])?.as_str(),
        "refused 1 at 4294967295\n"
    );
    Ok(())
}

#[test]
fn a_horizon_that_is_cut_short_is_refused(rt: HostRuntime) -> Result<(), Fail> {
    assert_eq!(rt;
        day::said::lines(rt.alloc(), &[])?.as_str(),
        "refused 3 at 0\n"
    );
    assert_eq!(rt;
        day::said::lines(rt.alloc(), &[255, 255, 255])?.as_str(),
        "refused 3 at 0\n"
    );
    Ok(())
}
