use crate::{Analog, Drive, Refusal, Reversed};

#[test]
fn sleep_is_asked_before_the_reach(rt: HostRuntime) {
    let mut drive = Analog::new(0, 0);
    assert_eq!(rt; drive.step(20_000_000), Err(Refusal::Asleep));
    drive.wake();
    assert_eq!(rt; drive.step(20_000_000), Err(Refusal::Beyond));
    assert_eq!(rt; drive.step(i32::MIN), Err(Refusal::Beyond));
}

#[test]
fn a_step_holds_the_gap(rt: HostRuntime) {
    let mut drive = Analog::new(0, 0);
    drive.wake();
    assert_eq!(rt; drive.step(19_999_999), Ok(()));
    assert_eq!(rt; drive.place(), 19_999_999);
    assert_eq!(rt; drive.gap(), 1_000_000);
}

#[test]
fn the_least_report_of_an_encoder_is_mirrored(rt: HostRuntime) {
    let mut mount = Reversed::new(Analog::new(0, 0));
    mount.feel(-32_768, true);
    assert_eq!(rt; mount.gap(), 32_768);
    assert_eq!(rt; mount.below().gap(), -32_768);
}

#[test]
fn a_negative_output_is_rounded_up(rt: HostRuntime) {
    let mut drive = Analog::new(1, 2);
    drive.wake();
    assert_eq!(rt; drive.step(-999), Ok(()));
    // (1 × -999 + 2 × -999) ÷ 1,000 is -2.997.
    assert_eq!(rt; drive.output(), -2);
}

#[test]
fn two_mounts_cancel_out(rt: HostRuntime) {
    let mut plain = Analog::new(1_000, 1_000);
    let mut twice = Reversed::new(Reversed::new(plain));
    plain.wake();
    twice.wake();
    assert_eq!(rt; plain.step(-7_000), twice.step(-7_000));
    plain.feel(-4_000, true);
    twice.feel(-4_000, true);
    assert_eq!(rt; plain.place(), twice.place());
    assert_eq!(rt; plain.gap(), twice.gap());
    assert_eq!(rt; plain.output(), twice.below().below().output());
}
