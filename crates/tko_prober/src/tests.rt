//! A prober at chosen moments.

use crate::{AfterProbe, Delays, ProbeTurn, Probed, Prober};
use std::process::Abort;
use std::test::Fail;

/// Turns at moments that are too early, and then at one where the probe is sent.
fn sends_at(rt: &impl Abort, prober: &mut Prober, moment: u64) {
    if let Some(early) = moment.checked_sub(1) {
        assert_eq!(rt; prober.turn(early), ProbeTurn::Rest);
    }
    assert_eq!(rt; prober.turn(moment), ProbeTurn::Send);
    assert_eq!(rt; prober.turn(moment), ProbeTurn::Rest);
}

/// Hands in the result of the probe that is out.
fn asks(rt: &impl Abort, prober: &mut Prober, moment: u64, probed: Probed) -> AfterProbe {
    assert!(rt; prober.is_out());
    prober.result(moment, probed)
}

#[test]
fn probe_moments(rt: HostRuntime) -> Result<(), Fail> {
    let delays = Delays::new(10_000, 60_000).ok_or("delays")?;
    let mut prober = Prober::begin(delays, 1_000);
    for (sent, came, probed, asked) in [
        (11_000, 11_500, Probed::Failed, AfterProbe::Again),
        (31_500, 31_600, Probed::Refused, AfterProbe::Harden),
        (71_600, 71_700, Probed::Failed, AfterProbe::Again),
        (131_700, 131_800, Probed::Answered, AfterProbe::Recover),
    ] {
        sends_at(&rt, &mut prober, sent);
        assert_eq!(rt; asks(&rt, &mut prober, came, probed), asked);
    }
    assert_eq!(rt; prober.turn(u64::MAX), ProbeTurn::Rest);
    Ok(())
}
