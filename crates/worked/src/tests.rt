//! A table of reports, and what both controllers make of them.
use controllers::{ByteAimd, RateController};
use meaning::{Controller, Report};
use std::test::Fail;

/// A clear report of nothing at all.
const NOTHING: Report = Report {
    received: 0,
    lost: 0,
    mode: 0,
    sample: None,
    flight: 0,
    time: 0,
};

/// Reports, and what each leaves: the window and threshold of byte AIMD, and the rate and allowance of
/// the rate controller. Modes stand by number, since one row tries 4.
const STEPS: [(Report, [u64; 4]); 20] = [
    // slow start by less than a packet
    (
        Report {
            received: 700,
            sample: Some(120_000),
            flight: 4_000,
            ..NOTHING
        },
        [4_700, 1_048_576, 64_000, 7_680],
    ),
    // slow start by a packet at most
    (
        Report {
            received: 5_000,
            flight: 4_700,
            ..NOTHING
        },
        [5_700, 1_048_576, 64_000, 7_680],
    ),
    // received out of range: ignored
    (
        Report {
            received: 4_294_967_296,
            sample: Some(90_000),
            flight: 5_000,
            ..NOTHING
        },
        [5_700, 1_048_576, 64_000, 7_680],
    ),
    // received at its limit
    (
        Report {
            received: 4_294_967_295,
            flight: 5_000,
            ..NOTHING
        },
        [6_700, 1_048_576, 65_562, 7_867],
    ),
    // lost out of range: ignored
    (
        Report {
            lost: 4_294_967_296,
            mode: 1,
            flight: 5_000,
            ..NOTHING
        },
        [6_700, 1_048_576, 65_562, 7_867],
    ),
    // flight out of range: ignored
    (
        Report {
            lost: 1,
            mode: 1,
            flight: 4_294_967_296,
            ..NOTHING
        },
        [6_700, 1_048_576, 65_562, 7_867],
    ),
    // no such mode: ignored
    (
        Report {
            lost: 1,
            mode: 4,
            flight: 5_000,
            ..NOTHING
        },
        [6_700, 1_048_576, 65_562, 7_867],
    ),
    // sample out of range: ignored
    (
        Report {
            received: 1,
            sample: Some(10_000_001),
            flight: 5_000,
            ..NOTHING
        },
        [6_700, 1_048_576, 65_562, 7_867],
    ),
    // the threshold stops at its limit
    (
        Report {
            lost: 1,
            mode: 1,
            sample: Some(10_000_000),
            flight: 4_294_967_295,
            ..NOTHING
        },
        [6_700, 1_048_576, 57_562, 77_996],
    ),
    // a mark halves an odd flight
    (
        Report {
            mode: 2,
            sample: Some(1),
            flight: 9_001,
            ..NOTHING
        },
        [4_500, 4_500, 49_562, 58_761],
    ),
    // congestion avoidance, a byte short of a window
    (
        Report {
            received: 4_499,
            flight: 4_500,
            ..NOTHING
        },
        [4_500, 4_500, 49_562, 58_761],
    ),
    // and the byte that fills it
    (
        Report {
            received: 1,
            flight: 4_500,
            ..NOTHING
        },
        [5_500, 4_500, 49_562, 58_761],
    ),
    // silence
    (
        Report {
            lost: 4_500,
            mode: 3,
            flight: 4_500,
            ..NOTHING
        },
        [1_000, 2_250, 8_000, 9_485],
    ),
    // slow start again
    (
        Report {
            received: 600,
            sample: Some(250_000),
            flight: 1_000,
            ..NOTHING
        },
        [1_600, 2_250, 8_000, 8_549],
    ),
    // up to the threshold
    (
        Report {
            received: 600,
            sample: Some(250_000),
            flight: 1_600,
            ..NOTHING
        },
        [2_200, 2_250, 8_000, 7_730],
    ),
    // and past it
    (
        Report {
            received: 100,
            flight: 2_200,
            ..NOTHING
        },
        [2_300, 2_250, 8_000, 7_730],
    ),
    // avoidance counts
    (
        Report {
            received: 2_250,
            flight: 2_250,
            ..NOTHING
        },
        [2_300, 2_250, 8_000, 7_730],
    ),
    // until the window is full
    (
        Report {
            received: 50,
            flight: 2_250,
            ..NOTHING
        },
        [3_300, 2_250, 8_000, 7_730],
    ),
    // a loss with nothing in flight: two packets
    (
        Report {
            lost: 1,
            mode: 1,
            ..NOTHING
        },
        [2_000, 2_000, 8_000, 7_730],
    ),
    // a large flight raises the threshold, not the window
    (
        Report {
            lost: 1,
            mode: 1,
            flight: 9_000,
            ..NOTHING
        },
        [2_000, 4_500, 8_000, 7_730],
    ),
];

#[test]
fn reports_move_both_controllers(rt: HostRuntime) -> Result<(), Fail> {
    let mut aimd = ByteAimd::new(1_000)?;
    let mut rate = RateController::new(1_000)?;
    for (report, [window, threshold, pace, allowance]) in STEPS {
        aimd.report(report);
        rate.report(report);
        assert_eq!(rt; aimd.state().window, window);
        assert_eq!(rt; aimd.state().threshold, threshold);
        assert_eq!(rt; rate.state().rate, pace);
        assert_eq!(rt; rate.allowance(), allowance);
    }
    Ok(())
}

#[test]
fn packets_out_of_range_are_refused(rt: HostRuntime) -> Result<(), Fail> {
    for packet in [0, 63, 9_001, u64::MAX] {
        assert_eq!(rt;
            ByteAimd::new(packet).err().map(|refusal| refusal.number()),
            Some(19)
        );
        assert_eq!(rt;
            RateController::new(packet)
                .err()
                .map(|refusal| refusal.number()),
            Some(19)
        );
    }
    assert_eq!(rt; ByteAimd::new(64)?.allowance(), 256);
    assert_eq!(rt; ByteAimd::new(9_000)?.allowance(), 18_000);
    Ok(())
}
