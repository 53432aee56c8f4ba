//! Worked values of the controllers: each function proves them of the rules, and works them out
//! with the controllers themselves.
ghost use Rattle.std.specs.Prelude.{◌≡◌, [], ◌∷◌, Some, Ok};
ghost use Rattle.worked.specs.Controllers.{clear as clear_report, loss as loss_report, StartingWindows, ClearLossClear, LargeFlight, TwoSamples, RateGrows};

use controllers::{ByteAimd, RateController};
use meaning::{Controller, Mode, PathEstimate, Refusal, Report};

/// A clear report about this many bytes.
fn clear(received: u64, time: u64) -> Report
    ensures { result ≡ clear_report received time }
{
    Report {
        received,
        lost: 0,
        mode: Mode::Clear as u64,
        sample: None,
        flight: received,
        time,
    }
}

/// A report of a loss at this flight.
fn loss(flight: u64, time: u64) -> Report
    ensures { result ≡ loss_report flight time }
{
    Report {
        received: 0,
        lost: 1,
        mode: Mode::Loss as u64,
        sample: None,
        flight,
        time,
    }
}

/// Packets of 1,095, 1,096, 2,190 and 2,191 bytes start with windows of 4,380, 3,288, 6,570 and
/// 4,382 bytes.
pub fn starting_windows() -> Result<[u64; 4], Refusal>
    ensures rule { StartingWindows }
    ensures code { result ≡ Ok (4380 ∷ 3288 ∷ 6570 ∷ 4382 ∷ []) }
{
    Ok([
        ByteAimd::new(1095)?.allowance(),
        ByteAimd::new(1096)?.allowance(),
        ByteAimd::new(2190)?.allowance(),
        ByteAimd::new(2191)?.allowance(),
    ])
}

/// The samples 100,000 and 180,000 lead to a deviation of 57,500 and a smoothed time of 110,000.
pub fn two_samples() -> Option<(u64, u64)>
    ensures rule { TwoSamples }
    ensures code { result ≡ Some (57500, 110000) }
{
    let first = PathEstimate::after(None, Some(100_000));
    let path = PathEstimate::after(first, Some(180_000))?;
    Some((path.variation(), path.smoothed()))
}

/// With packets of 1,000 bytes the window is 4,000; a clear report of 1,500 bytes makes it 5,000;
/// a loss at a flight of 4,500 makes window and threshold 2,250; then clear reports of 1,000 and
/// 1,250 bytes make it 2,250 and 3,250.
pub fn clear_loss_clear() -> Result<[u64; 6], Refusal>
    ensures rule { ClearLossClear }
    ensures code { result ≡ Ok (4000 ∷ 5000 ∷ 2250 ∷ 2250 ∷ 2250 ∷ 3250 ∷ []) }
{
    let mut controller = ByteAimd::new(1_000)?;
    let start = controller.allowance();
    controller.report(clear(1_500, 1_000_000));
    let grown = controller.allowance();
    controller.report(loss(4_500, 2_000_000));
    let cut = controller.state();
    controller.report(clear(1_000, 3_000_000));
    let counted = controller.allowance();
    controller.report(clear(1_250, 4_000_000));
    Ok([
        start,
        grown,
        cut.window,
        cut.threshold,
        counted,
        controller.allowance(),
    ])
}

/// With packets of 1,000 bytes and a window of 2,000, a loss at a flight of 9,000 makes the
/// threshold 4,500 and leaves the window.
pub fn large_flight() -> Result<[u64; 3], Refusal>
    ensures rule { LargeFlight }
    ensures code { result ≡ Ok (2000 ∷ 4500 ∷ 2000 ∷ []) }
{
    let mut controller = ByteAimd::new(1_000)?;
    controller.report(loss(4_000, 1_000_000));
    let before = controller.allowance();
    controller.report(loss(9_000, 2_000_000));
    let cut = controller.state();
    Ok([before, cut.threshold, cut.window])
}

/// With packets of 1,000 bytes the first allowance is 12,800; a clear report of 6,400 bytes with a
/// sample of 100,000 makes the rate 65,562 and the allowance 6,556.
pub fn rate_grows() -> Result<[u64; 3], Refusal>
    ensures rule { RateGrows }
    ensures code { result ≡ Ok (12800 ∷ 65562 ∷ 6556 ∷ []) }
{
    let mut controller = RateController::new(1_000)?;
    let start = controller.allowance();
    controller.report(Report {
        sample: Some(100_000),
        ..clear(6_400, 1_000_000)
    });
    Ok([start, controller.state().rate, controller.allowance()])
}
