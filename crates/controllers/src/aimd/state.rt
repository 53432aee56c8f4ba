//! The numbers of a byte AIMD controller, and how a report moves them.
ghost use Rattle.std.specs.Prelude.{◌≡◌, ◌≤◌};
ghost use Rattle.controllers.specs.Aimd.{starting_window, moved, threshold_after};
ghost use Rattle.controllers.specs.AimdRule.{aimd_rule, aimd_keeps};

use crate::numbers::Numbers;
use meaning::{MAX_ALLOWANCE, Mode, PathEstimate, Report};

/// The numbers of a byte AIMD controller.
#[derive(Clone, Copy)]
pub struct AimdState {
    /// The size of a packet in bytes; it never changes.
    pub packet: u64,
    /// The window: how many bytes may be on the path.
    pub window: u64,
    /// Below this window a clear report means slow start, from it on congestion avoidance.
    pub threshold: u64,
    /// The bytes received in congestion avoidance since the window last changed.
    pub count: u64,
    /// The estimate of the round trip.
    pub path: Option<PathEstimate>,
}

impl AimdState {
    /// The window to start with: four, three or two packets, the fewer the larger they are.
    fn starting_window(packet: u64) -> u64
        requires { packet ≤ 9000 }
        ensures { result ≡ starting_window packet }
    {
        match packet {
            0..=1_095 => 4 * packet,
            1_096..=2_190 => 3 * packet,
            _ => 2 * packet,
        }
    }

    /// The threshold after a loss: half of the flight, but at least two packets.
    fn threshold_after(self, flight: u64) -> u64
        requires { self.packet ≤ 9000 }
        ensures { result ≡ threshold_after self flight }
    {
        (flight / 2).clamp(2 * self.packet, MAX_ALLOWANCE)
    }

    /// The numbers with another window and threshold, and the count begun anew.
    fn resized(self, window: u64, threshold: u64) -> AimdState
        ensures { result ≡ moved self window threshold 0 }
    {
        AimdState {
            window,
            threshold,
            count: 0,
            ..self
        }
    }
}

impl Numbers for AimdState {
    ghost rule = { aimd_rule };

    ghost lawful = { aimd_keeps };

    fn fresh(packet: u64) -> AimdState {
        AimdState {
            packet,
            window: AimdState::starting_window(packet),
            threshold: MAX_ALLOWANCE,
            count: 0,
            path: None,
        }
    }

    fn packet(&self) -> u64 {
        self.packet
    }

    fn allowance(&self) -> u64 {
        self.window
    }

    fn path(&self) -> Option<PathEstimate> {
        self.path
    }

    fn sampled(self, report: Report) -> AimdState {
        AimdState {
            path: PathEstimate::after(self.path, report.sample),
            ..self
        }
    }

    /// The numbers after a report in range, whose sample is taken already.
    ///
    /// - Clear, below the threshold: the window grows by the bytes received, at most a packet.
    /// - Clear otherwise: the bytes received are counted, and a whole window of them is worth a
    ///   packet more.
    /// - Loss or mark: the threshold falls to half of the flight, and the window to the threshold.
    /// - Silence: the threshold likewise, and the window falls to a packet.
    fn step(self, report: Report, mode: Mode) -> AimdState {
        match mode {
            Mode::Clear if self.window < self.threshold => AimdState {
                window: (self.window + report.received.min(self.packet)).min(MAX_ALLOWANCE),
                ..self
            },
            Mode::Clear if self.count + report.received < self.window => AimdState {
                count: self.count + report.received,
                ..self
            },
            Mode::Clear => self.resized(
                (self.window + self.packet).min(MAX_ALLOWANCE),
                self.threshold,
            ),
            Mode::Loss | Mode::Mark => {
                let threshold = self.threshold_after(report.flight);
                self.resized(self.window.min(threshold), threshold)
            }
            Mode::Silence => self.resized(self.packet, self.threshold_after(report.flight)),
        }
    }
}
