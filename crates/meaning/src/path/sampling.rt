//! How a round-trip sample moves the estimate of a path.
ghost use Rattle.std.specs.Prelude.{◌≡◌, ◌+◌, ◌*◌, ◌/◌, ◌≤◌};
ghost use Rattle.meaning.specs.Paths.{is_sample, Sample, distance, smoothed as smoothed_of, variation as variation_of, path_after};

use super::PathEstimate;

impl PathEstimate {
    /// The smoothed round-trip time in microseconds.
    pub fn smoothed(&self) -> u64
        ensures value { result ≡ smoothed_of self.now }
        ensures range { (1 ≤ result) × (result ≤ 10000000) }
    {
        self.srtt
    }

    /// The mean deviation of the round trip in microseconds.
    pub fn variation(&self) -> u64
        ensures { result ≡ variation_of self.now }
    {
        self.rttvar
    }

    /// Whether a number of microseconds can be a round-trip sample.
    pub fn is_sample(micros: u64) -> bool
        ensures { result ≡ is_sample micros }
    {
        (1..=10_000_000).contains(&micros)
    }

    /// The estimate by the first sample: it is taken whole, with half of it as the deviation.
    fn first(micros: u64) -> PathEstimate
        requires { Sample micros }
        ensures smoothed { smoothed_of result ≡ micros }
        ensures variation { variation_of result ≡ micros / 2 }
    {
        PathEstimate {
            srtt: micros,
            rttvar: micros / 2,
        }
    }

    /// The estimate by one sample more: the deviation moves by a quarter of the way to the sample's
    /// distance from the smoothed time, and the smoothed time by an eighth of the way to the sample.
    fn next(self, micros: u64) -> PathEstimate
        requires { Sample micros }
        ensures smoothed { smoothed_of result ≡ (7 * smoothed_of self + micros) / 8 }
        ensures variation { variation_of result ≡ (3 * variation_of self + distance (smoothed_of self) micros) / 4 }
    {
        PathEstimate {
            srtt: (7 * self.srtt + micros) / 8,
            rttvar: (3 * self.rttvar + self.srtt.abs_diff(micros)) / 4,
        }
    }

    /// The estimate after a sample, if there is one. A sample out of range counts for nothing.
    pub fn after(path: Option<PathEstimate>, sample: Option<u64>) -> Option<PathEstimate>
        ensures { result ≡ path_after path sample }
    {
        match sample {
            Some(micros) if PathEstimate::is_sample(micros) => Some(match path {
                None => PathEstimate::first(micros),
                Some(old) => old.next(micros),
            }),
            _ => path,
        }
    }
}
