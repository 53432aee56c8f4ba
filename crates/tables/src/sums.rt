//! What the records of a macroflow come to.
ghost use Rattle.std.specs.Prelude.{◌≡◌, ◌*◌, ◌^◌, ◌<◌, ◌≤◌};
ghost use Rattle.tables.specs.Sums.{load as load_of, outstanding as outstanding_of, flight as flight_of, someone_waits as waits_of};

use crate::core_state::Core;

impl Core {
    /// The outstanding and open bytes over the slots of a macroflow.
    pub fn load(&self, macroflow: usize) -> u128
        ensures value { result ≡ load_of self.now macroflow }
        ensures most { result ≤ 32 * 2 ^ 65 }
    {
        self.streams
            .iter()
            .map(|stream| stream.load_in(macroflow))
            .sum()
    }

    /// The outstanding bytes over the slots of a macroflow.
    fn outstanding(&self, macroflow: usize) -> u128
        ensures { result ≡ outstanding_of self.now macroflow }
    {
        self.streams
            .iter()
            .map(|stream| stream.flight_in(macroflow))
            .sum()
    }

    /// The flight of a macroflow as its controller is told it: where it does not fit, the largest
    /// number, which a controller ignores likewise.
    pub fn flight(&self, macroflow: usize) -> u64
        ensures { result ≡ flight_of self.now macroflow }
    {
        u64::try_from(self.outstanding(macroflow)).unwrap_or(u64::MAX)
    }

    /// Whether by the records a slot waits in a macroflow.
    pub fn someone_waits(&self, macroflow: usize) -> bool
        ensures { result ≡ waits_of self.now macroflow }
    {
        self.streams.iter().any(|stream| stream.waits_in(macroflow))
    }
}
