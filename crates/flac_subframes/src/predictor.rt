ghost use Rattle.std.specs.Prelude.{◌≡◌, ℕ, ◌^◌, ◌<◌, ◌≤◌, ℤ, List, length, unsigned_abs};
ghost use Rattle.flac_subframes.specs.Rows.{AreSmall};

/// What says the next sample from those before it.
pub trait Predictor {
    ghost order: { Self → ℕ };

    ghost next: { Self → List ℤ → ℤ };

    /// The prediction of the sample after these.
    fn predict(&self, before: &[i64]) -> i64
        requires enough { order self.now ≤ length before.now }
        requires small { AreSmall before.now }
        ensures value { result ≡ next self.now before.now }
        ensures small { unsigned_abs result < 2 ^ 60 };
}
