//! Coded samples: frames of linear PCM.
#![tactic(auto)]

ghost use Rattle.std.specs.Prelude.{◌≡◌, ℕ, ◌+◌, ◌/◌, ◌≤◌, Bool, IsTrue, List, length, not, reverse};
ghost use Rattle.spec_bits.specs.Bits.{FitsSigned};
ghost use Rattle.spec_samples.specs.Lpcm.{is_depth, sample_place, signed_number, sample};
ghost use Rattle.spec_samples.specs.Laws.{SamplesTile};

/// A law of the definitions: the samples of a frame tile its bytes (IAMF 1.0.0, "LPCM Specific"). Each lies within
/// the frame, and each byte of the frame belongs to exactly one.
pub fn samples_tile()
    ensures { (frame_length channels depth : ℕ) → IsTrue (is_depth depth) → SamplesTile frame_length channels depth }
{}

/// A law of the definitions: a sample whose bytes are there is from `-2^(depth - 1)` to `2^(depth - 1) - 1`.
pub fn samples_fit()
    ensures { (frame : List ℕ) (little : Bool) (depth channels n c : ℕ) → IsTrue (is_depth depth) → sample_place channels depth n c + depth / 8 ≤ length frame → FitsSigned depth (sample frame little depth channels n c) }
{}

/// A law of the definitions: each byte order finds in bytes what the other finds in the reversed bytes.
pub fn byte_orders_mirror()
    ensures { (little : Bool) (depth : ℕ) (bytes : List ℕ) → signed_number little depth bytes ≡ signed_number (not little) depth (reverse bytes) }
{}
