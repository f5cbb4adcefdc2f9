ghost use Rattle.std.specs.Prelude.{◌≡◌, ◌↔◌, ℕ, ℤ, List, Some, None};
ghost use Rattle.spec_flac.specs.declared.shape.FlacShape.{FlacShape};
ghost use Rattle.spec_flac.specs.Frame.{IsFrame, IsFault};
ghost use Rattle.spec_flac.specs.FirstFault.{first_fault};

use crate::fault::FlacFault;

/// The fault that is found by reading is the first fault of the bytes, and none is found exactly where they are one frame.
pub fn first_fault_law()
    ensures fault { (shape : FlacShape) (bytes : List ℕ) (f : FlacFault) → (first_fault shape bytes ≡ Some f) ↔ IsFault shape bytes f }
    ensures none { (shape : FlacShape) (bytes : List ℕ) → (first_fault shape bytes ≡ None) ↔ ((rows : List (List ℤ)) × IsFrame shape bytes rows) }
{}
