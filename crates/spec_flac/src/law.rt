ghost use Rattle.spec_syntax.specs.Laws.{IsExact, ReadsExactly};
ghost use Rattle.spec_flac.specs.declared.shape.FlacShape.{FlacShape};
ghost use Rattle.spec_flac.specs.Faults.{short};
ghost use Rattle.spec_flac.specs.Frame.{frame};
ghost use Rattle.spec_flac.specs.Equations.{Spelled};
ghost use Rattle.spec_flac.specs.FrameLaws.{MeetsFrame, IsExactFrame};
ghost use Rattle.spec_syntax.specs.Payload.{FieldValue};
ghost use Rattle.std.specs.Prelude.{ℕ, ℤ, List};

/// The laws of frames: of any bits exactly one holds, a frame of the shape or a first fault, and reading answers it.
#[tactic(auto, using(spec_syntax::proofs::SyntaxLaws::is_exact, spec_syntax::proofs::SyntaxLaws::reads_exactly))]
pub fn frame_law()
    ensures exact { (shape : FlacShape) → IsExact short (frame shape) }
    ensures reading { (shape : FlacShape) → ReadsExactly short (frame shape) }
{}

/// Of any bytes exactly one holds: they are one frame of the shape and no more, with one list of rows, or they have
/// one first fault.
pub fn exact_law()
    ensures { (shape : FlacShape) → IsExactFrame shape }
{}

/// The samples of a frame meet the equations of its subframes, with the residuals that its fields code: each later
/// sample is the prediction from those before it plus its residual, all are multiplied for the wasted bits, and left
/// and right are those of the two subframes.
pub fn sample_law()
    ensures { (shape : FlacShape) (fields : List FieldValue) (rows : List (List ℤ)) → Spelled (frame shape) fields rows → MeetsFrame shape fields rows }
{}
