//! What a listener hears of a sequence: one mix presentation in one layout, or as a scene. Which mixes are played, gains and
//! demixing parameters over time, the exact value of each sample, the WAV files that play a mix, and the mix in whole units
//! of 1/2^28 (IAMF 1.0.0, "Mix Presentation OBU Syntax and Semantics", "Parameter Block OBU Syntax and Semantics" and
//! "Audio Element OBU Syntax and Semantics"), with laws of it.
#![tactic(auto)]

mod fault;
mod laws;
mod target;

pub use fault::PlayFault;
pub use laws::{
    exact_values_are_there, frames_are_whole, indices_are_stepped, linear_gains_are_exact,
    rows_are_of_the_frame, selected_mixes_are_playable, the_fixed_mix_is_near,
    the_fixed_wave_plays,
};
pub use target::Target;
