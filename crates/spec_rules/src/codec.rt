/// How the frames of a sequence are coded (IAMF 1.0.0, "Codec Config OBU Syntax and Semantics", `codec_id`).
#[derive(Clone, Copy, Debug, PartialEq, Eq)]
pub enum Codec {
    /// Linear PCM, `ipcm`.
    Lpcm,
    /// FLAC, `fLaC`.
    Flac,
}
