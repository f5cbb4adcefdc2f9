use spec_layouts::Layout;

/// What a mix is played for.
#[derive(Clone, Copy, Debug, PartialEq, Eq)]
pub enum Target {
    /// The loudspeakers of a layout, to which scalable elements are demixed.
    Layer(Layout),
    /// The outputs of ambisonics elements, as they are numbered.
    Scene,
}
