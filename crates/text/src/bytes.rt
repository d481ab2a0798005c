// A text: bytes, and how many of them are put. Fixed room and a count, as there is no heap.
// A file of its own: the definitions that the methods in `writer` are stated by name the type, so that its fact cannot stand beside them.
ghost use Rattle.std.specs.Prelude.{◌≤◌};

#[derive(Drop)]
pub struct Text {
    pub bytes: [u8; 1024],
    pub len: usize,
    ghost within: { len ≤ 1024 },
}
