// The name of a coordinate frame: bytes with a length, in fixed room, as there is no heap.
ghost use Rattle.std.specs.Prelude.{◌≡◌, ◌≤◌, take};
ghost use Rattle.lists.specs.Same.{same};
ghost use Rattle.settings.specs.Frame.{too_long, same_frame};

#[repr(C)]
#[derive(Clone, Copy)]
pub struct FrameName {
    pub bytes: [u8; 32],
    pub length: usize,
}

// Whether a name has more bytes than there are places.
pub fn too_long(frame: FrameName) -> bool
    ensures { result ≡ too_long frame }
{
    32 < frame.length
}

// Whether two frames are the same; one whose name is too long is the same as none.
pub fn same_frame(a: FrameName, b: FrameName) -> bool
    ensures { result ≡ same_frame a b }
{
    let n = a.length;
    if 32 < n || n != b.length {
        return false;
    }
    a.bytes[..n] == b.bytes[..n]
}
