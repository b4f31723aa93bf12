// A number or a byte pushed onto a lent buffer.
ghost use Rattle.std.specs.Prelude.{◌≡◌};
ghost use Rattle.recording.specs.CodePushes.{pushed, push};

// Puts v at a place and answers the place after it; a buffer that has no such place is left as it is.
pub fn push<T: Copy>(out: &mut [T], at: usize, v: T) -> usize
    ensures { pushed out.new result ≡ push v (pushed out.old at) }
{
    if at < out.len() {
        out[at] = v;
        return at + 1;
    }
    at
}
