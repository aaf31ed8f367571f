//! What the first bytes of an input say that it is.

ghost use Rattle.std.specs.Prelude.{◌≡◌};
ghost use Rattle.sum_commands.specs.Kinds.{kind_of as kind_of_bytes};

/// This many bytes from the start of an input are enough to see what it is.
pub const FRONT: usize = 16;

/// What an input begins as.
#[derive(Clone, Copy, PartialEq, Eq)]
pub enum InputKind {
    /// As an image, or as a mapped file with one.
    Image,
    /// As a totals.
    Totals,
    /// As neither.
    Other,
}

// The cookie of a segment, as an image begins with it.
const COOKIE: [u8; 8] = [0xdc, 0x05, 0x83, 0x40, 0, 0, 0, 0];

// A word of zeros and the cookie, as a mapped file begins with them.
const MAPPED: [u8; 16] = [0, 0, 0, 0, 0, 0, 0, 0, 0xdc, 0x05, 0x83, 0x40, 0, 0, 0, 0];

// The first line of a totals.
const TOTALS: [u8; 9] = *b"totals,1\n";

/// Returns what an input is whose bytes begin with these: an image if they begin with the cookie of a segment, or with
/// a word of zeros and then the cookie; a totals if they begin with its first line [kind]. [`FRONT`] bytes are enough.
pub fn kind_of(front: &[u8]) -> InputKind
    ensures kind { result ≡ kind_of_bytes front.now }
{
    if front.starts_with(&TOTALS) {
        return InputKind::Totals;
    }
    if front.starts_with(&COOKIE) {
        return InputKind::Image;
    }
    if front.starts_with(&MAPPED) {
        return InputKind::Image;
    }
    InputKind::Other
}
