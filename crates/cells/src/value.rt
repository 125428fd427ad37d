// A kind of value: how many bytes it takes, where an item of it starts, and how it is read from bytes and written to them.
ghost use Rattle.std.specs.Prelude.{◌≡◌, ℕ, ◌<◌, ◌≤◌, List, length, All, if◌then◌else◌, Some as Just, Option as Maybe, nat_eq};
ghost use Rattle.cells.specs.Written.{written};

// Memory of another number of bytes than a value takes.
#[derive(Clone, Copy, PartialEq, Eq, Debug)]
pub struct WrongWidth;

pub trait Value: Copy {
    // The number of bytes that a value takes.
    const WIDTH: usize;

    ghost WIDTH: { ℕ };

    // The value that a fresh item holds.
    ghost starting: { Self };

    ghost encoding: { Self → List ℕ };

    // The value that bytes stand for, if they stand for one.
    ghost decoding: { List ℕ → Maybe Self };

    fn start() -> Self
        ensures { result ≡ starting };

    // Refuses any other number of bytes than the width, and bytes that no value is written as.
    fn read(bytes: &[u8]) -> Option<Self>
        ensures { result ≡ decoding bytes.now };

    // Writes over the whole of `out` if it has the width, and refuses any other, which it leaves as it is.
    fn write(self, out: &mut [u8]) -> Result<(), WrongWidth>
        ensures reply { result ≡ written (nat_eq (length out.old) WIDTH) }
        ensures memory { out.new ≡ (if nat_eq (length out.old) WIDTH then encoding self else out.old) };

    ghost narrow: { (1 ≤ WIDTH) × (WIDTH ≤ 6) };

    ghost exact: { (x : Self) → length (encoding x) ≡ WIDTH };

    // A value that is written and read back is the same.
    ghost decodes: { (x : Self) → decoding (encoding x) ≡ Just x };

    // Bytes that are accepted, read and written are the same. A byte is a number below 256.
    ghost encodes: { (bytes : List ℕ) (x : Self) → All (λ b. b < 256) bytes → decoding bytes ≡ Just x → encoding x ≡ bytes };
}
