// Places in a file.
ghost use Rattle.std.specs.Prelude.{◌≡◌};
ghost use Rattle.import.specs.Slips.{part};

// The bytes of a file at a place, so many as there are.
pub fn part(file: &[u8], start: usize, length: usize) -> &[u8]
    ensures { result.now ≡ part file.now start length }
{
    let start = start.min(file.len());
    let rest = &file[start..];
    &rest[..length.min(rest.len())]
}
