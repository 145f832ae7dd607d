// The loader of a packed list, one for every record of eight bytes.
ghost use Rattle.std.specs.Prelude.{◌≡◌, ℕ, min, List, length};
ghost use Rattle.packed.specs.Pieces.{records, loaded};

// A record that stands in eight bytes.
pub trait Packed {
    // the record that bytes stand for
    ghost decode: { List ℕ → Self };

    fn unpack(eight: &[u8; 8]) -> Self
        ensures { result ≡ decode eight.now };
}

// Loads as many records as the bytes and the slice have, in order, and answers how many; the rest of the slice stays. The slice is the caller's: loading takes no memory.
pub fn load<T: Packed + Copy>(bytes: &[u8], out: &mut [T]) -> usize
    ensures count { result ≡ min (length (records T.Packed.decode bytes.now)) (length out.old) }
    ensures after { out.new ≡ loaded (records T.Packed.decode bytes.now) out.old }
{
    let (pieces, _) = bytes.as_chunks::<8>();
    let count = pieces.len().min(out.len());
    // tried zip over out.iter_mut(): a proof knows nothing of what is written through an adapter
    for (i, piece) in pieces[..count].iter().enumerate() {
        out[i] = T::unpack(piece);
    }
    count
}
