//! The words of one row among the words of all.
ghost use Rattle.std.specs.Prelude.{◌≡◌, ◌+◌, ◌≤◌, length, take, drop, slice_range};

/// Writes a block of words where it is to begin; the words before it and after it stay.
pub fn write_block(words: &mut [u16], start: usize, block: &[u16])
    requires { start + length block.now ≤ length words.old }
    ensures len { length words.new ≡ length words.old }
    ensures before { take start words.new ≡ take start words.old }
    ensures here { slice_range words.new start (start + length block.now) ≡ block.now }
    ensures after { drop (start + length block.now) words.new ≡ drop (start + length block.now) words.old }
{
    words[start..start + block.len()].copy_from_slice(block);
}
