// A list that numbers are written to, one by one from its front: by place, since `as_chunks_mut` says nothing of what the bytes end as.
ghost use Rattle.std.specs.Prelude.{◌≡◌, ℕ, [], ◌∷◌, ◌+◌, ◌*◌, ◌≤◌, List, length, refl};
ghost use Rattle.std.proofs.lemmas.List.Edits.{sets};
ghost use Rattle.words.specs.Bytes.{bytes_of};

// What such a list is made of: numbers, or bytes, four to a number.
pub trait Cell: Copy {
    // the cells that a number takes, and how many these are
    ghost cells: { ℕ → List Self };

    ghost width: { ℕ };

    // Writes the number at place k of a list.
    fn put(list: &mut [Self], k: usize, value: u32)
        requires { width * k + width ≤ length list.old }
        ensures { list.new ≡ sets list.old (width * k) (cells value) };

    ghost fills: { (n : ℕ) → length (cells n) ≡ width };
}

impl Cell for u32 {
    ghost cells = { λ n. n ∷ [] };

    ghost width = { 1 };

    ghost fills = { λ n. refl };

    fn put(list: &mut [u32], k: usize, value: u32) {
        list[k] = value;
    }
}

impl Cell for u8 {
    ghost cells = { λ n. bytes_of (n ∷ []) };

    ghost width = { 4 };

    ghost fills = { λ n. refl };

    fn put(list: &mut [u8], k: usize, value: u32) {
        list[4 * k..4 * k + 4].copy_from_slice(&value.to_le_bytes());
    }
}
