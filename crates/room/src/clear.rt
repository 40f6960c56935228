// Zeros in every place of a list, also past the part that was needed.
ghost use Rattle.std.specs.Prelude.{◌≡◌, map};

// By hand, since `fill` asks that a clone cannot fail, which `Copy` alone does not say.
pub fn clear<T: Copy>(list: &mut [T], zero: T)
    ensures { list.new ≡ map (λ (x : T). zero) list.old }
{
    for place in 0..list.len() {
        list[place] = zero;
    }
}
