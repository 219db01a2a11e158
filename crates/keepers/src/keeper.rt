// A page keeper of any make.
ghost use Rattle.std.specs.Prelude.{◌≡◌, vec_len};

mod calls;

// A share for each guest, that of guest 1 first.
// kept: a `Vec` with its length, and no array: shares are made one by one by calls that can fail, and the length stands here alone.
#[derive(Drop)]
pub struct Keeper<S> {
    shares: Vec<S>,
    ghost eight: { vec_len shares ≡ 8 },
}
