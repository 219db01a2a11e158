// Fields of a word, taken by shifts and masks.
ghost use Rattle.std.specs.Prelude.{◌≡◌, ◌+◌, ◌*◌, ◌^◌, ◌<◌, ◌≤◌};
ghost use Rattle.descriptor.specs.Bits.{bits};

// The bits of a word from `high` down to `low`, as a number.
pub fn bits(word: u32, high: u32, low: u32) -> u32
    requires { (low ≤ high) × (high < 32) }
    ensures answer { result ≡ bits high low word }
{
    let mask = ((1u64 << (high + 1 - low)) - 1) as u32;
    (word >> low) & mask
}

// A number whose low `width` bits are `low`, and whose bits above them are `high`.
pub fn join(high: u32, width: u32, low: u32) -> u32
    requires { (low < 2 ^ width) × ((width < 32) × (high * 2 ^ width < 2 ^ 32)) }
    ensures answer { result ≡ high * 2 ^ width + low }
{
    (high << width) | low
}
