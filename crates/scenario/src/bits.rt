// A float as the word that is its bit pattern.
ghost use Rattle.std.specs.Prelude.{◌≡◌};
ghost use Rattle.std.specs.Float.Ieee.{of_bits, to_bits};
ghost use Rattle.scenario.specs.Format.{format};

// The bit of the sign, the pattern of +infinity, and that of the NaN that is written.
const SIGN: u32 = 0x8000_0000;

const INFINITY: u32 = 0x7f80_0000;

const NAN: u32 = 0x7fc0_0000;

// The float of a pattern. The patterns above an infinity's, less the sign, are those of a NaN.
pub fn float_of(bits: u32) -> f32
    ensures { result ≡ of_bits format bits }
{
    if bits % SIGN > INFINITY {
        return 0.0 / 0.0;
    }
    f32::from_bits(bits)
}

// The pattern of a float.
pub fn bits_of(x: f32) -> u32
    ensures { result ≡ to_bits format x }
{
    if x.is_nan() {
        return NAN;
    }
    x.to_bits()
}
